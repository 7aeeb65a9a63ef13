//! The numbers of a record fit their types. These functions do nothing at run time.
ghost use Rattle.journal_format.specs.Fitting.{CallFits, Fits, ReplyFits};

use mq_model::entries::{Attr, Call, Entry, Reply};

/// The numbers of a call.
pub fn call_fits(call: Call)
    ensures { CallFits call }
{
    match call {
        Call::MqOpen { flags: _, attr } => {
            if let Some(
                Attr {
                    maxmsg: _maxmsg,
                    msgsize: _msgsize,
                },
            ) = attr
            {}
        }
        Call::MqClose { d: _d } => {}
        Call::MqUnlink => {}
        Call::MqSend {
            d: _d,
            prio: _prio,
            len: _len,
        } => {}
        Call::MqReceive { d: _d, room: _room } => {}
        Call::MqTimedSend {
            d: _d,
            prio: _prio,
            len: _len,
            until: _until,
            now: _now,
        } => {}
        Call::MqTimedReceive {
            d: _d,
            room: _room,
            until: _until,
            now: _now,
        } => {}
        Call::MqGetattr { d: _d } => {}
        Call::MqSetattr { d: _d, nonblock: _ } => {}
        Call::MqNotify {
            d: _d,
            value: _value,
        } => {}
        Call::NextNotice => {}
        Call::Collect => {}
        Call::Withdraw { now: _now } => {}
    }
}

/// The numbers of a reply.
pub fn reply_fits(reply: Reply)
    ensures { ReplyFits reply }
{
    match reply {
        Reply::Opened { d: _d, created: _ } => {}
        Reply::Queued {
            notified: _notified,
        } => {}
        Reply::Handed { wait: _wait } => {}
        Reply::Waits => {}
        Reply::Got {
            place: _place,
            admitted: _admitted,
            notified: _notified,
        } => {}
        Reply::Collected { by: _by } => {}
        Reply::Withdrawn { wait: _wait } => {}
        Reply::Attrs(_status) => {}
        Reply::Notice(_value) => {}
        Reply::Done => {}
        Reply::Refused(_) => {}
    }
}

/// The numbers of an entry with its payload.
pub fn fits(entry: Entry, payload: &[u8])
    ensures { Fits (record { entry = entry; payload = payload.now }) }
{
    let _process = entry.process;
    call_fits(entry.call);
    reply_fits(entry.reply);
}
