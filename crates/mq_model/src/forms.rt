//! Whether the caller and the payload of a record are well-formed, whatever comes before it.
ghost use Rattle.std.specs.Prelude.{◌≡◌, ◌&&◌, nat_le};
ghost use Rattle.mq_model.specs.Limits.{most_callers, most_processes};
ghost use Rattle.mq_model.specs.Legality.{is_refused, is_payload};

use crate::entries::{Call, Reply};
use crate::limits::{CALLERS, PROCESSES};
use crate::names::is_name;

/// Whether this is the number of a process.
pub fn is_process(p: u32) -> bool
    ensures { result ≡ (nat_le 1 p && nat_le p most_processes) }
{
    1 <= p && p <= PROCESSES
}

/// Whether this is the number of a caller.
pub fn is_caller(p: u32) -> bool
    ensures { result ≡ (nat_le 1 p && nat_le p most_callers) }
{
    1 <= p && p <= CALLERS
}

fn is_refused(reply: Reply) -> bool
    ensures { result ≡ is_refused reply }
{
    match reply {
        Reply::Refused(_) => true,
        _ => false,
    }
}

/// Whether a call with this reply has this payload: the name of an open or an unlink, the message
/// of a send that did not fail, and otherwise nothing.
pub fn is_payload(call: Call, reply: Reply, payload: &[u8]) -> bool
    ensures { result ≡ is_payload call reply payload.now }
{
    match call {
        Call::MqOpen { flags: _, attr: _ } => is_name(payload),
        Call::MqUnlink => is_name(payload),
        Call::MqSend { d: _, prio: _, len } => payload.len() as u64
            == if is_refused(reply) { 0 } else { len },
        Call::MqTimedSend {
            d: _,
            prio: _,
            len,
            until: _,
            now: _,
        } => payload.len() as u64 == if is_refused(reply) { 0 } else { len },
        _ => payload.is_empty(),
    }
}
