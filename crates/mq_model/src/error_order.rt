//! The reply to each call, from the facts that it depends on: the cases of the standard, in the
//! order of errors. The queues take the facts from their tables, the checker takes them from the
//! entries, and the definitions give them for every journal.
ghost use Rattle.std.specs.Prelude.{◌≡◌, ◌<◌, ◌^◌, IfSome, pos, int_lt};
ghost use Rattle.mq_model.specs.Names.{attributes_given, are_within_limits};

use crate::callers::share;
use crate::entries::{
    Access, Attr, Call, Deadline, Description, OpenFlags, Registration, Reply, Status,
};
use crate::faults::Fault;
use crate::limits;

/// What the reply to an open depends on: whether its name is bound, the lowest descriptor that the
/// process does not hold, and the number of queues that exist.
#[derive(Clone, Copy, Debug)]
pub struct OpenFacts {
    pub bound: bool,
    pub free: Option<u32>,
    pub queues: u64,
}

/// What the reply to a send on a descriptor depends on: the descriptor, the attributes of its
/// queue, the number of messages present, the receive that has waited longest, and the
/// registration.
#[derive(Clone, Copy, Debug)]
pub struct SendFacts {
    pub description: Description,
    pub attributes: Attr,
    pub count: u64,
    pub waiting: Option<u64>,
    pub registered: Option<u64>,
}

/// What the reply to a receive on a descriptor depends on: the descriptor, the attributes of its
/// queue, the number of messages present, the best of them, the send that has waited longest, and
/// the registration.
#[derive(Clone, Copy, Debug)]
pub struct ReceiveFacts {
    pub description: Description,
    pub attributes: Attr,
    pub count: u64,
    pub best: Option<u64>,
    pub waiting: Option<u64>,
    pub registered: Option<u64>,
}

/// What the reply to a getattr or a setattr depends on: the descriptor, the attributes of its
/// queue, and the number of messages present.
#[derive(Clone, Copy, Debug)]
pub struct StatusFacts {
    pub description: Description,
    pub attributes: Attr,
    pub count: u64,
}

/// What the reply to a notify on a descriptor depends on: the registration on its queue.
#[derive(Clone, Copy, Debug)]
pub struct NotifyFacts {
    pub registered: Option<Registration>,
}

ghost use Rattle.mq_model.specs.Deadlines.{is_moment, has_passed, is_over};
ghost use Rattle.mq_model.specs.ErrorOrder.{timed_reply, is_read_only, is_write_only, is_full_with, is_of, open_reply, close_reply, unlink_reply, accepted_reply, send_reply, found_reply, receive_reply, status_reply, notify_reply};

/// `maxmsg` and `msgsize` of a queue that is created without attributes.
pub const DEFAULT_ATTRIBUTES: Attr = Attr {
    maxmsg: limits::DEFAULT_MESSAGES,
    msgsize: limits::DEFAULT_MESSAGE_BYTES,
};

/// The attributes that an open gives the queue that it creates (`mq_open`).
pub fn attributes_given(call: Call) -> Attr
    ensures { result ≡ attributes_given call }
{
    match call {
        Call::MqOpen { flags: _, attr } => attr.unwrap_or(DEFAULT_ATTRIBUTES),
        _ => DEFAULT_ATTRIBUTES,
    }
}

fn are_within_limits(attr: Option<Attr>) -> bool
    ensures { result ≡ are_within_limits attr }
{
    match attr {
        None => true,
        Some(attr) => {
            1 <= attr.maxmsg
                && attr.maxmsg <= limits::MESSAGES
                && 1 <= attr.msgsize
                && attr.msgsize <= limits::MESSAGE_BYTES
        }
    }
}

fn is_read_only(access: Access) -> bool
    ensures { result ≡ is_read_only access }
{
    match access {
        Access::Read => true,
        _ => false,
    }
}

fn is_write_only(access: Access) -> bool
    ensures { result ≡ is_write_only access }
{
    match access {
        Access::Write => true,
        _ => false,
    }
}

fn is_too_long(attributes: Attr, len: u64) -> bool
    ensures { result ≡ int_lt attributes.msgsize (pos len) }
{
    i128::from(attributes.msgsize) < i128::from(len)
}

fn is_too_short(room: u64, attributes: Attr) -> bool
    ensures { result ≡ int_lt (pos room) attributes.msgsize }
{
    i128::from(room) < i128::from(attributes.msgsize)
}

fn is_full_with(attributes: Attr, count: u64) -> bool
    ensures { result ≡ is_full_with attributes count }
{
    i128::from(attributes.maxmsg) <= i128::from(count)
}

/// The reply to an open (`mq_open`).
pub fn open(flags: OpenFlags, attr: Option<Attr>, facts: OpenFacts) -> Reply
    ensures { result ≡ open_reply flags attr facts }
{
    if flags.create && flags.excl && facts.bound {
        return Reply::Refused(Fault::Exists);
    }
    if !flags.create && !facts.bound {
        return Reply::Refused(Fault::NoEntry);
    }
    if !facts.bound && !are_within_limits(attr) {
        return Reply::Refused(Fault::Invalid);
    }
    let Some(d) = facts.free else {
        return Reply::Refused(Fault::TooManyOpen);
    };
    if !facts.bound && facts.queues >= limits::QUEUES {
        return Reply::Refused(Fault::NoSpace);
    }
    Reply::Opened {
        d,
        created: !facts.bound,
    }
}

/// The reply to a close, given what the process holds under the descriptor (`mq_close`).
pub fn close(held: Option<Description>) -> Reply
    ensures { result ≡ close_reply held }
{
    if held.is_some() {
        Reply::Done
    } else {
        Reply::Refused(Fault::BadDescriptor)
    }
}

/// The reply to an unlink, given the queue that the name is bound to (`mq_unlink`).
pub fn unlink(bound: Option<u64>) -> Reply
    ensures { result ≡ unlink_reply bound }
{
    if bound.is_some() {
        Reply::Done
    } else {
        Reply::Refused(Fault::NoEntry)
    }
}

// The reply to a send without an error.
fn accepted(waiting: Option<u64>, full: bool, notified: Option<u64>) -> Reply
    ensures { result ≡ accepted_reply waiting full notified }
{
    match waiting {
        Some(wait) => Reply::Handed { wait },
        None => {
            if full {
                return Reply::Waits;
            }
            Reply::Queued { notified }
        }
    }
}

/// The reply to a send of a message of this priority and length, with the facts about its
/// descriptor, or none if the process does not hold it (`mq_send`).
#[inline(always)]
pub fn send(prio: u32, len: u64, facts: Option<SendFacts>) -> Reply
    ensures { result ≡ send_reply prio len facts }
{
    let Some(facts) = facts else {
        return Reply::Refused(Fault::BadDescriptor);
    };
    if is_read_only(facts.description.access) {
        return Reply::Refused(Fault::BadDescriptor);
    }
    if prio >= limits::PRIORITIES {
        return Reply::Refused(Fault::Invalid);
    }
    if is_too_long(facts.attributes, len) {
        return Reply::Refused(Fault::MessageSize);
    }
    let full = is_full_with(facts.attributes, facts.count);
    if full && facts.description.nonblock {
        return Reply::Refused(Fault::Again);
    }
    let notified = if facts.count == 0 {
        facts.registered
    } else {
        None
    };
    accepted(facts.waiting, full, notified)
}

// The reply to a receive without an earlier error, given the best message.
fn found(nonblock: bool, best: Option<u64>, waiting: Option<u64>, notified: Option<u64>) -> Reply
    ensures { result ≡ found_reply nonblock best waiting notified }
{
    match best {
        None => {
            if nonblock {
                return Reply::Refused(Fault::Again);
            }
            Reply::Waits
        }
        Some(place) => Reply::Got {
            place,
            admitted: waiting,
            notified,
        },
    }
}

/// The reply to a receive into a buffer of this length, with the facts about its descriptor, or
/// none if the process does not hold it (`mq_receive`).
#[inline(always)]
pub fn receive(room: u64, facts: Option<ReceiveFacts>) -> Reply
    ensures { result ≡ receive_reply room facts }
{
    let Some(facts) = facts else {
        return Reply::Refused(Fault::BadDescriptor);
    };
    if is_write_only(facts.description.access) {
        return Reply::Refused(Fault::BadDescriptor);
    }
    if is_too_short(room, facts.attributes) {
        return Reply::Refused(Fault::MessageSize);
    }
    let notified = if facts.waiting.is_some() && facts.count == 1 {
        facts.registered
    } else {
        None
    };
    found(
        facts.description.nonblock,
        facts.best,
        facts.waiting,
        notified,
    )
}

fn is_moment(moment: Deadline) -> bool
    ensures { result ≡ is_moment moment }
{
    0 <= moment.nsec && moment.nsec < limits::NANOSECONDS
}

fn has_passed(until: Deadline, now: Deadline) -> bool
    ensures { result ≡ has_passed until now }
{
    until.sec < now.sec || (until.sec == now.sec && until.nsec <= now.nsec)
}

/// Whether a wait has a deadline that has passed at the time `now`.
pub fn is_over(until: Option<Deadline>, now: Deadline) -> bool
    ensures { result ≡ is_over until now }
{
    match until {
        None => false,
        Some(until) => has_passed(until, now),
    }
}

/// The reply to a send or a receive with a deadline, made at the time `now`. `reply` is the reply
/// to the same call without a deadline: the deadline matters only if that would wait
/// (`mq_timedsend`, `mq_timedreceive`).
pub fn timed(until: Deadline, now: Deadline, reply: Reply) -> Reply
    ensures { result ≡ timed_reply until now reply }
{
    let Reply::Waits = reply else {
        return reply;
    };
    if !is_moment(until) {
        return Reply::Refused(Fault::Invalid);
    }
    if has_passed(until, now) {
        return Reply::Refused(Fault::TimedOut);
    }
    Reply::Waits
}

/// The reply to a getattr or a setattr, with the facts about its descriptor, or none if the process
/// does not hold it (`mq_getattr`, `mq_setattr`).
pub fn status(facts: Option<StatusFacts>) -> Reply
    requires { IfSome facts (λ f. f.count < 2 ^ 63) }
    ensures { result ≡ status_reply facts }
{
    let Some(facts) = facts else {
        return Reply::Refused(Fault::BadDescriptor);
    };
    Reply::Attrs(Status {
        nonblock: facts.description.nonblock,
        maxmsg: facts.attributes.maxmsg,
        msgsize: facts.attributes.msgsize,
        curmsgs: facts.count as i64,
    })
}

fn is_of(p: u32, registered: Option<Registration>) -> bool
    ensures { result ≡ is_of p registered }
{
    match registered {
        None => false,
        Some(n) => share(n.process, p),
    }
}

/// The reply to a notify of process p, a registration with a value or a removal, with the facts
/// about its descriptor, or none if the process does not hold it (`mq_notify`).
pub fn notify(p: u32, value: Option<u64>, facts: Option<NotifyFacts>) -> Reply
    ensures { result ≡ notify_reply p value facts }
{
    let Some(facts) = facts else {
        return Reply::Refused(Fault::BadDescriptor);
    };
    match value {
        Some(_) => {
            if facts.registered.is_some() {
                return Reply::Refused(Fault::Busy);
            }
            Reply::Done
        }
        None => {
            if is_of(p, facts.registered) {
                return Reply::Done;
            }
            Reply::Refused(Fault::Invalid)
        }
    }
}
