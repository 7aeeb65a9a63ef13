//! Equality of replies.
ghost use Rattle.std.specs.Prelude.{◌≡◌, IsTrue, ◌↔◌};

use crate::entries::{Reply, Status};
use crate::faults::Fault;

fn is_same_fault(one: Fault, other: Fault) -> bool
    ensures { IsTrue result ↔ (one ≡ other) }
{
    one.number() == other.number()
}

fn is_same_place(one: Option<u64>, other: Option<u64>) -> bool
    ensures { IsTrue result ↔ (one ≡ other) }
{
    one == other
}

#[tactic(auto, using(crate::proofs::SameReplies::status_from))]
fn is_same_status(one: Status, other: Status) -> bool
    ensures { IsTrue result ↔ (one ≡ other) }
{
    if one.nonblock != other.nonblock {
        return false;
    }
    if one.maxmsg != other.maxmsg {
        return false;
    }
    if one.msgsize != other.msgsize {
        return false;
    }
    if one.curmsgs != other.curmsgs {
        return false;
    }
    true
}

/// Whether two replies are equal.
pub fn is_same(one: Reply, other: Reply) -> bool
    ensures { IsTrue result ↔ (one ≡ other) }
{
    match one {
        Reply::Opened { d, created } => match other {
            Reply::Opened { d: e, created: c } => d == e && created == c,
            _ => false,
        },
        Reply::Queued { notified } => match other {
            Reply::Queued { notified: n } => is_same_place(notified, n),
            _ => false,
        },
        Reply::Handed { wait } => match other {
            Reply::Handed { wait: w } => wait == w,
            _ => false,
        },
        Reply::Waits => match other {
            Reply::Waits => true,
            _ => false,
        },
        Reply::Got {
            place,
            admitted,
            notified,
        } => match other {
            Reply::Got {
                place: m,
                admitted: a,
                notified: n,
            } => place == m && is_same_place(admitted, a) && is_same_place(notified, n),
            _ => false,
        },
        Reply::Collected { by } => match other {
            Reply::Collected { by: b } => by == b,
            _ => false,
        },
        Reply::Withdrawn { wait } => match other {
            Reply::Withdrawn { wait: w } => wait == w,
            _ => false,
        },
        Reply::Attrs(status) => match other {
            Reply::Attrs(s) => is_same_status(status, s),
            _ => false,
        },
        Reply::Notice(value) => match other {
            Reply::Notice(v) => is_same_place(value, v),
            _ => false,
        },
        Reply::Done => match other {
            Reply::Done => true,
            _ => false,
        },
        Reply::Refused(fault) => match other {
            Reply::Refused(f) => is_same_fault(fault, f),
            _ => false,
        },
    }
}
