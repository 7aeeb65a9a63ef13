//! What each kind of call of a process returns, given the reply.
ghost use Rattle.std.specs.Prelude.{true, Some, None};

use mq_model::entries::{Call, Received, Reply, Status};
use mq_model::faults::Fault;
use mq_state::books::Books;
use mq_state::collected::Answer;

/// The result of a kind of call. The type determines the kind.
pub trait Returned: Drop {
    ghost use Rattle.std.specs.Prelude.{◌≡◌, ◌≤◌, true, Some, None, length};
    ghost use Rattle.mq_model.specs.Messages.{is_receive};
    ghost use Rattle.mq_model.specs.Record.{Past};
    ghost use Rattle.mq_model.specs.Waits.{open_wait};
    ghost use Rattle.mq_state.specs.Buffers.{filled, received_by};
    ghost use Rattle.mq_state.specs.Kept.{IsMade};
    ghost use Rattle.mq_state.specs.Requests.{Brings};
    ghost use Rattle.mq.specs.Kinds.{Kind, IsKind};

    ghost kind: { Kind Self };

    /// Makes a call of this kind. Frequent kinds have a faster body of their own, since the kind is
    /// known at compile time.
    #[inline(always)]
    fn ask(books: &mut Books, p: u32, call: Call, given: &[u8], buf: &mut [u8]) -> Answer
        requires process { (1 ≤ p) × (p ≤ books.old.n) }
        requires no_wait { open_wait books.old.records p ≡ None }
        requires brings { Brings call given.now (length buf.old) }
        ensures made { IsMade books.old books.new p call given.now result.reply }
        ensures received { result.received ≡ received_by books.old.records result.reply }
        ensures buffer { is_receive call ≡ true →
            buf.new ≡ filled books.old.records result.reply buf.old }
    {
        books.ask(p, call, given, buf)
    }

    /// The result of a call with this answer.
    fn of_answer(answer: Answer) -> Self
        requires replies { kind.replies answer.reply ≡ true }
        ensures { (past : Past) → answer.received ≡ received_by past answer.reply →
            kind.says past answer.reply ≡ Some result };

    ghost is_kind: { IsKind kind };
}

/// An open returns the descriptor.
impl Returned for Result<u32, Fault> {
    ghost use Rattle.mq.specs.Kinds.{open_kind};
    ghost use Rattle.mq.specs.KindsHold.{open-is_kind};

    ghost kind = { open_kind };

    #[inline(always)]
    fn of_answer(answer: Answer) -> Result<u32, Fault> {
        match answer.reply {
            Reply::Opened { d, .. } => Ok(d),
            Reply::Refused(fault) => Err(fault),
            _ => unreachable!(),
        }
    }

    ghost is_kind = { open-is_kind };
}

/// A close, an unlink and a notify return nothing.
impl Returned for Result<(), Fault> {
    ghost use Rattle.mq.specs.Kinds.{done_kind};
    ghost use Rattle.mq.specs.KindsHold.{done-is_kind};

    ghost kind = { done_kind };

    #[inline(always)]
    fn of_answer(answer: Answer) -> Result<(), Fault> {
        match answer.reply {
            Reply::Done => Ok(()),
            Reply::Refused(fault) => Err(fault),
            _ => unreachable!(),
        }
    }

    ghost is_kind = { done-is_kind };
}

/// A getattr and a setattr return the attributes.
impl Returned for Result<Status, Fault> {
    ghost use Rattle.mq.specs.Kinds.{attributes_kind};
    ghost use Rattle.mq.specs.KindsHold.{attributes-is_kind};

    ghost kind = { attributes_kind };

    #[inline(always)]
    fn of_answer(answer: Answer) -> Result<Status, Fault> {
        match answer.reply {
            Reply::Attrs(status) => Ok(status),
            Reply::Refused(fault) => Err(fault),
            _ => unreachable!(),
        }
    }

    ghost is_kind = { attributes-is_kind };
}

/// A request for the oldest notice returns its value, if there is one.
impl Returned for Result<Option<u64>, Fault> {
    ghost use Rattle.mq.specs.Kinds.{notice_kind};
    ghost use Rattle.mq.specs.KindsHold.{notice-is_kind};

    ghost kind = { notice_kind };

    #[inline(always)]
    fn of_answer(answer: Answer) -> Result<Option<u64>, Fault> {
        match answer.reply {
            Reply::Notice(value) => Ok(value),
            Reply::Refused(fault) => Err(fault),
            _ => unreachable!(),
        }
    }

    ghost is_kind = { notice-is_kind };
}

/// A send returns true if the message was accepted, and false if it waits.
impl Returned for Result<bool, Fault> {
    ghost use Rattle.mq.specs.Kinds.{send_kind};
    ghost use Rattle.mq.specs.KindsHold.{send-is_kind};

    ghost kind = { send_kind };

    #[inline(always)]
    fn ask(books: &mut Books, p: u32, call: Call, given: &[u8], buf: &mut [u8]) -> Answer {
        match call {
            Call::MqSend { d, prio, .. } => books.ask_send(p, d, given, prio),
            _ => books.ask(p, call, given, buf),
        }
    }

    #[inline]
    fn of_answer(answer: Answer) -> Result<bool, Fault> {
        match answer.reply {
            Reply::Queued { .. } => Ok(true),
            Reply::Handed { .. } => Ok(true),
            Reply::Waits => Ok(false),
            Reply::Refused(fault) => Err(fault),
            _ => unreachable!(),
        }
    }

    ghost is_kind = { send-is_kind };
}

/// A receive returns what it received, or `None` if it waits.
impl Returned for Result<Option<Received>, Fault> {
    ghost use Rattle.mq.specs.Kinds.{receive_kind};
    ghost use Rattle.mq.specs.KindsHold.{receive-is_kind};

    ghost kind = { receive_kind };

    #[inline(always)]
    fn ask(books: &mut Books, p: u32, call: Call, given: &[u8], buf: &mut [u8]) -> Answer {
        match call {
            Call::MqReceive { d, .. } => books.ask_receive(p, d, buf),
            _ => books.ask(p, call, given, buf),
        }
    }

    #[inline]
    fn of_answer(answer: Answer) -> Result<Option<Received>, Fault> {
        match answer.reply {
            Reply::Got { .. } => Ok(answer.received),
            Reply::Waits => Ok(None),
            Reply::Refused(fault) => Err(fault),
            _ => unreachable!(),
        }
    }

    ghost is_kind = { receive-is_kind };
}
