//! Making the calls of commands.
ghost use Rattle.std.specs.Prelude.{◌≡◌, IfNone, IfSome, length};
ghost use Rattle.mq.specs.Calls.{IsFree};
ghost use Rattle.script_text.specs.Grammar.{said};
ghost use Rattle.script_text.specs.Replies.{HasMessage};
ghost use Rattle.script_runner.specs.Runs.{Blocks, IsSameProcess, Performs, outcome_by};
ghost use Rattle.script_text.specs.declared.reply.Outcome.TheVariants as outcomes;

use crate::peers::Peer;
use crate::waiting;
use fast_mutex::Look;
use mq::{Guarded, Mq, Process};
use mq_model::entries::{Call, Status};
use mq_model::faults::Fault;
use mq_model::names::Name;
use script_text::clock::FixedClock;
use script_text::command::Command;
use script_text::reply::Outcome;
use std::sync::Wait;
use std::time::Clock;

/// Makes the call of a command, which may block. A call with a deadline is made at the time of the
/// clock. A received message is at the start of the buffer. `None` if the call waits for ever,
/// because all peers that may still call are blocked.
pub fn perform<L: Look<Guarded>, R: Wait + Clock>(
    rt: &R,
    mq: &Mq<L>,
    process: &mut Process<L>,
    peers: &[Peer],
    clock: &FixedClock,
    command: &Command<&[u8]>,
    buffer: &mut [u8],
) -> Option<Outcome>
    requires made { process.old.lock ≡ mq.now }
    requires free { IsFree process.old }
    ensures same { IsSameProcess process.old process.new }
    ensures free { IfSome result (λ _. IsFree process.new) }
    ensures message { IfSome result (λ came. HasMessage came (length buffer.old)) }
    ensures performed { IfSome result (Performs clock.now.moment
        (said command.now) buffer.old buffer.new process.old process.new) }
    ensures blocks { IfNone result (Blocks clock.now.moment
        (said command.now) buffer.old process.old process.new) }
{
    let now = clock.moment;
    match *command {
        Command::Open { name, flags, attr } => match Name::read(name) {
            Ok(name) => Some(opened(process.open(rt, mq, &name, flags, attr))),
            Err(fault) => Some(Outcome::Refused(fault)),
        },
        Command::Close { d } => Some(done(process.close(rt, mq, d))),
        Command::Unlink { name } => match Name::read(name) {
            Ok(name) => Some(done(process.unlink(rt, mq, &name))),
            Err(fault) => Some(Outcome::Refused(fault)),
        },
        Command::Send { d, prio, message } => {
            let len = message.len() as u64;
            let call = Call::MqSend { d, prio, len };
            waiting::send(rt, mq, process, peers, call, message)
        }
        Command::Receive { d, room: _ } => {
            let room = buffer.len() as u64;
            let call = Call::MqReceive { d, room };
            waiting::receive(rt, mq, process, peers, call, buffer)
        }
        Command::TimedSend {
            d,
            prio,
            until,
            message,
        } => {
            let len = message.len() as u64;
            let call = Call::MqTimedSend {
                d,
                prio,
                len,
                until,
                now,
            };
            waiting::send(rt, mq, process, peers, call, message)
        }
        Command::TimedReceive { d, room: _, until } => {
            let room = buffer.len() as u64;
            let call = Call::MqTimedReceive {
                d,
                room,
                until,
                now,
            };
            waiting::receive(rt, mq, process, peers, call, buffer)
        }
        Command::Getattr { d } => Some(attributes(process.getattr(rt, mq, d))),
        Command::Setattr { d, nonblock } => {
            let call = Call::MqSetattr { d, nonblock };
            Some(attributes(process.make(rt, mq, call, &[], &mut [])))
        }
        Command::Notify { d, value } => Some(done(process.notify(rt, mq, d, value))),
        Command::Notice => Some(notice(process.next_notice(rt, mq))),
        Command::Exit => Some(done(process.exit(rt, mq))),
    }
}

fn opened(returned: Result<u32, Fault>) -> Outcome
    ensures { result ≡ outcome_by outcomes.Opened returned }
{
    match returned {
        Ok(d) => Outcome::Opened(d),
        Err(fault) => Outcome::Refused(fault),
    }
}

fn done(returned: Result<(), Fault>) -> Outcome
    ensures { result ≡ outcome_by (λ _. outcomes.Done) returned }
{
    match returned {
        Ok(()) => Outcome::Done,
        Err(fault) => Outcome::Refused(fault),
    }
}

fn attributes(returned: Result<Status, Fault>) -> Outcome
    ensures { result ≡ outcome_by outcomes.Attrs returned }
{
    match returned {
        Ok(status) => Outcome::Attrs(status),
        Err(fault) => Outcome::Refused(fault),
    }
}

fn notice(returned: Result<Option<u64>, Fault>) -> Outcome
    ensures { result ≡ outcome_by outcomes.Notice returned }
{
    match returned {
        Ok(value) => Outcome::Notice(value),
        Err(fault) => Outcome::Refused(fault),
    }
}
