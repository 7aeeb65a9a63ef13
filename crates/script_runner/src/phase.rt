//! A phase: each process that has calls makes them in a thread of its own.
ghost use Rattle.std.specs.Prelude.{◌≡◌, [], IfNone, IfOk, IfSome, vec_len};
ghost use Rattle.mq.specs.Calls.{IsFree};
ghost use Rattle.script_runner.specs.Buffer.{buffer_given};
ghost use Rattle.script_runner.specs.Members.{AllGive, AllHaveShares, Gives};
ghost use Rattle.script_runner.specs.Phase.{AllEnd, AreReady, Ends};
ghost use Rattle.script_runner.specs.Runs.{Blocks, IsReady, IsSameProcess, Performs};
ghost use Rattle.script_text.specs.Grammar.{said};
ghost use Rattle.script_text.specs.Replies.{HasMessage};

use crate::calls::perform;
use crate::gate::Gate;
use crate::peers::{Peer, leave, leave_all, peers_of};
use crate::turns::{Share, Turn, Worked};
use fast_mutex::Look;
use mq::{Guarded, Mq, Process};
use script_text::reply::{Completion, Outcome};
use std::alloc::{AllocError, Global};
use std::snapshot::Snapshot;
use std::sync::Wait;
use std::thread;
use std::thread::{Promise, PromisedHandle, Threads};
use std::time::Clock;

/// A thread promises to return the process of its share, which has made its calls or waits in one of
/// them.
#[derive(Drop)]
pub struct Works<'s, L: Look<Guarded>>(Snapshot<Share<'s, Process<L>>>);

impl<'s, L: Look<Guarded>> Promise<Worked<Process<L>>> for Works<'s, L> {
    ghost kept_by = { λ p worked. Ends p.0.value worked };
}

/// A process of a phase that has begun: idle, or in its thread.
#[derive(Drop)]
enum Member<'s, L: Look<Guarded>> {
    Idle(Worked<Process<L>>),
    Busy(PromisedHandle<Worked<Process<L>>, Works<'s, L>>),
}

/// Makes the calls of a phase, each process up to one that waits for ever, and joins all its
/// threads. Fails if memory or a thread was refused; threads that were started have then run to
/// their end.
pub fn make_calls<'s, L: Look<Guarded> + Sync, R: Threads + Wait + Clock + Sync, G: Gate + Sync>(
    rt: &'s R,
    alloc: Global,
    mq: &'s Mq<L>,
    gate: &'s G,
    shares: Vec<Share<'s, Process<L>>>,
) -> Result<Vec<Worked<Process<L>>>, AllocError>
where
    L::Seat: Send,
    L::Walk: Send,
    requires { AreReady mq.now shares.items }
    ensures { IfOk result (λ workers. AllEnd shares.entry.items workers.items) }
{
    let peers = peers_of(alloc, &shares)?;
    let workers = Vec::with_capacity(alloc, shares.len())?;
    let members = start_all(rt, alloc, mq, gate, &peers, shares)?;
    join_all(rt, members, workers)
}

// Starts the threads of a phase. They have run to their end when it returns.
fn start_all<'s, L: Look<Guarded> + Sync, R: Threads + Wait + Clock + Sync, G: Gate + Sync>(
    rt: &'s R,
    alloc: Global,
    mq: &'s Mq<L>,
    gate: &'s G,
    peers: &'s [Peer],
    shares: Vec<Share<'s, Process<L>>>,
) -> Result<Vec<Member<'s, L>>, AllocError>
where
    L::Seat: Send,
    L::Walk: Send,
    requires { AreReady mq.now shares.items }
    ensures { IfOk result (λ members. AllHaveShares shares.entry.items members.items) }
{
    thread::scope(
        thread::scope_env(),
        rt,
        |scope| -> Result<Vec<Member<L>>, AllocError>
            requires { AreReady mq.now shares.items }
            ensures { IfOk result (λ members. AllHaveShares shares.entry.items members.items) }
        {
            let mut members = Vec::with_capacity(alloc, shares.len())?;
            for share in shares {
                let member = if share.turns.len() == 0 {
                    Member::Idle(idle(share))
                } else {
                    let promise = Works(Snapshot::of(&share));
                    match scope.spawn_with(promise, move || work(rt, mq, gate, peers, share)) {
                        Ok(handle) => Member::Busy(handle),
                        Err(refused) => {
                            leave_all(peers);
                            return Err(AllocError::from(refused));
                        }
                    }
                };
                members.push(member)?;
            }
            Ok(members)
        },
    )
}

fn join_all<L: Look<Guarded>, R: Threads + Wait>(
    rt: &R,
    members: Vec<Member<'_, L>>,
    mut workers: Vec<Worked<Process<L>>>,
) -> Result<Vec<Worked<Process<L>>>, AllocError>
    requires { workers.items ≡ [] }
    ensures { IfOk result (λ workers. AllGive members.entry.items workers.items) }
{
    for member in members {
        workers.push(joined(rt, member))?;
    }
    Ok(workers)
}

fn joined<L: Look<Guarded>, R: Threads + Wait>(rt: &R, member: Member<'_, L>) -> Worked<Process<L>>
    ensures { Gives member.entry result }
{
    match member {
        Member::Idle(worked) => worked,
        Member::Busy(handle) => handle.join(rt),
    }
}

fn idle<L: Look<Guarded>>(share: Share<'_, Process<L>>) -> Worked<Process<L>>
    requires free { IsFree share.process }
    requires none { vec_len share.turns ≡ 0 }
    ensures { Ends share.entry result }
{
    Worked {
        process: share.process,
        completions: share.completions,
        blocked: None,
    }
}

// Makes the calls of a share in order, up to one that waits for ever.
fn work<L: Look<Guarded>, R: Wait + Clock, G: Gate>(
    rt: &R,
    mq: &Mq<L>,
    gate: &G,
    peers: &[Peer],
    share: Share<'_, Process<L>>,
) -> Worked<Process<L>>
    requires { IsReady mq.now share.process }
    ensures { Ends share.entry result }
{
    let Share {
        mut process,
        turns,
        mut completions,
    } = share;
    for turn in turns {
        let line = turn.call.line;
        gate.before(process.number(), line);
        match complete(rt, mq, &mut process, peers, turn) {
            Some(completion) => {
                gate.after(process.number(), line);
                completions.push_reserved(completion);
            }
            None => {
                return Worked {
                    process,
                    completions,
                    blocked: Some(line),
                };
            }
        }
    }
    leave(peers, process.number());
    Worked {
        process,
        completions,
        blocked: None,
    }
}

fn complete<L: Look<Guarded>, R: Wait + Clock>(
    rt: &R,
    mq: &Mq<L>,
    process: &mut Process<L>,
    peers: &[Peer],
    turn: Turn<'_>,
) -> Option<Completion>
    requires { IsReady mq.now process.old }
    ensures same { IsSameProcess process.old process.new }
    ensures free { IfSome result (λ _. IsFree process.new) }
    ensures performed { IfSome result (λ completion.
        Performs turn.entry.call.clock.moment (said turn.entry.call.command)
        (buffer_given (said turn.entry.call.command)) completion.buffer.items process.old
        process.new completion.outcome) }
    ensures blocks { IfNone result (Blocks turn.entry.call.clock.moment
        (said turn.entry.call.command) (buffer_given (said turn.entry.call.command)) process.old
        process.new) }
{
    let Turn { call, mut buffer } = turn;
    let outcome = perform(
        rt,
        mq,
        process,
        peers,
        &call.clock,
        &call.command,
        buffer.as_mut_slice(),
    )?;
    Some(completion_of(outcome, buffer))
}

// What a call returned, with its buffer afterwards.
fn completion_of(outcome: Outcome, buffer: Vec<u8>) -> Completion
    requires { HasMessage outcome (vec_len buffer) }
    ensures outcome { result.outcome ≡ outcome }
    ensures buffer { result.buffer ≡ buffer }
{
    Completion { outcome, buffer }
}
