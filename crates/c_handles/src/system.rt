//! Making a system, and freeing a handle.
ghost use Rattle.std.specs.Prelude.{◌≡◌, ◌≤◌, ◌<◌, ◌⊎◌, true, false, Some, None, Option, [], length, map, IfOk, IfSome, vec_len};
ghost use Rattle.std.specs.List.{All, list_all};
ghost use Rattle.std.specs.Arc.{arc_value};
ghost use Rattle.fast_mutex.specs.Items.{tickets_from};
ghost use Rattle.mq_model.specs.declared.faults.Fault.TheVariants.{Invalid, NoMemory};
ghost use Rattle.mq.specs.Calls.{bounds_in, stored_in};
ghost use Rattle.c_handles.specs.Standings.{ticket_of};
ghost use Rattle.c_handles.specs.Handles.{process_in};
ghost use Rattle.c_handles.specs.Codes.{freed_code};
ghost use Rattle.c_handles.specs.Systems.{Fills, HandsOut, IsDeadlineOf, Makes, is_empty};

use crate::handle::Handle;
use crate::member::Member;
use crate::numbers::{DONE, EMPTY, FULL};
use mq::{Deadline, FastMq, FastProcess, Fault};
use mq_model::limits::PROCESSES;
use std::alloc::Global;
use std::sync::Arc;

/// The deadline of the open wait of each process. Index p is for process p.
pub type Deadlines = [Option<Deadline>; 33];

/// Makes a system with as many processes as there are handles, and puts the processes into the
/// handles, in order. There must be 1 to 32 handles, all empty.
pub fn new(alloc: Global, processes: &mut [Handle]) -> u32
    ensures { Makes None true processes.old processes.new result }
{
    let Some(n) = count_of(processes) else {
        return Fault::Invalid.number();
    };
    if !are_empty(processes) {
        return FULL;
    }
    match FastMq::new(alloc, n) {
        Ok((mq, made)) => hand_out_new(alloc, mq, made, processes),
        Err(fault) => fault.number(),
    }
}

/// The same, with a journal of at most `entries` entries and `bytes` payload bytes. It takes all
/// the memory that later calls need.
pub fn bounded(alloc: Global, processes: &mut [Handle], entries: u64, bytes: u64) -> u32
    ensures { Makes (Some (record { entries = entries; bytes = bytes })) true processes.old
        processes.new result }
{
    let Some(n) = count_of(processes) else {
        return Fault::Invalid.number();
    };
    if !are_empty(processes) {
        return FULL;
    }
    match FastMq::bounded(alloc, n, entries, bytes) {
        Ok((mq, made)) => hand_out_new(alloc, mq, made, processes),
        Err(fault) => fault.number(),
    }
}

/// The same, with a journal that is a history variable: contracts speak of it, and no byte of it is
/// stored.
pub fn unstored(alloc: Global, processes: &mut [Handle]) -> u32
    ensures { Makes None false processes.old processes.new result }
{
    let Some(n) = count_of(processes) else {
        return Fault::Invalid.number();
    };
    if !are_empty(processes) {
        return FULL;
    }
    match FastMq::unstored(alloc, n) {
        Ok((mq, made)) => hand_out_new(alloc, mq, made, processes),
        Err(fault) => fault.number(),
    }
}

/// The same, but an open that creates a queue also takes the memory that later calls on it need.
pub fn prepaid(alloc: Global, processes: &mut [Handle]) -> u32
    ensures { Makes None false processes.old processes.new result }
{
    let Some(n) = count_of(processes) else {
        return Fault::Invalid.number();
    };
    if !are_empty(processes) {
        return FULL;
    }
    match FastMq::prepaid(alloc, n) {
        Ok((mq, made)) => hand_out_new(alloc, mq, made, processes),
        Err(fault) => fault.number(),
    }
}

/// Empties a handle. Returns `DONE`, or `EMPTY` if it was empty. Its process is lost: its
/// descriptors stay open, and if it was acquiring the lock, it can keep all others out for good.
pub fn free(alloc: Global, process: &mut Handle) -> u32
    ensures empty { process_in process.new ≡ None }
    ensures code { result ≡ freed_code (process_in process.old) }
{
    match process.end(alloc) {
        Some(_) => DONE,
        None => EMPTY,
    }
}

/// Whether all handles are empty.
pub fn are_empty(processes: &[Handle]) -> bool
    ensures { result ≡ list_all is_empty processes.now }
{
    processes.iter().all(|process| process.is_empty())
}

/// The number of handles, if it is 1 to 32.
pub fn count_of(processes: &[Handle]) -> Option<u32>
    ensures some { IfSome result (λ n. (n ≡ length processes.now) × (1 ≤ n) × (n ≤ 32)) }
    ensures none { result ≡ None → (length processes.now ≡ 0) ⊎ (32 < length processes.now) }
{
    match processes.len() {
        n if n >= 1 && n <= PROCESSES as usize => Some(n as u32),
        _ => None,
    }
}

// Puts the processes of a new system into the handles.
fn hand_out_new(alloc: Global, mq: FastMq, made: Vec<FastProcess>, processes: &mut [Handle]) -> u32
    requires empty { list_all is_empty processes.old ≡ true }
    requires few { length processes.old ≤ 32 }
    requires count { mq.count ≡ length processes.old }
    requires made { made.items ≡ tickets_from mq 1 (length processes.old) }
    ensures { Fills (bounds_in mq.fixed) (stored_in mq.fixed) [] processes.old
        processes.new result }
{
    let deadlines = [None; 33];
    hand_out(alloc, mq, made, &deadlines, processes)
}

/// Puts the processes of a system into the handles, with the deadlines of their open waits.
pub fn hand_out(
    alloc: Global,
    mq: FastMq,
    made: Vec<FastProcess>,
    deadlines: &Deadlines,
    processes: &mut [Handle],
) -> u32
    requires empty { list_all is_empty processes.old ≡ true }
    requires count { length made.items ≡ length processes.old }
    requires made { All (λ p. p.lock ≡ mq) made.items }
    requires deadlines { All (IsDeadlineOf deadlines.now) made.items }
    ensures { HandsOut made.items processes.old processes.new result }
{
    let Ok(mq) = Arc::new(alloc, mq) else {
        return Fault::NoMemory.number();
    };
    let Ok(members) = members_of(alloc, &mq, made, deadlines) else {
        return Fault::NoMemory.number();
    };
    fill(processes, members);
    DONE
}

// A member for each process, in the same order.
fn members_of(
    alloc: Global,
    mq: &Arc<FastMq, Global>,
    made: Vec<FastProcess>,
    deadlines: &Deadlines,
) -> Result<Vec<Box<Member>>, Fault>
    requires made { All (λ p. p.lock ≡ arc_value mq.now) made.items }
    requires deadlines { All (IsDeadlineOf deadlines.now) made.items }
    ensures ok { IfOk result (λ members. map (λ b. ticket_of b.value.standing) members.items ≡
        made.items) }
{
    let Ok(mut members) = Vec::with_capacity(alloc, made.len()) else {
        return Err(Fault::NoMemory);
    };
    'made: for process in made {
        let Ok(mq) = Arc::try_clone(mq) else {
            return Err(Fault::NoMemory);
        };
        let until = deadlines[process.number() as usize];
        let Ok(member) = Box::new(alloc, Member::new(mq, process, until)) else {
            return Err(Fault::NoMemory);
        };
        members.push(member).unwrap();
    }
    Ok(members)
}

// Puts the members into the handles, in order. The handles are empty, and there are as many.
fn fill(processes: &mut [Handle], members: Vec<Box<Member>>)
    requires empty { list_all is_empty processes.old ≡ true }
    requires count { vec_len members ≡ length processes.old }
    ensures { map process_in processes.new ≡
        map (λ b. Some (ticket_of b.value.standing)) members.items }
{
    let mut place = 0;
    'members: for member in members {
        processes[place].begin(member);
        place += 1;
    }
}
