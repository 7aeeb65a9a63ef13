//! What C finds out of a journal without its text.
ghost use Rattle.std.specs.Prelude.{◌≡◌, Some};
ghost use Rattle.c_handles.specs.Handles.{process_in};
ghost use Rattle.c_handles.specs.Standings.{ticket_of};
ghost use Rattle.c_handles.specs.Readings.{Checks, GivesNobody, GivesRoom, room_shown};

use crate::handle::Handle;
use crate::member::Member;
use crate::numbers::{DONE, EMPTY, GOES_ON, RETRY, UNSTORED};
use crate::requests::Room;
use crate::with_member;
use mq::Bounds;
use std::alloc::Global;

/// Checks the journal of the system from its first entry, in the critical section. It takes longer
/// the more entries there are. The process may have an open wait, and keeps it.
pub fn check(alloc: Global, process: &mut Handle) -> u32
    ensures { Checks (process_in process.old) (process_in process.new) result }
{
    match with_member!(process, alloc, |member| check_in(alloc, &mut *member)) {
        None => EMPTY,
        Some(code) => code,
    }
}

// Checks the journal of the system of a member.
fn check_in(alloc: Global, member: &mut Member) -> u32
    ensures { Checks (Some (ticket_of member.old.standing))
        (Some (ticket_of member.new.standing)) result }
{
    if !member.is_stored() {
        return UNSTORED;
    }
    match member.check(alloc) {
        None => RETRY,
        Some(Ok(())) => DONE,
        Some(Err(_)) => unreachable!(),
    }
}

/// Writes the number of entries and payload bytes for which the journal still has room, or the
/// greatest numbers if it has no bounds. The process may have an open wait, and keeps it.
pub fn room(alloc: Global, process: &mut Handle, room: &mut Room) -> u32
    ensures { GivesRoom (process_in process.old) (process_in process.new) room.old room.new result }
{
    match with_member!(process, alloc, |member| member.room()) {
        None => EMPTY,
        Some(None) => RETRY,
        Some(Some(left)) => {
            *room = room_shown(left);
            DONE
        }
    }
}

fn room_shown(left: Option<Bounds>) -> Room
    ensures { result ≡ room_shown left }
{
    match left {
        None => Room {
            entries: u64::MAX,
            bytes: u64::MAX,
        },
        Some(left) => Room {
            entries: left.entries,
            bytes: left.bytes,
        },
    }
}

/// Whether no process of the system can make a call any more. The process may have an open wait,
/// and keeps it.
pub fn nobody_can_call(alloc: Global, process: &mut Handle) -> u32
    ensures { GivesNobody (process_in process.old) (process_in process.new) result }
{
    match with_member!(process, alloc, |member| member.nobody_can_call()) {
        None => EMPTY,
        Some(None) => RETRY,
        Some(Some(true)) => DONE,
        Some(Some(false)) => GOES_ON,
    }
}
