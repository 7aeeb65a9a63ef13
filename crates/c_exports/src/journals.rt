//! What C finds out of a journal without its text.
ghost use Rattle.c_handles.specs.Handles.{process_in};
ghost use Rattle.c_handles.specs.Readings.{Checks, GivesNobody, GivesRoom};

use c_handles::handle::Handle;
use c_handles::reading;
use c_handles::requests::Room;
use std::alloc::Global;

/// Checks the journal of the system from its first entry, in the critical section. It takes longer
/// the more entries there are. The process may have an open wait, and keeps it.
#[unsafe(no_mangle)]
pub extern "C" fn yak_check(alloc: Global, process: &mut Handle) -> u32
    ensures { Checks (process_in process.old) (process_in process.new) result }
{
    reading::check(alloc, process)
}

/// Writes the number of entries and payload bytes for which the journal still has room, or the
/// greatest numbers if it has no bounds. The process may have an open wait, and keeps it.
#[unsafe(no_mangle)]
pub extern "C" fn yak_room(alloc: Global, process: &mut Handle, room: &mut Room) -> u32
    ensures { GivesRoom (process_in process.old) (process_in process.new) room.old room.new result }
{
    reading::room(alloc, process, room)
}

/// Whether no process of the system can make a call any more. The process may have an open wait,
/// and keeps it.
#[unsafe(no_mangle)]
pub extern "C" fn yak_nobody_can_call(alloc: Global, process: &mut Handle) -> u32
    ensures { GivesNobody (process_in process.old) (process_in process.new) result }
{
    reading::nobody_can_call(alloc, process)
}
