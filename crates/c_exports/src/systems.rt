//! Making a system, and freeing a handle, for C.
ghost use Rattle.std.specs.Prelude.{◌≡◌, true, false, Some, None};
ghost use Rattle.c_handles.specs.Handles.{process_in};
ghost use Rattle.c_handles.specs.Codes.{freed_code};
ghost use Rattle.c_handles.specs.Systems.{Makes};

use c_handles::handle::Handle;
use c_handles::numbers::{DONE, EMPTY};
use c_handles::system;
use std::alloc::Global;

/// Makes a system with as many processes as there are handles, and puts the processes into the
/// handles, in order. There must be 1 to 32 handles, all empty.
#[unsafe(no_mangle)]
pub extern "C" fn yak_new(alloc: Global, processes: &mut [Handle]) -> u32
    ensures { Makes None true processes.old processes.new result }
{
    system::new(alloc, processes)
}

/// The same, with a journal of at most `entries` entries and `bytes` payload bytes. It takes all
/// the memory that later calls need.
#[unsafe(no_mangle)]
pub extern "C" fn yak_bounded(
    alloc: Global,
    processes: &mut [Handle],
    entries: u64,
    bytes: u64,
) -> u32
    ensures { Makes (Some (record { entries = entries; bytes = bytes })) true
        processes.old processes.new result }
{
    system::bounded(alloc, processes, entries, bytes)
}

/// The same, with a journal that is a history variable: contracts speak of it, and no byte of it is
/// stored. It takes no more memory as long as no more messages, and no longer ones, are present
/// than ever before.
#[unsafe(no_mangle)]
pub extern "C" fn yak_unstored(alloc: Global, processes: &mut [Handle]) -> u32
    ensures { Makes None false processes.old processes.new result }
{
    system::unstored(alloc, processes)
}

/// The same, but an open that creates a queue also takes the memory that later calls on it need.
/// Then no send, receive, notify, collect or withdraw takes memory.
#[unsafe(no_mangle)]
pub extern "C" fn yak_prepaid(alloc: Global, processes: &mut [Handle]) -> u32
    ensures { Makes None false processes.old processes.new result }
{
    system::prepaid(alloc, processes)
}

/// Empties a handle. Returns 0, or 18 if it was empty. Its process is lost: its descriptors stay
/// open, and if it was acquiring the lock, it can keep all others out for good.
#[unsafe(no_mangle)]
pub extern "C" fn yak_free(alloc: Global, process: &mut Handle) -> u32
    ensures empty { process_in process.new ≡ None }
    ensures code { result ≡ freed_code (process_in process.old) }
{
    system::free(alloc, process)
}

/// Writes which futex word of its system a process sleeps on, counted from 0: that of y or of the
/// flag of a process for which it waits to acquire the lock, or that of its own answer. If its last
/// try ended at a step that made progress, it writes 4,294,967,295: then the process must not
/// sleep, but try again. It is a hint.
#[unsafe(no_mangle)]
pub extern "C" fn yak_futex_word(alloc: Global, process: &mut Handle, futex_word: &mut u32) -> u32
    ensures process { process_in process.new ≡ process_in process.old }
    ensures code { result ≡ freed_code (process_in process.old) }
{
    let Some(member) = process.take(alloc) else {
        return EMPTY;
    };
    *futex_word = member.futex_word();
    process.put(member);
    DONE
}
