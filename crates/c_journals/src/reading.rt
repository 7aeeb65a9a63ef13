//! Reading the lines of a journal from C.
ghost use Rattle.std.specs.Prelude.{◌≡◌, Some};
ghost use Rattle.c_handles.specs.Handles.{process_in};
ghost use Rattle.c_handles.specs.Standings.{ticket_of};
ghost use Rattle.c_journals.specs.Lines.{ReadsAt, WritesLine};

use c_handles::handle::Handle;
use c_handles::member::Member;
use c_handles::numbers::{DONE, EMPTY, NO_ENTRY, RETRY, SHORT, UNSTORED};
use c_handles::with_member;
use journal_format::line::line_of;
use mq::Fault;
use std::alloc::Global;

/// Writes the line of a journal entry, as in the text of the journal, to the start of a buffer, and
/// the length of the line. The process may have an open wait, and keeps it.
#[unsafe(no_mangle)]
pub extern "C" fn yak_entry(
    alloc: Global,
    process: &mut Handle,
    place: u64,
    text: &mut [u8],
    len: &mut usize,
) -> u32
    ensures { ReadsAt place (process_in process.old) (process_in process.new)
        (record {
          before = text.old;
          after = text.new;
          len_before = len.old;
          len = len.new;
          code = result;
        }) }
{
    match with_member!(process, alloc, |member| {
        read_in(alloc, &mut *member, place, text, len)
    }) {
        None => EMPTY,
        Some(code) => code,
    }
}

// Reads an entry of the journal of the system of a member.
fn read_in(alloc: Global, member: &mut Member, place: u64, text: &mut [u8], len: &mut usize) -> u32
    ensures { ReadsAt place (Some (ticket_of member.old.standing))
        (Some (ticket_of member.new.standing))
        (record {
          before = text.old;
          after = text.new;
          len_before = len.old;
          len = len.new;
          code = result;
        }) }
{
    if !member.is_stored() {
        return UNSTORED;
    }
    match member.record(alloc, place) {
        None => RETRY,
        Some(Err(_)) => Fault::NoMemory.number(),
        Some(Ok(None)) => NO_ENTRY,
        Some(Ok(Some((entry, payload)))) => {
            match line_of(alloc, place, entry, payload.as_slice()) {
                Ok(line) => write_line(line.as_bytes(), text, len),
                Err(_) => Fault::NoMemory.number(),
            }
        }
    }
}

// Writes as much of a line as fits into the buffer, and the length of the line.
fn write_line(line: &[u8], text: &mut [u8], len: &mut usize) -> u32
    ensures { WritesLine line.now (record {
      before = text.old;
      after = text.new;
      len_before = len.old;
      len = len.new;
      code = result;
    }) }
{
    let count = line.len().min(text.len());
    text[..count].copy_from_slice(&line[..count]);
    *len = line.len();
    if count == line.len() { DONE } else { SHORT }
}
