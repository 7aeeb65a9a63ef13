//! Making a system that starts with a journal.
ghost use Rattle.std.specs.Prelude.{◌≡◌, ◌≤◌, ◌<◌, ◌⊎◌, true, false, None, Some, ℕ, length, slice_get, IfOk, IfErr};
ghost use Rattle.std.specs.List.{list_all};
ghost use Rattle.mq_model.specs.Waits.{wait_deadline};
ghost use Rattle.mq_equivalence.specs.Equivalence.{Equivalent};
ghost use Rattle.mq_state.specs.Replays.{is_too_long};
ghost use Rattle.c_journals.specs.Resumes.{IsNoStart, IsRefused, IsTextOf, Resumes};
ghost use Rattle.c_handles.specs.Systems.{Fills, is_empty};

use c_handles::handle::Handle;
use c_handles::numbers::{BAD_LINE, FOREIGN, FULL, ILLEGAL};
use c_handles::system::{Deadlines, are_empty, count_of, hand_out};
use journal_format::fault::JournalFault;
use journal_format::text::read_journal;
use mq::{Deadline, FastMq, Fault};
use mq_equivalence::equivalence_is_reflexive;
use mq_equivalence::scans::wait_deadline;
use mq_equivalence::short::equivalent_short;
use mq_model::bounds::Bounds;
use mq_model::journals::Journal;
use mq_state::books::Books;
use mq_state::replay::Misfit;
use mq_state::rewriting::Unwritten;
use std::alloc::{AllocError, Global};

/// Makes a system as `yak_new` does that continues from the journal with this text, as if its calls
/// had been made on the system. If the journal cannot be used because of a line, writes the number
/// of that line.
#[unsafe(no_mangle)]
pub extern "C" fn yak_resume(
    alloc: Global,
    processes: &mut [Handle],
    text: &[u8],
    line: &mut u64,
) -> u32
    ensures { Resumes (λ written past. past ≡ written) None text.now processes.old processes.new
        line.old line.new result }
{
    resume(alloc, processes, None, text, line)
}

/// The same with bounds, as `yak_bounded`, which hold for the whole journal. It also fails with
/// `JOURNALFULL` if the journal, with the entries that end its open waits, is too long for them.
#[unsafe(no_mangle)]
pub extern "C" fn yak_resume_bounded(
    alloc: Global,
    processes: &mut [Handle],
    entries: u64,
    bytes: u64,
    text: &[u8],
    line: &mut u64,
) -> u32
    ensures { Resumes (λ written past. past ≡ written)
        (Some (record { entries = entries; bytes = bytes })) text.now processes.old processes.new
        line.old line.new result }
{
    let bounds = Some(Bounds { entries, bytes });
    resume(alloc, processes, bounds, text, line)
}

/// The same, with a short journal in place of this one, after which the queues reply in the same
/// way. If a wait is answered and not collected, the system continues from the journal itself.
#[unsafe(no_mangle)]
pub extern "C" fn yak_resume_short(
    alloc: Global,
    processes: &mut [Handle],
    text: &[u8],
    line: &mut u64,
) -> u32
    ensures { Resumes Equivalent None text.now processes.old processes.new line.old line.new
        result }
{
    match begun(alloc, processes, None, text, line) {
        Ok(books) => match shortened(alloc, books) {
            Ok(books) => hand_over(alloc, books, processes),
            Err(_) => Fault::NoMemory.number(),
        },
        Err(code) => code,
    }
}

// A system with bounds, if there are any, that continues from the journal with this text.
fn resume(
    alloc: Global,
    processes: &mut [Handle],
    bounds: Option<Bounds>,
    text: &[u8],
    line: &mut u64,
) -> u32
    ensures { Resumes (λ written past. past ≡ written) bounds text.now processes.old processes.new
        line.old line.new result }
{
    match begun(alloc, processes, bounds, text, line) {
        Ok(books) => hand_over(alloc, books, processes),
        Err(code) => code,
    }
}

// The queues, for these handles, that continue from the journal with this text. Fails with a code.
fn begun(
    alloc: Global,
    processes: &[Handle],
    bounds: Option<Bounds>,
    text: &[u8],
    line: &mut u64,
) -> Result<Books, u32>
    ensures text { IfOk result (λ books. IsTextOf books.records text.now) }
    ensures count { IfOk result (λ books. (books.n ≡ length processes.now) × (1 ≤ books.n) ×
        (books.n ≤ 32)) }
    ensures stored { IfOk result (λ books. (books.bounds ≡ bounds) × (books.stored ≡ true)) }
    ensures empty { IfOk result (λ books. list_all is_empty processes.now ≡ true) }
    ensures within { IfOk result (λ books. is_too_long bounds books.records ≡ false) }
    ensures same { IfOk result (λ books. line.new ≡ line.old) }
    ensures refused { IfErr result (λ code.
        IsRefused bounds text.now processes.now line.old line.new code) }
{
    let Some(n) = count_of(processes) else {
        return Err(Fault::Invalid.number());
    };
    if !are_empty(processes) {
        return Err(FULL);
    }
    match read_journal(alloc, text) {
        Ok(journal) => stocked(alloc, n, bounds, journal, line),
        Err(JournalFault::BadLine(bad)) => {
            *line = bad;
            Err(BAD_LINE)
        }
        Err(JournalFault::Input) => unreachable!(),
        Err(JournalFault::NoMemory) => Err(Fault::NoMemory.number()),
    }
}

// The queues of n processes that continue from a journal. Fails with a code.
fn stocked(
    alloc: Global,
    n: u32,
    bounds: Option<Bounds>,
    journal: Journal,
    line: &mut u64,
) -> Result<Books, u32>
    requires { (1 ≤ n) × (n ≤ 32) }
    ensures records { IfOk result (λ books. books.records ≡ journal.records) }
    ensures count { IfOk result (λ books. books.n ≡ n) }
    ensures stored { IfOk result (λ books. (books.bounds ≡ bounds) × (books.stored ≡ true)) }
    ensures within { IfOk result (λ books. is_too_long bounds journal.records ≡ false) }
    ensures same { IfOk result (λ books. line.new ≡ line.old) }
    ensures refused { IfErr result (λ code. ((code ≡ 11) × (line.new ≡ line.old)) ⊎
        ((code ≡ 13) × (line.new ≡ line.old) × (is_too_long bounds journal.records ≡ true)) ⊎
        IsNoStart n journal.records line.new code) }
{
    match Books::resume_within(alloc, n, bounds, journal) {
        Ok(books) => Ok(books),
        Err(refused) => {
            let count = refused.journal.len();
            match refused.why {
                Misfit::NoMemory => Err(Fault::NoMemory.number()),
                Misfit::Illegal(departure) => {
                    prove!(departure.place < count);
                    *line = departure.place + 1;
                    Err(ILLEGAL)
                }
                Misfit::Foreign(place) => {
                    prove!(place < count);
                    *line = place + 1;
                    Err(FOREIGN)
                }
                Misfit::TooLong => Err(Fault::JournalFull.number()),
            }
        }
    }
}

// The queues after a short journal in place of theirs; if there is none, the queues after their
// own. Fails if memory was refused.
fn shortened(alloc: Global, books: Books) -> Result<Books, AllocError>
    requires count { (1 ≤ books.n) × (books.n ≤ 32) }
    requires stored { (books.bounds ≡ None) × (books.stored ≡ true) }
    ensures short { IfOk result (λ short. Equivalent books.records short.records) }
    ensures count { IfOk result (λ short. short.n ≡ books.n) }
    ensures stored { IfOk result (λ short. (short.bounds ≡ None) × (short.stored ≡ true)) }
{
    equivalence_is_reflexive();
    match equivalent_short(alloc, &books) {
        Ok(short) => match Books::resume(alloc, books.processes(), short) {
            Ok(short) => Ok(short),
            Err(refused) => match refused.why {
                Misfit::NoMemory => Err(AllocError),
                _ => Ok(books),
            },
        },
        Err(Unwritten::NoMemory) => Err(AllocError),
        Err(_) => Ok(books),
    }
}

// Puts the processes of the system over these queues into the handles.
fn hand_over(alloc: Global, books: Books, processes: &mut [Handle]) -> u32
    requires empty { list_all is_empty processes.old ≡ true }
    requires count { books.n ≡ length processes.old }
    requires few { (1 ≤ books.n) × (books.n ≤ 32) }
    requires stored { books.stored ≡ true }
    ensures { Fills books.bounds true books.records processes.old processes.new result }
{
    let deadlines = deadlines_of(&books);
    match FastMq::resume(alloc, books) {
        Ok((mq, made)) => hand_out(alloc, mq, made, &deadlines, processes),
        Err((_, fault)) => fault.number(),
    }
}

// The deadline of the open wait of each process. Index p is for process p.
fn deadlines_of(books: &Books) -> Deadlines
    requires { books.now.stored ≡ true }
    ensures { (p : ℕ) → p < 33 →
        slice_get result p ≡ Some (wait_deadline books.now.records p) }
{
    let mut deadlines = [None; 33];
    for process in 0..33 {
        deadlines[process as usize] = deadline_of(books, process);
    }
    deadlines
}

// The deadline of the open wait of a process, if it has one.
#[tactic(auto, using(crate::proofs::Deadlines::no_room, crate::proofs::Deadlines::deadline_whole))]
fn deadline_of(books: &Books, process: u32) -> Option<Deadline>
    requires { books.now.stored ≡ true }
    ensures { result ≡ wait_deadline books.now.records process }
{
    match books.waiting(process) {
        None => None,
        Some(_) => {
            let journal = books.journal();
            wait_deadline(journal, journal.len(), process)
        }
    }
}
