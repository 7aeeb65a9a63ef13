//! The verdict on a journal.
ghost use Rattle.std.specs.Prelude.{◌≡◌, ◌<◌, ◌+◌, IfOk, length, string_bytes};
ghost use Rattle.mq_model.specs.Record.{first};
ghost use Rattle.journal_tasks.specs.Verdict.{Judges, cause_text, counted, last_line, verdict_text};

use crate::counts::{Counts, counts_of};
use journal_format::line::line_of;
use journal_format::reply::reply_text;
use mq_model::journals::Journal;
use mq_state::replay::{Cause, Departure, replay};
use std::alloc::{AllocError, Global};

/// The verdict on a journal.
#[derive(Clone, Copy)]
pub enum Verdict {
    /// The journal is legal, and has these numbers of entries, processes and queues.
    Legal(Counts),
    /// The first entry that is not legal, and why.
    Illegal(Departure),
}

impl Verdict {
    ghost use Rattle.journal_tasks.specs.Verdict.{verdict_status};

    /// The exit status of the program.
    pub fn status(self) -> u8
        ensures { result ≡ verdict_status self }
    {
        match self {
            Verdict::Legal(_) => 0,
            Verdict::Illegal(_) => 1,
        }
    }
}

/// The verdict on a journal. Fails if memory was refused.
pub fn verdict_of(alloc: Global, journal: &Journal) -> Result<Verdict, AllocError>
    ensures { IfOk result (Judges journal.now.records) }
{
    let verdict = match replay(alloc, journal)? {
        None => Verdict::Legal(counts_of(journal)),
        Some(departure) => Verdict::Illegal(departure),
    };
    Ok(verdict)
}

/// The text of a verdict on a journal.
pub fn verdict_text(
    alloc: Global,
    journal: &Journal,
    verdict: Verdict,
) -> Result<String, AllocError>
    requires { Judges journal.now.records verdict }
    ensures { IfOk result (λ text. string_bytes text ≡ verdict_text journal.now.records verdict) }
{
    match verdict {
        Verdict::Legal(counts) => {
            let entries = counted(alloc, counts.entries, "entry", "entries")?;
            let processes = counted(alloc, counts.processes, "process", "processes")?;
            let queues = counted(alloc, counts.queues, "queue", "queues")?;
            format!(in alloc; "legal: {entries}, {processes}, {queues}\n")
        }
        Verdict::Illegal(Departure { place, cause }) => {
            let cause = cause_text(alloc, cause)?;
            let line = line_at(alloc, journal, place)?;
            format!(in alloc; "entry {place}: {cause}\n{line}")
        }
    }
}

// A number of things.
fn counted(
    alloc: Global,
    count: u64,
    one: &'static str,
    several: &'static str,
) -> Result<String, AllocError>
    ensures { IfOk result (λ text.
        string_bytes text ≡ counted count one.entry.now several.entry.now) }
{
    let word = if count == 1 { one } else { several };
    format!(in alloc; "{count} {word}")
}

// Why an entry is not legal.
fn cause_text(alloc: Global, cause: Cause) -> Result<String, AllocError>
    ensures { IfOk result (λ text. string_bytes text ≡ cause_text cause) }
{
    match cause {
        Cause::Process => format!(in alloc; "no caller from 1 to 2048"),
        Cause::Turn => format!(in alloc; "out of turn"),
        Cause::Payload => format!(in alloc; "another payload expected"),
        Cause::Reply(expected) => {
            let reply = reply_text(alloc, &expected)?;
            format!(in alloc; "expected {reply}")
        }
    }
}

// The line of the entry with this sequence number.
fn line_at(alloc: Global, journal: &Journal, place: u64) -> Result<String, AllocError>
    requires { place < length journal.now.records }
    ensures { IfOk result (λ line. string_bytes line ≡
        last_line (first (place + 1) journal.now.records)) }
{
    let (entry, payload) = journal.record(place);
    line_of(alloc, place, entry, payload)
}
