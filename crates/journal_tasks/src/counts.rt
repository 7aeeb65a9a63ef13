//! The numbers that the verdict on a legal journal prints.
#![tactic(auto, using(mq_model::proofs::Prefixes::prefixes))]

ghost use Rattle.std.specs.Prelude.{◌≡◌, count_by};
ghost use Rattle.journal_tasks.specs.Verdict.{counts_of, creates, has_process, opens_new, processes_to};

use mq_model::callers::owner_of;
use mq_model::entries::Reply;
use mq_model::journals::Journal;
use mq_model::limits::PROCESSES;

/// How many entries a journal has, how many of the processes 1 to 32 have one, and how many queues
/// they created.
#[derive(Clone, Copy)]
pub struct Counts {
    pub entries: u64,
    pub processes: u64,
    pub queues: u64,
}

/// These numbers for a journal.
pub fn counts_of(journal: &Journal) -> Counts
    ensures { result ≡ counts_of journal.now.records }
{
    Counts {
        entries: journal.len(),
        processes: count_processes(journal),
        queues: count_queues(journal),
    }
}

// How many processes from 1 to 32 have an entry.
#[tactic(auto, using(crate::proofs::Counting::process_counts))]
fn count_processes(journal: &Journal) -> u64
    ensures { result ≡ processes_to 32 journal.now.records }
{
    let mut count = 0;
    for p in 0..PROCESSES {
        if has_process(journal, p + 1) {
            count += 1;
        }
    }
    count
}

// Whether a thread of process p has an entry.
#[tactic(auto, using(mq_model::proofs::Prefixes::prefixes, crate::proofs::Counting::any_first))]
fn has_process(journal: &Journal, p: u32) -> bool
    ensures { result ≡ has_process journal.now.records p }
{
    for place in 0..journal.len() {
        let (entry, _) = journal.record(place);
        if owner_of(entry.process) == p {
            return true;
        }
    }
    false
}

// How many entries create a queue.
fn count_queues(journal: &Journal) -> u64
    ensures { result ≡ count_by creates journal.now.records }
{
    let mut count = 0;
    for place in 0..journal.len() {
        let (entry, _) = journal.record(place);
        if opens_new(entry.reply) {
            count += 1;
        }
    }
    count
}

fn opens_new(reply: Reply) -> bool
    ensures { result ≡ opens_new reply }
{
    match reply {
        Reply::Opened { d: _, created } => created,
        _ => false,
    }
}
