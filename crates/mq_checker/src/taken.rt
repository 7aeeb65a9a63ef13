//! Which messages were taken: a table for the first places, and a scan of the entries for the
//! others.
#![tactic(auto, using(mq_model::proofs::Prefixes::prefixes))]

ghost use Rattle.std.specs.Prelude.{◌≡◌, ◌≤◌, [], length};
ghost use Rattle.mq_model.specs.Record.{first};
ghost use Rattle.mq_model.specs.Messages.{is_in, taken_by, taken};
ghost use Rattle.mq_checker.specs.TakenTable.{TakenMirror, marked};

use mq_model::entries::Reply;
use mq_model::journals::Journal;

// The number of places in the table.
pub(crate) const PLACES: usize = 16384;

/// The message that a reply at place `here` takes.
pub fn taken_by(here: u64, reply: Reply) -> Option<u64>
    ensures { result ≡ taken_by here reply }
{
    match reply {
        Reply::Got {
            place,
            admitted: _,
            notified: _,
        } => Some(place),
        Reply::Handed { wait: _ } => Some(here),
        _ => None,
    }
}

// Whether a message was taken before place `k`.
fn was_taken(journal: &Journal, k: u64, m: u64) -> bool
    requires { k ≤ length journal.now.records }
    ensures { result ≡ is_in (taken (first k journal.now.records)) m }
{
    let mut found = false;
    for i in 0..k {
        let (entry, _) = journal.record(i);
        if let Some(place) = taken_by(i, entry.reply) {
            found = place == m || found;
        }
    }
    found
}

// The table of the empty journal.
pub(crate) fn unmarked() -> [bool; PLACES]
    ensures { TakenMirror [] result }
{
    [false; PLACES]
}

// Whether a message was taken before place `k`.
pub(crate) fn is_taken(journal: &Journal, k: u64, marks: &[bool], m: u64) -> bool
    requires bound { k ≤ length journal.now.records }
    requires mirror { TakenMirror (first k journal.now.records) marks.now }
    ensures { result ≡ is_in (taken (first k journal.now.records)) m }
{
    if m < marks.len() as u64 {
        marks[m as usize]
    } else {
        was_taken(journal, k, m)
    }
}

// Updates the table for the reply at place `here`.
pub(crate) fn note(marks: &mut [bool], here: u64, reply: Reply)
    ensures { marks.new ≡ marked marks.old (taken_by here reply) }
{
    if let Some(m) = taken_by(here, reply) {
        if m < marks.len() as u64 {
            marks[m as usize] = true;
        }
    }
}
