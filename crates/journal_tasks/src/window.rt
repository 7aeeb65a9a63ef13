//! The part of a journal that is shown.
ghost use Rattle.std.specs.Prelude.{◌≡◌, ◌≤◌, ◌+◌, length};
ghost use Rattle.journal_tasks.specs.Window.{count_shown, first_shown};

use journal_views::MOST_ENTRIES;
use mq_model::journals::Journal;

/// The entries from `from` to `to`, both included.
#[derive(Clone, Copy)]
pub struct Window {
    pub from: u64,
    pub to: u64,
}

/// All entries.
pub const WHOLE: Window = Window {
    from: 0,
    to: u64::MAX,
};

/// The first entry that is shown, and how many from there on: at most 2,000.
pub fn shown(window: Window, journal: &Journal) -> (u64, u64)
    ensures first { result.0 ≡ first_shown window (length journal.now.records) }
    ensures count { result.1 ≡ count_shown window (length journal.now.records) }
    ensures inside { result.0 + result.1 ≤ length journal.now.records }
    ensures few { result.1 ≤ 2000 }
{
    let len = journal.len();
    let end = if window.to < len { window.to + 1 } else { len };
    let from = window.from.min(end);
    (from, (end - from).min(MOST_ENTRIES))
}
