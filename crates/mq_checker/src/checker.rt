//! Checking that a journal is legal.
#![tactic(auto, using(mq_model::proofs::Prefixes::prefixes))]

ghost use Rattle.std.specs.Prelude.{◌≡◌, ◌+◌, ◌<◌, ◌&&◌, ◌↔◌, IsTrue, IsOk, IfErr, length};
ghost use Rattle.mq_model.specs.Record.{first};
ghost use Rattle.mq_model.specs.Legality.{may_call, Legal, IsFirstIllegal};
ghost use Rattle.mq_checker.specs.CheckerTables.{TablesMirror};

use crate::expected::reply_to;
use crate::tables;
use crate::tables::Tables;
use mq_model::entries::Call;
use mq_model::error_order::is_over;
use mq_model::forms::{is_caller, is_payload};
use mq_model::journals::Journal;
use mq_model::replies::is_same;

fn may_call(journal: &Journal, k: u64, tables: &Tables, p: u32, call: Call) -> bool
    requires { TablesMirror (first k journal.now.records) tables.now }
    ensures { result ≡ may_call (first k journal.now.records) p call }
{
    match call {
        Call::Collect => tables::answer(journal, k, tables, p).is_some(),
        Call::Withdraw { now } => {
            tables::answer(journal, k, tables, p).is_none()
                && is_over(tables::deadline(journal, k, tables, p), now)
        }
        _ => tables::wait(journal, k, tables, p).is_none(),
    }
}

fn all(caller: bool, turn: bool, fits: bool, same: bool) -> bool
    ensures { result ≡ (caller && turn && fits && same) }
{
    caller && turn && fits && same
}

// Whether the record at place `k` may follow those before it.
fn is_legal_at(journal: &Journal, k: u64, tables: &Tables) -> bool
    requires place { k < length journal.now.records }
    requires legal { Legal (first k journal.now.records) }
    requires mirror { TablesMirror (first k journal.now.records) tables.now }
    ensures { IsTrue result ↔ Legal (first (k + 1) journal.now.records) }
{
    let (entry, payload) = journal.record(k);
    let caller = is_caller(entry.process);
    let turn = may_call(journal, k, tables, entry.process, entry.call);
    let fits = is_payload(entry.call, entry.reply, payload);
    let expected = reply_to(journal, k, tables, entry.process, entry.call, payload);
    let same = is_same(entry.reply, expected);
    all(caller, turn, fits, same)
}

/// Checks that a journal is legal: the number of each caller is 1 to 2,048, each call is allowed,
/// its reply is the one that the calls before it determine, and its payload is well-formed. `Err`
/// has the sequence number of the first entry of which this is not true. It takes no memory but
/// some 170 KB of the stack, and time in the square of the journal's length.
pub fn check_history(journal: &Journal) -> Result<(), u64>
    ensures legal { IsOk result ↔ Legal journal.now.records }
    ensures first_illegal { IfErr result (IsFirstIllegal journal.now.records) }
{
    let mut tables = tables::start();
    for k in 0..journal.len() {
        if !is_legal_at(journal, k, &tables) {
            return Err(k);
        }
        tables::note(journal, k, &mut tables);
    }
    Ok(())
}
