//! The deadline of a wait, by a scan of the entries before a place.
#![tactic(auto, using(mq_model::proofs::Prefixes::prefixes))]

ghost use Rattle.std.specs.Prelude.{◌≡◌, ◌≤◌, length};
ghost use Rattle.mq_model.specs.Record.{first};
ghost use Rattle.mq_model.specs.Waits.{is_wait, wait_deadline};

use mq_checker::scan_names::entry_at;
use mq_model::entries::{Deadline, Reply};
use mq_model::journals::Journal;

fn is_wait(reply: Reply) -> bool
    ensures { result ≡ is_wait reply }
{
    match reply {
        Reply::Waits => true,
        _ => false,
    }
}

/// The deadline of the open wait of process `p` before place `k`.
pub fn wait_deadline(journal: &Journal, k: u64, p: u32) -> Option<Deadline>
    requires { k ≤ length journal.now.records }
    ensures { result ≡ wait_deadline (first k journal.now.records) p }
{
    for i in (0..k).rev() {
        let entry = entry_at(journal, i);
        if entry.process == p {
            return if is_wait(entry.reply) {
                entry.call.deadline()
            } else {
                None
            };
        }
    }
    None
}
