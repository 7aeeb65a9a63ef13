//! Running a script on the queues that a journal leaves.
ghost use Rattle.std.specs.Prelude.{◌≡◌, ◌≤◌, [], true, IfErr, IfOk, IsErrOf, None};
ghost use Rattle.mq_model.specs.Legality.{Legal};
ghost use Rattle.script_runner.specs.Notes.{RunsServedAfter, some_refused};
ghost use Rattle.script_runner.specs.RunFault.{IsUnwritten};
ghost use Rattle.script_runner.specs.Runs.{NoneWaits};
ghost use Rattle.script_runner.specs.declared.fault.RunFault.TheVariants.{NoMemory};
ghost use Rattle.script_text.specs.Script.{said_script};

use crate::fault::RunFault;
use crate::gate::Gate;
use crate::noted::Noted;
use crate::noting::make_on;
use fast_mutex::Look;
use mq::{Guarded, Mq};
use mq_model::journals::Journal;
use mq_state::books::Books;
use script_text::script::Script;
use std::alloc::Global;
use std::sync::Wait;
use std::thread::Threads;
use std::time::Clock;

/// Makes the calls of a script as `run_noted` does, on queues on which calls have been made. Its
/// processes hold what they held, and none of them has an open wait. The journal starts with that
/// of the queues.
pub fn run_after<L, S, G>(
    rt: &S,
    alloc: Global,
    books: Books,
    script: &Script<'_>,
    gate: &G,
    noted: &mut Vec<Noted>,
) -> Result<Journal, RunFault>
where
    L: Look<Guarded> + Sync,
    L::Seat: Send,
    L::Walk: Send,
    S: Threads + Wait + Clock + Sync,
    G: Gate + Sync,
    requires processes { (1 ≤ script.now.processes) × (script.now.processes ≤ 32) }
    requires count { books.n ≡ script.now.processes }
    requires stored { (books.bounds ≡ None) × (books.stored ≡ true) }
    requires free { NoneWaits books.records script.now.processes }
    requires nothing { noted.old.items ≡ [] }
    ensures fault { IfErr result IsUnwritten }
    ensures legal { IfOk result (λ journal. Legal journal.records) }
    // `noted` has the replies, and no call failed with `NoMemory`.
    ensures done { IfOk result (λ journal. RunsServedAfter books.records
        (said_script script.now) noted.new.items journal.records) }
    ensures refused { some_refused noted.new.items ≡ true → IsErrOf result NoMemory }
{
    let Ok((mq, processes)) = Mq::<L>::resume(alloc, books) else {
        return Err(RunFault::NoMemory);
    };
    make_on(rt, alloc, mq, processes, script, gate, noted)
}
