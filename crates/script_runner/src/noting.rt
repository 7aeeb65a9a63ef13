//! Running a script and noting what its calls return.
ghost use Rattle.std.specs.Prelude.{◌≡◌, ◌≤◌, [], true, false, IfErr, IfOk, IsErrOf, vec_len};
ghost use Rattle.std.specs.List.{All};
ghost use Rattle.mq_model.specs.Legality.{Legal};
ghost use Rattle.script_runner.specs.Notes.{RunsServed, lines_of, some_refused};
ghost use Rattle.script_runner.specs.RunFault.{IsUnwritten};
ghost use Rattle.mq.specs.Calls.{stored_in};
ghost use Rattle.script_runner.specs.Runs.{IsReady, RunsOn};
ghost use Rattle.script_runner.specs.declared.fault.RunFault.TheVariants.{NoMemory};
ghost use Rattle.script_text.specs.Script.{said_script};

use crate::fault::RunFault;
use crate::gate::Gate;
use crate::noted::{Noted, some_refused};
use crate::run::journal_of;
use crate::runner::Runner;
use crate::sink::Kept;
use crate::stop::Stop;
use fast_mutex::Look;
use mq::{Guarded, Mq, Process};
use mq_model::journals::Journal;
use script_text::script::Script;
use std::alloc::Global;
use std::sync::Wait;
use std::thread::Threads;
use std::time::Clock;

/// Makes the calls of a script as `run_script` does, notes what they return instead of writing the
/// replies, and returns their journal. If it fails with `RunFault::Deadlock`, the calls that
/// returned are noted too, also those of the deadlocked phase; with `RunFault::NoMemory`, some are.
/// A run in which a call failed with `NoMemory` ends with `RunFault::NoMemory`, even if it
/// deadlocks, because its outcome is not that of the script.
pub fn run_noted<L, S, G>(
    rt: &S,
    alloc: Global,
    script: &Script<'_>,
    gate: &G,
    noted: &mut Vec<Noted>,
) -> Result<Journal, RunFault>
where
    L: Look<Guarded> + Sync,
    L::Seat: Send,
    L::Walk: Send,
    S: Threads + Wait + Clock + Sync,
    G: Gate + Sync,
    requires processes { (1 ≤ script.now.processes) × (script.now.processes ≤ 32) }
    requires nothing { noted.old.items ≡ [] }
    ensures fault { IfErr result IsUnwritten }
    ensures legal { IfOk result (λ journal. Legal journal.records) }
    // `noted` has the replies, and no call failed with `NoMemory`.
    ensures done { IfOk result (λ journal.
        RunsServed (said_script script.now) noted.new.items journal.records) }
    ensures refused { some_refused noted.new.items ≡ true → IsErrOf result NoMemory }
{
    let Ok((mq, processes)) = Mq::<L>::new(alloc, script.processes) else {
        return Err(RunFault::NoMemory);
    };
    make_on(rt, alloc, mq, processes, script, gate, noted)
}

/// Makes the calls of a script on a system with these processes as `run_noted` does, and ends the
/// system.
pub(crate) fn make_on<'r, L, S, G>(
    rt: &'r S,
    alloc: Global,
    mq: Mq<L>,
    processes: Vec<Process<L>>,
    script: &Script<'_>,
    gate: &'r G,
    noted: &mut Vec<Noted>,
) -> Result<Journal, RunFault>
where
    L: Look<Guarded> + Sync,
    L::Seat: Send,
    L::Walk: Send,
    S: Threads + Wait + Clock + Sync,
    G: Gate + Sync,
    requires ready { All (IsReady mq) processes.items }
    requires all { vec_len processes ≡ mq.count }
    requires stored { stored_in mq.fixed ≡ true }
    requires nothing { noted.old.items ≡ [] }
    ensures fault { IfErr result IsUnwritten }
    ensures legal { IfOk result (λ journal. Legal journal.records) }
    // `noted` has the replies, and no call failed with `NoMemory`.
    ensures done { IfOk result (λ journal. RunsOn mq processes.items
        (said_script script.now).phases (lines_of noted.new.items) journal.records ×
        (some_refused noted.new.items ≡ false)) }
    ensures refused { some_refused noted.new.items ≡ true → IsErrOf result NoMemory }
{
    let runner = Runner {
        rt,
        alloc,
        mq: &mq,
        gate,
    };
    let phases = script.phases.as_slice();
    let ran = runner.run::<_, Kept>(processes, phases, noted);
    if some_refused(noted.as_slice()) {
        return Err(RunFault::NoMemory);
    }
    match ran {
        Ok(processes) => Ok(journal_of(mq, processes)),
        Err(
            Stop::Stuck {
                processes: _,
                lines,
            },
        ) => Err(RunFault::Deadlock(lines)),
        // Nothing is written.
        Err(Stop::NoMemory | Stop::Output) => Err(RunFault::NoMemory),
    }
}
