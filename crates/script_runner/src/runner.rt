//! Running the phases of a script in order.
ghost use Rattle.std.specs.Prelude.{◌≡◌, ℕ, List, IfOk, IsErrOf, Vec, vec_len};
ghost use Rattle.std.specs.Io.KnownBytes.{Appends};
ghost use Rattle.std.specs.List.{All};
ghost use Rattle.fast_mutex.specs.Items.{Ticket};
ghost use Rattle.mq_model.specs.Record.{Record};
ghost use Rattle.text_io.specs.Output.{AppendsTooLittle};
ghost use Rattle.script_text.specs.Script.{said_calls, said_phases};
ghost use Rattle.script_runner.specs.Meeting.{RunsAndMeets};
ghost use Rattle.script_runner.specs.Runs.{IsReady, RunsPhase, RunsPhases};
ghost use Rattle.script_runner.specs.Stands.{ComesToAStand};
ghost use Rattle.script_runner.specs.Stops.{RunsFront, StopsBlocked, StopsInPhase};
ghost use Rattle.script_runner.specs.declared.stop.Stop.TheVariants as stop;

use crate::deal::shares_of;
use crate::gate::Gate;
use crate::meeting::meet;
use crate::phase::make_calls;
use crate::settling::{blocked_of, lines_of};
use crate::sink::Sink;
use crate::stop::Stop;
use fast_mutex::Look;
use mq::{Guarded, Mq, Process};
use script_text::line::ScriptCall;
use std::alloc::Global;
use std::sync::Wait;
use std::thread::Threads;
use std::time::Clock;

/// Runs the phases of a script on these queues, and calls the gate before and after each call.
#[derive(Drop)]
pub struct Runner<'s, L: Look<Guarded>, S, G> {
    pub rt: &'s S,
    pub alloc: Global,
    pub mq: &'s Mq<L>,
    pub gate: &'s G,
}

impl<'s, L, S, G> Runner<'s, L, S, G>
where
    L: Look<Guarded> + Sync,
    L::Seat: Send,
    L::Walk: Send,
    S: Threads + Wait + Clock + Sync,
    G: Gate + Sync,
{
    /// Runs phases in order, and gives the replies of each to the sink.
    pub fn run<K: Sink<T>, T: Drop>(
        self,
        mut processes: Vec<Process<L>>,
        phases: &'s [Vec<ScriptCall<&'s [u8]>>],
        sink: &mut K,
    ) -> Result<Vec<Process<L>>, Stop<Process<L>>>
        requires { All (IsReady self.mq.now) processes.items }
        ensures no_memory { IsErrOf result stop.NoMemory →
            RunsFront (said_phases phases.now) processes.items (K.written sink.old)
            (K.written sink.new) }
        ensures output { IsErrOf result stop.Output →
            StopsInPhase (said_phases phases.now) processes.items (K.written sink.old)
            (K.written sink.new) }
        ensures deadlock { (after : Vec (Ticket Record) Global) (lines : Vec ℕ Global) →
            IsErrOf result (stop.Stuck after lines) →
            StopsBlocked (said_phases phases.now) processes.items lines.items after.items
            (K.written sink.old) (K.written sink.new) }
        ensures back { (after : Vec (Ticket Record) Global) (lines : Vec ℕ Global) →
            IsErrOf result (stop.Stuck after lines) →
            All (λ process. process.lock ≡ self.entry.mq.now) after.items ×
            (vec_len after ≡ vec_len processes) }
        ensures ready { IfOk result (λ after. All (IsReady self.entry.mq.now) after.items) }
        ensures count { IfOk result (λ after. vec_len after ≡ vec_len processes) }
        ensures ran { IfOk result (λ after. (replies : List ℕ) ×
            RunsPhases (said_phases phases.now) processes.items after.items replies ×
            Appends (K.written sink.old) (K.written sink.new) replies ×
            Appends (K.noted sink.old) (K.noted sink.new) replies) }
    {
        for calls in phases {
            processes = self.run_phase(processes, calls.as_slice(), sink)?;
        }
        Ok(processes)
    }

    // Runs a phase, lets the processes meet, and gives the replies to the sink.
    fn run_phase<K: Sink<T>, T: Drop>(
        &self,
        processes: Vec<Process<L>>,
        calls: &[ScriptCall<&'s [u8]>],
        sink: &mut K,
    ) -> Result<Vec<Process<L>>, Stop<Process<L>>>
        requires { All (IsReady self.now.mq.now) processes.items }
        ensures no_memory { IsErrOf result stop.NoMemory →
            K.written sink.new ≡ K.written sink.old }
        ensures deadlock { (after : Vec (Ticket Record) Global) (lines : Vec ℕ Global) →
            IsErrOf result (stop.Stuck after lines) →
            ComesToAStand (said_calls calls.now) processes.items lines.items after.items ×
            (K.written sink.new ≡ K.written sink.old) }
        ensures output { IsErrOf result stop.Output →
            (after : List (Ticket Record)) × (text : List ℕ) ×
            RunsPhase (said_calls calls.now) processes.items after text ×
            AppendsTooLittle (K.written sink.old) (K.written sink.new) text }
        ensures ready { IfOk result (λ after. All (IsReady self.now.mq.now) after.items) }
        ensures count { IfOk result (λ after. vec_len after ≡ vec_len processes) }
        ensures ran { IfOk result (λ after. (text : List ℕ) ×
            RunsAndMeets (said_calls calls.now) processes.items after.items text ×
            Appends (K.written sink.old) (K.written sink.new) text ×
            Appends (K.noted sink.old) (K.noted sink.new) text) }
    {
        let alloc = self.alloc;
        let shares = shares_of(alloc, processes, calls)?;
        let workers = make_calls(self.rt, alloc, self.mq, self.gate, shares)?;
        let taken = sink.take(alloc, &workers)?;
        let lines = lines_of(alloc, &workers)?;
        let blocked = blocked_of(alloc, &workers)?;
        let processes = meet(self.rt, alloc, self.mq, workers, &blocked)?;
        if !lines.is_empty() {
            return Err(Stop::Stuck { processes, lines });
        }
        sink.end(taken)?;
        Ok(processes)
    }
}
