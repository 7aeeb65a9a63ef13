//! How a run of a script relates to the interleavings of its calls. Each function does nothing: its
//! contract is the law.
#![tactic(auto)]

ghost use Rattle.std.specs.Prelude.{◌≡◌, ◌≤◌, ◌++◌, ℕ, true, List, Option, length};
ghost use Rattle.mq_model.specs.Record.{Past};
ghost use Rattle.schedules.specs.Outcomes.{AreAll, is_among};
ghost use Rattle.schedules.specs.declared.outcomes.Witnessed.{Witnessed};
ghost use Rattle.script_text.specs.Script.{Whole};
ghost use Rattle.script_orders.specs.Orders.{Begins, BeginsAfter};
ghost use Rattle.script_orders.specs.Stage.{Stage, next_stage, stands_still, observed};
ghost use Rattle.script_runner.specs.Runs.{RunsAfter, RunsWhole};
ghost use Rattle.script_runner.specs.Stops.{StopsInDeadlock};
ghost use Rattle.script_laws.specs.RunLaws.{AreFound, AreObserved, IsAmple, IsAmpleAfter, replies_after, whole_replies};
ghost use Rattle.script_laws.specs.StandLaws.{ComesToStand, IsAmpleStop, replies_before, stand_outcome};

/// What a run prints for each phase is the outcome of that phase in some interleaving of the calls,
/// from the start of the script's processes. No call of the run may have failed with `NoMemory`.
pub fn prints_outcomes()
    ensures { (script : Whole) (replies : List ℕ) (journal : Past) (from : Stage)
        (ran : RunsWhole script replies journal) → IsAmple ran → Begins script from →
        AreObserved from 0 (whole_replies ran) }
{}

/// If every interleaving of the calls was tried, what a run prints for each phase is among the
/// outcomes found.
pub fn prints_what_is_found()
    ensures { (script : Whole) (replies : List ℕ) (journal : Past) (from : Stage)
        (found : List Witnessed) (ran : RunsWhole script replies journal) → IsAmple ran →
        Begins script from → AreAll next_stage stands_still observed from found →
        AreFound found 0 (whole_replies ran) }
{}

/// A script that continues from a journal leaves a journal that starts with it.
pub fn goes_on_from_its_past()
    ensures { (past : Past) (script : Whole) (replies : List ℕ) (journal : Past) →
        1 ≤ script.processes → RunsAfter past script replies journal →
        (later : Past) × (journal ≡ later ++ past) }
{}

/// The same for a run that continues from a journal in which no process waits, if every
/// interleaving was tried from there.
pub fn prints_what_is_found_after()
    ensures { (past : Past) (script : Whole) (replies : List ℕ) (journal : Past) (from : Stage)
        (found : List Witnessed) (ran : RunsAfter past script replies journal) →
        1 ≤ script.processes → IsAmpleAfter ran →
        BeginsAfter past script from → AreAll next_stage stands_still observed from found →
        AreFound found 0 (replies_after ran) }
{}

/// If a run deadlocks, so does some interleaving of the calls, from the start of the script's
/// processes: what the run prints for the earlier phases are their outcomes, and the next phase
/// deadlocks in the calls of the same lines. No call of the run may have failed with `NoMemory`.
pub fn outcomes_have_deadlocks()
    ensures { (script : Whole) (lines : List ℕ) (old new : Option (List ℕ)) (from : Stage)
        (stop : StopsInDeadlock script lines old new) → IsAmpleStop stop → Begins script from →
        ComesToStand from 0 (replies_before stop) lines }
{}

/// If every interleaving of the calls was tried, what a run prints for each phase before its
/// deadlock is among the outcomes found, and so is the deadlock in the calls of the same lines.
pub fn finds_deadlocks()
    ensures { (script : Whole) (lines : List ℕ) (old new : Option (List ℕ)) (from : Stage)
        (found : List Witnessed) (stop : StopsInDeadlock script lines old new) → IsAmpleStop stop →
        Begins script from → AreAll next_stage stands_still observed from found →
        AreFound found 0 (replies_before stop)
        × (is_among found (stand_outcome from.script (length stop.stops.first) lines)
        ≡ true) }
{}
