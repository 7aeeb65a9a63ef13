//! The README's sentence as one theorem: in whatever order threads take their atomic steps, at most
//! one process is inside the lock; each process finds a journal that begins with the one it left
//! and has its own calls, each once; and the journal is the history of one thread's POSIX queues.
#![tactic(auto)]

ghost use Rattle.std.specs.Prelude.{◌≡◌, ℕ, List, ◌∷◌, Option};
ghost use Rattle.atomic_table.specs.Table.{State};
ghost use Rattle.fast_mutex.specs.Items.{Ticket};
ghost use Rattle.fast_mutex.specs.Fast.{KeepsRule};
ghost use Rattle.fast_mutex.specs.declared.seats.About.{About};
ghost use Rattle.fast_mutex.specs.declared.fast.view.View.{View};
ghost use Rattle.mq_model.specs.Record.{Record};
ghost use Rattle.mq_model.specs.declared.entries.Call.{Call};
ghost use Rattle.mq.specs.Kinds.{IsCall};
ghost use Rattle.mq_model.specs.declared.entries.Reply.{Reply};
ghost use Rattle.mq.specs.Calls.{made, Calls};
ghost use Rattle.headline.specs.Headline.{AtMostOneInside, Turn, AreTurns, own_records, IsHeadline};

use fast_mutex::Logged;
use mq::Returned;

/// This function does nothing; its clauses are the theorem.
///
/// `FastMutex` keeps `KeepsRule` between any two atomic steps, so at most one process is inside.
/// Each call of a `Process` promises `IsCall`, and so is a turn that adds its own record, or none if
/// memory was refused or the journal is full. After any number of turns, in whatever order other
/// processes took theirs, the rest of the sentence holds. A process of a new system has left the
/// empty journal at first.
pub fn headline<S: Logged, A: Returned>()
    ensures one_inside { (about : About S) (s : State (Option S) (View S.Item)) →
        KeepsRule S.items S.fixed S.author S.is_answered about s → AtMostOneInside s }
    ensures turn { let kind = A.kind in (old new : Ticket Record) (call : Call)
        (given before after : List ℕ) (result : A) →
        IsCall kind.says old new call given before after result →
        (reply : Reply) × (bytes : List ℕ) ×
        Calls old new (made old.number call bytes reply) }
    ensures history { (first : Ticket Record) (t : Turn) (turns : List Turn) →
        AreTurns first (t ∷ turns) → IsHeadline first t.left (own_records (t ∷ turns)) }
{}
