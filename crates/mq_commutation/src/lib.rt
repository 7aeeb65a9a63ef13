//! Independent calls: two processes may make them in either order, with the same effect. A search
//! over interleavings may try one of the two orders and leave out the other. The laws are functions
//! that do nothing and take no time: the contract of each is the law. They cover all calls except
//! `mq_open`, `mq_unlink` and the withdrawal of a wait. The law on collects covers opens and
//! unlinks too.
#![tactic(auto)]

pub mod explored;

ghost use Rattle.std.specs.Prelude.{◌≡◌, ◌==◌, ◌∷◌, List, [], false, true};
ghost use Rattle.mq_model.specs.Record.{Past, Process};
ghost use Rattle.mq_model.specs.Legality.{IsLegalNext, Legal};
ghost use Rattle.mq_equivalence.specs.Equivalence.{Equivalent};
ghost use Rattle.mq_equivalence.specs.Runs.{Request, after_calls};
ghost use Rattle.mq_commutation.specs.Independence.{are_independent};
ghost use Rattle.mq_commutation.specs.Commuting.{Commute, collect_of, is_covered, is_withdrawal, record_for};

/// If one call is independent of another, the other is independent of it.
pub fn independence_is_symmetric()
    ensures { (past : Past) (a b : Request) →
        are_independent past b a ≡ are_independent past a b }
{}

/// Independent calls commute. If each may be made after a legal journal, each may be made after the
/// other, has the same reply as without the other up to sequence numbers, and gives its caller the
/// same message. Both orders leave equivalent journals.
pub fn independent_calls_commute()
    ensures { (past : Past) (a b : Request) → Legal past →
        IsLegalNext past (record_for past a) → IsLegalNext past (record_for past b) →
        is_covered a.call ≡ true → is_covered b.call ≡ true →
        are_independent past a b ≡ true → Commute past a b }
{}

/// So two independent calls that are adjacent in a run may be exchanged, whatever calls follow:
/// what is legal after one order is legal after the other, and leaves equivalent journals.
pub fn exchanged_runs_stay_equivalent()
    ensures { (past : Past) (a b : Request) → Legal past →
        IsLegalNext past (record_for past a) → IsLegalNext past (record_for past b) →
        is_covered a.call ≡ true → is_covered b.call ≡ true →
        are_independent past a b ≡ true → (calls : List Request) →
        Legal (after_calls (after_calls past (b ∷ (a ∷ []))) calls) →
        Equivalent (after_calls (after_calls past (b ∷ (a ∷ []))) calls)
        (after_calls (after_calls past (a ∷ (b ∷ []))) calls) }
{}

/// A collect commutes with each call that another process may make, except the withdrawal of a wait.
pub fn collects_commute()
    ensures { (past : Past) (p : Process) (b : Request) → Legal past →
        IsLegalNext past (record_for past (collect_of p)) → IsLegalNext past (record_for past b) →
        (p == b.process) ≡ false → is_withdrawal b.call ≡ false →
        Commute past (collect_of p) b }
{}
