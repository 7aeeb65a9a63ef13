//! The test of independence in an exploration is sound for the definitions of the queues.
ghost use Rattle.std.specs.Prelude.{◌≡◌, ℕ, true};
ghost use Rattle.mq_model.specs.Record.{Past, Queue};
ghost use Rattle.mq_model.specs.Legality.{IsLegalNext, Legal};
ghost use Rattle.mq_equivalence.specs.Runs.{Request};
ghost use Rattle.mq_commutation.specs.Commuting.{Commute, is_covered, record_for};
ghost use Rattle.mq_commutation.specs.Independence.{differ, whose_notices};
ghost use Rattle.exploration.specs.Dependence.{are_independent};
ghost use Rattle.exploration.specs.declared.deed.Deed.{Deed};
ghost use Rattle.mq_commutation.specs.ExploredCalls.{IsCall, OwnThreads};

/// Two steps that make calls of the queues, and that an exploration treats as independent, commute.
/// After a legal journal in which each call may be made, each may be made after the other and has
/// the same reply as without the other up to sequence numbers, and both orders leave equivalent
/// journals.
///
/// The law covers all calls except `mq_open`, `mq_unlink` and the withdrawal of a wait, if the two
/// do not change the notices of the same process. Of sends and receives it covers those that are
/// done at once, on a queue without a registration. It does not cover calls that fail.
pub fn independent_steps_commute()
    ensures { (past : Past) (object : Queue → ℕ) (a b : Request) (d e : Deed) → Legal past →
        IsLegalNext past (record_for past a) → IsLegalNext past (record_for past b) →
        is_covered a.call ≡ true → is_covered b.call ≡ true → OwnThreads a b d e →
        differ (whose_notices past a) (whose_notices past b) ≡ true →
        IsCall past object a d → IsCall past object b e →
        are_independent d e ≡ true → Commute past a b }
{}
