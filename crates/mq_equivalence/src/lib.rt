//! Equivalent journals: after them the same can happen, up to the numbers of queues and the
//! sequence numbers of entries. Examples are a journal and a shorter one that leads to the same
//! state, and two interleavings of the same calls that lead to the same state. The laws are
//! functions that do nothing and take no time: the contract of each is the law.
#![tactic(auto)]

ghost use Rattle.std.specs.Prelude.{◌≡◌, ◌∷◌, ℕ, Bool, true, List, length};
ghost use Rattle.mq_model.specs.Record.{Past};
ghost use Rattle.mq_model.specs.Legality.{IsLegalNext, Legal, reply_to};
ghost use Rattle.mq_model.specs.declared.entries.Call.{Call};
ghost use Rattle.mq_equivalence.specs.Steps.{record_of, shape};
ghost use Rattle.mq_equivalence.specs.Structure.{SameStructure, extended};
ghost use Rattle.mq_equivalence.specs.Equivalence.{AgreeUnder, Equivalent, EquivalentUnder, StepsAgree, StepsEquivalent, may_come};
ghost use Rattle.mq_equivalence.specs.Runs.{Request, after_calls};

pub mod keys;
pub mod lines;
mod naming;
pub mod parts;
pub mod scans;
pub mod short;
pub mod standing;

/// Equivalent journals stay equivalent under each of the 13 calls. A call may be made after both or
/// after neither. It has the same reply up to sequence numbers, and as a receive or a collect it
/// gives its caller the same message.
pub fn stays_equivalent()
    ensures { (to : ℕ → ℕ) (x y : Past) (p : ℕ) (call : Call) (given : List ℕ) →
        EquivalentUnder to x y → StepsEquivalent to x y p call given }
{}

/// Journals that agree if no receive is to come agree again after each other call.
pub fn steps_agree()
    ensures { (received : Bool) (to : ℕ → ℕ) (x y : Past) (p : ℕ) (call : Call) (given : List ℕ) →
        AgreeUnder received to x y → may_come received call ≡ true →
        StepsAgree received to x y p call given }
{}

/// If a sequence of calls may follow the first of two equivalent journals, it may follow the
/// second, and leaves equivalent journals.
pub fn runs_stay_equivalent()
    ensures { (x y : Past) → Equivalent x y → (calls : List Request) →
        Legal (after_calls x calls) → Equivalent (after_calls x calls) (after_calls y calls) }
{}

/// For the structure alone it is enough that the two replies to one call differ only in sequence
/// numbers: the same names stay bound, the same descriptors held, and the same queues exist.
pub fn structure_stays()
    ensures { (to : ℕ → ℕ) (x y : Past) (p : ℕ) (call : Call) (given : List ℕ) →
        Legal x → Legal y → SameStructure to x y →
        shape (reply_to y p call given) ≡ shape (reply_to x p call given) →
        IsLegalNext x (record_of x p call given) → IsLegalNext y (record_of y p call given) →
        SameStructure (extended to (length x) (length y))
        (record_of x p call given ∷ x) (record_of y p call given ∷ y) }
{}

/// A legal journal is equivalent to itself.
pub fn equivalence_is_reflexive()
    ensures { (x : Past) → Legal x → Equivalent x x }
{}

/// If one journal is equivalent to another, the other is equivalent to it.
pub fn equivalence_is_symmetric()
    ensures { (x y : Past) → Equivalent x y → Equivalent y x }
{}

/// If one journal is equivalent to a second and that to a third, the first is equivalent to the
/// third.
pub fn equivalence_is_transitive()
    ensures { (x y z : Past) → Equivalent x y → Equivalent y z → Equivalent x z }
{}
