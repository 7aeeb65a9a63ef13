//! Machines with persistent choices.
ghost use Rattle.std.specs.Prelude.{◌≡◌, ◌==◌, ℕ, IfSome, IsSome, Some, false};
ghost use Rattle.schedules.specs.Persistence.{Commutes};
ghost use Rattle.schedules.specs.Schedules.{IsReached};

use crate::keyed::Keyed;

/// A machine with persistent choices. Such a choice can be taken at its state, and commutes with
/// each other choice. It stays persistent until it is taken, so that a search need try no other
/// choice at the state.
pub trait PersistentChoices: Keyed {
    /// The choice is persistent at the state.
    ghost IsPersistent: { Self → ℕ → Type 0 };

    /// A persistent choice, if one is known.
    fn persistent(&self) -> Option<u32>
        ensures { IfSome result (IsPersistent self.now) };

    /// What persistent choices promise, in states that are reached from the start. The method does
    /// nothing: its contract is the law. The choice can be taken, and the state is no goal. If
    /// another choice is taken, the choice stays persistent. Both orders of the two choices lead to
    /// equivalent states.
    fn choices_commute(&self)
        ensures can { (x : Self) (choice : ℕ) → IsReached Self.next (Self.start self.now) x →
            IsPersistent x choice → IsSome (Self.next x choice) }
        ensures no_goal { (x : Self) (choice : ℕ) → IsReached Self.next (Self.start self.now) x →
            IsPersistent x choice → Self.is_goal x ≡ false }
        ensures commutes { (x y z : Self) (choice other : ℕ) →
            IsReached Self.next (Self.start self.now) x → IsPersistent x choice →
            (choice == other) ≡ false → Self.next x choice ≡ Some y → Self.next x other ≡ Some z →
            Commutes Self.next Self.IsAlike IsPersistent choice other y z };
}
