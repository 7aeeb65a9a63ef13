//! How many steps suffice to try all schedules.
ghost use Rattle.std.specs.Prelude.{ℕ, ◌≤◌, ◌+◌, ◌*◌, ◌^◌};
ghost use Rattle.schedules.specs.Work.{AreShort, HaveFew, TakesAll};

use crate::machine::Machine;

/// If no schedule is longer than d, and no state that one reaches has more than c choices, 2 (c +
/// 1)^(d + 1) steps suffice, or (d + 1) (c + 1)^(d + 1) if choices that are run again are counted.
/// The function does nothing: its contract is the law.
pub fn few_schedules_take_few_steps<M: Machine>(_machine: &M)
    ensures taken { (from : M) (c d budget : ℕ) → AreShort M.next d from →
        HaveFew M.next M.choices c from → 2 * (c + 1) ^ (d + 1) ≤ budget →
        TakesAll M.next M.choices (λ depth. 1) budget from → ⊥ }
    ensures taken_again { (from : M) (c d budget : ℕ) → AreShort M.next d from →
        HaveFew M.next M.choices c from → (d + 1) * (c + 1) ^ (d + 1) ≤ budget →
        TakesAll M.next M.choices (λ depth. depth) budget from → ⊥ }
{}
