//! The theorems on the algorithm, for every number of processes and every schedule. These functions
//! do nothing; their clauses are the theorems.
ghost use Rattle.std.specs.Prelude.{◌≡◌, ℕ, ◌^◌, ◌<◌, replicate};
ghost use Rattle.lamport_core.specs.State.{State, Reach, IsProcess, IsInside, IsWorld, point_of, process_count, next, run};
ghost use Rattle.lamport_core.specs.Safe.{IsSafe};
ghost use Rattle.lamport_core.specs.Line.{IsLine, IsCounted, pass_steps};
ghost use Rattle.lamport_core.specs.Machine.{state_of};
ghost use Rattle.lamport_core.specs.declared.At.{At};
ghost use Rattle.lamport_core.specs.declared.At.TheVariants.{Rest, Fast};

/// In each world that a schedule reaches, for any number of processes, the invariant holds and at
/// most one process is in its critical section.
pub fn mutual_exclusion()
    ensures safe { (n : ℕ) (w : State) → Reach n w → IsSafe w }
    ensures one_inside { (n : ℕ) (w : State) (i j : ℕ) → Reach n w → IsInside w i →
        IsInside w j → i ≡ j }
{}

/// Each step of a process follows one line of the algorithm. By these lines an attempt takes five
/// steps to `At::Fast`, and at least n + 7 to `At::Slow`.
pub fn lines()
    ensures line { (w : State) (i : ℕ) → IsSafe w → IsProcess (process_count w) i →
        IsLine (process_count w) (point_of w i) (point_of (next w i) i) }
    ensures counted { (n k : ℕ) (p q : At) → 0 < n → n < 2 ^ 32 → IsCounted n p k → IsLine n p q →
        IsCounted n q (pass_steps p k) }
{}

/// Without contention, five steps of one process take it into its critical section by the fast
/// path, from any world in which y is 0 and the process is at rest. Two more take it back to rest.
/// After that only x may differ.
pub fn alone()
    ensures enters { (w : State) (i : ℕ) → IsWorld w → IsProcess (process_count w) i → w.y ≡ 0 →
        point_of w i ≡ Rest → point_of (run w (replicate 5 i)) i ≡ Fast }
    ensures leaves { (w : State) (i : ℕ) → IsWorld w → IsProcess (process_count w) i → w.y ≡ 0 →
        point_of w i ≡ Rest → point_of (run w (replicate 7 i)) i ≡ Rest }
    ensures same { (w : State) (i : ℕ) → IsSafe w → IsProcess (process_count w) i → w.y ≡ 0 →
        point_of w i ≡ Rest → run w (replicate 7 i) ≡ state_of i 0 w.flags w.points }
{}
