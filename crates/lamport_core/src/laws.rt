//! Laws for a lock that takes the steps of the machine on words of its own: each line keeps the
//! invariant. These functions do nothing; their clauses are the laws, over functions of the process
//! number.
ghost use Rattle.std.specs.Prelude.{◌≡◌, ℕ, Bool, true, false};
ghost use Rattle.lamport_core.specs.State.{after_TestY, after_AwaitY, after_TestX, after_SlowY, after_SlowAwait};
ghost use Rattle.lamport_core.specs.Safe.{Safe, Moves, Sets, moved_to, flag_set_to};
ghost use Rattle.lamport_core.specs.Laws.{StoreOfFlagKeeps, StoreOfXKeeps, StoreOfYKeeps, ClearOfYKeeps, LoadOfXKeeps, LoadOfYKeeps, LoadOfFlagKeeps, SameValuesKeep, OneInside, AdmittedAlone, LeftEmpty};
ghost use Rattle.lamport_core.specs.declared.At.{At};
ghost use Rattle.lamport_core.specs.declared.At.TheVariants.{Rest, Start, SetX, TestY, BackB, AwaitY, SetY, TestX, SlowB, Scan, SlowY, SlowAwait, Fast, Slow, Leaving};

/// Each line of the algorithm keeps the invariant.
pub fn line_laws()
    ensures rest { StoreOfFlagKeeps Rest SetX true }
    ensures start { StoreOfFlagKeeps Start SetX true }
    ensures set_x { StoreOfXKeeps SetX TestY }
    ensures test_y { LoadOfYKeeps TestY (λ i v. after_TestY v) }
    ensures back_b { StoreOfFlagKeeps BackB AwaitY false }
    ensures await_y { LoadOfYKeeps AwaitY (λ i v. after_AwaitY v) }
    ensures set_y { StoreOfYKeeps SetY TestX }
    ensures test_x { LoadOfXKeeps TestX after_TestX }
    ensures slow_b { StoreOfFlagKeeps SlowB (Scan 1) false }
    ensures scan { LoadOfFlagKeeps }
    ensures slow_y { LoadOfYKeeps SlowY after_SlowY }
    ensures slow_await { LoadOfYKeeps SlowAwait (λ i v. after_SlowAwait v) }
    ensures fast { ClearOfYKeeps Fast Leaving }
    ensures slow { ClearOfYKeeps Slow Leaving }
    ensures leaving { StoreOfFlagKeeps Leaving Rest false }
{}

/// What the invariant says about the critical section: at most one process is in it, a step that
/// enters it found it empty, and a step that leaves it leaves it empty.
pub fn inside_laws()
    ensures one_inside { OneInside }
    ensures admitted_alone { AdmittedAlone }
    ensures left_empty { LeftEmpty }
{}

/// Processes at rest with their flags down satisfy the invariant, whatever x and y are. Changing
/// the point or the flag of one process leaves those of the others. The invariant depends only on
/// the values.
pub fn change_laws()
    ensures at_rest { (n x y : ℕ) (b : ℕ → Bool) (at : ℕ → At) → ((i : ℕ) → at i ≡ Rest) →
        ((i : ℕ) → b i ≡ false) → Safe n x y b at }
    ensures moves { (at : ℕ → At) (i : ℕ) (P Q : At) → at i ≡ P → Moves i P Q at (moved_to at i Q) }
    ensures sets { (b : ℕ → Bool) (i : ℕ) (v : Bool) → Sets i v b (flag_set_to b i v) }
    ensures same { SameValuesKeep }
{}
