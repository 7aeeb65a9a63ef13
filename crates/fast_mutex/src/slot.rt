//! The one slot of a lock's table. It holds the state while no process is in its critical section.
//! Nothing here accesses a word.
ghost use Rattle.std.specs.Prelude.{◌≡◌, [], ◌∷◌, length, Some, None, IfOk, IfErr};
ghost use Rattle.std.specs.Mem.Slots.{slots_items, slots_len, IsFull};
ghost use mathlib.Core.Option.{some};
ghost use lib.ListN.{get_elem?};
ghost use Rattle.atomic_table.specs.Table.{opening};

use atomic_table::{Closed, Refused, Seat, Shared, Table, TableRule};
use std::alloc::{AllocError, Global};

type Furnished<S, V, K, R> = (Table<Option<S>, V, K, R, Global>, Seat<Option<S>, V>);

/// A table with the state in its slot, and its first seat. If memory is refused, the state comes
/// back.
pub(crate) fn furnish<S, V, K, R: TableRule<Option<S>, V, K>>(
    alloc: Global,
    words: &[u64],
    about: &K,
    state: S,
) -> Result<Furnished<S, V, K, R>, (S, AllocError)>
    requires { R.holds about.now (opening words.now (Some state ∷ []) (R.first about.now)) }
    ensures table { IfOk result (λ r. (r.0.shared.table_id.words ≡ length words.now) ×
        (r.0.shared.table_id.slots ≡ 1) × (r.0.shared.key ≡ about.now)) }
    ensures first { IfOk result (λ r. (r.1.table_id ≡ r.0.shared.table_id) ×
        (r.1.me ≡ (R.first about.now, []))) }
    ensures back { IfErr result (λ r. r.0 ≡ state) }
{
    let mut slots = match Vec::with_capacity(alloc, 1) {
        Ok(slots) => slots,
        Err(failed) => return Err((state, failed)),
    };
    slots.push_reserved(Some(state));
    match Table::new(alloc, words, slots, about) {
        Ok(furnished) => Ok(furnished),
        Err(Refused { mut slots }) => {
            let Some(Some(state)) = slots.pop() else {
                unreachable!()
            };
            slots.destroy_empty();
            Err((state, AllocError))
        }
    }
}

/// Takes the state out of the slot that the seat holds.
#[inline(always)]
pub(crate) fn take_out<S, V, K, R: TableRule<Option<S>, V, K>>(
    shared: &Shared<Option<S>, V, K, R>,
    seat: &mut Seat<Option<S>, V>,
) -> S
    requires own { seat.old.table_id ≡ shared.now.table_id }
    requires inside { (st : S) × (seat.old.me.1 ≡ (0, Some st) ∷ []) }
    ensures own { (seat.new.table_id ≡ seat.old.table_id) × (seat.new.id ≡ seat.old.id) }
    ensures state { (seat.old.me.1 ≡ (0, Some result) ∷ []) ×
        (seat.new.me ≡ (seat.old.me.0, (0, None) ∷ [])) }
{
    let Some(state) = shared.exchange(seat, 0, None) else {
        unreachable!()
    };
    state
}

/// Puts the state into the slot that the seat holds.
#[inline(always)]
pub(crate) fn put_in<S, V, K, R: TableRule<Option<S>, V, K>>(
    shared: &Shared<Option<S>, V, K, R>,
    seat: &mut Seat<Option<S>, V>,
    state: S,
)
    requires own { seat.old.table_id ≡ shared.now.table_id }
    requires inside { seat.old.me.1 ≡ (0, None) ∷ [] }
    ensures own { (seat.new.table_id ≡ seat.old.table_id) × (seat.new.id ≡ seat.old.id) }
    ensures state { seat.new.me ≡ (seat.old.me.0, (0, Some state) ∷ []) }
{
    let before = shared.exchange(seat, 0, Some(state));
    let None = before else { unreachable!() };
}

/// The state in the slot of a closed table.
pub(crate) fn take_state<T>(mut closed: Closed<Option<T>, Global>) -> T
    requires one { slots_len closed.slots ≡ 1 }
    requires full { IsFull closed.slots }
    requires there { (x : T) × (get_elem? (slots_items closed.slots) 0 ≡ some (Some x)) }
    ensures { get_elem? (slots_items closed.slots) 0 ≡ some (Some result) }
{
    let Some(state) = closed.take(0) else {
        unreachable!()
    };
    closed.free();
    state
}
