//! The seats of a lock: dealt out when it is made, joined again when it ends. Every lock does both
//! in the same way.
ghost use Rattle.std.specs.Prelude.{◌≡◌, ◌<◌, ◌≤◌, ◌+◌, ◌-◌, [], map, suc, vec_len, vec_capacity};
ghost use Rattle.std.specs.List.{All};
ghost use Rattle.fast_mutex.specs.Items.{ticket_with, tickets_with, Grows};
ghost use Rattle.fast_mutex.specs.Seats.{Resting, Deals, IsAlone, first_view, fresh, claim_of, new_claims, made_with, lock_id, ticket_of};

use crate::logged::Logged;
use crate::slot::take_state;
use atomic_table::{Join, Seat, Shared, Split, Table, TableRule};
use std::alloc::Global;
use std::marker::PhantomData;
use std::snapshot::Snapshot;

/// What the table is made with: the number of processes, and the state given to `new`.
#[derive(Drop)]
pub struct About<S> {
    pub count: u32,
    pub state: Snapshot<S>,
}

/// The ghost state of a seat at the table, for a lock whose state shows items `I`.
pub trait RestView<I> {
    // how a view stands for seats outside the critical section
    ghost resting: { Resting Self I };
}

/// The right of one process to acquire a lock, as a seat at its table. The process is outside its
/// critical section.
#[derive(Drop)]
pub struct LockSeat<S: Logged, V: RestView<S::Item>> {
    pub(crate) number: u32,
    // the processes whose waits the last critical section answered: bit p - 1 stands for process p
    pub(crate) answered: u32,
    pub(crate) seat: Seat<Option<S>, V>,
    ghost range: { (1 ≤ number) × (number ≤ (V.resting.fixed seat.me.0).0) },
    ghost alone: { IsAlone V.resting number seat.me },
}

/// A split: the new seat gets the first claim.
struct DealsFirst<I> {
    of: PhantomData<I>,
}

impl<I, V: RestView<I>> Split<V> for DealsFirst<I> {
    ghost use Rattle.fast_mutex.specs.Seats.{view_of_others, view_of_first};

    ghost left = { view_of_others V.resting };

    ghost right = { view_of_first V.resting };
}

/// A join: one seat takes the claims of another.
struct TakesIn<I> {
    of: PhantomData<I>,
}

impl<I, V: RestView<I>> Join<V> for TakesIn<I> {
    ghost use Rattle.fast_mutex.specs.Seats.{joint_view};

    ghost both = { joint_view V.resting };

    ghost spent = { V.resting.blank };
}

// Splits off a seat for the first of the processes that `first` stands for.
fn deal_one<S: Logged, V: RestView<S::Item>, R: TableRule<Option<S>, V, About<S>>>(
    shared: &Shared<Option<S>, V, About<S>, R>,
    first: &mut Seat<Option<S>, V>,
    number: u32,
) -> LockSeat<S, V>
    requires rule { Deals V.resting S.items S.fixed S.author shared.now.key
        (R.holds shared.now.key) }
    requires words { 0 < shared.now.table_id.words }
    requires own { first.old.table_id ≡ shared.now.table_id }
    requires number { (1 ≤ number) × (number ≤ shared.now.key.count) }
    requires claims { first.old.me ≡ (
      fresh V.resting (made_with S.fixed shared.now.key)
          (new_claims (S.items shared.now.key.state.value) number
          (suc (shared.now.key.count - number))),
      [],
    ) }
    ensures own { first.new.table_id ≡ first.old.table_id }
    ensures claims { first.new.me ≡ (
      fresh V.resting (made_with S.fixed shared.now.key)
          (new_claims (S.items shared.now.key.state.value) (number + 1)
          (shared.now.key.count - number)),
      [],
    ) }
    ensures ticket { ticket_of V.resting result.number result.seat ≡
        ticket_with (lock_id shared.now.table_id (made_with S.fixed shared.now.key))
        (S.items shared.now.key.state.value) number }
{
    let seat = shared.split_seat::<DealsFirst<S::Item>>(first);
    LockSeat {
        number,
        answered: 0,
        seat,
    }
}

/// Deals a seat to each process, from the one seat that stands for all.
pub(crate) fn deal<S: Logged, V: RestView<S::Item>, R: TableRule<Option<S>, V, About<S>>>(
    shared: &Shared<Option<S>, V, About<S>, R>,
    count: u32,
    mut first: Seat<Option<S>, V>,
    mut seats: Vec<LockSeat<S, V>>,
) -> Vec<LockSeat<S, V>>
    requires rule { Deals V.resting S.items S.fixed S.author shared.now.key
        (R.holds shared.now.key) }
    requires words { 0 < shared.now.table_id.words }
    requires count { (1 ≤ count) × (count ≡ shared.now.key.count) }
    requires first { (first.table_id ≡ shared.now.table_id) ×
        (first.me ≡ (first_view V.resting S.items S.fixed shared.now.key, [])) }
    requires room { (vec_len seats ≡ 0) × (count ≤ vec_capacity seats) }
    ensures tickets { map (λ s. ticket_of V.resting s.number s.seat) result.items ≡
        tickets_with (lock_id shared.now.table_id (made_with S.fixed shared.now.key))
        (S.items shared.now.key.state.value) 1 count }
{
    for number in 1..count {
        let seat = deal_one(shared, &mut first, number);
        seats.push_reserved(seat);
    }
    seats.push_reserved(LockSeat {
        number: count,
        answered: 0,
        seat: first,
    });
    seats
}

// Joins the seats to one that stands for all their processes.
fn join_all<S: Logged, V: RestView<S::Item>, R: TableRule<Option<S>, V, About<S>>>(
    shared: &Shared<Option<S>, V, About<S>, R>,
    mut seats: Vec<LockSeat<S, V>>,
) -> Seat<Option<S>, V>
    requires rule { Deals V.resting S.items S.fixed S.author shared.now.key
        (R.holds shared.now.key) }
    requires words { 0 < shared.now.table_id.words }
    requires some { 0 < vec_len seats }
    requires own { All (λ s. (ticket_of V.resting s.number s.seat).lock ≡
        lock_id shared.now.table_id (made_with S.fixed shared.now.key)) seats.items }
    ensures own { result.table_id ≡ shared.now.table_id }
    ensures claims { result.me.0 ≡ V.resting.rest result.me.0 (made_with S.fixed shared.now.key)
        (map (λ s. claim_of V.resting s.number s.seat.me.0) seats.items) }
{
    let Some(
        LockSeat {
            number: _,
            answered: _,
            seat: mut all,
        },
    ) = seats.pop()
    else {
        unreachable!()
    };
    while let Some(
        LockSeat {
            number: _,
            answered: _,
            seat,
        },
    ) = seats.pop()
    {
        shared.join_seat::<TakesIn<S::Item>>(&mut all, seat);
    }
    seats.destroy_empty();
    all
}

/// Ends the table and takes the state. With all seats given no process is in its critical section,
/// so the state is in its slot.
pub(crate) fn close<S: Logged, V: RestView<S::Item>, R: TableRule<Option<S>, V, About<S>>>(
    table: Table<Option<S>, V, About<S>, R, Global>,
    seats: Vec<LockSeat<S, V>>,
) -> S
    requires rule { Deals V.resting S.items S.fixed S.author table.shared.key
        (R.holds table.shared.key) }
    requires shape { (0 < table.shared.table_id.words) × (table.shared.table_id.slots ≡ 1) }
    requires all { (1 ≤ table.shared.key.count) × (table.shared.key.count ≤ vec_len seats) }
    requires own { All (λ s. (ticket_of V.resting s.number s.seat).lock ≡
        lock_id table.shared.table_id (made_with S.fixed table.shared.key)) seats.items }
    ensures fixed { S.fixed result ≡ S.fixed table.shared.key.state.value }
    ensures grows { All (λ s. Grows S.author s.number (ticket_of V.resting s.number s.seat).left
        (S.items result) []) seats.items }
{
    let all = join_all(&table.shared, seats);
    take_state(table.close_with(all))
}
