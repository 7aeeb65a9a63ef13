//! Which steps are dependent. Independent steps may be exchanged if they are adjacent.
ghost use Rattle.std.specs.Prelude.{◌≡◌, true, false};
ghost use Rattle.std.specs.List.{Contains};
ghost use Rattle.exploration.specs.Dependence.{are_apart, are_bound, are_independent, both_create, commute, commute_on, is_apart, passes, share_time};
ghost use Rattle.exploration.specs.Races.{any_race, any_race_if_made, are_in_order, brings, comes_after, frees, is_cause, is_freed, lets, makes_room, may_race, may_race_if_made, may_race_with_any, only_lets, races_with_any};
ghost use Rattle.exploration.specs.Locks.{Lock, are_on_lock, can_lock, can_unlock};
ghost use Rattle.exploration.specs.declared.deed.Effect.{Effect};

use crate::deed::{
    Deed, Effect, is_exit, is_lock, is_on_names, is_receive, is_rwunlock, is_send, is_unlock,
    is_wait, is_write_lock, tells_time,
};

// Whether a send and a receive of the same queue are independent: the receive takes an older
// message of the same or a higher priority, and the send does not need the room that the receive
// makes.
fn passes(send: &Effect, receive: &Effect) -> bool
    ensures { result ≡ passes send.now receive.now }
{
    is_send(send.kind)
        && is_receive(receive.kind)
        && send.message != 0
        && receive.message != 0
        && send.message != receive.message
        && send.priority <= receive.priority
        && u64::from(send.number) != u64::from(receive.number) + u64::from(receive.room)
}

// Whether two effects on the same object commute.
fn commute_on(x: &Effect, y: &Effect) -> bool
    ensures { result ≡ commute_on x.now y.now }
{
    x.looks && y.looks
        || !x.looks && !y.looks && (passes(x, y) || passes(y, x))
        || is_wait(x.kind) && is_wait(y.kind)
}

// Whether two effects commute.
fn commute(x: &Effect, y: &Effect) -> bool
    ensures { result ≡ commute x.now y.now }
{
    x.object != y.object || commute_on(x, y)
}

// Whether an effect commutes with each of the others.
fn is_apart(x: &Effect, effects: &[Effect]) -> bool
    ensures { result ≡ is_apart x.now effects.now }
{
    effects.iter().all(|y| commute(x, y))
}

// Whether each of the first effects commutes with each of the second.
fn are_apart(xs: &[Effect], ys: &[Effect]) -> bool
    ensures { result ≡ are_apart xs.now ys.now }
{
    xs.iter().all(|x| is_apart(x, ys))
}

// Whether both create threads, which are numbered in the order of their creation.
fn both_create(a: &Deed, b: &Deed) -> bool
    ensures { result ≡ both_create a.now b.now }
{
    !a.created.is_empty() && !b.created.is_empty()
}

// Whether one reads a time that the other ends.
fn share_time(a: &Deed, b: &Deed) -> bool
    ensures { result ≡ share_time a.now b.now }
{
    tells_time(a.kind) && b.is_late || tells_time(b.kind) && a.is_late
}

// Whether one of the steps depends on all others, or both are about names, the creation of threads
// or the time.
fn are_bound(a: &Deed, b: &Deed) -> bool
    ensures { result ≡ are_bound a.now b.now }
{
    a.stands_still
        || b.stands_still
        || is_exit(a.kind)
        || is_exit(b.kind)
        || is_on_names(a.kind) && is_on_names(b.kind)
        || both_create(a, b)
        || share_time(a, b)
}

/// Whether the steps are independent: neither depends on whether the other was made before it.
pub fn are_independent(a: &Deed, b: &Deed) -> bool
    ensures { result ≡ are_independent a.now b.now }
{
    a.choice.thread != b.choice.thread && !are_bound(a, b) && are_apart(&a.effects, &b.effects)
}

// Whether the first effect is an unlock that the second had to wait for: a lock that nobody else may
// hold. A read lock need not wait for a reader, and a try or a call with a deadline need not wait.
fn frees(x: &Effect, y: &Effect) -> bool
    ensures exact { result ≡ frees x.now y.now }
    ensures locks { (lock : Lock) → can_unlock lock x.now.kind ≡ true →
        can_lock lock y.now ≡ true → result ≡ false }
{
    !y.is_free
        && (is_unlock(x.kind) && is_lock(y.kind) || is_rwunlock(x.kind) && is_write_lock(y.kind))
}

// Whether a receive takes the message of a send, and had to wait for it.
fn brings(send: &Effect, receive: &Effect) -> bool
    ensures { result ≡ brings send.now receive.now }
{
    is_send(send.kind)
        && is_receive(receive.kind)
        && !send.looks
        && !receive.looks
        && !receive.is_free
        && send.message != 0
        && send.message == receive.message
        && receive.older == 0
}

// Whether a send had to wait for the room that a receive makes.
fn makes_room(receive: &Effect, send: &Effect) -> bool
    ensures { result ≡ makes_room receive.now send.now }
{
    is_receive(receive.kind)
        && is_send(send.kind)
        && !receive.looks
        && !send.looks
        && !send.is_free
        && receive.number != 0
        && u64::from(send.number) == u64::from(receive.number) + u64::from(receive.room)
        && send.priority <= receive.priority
}

// Whether the second effect could not be made before the first, which it had to wait for.
fn lets(x: &Effect, y: &Effect) -> bool
    ensures exact { result ≡ lets x.now y.now }
    ensures locks { (lock : Lock) → can_unlock lock x.now.kind ≡ true →
        can_lock lock y.now ≡ true → result ≡ false }
{
    frees(x, y) || brings(x, y) || makes_room(x, y)
}

// Whether one of these effects is a lock, of the object of the second, that had to wait for the
// first.
fn is_freed(x: &Effect, y: &Effect, effects: &[Effect]) -> bool
    ensures { result ≡ is_freed x.now y.now effects.now }
{
    effects.iter().any(|z| z.object == y.object && frees(x, z))
}

// Whether the second effect, one of these of a step, is an unlock after a lock by the same step that
// had to wait for the first effect.
fn comes_after(x: &Effect, y: &Effect, effects: &[Effect]) -> bool
    ensures { result ≡ comes_after x.now y.now effects.now }
{
    (is_unlock(y.kind) || is_rwunlock(y.kind)) && is_freed(x, y, effects)
}

// Whether an effect does not commute with one of the others, which could be made before it.
fn races_with_any(x: &Effect, effects: &[Effect]) -> bool
    ensures { result ≡ races_with_any x.now effects.now }
{
    effects.iter().any(|y| !commute(x, y) && !lets(x, y) && !comes_after(x, y, effects))
}

// Whether two effects of the steps may come in the other order, and that may matter.
fn any_race(a: &Deed, b: &Deed) -> bool
    ensures { result ≡ any_race a.now b.now }
{
    a.effects.iter().any(|x| races_with_any(x, &b.effects))
}

// Whether the first effect can only enable the second, which waits for it.
fn only_lets(x: &Effect, y: &Effect) -> bool
    ensures { result ≡ only_lets x.now y.now }
{
    !x.looks
        && !y.is_free
        && (is_send(x.kind) && is_receive(y.kind) && x.priority == 0
            || is_receive(x.kind) && is_send(y.kind))
}

// The same, if the other effects were not made because they wait.
fn may_race_with_any(x: &Effect, effects: &[Effect]) -> bool
    ensures { result ≡ may_race_with_any x.now effects.now }
{
    effects
        .iter()
        .any(|y| !commute(x, y) && !lets(x, y) && !only_lets(x, y))
}

// The same, if the second step was not made because it waits.
fn any_race_if_made(a: &Deed, b: &Deed) -> bool
    ensures { result ≡ any_race_if_made a.now b.now }
{
    a.effects.iter().any(|x| may_race_with_any(x, &b.effects))
}

// Whether the steps cannot come in the other order: one thread makes both, or one of them cannot be
// exchanged, unless both are deadlines that pass when no thread can go on.
fn are_in_order(a: &Deed, b: &Deed) -> bool
    ensures { result ≡ are_in_order a.now b.now }
{
    a.choice.thread == b.choice.thread
        || (a.stands_still || b.stands_still) && !(a.is_late && b.is_late)
}

// Whether the step at this index let another go on.
fn is_cause(b: &Deed, place: usize) -> bool
    ensures { result ≡ is_cause b.now place }
{
    match b.cause {
        Some(cause) => cause == place,
        None => false,
    }
}

/// Whether two steps race: they are dependent, and the later one may come before the other. `place`
/// is the index of the earlier step, which may be the one that let the later one go on.
///
/// A lock that could be made at some state of the lock at which the unlock could be made races with
/// it, unless the unlock let it go on.
pub fn may_race(a: &Deed, place: usize, b: &Deed) -> bool
    ensures exact { result ≡ may_race a.now place b.now }
    ensures locks { (lock : Lock) (x y : Effect) → Contains a.now.effects.items x →
        Contains b.now.effects.items y → x.object ≡ y.object → x.looks ≡ false →
        are_on_lock x y ≡ true → can_unlock lock x.kind ≡ true → can_lock lock y ≡ true →
        are_in_order a.now b.now ≡ false → is_cause b.now place ≡ false → result ≡ true }
{
    !are_in_order(a, b) && (are_bound(a, b) || !is_cause(b, place) && any_race(a, b))
}

/// The same, if the later one is not made yet.
pub fn may_race_if_made(a: &Deed, place: usize, b: &Deed) -> bool
    ensures exact { result ≡ may_race_if_made a.now place b.now }
    ensures locks { (lock : Lock) (x y : Effect) → Contains a.now.effects.items x →
        Contains b.now.effects.items y → x.object ≡ y.object → x.looks ≡ false →
        are_on_lock x y ≡ true → can_unlock lock x.kind ≡ true → can_lock lock y ≡ true →
        are_in_order a.now b.now ≡ false → is_cause b.now place ≡ false → result ≡ true }
{
    !are_in_order(a, b) && (are_bound(a, b) || !is_cause(b, place) && any_race_if_made(a, b))
}
