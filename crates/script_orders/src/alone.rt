//! Sends and receives on queues that no other process will use in the phase: a search may take such
//! a step alone.
ghost use Rattle.std.specs.Prelude.{◌≡◌, IfSome, Some, None, drop, true};
ghost use Rattle.std.specs.List.{list_any};
ghost use Rattle.mq_model.specs.Descriptors.{called_queue, descriptor_of};
ghost use Rattle.mq_model.specs.Notices.{registered};
ghost use Rattle.mq_state.specs.Trails.{can_call};
ghost use Rattle.script_orders.specs.Persistence.{StartsOn, is_held_among, is_held_on, is_transfer, line_may_use, may_use, step_may_use};

use crate::plan::{Planned, Step};
use crate::turn::Seat;
use mq_model::entries::Call;
use mq_state::trail::Trail;

// The descriptor of a send or a receive.
fn transfer_by(call: Call) -> Option<u32>
    ensures transfers { IfSome result (λ d. is_transfer call ≡ true) }
    ensures names { IfSome result (λ d. descriptor_of call ≡ Some d) }
{
    match call {
        Call::MqSend { d, .. }
        | Call::MqReceive { d, .. }
        | Call::MqTimedSend { d, .. }
        | Call::MqTimedReceive { d, .. } => Some(d),
        _ => None,
    }
}

// The queue of a send or a receive that process p may make now, if nobody is registered there.
fn transfer_on(trail: &Trail, p: u32, call: Call, given: &[u8]) -> Option<u64>
    ensures transfers { IfSome result (λ q. is_transfer call ≡ true) }
    ensures can { IfSome result (λ q. can_call trail.now p call given.now ≡ true) }
    ensures on { IfSome result (λ q. called_queue trail.now p call ≡ Some q) }
    ensures unregistered { IfSome result (λ q. registered trail.now q ≡ None) }
{
    let d = transfer_by(call)?;
    if trail.has_registration(p, d) || !trail.can_make(p, call, given) {
        return None;
    }
    trail.held_queue(p, d)
}

/// The queue on which the next line of process p sends or receives, if the process may do so now
/// and nobody is registered there.
pub fn starts_on(trail: &Trail, seat: &Seat, phase: u64, p: u32, program: &[Planned]) -> Option<u64>
    ensures { IfSome result (StartsOn trail.now phase p seat.now program.now) }
{
    let begun = seat.begun();
    if begun >= program.len() {
        return None;
    }
    let next = &program[begun];
    if next.phase != phase {
        return None;
    }
    match next.step {
        Step::Call(call) => transfer_on(trail, p, call, next.given.as_slice()),
        Step::Refusal(_) | Step::Exit => None,
    }
}

// Whether a descriptor of process p is one of queue q.
fn is_held_on(trail: &Trail, p: u32, q: u64, d: u32) -> bool
    ensures { result ≡ is_held_on trail.now p q d }
{
    match trail.held_queue(p, d) {
        None => false,
        Some(held) => held == q,
    }
}

// Whether process p has a descriptor of queue q.
fn is_held(trail: &Trail, p: u32, q: u64) -> bool
    ensures { result ≡ is_held_among trail.now p q 16 }
{
    let mut held = false;
    for d in 0..16u32 {
        if is_held_on(trail, p, q, d) {
            held = true;
        }
    }
    held
}

// Whether a call of process p may use queue q.
fn may_use(trail: &Trail, p: u32, q: u64, call: Call) -> bool
    ensures { result ≡ may_use trail.now p q call }
{
    match call {
        Call::MqOpen { .. } | Call::MqUnlink => true,
        Call::MqClose { d }
        | Call::MqSend { d, .. }
        | Call::MqReceive { d, .. }
        | Call::MqTimedSend { d, .. }
        | Call::MqTimedReceive { d, .. }
        | Call::MqGetattr { d }
        | Call::MqSetattr { d, .. }
        | Call::MqNotify { d, .. } => is_held_on(trail, p, q, d),
        Call::NextNotice | Call::Collect | Call::Withdraw { .. } => false,
    }
}

// Whether a line of process p may use queue q.
fn step_may_use(trail: &Trail, p: u32, q: u64, step: Step) -> bool
    ensures { result ≡ step_may_use trail.now p q step }
{
    match step {
        Step::Call(call) => may_use(trail, p, q, call),
        Step::Refusal(_) => false,
        Step::Exit => is_held(trail, p, q),
    }
}

/// Whether a line of process p from this one on may use queue q in this phase.
pub fn lines_may_use(
    trail: &Trail,
    phase: u64,
    p: u32,
    q: u64,
    program: &[Planned],
    begun: usize,
) -> bool
    ensures { result ≡ list_any (line_may_use trail.now phase p q) (drop begun program.now) }
{
    for i in begun..program.len() {
        if program[i].phase == phase && step_may_use(trail, p, q, program[i].step) {
            return true;
        }
    }
    false
}
