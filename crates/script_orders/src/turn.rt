//! The next step of a process of a script.
ghost use Rattle.std.specs.Prelude.{◌≡◌, ◌≤◌, [], None, Some, IfOk, IsFalse, IsTrue, OnOk, is_some};
ghost use Rattle.mq_model.specs.Waits.{open_wait};
ghost use Rattle.script_orders.specs.Progress.{Progress};
ghost use Rattle.script_orders.specs.Scenes.{after_call, after_step, close_first, close_held, is_held};
ghost use Rattle.script_orders.specs.Turns.{after_turn};

use crate::plan::{Planned, Step};
use crate::said::push_said;
use mq_model::entries::{Call, Reply};
use mq_state::trail::Trail;
use script_text::reply::{Outcome, push_reply};
use std::alloc::{AllocError, Global};
use std::marker::Model;

/// The state of a process: how many of its lines it has begun, and the text of its replies in this
/// phase.
#[derive(Drop)]
pub struct Seat {
    begun: usize,
    text: Vec<u8>,
}

impl Model for Seat {
    ghost use Rattle.script_orders.specs.Progress.{Progress};

    ghost Value = { Progress };

    ghost use Rattle.script_orders.specs.SeatModel.{shown};

    ghost view = { shown };
}

impl Seat {
    /// A process that has begun this number of lines, at the beginning of a phase.
    pub fn new(alloc: Global, begun: usize) -> Seat
        ensures { result ≡ record { begun = begun; text = [] } }
    {
        Seat {
            begun,
            text: Vec::new(alloc),
        }
    }

    /// A copy.
    pub fn copy(&self, alloc: Global) -> Result<Seat, AllocError>
        ensures { IfOk result (λ seat. seat ≡ self.now) }
    {
        Ok(Seat {
            begun: self.begun,
            text: Vec::from_slice(alloc, &self.text)?,
        })
    }

    /// How many of its lines the process has begun.
    pub fn begun(&self) -> usize
        ensures { result ≡ self.now.begun }
    {
        self.begun
    }

    /// The text of its replies in this phase.
    pub fn text(&self) -> &[u8]
        ensures { result.now ≡ self.now.text }
    {
        self.text.as_slice()
    }
}

// Makes a call of process p and appends the text of the reply, if it may make the call now.
fn make(
    alloc: Global,
    trail: &mut Trail,
    text: &mut Vec<u8>,
    p: u32,
    call: Call,
    given: &[u8],
) -> Result<bool, AllocError>
    ensures went { IfOk result (λ went. IsTrue went →
        after_call (record { past = trail.old; text = text.old.items }) p call given.now ≡
        Some (record { past = trail.new; text = text.new.items })) }
    ensures none { IfOk result (λ went. IsFalse went →
        after_call (record { past = trail.old; text = text.old.items }) p call given.now ≡ None) }
    ensures stays { IfOk result (λ went. IsFalse went → trail.new ≡ trail.old) }
    ensures text_stays { IfOk result (λ went. IsFalse went → text.new.items ≡ text.old.items) }
{
    let reply = trail.reply(p, call, given);
    if !trail.make(p, call, given)? {
        return Ok(false);
    }
    push_said(alloc, text, trail.journal(), p, reply)?;
    Ok(true)
}

// Whether process p holds descriptor d.
fn is_held(trail: &Trail, p: u32, d: u32) -> bool
    ensures { result ≡ is_held trail.now p d }
{
    match trail.reply(p, Call::MqClose { d }, &[]) {
        Reply::Refused(_) => false,
        _ => true,
    }
}

// Closes descriptor d of process p, if it holds it.
fn close_held(trail: &mut Trail, p: u32, d: u32) -> Result<(), AllocError>
    requires process { (1 ≤ p) × (p ≤ 32) }
    requires free { open_wait trail.old p ≡ None }
    ensures closed { OnOk result (trail.new ≡ close_held trail.old p d) }
    ensures free { OnOk result (open_wait trail.new p ≡ None) }
{
    if is_held(trail, p, d) {
        let _made = trail.make(p, Call::MqClose { d }, &[])?;
    }
    Ok(())
}

// Closes all descriptors of process p, in rising order.
fn close_all(trail: &mut Trail, p: u32) -> Result<(), AllocError>
    requires process { (1 ≤ p) × (p ≤ 32) }
    requires free { open_wait trail.old p ≡ None }
    ensures { OnOk result (trail.new ≡ close_first trail.old p 16) }
{
    for d in 0..16u32 {
        close_held(trail, p, d)?;
    }
    Ok(())
}

// Does what the line of process p says, if it can. The process has no open wait.
fn begin(
    alloc: Global,
    trail: &mut Trail,
    text: &mut Vec<u8>,
    p: u32,
    planned: &Planned,
) -> Result<bool, AllocError>
    requires process { (1 ≤ p) × (p ≤ 32) }
    requires free { open_wait trail.old p ≡ None }
    ensures went { IfOk result (λ went. IsTrue went →
        after_step (record { past = trail.old; text = text.old.items }) p planned.now.given.items
        planned.now.step ≡
        Some (record { past = trail.new; text = text.new.items })) }
    ensures none { IfOk result (λ went. IsFalse went →
        after_step (record { past = trail.old; text = text.old.items }) p planned.now.given.items
        planned.now.step ≡ None) }
    ensures stays { IfOk result (λ went. IsFalse went → trail.new ≡ trail.old) }
    ensures text_stays { IfOk result (λ went. IsFalse went → text.new.items ≡ text.old.items) }
{
    match planned.step {
        Step::Call(call) => make(alloc, trail, text, p, call, planned.given.as_slice()),
        Step::Refusal(fault) => {
            push_reply(alloc, text, p, &Outcome::Refused(fault), &[])?;
            Ok(true)
        }
        Step::Exit => {
            close_all(trail, p)?;
            push_reply(alloc, text, p, &Outcome::Done, &[])?;
            Ok(true)
        }
    }
}

// Whether process p, which has no open wait, can do what its line says.
fn can_begin(trail: &Trail, text: &[u8], p: u32, planned: &Planned) -> bool
    ensures { result ≡ is_some (after_step (record { past = trail.now; text = text.now }) p
        planned.now.given.items planned.now.step) }
{
    let _text = text;
    match planned.step {
        Step::Call(call) => trail.can_make(p, call, planned.given.as_slice()),
        Step::Refusal(_) => true,
        Step::Exit => true,
    }
}

/// Takes the next step of process p, if there is one. If it waits it collects; otherwise it begins
/// the next line of its program, if that is in this phase. If memory was refused, there is no
/// guarantee about the state that is left.
pub fn turn(
    alloc: Global,
    trail: &mut Trail,
    seat: &mut Seat,
    phase: u64,
    p: u32,
    program: &Vec<Planned>,
) -> Result<bool, AllocError>
    requires process { (1 ≤ p) × (p ≤ 32) }
    ensures went { IfOk result (λ went. IsTrue went →
        after_turn trail.old phase p seat.old program.now ≡
        Some (record { past = trail.new; progress = seat.new })) }
    ensures none { IfOk result (λ went. IsFalse went →
        after_turn trail.old phase p seat.old program.now ≡ None) }
    ensures stays { IfOk result (λ went. IsFalse went → trail.new ≡ trail.old) }
    ensures seat_stays { IfOk result (λ went. IsFalse went → seat.new ≡ seat.old) }
{
    if trail.waits(p) {
        return make(alloc, trail, &mut seat.text, p, Call::Collect, &[]);
    }
    if seat.begun >= program.len() {
        return Ok(false);
    }
    let next = &program[seat.begun];
    if next.phase != phase {
        return Ok(false);
    }
    let went = begin(alloc, trail, &mut seat.text, p, next)?;
    if went {
        seat.begun += 1;
    }
    Ok(went)
}

/// Whether process p can take a step.
pub fn can_turn(trail: &Trail, seat: &Seat, phase: u64, p: u32, program: &Vec<Planned>) -> bool
    ensures { result ≡ is_some (after_turn trail.now phase p seat.now program.now) }
{
    if trail.waits(p) {
        return trail.can_make(p, Call::Collect, &[]);
    }
    if seat.begun >= program.len() {
        return false;
    }
    let next = &program[seat.begun];
    next.phase == phase && can_begin(trail, &seat.text, p, next)
}
