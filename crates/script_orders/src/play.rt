//! The processes of a script as a machine. A choice is the process that takes the next step, and
//! the last choice begins the next phase.
ghost use Rattle.mq_model.specs.Legality.{Legal};
ghost use Rattle.script_orders.specs.Likeness.{receives, receives_from, step_receives, will_receive};
ghost use Rattle.script_orders.specs.Orders.{AreLegal};
ghost use Rattle.script_orders.specs.Stage.{first_stage, fresh, is_phase_over, next_stage, none_can_turn, one_waits, replies, seats_cleared, turn_of, wait_line_of, wait_of, waiting_lines, with_turn};
ghost use Rattle.script_orders.specs.Persistence.{IsNextOn, MayCollect, UsesAlone, others_will_use, will_use};
ghost use Rattle.std.specs.Option.{option_map};
ghost use Rattle.std.specs.Prelude.{◌≡◌, ◌≤◌, ◌<◌, ◌+◌, ◌++◌, IfOk, IfSome, OnOk, IsTrue, IsFalse, Some, None, is_some, length, replicate};

use crate::alone::{lines_may_use, starts_on};
use crate::keys::push_seats;
use crate::plan::{Planned, Step};
use crate::turn::{Seat, can_turn, turn};
use crate::waiting::wait_text;
use mq_equivalence::keys::{key_if, trail_after};
use mq_model::journals::Journal;
use mq_state::trail::Trail;
use schedules::keyed::Keyed;
use schedules::machine::Machine;
use schedules::outcomes::{EquivalentOutcomes, Observable, Outcome};
use schedules::persistent::PersistentChoices;
use std::alloc::{AllocError, Global};
use std::marker::Model;

/// The processes of a script with their lines, how many each has begun, and the journal so far.
/// Each process makes its calls of a phase in order. The next phase begins when no process can take
/// a step and none waits.
#[derive(Drop)]
pub struct Play {
    alloc: Global,
    programs: Vec<Vec<Planned>>,
    phases: u64,
    // The bytes of the script.
    script: Vec<u8>,
    // The journal before the script.
    start: Journal,
    phase: u64,
    trail: Trail,
    seats: Vec<Seat>,
}

/// A saved state: the phase, the journal so far, and the states of the processes.
#[derive(Drop)]
pub struct SavedPlay {
    phase: u64,
    trail: Trail,
    seats: Vec<Seat>,
}

impl Model for Play {
    ghost use Rattle.script_orders.specs.Stage.{Stage};

    ghost Value = { Stage };

    ghost use Rattle.script_orders.specs.PlayModel.{shown, AreSeated};

    ghost view = { shown };

    ghost invariant = { AreSeated };
}

// The states of processes that have begun nothing.
fn fresh_seats(alloc: Global, count: usize) -> Result<Vec<Seat>, AllocError>
    ensures { IfOk result (λ seats. seats.items ≡ replicate count fresh) }
{
    let mut seats = Vec::new(alloc);
    for _ in 0..count {
        seats.push(Seat::new(alloc, 0))?;
    }
    Ok(seats)
}

// The states of the processes at the beginning of the next phase.
fn cleared_seats(alloc: Global, seats: &[Seat]) -> Result<Vec<Seat>, AllocError>
    ensures { IfOk result (λ cleared. cleared.items ≡ seats_cleared seats.now) }
{
    let mut cleared = Vec::new(alloc);
    for seat in seats {
        cleared.push(Seat::new(alloc, seat.begun()))?;
    }
    Ok(cleared)
}

// A copy of the states of the processes.
fn copy_seats(alloc: Global, seats: &[Seat]) -> Result<Vec<Seat>, AllocError>
    ensures { IfOk result (λ copies. copies.items ≡ seats.now) }
{
    let mut copies = Vec::new(alloc);
    for seat in seats {
        copies.push(seat.copy(alloc)?)?;
    }
    Ok(copies)
}

// The text of the replies of all processes in a phase.
fn replies(alloc: Global, seats: &[Seat]) -> Result<Vec<u8>, AllocError>
    ensures { IfOk result (λ text. text.items ≡ replies seats.now) }
{
    let mut text = Vec::new(alloc);
    for seat in seats {
        text.extend_from_slice(seat.text())?;
    }
    Ok(text)
}

impl Play {
    /// The processes 1, 2, .. of a script with these bytes, with their lines, none of which is
    /// begun, after the calls of a journal.
    pub fn new(
        alloc: Global,
        programs: Vec<Vec<Planned>>,
        phases: u64,
        script: Vec<u8>,
        start: Journal,
    ) -> Result<Play, AllocError>
        requires few { length programs.items ≤ 32 }
        requires legal { Legal start.records }
        ensures { IfOk result (λ play. play ≡ record {
          programs = programs.items;
          phases = phases;
          script = script.items;
          start = start.records;
          phase = 0;
          past = start.records;
          seats = replicate (length programs.items) fresh;
        }) }
    {
        let seats = fresh_seats(alloc, programs.len())?;
        let trail = trail_after(alloc, &start)?;
        Ok(Play {
            alloc,
            programs,
            phases,
            script,
            start,
            phase: 0,
            trail,
            seats,
        })
    }

    /// The journal so far.
    pub fn journal(&self) -> &Journal
        ensures { result.now.records ≡ self.now.past }
    {
        self.trail.journal()
    }

    /// The journal after each schedule is legal. The function does nothing: its contract is the
    /// law.
    pub fn stays_legal(&self)
        ensures { AreLegal (first_stage self.now) }
    {
        let _processes = self.programs.len();
    }

    // Whether the process at an index can take a step.
    fn can_turn(&self, index: usize) -> bool
        requires { index < length self.now.programs }
        ensures { result ≡ is_some (turn_of self.now index) }
    {
        can_turn(
            &self.trail,
            &self.seats[index],
            self.phase,
            index as u32 + 1,
            &self.programs[index],
        )
    }

    // Takes a step of the process at an index, if it can take one.
    fn turn(&mut self, index: usize) -> Result<bool, AllocError>
        requires { index < length self.old.programs }
        ensures went { IfOk result (λ went. IsTrue went →
            option_map (with_turn self.old index) (turn_of self.old index) ≡ Some self.new) }
        ensures none { IfOk result (λ went. IsFalse went → turn_of self.old index ≡ None) }
        ensures stays { IfOk result (λ went. IsFalse went → self.new ≡ self.old) }
    {
        let Play {
            alloc,
            programs,
            phases: _,
            script: _,
            start: _,
            phase,
            trail,
            seats,
        } = self;
        turn(
            *alloc,
            trail,
            &mut seats[index],
            *phase,
            index as u32 + 1,
            &programs[index],
        )
    }

    // Whether no process can take a step.
    fn none_can_turn(&self) -> bool
        ensures { result ≡ none_can_turn self.now (length self.now.programs) }
    {
        for index in 0..self.programs.len() {
            if self.can_turn(index) {
                return false;
            }
        }
        true
    }

    // Whether some process waits.
    fn one_waits(&self) -> bool
        ensures { result ≡ one_waits self.now.past (length self.now.programs) }
    {
        let mut one_waits = false;
        for index in 0..self.programs.len() {
            if self.trail.waits(index as u32 + 1) {
                one_waits = true;
            }
        }
        one_waits
    }

    // Whether this phase is over and there is a next one.
    fn is_phase_over(&self) -> bool
        ensures { result ≡ is_phase_over self.now }
    {
        self.phase < self.phases
            && self.phases - self.phase >= 2
            && self.none_can_turn()
            && !self.one_waits()
    }

    // Begins the next phase, if this one is over and there is one.
    fn next_phase(&mut self) -> Result<bool, AllocError>
        ensures went { IfOk result (λ went. IsTrue went →
            next_stage self.old (length self.old.programs) ≡ Some self.new) }
        ensures none { IfOk result (λ went. IsFalse went →
            next_stage self.old (length self.old.programs) ≡ None) }
        ensures stays { IfOk result (λ went. IsFalse went → self.new ≡ self.old) }
    {
        if !self.is_phase_over() {
            return Ok(false);
        }
        self.seats = cleared_seats(self.alloc, &self.seats)?;
        self.phase += 1;
        Ok(true)
    }

    // The line in which the process at an index waits.
    fn wait_line(&self, index: usize) -> u64
        requires { index < length self.now.programs }
        ensures { result ≡ wait_line_of self.now index }
    {
        let begun = self.seats[index].begun();
        let program = &self.programs[index];
        if begun == 0 || begun > program.len() {
            return 0;
        }
        program[begun - 1].line
    }

    // Appends the text about the process at an index, if it waits.
    fn push_wait(&self, alloc: Global, text: &mut Vec<u8>, index: usize) -> Result<(), AllocError>
        requires { index < length self.now.programs }
        ensures { OnOk result (text.new.items ≡ text.old.items ++ wait_of self.now index) }
    {
        if self.trail.waits(index as u32 + 1) {
            let waits = wait_text(alloc, &self.script, self.wait_line(index))?;
            text.extend_from_slice(&waits)?;
        }
        Ok(())
    }

    // The text about the calls that wait.
    fn waiting_lines(&self, alloc: Global) -> Result<Vec<u8>, AllocError>
        ensures { IfOk result (λ text.
            text.items ≡ waiting_lines self.now (length self.now.programs)) }
    {
        let mut text = Vec::new(alloc);
        for index in 0..self.programs.len() {
            self.push_wait(alloc, &mut text, index)?;
        }
        Ok(text)
    }
}

// Whether a step receives a message.
fn step_receives(step: Step) -> bool
    ensures { result ≡ step_receives step }
{
    match step {
        Step::Call(call) => call.is_receive(),
        Step::Refusal(_) | Step::Exit => false,
    }
}

// Whether a line from this one on receives a message.
fn receives_from(program: &[Planned], begun: usize) -> bool
    ensures { result ≡ receives_from program.now begun }
{
    for i in begun..program.len() {
        if step_receives(program[i].step) {
            return true;
        }
    }
    false
}

// With fewer steps left, trying all their interleavings takes less time than a key.
const WORTH_A_KEY: usize = 4;

// A key has each byte of the replies of its phase. With more of them, it takes too much memory
// where a process goes on alone.
const MOST_TEXT: usize = 4096;

impl Play {
    // How many lines the processes have not begun, and how many waits have not ended.
    fn steps_left(&self) -> usize {
        let mut left: usize = 0;
        for index in 0..self.programs.len() {
            let lines = self.programs[index].len();
            let ends = usize::from(self.trail.waits(index as u32 + 1));
            left = left
                .saturating_add(lines.saturating_sub(self.seats[index].begun()))
                .saturating_add(ends);
        }
        left
    }

    // How many bytes the replies of this phase have.
    fn text_len(&self) -> usize {
        let mut len: usize = 0;
        for seat in &self.seats {
            len = len.saturating_add(seat.text().len());
        }
        len
    }

    // Whether the process that made the last call takes a persistent step next. Most often the step
    // before was persistent too, and no other schedule leads to this state.
    fn goes_on_alone(&self) -> bool {
        match self.persistent() {
            Some(index) => last_caller(self.trail.journal()) == index.checked_add(1),
            None => false,
        }
    }

    // Whether a key takes more time or memory than it can save.
    fn is_not_worth_a_key(&self) -> bool {
        self.steps_left() < WORTH_A_KEY || (self.text_len() > MOST_TEXT && self.goes_on_alone())
    }
}

// The process that made the last call of a journal.
fn last_caller(journal: &Journal) -> Option<u32> {
    let len = journal.len();
    if len == 0 {
        return None;
    }
    let (entry, _payload) = journal.record(len - 1);
    Some(entry.process)
}

impl Play {
    // Whether the process at an index will make a receive that it has not begun.
    fn will_receive(&self, index: usize) -> bool
        requires { index < length self.now.programs }
        ensures { result ≡ will_receive self.now index }
    {
        receives_from(&self.programs[index], self.seats[index].begun())
    }

    // Whether a receive is to come.
    fn receives(&self) -> bool
        ensures { result ≡ receives self.now }
    {
        let mut receives = false;
        for index in 0..self.programs.len() {
            if self.will_receive(index) {
                receives = true;
            }
        }
        receives
    }
}

impl Machine for Play {
    ghost use Rattle.script_orders.specs.Stage.{choice_count, first_stage, next_stage, stands_still};
    ghost use Rattle.script_orders.specs.Saves.{IsSaved};
    ghost use Rattle.script_orders.specs.StageLaws.{next-first, next-others};
    ghost use Rattle.std.specs.Prelude.{refl};

    type Saved = SavedPlay;

    ghost start = { first_stage };

    ghost next = { next_stage };

    ghost choices = { choice_count };

    ghost is_goal = { stands_still };

    ghost IsSaved = { IsSaved };

    fn restart(&mut self) -> Result<(), AllocError> {
        let seats = fresh_seats(self.alloc, self.programs.len())?;
        self.trail = trail_after(self.alloc, &self.start)?;
        self.seats = seats;
        self.phase = 0;
        Ok(())
    }

    fn save(&self) -> Result<SavedPlay, AllocError> {
        let seats = copy_seats(self.alloc, &self.seats)?;
        let trail = self.trail.copy(self.alloc)?;
        Ok(SavedPlay {
            phase: self.phase,
            trail,
            seats,
        })
    }

    fn restore(&mut self, saved: &SavedPlay) -> Result<(), AllocError> {
        let seats = copy_seats(self.alloc, &saved.seats)?;
        self.trail = saved.trail.copy(self.alloc)?;
        self.seats = seats;
        self.phase = saved.phase;
        Ok(())
    }

    fn choices(&self) -> u32 {
        self.programs.len() as u32 + 1
    }

    fn step(&mut self, choice: u32) -> Result<bool, AllocError> {
        let index = choice as usize;
        if index < self.programs.len() {
            self.turn(index)
        } else if index == self.programs.len() {
            self.next_phase()
        } else {
            Ok(false)
        }
    }

    fn is_goal(&self) -> bool {
        self.none_can_turn()
    }

    ghost same_start = { next-first };

    ghost start_is_first = { λ x. refl };

    ghost no_others = { next-others };
}

impl Observable for Play {
    ghost use Rattle.script_orders.specs.Stage.{observed};

    ghost outcome = { observed };

    fn outcome(&self, alloc: Global) -> Result<Outcome, AllocError> {
        let stuck = self.one_waits();
        let text = if stuck {
            self.waiting_lines(alloc)?
        } else {
            replies(alloc, &self.seats)?
        };
        Ok(Outcome {
            stage: self.phase,
            stuck,
            text,
        })
    }

    fn can_step(&self, choice: u32) -> bool {
        let index = choice as usize;
        if index < self.programs.len() {
            self.can_turn(index)
        } else {
            index == self.programs.len() && self.is_phase_over()
        }
    }
}

impl Keyed for Play {
    ghost use Rattle.script_orders.specs.Likeness.{AreStagesAlike, IsStageKey};

    ghost IsAlike = { AreStagesAlike };

    ghost IsKey = { IsStageKey };

    fn key(&self, alloc: Global) -> Result<Option<Vec<u64>>, AllocError> {
        if self.is_not_worth_a_key() {
            return Ok(None);
        }
        let mut key = Vec::new(alloc);
        key.push(self.phase)?;
        key.push(self.seats.len() as u64)?;
        push_seats(&mut key, &self.seats)?;
        let past = key_if(alloc, &self.trail, self.receives())?;
        key.extend_from_slice(&past)?;
        Ok(Some(key))
    }

    fn keeps_alike(&self) {
        let _processes = self.programs.len();
    }
}

impl Play {
    // A process that waits and can take a step: it collects.
    fn collecting(&self) -> Option<u32>
        ensures { IfSome result (MayCollect self.now) }
    {
        for index in 0..self.programs.len() {
            if self.trail.waits(index as u32 + 1) && self.can_turn(index) {
                return Some(index as u32);
            }
        }
        None
    }

    // The queue on which the process at an index sends or receives next, if it can.
    fn next_on(&self, index: usize) -> Option<u64>
        requires { index < length self.now.programs }
        ensures { IfSome result (IsNextOn self.now index) }
    {
        starts_on(
            &self.trail,
            &self.seats[index],
            self.phase,
            index as u32 + 1,
            &self.programs[index],
        )
    }

    // Whether the process at an index may still use queue q in this phase.
    fn will_use(&self, q: u64, index: usize) -> bool
        requires { index < length self.now.programs }
        ensures { result ≡ will_use self.now q index }
    {
        lines_may_use(
            &self.trail,
            self.phase,
            index as u32 + 1,
            q,
            &self.programs[index],
            self.seats[index].begun(),
        )
    }

    // Whether a process other than the one at an index may.
    fn others_will_use(&self, q: u64, index: usize) -> bool
        ensures { result ≡ others_will_use self.now q index (length self.now.programs) }
    {
        let mut used = false;
        for other in 0..self.programs.len() {
            if !used && other != index && self.will_use(q, other) {
                used = true;
            }
        }
        used
    }

    // A process that can send or receive next on a queue that no other will use in this phase.
    fn alone(&self) -> Option<u32>
        ensures { IfSome result (UsesAlone self.now) }
    {
        for index in 0..self.programs.len() {
            match self.next_on(index) {
                Some(queue) if !self.others_will_use(queue, index) => return Some(index as u32),
                _ => {}
            }
        }
        None
    }
}

// A collect is persistent: it commutes with each step of another process. So is a send or a receive
// on a queue that no other process will use in the phase.
impl PersistentChoices for Play {
    ghost use Rattle.script_orders.specs.Persistence.{IsPersistent};

    ghost IsPersistent = { IsPersistent };

    fn persistent(&self) -> Option<u32> {
        match self.collecting() {
            Some(index) => Some(index),
            None => self.alone(),
        }
    }

    fn choices_commute(&self) {
        let _processes = self.programs.len();
    }
}

impl EquivalentOutcomes for Play {
    fn have_equal_outcomes(&self) {
        let _processes = self.programs.len();
    }
}
