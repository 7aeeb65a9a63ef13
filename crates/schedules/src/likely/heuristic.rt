//! A heuristic for the order of a history's calls: a search over the contents of its queues.
//!
//! The order is a hint for the check of the history, whose result does not depend on it. Nothing is
//! proved about it here, except that the search ends and is safe.
use super::contents::{Change, Queues, mixed};
use super::tightening::tightened;
use super::windows::{Guess, Windows};
use super::{Effect, Task, Tasks};
use std::alloc::{AllocError, Global};
use std::collections::HashSet;

// The maximum number of constraints that are learned.
const MOST_CONSTRAINTS: usize = 100;

// How far the search for what holds up a call goes: that call, what holds it up, and so on.
const DEPTH: usize = 5;

// How many calls of a process, from its next one on, are searched for those that must come first.
const AHEAD: usize = 32;

/// The state of the search: the calls of a history, of which some have taken effect.
#[derive(Drop)]
pub struct Heuristic {
    tasks: Vec<Vec<Task>>,
    windows: Windows,
    // how many calls of each process have taken effect
    made: Vec<usize>,
    // how many messages of each kind were sent
    sent: Vec<usize>,
    queues: Queues,
    constraints: Vec<LearnedConstraint>,
}

// A message: its kind, and how many of that kind were sent before it.
type Numbered = (usize, usize);

// What takes effect: the send of a message; or a call of a process, with how many of its calls come
// before it.
#[derive(Clone, Copy, PartialEq, Eq)]
enum Event {
    Send(Numbered),
    Call(usize, usize),
}

// What was learned at a dead end: `first` must take effect before the message `other` is sent.
#[derive(Clone, Copy, PartialEq, Eq)]
struct LearnedConstraint {
    first: Event,
    other: Numbered,
}

// The result of a search: an order, or what can be learned from its longest dead end.
#[derive(Drop)]
enum Trial {
    Found(Vec<usize>),
    Stuck(Option<LearnedConstraint>),
}

// When to try a call, among those that can come next.
#[derive(Clone, Copy)]
enum Turn {
    // At once: this excludes no order.
    First,
    // Before those with a later guess.
    By(Guess),
    // Not now: another call must come before it, or can as well.
    Later,
}

// A process that can take a step, with the guess at its time.
type Choice = (Guess, usize);

// A call that took effect, the choices instead of it, and how many of these were tried.
#[derive(Drop)]
struct Move {
    process: usize,
    change: Change,
    choices: Vec<Choice>,
    tried: usize,
}

impl Heuristic {
    /// The heuristic for these tasks, before its first choice. Fails if memory was refused.
    pub fn new(alloc: Global, tasks: Tasks) -> Result<Heuristic, AllocError> {
        let Tasks {
            tasks,
            queues,
            kinds,
        } = tasks;
        let tasks = tightened(alloc, tasks, kinds)?;
        let windows = Windows::of(alloc, &tasks, kinds)?;
        let made = vec![in alloc; 0usize; tasks.len()]?;
        let sent = vec![in alloc; 0usize; kinds]?;
        let queues = Queues::new(alloc, queues)?;
        Ok(Heuristic {
            tasks,
            windows,
            made,
            sent,
            queues,
            constraints: Vec::new(alloc),
        })
    }

    /// The processes in an order in which their calls can take effect, if one is found. It makes
    /// short searches, each with the constraints that the earlier ones taught, and then one of
    /// `steps` steps.
    pub fn order(&mut self, alloc: Global, steps: u64) -> Result<Option<Vec<usize>>, AllocError> {
        let short = self.call_count().saturating_mul(2).saturating_add(2000);
        for _ in 0..MOST_CONSTRAINTS {
            match self.search(alloc, short.min(steps))? {
                Trial::Found(order) => return Ok(Some(order)),
                Trial::Stuck(Some(constraint)) => self.constraints.push(constraint)?,
                Trial::Stuck(None) => break,
            }
        }
        self.constraints.clear();
        match self.search(alloc, steps)? {
            Trial::Found(order) => Ok(Some(order)),
            Trial::Stuck(_) => Ok(None),
        }
    }

    fn call_count(&self) -> u64 {
        let mut count: u64 = 0;
        for tasks in &self.tasks {
            count = count.saturating_add(tasks.len() as u64);
        }
        count
    }

    // Returns to the state in which no call has taken effect.
    fn restart(&mut self, alloc: Global) -> Result<(), AllocError> {
        let made = vec![in alloc; 0usize; self.made.len()]?;
        let sent = vec![in alloc; 0usize; self.sent.len()]?;
        let queues = Queues::new(alloc, self.queues.count())?;
        self.made = made;
        self.sent = sent;
        self.queues = queues;
        Ok(())
    }

    // A search from the start, of at most `steps` steps.
    fn search(&mut self, alloc: Global, steps: u64) -> Result<Trial, AllocError> {
        self.restart(alloc)?;
        let mut longest = 0;
        let mut constraint = None;
        let mut dead: HashSet<u64> = HashSet::new(alloc);
        let mut path: Vec<Move> = Vec::new(alloc);
        let mut choices = self.choices(alloc)?;
        let mut tried = 0;
        for _ in 0..steps {
            if self.is_through() {
                return Ok(Trial::Found(processes_of(alloc, &path)?));
            }
            match choices.get(tried) {
                Some((_, process)) => {
                    let process = *process;
                    tried = tried.saturating_add(1);
                    let change = self.go_on(process)?;
                    if dead.contains(&self.digest()) {
                        self.go_back(process, change)?;
                    } else {
                        path.push(Move {
                            process,
                            change,
                            choices,
                            tried,
                        })?;
                        choices = self.choices(alloc)?;
                        tried = 0;
                    }
                }
                None => {
                    if path.len() > longest {
                        longest = path.len();
                        if let Some(learned) = self.constraint(alloc)? {
                            constraint = Some(learned);
                        }
                    }
                    let _added = dead.insert(self.digest())?;
                    let Some(last) = path.pop() else {
                        return Ok(Trial::Stuck(constraint));
                    };
                    let Move {
                        process,
                        change,
                        choices: others,
                        tried: count,
                    } = last;
                    self.go_back(process, change)?;
                    choices = others;
                    tried = count;
                }
            }
        }
        Ok(Trial::Stuck(constraint))
    }

    fn next(&self, process: usize) -> Option<&Task> {
        self.tasks.get(process)?.get(*self.made.get(process)?)
    }

    // The tasks of a process from the next one on, as far as they are searched.
    fn ahead(&self, process: usize) -> &[Task] {
        let Some(tasks) = self.tasks.get(process) else {
            return &[];
        };
        let Some(made) = self.made.get(process) else {
            return &[];
        };
        let rest = tasks.as_slice().get(*made..).unwrap_or(&[]);
        rest.get(..AHEAD).unwrap_or(rest)
    }

    // Whether the calls of each process have taken effect, except a last one that had not returned.
    fn is_through(&self) -> bool {
        (0..self.made.len()).all(|process| match self.next(process) {
            Some(task) => task.end == u64::MAX,
            None => true,
        })
    }

    // The earliest end of a call that has not taken effect. Calls that begin later take effect
    // after it.
    fn limit(&self) -> u64 {
        let mut limit = u64::MAX;
        for process in 0..self.made.len() {
            if let Some(task) = self.next(process) {
                limit = limit.min(task.end);
            }
        }
        limit
    }

    // The processes whose calls can take effect next, the best one first.
    fn choices(&self, alloc: Global) -> Result<Vec<Choice>, AllocError> {
        let limit = self.limit();
        let mut choices = Vec::new(alloc);
        for process in 0..self.made.len() {
            match self.turn(process, limit) {
                Turn::First => {
                    choices.clear();
                    choices.push(((0, 0), process))?;
                    return Ok(choices);
                }
                Turn::By(guess) => choices.push((guess, process))?,
                Turn::Later => {}
            }
        }
        choices.sort()?;
        Ok(choices)
    }

    // When the next call of a process is to be tried.
    fn turn(&self, process: usize, limit: u64) -> Turn {
        let Some(task) = self.next(process) else {
            return Turn::Later;
        };
        if task.begin > limit || !self.queues.allow(task) {
            return Turn::Later;
        }
        if !self.queues.is_change(task) {
            return Turn::First;
        }
        match task.effect {
            Effect::Sends => self.turn_of_send(process, task, limit),
            Effect::Receives => self.turn_of_receive(process, task, limit),
            _ => Turn::By((task.end, 0)),
        }
    }

    // A send is tried at the guess at the time of its message.
    fn turn_of_send(&self, process: usize, task: &Task, limit: u64) -> Turn {
        if self.has_better(process, task, limit) || self.must_wait(task) {
            return Turn::Later;
        }
        Turn::By(self.windows.guess_of(task.kind, self.sent_of(task)))
    }

    // A receive is tried at once if no other call can need its message.
    fn turn_of_receive(&self, process: usize, task: &Task, limit: u64) -> Turn {
        if self.has_better(process, task, limit) {
            return Turn::Later;
        }
        if self.is_missed(task) {
            Turn::By((task.end, 0))
        } else {
            Turn::First
        }
    }

    // Whether another call that can take effect does the same and ends earlier.
    fn has_better(&self, process: usize, task: &Task, limit: u64) -> bool {
        (0..self.made.len()).any(|other| match self.next(other) {
            Some(one) => {
                one.effect == task.effect
                    && one.kind == task.kind
                    && one.begin <= limit
                    && (one.end, other) < (task.end, process)
            }
            None => false,
        })
    }

    // Whether some call on the queue that begins before the send ends must come before the send.
    fn must_wait(&self, task: &Task) -> bool {
        let received = self.received_from(task);
        self.is_too_early(task)
            || (0..self.made.len()).any(|process| self.goes_first(process, task, received))
    }

    // Whether a call of the process must come before a send whose message is not received before
    // the time `received`.
    fn goes_first(&self, process: usize, task: &Task, received: u64) -> bool {
        self.ahead(process).iter().any(|one| {
            one.begin <= task.end
                && one.queue == task.queue
                && self.comes_first(one, task, received)
        })
    }

    // Whether something that must take effect before this send, by a learned constraint, has not.
    fn is_too_early(&self, task: &Task) -> bool {
        let number = (task.kind, self.sent_of(task));
        self.constraints.iter().any(|constraint| constraint.other == number
            && self.is_to_come(constraint.first))
    }

    // Whether this has not taken effect.
    fn is_to_come(&self, event: Event) -> bool {
        let (count, before) = match event {
            Event::Send((kind, before)) => (self.sent.get(kind), before),
            Event::Call(process, before) => (self.made.get(process), before),
        };
        match count {
            Some(count) => *count <= before,
            None => false,
        }
    }

    // Whether a call must come before a send whose message is not received before the time
    // `received`.
    fn comes_first(&self, one: &Task, task: &Task, received: u64) -> bool {
        match one.effect {
            // It would not find the queue empty.
            Effect::FindsEmpty => one.end < received,
            // It would receive this message, which has a higher priority, instead of its own.
            Effect::Receives => one.end < received && one.prio < task.prio,
            // Messages of one priority are received in the order of their sends.
            Effect::Sends => {
                one.prio == task.prio
                    && one.kind != task.kind
                    && match self.received_by(one) {
                        Some(end) => end < received,
                        None => false,
                    }
            }
            _ => false,
        }
    }

    // Whether some call that begins before the receive ends may need the message to be there.
    fn is_missed(&self, task: &Task) -> bool {
        (0..self.made.len()).any(|process| {
            self.ahead(process).iter().any(|one| {
                one.begin <= task.end
                    && one.queue == task.queue
                    && match one.effect {
                        Effect::FindsFull | Effect::Counts(_) => true,
                        Effect::Receives => one.kind == task.kind && one.end < task.end,
                        _ => false,
                    }
            })
        })
    }

    // The earliest time at which the next message of a kind is received.
    fn received_from(&self, task: &Task) -> u64 {
        self.windows.begin(task.kind, self.sent_of(task))
    }

    // The latest time at which the next message of a kind is received, if it is.
    fn received_by(&self, task: &Task) -> Option<u64> {
        self.windows.end(task.kind, self.sent_of(task))
    }

    fn sent_of(&self, task: &Task) -> usize {
        self.sent.get(task.kind).copied().unwrap_or(0)
    }

    // What can be learned from the call that has to end next and cannot come next, or else from
    // those that hold it up.
    fn constraint(&self, alloc: Global) -> Result<Option<LearnedConstraint>, AllocError> {
        let limit = self.limit();
        let mut held = Vec::new(alloc);
        for process in 0..self.made.len() {
            if let Some(task) = self.next(process)
                && task.end == limit
                && held.is_empty()
            {
                held.push(process)?;
            }
        }
        for _ in 0..DEPTH {
            let best = self.best_constraint(alloc, &held, limit)?;
            if best.is_some() {
                return Ok(best);
            }
            held = self.holding_up(alloc, &held)?;
        }
        Ok(None)
    }

    // What can be learned from the next calls of these processes: from the one that ends first, of
    // those that teach something.
    fn best_constraint(
        &self,
        alloc: Global,
        processes: &[usize],
        limit: u64,
    ) -> Result<Option<LearnedConstraint>, AllocError> {
        let mut best = None;
        let mut least = u64::MAX;
        for process in processes {
            if let Some(task) = self.next(*process)
                && task.end < least
                && let Some(constraint) = self.constraint_of(alloc, *process, task, limit)?
            {
                least = task.end;
                best = Some(constraint);
            }
        }
        Ok(best)
    }

    // The processes that hold up the next calls of these.
    fn holding_up(&self, alloc: Global, processes: &[usize]) -> Result<Vec<usize>, AllocError> {
        let mut others = Vec::new(alloc);
        for process in processes {
            if let Some(task) = self.next(*process) {
                for other in 0..self.made.len() {
                    if other != *process && !others.contains(&other) && self.holds_up(other, task) {
                        others.push(other)?;
                    }
                }
            }
        }
        Ok(others)
    }

    // Whether a process has a call to come before which this one cannot take effect.
    fn holds_up(&self, process: usize, task: &Task) -> bool {
        match task.effect {
            Effect::Receives => self.will_send(process, task.kind),
            Effect::Sends => {
                self.goes_first(process, task, self.received_from(task))
                    || self.must_go_first(process, task)
            }
            _ => false,
        }
    }

    fn will_send(&self, process: usize, kind: usize) -> bool {
        self.ahead(process)
            .iter()
            .any(|one| one.effect == Effect::Sends && one.kind == kind)
    }

    // Whether a call of the process must come before this send by a learned constraint.
    fn must_go_first(&self, process: usize, task: &Task) -> bool {
        let number = (task.kind, self.sent_of(task));
        self.constraints.iter().any(|constraint| {
            constraint.other == number
                && self.is_to_come(constraint.first)
                && match constraint.first {
                    Event::Send((kind, _)) => self.will_send(process, kind),
                    Event::Call(one, _) => one == process,
                }
        })
    }

    // What can be learned from a call that cannot come next.
    fn constraint_of(
        &self,
        alloc: Global,
        process: usize,
        task: &Task,
        limit: u64,
    ) -> Result<Option<LearnedConstraint>, AllocError> {
        let messages = self.numbered(alloc, task.queue)?;
        Ok(match task.effect {
            Effect::Receives => match self.in_front(&messages, task.kind) {
                Some(constraint) => Some(constraint),
                None => self.before_sends(&messages, process, Some(task.kind)),
            },
            Effect::FindsEmpty => self.before_sends(&messages, process, None),
            Effect::Sends if !self.queues.allow(task) => self.room_for(&messages, task, limit),
            _ => None,
        })
    }

    // What can be learned from a send that finds no room.
    fn room_for(
        &self,
        messages: &[(u32, Numbered)],
        task: &Task,
        limit: u64,
    ) -> Option<LearnedConstraint> {
        if let Some(constraint) = self.room_in_front(messages, task.queue, limit) {
            return Some(constraint);
        }
        if let Some(constraint) = self.room_behind(messages, task, limit) {
            return Some(constraint);
        }
        self.room_before(messages, task.queue, limit)
    }

    // A call that does not find the messages in front of this kind, or any message, must take
    // effect before one of them is sent: the one that is received last.
    fn before_sends(
        &self,
        messages: &[(u32, Numbered)],
        process: usize,
        kind: Option<usize>,
    ) -> Option<LearnedConstraint> {
        let made = self.made.get(process).copied()?;
        let count = match kind {
            Some(kind) => messages.iter().position(|message| (message.1).0 == kind)?,
            None => messages.len(),
        };
        let mut best = None;
        let mut latest = 0;
        for (_, number) in messages.get(..count)? {
            let begin = self.windows.begin(number.0, number.1);
            if begin >= latest
                && let Some(constraint) = self.if_new(LearnedConstraint {
                    first: Event::Call(process, made),
                    other: *number,
                })
            {
                latest = begin;
                best = Some(constraint);
            }
        }
        best
    }

    // A receive must take effect before a message in front of its own is sent, to leave room.
    fn room_before(
        &self,
        messages: &[(u32, Numbered)],
        queue: usize,
        limit: u64,
    ) -> Option<LearnedConstraint> {
        let mut best = None;
        let mut least = u64::MAX;
        for process in 0..self.made.len() {
            if let Some(task) = self.next(process)
                && task.effect == Effect::Receives
                && task.queue == queue
                && task.begin <= limit
                && task.end < least
                && let Some(constraint) = self.before_sends(messages, process, Some(task.kind))
            {
                least = task.end;
                best = Some(constraint);
            }
        }
        best
    }

    // The messages of a queue with their priorities, in the order in which they are received.
    fn numbered(&self, alloc: Global, queue: usize) -> Result<Vec<(u32, Numbered)>, AllocError> {
        let mut numbers = self.sent.as_slice().to_vec(alloc)?;
        let messages = self.queues.messages(queue);
        for (_, kind) in messages {
            if *kind < numbers.len() {
                numbers[*kind] = numbers[*kind].saturating_sub(1);
            }
        }
        let mut numbered = Vec::new(alloc);
        for (prio, kind) in messages {
            if *kind < numbers.len() {
                numbered.push((*prio, (*kind, numbers[*kind])))?;
                numbers[*kind] = numbers[*kind].saturating_add(1);
            }
        }
        Ok(numbered)
    }

    // The first message of a kind must be sent before the message in front, which has the same
    // priority.
    fn in_front(&self, messages: &[(u32, Numbered)], kind: usize) -> Option<LearnedConstraint> {
        let (head_prio, head) = messages.first()?;
        let (prio, first) = messages.iter().find(|message| (message.1).0 == kind)?;
        if prio != head_prio {
            return None;
        }
        self.if_new(LearnedConstraint {
            first: Event::Send(*first),
            other: *head,
        })
    }

    // A message that can be received next must be sent before the message in front, to leave room.
    fn room_in_front(
        &self,
        messages: &[(u32, Numbered)],
        queue: usize,
        limit: u64,
    ) -> Option<LearnedConstraint> {
        let mut best = None;
        let mut least = u64::MAX;
        for process in 0..self.made.len() {
            if let Some(task) = self.next(process)
                && task.effect == Effect::Receives
                && task.queue == queue
                && task.begin <= limit
                && task.end < least
                && let Some(constraint) = self.in_front(messages, task.kind)
            {
                least = task.end;
                best = Some(constraint);
            }
        }
        best
    }

    // A message must be sent before one whose send may come after it, to leave room.
    fn room_behind(
        &self,
        messages: &[(u32, Numbered)],
        task: &Task,
        limit: u64,
    ) -> Option<LearnedConstraint> {
        let mut best = None;
        let mut most = limit;
        for (_, number) in messages {
            let end = self.windows.sent_by(number.0, number.1);
            if end > most
                && number.0 != task.kind
                && let Some(constraint) = self.if_new(LearnedConstraint {
                    first: Event::Send((task.kind, self.sent_of(task))),
                    other: *number,
                })
            {
                most = end;
                best = Some(constraint);
            }
        }
        best
    }

    // The constraint, unless it was learned already, or one that contradicts it.
    fn if_new(&self, constraint: LearnedConstraint) -> Option<LearnedConstraint> {
        let is_old = constraint.first == Event::Send(constraint.other)
            || self
                .constraints
                .iter()
                .any(|one| *one == constraint || contradict(one, &constraint));
        if is_old { None } else { Some(constraint) }
    }

    // The next call of a process takes effect.
    fn go_on(&mut self, process: usize) -> Result<Change, AllocError> {
        let Some(task) = self.next(process).copied() else {
            return Ok(Change::Nothing);
        };
        let change = self.queues.change(&task)?;
        if task.effect == Effect::Sends && task.kind < self.sent.len() {
            self.sent[task.kind] = self.sent[task.kind].saturating_add(1);
        }
        if process < self.made.len() {
            self.made[process] = self.made[process].saturating_add(1);
        }
        Ok(change)
    }

    // Undoes the last call of a process, which was the last of all.
    fn go_back(&mut self, process: usize, change: Change) -> Result<(), AllocError> {
        if process < self.made.len() {
            self.made[process] = self.made[process].saturating_sub(1);
        }
        let Some(task) = self.next(process).copied() else {
            return Ok(());
        };
        if task.effect == Effect::Sends && task.kind < self.sent.len() {
            self.sent[task.kind] = self.sent[task.kind].saturating_sub(1);
        }
        self.queues.restore(task.queue, change)
    }

    // A hash of this state.
    fn digest(&self) -> u64 {
        let mut digest = 0;
        for made in &self.made {
            digest = mixed(digest, *made as u64);
        }
        self.queues.digest(digest)
    }
}

// Whether of two messages each would have to be sent before the other.
fn contradict(one: &LearnedConstraint, other: &LearnedConstraint) -> bool {
    one.first == Event::Send(other.other) && other.first == Event::Send(one.other)
}

fn processes_of(alloc: Global, path: &Vec<Move>) -> Result<Vec<usize>, AllocError> {
    let mut processes = Vec::new(alloc);
    for one in path {
        processes.push(one.process)?;
    }
    Ok(processes)
}
