//! Callers: which of them are threads of one process, and the table of their waits. Caller p has the
//! row at index p. If the table is updated for each entry of the journal, it says what the
//! definitions say about the entries so far.
ghost use Rattle.std.specs.Prelude.{◌≡◌, ◌<◌, ◌≤◌, ℕ, length, IfSome, None, Some};
ghost use Rattle.std.specs.Option.{option_map};
ghost use Rattle.std.specs.List.{position};
ghost use Rattle.mq_model.specs.Descriptors.{is_place};
ghost use Rattle.mq_model.specs.Threads.{owner_of, shares};

use crate::entries::{Call, Deadline, Entry, Reply};
use crate::limits::PROCESSES;

/// The process of a caller, named by its first thread: caller o + 32 * t is a thread of process o.
#[tactic(auto, unfolding(crate::specs::Threads::owner_of))]
#[inline(always)]
pub fn owner_of(p: u32) -> u32
    ensures { result ≡ owner_of p }
{
    if p <= PROCESSES {
        p
    } else {
        (p - 1) % PROCESSES + 1
    }
}

/// Whether two callers are threads of one process.
#[inline(always)]
pub fn share(a: u32, b: u32) -> bool
    ensures { result ≡ shares a b }
{
    owner_of(a) == owner_of(b)
}

/// What a call waits for.
#[derive(Clone, Copy, Debug, PartialEq, Eq)]
pub enum WaitKind {
    /// A send, for room in its queue.
    Send,
    /// A receive, for a message.
    Receive,
}

/// An open wait: the place of the call that waits, its queue, its kind, and its deadline.
#[derive(Clone, Copy, Debug, PartialEq, Eq)]
pub struct OpenWait {
    pub place: u64,
    pub queue: u64,
    pub kind: WaitKind,
    pub until: Option<Deadline>,
}

/// The open wait of a caller, with the place of the entry that answers it.
#[derive(Clone, Copy, Debug)]
pub struct Caller {
    pub wait: Option<OpenWait>,
    pub answer: Option<u64>,
}

ghost use Rattle.mq_model.specs.Callers.{free_caller, is_kind, wait_kind, wait_in, answer_in, pending_in, with_wait, with_answer, waiter_in, waits_count, IsFirstWait};
ghost use Rattle.mq_model.specs.CallersNoted.{noted_waits, with_answer_at, KeepsCallers, StartsCallers};

impl Caller {
    /// A caller without a wait. A table of such callers is that of the empty journal.
    pub fn free() -> Caller
        ensures value { result ≡ free_caller }
        ensures starts { StartsCallers result }
    {
        Caller {
            wait: None,
            answer: None,
        }
    }
}

/// The open wait of caller p.
#[tactic(auto, unfolding(crate::specs::Callers::wait_in))]
pub fn wait(callers: &[Caller], p: u32) -> Option<OpenWait>
    ensures { result ≡ wait_in callers.now p }
{
    match callers.get(p as usize) {
        None => None,
        Some(caller) => caller.wait,
    }
}

/// The place of the entry that answers the open wait of caller p.
#[tactic(auto, unfolding(crate::specs::Callers::answer_in))]
pub fn answer(callers: &[Caller], p: u32) -> Option<u64>
    ensures { result ≡ answer_in callers.now p }
{
    match callers.get(p as usize) {
        None => None,
        Some(caller) => caller.answer,
    }
}

fn set_wait(callers: &mut [Caller], p: u32, wait: Option<OpenWait>)
    requires { p < length callers.old }
    ensures { callers.new ≡ with_wait callers.old p wait }
{
    let caller = &mut callers[p as usize];
    caller.wait = wait;
    caller.answer = None;
}

fn set_answer(callers: &mut [Caller], p: usize, by: u64)
    requires { p < length callers.old }
    ensures { callers.new ≡ with_answer callers.old p by }
{
    callers[p].answer = Some(by);
}

#[inline(always)]
fn is_wait_at(caller: &Caller, place: u64) -> bool
    ensures { result ≡ is_place place (option_map (λ w. w.place) caller.now.wait) }
{
    match caller.wait {
        None => false,
        Some(wait) => wait.place == place,
    }
}

// The first caller whose open wait began at this place.
#[tactic(auto, unfolding(crate::specs::Callers::waiter_in))]
#[inline(always)]
fn waiter(callers: &[Caller], place: u64) -> Option<usize>
    ensures value { result ≡ waiter_in callers.now place }
    ensures inside { IfSome result (λ p. p < length callers.now) }
{
    callers.iter().position(|caller| is_wait_at(caller, place))
}

fn is_kind(wanted: WaitKind, kind: WaitKind) -> bool
    ensures { result ≡ is_kind wanted kind }
{
    match (wanted, kind) {
        (WaitKind::Send, WaitKind::Send) => true,
        (WaitKind::Receive, WaitKind::Receive) => true,
        _ => false,
    }
}

// The kind of wait that a call begins.
fn wait_kind(call: Call) -> WaitKind
    ensures { result ≡ wait_kind call }
{
    if call.is_send() {
        WaitKind::Send
    } else {
        WaitKind::Receive
    }
}

/// The place of caller p's open wait, if it is of this kind, on queue q, and not answered.
#[tactic(auto, unfolding(crate::specs::Callers::pending_in))]
pub fn pending(callers: &[Caller], p: u32, q: u64, kind: WaitKind) -> Option<u64>
    ensures { result ≡ pending_in callers.now p q kind }
{
    match wait(callers, p) {
        None => None,
        Some(w) => match answer(callers, p) {
            Some(_) => None,
            None => {
                if w.queue == q && is_kind(kind, w.kind) {
                    Some(w.place)
                } else {
                    None
                }
            }
        },
    }
}

/// The wait of this kind on queue q that has waited longest without an answer, with its caller.
pub fn first_wait(callers: &[Caller], q: u64, kind: WaitKind) -> Option<(u32, u64)>
    requires { length callers.now ≤ 2049 }
    ensures none { result ≡ None → (p : ℕ) → pending_in callers.now p q kind ≡ None }
    ensures some { IfSome result (λ x. IsFirstWait callers.now q kind x.0 x.1) }
{
    let mut first: Option<(u32, u64)> = None;
    for i in 0..callers.len() {
        let p = i as u32;
        if let Some(place) = pending(callers, p, q, kind) {
            let earlier = match first {
                None => true,
                Some((_, best)) => place < best,
            };
            if earlier {
                first = Some((p, place));
            }
        }
    }
    first
}

/// The number of callers with an open wait.
#[tactic(auto, unfolding(crate::specs::Callers::waits_count))]
pub fn open_waits(callers: &[Caller]) -> usize
    ensures count { result ≡ waits_count callers.now }
    ensures bound { result ≤ length callers.now }
{
    callers.iter().filter(|x| x.wait.is_some()).count()
}

// Marks the wait that began at this place, if a caller still has it, as answered by entry `here`.
#[inline(always)]
fn answer_wait(callers: &mut [Caller], wait: u64, here: u64)
    ensures { callers.new ≡ with_answer_at callers.old (waiter_in callers.old wait) here }
{
    if let Some(p) = waiter(callers, wait) {
        set_answer(callers, p, here);
    }
}

/// Updates the table for the entry at place `here`. `queue` is the queue on which the call was made.
/// If the table says what the definitions say about a legal journal, it afterwards says so about
/// the journal with the entry.
#[inline(always)]
pub fn note(callers: &mut [Caller], here: u64, entry: Entry, queue: u64)
    requires caller { entry.process < length callers.old }
    ensures table { callers.new ≡
        noted_waits callers.old here entry.process entry.call entry.reply queue }
    ensures mirror { KeepsCallers callers.old here entry queue callers.new }
{
    note_reply(callers, here, entry, queue);
}

#[inline(always)]
fn note_reply(callers: &mut [Caller], here: u64, entry: Entry, queue: u64)
    requires caller { entry.process < length callers.old }
    ensures { callers.new ≡
        noted_waits callers.old here entry.process entry.call entry.reply queue }
{
    let p = entry.process;
    match entry.reply {
        Reply::Waits => {
            let wait = OpenWait {
                place: here,
                queue,
                kind: wait_kind(entry.call),
                until: entry.call.deadline(),
            };
            set_wait(callers, p, Some(wait));
        }
        Reply::Collected { by: _ } => set_wait(callers, p, None),
        Reply::Withdrawn { wait: _ } => set_wait(callers, p, None),
        Reply::Handed { wait } => answer_wait(callers, wait, here),
        Reply::Got {
            place: _,
            admitted: Some(wait),
            notified: _,
        } => answer_wait(callers, wait, here),
        _ => {}
    }
}
