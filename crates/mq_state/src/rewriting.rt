//! Rewriting a journal as a short one, which leads to the same state by calls of the same
//! processes, in an order in which each gets the reply that is needed.
//!
//! First come the notices, over a queue made for them; then the queues, in the order in which they
//! were created, and their messages; then for each process the descriptors (with others for the
//! numbers between, which are closed again) and the registrations; then the unlinks of names; and
//! last the waits, in their order. Process 1 makes the calls that belong to no process.
ghost use Rattle.std.specs.Prelude.{IfOk};
ghost use Rattle.mq_model.specs.Legality.{Legal};

use crate::queues::Queue;
use crate::tables::Tables;
use crate::trail::Trail;
use mq_model::entries::{Access, Attr, Call, Description, OpenFlags, Reply};
use mq_model::journals::Journal;
use mq_model::limits::{DESCRIPTORS, PROCESSES};
use mq_model::{callers, owners};
use std::alloc::{AllocError, Global};

/// Why a journal was not rewritten.
#[derive(Clone, Copy, Debug, PartialEq, Eq)]
pub enum Unwritten {
    /// Memory was refused.
    NoMemory,
    /// A process has not yet collected a wait that is answered.
    Answered,
    /// A call did not get the reply that is needed. This is not known to happen.
    Unexpected,
}

impl From<AllocError> for Unwritten {
    fn from(_: AllocError) -> Unwritten {
        Unwritten::NoMemory
    }
}

// The process that makes the calls which belong to no process.
const HELPER: u32 = 1;

/// The short journal that leads to the state of these tables, which are those of `journal`.
pub(crate) fn rewrite(
    alloc: Global,
    journal: &Journal,
    tables: &Tables,
) -> Result<Journal, Unwritten>
    ensures { IfOk result (λ j. Legal j.records) }
{
    if owners_answered(tables) {
        return Err(Unwritten::Answered);
    }
    let names = names_of(alloc, journal, &tables.queues)?;
    let mut trail = Trail::new(alloc)?;
    bring_notices(alloc, &mut trail, tables, &names)?;
    create_queues(&mut trail, &tables.queues, &names)?;
    fill_queues(alloc, &mut trail, journal, &tables.queues, &names)?;
    for p in 1..PROCESSES + 1 {
        open_descriptors(&mut trail, tables, p, &names)?;
        register(&mut trail, &tables.queues, p)?;
    }
    unlink_names(&mut trail, &tables.queues, &names)?;
    begin_waits(alloc, &mut trail, journal, tables)?;
    Ok(trail.into_journal())
}

// Makes a call that must not fail.
fn make(trail: &mut Trail, p: u32, call: Call, given: &[u8]) -> Result<(), Unwritten> {
    if let Reply::Refused(_) = trail.reply(p, call, given) {
        return Err(Unwritten::Unexpected);
    }
    if !trail.make(p, call, given)? {
        return Err(Unwritten::Unexpected);
    }
    Ok(())
}

fn owners_answered(tables: &Tables) -> bool {
    tables.callers.iter().any(|caller| caller.answer.is_some())
}

// The names under which the queues are created: their own, or spare ones for those that have lost
// theirs.
fn names_of(alloc: Global, journal: &Journal, queues: &[Queue]) -> Result<Vec<Vec<u8>>, Unwritten> {
    let mut names = Vec::new(alloc);
    let mut next = 0;
    for i in 0..queues.len() {
        let name = if queues[i].is_named() {
            own_name(alloc, journal, &queues[i])?
        } else {
            spare_name(alloc, journal, queues, &mut next)?
        };
        add_name(&mut names, name)?;
    }
    // and one for the queue of the notices
    let name = spare_name(alloc, journal, queues, &mut next)?;
    add_name(&mut names, name)?;
    Ok(names)
}

fn add_name(names: &mut Vec<Vec<u8>>, name: Vec<u8>) -> Result<(), AllocError> {
    names.push(name)?;
    Ok(())
}

fn own_name(alloc: Global, journal: &Journal, queue: &Queue) -> Result<Vec<u8>, Unwritten> {
    match journal.payload(queue.place()) {
        Some(bytes) => Ok(Vec::from_slice(alloc, bytes)?),
        None => Err(Unwritten::Unexpected),
    }
}

// A name that no queue has, with a number of at least `next`.
fn spare_name(
    alloc: Global,
    journal: &Journal,
    queues: &[Queue],
    next: &mut u32,
) -> Result<Vec<u8>, Unwritten> {
    let from = *next;
    for number in from..1_000 {
        let name = numbered(alloc, number)?;
        if !is_taken(journal, queues, &name) {
            *next = number + 1;
            return Ok(name);
        }
    }
    Err(Unwritten::Unexpected)
}

// "/" and three digits.
fn numbered(alloc: Global, number: u32) -> Result<Vec<u8>, AllocError> {
    let mut name = Vec::new(alloc);
    name.push(b'/')?;
    name.push(digit(number / 100))?;
    name.push(digit(number / 10))?;
    name.push(digit(number))?;
    Ok(name)
}

fn digit(number: u32) -> u8 {
    b'0' + (number % 10) as u8
}

fn is_taken(journal: &Journal, queues: &[Queue], name: &[u8]) -> bool {
    for i in 0..queues.len() {
        if queues[i].is_named() {
            if let Some(bytes) = journal.payload(queues[i].place()) {
                if bytes == name {
                    return true;
                }
            }
        }
    }
    false
}

fn name_at(names: &[Vec<u8>], i: usize) -> Result<&[u8], Unwritten> {
    if i >= names.len() {
        return Err(Unwritten::Unexpected);
    }
    Ok(&names[i])
}

// Opens an existing queue.
fn open(
    trail: &mut Trail,
    p: u32,
    name: &[u8],
    access: Access,
    nonblock: bool,
) -> Result<(), Unwritten> {
    let flags = OpenFlags {
        access,
        create: false,
        excl: false,
        nonblock,
    };
    make(trail, p, Call::MqOpen { flags, attr: None }, name)
}

// Creates a queue, at the lowest free descriptor of process p.
fn create(trail: &mut Trail, p: u32, name: &[u8], attr: Attr) -> Result<(), Unwritten> {
    let flags = OpenFlags::read_write().create();
    let attr = Some(attr);
    make(trail, p, Call::MqOpen { flags, attr }, name)
}

fn close(trail: &mut Trail, p: u32, d: u32) -> Result<(), Unwritten> {
    make(trail, p, Call::MqClose { d }, &[])
}

fn bring_notices(
    alloc: Global,
    trail: &mut Trail,
    tables: &Tables,
    names: &[Vec<u8>],
) -> Result<(), Unwritten> {
    let name = name_at(names, tables.queues.len())?;
    let mut is_made = false;
    for p in 1..PROCESSES + 1 {
        if notice_of(tables, p, 0).is_some() {
            bring_to(trail, tables, p, name)?;
            is_made = true;
        }
    }
    if is_made {
        make(trail, HELPER, Call::MqUnlink, name)?;
    }
    Ok(())
}

// Produces the notices of process p, each by a message to the queue of the notices, which is
// received again.
fn bring_to(trail: &mut Trail, tables: &Tables, p: u32, name: &[u8]) -> Result<(), Unwritten> {
    let limits = Attr {
        maxmsg: 1,
        msgsize: 1,
    };
    create(trail, p, name, limits)?;
    for i in 0..notice_count(tables, p) {
        let value = notice_of(tables, p, i);
        make(trail, p, Call::MqNotify { d: 0, value }, &[])?;
        make(
            trail,
            p,
            Call::MqSend {
                d: 0,
                prio: 0,
                len: 0,
            },
            &[],
        )?;
        make(trail, p, Call::MqReceive { d: 0, room: 1 }, &[])?;
    }
    close(trail, p, 0)
}

// The number of notices that process p has not yet taken.
fn notice_count(tables: &Tables, p: u32) -> usize {
    let p = p as usize;
    if p >= tables.inboxes.len() {
        return 0;
    }
    tables.inboxes[p].len()
}

// One of them.
fn notice_of(tables: &Tables, p: u32, index: usize) -> Option<u64> {
    let p = p as usize;
    if p >= tables.inboxes.len() {
        return None;
    }
    tables.inboxes[p].nth(index)
}

fn create_queues(trail: &mut Trail, queues: &[Queue], names: &[Vec<u8>]) -> Result<(), Unwritten> {
    for i in 0..queues.len() {
        create(trail, HELPER, name_at(names, i)?, queues[i].attributes())?;
        close(trail, HELPER, 0)?;
    }
    Ok(())
}

fn fill_queues(
    alloc: Global,
    trail: &mut Trail,
    journal: &Journal,
    queues: &[Queue],
    names: &[Vec<u8>],
) -> Result<(), Unwritten> {
    for i in 0..queues.len() {
        let messages = queues[i].messages(alloc)?;
        if !messages.is_empty() {
            open(trail, HELPER, name_at(names, i)?, Access::Write, false)?;
            for k in (0..messages.len()).rev() {
                send_again(trail, journal, messages[k].1)?;
            }
            close(trail, HELPER, 0)?;
        }
    }
    Ok(())
}

// Sends the message of the send at `place` again.
fn send_again(trail: &mut Trail, journal: &Journal, place: u64) -> Result<(), Unwritten> {
    let Some(entry) = journal.entry(place) else {
        return Err(Unwritten::Unexpected);
    };
    let Some(bytes) = journal.payload(place) else {
        return Err(Unwritten::Unexpected);
    };
    let prio = entry.call.priority();
    let len = bytes.len() as u64;
    make(trail, HELPER, Call::MqSend { d: 0, prio, len }, bytes)
}

// Opens the descriptors of process p, each under its number.
fn open_descriptors(
    trail: &mut Trail,
    tables: &Tables,
    p: u32,
    names: &[Vec<u8>],
) -> Result<(), Unwritten> {
    let Some(last) = last_held(tables, p) else {
        return Ok(());
    };
    for d in 0..DESCRIPTORS as u32 {
        if d <= last {
            let Some(h) = held_or(tables, p, d, last) else {
                return Err(Unwritten::Unexpected);
            };
            let name = name_at(names, index_of(&tables.queues, h.queue))?;
            open(trail, p, name, h.access, h.nonblock)?;
        }
    }
    for d in 0..DESCRIPTORS as u32 {
        if d < last && owners::held(&tables.owners, p, d).is_none() {
            close(trail, p, d)?;
        }
    }
    Ok(())
}

fn last_held(tables: &Tables, p: u32) -> Option<u32> {
    let mut last = None;
    for d in 0..DESCRIPTORS as u32 {
        if owners::held(&tables.owners, p, d).is_some() {
            last = Some(d);
        }
    }
    last
}

// What process p holds under descriptor d, or if nothing, under descriptor `other`.
fn held_or(tables: &Tables, p: u32, d: u32, other: u32) -> Option<Description> {
    match owners::held(&tables.owners, p, d) {
        Some(h) => Some(h),
        None => owners::held(&tables.owners, p, other),
    }
}

// The index of the queue that entry `place` created.
fn index_of(queues: &[Queue], place: u64) -> usize {
    for i in 0..queues.len() {
        if queues[i].place() == place {
            return i;
        }
    }
    usize::MAX
}

// Makes the registrations of process p.
fn register(trail: &mut Trail, queues: &[Queue], p: u32) -> Result<(), Unwritten> {
    for i in 0..queues.len() {
        if let Some(n) = queues[i].registration() {
            if callers::share(n.process, p) {
                let value = Some(n.value);
                make(trail, p, Call::MqNotify { d: n.d, value }, &[])?;
            }
        }
    }
    Ok(())
}

fn unlink_names(trail: &mut Trail, queues: &[Queue], names: &[Vec<u8>]) -> Result<(), Unwritten> {
    for i in 0..queues.len() {
        if !queues[i].is_named() {
            make(trail, HELPER, Call::MqUnlink, name_at(names, i)?)?;
        }
    }
    Ok(())
}

// Makes the calls that wait, in their order.
fn begin_waits(
    alloc: Global,
    trail: &mut Trail,
    journal: &Journal,
    tables: &Tables,
) -> Result<(), Unwritten> {
    let places = waiting_places(alloc, tables)?;
    for k in 0..places.len() {
        wait_again(trail, journal, places[k])?;
    }
    Ok(())
}

// The sequence numbers of the open waits, rising.
fn waiting_places(alloc: Global, tables: &Tables) -> Result<Vec<u64>, AllocError> {
    let mut places = Vec::new(alloc);
    for p in 0..tables.callers.len() {
        if let Some(wait) = tables.callers[p].wait {
            places.push(wait.place)?;
        }
    }
    places.sort()?;
    Ok(places)
}

fn wait_again(trail: &mut Trail, journal: &Journal, place: u64) -> Result<(), Unwritten> {
    let Some(entry) = journal.entry(place) else {
        return Err(Unwritten::Unexpected);
    };
    let Some(bytes) = journal.payload(place) else {
        return Err(Unwritten::Unexpected);
    };
    make(trail, entry.process, entry.call, bytes)
}
