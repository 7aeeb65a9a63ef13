//! The parts of a key.
#![tactic(auto, using(crate::proofs::Appends::appends))]

ghost use Rattle.std.specs.Prelude.{◌≡◌, ◌≤◌, ◌<◌, ◌^◌, ◌++◌, IfOk, IsTrue, None, Some, if◌then◌else◌, length, map};
ghost use Rattle.std.specs.Option.{option_map, option_to_list};
ghost use Rattle.mq_model.specs.Names.{attributes};
ghost use Rattle.mq_model.specs.Descriptors.{alive, held, numbers_from};
ghost use Rattle.mq_model.specs.Messages.{is_in};
ghost use Rattle.mq_model.specs.Notices.{notices};
ghost use Rattle.mq_equivalence.specs.Views.{answer, at, author, sender, sent, told, unplaced, unsent};
ghost use Rattle.mq_equivalence.specs.Key.{above_number, access_number, bytes_code, deadline_code, description_code, index_of, limits_code, listed, message_code, number, number_bound, optional, process_bound, process_code, queue_code, queues_by_name, registered_code, sender_code, signed, test};
ghost use Rattle.mq_equivalence.specs.Kinds.{kind_code, place_code};

use crate::naming::bound_name;
use crate::standing::{Kind, in_order};
use mq_checker::scan_names::entry_at;
use mq_model::entries::{Access, Attr, Deadline, Description, Entry, Registration, Reply};
use mq_model::error_order::{DEFAULT_ATTRIBUTES, attributes_given};
use mq_model::journals::Journal;
use mq_state::trail::Trail;
use std::alloc::{AllocError, Global};
use std::cmp;

fn push_number(key: &mut Vec<u64>, n: u64) -> Result<(), AllocError>
    ensures { IfOk result (λ _. key.new.items ≡ key.old.items ++ number n) }
{
    key.push(n)?;
    Ok(())
}

fn push_test(key: &mut Vec<u64>, value: bool) -> Result<(), AllocError>
    ensures { IfOk result (λ _. key.new.items ≡ key.old.items ++ test value) }
{
    if value {
        push_number(key, 1)
    } else {
        push_number(key, 0)
    }
}

fn push_signed(key: &mut Vec<u64>, value: i64) -> Result<(), AllocError>
    ensures { IfOk result (λ _. key.new.items ≡ key.old.items ++ signed value) }
{
    if value >= 0 {
        push_number(key, 0)?;
        push_number(key, value as u64)
    } else {
        push_number(key, 1)?;
        push_number(key, (-(value + 1)) as u64)
    }
}

fn push_limits(key: &mut Vec<u64>, limits: Attr) -> Result<(), AllocError>
    ensures { IfOk result (λ _. key.new.items ≡ key.old.items ++ limits_code limits) }
{
    push_signed(key, limits.maxmsg)?;
    push_signed(key, limits.msgsize)
}

fn access_number(access: Access) -> u64
    ensures { result ≡ access_number access }
{
    match access {
        Access::Read => 0,
        Access::Write => 1,
        Access::Both => 2,
    }
}

// The index of a queue among these.
fn index_of(queues: &[u64], q: u64) -> u64
    ensures { result ≡ index_of queues.now q }
{
    for i in 0..queues.len() {
        if queues[i] == q {
            return i as u64;
        }
    }
    queues.len() as u64
}

fn push_description(key: &mut Vec<u64>, queues: &[u64], h: Description) -> Result<(), AllocError>
    ensures { IfOk result (λ _. key.new.items ≡ key.old.items ++ description_code queues.now h) }
{
    push_number(key, index_of(queues, h.queue))?;
    push_number(key, access_number(h.access))?;
    push_test(key, h.nonblock)
}

fn push_held(
    key: &mut Vec<u64>,
    queues: &[u64],
    held: Option<Description>,
) -> Result<(), AllocError>
    ensures { IfOk result (λ _. key.new.items ≡ key.old.items
        ++ optional (description_code queues.now) held) }
{
    match held {
        None => push_number(key, 0),
        Some(h) => {
            push_number(key, 1)?;
            push_description(key, queues, h)
        }
    }
}

/// Appends each byte as a number.
pub fn push_bytes(key: &mut Vec<u64>, bytes: &[u8]) -> Result<(), AllocError>
    ensures { IfOk result (λ _. key.new.items ≡ key.old.items ++ bytes.now) }
{
    for b in bytes {
        push_number(key, u64::from(*b))?;
    }
    Ok(())
}

// Appends the number of bytes and then the bytes.
fn push_listed_bytes(key: &mut Vec<u64>, bytes: &[u8]) -> Result<(), AllocError>
    ensures { IfOk result (λ _. key.new.items ≡ key.old.items ++ bytes_code bytes.now) }
{
    push_number(key, bytes.len() as u64)?;
    push_bytes(key, bytes)
}

fn push_message(key: &mut Vec<u64>, entry: Entry, payload: &[u8]) -> Result<(), AllocError>
    ensures { IfOk result (λ _. key.new.items ≡ key.old.items
        ++ message_code (sent (record { entry = entry; payload = payload.now }))) }
{
    push_number(key, u64::from(entry.call.priority()))?;
    push_listed_bytes(key, payload)
}

// Appends the message that was sent at a place.
fn push_sent(key: &mut Vec<u64>, journal: &Journal, place: u64) -> Result<(), AllocError>
    ensures { IfOk result (λ _. key.new.items ≡ key.old.items
        ++ optional message_code (at sent journal.now.records place)) }
{
    if place >= journal.len() {
        return push_number(key, 0);
    }
    let (entry, payload) = journal.record(place);
    push_number(key, 1)?;
    push_message(key, entry, payload)
}

// Appends the send that has waited since a place.
fn push_sender(key: &mut Vec<u64>, journal: &Journal, place: u64) -> Result<(), AllocError>
    ensures { IfOk result (λ _. key.new.items ≡ key.old.items
        ++ optional sender_code (at sender journal.now.records place)) }
{
    if place >= journal.len() {
        return push_number(key, 0);
    }
    let (entry, payload) = journal.record(place);
    push_number(key, 1)?;
    push_number(key, u64::from(entry.process))?;
    push_message(key, entry, payload)
}

// Appends the process whose send has waited since a place.
fn push_unsent(key: &mut Vec<u64>, journal: &Journal, place: u64) -> Result<(), AllocError>
    ensures { IfOk result (λ _. key.new.items ≡ key.old.items
        ++ optional sender_code (option_map unsent (at sender journal.now.records place))) }
{
    if place >= journal.len() {
        return push_number(key, 0);
    }
    let (entry, _) = journal.record(place);
    push_number(key, 1)?;
    push_number(key, u64::from(entry.process))?;
    push_number(key, 0)?;
    push_number(key, 0)
}

// Appends the receive that has waited since a place.
fn push_receiver(key: &mut Vec<u64>, journal: &Journal, place: u64) -> Result<(), AllocError>
    ensures { IfOk result (λ _. key.new.items ≡ key.old.items
        ++ optional number (at author journal.now.records place)) }
{
    if place >= journal.len() {
        return push_number(key, 0);
    }
    let (entry, _) = journal.record(place);
    push_number(key, 1)?;
    push_number(key, u64::from(entry.process))
}

fn push_place(
    key: &mut Vec<u64>,
    journal: &Journal,
    received: bool,
    kind: Kind,
    place: u64,
) -> Result<(), AllocError>
    ensures { IfOk result (λ _. key.new.items ≡ key.old.items
        ++ place_code received kind journal.now.records place) }
{
    match (kind, received) {
        (Kind::Messages, true) => push_sent(key, journal, place),
        (Kind::Messages, false) => push_number(key, 0),
        (Kind::Senders, true) => push_sender(key, journal, place),
        (Kind::Senders, false) => push_unsent(key, journal, place),
        (Kind::Receivers, true | false) => push_receiver(key, journal, place),
    }
}

// Appends what of a kind is at these places.
fn push_places(
    key: &mut Vec<u64>,
    journal: &Journal,
    received: bool,
    kind: Kind,
    places: &[u64],
) -> Result<(), AllocError>
    ensures { IfOk result (λ _. key.new.items ≡ key.old.items
        ++ listed (place_code received kind journal.now.records) places.now) }
{
    push_number(key, places.len() as u64)?;
    for i in 0..places.len() {
        push_place(key, journal, received, kind, places[i])?;
    }
    Ok(())
}

// Appends everything of a kind that queue `q` has, which exists.
fn push_kind(
    alloc: Global,
    key: &mut Vec<u64>,
    trail: &Trail,
    received: bool,
    kind: Kind,
    q: u64,
) -> Result<(), AllocError>
    requires { IsTrue (is_in (alive trail.now) q) }
    ensures { IfOk result (λ _. key.new.items ≡ key.old.items
        ++ kind_code received kind trail.now q) }
{
    let places = in_order(alloc, trail, kind, q)?;
    push_places(key, trail.journal(), received, kind, &places)?;
    Ok(())
}

fn attributes(journal: &Journal, q: u64) -> Attr
    ensures { result ≡ attributes journal.now.records q }
{
    match journal.entry(q) {
        Some(entry) => attributes_given(entry.call),
        None => DEFAULT_ATTRIBUTES,
    }
}

// Appends the name of a queue, if it is still bound to it.
fn push_name(key: &mut Vec<u64>, name: Option<&[u8]>) -> Result<(), AllocError>
    ensures { IfOk result (λ _. key.new.items ≡ key.old.items
        ++ optional bytes_code (option_map (λ bytes. bytes.now) name.entry)) }
{
    match name {
        None => push_number(key, 0),
        Some(name) => {
            push_number(key, 1)?;
            push_listed_bytes(key, name)
        }
    }
}

fn push_registration(
    key: &mut Vec<u64>,
    registration: Option<Registration>,
) -> Result<(), AllocError>
    ensures { IfOk result (λ _. key.new.items ≡ key.old.items
        ++ optional registered_code (option_map unplaced registration)) }
{
    match registration {
        None => push_number(key, 0),
        Some(r) => {
            push_number(key, 1)?;
            push_number(key, u64::from(r.process))?;
            push_number(key, u64::from(r.d))?;
            push_number(key, r.value)
        }
    }
}

/// Appends a queue that exists: its name, its limits, its messages, the waits on it, and its
/// registration.
pub(crate) fn push_queue(
    alloc: Global,
    key: &mut Vec<u64>,
    trail: &Trail,
    received: bool,
    q: u64,
) -> Result<(), AllocError>
    requires { IsTrue (is_in (alive trail.now) q) }
    ensures { IfOk result (λ _. key.new.items ≡ key.old.items
        ++ queue_code received trail.now q) }
{
    push_name(key, bound_name(trail, q))?;
    push_limits(key, attributes(trail.journal(), q))?;
    push_kind(alloc, key, trail, received, Kind::Messages, q)?;
    push_kind(alloc, key, trail, received, Kind::Senders, q)?;
    push_kind(alloc, key, trail, received, Kind::Receivers, q)?;
    push_registration(key, trail.registration(q))
}

// Appends what the entry at a place hands to the process whose wait it answers.
fn push_told(key: &mut Vec<u64>, journal: &Journal, place: u64) -> Result<(), AllocError>
    ensures { IfOk result (λ _. key.new.items ≡ key.old.items
        ++ optional (optional message_code) (at told journal.now.records place)) }
{
    if place >= journal.len() {
        return push_number(key, 0);
    }
    let (entry, payload) = journal.record(place);
    push_number(key, 1)?;
    push_message_if(key, entry.call.is_send(), entry, payload)
}

// Appends the message of an entry, if it has one.
fn push_message_if(
    key: &mut Vec<u64>,
    sends: bool,
    entry: Entry,
    payload: &[u8],
) -> Result<(), AllocError>
    ensures { IfOk result (λ _. key.new.items ≡ key.old.items
        ++ optional message_code
        (if sends then Some (sent (record { entry = entry; payload = payload.now })) else None)) }
{
    if sends {
        push_number(key, 1)?;
        push_message(key, entry, payload)
    } else {
        push_number(key, 0)
    }
}

fn push_answer(key: &mut Vec<u64>, trail: &Trail, p: u32) -> Result<(), AllocError>
    ensures { IfOk result (λ _. key.new.items ≡ key.old.items
        ++ optional (optional (optional message_code)) (answer trail.now p)) }
{
    match trail.answer(p) {
        None => push_number(key, 0),
        Some(by) => {
            push_number(key, 1)?;
            push_told(key, trail.journal(), by)
        }
    }
}

// Appends the buffer length with which a process waits, if it does.
fn push_room(key: &mut Vec<u64>, room: Option<u64>) -> Result<(), AllocError>
    ensures { IfOk result (λ _. key.new.items ≡ key.old.items ++ optional number room) }
{
    match room {
        None => push_number(key, 0),
        Some(room) => {
            push_number(key, 1)?;
            push_number(key, room)
        }
    }
}

fn push_deadline(key: &mut Vec<u64>, until: Option<Deadline>) -> Result<(), AllocError>
    ensures { IfOk result (λ _. key.new.items ≡ key.old.items ++ optional deadline_code until) }
{
    match until {
        None => push_number(key, 0),
        Some(until) => {
            push_number(key, 1)?;
            push_signed(key, until.sec)?;
            push_signed(key, until.nsec)
        }
    }
}

// Appends a number, if there is one.
fn push_some(key: &mut Vec<u64>, value: Option<u64>) -> Result<(), AllocError>
    ensures { IfOk result (λ _. key.new.items ≡ key.old.items ++ option_to_list value) }
{
    if let Some(value) = value {
        push_number(key, value)?;
    }
    Ok(())
}

// Appends the notices that process `p` has not yet taken.
fn push_notices(key: &mut Vec<u64>, trail: &Trail, p: u32) -> Result<(), AllocError>
    ensures { IfOk result (λ _. key.new.items ≡ key.old.items
        ++ listed number (notices trail.now p)) }
{
    let count = trail.notice_count(p);
    push_number(key, count as u64)?;
    for index in 0..count {
        push_some(key, trail.notice(p, index))?;
    }
    Ok(())
}

// Appends what process `p` holds under each number below `width`.
fn push_holdings(
    key: &mut Vec<u64>,
    trail: &Trail,
    queues: &[u64],
    width: u64,
    p: u32,
) -> Result<(), AllocError>
    requires { width ≤ 2 ^ 32 }
    ensures { IfOk result (λ _. key.new.items ≡ key.old.items
        ++ listed (optional (description_code queues.now))
        (map (held trail.now p) (numbers_from 0 width))) }
{
    push_number(key, width)?;
    for d in 0..width {
        push_held(key, queues, trail.held(p, d as u32))?;
    }
    Ok(())
}

/// Appends a process: the buffer length and the deadline of its open wait, what answered the wait,
/// its notices, and what it holds of these queues under each number below `width`.
pub(crate) fn push_process(
    key: &mut Vec<u64>,
    trail: &Trail,
    queues: &[u64],
    width: u64,
    p: u32,
) -> Result<(), AllocError>
    requires bound { width ≤ 2 ^ 32 }
    requires queues { queues.now ≡ queues_by_name trail.now }
    ensures { IfOk result (λ _. key.new.items ≡ key.old.items
        ++ process_code width trail.now p) }
{
    push_room(key, trail.waiting_room(p))?;
    push_deadline(key, trail.deadline(p))?;
    push_answer(key, trail, p)?;
    push_notices(key, trail, p)?;
    push_holdings(key, trail, queues, width, p)
}

/// Appends the queues that exist.
pub(crate) fn push_queues(
    alloc: Global,
    key: &mut Vec<u64>,
    trail: &Trail,
    received: bool,
    queues: &[u64],
) -> Result<(), AllocError>
    requires { queues.now ≡ queues_by_name trail.now }
    ensures { IfOk result (λ _. key.new.items ≡ key.old.items
        ++ listed (queue_code received trail.now) queues.now) }
{
    push_number(key, queues.len() as u64)?;
    for i in 0..queues.len() {
        push_queue(alloc, key, trail, received, queues[i])?;
    }
    Ok(())
}

/// One more than the greatest process that called.
pub fn process_bound(journal: &Journal) -> u64
    ensures value { result ≡ process_bound journal.now.records }
    ensures bound { result ≤ 2 ^ 32 }
{
    let mut bound = 0;
    for i in 0..journal.len() {
        let entry = entry_at(journal, i);
        bound = cmp::max(bound, u64::from(entry.process) + 1);
    }
    bound
}

fn above_number(reply: Reply) -> u64
    ensures value { result ≡ above_number reply }
    ensures bound { result ≤ 2 ^ 32 }
{
    match reply {
        Reply::Opened { d, created: _ } => u64::from(d) + 1,
        _ => 0,
    }
}

/// One more than the greatest descriptor that an open returned.
pub fn number_bound(journal: &Journal) -> u64
    ensures value { result ≡ number_bound journal.now.records }
    ensures bound { result ≤ 2 ^ 32 }
{
    let mut bound = 0;
    for i in 0..journal.len() {
        let entry = entry_at(journal, i);
        bound = cmp::max(bound, above_number(entry.reply));
    }
    bound
}

/// Appends the processes below `count`.
pub(crate) fn push_processes(
    key: &mut Vec<u64>,
    trail: &Trail,
    queues: &[u64],
    count: u64,
    width: u64,
) -> Result<(), AllocError>
    requires count { count ≤ 2 ^ 32 }
    requires width { width ≤ 2 ^ 32 }
    requires queues { queues.now ≡ queues_by_name trail.now }
    ensures { IfOk result (λ _. key.new.items ≡ key.old.items
        ++ listed (process_code width trail.now) (numbers_from 0 count)) }
{
    push_number(key, count)?;
    for p in 0..count {
        push_process(key, trail, queues, width, p as u32)?;
    }
    Ok(())
}
