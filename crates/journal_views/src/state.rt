//! The text of a state, part by part.
#![tactic(auto, using(crate::proofs::Lists::lists))]

ghost use Rattle.std.specs.Prelude.{◌≡◌, ◌++◌, IfOk, OnOk, length, map};
ghost use Rattle.mq_model.specs.Names.{attributes, name_of};
ghost use Rattle.mq_model.specs.Descriptors.{held, is_named};
ghost use Rattle.mq_model.specs.Notices.{notices, registered};
ghost use Rattle.mq_model.specs.Waits.{answered_by, open_wait};
ghost use Rattle.mq_model.specs.Legality.{Legal};
ghost use Rattle.journal_views.specs.Followed.{Follows};
ghost use Rattle.journal_views.specs.Parts.{part};
ghost use Rattle.journal_views.specs.Places.{ordered};
ghost use Rattle.journal_views.specs.State.{at, descriptor, held_numbers, joined, listed, notice, process, process_head, queue, queue_head, registration, state, wait};

use crate::facts::{
    alive, answered_by, callers, held, held_numbers, notices, open_wait, registered,
};
use crate::followed::{Followed, follow, name_of};
use crate::form::Form;
use crate::parts::{
    descriptor, notice, part, process_head, push_queue_head, registration, state_head, wait,
};
use crate::places::ordered;
use mq_equivalence::standing::Kind;
use mq_model::entries::Attr;
use mq_model::error_order::{DEFAULT_ATTRIBUTES, attributes_given};
use mq_model::journals::Journal;
use std::alloc::{AllocError, Global};

// Appends the text about the record at a place, by its kind.
fn push_part(
    alloc: Global,
    text: &mut Vec<u8>,
    journal: &Journal,
    kind: Kind,
    form: Form,
    place: u64,
) -> Result<(), AllocError>
    ensures { OnOk result (text.new.items ≡ text.old.items ++
        at (part kind form) journal.now.records place) }
{
    if place >= journal.len() {
        return Ok(());
    }
    let (entry, payload) = journal.record(place);
    let part = part(alloc, kind, form, place, entry, payload)?;
    text.extend_from_slice(part.as_bytes())
}

// The same for each of these places.
fn push_parts(
    alloc: Global,
    text: &mut Vec<u8>,
    journal: &Journal,
    kind: Kind,
    form: Form,
    places: &[u64],
) -> Result<(), AllocError>
    ensures { OnOk result (text.new.items ≡ text.old.items ++
        joined form (map (at (part kind form) journal.now.records) places.now)) }
{
    let mut i = 0;
    for place in places {
        form.push_between(text, i)?;
        push_part(alloc, text, journal, kind, form, *place)?;
        i += 1;
    }
    Ok(())
}

// Appends everything of a kind that queue `q` has.
fn push_kind(
    alloc: Global,
    text: &mut Vec<u8>,
    journal: &Journal,
    f: &Followed,
    kind: Kind,
    form: Form,
    q: u64,
) -> Result<(), AllocError>
    requires { Follows journal.now.records (length journal.now.records) f.now }
    ensures { OnOk result (text.new.items ≡ text.old.items ++ listed form
        (map (at (part kind form) journal.now.records) (ordered kind journal.now.records q))) }
{
    let places = ordered(alloc, journal, f, kind, q)?;
    form.push(text, "[")?;
    push_parts(alloc, text, journal, kind, form, &places)?;
    form.push(text, "]")
}

fn attributes(journal: &Journal, q: u64) -> Attr
    ensures { result ≡ attributes journal.now.records q }
{
    match journal.entry(q) {
        Some(entry) => attributes_given(entry.call),
        None => DEFAULT_ATTRIBUTES,
    }
}

// Appends the start of a queue.
fn push_head(
    alloc: Global,
    text: &mut Vec<u8>,
    journal: &Journal,
    f: &Followed,
    form: Form,
    q: u64,
) -> Result<(), AllocError>
    requires { Follows journal.now.records (length journal.now.records) f.now }
    ensures { OnOk result (text.new.items ≡ text.old.items ++ queue_head form q
        (name_of journal.now.records q) (is_named journal.now.records q)
        (attributes journal.now.records q)) }
{
    let name = name_of(journal, q);
    let named = f.is_named(journal, q);
    let limits = attributes(journal, q);
    push_queue_head(alloc, text, form, q, name, named, limits)
}

// Appends the registration on a queue.
fn push_registration(
    alloc: Global,
    text: &mut Vec<u8>,
    journal: &Journal,
    f: &Followed,
    form: Form,
    q: u64,
) -> Result<(), AllocError>
    requires { Follows journal.now.records (length journal.now.records) f.now }
    ensures { OnOk result (text.new.items ≡ text.old.items ++
        registration form (registered journal.now.records q)) }
{
    let registration = registration(alloc, form, registered(journal, f, q))?;
    text.extend_from_slice(registration.as_bytes())
}

// Appends a queue.
fn push_queue(
    alloc: Global,
    text: &mut Vec<u8>,
    journal: &Journal,
    f: &Followed,
    form: Form,
    q: u64,
) -> Result<(), AllocError>
    requires { Follows journal.now.records (length journal.now.records) f.now }
    ensures { OnOk result (text.new.items ≡ text.old.items ++ queue form journal.now.records q) }
{
    push_head(alloc, text, journal, f, form, q)?;
    form.push_label(text, "messages")?;
    push_kind(alloc, text, journal, f, Kind::Messages, form, q)?;
    form.push_label(text, "senders")?;
    push_kind(alloc, text, journal, f, Kind::Senders, form, q)?;
    form.push_label(text, "receivers")?;
    push_kind(alloc, text, journal, f, Kind::Receivers, form, q)?;
    form.push_label(text, "registration")?;
    push_registration(alloc, text, journal, f, form, q)?;
    form.push(text, "}")?;
    Ok(())
}

// Appends these queues.
fn push_queues(
    alloc: Global,
    text: &mut Vec<u8>,
    journal: &Journal,
    f: &Followed,
    form: Form,
    queues: &[u64],
) -> Result<(), AllocError>
    requires { Follows journal.now.records (length journal.now.records) f.now }
    ensures { OnOk result (text.new.items ≡ text.old.items ++
        joined form (map (queue form journal.now.records) queues.now)) }
{
    let mut i = 0;
    for q in queues {
        form.push_between(text, i)?;
        push_queue(alloc, text, journal, f, form, *q)?;
        i += 1;
    }
    Ok(())
}

// Appends a descriptor of process `p`.
fn push_descriptor(
    alloc: Global,
    text: &mut Vec<u8>,
    journal: &Journal,
    f: &Followed,
    form: Form,
    p: u32,
    d: u32,
) -> Result<(), AllocError>
    requires { Follows journal.now.records (length journal.now.records) f.now }
    ensures { OnOk result (text.new.items ≡ text.old.items ++
        descriptor form d (held journal.now.records p d)) }
{
    let descriptor = descriptor(alloc, form, d, held(journal, f, p, d))?;
    text.extend_from_slice(descriptor.as_bytes())
}

// Appends these descriptors of process `p`.
fn push_descriptors(
    alloc: Global,
    text: &mut Vec<u8>,
    journal: &Journal,
    f: &Followed,
    form: Form,
    p: u32,
    numbers: &[u32],
) -> Result<(), AllocError>
    requires { Follows journal.now.records (length journal.now.records) f.now }
    ensures { OnOk result (text.new.items ≡ text.old.items ++
        joined form (map (λ d. descriptor form d (held journal.now.records p d)) numbers.now)) }
{
    let mut i = 0;
    for d in numbers {
        form.push_between(text, i)?;
        push_descriptor(alloc, text, journal, f, form, p, *d)?;
        i += 1;
    }
    Ok(())
}

// Appends a notice.
fn push_notice(alloc: Global, text: &mut Vec<u8>, form: Form, value: u64) -> Result<(), AllocError>
    ensures { OnOk result (text.new.items ≡ text.old.items ++ notice form value) }
{
    let notice = notice(alloc, form, value)?;
    text.extend_from_slice(notice.as_bytes())
}

// Appends these notices.
fn push_notices(
    alloc: Global,
    text: &mut Vec<u8>,
    form: Form,
    values: &[u64],
) -> Result<(), AllocError>
    ensures { OnOk result (text.new.items ≡ text.old.items ++
        joined form (map (notice form) values.now)) }
{
    let mut i = 0;
    for value in values {
        form.push_between(text, i)?;
        push_notice(alloc, text, form, *value)?;
        i += 1;
    }
    Ok(())
}

// Appends all descriptors of process `p`.
fn push_all_descriptors(
    alloc: Global,
    text: &mut Vec<u8>,
    journal: &Journal,
    f: &Followed,
    form: Form,
    p: u32,
) -> Result<(), AllocError>
    requires { Follows journal.now.records (length journal.now.records) f.now }
    ensures { OnOk result (text.new.items ≡ text.old.items ++ listed form
        (map (λ d. descriptor form d (held journal.now.records p d))
        (held_numbers journal.now.records p))) }
{
    let numbers = held_numbers(alloc, journal, f, p)?;
    form.push(text, "[")?;
    push_descriptors(alloc, text, journal, f, form, p, &numbers)?;
    form.push(text, "]")
}

// Appends all notices of process `p`.
fn push_all_notices(
    alloc: Global,
    text: &mut Vec<u8>,
    journal: &Journal,
    form: Form,
    p: u32,
) -> Result<(), AllocError>
    ensures { OnOk result (text.new.items ≡ text.old.items ++
        listed form (map (notice form) (notices journal.now.records p))) }
{
    let values = notices(alloc, journal, p)?;
    form.push(text, "[")?;
    push_notices(alloc, text, form, &values)?;
    form.push(text, "]")
}

// Appends the start of process `p`.
fn push_process_head(
    alloc: Global,
    text: &mut Vec<u8>,
    form: Form,
    p: u32,
) -> Result<(), AllocError>
    ensures { OnOk result (text.new.items ≡ text.old.items ++ process_head form p) }
{
    let head = process_head(alloc, form, p)?;
    text.extend_from_slice(head.as_bytes())
}

// Appends the open wait of process `p`.
fn push_wait(
    alloc: Global,
    text: &mut Vec<u8>,
    journal: &Journal,
    f: &Followed,
    form: Form,
    p: u32,
) -> Result<(), AllocError>
    requires { Follows journal.now.records (length journal.now.records) f.now }
    ensures { OnOk result (text.new.items ≡ text.old.items ++ wait form
        (open_wait journal.now.records p) (answered_by journal.now.records p)) }
{
    let wait = wait(
        alloc,
        form,
        open_wait(journal, f, p),
        answered_by(journal, f, p),
    )?;
    text.extend_from_slice(wait.as_bytes())
}

// Appends a process.
fn push_process(
    alloc: Global,
    text: &mut Vec<u8>,
    journal: &Journal,
    f: &Followed,
    form: Form,
    p: u32,
) -> Result<(), AllocError>
    requires { Follows journal.now.records (length journal.now.records) f.now }
    ensures { OnOk result (text.new.items ≡ text.old.items ++ process form journal.now.records p) }
{
    push_process_head(alloc, text, form, p)?;
    push_wait(alloc, text, journal, f, form, p)?;
    form.push_label(text, "descriptors")?;
    push_all_descriptors(alloc, text, journal, f, form, p)?;
    form.push_label(text, "notices")?;
    push_all_notices(alloc, text, journal, form, p)?;
    form.push(text, "}")?;
    Ok(())
}

// Appends these processes.
fn push_processes(
    alloc: Global,
    text: &mut Vec<u8>,
    journal: &Journal,
    f: &Followed,
    form: Form,
    processes: &[u32],
) -> Result<(), AllocError>
    requires { Follows journal.now.records (length journal.now.records) f.now }
    ensures { OnOk result (text.new.items ≡ text.old.items ++
        joined form (map (process form journal.now.records) processes.now)) }
{
    let mut i = 0;
    for p in processes {
        form.push_between(text, i)?;
        push_process(alloc, text, journal, f, form, *p)?;
        i += 1;
    }
    Ok(())
}

/// The state after a journal, in this form. It reads the journal a few times for each queue and
/// each process. Fails if memory was refused.
pub fn state_of(alloc: Global, journal: &Journal, form: Form) -> Result<Vec<u8>, AllocError>
    requires { Legal journal.now.records }
    ensures { IfOk result (λ text. text.items ≡ state form journal.now.records) }
{
    let f = follow(alloc, journal)?;
    let mut text = Vec::new(alloc);
    let head = state_head(alloc, form, journal.len())?;
    text.extend_from_slice(head.as_bytes())?;
    let queues = alive(alloc, journal, &f)?;
    form.push(&mut text, "[")?;
    push_queues(alloc, &mut text, journal, &f, form, &queues)?;
    form.push(&mut text, "]")?;
    form.push_label(&mut text, "processes")?;
    let processes = callers(alloc, journal)?;
    form.push(&mut text, "[")?;
    push_processes(alloc, &mut text, journal, &f, form, &processes)?;
    form.push(&mut text, "]")?;
    form.push(&mut text, "}\n")?;
    Ok(text)
}
