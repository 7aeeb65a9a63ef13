//! The parts of a state: messages, waits, registrations, descriptors.
ghost use Rattle.std.specs.Prelude.{◌≡◌, ◌++◌, IfOk, OnOk, Some, codes, string_bytes, take};
ghost use Rattle.std.specs.List.{flat_map};
ghost use Rattle.journal_format.specs.Text.{access_letter, letter_if};
ghost use Rattle.journal_views.specs.Parts.{json_access, json_flag, json_front, json_rest, part};
ghost use Rattle.journal_views.specs.declared.form.Form.TheVariants.{Json, Text};
ghost use Rattle.journal_views.specs.State.{descriptor, first_bytes, message, name_string, notice, number_or_null, process_head, queue_head, receiver, registration, sender, sent, state_head, string_byte, true_or_false, unless_named, wait};

use crate::form::Form;
use journal_format::caller::caller_text;
use journal_format::payload::{ESCAPED, payload_text};
use mq_equivalence::standing::Kind;
use mq_model::entries::{Access, Attr, Description, Entry, Registration};
use percent_encoding::percent_encode;
use std::alloc::{AllocError, Global};

/// The number of bytes of a message that are shown.
const FIRST_BYTES: usize = 24;

fn first_bytes(payload: &[u8]) -> &[u8]
    ensures { result.now ≡ take first_bytes payload.now }
{
    &payload[..payload.len().min(FIRST_BYTES)]
}

// The message of a send.
fn sent(alloc: Global, form: Form, entry: Entry, payload: &[u8]) -> Result<String, AllocError>
    ensures { IfOk result (λ text. string_bytes text ≡
        sent form (record { entry = entry; payload = payload.now })) }
{
    let (prio, len) = (entry.call.priority(), payload.len());
    let shown = first_bytes(payload);
    match form {
        Form::Text => {
            let shown = payload_text(alloc, shown)?;
            format!(in alloc; " priority {prio} length {len}{shown}\n")
        }
        Form::Json => {
            let shown = hex::encode(alloc, shown)?;
            format!(in alloc; ",\"priority\":{prio},\"length\":{len},\"bytes\":\"{shown}\"}}")
        }
    }
}

// A message in a queue.
fn message(
    alloc: Global,
    form: Form,
    place: u64,
    entry: Entry,
    payload: &[u8],
) -> Result<String, AllocError>
    ensures { IfOk result (λ text. string_bytes text ≡
        message form place (record { entry = entry; payload = payload.now })) }
{
    let sent = sent(alloc, form, entry, payload)?;
    match form {
        Form::Text => format!(in alloc; "  message {place}{sent}"),
        Form::Json => format!(in alloc; "{{\"place\":{place}{sent}"),
    }
}

// A caller that waits to send.
fn sender(
    alloc: Global,
    form: Form,
    place: u64,
    entry: Entry,
    payload: &[u8],
) -> Result<String, AllocError>
    ensures { IfOk result (λ text. string_bytes text ≡
        sender form place (record { entry = entry; payload = payload.now })) }
{
    let process = entry.process;
    let sent = sent(alloc, form, entry, payload)?;
    match form {
        Form::Text => {
            let caller = caller_text(alloc, process)?;
            format!(in alloc; "  sender {place} process {caller}{sent}")
        }
        Form::Json => format!(in alloc; "{{\"place\":{place},\"process\":{process}{sent}"),
    }
}

// A caller that waits to receive.
fn receiver(
    alloc: Global,
    form: Form,
    place: u64,
    entry: Entry,
    payload: &[u8],
) -> Result<String, AllocError>
    ensures { IfOk result (λ text. string_bytes text ≡
        receiver form place (record { entry = entry; payload = payload.now })) }
{
    let _len = payload.len();
    let process = entry.process;
    match form {
        Form::Text => {
            let caller = caller_text(alloc, process)?;
            format!(in alloc; "  receiver {place} process {caller}\n")
        }
        Form::Json => format!(in alloc; "{{\"place\":{place},\"process\":{process}}}"),
    }
}

/// The text about the record at a place, by its kind.
pub(crate) fn part(
    alloc: Global,
    kind: Kind,
    form: Form,
    place: u64,
    entry: Entry,
    payload: &[u8],
) -> Result<String, AllocError>
    ensures { IfOk result (λ text. string_bytes text ≡
        part kind form place (record { entry = entry; payload = payload.now })) }
{
    match kind {
        Kind::Messages => message(alloc, form, place, entry, payload),
        Kind::Senders => sender(alloc, form, place, entry, payload),
        Kind::Receivers => receiver(alloc, form, place, entry, payload),
    }
}

/// The registration on a queue.
pub(crate) fn registration(
    alloc: Global,
    form: Form,
    found: Option<Registration>,
) -> Result<String, AllocError>
    ensures { IfOk result (λ text. string_bytes text ≡ registration form found) }
{
    match (form, found) {
        (Form::Text, None) => Ok(String::new(alloc)),
        (
            Form::Text,
            Some(
                Registration {
                    place,
                    process,
                    d,
                    value,
                },
            ),
        ) => {
            let caller = caller_text(alloc, process)?;
            format!(in alloc;
                "  registration {place} process {caller} descriptor {d} value {value}\n"
            )
        }
        (Form::Json, None) => String::from_str(alloc, "null"),
        (
            Form::Json,
            Some(
                Registration {
                    place,
                    process,
                    d,
                    value,
                },
            ),
        ) => format!(in alloc;
            "{{\"place\":{place},\"process\":{process},\"descriptor\":{d},\"value\":\"{value}\"}}"
        ),
    }
}

fn true_or_false(value: bool) -> &'static str
    ensures { result.now ≡ true_or_false value }
{
    if value { "true" } else { "false" }
}

fn unless_named(named: bool) -> &'static str
    ensures { result.now ≡ unless_named named }
{
    if named { "" } else { " unlinked" }
}

fn push_string_byte(text: &mut Vec<u8>, b: u8) -> Result<(), AllocError>
    ensures { OnOk result (text.new.items ≡ text.old.items ++ string_byte b) }
{
    if b == b'"' || b == b'\\' {
        text.extend_from_slice(&[b'\\', b])
    } else {
        text.extend_from_slice(&[b])
    }
}

// Appends bytes as in a JSON string.
#[tactic(auto, using(crate::proofs::Lists::lists))]
fn push_string_bytes(text: &mut Vec<u8>, bytes: &[u8]) -> Result<(), AllocError>
    ensures { OnOk result (text.new.items ≡ text.old.items ++ flat_map string_byte bytes.now) }
{
    for b in bytes {
        push_string_byte(text, *b)?;
    }
    Ok(())
}

// Appends a name as a JSON string.
#[tactic(auto, using(crate::proofs::Lists::lists))]
fn push_name(alloc: Global, text: &mut Vec<u8>, name: &[u8]) -> Result<(), AllocError>
    ensures { OnOk result (text.new.items ≡ text.old.items ++ name_string name.now) }
{
    let mut escaped = String::new(alloc);
    percent_encode(name, ESCAPED).append_to(&mut escaped)?;
    text.extend_from_slice(b"\"")?;
    push_string_bytes(text, escaped.as_bytes())?;
    text.extend_from_slice(b"\"")
}

// The JSON before the name of a queue.
fn json_front(alloc: Global, q: u64) -> Result<String, AllocError>
    ensures { IfOk result (λ text. string_bytes text ≡ json_front q) }
{
    format!(in alloc; "{{\"queue\":{q},\"name\":")
}

// The JSON after the name of a queue.
fn json_rest(alloc: Global, named: bool, limits: Attr) -> Result<String, AllocError>
    ensures { IfOk result (λ text. string_bytes text ≡ json_rest named limits) }
{
    let named = true_or_false(named);
    let Attr { maxmsg, msgsize } = limits;
    format!(in alloc; ",\"named\":{named},\"maxmsg\":{maxmsg},\"msgsize\":{msgsize}")
}

// The start of a queue, as JSON.
#[tactic(auto, using(crate::proofs::Lists::lists))]
fn push_queue_json(
    alloc: Global,
    text: &mut Vec<u8>,
    q: u64,
    name: &[u8],
    named: bool,
    limits: Attr,
) -> Result<(), AllocError>
    ensures { OnOk result (text.new.items ≡ text.old.items ++
        queue_head Json q name.now named limits) }
{
    let front = json_front(alloc, q)?;
    text.extend_from_slice(front.as_bytes())?;
    push_name(alloc, text, name)?;
    let rest = json_rest(alloc, named, limits)?;
    text.extend_from_slice(rest.as_bytes())?;
    Ok(())
}

// The start of a queue, as text.
fn queue_text(
    alloc: Global,
    q: u64,
    name: &[u8],
    named: bool,
    limits: Attr,
) -> Result<String, AllocError>
    ensures { IfOk result (λ text. string_bytes text ≡ queue_head Text q name.now named limits) }
{
    let (quoted, unlinked) = (payload_text(alloc, name)?, unless_named(named));
    let Attr { maxmsg, msgsize } = limits;
    format!(in alloc; "queue {q}{quoted}{unlinked} limits {maxmsg} {msgsize}\n")
}

/// Appends the start of a queue: the entry that created it, its name, whether it is still bound to
/// that, and its limits.
#[tactic(auto, using(crate::proofs::Lists::lists))]
pub(crate) fn push_queue_head(
    alloc: Global,
    text: &mut Vec<u8>,
    form: Form,
    q: u64,
    name: &[u8],
    named: bool,
    limits: Attr,
) -> Result<(), AllocError>
    ensures { OnOk result (text.new.items ≡ text.old.items ++
        queue_head form q name.now named limits) }
{
    match form {
        Form::Text => {
            let head = queue_text(alloc, q, name, named, limits)?;
            text.extend_from_slice(head.as_bytes())
        }
        Form::Json => push_queue_json(alloc, text, q, name, named, limits),
    }
}

fn access_letter(access: Access) -> &'static str
    ensures { result.now ≡ access_letter access }
{
    match access {
        Access::Read => "r",
        Access::Write => "w",
        Access::Both => "b",
    }
}

fn n_if(nonblock: bool) -> &'static str
    ensures { result.now ≡ letter_if nonblock (codes "n") }
{
    if nonblock { "n" } else { "" }
}

// The JSON of a description after its access mode.
fn json_flag(alloc: Global, nonblock: bool) -> Result<String, AllocError>
    ensures { IfOk result (λ text. string_bytes text ≡ json_flag nonblock) }
{
    let value = true_or_false(nonblock);
    format!(in alloc; "\",\"nonblock\":{value}}}")
}

// The JSON of a description after its queue.
fn json_access(alloc: Global, h: Description) -> Result<String, AllocError>
    ensures { IfOk result (λ text. string_bytes text ≡ json_access h) }
{
    let access = access_letter(h.access);
    let rest = json_flag(alloc, h.nonblock)?;
    format!(in alloc; ",\"access\":\"{access}{rest}")
}

fn descriptor_json(alloc: Global, d: u32, h: Description) -> Result<String, AllocError>
    ensures { IfOk result (λ text. string_bytes text ≡ descriptor Json d (Some h)) }
{
    let queue = h.queue;
    let rest = json_access(alloc, h)?;
    format!(in alloc; "{{\"descriptor\":{d},\"queue\":{queue}{rest}")
}

fn descriptor_text(alloc: Global, d: u32, h: Description) -> Result<String, AllocError>
    ensures { IfOk result (λ text. string_bytes text ≡ descriptor Text d (Some h)) }
{
    let queue = h.queue;
    let (access, n) = (access_letter(h.access), n_if(h.nonblock));
    format!(in alloc; "  descriptor {d} queue {queue} {access}{n}\n")
}

/// A descriptor that a process holds.
pub(crate) fn descriptor(
    alloc: Global,
    form: Form,
    d: u32,
    held: Option<Description>,
) -> Result<String, AllocError>
    ensures { IfOk result (λ text. string_bytes text ≡ descriptor form d held) }
{
    match (form, held) {
        (_, None) => Ok(String::new(alloc)),
        (Form::Text, Some(h)) => descriptor_text(alloc, d, h),
        (Form::Json, Some(h)) => descriptor_json(alloc, d, h),
    }
}

/// A notice by its value.
pub(crate) fn notice(alloc: Global, form: Form, value: u64) -> Result<String, AllocError>
    ensures { IfOk result (λ text. string_bytes text ≡ notice form value) }
{
    match form {
        Form::Text => format!(in alloc; "  notice {value}\n"),
        Form::Json => format!(in alloc; "\"{value}\""),
    }
}

fn number_or_null(alloc: Global, number: Option<u64>) -> Result<String, AllocError>
    ensures { IfOk result (λ text. string_bytes text ≡ number_or_null number) }
{
    match number {
        None => String::from_str(alloc, "null"),
        Some(n) => format!(in alloc; "{n}"),
    }
}

/// The open wait of a process, and the entry that answers it.
pub(crate) fn wait(
    alloc: Global,
    form: Form,
    since: Option<u64>,
    by: Option<u64>,
) -> Result<String, AllocError>
    ensures { IfOk result (λ text. string_bytes text ≡ wait form since by) }
{
    match form {
        Form::Text => match (since, by) {
            (None, _) => String::from_str(alloc, "\n"),
            (Some(w), None) => format!(in alloc; " waits {w}\n"),
            (Some(w), Some(by)) => format!(in alloc; " waits {w} answered {by}\n"),
        },
        Form::Json => {
            let (since, by) = (number_or_null(alloc, since)?, number_or_null(alloc, by)?);
            format!(in alloc; ",\"wait\":{since},\"answered\":{by}")
        }
    }
}

/// The start of a process.
pub(crate) fn process_head(alloc: Global, form: Form, p: u32) -> Result<String, AllocError>
    ensures { IfOk result (λ text. string_bytes text ≡ process_head form p) }
{
    match form {
        Form::Text => {
            let caller = caller_text(alloc, p)?;
            format!(in alloc; "process {caller}")
        }
        Form::Json => format!(in alloc; "{{\"process\":{p}"),
    }
}

/// The start of a state.
pub(crate) fn state_head(alloc: Global, form: Form, len: u64) -> Result<String, AllocError>
    ensures { IfOk result (λ text. string_bytes text ≡ state_head form len) }
{
    match form {
        Form::Text => format!(in alloc; "after {len} entries\n"),
        Form::Json => format!(in alloc; "{{\"entries\":{len},\"queues\":"),
    }
}
