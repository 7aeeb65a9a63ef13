//! The registration on a queue, entry by entry.
ghost use Rattle.std.specs.Prelude.{◌≡◌, ◌≢◌, IsTrue, IsFalse, Some, None, ◌==◌, ◌&&◌, ◌||◌, ℕ, Bool, Option};
ghost use Rattle.mq_model.specs.Descriptors.{is_place};
ghost use Rattle.mq_model.specs.Notices.{registration_by, registration_of, notified, is_removal, removes, is_close_of, closes, ends, unless, registration_after, is_about_registrations};

use crate::callers::share;
use crate::entries::{Call, Entry, Registration, Reply};

fn registration_by(here: u64, p: u32, call: Call) -> Option<Registration>
    ensures { result ≡ registration_by here p call }
{
    match call {
        Call::MqNotify {
            d,
            value: Some(value),
        } => Some(Registration {
            place: here,
            process: p,
            d,
            value,
        }),
        _ => None,
    }
}

fn registration_of(here: u64, entry: Entry) -> Option<Registration>
    ensures { result ≡ registration_of here entry.process entry.call entry.reply }
{
    match entry.reply {
        Reply::Done => registration_by(here, entry.process, entry.call),
        _ => None,
    }
}

/// The place of the registration that a reply notified.
pub fn notified(reply: Reply) -> Option<u64>
    ensures { result ≡ notified reply }
{
    match reply {
        Reply::Queued { notified } => notified,
        Reply::Got {
            place: _,
            admitted: _,
            notified,
        } => notified,
        _ => None,
    }
}

fn is_removal(call: Call) -> bool
    ensures { result ≡ is_removal call }
{
    match call {
        Call::MqNotify { d: _, value: None } => true,
        _ => false,
    }
}

fn removes(entry: Entry) -> bool
    ensures { result ≡ removes entry.call entry.reply }
{
    match entry.reply {
        Reply::Done => is_removal(entry.call),
        _ => false,
    }
}

fn is_close_of(call: Call, d: u32) -> bool
    ensures { result ≡ is_close_of call d }
{
    match call {
        Call::MqClose { d: e } => e == d,
        _ => false,
    }
}

fn closes(entry: Entry, d: u32) -> bool
    ensures { result ≡ closes entry.call entry.reply d }
{
    match entry.reply {
        Reply::Done => is_close_of(entry.call, d),
        _ => false,
    }
}

fn is_notified(reply: Reply, place: u64) -> bool
    ensures { result ≡ is_place place (notified reply) }
{
    match notified(reply) {
        None => false,
        Some(k) => k == place,
    }
}

// Whether the entry ends the registration `n`. `on` says whether its call is made on the queue of
// `n`.
fn ends(on: bool, entry: Entry, n: Registration) -> bool
    ensures { result ≡ ends on entry n }
{
    is_notified(entry.reply, n.place)
        || ((removes(entry) && on || closes(entry, n.d)) && share(entry.process, n.process))
}

fn unless_ended(on: bool, entry: Entry, before: Option<Registration>) -> Option<Registration>
    ensures { result ≡ unless (ends on entry) before }
{
    match before {
        None => None,
        Some(n) => { if ends(on, entry, n) { None } else { Some(n) } }
    }
}

/// The registration on a queue after the entry at place `here`. `before` is the one before it, and
/// `on` says whether the entry's call is made on the queue.
pub fn registration_after(
    on: bool,
    here: u64,
    entry: Entry,
    before: Option<Registration>,
) -> Option<Registration>
    ensures { result ≡ registration_after on here entry before }
{
    match registration_of(here, entry) {
        Some(n) => {
            if on {
                Some(n)
            } else {
                unless_ended(on, entry, before)
            }
        }
        None => unless_ended(on, entry, before),
    }
}

fn is_about_registrations(call: Call) -> bool
    ensures { result ≡ is_about_registrations call }
{
    match call {
        Call::MqNotify { .. } | Call::MqClose { .. } => true,
        _ => false,
    }
}

/// Whether the entry changes a registration on any queue.
pub fn touches_registrations(entry: Entry) -> bool
    ensures none { IsFalse result → (on : Bool) (here : ℕ) (before : Option _) →
        registration_after on here entry before ≡ before }
    ensures some { IsTrue result → (on : Bool) × (here : ℕ) × (before : Option _) ×
        (registration_after on here entry before ≢ before) }
{
    match entry.reply {
        Reply::Done => is_about_registrations(entry.call),
        reply => notified(reply).is_some(),
    }
}
