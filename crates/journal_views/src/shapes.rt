//! The shapes that a picture shows for an entry, besides its mark.
ghost use Rattle.std.specs.Prelude.{◌≡◌, ◌≤◌, ◌<◌, ◌+◌, ◌-◌, ◌^◌, length, IfSome};
ghost use Rattle.std.specs.Option.{OnSome};
ghost use Rattle.journal_views.specs.Shapes.{arrow, arrow_got, arrow_handed, bar, bar_before, bar_of, depth, entry_before, height, hue, lane, row};

use crate::found::{count_left, ending, wait_begun};
use mq_model::entries::{Call, Entry, Reply};
use mq_model::journals::Journal;

/// The part of a journal that a picture shows, and the processes that have lanes.
#[derive(Drop)]
pub struct Frame {
    pub processes: Vec<u32>,
    pub from: u64,
    pub count: u64,
}

/// A straight line of a picture.
#[derive(Clone, Copy, PartialEq, Eq)]
pub struct Stroke {
    pub x1: u64,
    pub y1: u64,
    pub x2: u64,
    pub y2: u64,
}

/// The arrow of a message, whose send has the sequence number `sent`.
#[derive(Clone, Copy, PartialEq, Eq)]
pub struct Flight {
    pub stroke: Stroke,
    pub sender: Entry,
    pub sent: u64,
}

/// The x coordinate of the lane of a process.
pub fn lane(processes: &[u32], p: u32) -> u64
    ensures lane { result ≡ lane processes.now p }
    ensures bound { result < 2 ^ 40 }
{
    (count_left(p, processes).min(40) as u64 + 1) * 60
}

/// The y coordinate of the k-th entry shown.
pub fn depth(k: u64) -> u64
    requires { k < 2 ^ 32 }
    ensures depth { result ≡ depth k }
    ensures bound { result < 2 ^ 40 }
{
    (k + k / 50) * 16 + 60
}

/// The y coordinate of entry `place`, in a picture that starts with entry `from`.
pub fn row(from: u64, place: u64) -> u64
    requires { place - from < 2 ^ 32 }
    ensures row { result ≡ row from place }
    ensures bound { result < 2 ^ 40 }
{
    if place < from {
        30
    } else {
        depth(place - from)
    }
}

/// The lower edge of a picture of `count` entries.
pub fn height(count: u64) -> u64
    requires { count < 2 ^ 32 }
    ensures { result ≡ height count }
{
    depth(count) + 20
}

// The entry at the place `other`, if that is before `place`.
#[tactic(auto, unfolding(crate::specs::Shapes::entry_before))]
fn entry_before(journal: &Journal, place: u64, other: u64) -> Option<Entry>
    ensures entry { result ≡ entry_before journal.now.records place other }
    ensures before { OnSome result (other < place) }
{
    if other < place {
        journal.entry(other)
    } else {
        None
    }
}

// The bar of a wait of process p.
fn bar(journal: &Journal, frame: &Frame, p: u32, wait: u64) -> Option<Stroke>
    requires shown { frame.now.from + frame.now.count ≤ length journal.now.records }
    requires few { frame.now.count ≤ 2000 }
    requires wait { wait < frame.now.from + frame.now.count }
    ensures { result ≡ bar journal.now.records frame.now.processes.items frame.now.from
        frame.now.count p wait }
{
    let _len = journal.len();
    let x = lane(&frame.processes, p);
    let y1 = row(frame.from, wait);
    let y2 = match ending(journal, wait, frame.from + frame.count) {
        None => height(frame.count),
        Some(end) => {
            if end < frame.from {
                return None;
            }
            row(frame.from, end)
        }
    };
    Some(Stroke {
        x1: x,
        y1,
        x2: x,
        y2,
    })
}

/// The bar of the wait that an entry begins.
pub fn bar_of(journal: &Journal, frame: &Frame, place: u64, entry: Entry) -> Option<Stroke>
    requires shown { frame.now.from + frame.now.count ≤ length journal.now.records }
    requires few { frame.now.count ≤ 2000 }
    requires place { place < frame.now.from + frame.now.count }
    ensures { result ≡ bar_of journal.now.records frame.now.processes.items frame.now.from
        frame.now.count place entry }
{
    match entry.reply {
        Reply::Waits => bar(journal, frame, entry.process, place),
        _ => None,
    }
}

/// The bar of the wait that a process is in when the picture starts.
pub fn bar_before(journal: &Journal, frame: &Frame, p: u32) -> Option<Stroke>
    requires shown { frame.now.from + frame.now.count ≤ length journal.now.records }
    requires few { frame.now.count ≤ 2000 }
    ensures { result ≡ bar_before journal.now.records frame.now.processes.items frame.now.from
        frame.now.count p }
{
    let _len = journal.len();
    let wait = wait_begun(journal, frame.from, p)?;
    bar(journal, frame, p, wait)
}

/// The hue of a message, by its priority.
pub fn hue(call: Call) -> u32
    ensures { result ≡ hue call }
{
    call.priority() % 12 * 30
}

/// The arrow of the message that an entry receives or hands over.
pub fn arrow(journal: &Journal, frame: &Frame, place: u64, entry: Entry) -> Option<Flight>
    requires { place - frame.now.from < 2 ^ 32 }
    ensures arrow { result ≡ arrow journal.now.records frame.now.processes.items frame.now.from
        place entry }
    ensures before { IfSome result (λ flight. flight.sent ≤ place) }
    ensures near { IfSome result (λ flight. flight.stroke.x1 < 2 ^ 40) }
{
    match entry.reply {
        Reply::Got { place: sent, .. } => arrow_got(journal, frame, place, entry, sent),
        Reply::Handed { wait } => arrow_handed(journal, frame, place, entry, wait),
        _ => None,
    }
}

// The arrow of a message that was received: from its send.
fn arrow_got(
    journal: &Journal,
    frame: &Frame,
    place: u64,
    entry: Entry,
    sent: u64,
) -> Option<Flight>
    requires { place - frame.now.from < 2 ^ 32 }
    ensures arrow { result ≡ arrow_got journal.now.records frame.now.processes.items frame.now.from
        place entry sent }
    ensures before { IfSome result (λ flight. flight.sent ≤ place) }
    ensures near { IfSome result (λ flight. flight.stroke.x1 < 2 ^ 40) }
{
    let sender = entry_before(journal, place, sent)?;
    let stroke = Stroke {
        x1: lane(&frame.processes, sender.process),
        y1: row(frame.from, sent),
        x2: lane(&frame.processes, entry.process),
        y2: row(frame.from, place),
    };
    Some(Flight {
        stroke,
        sender,
        sent,
    })
}

// The arrow of a message that was handed to a waiting receive: to its lane.
fn arrow_handed(
    journal: &Journal,
    frame: &Frame,
    place: u64,
    entry: Entry,
    wait: u64,
) -> Option<Flight>
    requires { place - frame.now.from < 2 ^ 32 }
    ensures arrow { result ≡ arrow_handed journal.now.records frame.now.processes.items
        frame.now.from place entry wait }
    ensures before { IfSome result (λ flight. flight.sent ≤ place) }
    ensures near { IfSome result (λ flight. flight.stroke.x1 < 2 ^ 40) }
{
    let receiver = entry_before(journal, place, wait)?;
    let y = row(frame.from, place);
    let stroke = Stroke {
        x1: lane(&frame.processes, entry.process),
        y1: y,
        x2: lane(&frame.processes, receiver.process),
        y2: y,
    };
    Some(Flight {
        stroke,
        sender: entry,
        sent: place,
    })
}
