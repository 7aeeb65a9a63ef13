//! The text of a picture.
ghost use Rattle.std.specs.Prelude.{◌≡◌, ◌≤◌, ◌<◌, ◌+◌, ◌-◌, ◌*◌, ◌++◌, ◌^◌, IfOk, IfSome, OnOk, length, string_bytes, take};
ghost use Rattle.mq_model.specs.Record.{first};
ghost use Rattle.journal_views.specs.Picture.{arrow_text, bar_text, column, ends_text, entries_text, flight_text, front_text, head_text, heads_text, kind, lane_text, last_text, left_out_text, line_down, mark_front, mark_text, name_front, name_text, note_text, number_text, picture_text, record_text};
ghost use Rattle.std.specs.List.{flat_map};

use crate::found::{count_left, name_by, processes};
use crate::label::{push_label, push_named};
use crate::shapes::{Flight, Frame, Stroke, arrow, bar_before, bar_of, height, hue, lane, row};
use journal_format::caller::caller_text;
use journal_format::line::line_of;
use journal_format::payload::payload_text;
use journal_format::reply::reply_text;
use mq_model::entries::{Entry, Reply};
use mq_model::journals::Journal;
use std::alloc::{AllocError, Global};

/// The maximum number of entries of a picture.
pub const MOST_ENTRIES: u64 = 2000;

/// The text in a picture of an empty journal.
const EMPTY: &[u8] = b"<text class=\"queue\" x=\"60\" y=\"12\">the journal is empty</text>\n";

/// The title, the colours, the arrowheads, one for each hue, and the legend.
const STYLE: &str = "<title>A journal of message queues</title>
<style>\
text{font:12px monospace}\
text.lane{text-anchor:middle;font-weight:bold;paint-order:stroke;stroke:#fff;stroke-width:4}\
text.queue{font-size:9px;fill:#777}\
line.lane{stroke:#ccc}\
line.wait{stroke:#f5b041;stroke-width:8;stroke-opacity:.5}\
line.message{stroke-width:1.5}\
g.call circle{fill:#333}\
g.waits circle{fill:#f5b041}\
g.notice circle{fill:#2471a3}\
g.refused{fill:#c0392b}\
</style>
<defs>
<marker id=\"tip0\" viewBox=\"0 0 8 8\" refX=\"10\" refY=\"4\" markerWidth=\"7\" markerHeight=\"7\" orient=\"auto\"><path d=\"M0 0L8 4L0 8z\" fill=\"hsl(0,80%,30%)\"/></marker>
<marker id=\"tip30\" viewBox=\"0 0 8 8\" refX=\"10\" refY=\"4\" markerWidth=\"7\" markerHeight=\"7\" orient=\"auto\"><path d=\"M0 0L8 4L0 8z\" fill=\"hsl(30,80%,30%)\"/></marker>
<marker id=\"tip60\" viewBox=\"0 0 8 8\" refX=\"10\" refY=\"4\" markerWidth=\"7\" markerHeight=\"7\" orient=\"auto\"><path d=\"M0 0L8 4L0 8z\" fill=\"hsl(60,80%,30%)\"/></marker>
<marker id=\"tip90\" viewBox=\"0 0 8 8\" refX=\"10\" refY=\"4\" markerWidth=\"7\" markerHeight=\"7\" orient=\"auto\"><path d=\"M0 0L8 4L0 8z\" fill=\"hsl(90,80%,30%)\"/></marker>
<marker id=\"tip120\" viewBox=\"0 0 8 8\" refX=\"10\" refY=\"4\" markerWidth=\"7\" markerHeight=\"7\" orient=\"auto\"><path d=\"M0 0L8 4L0 8z\" fill=\"hsl(120,80%,30%)\"/></marker>
<marker id=\"tip150\" viewBox=\"0 0 8 8\" refX=\"10\" refY=\"4\" markerWidth=\"7\" markerHeight=\"7\" orient=\"auto\"><path d=\"M0 0L8 4L0 8z\" fill=\"hsl(150,80%,30%)\"/></marker>
<marker id=\"tip180\" viewBox=\"0 0 8 8\" refX=\"10\" refY=\"4\" markerWidth=\"7\" markerHeight=\"7\" orient=\"auto\"><path d=\"M0 0L8 4L0 8z\" fill=\"hsl(180,80%,30%)\"/></marker>
<marker id=\"tip210\" viewBox=\"0 0 8 8\" refX=\"10\" refY=\"4\" markerWidth=\"7\" markerHeight=\"7\" orient=\"auto\"><path d=\"M0 0L8 4L0 8z\" fill=\"hsl(210,80%,30%)\"/></marker>
<marker id=\"tip240\" viewBox=\"0 0 8 8\" refX=\"10\" refY=\"4\" markerWidth=\"7\" markerHeight=\"7\" orient=\"auto\"><path d=\"M0 0L8 4L0 8z\" fill=\"hsl(240,80%,30%)\"/></marker>
<marker id=\"tip270\" viewBox=\"0 0 8 8\" refX=\"10\" refY=\"4\" markerWidth=\"7\" markerHeight=\"7\" orient=\"auto\"><path d=\"M0 0L8 4L0 8z\" fill=\"hsl(270,80%,30%)\"/></marker>
<marker id=\"tip300\" viewBox=\"0 0 8 8\" refX=\"10\" refY=\"4\" markerWidth=\"7\" markerHeight=\"7\" orient=\"auto\"><path d=\"M0 0L8 4L0 8z\" fill=\"hsl(300,80%,30%)\"/></marker>
<marker id=\"tip330\" viewBox=\"0 0 8 8\" refX=\"10\" refY=\"4\" markerWidth=\"7\" markerHeight=\"7\" orient=\"auto\"><path d=\"M0 0L8 4L0 8z\" fill=\"hsl(330,80%,30%)\"/></marker>
</defs>
<text class=\"queue\" x=\"60\" y=\"24\">time goes downwards, a lane is a process; a bar: a wait; an arrow: a message; red: an error; orange: a call that waits; blue: a notice</text>
";

/// A picture of a journal in SVG, with `count` entries from sequence number `from` on.
pub fn picture_of(
    alloc: Global,
    journal: &Journal,
    from: u64,
    count: u64,
) -> Result<Vec<u8>, AllocError>
    requires shown { from + count ≤ length journal.now.records }
    requires few { count ≤ 2000 }
    ensures { IfOk result (λ text. text.items ≡ picture_text journal.now.records from count) }
{
    let frame = Frame {
        processes: processes(alloc, journal)?,
        from,
        count,
    };
    let front = front_text(alloc, column(&frame.processes) + 740, height(count))?;
    let mut text = Vec::new(alloc);
    text.extend_from_slice(front.as_bytes())?;
    push_note(alloc, &mut text, journal, from, count)?;
    push_lanes(alloc, &mut text, journal, &frame)?;
    push_entries(alloc, &mut text, journal, &frame)?;
    text.extend_from_slice(b"</svg>\n")?;
    Ok(text)
}

// The start of a picture: its size, its colours, and the arrowheads.
#[tactic(auto, unfolding(crate::specs::Picture::front_text), using(crate::proofs::Styled::style_is))]
fn front_text(alloc: Global, width: u64, height: u64) -> Result<String, AllocError>
    ensures { IfOk result (λ text. string_bytes text ≡ front_text width height) }
{
    format!(in alloc;
        "<svg xmlns=\"http://www.w3.org/2000/svg\" width=\"{width}\" height=\"{height}\">\n{STYLE}"
    )
}

// Appends what is above the lanes: that the journal is empty, or how many entries are left out.
#[tactic(auto, unfolding(crate::specs::Picture::note_text))]
fn push_note(
    alloc: Global,
    text: &mut Vec<u8>,
    journal: &Journal,
    from: u64,
    count: u64,
) -> Result<(), AllocError>
    requires shown { from + count ≤ length journal.now.records }
    ensures { OnOk result (text.new.items ≡ text.old.items ++
        note_text journal.now.records from count) }
{
    if journal.len() == 0 {
        return text.extend_from_slice(EMPTY);
    }
    push_left_out(alloc, text, from, journal.len() - (from + count))
}

// Appends how many entries are left out, before those that are shown and after them.
#[tactic(auto, unfolding(crate::specs::Picture::left_out_text))]
fn push_left_out(
    alloc: Global,
    text: &mut Vec<u8>,
    before: u64,
    behind: u64,
) -> Result<(), AllocError>
    requires { before + behind < 2 ^ 64 }
    ensures { OnOk result (text.new.items ≡ text.old.items ++ left_out_text before behind) }
{
    if before + behind == 0 {
        return Ok(());
    }
    let line = format!(in alloc;
        "<text class=\"queue\" x=\"60\" y=\"12\">{before} entries before these are left out, and {behind} behind them</text>\n"
    )?;
    text.extend_from_slice(line.as_bytes())
}

// Appends the lanes.
fn push_lanes(
    alloc: Global,
    text: &mut Vec<u8>,
    journal: &Journal,
    frame: &Frame,
) -> Result<(), AllocError>
    requires shown { frame.now.from + frame.now.count ≤ length journal.now.records }
    requires few { frame.now.count ≤ 2000 }
    ensures { OnOk result (text.new.items ≡ text.old.items ++
        flat_map (lane_text journal.now.records frame.now.processes.items frame.now.from frame.now.count) frame.now.processes.items) }
{
    for p in &frame.processes {
        push_lane(alloc, text, journal, frame, *p)?;
    }
    Ok(())
}

// Appends the lane of a process.
#[tactic(auto, unfolding(crate::specs::Picture::lane_text))]
fn push_lane(
    alloc: Global,
    text: &mut Vec<u8>,
    journal: &Journal,
    frame: &Frame,
    p: u32,
) -> Result<(), AllocError>
    requires shown { frame.now.from + frame.now.count ≤ length journal.now.records }
    requires few { frame.now.count ≤ 2000 }
    ensures { OnOk result (text.new.items ≡ text.old.items ++
        lane_text journal.now.records frame.now.processes.items frame.now.from frame.now.count p) }
{
    let x = lane(&frame.processes, p);
    let line = line_down(alloc, x, height(frame.count))?;
    let number = number_text(alloc, &frame.processes, p)?;
    text.extend_from_slice(line.as_bytes())?;
    push_heads(
        alloc,
        text,
        x,
        &number,
        frame.count.saturating_sub(1) / 50 + 1,
    )?;
    push_bar(alloc, text, bar_before(journal, frame, p))
}

// The line of a lane.
#[tactic(auto, unfolding(crate::specs::Picture::line_down))]
fn line_down(alloc: Global, x: u64, down: u64) -> Result<String, AllocError>
    ensures { IfOk result (λ text. string_bytes text ≡ line_down x down) }
{
    format!(in alloc; "<line class=\"lane\" x1=\"{x}\" y1=\"30\" x2=\"{x}\" y2=\"{down}\"/>\n")
}

// The word of a caller.
fn number_text(alloc: Global, processes: &[u32], p: u32) -> Result<String, AllocError>
    ensures { IfOk result (λ text. string_bytes text ≡ number_text processes.now p) }
{
    if count_left(p, processes) < 40 {
        caller_text(alloc, p)
    } else {
        format!(in alloc; "others")
    }
}

// Appends the number of a process n times: before the first row, and before each fiftieth.
#[tactic(auto, using(crate::proofs::PictureSteps::heads_steps))]
fn push_heads(
    alloc: Global,
    text: &mut Vec<u8>,
    x: u64,
    number: &str,
    n: u64,
) -> Result<(), AllocError>
    requires { n ≤ 40 }
    ensures { OnOk result (text.new.items ≡ text.old.items ++ heads_text x number.now n) }
{
    for k in 0..n {
        let head = head_text(alloc, x, k * 816 + 48, number)?;
        text.extend_from_slice(head.as_bytes())?;
    }
    Ok(())
}

// A text in a lane, at these coordinates.
#[tactic(auto, unfolding(crate::specs::Picture::head_text))]
fn head_text(alloc: Global, x: u64, y: u64, number: &str) -> Result<String, AllocError>
    ensures { IfOk result (λ text. string_bytes text ≡ head_text x y number.now) }
{
    format!(in alloc; "<text class=\"lane\" x=\"{x}\" y=\"{y}\">{number}</text>\n")
}

// Appends the entries.
#[tactic(auto, using(crate::proofs::PictureSteps::entries_steps))]
fn push_entries(
    alloc: Global,
    text: &mut Vec<u8>,
    journal: &Journal,
    frame: &Frame,
) -> Result<(), AllocError>
    requires shown { frame.now.from + frame.now.count ≤ length journal.now.records }
    requires few { frame.now.count ≤ 2000 }
    ensures { OnOk result (text.new.items ≡ text.old.items ++
        entries_text journal.now.records frame.now.processes.items frame.now.from frame.now.count frame.now.count) }
{
    let _len = journal.len();
    for k in 0..frame.count {
        push_entry(alloc, text, journal, frame, frame.from + k)?;
    }
    Ok(())
}

// Appends entry `place`.
#[tactic(auto, unfolding(crate::specs::Picture::last_text), using(mq_model::proofs::Prefixes::prefixes))]
fn push_entry(
    alloc: Global,
    text: &mut Vec<u8>,
    journal: &Journal,
    frame: &Frame,
    place: u64,
) -> Result<(), AllocError>
    requires shown { frame.now.from + frame.now.count ≤ length journal.now.records }
    requires few { frame.now.count ≤ 2000 }
    requires place { place < frame.now.from + frame.now.count }
    ensures { OnOk result (text.new.items ≡ text.old.items ++
        last_text journal.now.records frame.now.processes.items frame.now.from frame.now.count
        (first (place + 1) journal.now.records)) }
{
    let (entry, payload) = journal.record(place);
    push_record(alloc, text, journal, frame, place, entry, payload)
}

// Appends an entry with its payload.
#[tactic(auto, unfolding(crate::specs::Picture::record_text))]
fn push_record(
    alloc: Global,
    text: &mut Vec<u8>,
    journal: &Journal,
    frame: &Frame,
    place: u64,
    entry: Entry,
    payload: &[u8],
) -> Result<(), AllocError>
    requires shown { frame.now.from + frame.now.count ≤ length journal.now.records }
    requires few { frame.now.count ≤ 2000 }
    requires place { place < frame.now.from + frame.now.count }
    ensures { OnOk result (text.new.items ≡ text.old.items ++
        record_text journal.now.records frame.now.processes.items frame.now.from frame.now.count
        place (record { entry = entry; payload = payload.now })) }
{
    let _len = journal.len();
    push_mark(alloc, text, frame, place, entry, payload)?;
    push_bar(alloc, text, bar_of(journal, frame, place, entry))?;
    push_arrow(alloc, text, journal, arrow(journal, frame, place, entry))
}

// Appends the mark of an entry.
#[tactic(auto, unfolding(crate::specs::Picture::mark_text))]
fn push_mark(
    alloc: Global,
    text: &mut Vec<u8>,
    frame: &Frame,
    place: u64,
    entry: Entry,
    payload: &[u8],
) -> Result<(), AllocError>
    requires { place - frame.now.from < 2 ^ 32 }
    ensures { OnOk result (text.new.items ≡ text.old.items ++
        mark_text frame.now.processes.items frame.now.from place (record { entry = entry; payload = payload.now })) }
{
    let front = mark_front(
        alloc,
        column(&frame.processes),
        lane(&frame.processes, entry.process),
        row(frame.from, place),
        entry.reply,
    )?;
    let line = line_of(alloc, place, entry, payload)?;
    let reply = reply_text(alloc, &entry.reply)?;
    text.extend_from_slice(front.as_bytes())?;
    push_label(text, line.as_bytes(), reply.as_bytes())?;
    text.extend_from_slice(b"</text></g>\n")
}

// The x coordinate of the texts of the entries.
fn column(processes: &[u32]) -> u64
    ensures column { result ≡ column processes.now }
    ensures bound { result < 2 ^ 40 }
{
    (processes.len().min(41) as u64 + 1) * 60
}

// The start of a mark at a point, whose text begins at `column`.
#[tactic(auto, unfolding(crate::specs::Picture::mark_front))]
fn mark_front(
    alloc: Global,
    column: u64,
    x: u64,
    y: u64,
    reply: Reply,
) -> Result<String, AllocError>
    requires { y < 2 ^ 40 }
    ensures { IfOk result (λ text. string_bytes text ≡ mark_front column x y reply) }
{
    let kind = kind(reply);
    let down = y + 4;
    format!(in alloc;
        "<g class=\"{kind}\"><circle cx=\"{x}\" cy=\"{y}\" r=\"4\"/><text x=\"{column}\" y=\"{down}\">"
    )
}

// The kind of a mark.
fn kind(reply: Reply) -> &'static str
    ensures { result.now ≡ kind reply }
{
    match reply {
        Reply::Refused(_) => "refused",
        Reply::Waits => "waits",
        Reply::Notice(_) => "notice",
        _ => "call",
    }
}

// The end points of a line.
#[tactic(auto, unfolding(crate::specs::Picture::ends_text))]
fn ends_text(alloc: Global, stroke: Stroke) -> Result<String, AllocError>
    ensures { IfOk result (λ text. string_bytes text ≡ ends_text stroke) }
{
    let Stroke { x1, y1, x2, y2 } = stroke;
    format!(in alloc; "x1=\"{x1}\" y1=\"{y1}\" x2=\"{x2}\" y2=\"{y2}\"")
}

// Appends the bar of a wait, if there is one.
#[tactic(auto, unfolding(crate::specs::Picture::bar_text))]
fn push_bar(alloc: Global, text: &mut Vec<u8>, bar: Option<Stroke>) -> Result<(), AllocError>
    ensures { OnOk result (text.new.items ≡ text.old.items ++ bar_text bar) }
{
    match bar {
        None => Ok(()),
        Some(stroke) => {
            let ends = ends_text(alloc, stroke)?;
            let line = format!(in alloc; "<line class=\"wait\" {ends}/>\n")?;
            text.extend_from_slice(line.as_bytes())
        }
    }
}

// Appends the arrow of a message, if there is one, and at its start the name of its queue.
#[tactic(auto, unfolding(crate::specs::Picture::arrow_text))]
fn push_arrow(
    alloc: Global,
    text: &mut Vec<u8>,
    journal: &Journal,
    arrow: Option<Flight>,
) -> Result<(), AllocError>
    requires sent { IfSome arrow (λ flight. flight.sent ≤ length journal.now.records) }
    requires near { IfSome arrow (λ flight. flight.stroke.x1 < 2 ^ 40) }
    ensures { OnOk result (text.new.items ≡ text.old.items ++
        arrow_text journal.now.records arrow) }
{
    let Some(flight) = arrow else {
        return Ok(());
    };
    let Flight {
        stroke,
        sender,
        sent,
    } = flight;
    let line = flight_text(alloc, stroke, hue(sender.call))?;
    text.extend_from_slice(line.as_bytes())?;
    let name = name_by(journal, sent, sender.process, sender.call);
    push_name(alloc, text, stroke.x1, stroke.y1, name)
}

// An arrow in a hue.
#[tactic(auto, unfolding(crate::specs::Picture::flight_text))]
fn flight_text(alloc: Global, stroke: Stroke, hue: u32) -> Result<String, AllocError>
    ensures { IfOk result (λ text. string_bytes text ≡ flight_text stroke hue) }
{
    let ends = ends_text(alloc, stroke)?;
    format!(in alloc;
        "<line class=\"message\" stroke=\"hsl({hue},80%,30%)\" {ends} marker-end=\"url(#tip{hue})\"/>\n"
    )
}

// The start of the name of a queue, beside this point.
#[tactic(auto, unfolding(crate::specs::Picture::name_front))]
fn name_front(alloc: Global, x: u64, y: u64) -> Result<String, AllocError>
    requires { x < 2 ^ 40 }
    ensures { IfOk result (λ text. string_bytes text ≡ name_front x y) }
{
    let (right, up) = (x + 6, y.saturating_sub(3));
    format!(in alloc; "<text class=\"queue\" x=\"{right}\" y=\"{up}\">")
}

// Appends the name of a queue beside this point.
#[tactic(auto, unfolding(crate::specs::Picture::name_text))]
fn push_name(
    alloc: Global,
    text: &mut Vec<u8>,
    x: u64,
    y: u64,
    name: &[u8],
) -> Result<(), AllocError>
    requires { x < 2 ^ 40 }
    ensures { OnOk result (text.new.items ≡ text.old.items ++ name_text x y name.now) }
{
    let front = name_front(alloc, x, y)?;
    let quoted = payload_text(alloc, name)?;
    text.extend_from_slice(front.as_bytes())?;
    push_named(text, first_bytes(quoted.as_bytes(), 26))?;
    text.extend_from_slice(b"</text>\n")
}

// The first bytes, at most `most`.
fn first_bytes(bytes: &[u8], most: usize) -> &[u8]
    ensures { result.now ≡ take most bytes.now }
{
    if bytes.len() <= most {
        bytes
    } else {
        &bytes[..most]
    }
}
