//! The template of a page, which `tools/template` writes.

/// What stands before the lines that name threads.
pub static FRONT: &str = r###"<!DOCTYPE html>
<html lang="en">
<head>
<meta charset="utf-8">
<meta name="viewport" content="width=device-width, initial-scale=1">
<meta http-equiv="Content-Security-Policy" content="default-src 'none'; style-src 'unsafe-inline';
 script-src 'unsafe-inline'">
<title>A journal of message queues</title>
<style>
:root {
  color-scheme: light;
  --back: #fdfdfb; --panel: #f1f1ec; --text: #1c1c1c; --faint: #6a6a6a; --line: #d4d4ce;
  --chosen: #cfe3f7; --wait: #f3c667; --message: #7a8793; --story: #7c2fb0; --cross: #b3231a;
  --ring: #8a5a00; --up: #1d5f9e; --down: #1b7a3d; --diamond: #7c2fb0; --new: #dff0d8;
  --gone: #f6d9d5;
}
:root[data-theme="dark"] {
  color-scheme: dark;
  --back: #16181b; --panel: #212429; --text: #e8e8e4; --faint: #a0a4aa; --line: #3a3f46;
  --chosen: #2b4157; --wait: #7a5a14; --message: #8f9ba7; --story: #cf9bf2; --cross: #ff8478;
  --ring: #f0c060; --up: #7cbcf5; --down: #7ad79b; --diamond: #cf9bf2; --new: #23402a;
  --gone: #522a26;
}
* { box-sizing: border-box; }
body {
  margin: 0; height: 100vh; display: flex; flex-direction: column;
  background: var(--back); color: var(--text); font: 14px/1.45 sans-serif;
}
header { display: flex; flex-wrap: wrap; gap: 6px 12px; align-items: center; padding: 6px 10px;
  background: var(--panel); border-bottom: 1px solid var(--line); }
header strong { margin-right: 6px; }
button, select, input { font: inherit; color: inherit; background: var(--back);
  border: 1px solid var(--line); border-radius: 3px; padding: 1px 6px; }
button:focus-visible, select:focus-visible, input:focus-visible, canvas:focus-visible {
  outline: 2px solid var(--up); outline-offset: 1px; }
#picture { max-height: 46vh; overflow-y: auto; border-bottom: 1px solid var(--line); flex: none; }
canvas { display: block; width: 100%; cursor: crosshair; touch-action: pan-y; }
#said { position: absolute; width: 1px; height: 1px; margin: 0; overflow: hidden;
  clip-path: inset(50%); white-space: nowrap; }
#legend, #note { color: var(--faint); padding: 2px 10px; flex: none; }
main { display: grid; grid-template-columns: 1fr 1fr; gap: 0 18px; padding: 8px 12px;
  overflow: auto; flex: 1; align-content: start; }
#findings { grid-column: 1 / -1; background: var(--panel); padding: 2px 10px 0; margin-bottom: 8px; }
[hidden] { display: none !important; }
summary { cursor: pointer; }
h2 { font-size: 15px; margin: 6px 0 4px; }
code, .line { font-family: monospace; overflow-wrap: anywhere; }
.line { background: var(--panel); padding: 4px 8px; border-left: 4px solid var(--up); }
.line.error { border-left-color: var(--cross); }
table { border-collapse: collapse; width: 100%; table-layout: fixed; }
th { text-align: left; font-weight: normal; color: var(--faint); }
td { vertical-align: top; font-family: monospace; font-size: 13px; padding: 0 6px;
  white-space: pre-wrap; overflow-wrap: anywhere; border-left: 1px solid var(--line); }
td.gone { background: var(--gone); }
td.new { background: var(--new); }
ol, ul { margin: 2px 0 8px; padding-left: 22px; }
ul { list-style: none; padding-left: 0; }
a { color: var(--up); cursor: pointer; text-decoration: underline; }
.grave { font-weight: bold; color: var(--cross); }
@media (max-width: 900px) { main { grid-template-columns: 1fr; } }
</style>
</head>
<body>
<header>
<strong id="title"></strong>
<span><button id="back" title="the entry before (left)">&#9664; back</button>
<button id="on" title="the next entry (right)">next &#9654;</button></span>
<span><button id="out" title="show more (-)">&minus; zoom out</button>
<button id="in" title="show less (+)">+ zoom in</button></span>
<label>process <select id="process"></select></label>
<label>queue <select id="queue"></select></label>
<label>call <select id="call"></select></label>
<label><input type="checkbox" id="errors"> errors alone</label>
<label><input type="checkbox" id="timed"> by time</label>
<label>find <input id="find" size="14" placeholder="text of a line"></label>
<button id="theme">dark or light</button>
</header>
<div id="picture"><canvas tabindex="0" aria-label="the calls of each process, in order"></canvas></div>
<p id="said" aria-live="polite"></p>
<div id="legend">order goes to the right, or by time; an arrow is a message, from its send to what took it;
under a send: its priority and message | &#9650; send &nbsp; &#9660; receive &nbsp; &#9711; waits, and
the striped bar until it is served &nbsp; &#10007; error &nbsp; &#9670; notify or notice &nbsp; &#9686;
collect or withdraw &nbsp; &#9632; other | left and right: step, with Shift in the same lane; + and -,
or Ctrl and the wheel: zoom; drag: move; /: find; n: next found; e: next error</div>
<div id="note"></div>
<main><section id="findings"></section><section id="entry"></section><section id="state"></section>
</main>
<pre id="threads" hidden>
"###;

/// What stands between them and the lines of a journal.
pub static HEAD: &str = r###"</pre>
<pre id="journal" hidden>
"###;

/// What stands behind the journal.
pub static TAIL: &str = r###"</pre>
<script>
"use strict";

// What a journal says: its entries, and the state of the queues after each of them.
const SENDS = new Set(["send", "tsend"]);
const RECEIVES = new Set(["recv", "trecv"]);
const FIRST_BYTES = 24;

// Callers 1 to 32 are the first threads of the processes 1 to 32, and caller o + 32 t is another
// thread of process o.
const PROCESSES = 32;

function ownerOf(caller) {
  return caller <= PROCESSES ? caller : (caller - 1) % PROCESSES + 1;
}

// The caller that a word of a journal means: `3`, or `3.2` for the second thread of process 3.
function callerOf(word) {
  const [process, thread = "1"] = word.split(".");
  return Number(process) + PROCESSES * (Number(thread) - 1);
}

// Whether two callers are threads of one process.
function share(a, b) {
  return ownerOf(a) === ownerOf(b);
}

// The word of a caller.
function callerWord(caller) {
  const thread = Math.floor((caller - 1) / PROCESSES) + 1;
  return caller <= PROCESSES ? `${caller}` : `${ownerOf(caller)}.${thread}`;
}

// The order of lanes: processes by rising number, the threads of one beside each other.
function byLane(a, b) {
  return ownerOf(a) - ownerOf(b) || a - b;
}

// The entry that a line of a journal has. The payload stays as it is written.
function entryOf(line) {
  const words = line.split(" ");
  const arrow = words.indexOf("->", 3);
  const quoted = words[arrow - 1].startsWith('"') && arrow > 3;
  return {
    place: Number(words[0]),
    process: callerOf(words[1]),
    call: words[2],
    given: words.slice(3, quoted ? arrow - 1 : arrow),
    payload: quoted ? words[arrow - 1].slice(1, -1) : "",
    reply: words[arrow + 1],
    got: words.slice(arrow + 2),
    line,
  };
}

// What a page shows: the state before its entries, in the first line, or null if none is known; and
// the entries. Or, if the first line is the answer of `mqlog judge`, that, and the journal that
// explains a history, or the prefix that none explains.
function pageOf(text) {
  const at = text.indexOf("\n");
  const [first, rest] = [text.slice(0, at), text.slice(at + 1)];
  if (first.startsWith("possible: ")) {
    return { said: first, before: null, entries: entriesOf(rest) };
  }
  if (/^(impossible|undecided): /.test(first)) return { said: first, calls: callsOf(rest) };
  return { before: JSON.parse(first), entries: entriesOf(rest) };
}

// Notes the thread and the step of each entry, by lines PLACE THREAD STEP. Lines `step TEXT` are the
// steps of the run, and lines `end TEXT` say how it ended. It returns these.
function noteThreads(entries, text) {
  const start = entries.length > 0 ? entries[0].place : 0;
  const found = { steps: [], ends: [] };
  for (const line of text.split("\n")) {
    const words = /^(\d+) (\d+) (\d+)$/.exec(line);
    const told = /^(step|end) (.*)$/.exec(line);
    const entry = words && entries[Number(words[1]) - start];
    if (entry) Object.assign(entry, { thread: Number(words[2]), step: Number(words[3]) });
    if (told) (told[1] === "end" ? found.ends : found.steps).push(told[2].trimEnd());
  }
  return found;
}

// The time that a call says: that of its clock, in milliseconds, or null.
function momentOf(entry) {
  const at = entry.given.lastIndexOf("at");
  return at < 0 ? null : Number(entry.given[at + 1]) * 1000 + Number(entry.given[at + 2]) / 1e6;
}

// The time of each entry, in milliseconds from the first that is known: the latest time that it or
// an entry before it says. Null if no two entries say different times.
function timesOf(entries) {
  const times = new Float64Array(entries.length);
  let [first, last] = [null, null];
  entries.forEach((it, i) => {
    const moment = momentOf(it);
    if (moment !== null && first === null) first = moment;
    if (moment !== null) last = last === null ? moment : Math.max(last, moment);
    times[i] = last === null ? 0 : last - first;
  });
  return last === first ? null : times;
}

function entriesOf(text) {
  return text.split("\n").filter((line) => line !== "").map(entryOf);
}

// The number that follows a word of a reply, as in "admitted 7".
function named(entry, word) {
  const at = entry.got.indexOf(word);
  return at < 0 ? null : Number(entry.got[at + 1]);
}

// The message that an entry takes: the place of its send.
function taken(entry) {
  if (entry.reply === "got") return Number(entry.got[0]);
  return entry.reply === "handed" ? entry.place : null;
}

// The wait that an entry ends.
function endedWait(entry) {
  if (entry.reply === "handed" || entry.reply === "withdrawn") return Number(entry.got[0]);
  return named(entry, "admitted");
}

function isError(entry) {
  return /^[A-Z]/.test(entry.reply);
}

// What a message brings to a list of messages.
function messageOf(entry) {
  return {
    place: entry.place,
    process: entry.process,
    priority: Number(entry.given[1]),
    length: Number(entry.given[2]),
    text: firstBytes(entry.payload),
  };
}

// The first bytes of a payload, as they are written.
function firstBytes(payload) {
  const bytes = payload.match(/%[0-9A-F]{2}|[^%]/g) || [];
  return bytes.slice(0, FIRST_BYTES).join("");
}

function emptyState() {
  return { entries: 0, queues: new Map(), processes: new Map() };
}

// Bytes that are written as hexadecimal digits, as a journal writes them.
function textOf(bytes) {
  const escaped = (it) => {
    const b = parseInt(it, 16);
    return b > 32 && b < 127 && b !== 37 ? String.fromCharCode(b) : `%${it.toUpperCase()}`;
  };
  return (bytes.match(/../g) || []).map(escaped).join("");
}

// The same the other way round.
function bytesOf(text) {
  const digits = (it) =>
    it.length === 3 ? it.slice(1).toLowerCase() : it.charCodeAt(0).toString(16);
  return (text.match(/%[0-9A-F]{2}|[^%]/g) || []).map(digits).join("");
}

// The state that `mqlog state --json` has written.
function stateOf(json) {
  const state = emptyState();
  const sent = ({ bytes, ...it }) => ({ ...it, text: textOf(bytes) });
  state.entries = json.entries;
  for (const it of json.queues) {
    const lists = { messages: it.messages.map(sent), senders: it.senders.map(sent) };
    state.queues.set(it.queue, { ...it, ...lists });
  }
  for (const it of json.processes) {
    const held = new Map(it.descriptors.map((h) => [h.descriptor, h]));
    const { wait, answered, notices } = it;
    const own = ownOf(state, it.process) || { held, notices };
    state.processes.set(it.process, { process: it.process, wait, answered, own });
  }
  return state;
}

function copyOf(state) {
  const queues = new Map();
  for (const [q, it] of state.queues) {
    const lists = { messages: [...it.messages], senders: [...it.senders] };
    queues.set(q, { ...it, ...lists, receivers: [...it.receivers] });
  }
  const owned = new Map();
  const processes = new Map();
  for (const [p, it] of state.processes) {
    const owner = ownerOf(p);
    if (!owned.has(owner)) {
      owned.set(owner, { held: new Map(it.own.held), notices: [...it.own.notices] });
    }
    processes.set(p, { ...it, own: owned.get(owner) });
  }
  return { entries: state.entries, queues, processes };
}

// What the threads of a caller's process have together: descriptors and notices. Undefined if none
// of them has called.
function ownOf(state, p) {
  for (const it of state.processes.values()) {
    if (ownerOf(it.process) === ownerOf(p)) return it.own;
  }
  return undefined;
}

// The callers in the order of their lanes.
function callersOf(state) {
  return [...state.processes.values()].sort((a, b) => byLane(a.process, b.process));
}

// A caller: its wait, and what its process has.
function processOf(state, p) {
  if (!state.processes.has(p)) {
    const own = ownOf(state, p) || { held: new Map(), notices: [] };
    state.processes.set(p, { process: p, wait: null, answered: null, own });
  }
  return state.processes.get(p);
}

function boundQueue(state, name) {
  for (const it of state.queues.values()) {
    if (it.named && it.name === name) return it;
  }
  return null;
}

// Takes what has this place out of a list.
function removePlace(list, place) {
  const at = list.findIndex((it) => it.place === place);
  if (at >= 0) list.splice(at, 1);
}

// Adds a message where it will be received: by priority, then by the place of its send.
function addMessage(queue, message) {
  const first = (it) => it.priority > message.priority ||
    (it.priority === message.priority && it.place < message.place);
  let at = queue.messages.length;
  while (at > 0 && !first(queue.messages[at - 1])) at -= 1;
  queue.messages.splice(at, 0, message);
}

// Lets queues go that have no name and that nobody holds.
function forget(state) {
  const held = new Set();
  for (const it of state.processes.values()) {
    for (const h of it.own.held.values()) held.add(h.queue);
  }
  for (const [q, it] of state.queues) {
    if (!it.named && !held.has(q)) state.queues.delete(q);
  }
}

function followOpen(state, entry, process) {
  const d = Number(entry.got[0]);
  let queue = boundQueue(state, entry.payload);
  if (entry.got[1] === "created") {
    const at = entry.given.indexOf("limits");
    const [maxmsg, msgsize] = at < 0 ? ["10", "8192"] : entry.given.slice(at + 1);
    queue = {
      queue: entry.place, name: entry.payload, named: true, maxmsg, msgsize,
      messages: [], senders: [], receivers: [], registration: null,
    };
    state.queues.set(entry.place, queue);
  }
  const flags = entry.given[0];
  process.own.held.set(d, {
    descriptor: d, queue: queue ? queue.queue : 0, access: flags[0], nonblock: flags.includes("n"),
  });
}

function followClose(state, entry, process) {
  const d = Number(entry.given[0]);
  process.own.held.delete(d);
  for (const it of state.queues.values()) {
    const n = it.registration;
    if (n && share(n.process, entry.process) && n.descriptor === d) it.registration = null;
  }
  forget(state);
}

function followUnlink(state, entry) {
  const queue = boundQueue(state, entry.payload);
  if (queue) queue.named = false;
  forget(state);
}

function followNotify(entry, queue) {
  const value = entry.given[1];
  if (value !== "-") {
    const descriptor = Number(entry.given[0]);
    queue.registration = { place: entry.place, process: entry.process, descriptor, value };
  } else if (queue.registration && share(queue.registration.process, entry.process)) {
    queue.registration = null;
  }
}

// The registration that a reply notified becomes a notice of its process.
function followNotice(state, entry, queue) {
  const place = named(entry, "notified");
  if (place === null || !queue.registration || queue.registration.place !== place) return;
  processOf(state, queue.registration.process).own.notices.push(queue.registration.value);
  queue.registration = null;
}

function answer(state, place, by) {
  for (const it of state.processes.values()) {
    if (it.wait === place) it.answered = by;
  }
}

function followMessages(state, entry, queue) {
  const message = taken(entry);
  if (message !== null) removePlace(queue.messages, message);
  const wait = endedWait(entry);
  if (wait === null) return;
  const sender = queue.senders.find((it) => it.place === wait);
  if (sender && entry.reply === "got") addMessage(queue, sender);
  removePlace(queue.senders, wait);
  removePlace(queue.receivers, wait);
  if (entry.reply !== "withdrawn") answer(state, wait, entry.place);
}

function followWait(entry, process, queue) {
  process.wait = entry.place;
  if (!queue) return;
  if (SENDS.has(entry.call)) queue.senders.push(messageOf(entry));
  else queue.receivers.push({ place: entry.place, process: entry.process });
}

// The queue that an entry is made on, by the state before it.
function queueOf(state, entry) {
  if (entry.call === "withdraw" || entry.call === "collect") {
    const { wait } = state.processes.get(entry.process) || { wait: null };
    for (const it of state.queues.values()) {
      if ([...it.senders, ...it.receivers].some((w) => w.place === wait)) return it;
    }
    return null;
  }
  const own = ownOf(state, entry.process);
  const h = own && own.held.get(Number(entry.given[0]));
  return entry.call === "open" || !h ? null : state.queues.get(h.queue) || null;
}

// Goes on from the state before an entry to the one after it.
function follow(state, entry) {
  const queue = queueOf(state, entry);
  const process = processOf(state, entry.process);
  process.wait = null;
  process.answered = null;
  state.entries += 1;
  if (entry.reply === "fd") followOpen(state, entry, process);
  else if (entry.reply === "waits") followWait(entry, process, queue);
  else if (entry.reply === "attr") followAttributes(entry, process);
  else if (entry.reply === "notice") followGiven(entry, process);
  else if (entry.reply === "ok") followDone(state, entry, process, queue);
  else if (queue) {
    followMessages(state, entry, queue);
    if (entry.reply === "queued") addMessage(queue, messageOf(entry));
    followNotice(state, entry, queue);
  }
}

function followDone(state, entry, process, queue) {
  if (entry.call === "close") followClose(state, entry, process);
  else if (entry.call === "unlink") followUnlink(state, entry);
  else if (entry.call === "notify" && queue) followNotify(entry, queue);
}

function followAttributes(entry, process) {
  const d = Number(entry.given[0]);
  const h = process.own.held.get(d);
  if (entry.call !== "setattr" || !h) return;
  process.own.held.set(d, { ...h, nonblock: entry.given[1] === "1" });
}

function followGiven(entry, process) {
  if (entry.got[0] !== "none") process.own.notices.shift();
}

// How many entries there are at least between two copies of a state, and how many of its messages
// count as one entry: a copy of a long state is dear, and few of them are kept.
const LEAST_APART = 50;
const MESSAGES_AN_ENTRY = 32;

function messagesIn(state) {
  return [...state.queues.values()].reduce((sum, it) => sum + it.messages.length, 0);
}

// The states of a journal: copies of some are kept, and the others are computed from these.
class States {
  constructor(entries, before) {
    this.entries = entries;
    this.kept = [];
    // The number of entries before each copy.
    this.places = [];
    const state = before ? stateOf(before) : emptyState();
    if (!before && entries.length > 0) state.entries = entries[0].place;
    // The queue of each entry, and the names of all queues.
    this.queues = [];
    this.names = new Map([...state.queues].map(([q, it]) => [q, it.name]));
    const least = Math.max(LEAST_APART, Math.ceil(entries.length / 2000));
    for (let k = 0, next = 0; k <= entries.length; k += 1) {
      if (k >= next) {
        this.kept.push(copyOf(state));
        this.places.push(k);
        next = k + Math.max(least, Math.ceil(messagesIn(state) / MESSAGES_AN_ENTRY));
      }
      if (k < entries.length) this.note(state, entries[k]);
    }
  }

  note(state, entry) {
    const before = queueOf(state, entry);
    follow(state, entry);
    const { held } = state.processes.get(entry.process).own;
    const opened = entry.reply === "fd" ? held.get(Number(entry.got[0])) : null;
    const queue = opened ? state.queues.get(opened.queue) : before;
    if (queue) this.names.set(queue.queue, queue.name);
    this.queues.push(queue ? queue.queue : null);
  }

  // The state before the k-th entry of the page.
  at(k) {
    let [low, high] = [0, this.places.length];
    while (high - low > 1) {
      const middle = Math.floor((low + high) / 2);
      if (this.places[middle] <= k) low = middle;
      else high = middle;
    }
    const state = copyOf(this.kept[low]);
    for (let i = this.places[low]; i < k; i += 1) follow(state, this.entries[i]);
    return state;
  }
}

function quoted(text) {
  return `"${text.replace(/["\\]/g, "\\$&")}"`;
}

function messageJson(it) {
  return `"priority":${it.priority},"length":${it.length},"bytes":"${bytesOf(it.text)}"}`;
}

function registrationJson(n) {
  if (!n) return "null";
  return `{"place":${n.place},"process":${n.process},"descriptor":${n.descriptor},` +
    `"value":"${n.value}"}`;
}

function queueJson(it) {
  const messages = it.messages.map((m) => `{"place":${m.place},${messageJson(m)}`);
  const senders = it.senders
    .map((m) => `{"place":${m.place},"process":${m.process},${messageJson(m)}`);
  const receivers = it.receivers.map((w) => `{"place":${w.place},"process":${w.process}}`);
  return `{"queue":${it.queue},"name":${quoted(it.name)},"named":${it.named},` +
    `"maxmsg":${it.maxmsg},"msgsize":${it.msgsize},"messages":[${messages}],` +
    `"senders":[${senders}],"receivers":[${receivers}],` +
    `"registration":${registrationJson(it.registration)}}`;
}

function processJson(it) {
  const held = [...it.own.held.values()].sort((a, b) => a.descriptor - b.descriptor);
  const descriptors = held.map((h) => `{"descriptor":${h.descriptor},"queue":${h.queue},` +
    `"access":"${h.access}","nonblock":${h.nonblock}}`);
  const notices = it.own.notices.map((value) => `"${value}"`);
  return `{"process":${it.process},"wait":${it.wait},"answered":${it.answered},` +
    `"descriptors":[${descriptors}],"notices":[${notices}]}`;
}

// A state as `mqlog state --json` writes it.
function stateJson(state) {
  const queues = [...state.queues.values()].sort((a, b) => a.queue - b.queue).map(queueJson);
  const processes = [...state.processes.values()].sort((a, b) => a.process - b.process)
    .map(processJson);
  return `{"entries":${state.entries},"queues":[${queues}],"processes":[${processes}]}\n`;
}

if (typeof module !== "undefined") {
  module.exports = {
    SENDS, RECEIVES, States, byLane, callerOf, callerWord, copyOf, emptyState, endedWait, entriesOf,
    entryOf, follow, isError, named, noteThreads, ownOf, pageOf, queueOf, share, stateJson,
    taken, timesOf,
  };
}

// What became of a message or a registration, and why a process waits.
// The links between entries: where a message was taken, and where a wait ended.
class Links {
  constructor(entries) {
    this.start = entries.length > 0 ? entries[0].place : 0;
    this.takenAt = new Map();
    this.endedAt = new Map();
    this.collectedAt = new Map();
    this.notifiedAt = new Map();
    entries.forEach((it, i) => this.note(it, i));
  }

  note(entry, i) {
    const message = taken(entry);
    if (message !== null) this.takenAt.set(message, i);
    const wait = endedWait(entry);
    if (wait !== null) this.endedAt.set(wait, i);
    if (entry.reply === "collected") this.collectedAt.set(Number(entry.got[0]), i);
    const place = named(entry, "notified");
    if (place !== null) this.notifiedAt.set(place, i);
  }
}

function isSent(entry) {
  return SENDS.has(entry.call) && ["queued", "handed", "waits"].includes(entry.reply);
}

// The send whose message an entry has to do with.
function messageAt(journal, i) {
  const entry = journal.entries[i];
  if (isSent(entry)) return entry.place;
  const message = taken(entry);
  if (message !== null) return message;
  if (entry.reply !== "collected") return null;
  const by = journal.entries[Number(entry.got[0]) - journal.links.start];
  return by && by.reply === "handed" ? by.place : null;
}

function counted(n, what) {
  return `${n} ${what}${n === 1 ? "" : "s"}`;
}

function few(list) {
  return list.length <= 6 ? list.join(", ") : `${list.slice(0, 6).join(", ")} ..`;
}

// Callers by their words, as in "Process 3.2" or "Processes 1, 2".
function namesOf(callers) {
  return `${callers.length === 1 ? "Process" : "Processes"} ${few(callers.map(callerWord))}`;
}

function queueName(queue) {
  if (!queue) return "a queue from before the window";
  const name = queue.name === "" ? "without a name" : queue.name;
  return `queue ${queue.queue} (${name}${queue.named ? "" : ", unlinked"})`;
}

// Where a message went, step by step: texts with the places that they speak of.
function messageStory(journal, place) {
  const { entries, links, states } = journal;
  const i = place - links.start;
  const sent = entries[i];
  if (!sent) return [{ text: `Message ${place} was sent before the window.` }];
  const queue = queueOf(states.at(i), sent);
  const size = `priority ${sent.given[1]}, ${counted(Number(sent.given[2]), "byte")}`;
  const text = `${namesOf([sent.process])} sent it to ${queueName(queue)}: ${size}.`;
  const steps = [{ text, i }];
  if (sent.reply === "waits") steps.push(...admissionStory(journal, place));
  const end = links.takenAt.get(place);
  if (end === undefined) {
    const left = links.endedAt.has(place) || sent.reply !== "waits";
    if (left && !isWithdrawn(journal, place)) {
      steps.push({ text: "Nobody received it by the end of the journal." });
    }
    return steps;
  }
  steps.push(...overtakingStory(journal, place, end, queue), receiptStep(journal, end));
  return steps;
}

function isWithdrawn(journal, place) {
  const end = journal.links.endedAt.get(place);
  return end !== undefined && journal.entries[end].reply === "withdrawn";
}

function admissionStory(journal, place) {
  const steps = [{ text: "The queue was full, so the send waited." }];
  const end = journal.links.endedAt.get(place);
  if (end === undefined) steps.push({ text: "It still waits at the end of the journal." });
  else if (isWithdrawn(journal, place)) {
    steps.push({ text: "Its deadline passed: the message was never in the queue.", i: end });
  } else steps.push({ text: "A receive made room, and it was admitted.", i: end });
  return steps;
}

function receiptStep(journal, end) {
  const entry = journal.entries[end];
  if (entry.reply === "got") {
    return { text: `${namesOf([entry.process])} received it.`, i: end };
  }
  const waiting = journal.entries[Number(entry.got[0]) - journal.links.start];
  const who = waiting ? `process ${callerWord(waiting.process)}` : "a process";
  return { text: `It was handed to ${who}, which waited for a message.`, i: end };
}

// What was received from the queue before this message, though it was sent later or has a lower
// priority.
function overtakingStory(journal, place, end, queue) {
  const { entries, links, states } = journal;
  const start = place - links.start;
  const priority = (m) => (entries[m - links.start] ? Number(entries[m - links.start].given[1]) : 0);
  const found = [];
  for (let k = start + 1; k < end; k += 1) {
    const on = queue && states.queues[k] === queue.queue;
    if (on && taken(entries[k]) !== null) found.push(k);
  }
  const later = found.filter((k) => taken(entries[k]) > place);
  const lower = found.filter((k) => priority(taken(entries[k])) < priority(place));
  return [...countStep("Sent later and received earlier", later),
    ...countStep("Of a lower priority and received earlier", lower)];
}

function countStep(what, found) {
  if (found.length === 0) return [];
  const count = `${found.length} ${found.length === 1 ? "message" : "messages"}`;
  return [{ text: `${what}: ${count}, the first by`, i: found[0] }];
}

// What became of a registration.
function registrationStory(journal, i) {
  const { entries, links } = journal;
  const made = entries[i];
  const text = `${namesOf([made.process])} registered with value ${made.given[1]}.`;
  const steps = [{ text, i }];
  const end = links.notifiedAt.get(made.place);
  if (end === undefined) return [...steps, ...lostStory(journal, i)];
  steps.push({ text: "A message came to the empty queue and ended it: a notice.", i: end });
  for (let k = end + 1; k < entries.length; k += 1) {
    const it = entries[k];
    if (share(it.process, made.process) && it.reply === "notice" && it.got[0] === made.given[1]) {
      return [...steps, { text: "The process took the notice.", i: k }];
    }
  }
  return [...steps, { text: "The process never asked for the notice." }];
}

// Where a registration ended without a notice, if it did, and what it missed.
function lostStory(journal, i) {
  const { entries, states } = journal;
  const made = entries[i];
  const queue = queueOf(states.at(i), made);
  const steps = [];
  let handed = false;
  const state = states.at(i + 1);
  const there = queue ? queue.messages.length : 0;
  if (there > 0) {
    const text = `The queue had ${there} ${there === 1 ? "message" : "messages"} then: a notice ` +
      "comes only with a message to an empty queue.";
    steps.push({ text, i });
  }
  for (let k = i + 1; k < entries.length && queue; k += 1) {
    const on = queueOf(state, entries[k]);
    const same = on && on.queue === queue.queue;
    if (same && entries[k].reply === "handed" && !handed) {
      handed = true;
      const text = "A message came, but a receive waited: it was handed over, without a notice.";
      steps.push({ text, i: k });
    }
    follow(state, entries[k]);
    const now = state.queues.get(queue.queue);
    if (!now || !now.registration || now.registration.place !== made.place) {
      const text = `It ended without a notice: ${entries[k].call} of process ` +
        `${callerWord(entries[k].process)}.`;
      return [...steps, { text, i: k }];
    }
  }
  return [...steps, { text: "It still stands at the end of the journal." }];
}

// The queue on which a process waits, and with which kind of call. The queue is null if it is gone,
// since another thread of the process has closed its last descriptor.
function waitOf(state, p) {
  const process = state.processes.get(p);
  if (!process || process.wait === null) return null;
  for (const queue of state.queues.values()) {
    const sends = queue.senders.some((it) => it.place === process.wait);
    if (sends || queue.receivers.some((it) => it.place === process.wait)) {
      return { queue, sends, place: process.wait };
    }
  }
  return { queue: null, sends: false, place: process.wait };
}

// The processes that could answer a wait: those that may receive from the queue, or send to it.
function couldAnswer(state, wait, p) {
  const access = wait.sends ? "r" : "w";
  const found = [];
  for (const it of state.processes.values()) {
    const held = [...it.own.held.values()];
    const can = held.some((h) => wait.queue && h.queue === wait.queue.queue &&
      (h.access === "b" || h.access === access));
    if (can && it.process !== p) found.push(it.process);
  }
  return found.sort(byLane);
}

// The processes that wait for ever unless somebody else comes: none that could answer them runs, and
// no deadline ends their wait.
function stuckProcesses(journal, state) {
  const stuck = new Set();
  for (const it of state.processes.values()) {
    const wait = waitOf(state, it.process);
    const call = wait && journal.entries[wait.place - journal.links.start];
    const timed = !call || call.call.startsWith("t");
    if (wait && it.answered === null && !timed) stuck.add(it.process);
  }
  let size = -1;
  while (size !== stuck.size) {
    size = stuck.size;
    for (const p of [...stuck]) {
      if (couldAnswer(state, waitOf(state, p), p).some((q) => !stuck.has(q))) stuck.delete(p);
    }
  }
  return stuck;
}

// Why a process waits: the queue, who could answer, and why each of those does not.
function waitStory(journal, state, p, k) {
  const steps = [];
  const seen = new Set();
  const tell = (q, depth) => {
    seen.add(q);
    const wait = waitOf(state, q);
    steps.push({ depth, text: waitText(journal, state, q, wait), i: lastOf(journal, q, k) });
    if (!wait || !wait.queue) return;
    for (const other of couldAnswer(state, wait, q)) {
      if (seen.has(other)) {
        const text = `${namesOf([other])} could answer: it was told of above.`;
        steps.push({ depth: depth + 1, text });
      } else tell(other, depth + 1);
    }
  };
  tell(p, 0);
  return steps.slice(1);
}

function waitText(journal, state, p, wait) {
  const { answered } = state.processes.get(p);
  const name = namesOf([p]);
  if (!wait) return `${name} does not wait: it may call. Its last call was`;
  if (answered !== null) return `${name} was answered by entry ${answered}, and has not gone on yet.`;
  if (!wait.queue) return `${name} waits since entry ${wait.place} on a queue that is gone.`;
  const what = wait.sends ? "room in" : "a message in";
  const who = couldAnswer(state, wait, p);
  const could = wait.sends ? "could receive from it" : "could send to it";
  const list = who.length === 0 ? "No other process" : namesOf(who);
  return `${name} waits for ${what} ${queueName(wait.queue)} since entry ${wait.place}. ` +
    `${list} ${could}.`;
}

// The last entry of a process before the k-th.
function lastOf(journal, p, k) {
  for (let i = Math.min(k, journal.entries.length) - 1; i >= 0; i -= 1) {
    if (journal.entries[i].process === p) return i;
  }
  return undefined;
}

// What stands out in a journal: what a reader should look at first.
// Who waits at the end, and whether for ever.
function waitFindings(journal, state) {
  const stuck = stuckProcesses(journal, state);
  const last = journal.entries.length - 1;
  const found = [];
  const gone = [...stuck].filter((p) => !waitOf(state, p).queue).sort(byLane);
  if (gone.length > 0) {
    const text = `${namesOf(gone)} ${gone.length === 1 ? "waits" : "wait"} for ever on a queue that ` +
      "is gone: another thread of the process has closed its last descriptor.";
    found.push({ text, i: last, grave: true });
  }
  const ever = [...stuck].filter((p) => waitOf(state, p).queue).sort(byLane);
  if (ever.length > 0) {
    const waits = `${namesOf(ever)} ${ever.length === 1 ? "waits" : "wait"} at the end`;
    const free = callersOf(state).filter((it) => it.wait === null).map((it) => it.process);
    const text = free.length === 0
      ? `Deadlock: ${waits.toLowerCase()}, and nobody who could answer runs.`
      : `${waits}, and nobody who has the ${ever.length === 1 ? "queue" : "queues"} open could ` +
        `answer. ${namesOf(free)} ${free.length === 1 ? "runs" : "run"}, and would have to open ` +
        `${ever.length === 1 ? "it" : "them"} first.`;
    found.push({ text, i: last, grave: true });
  }
  const others = [...state.processes.values()]
    .filter((it) => it.wait !== null && it.answered === null && !stuck.has(it.process))
    .map((it) => it.process).sort(byLane);
  if (others.length > 0) {
    const text = `${namesOf(others)} still ${others.length === 1 ? "waits" : "wait"} at the end.`;
    found.push({ text, i: last });
  }
  return found;
}

// Registrations that still stand though there are messages: their notice does not come.
function registrationFindings(journal, state) {
  const found = [];
  for (const queue of state.queues.values()) {
    const n = queue.registration;
    if (!n || queue.messages.length === 0) continue;
    const lie = queue.messages.length === 1 ? "lies" : "lie";
    const text = `${namesOf([n.process])} waits for a notice of ${queueName(queue)} ` +
      `that does not come: ${counted(queue.messages.length, "message")} ${lie} there, and a ` +
      "notice comes only with a message to an empty queue.";
    found.push({ text, i: n.place - journal.links.start, grave: true });
  }
  return found.filter((it) => journal.entries[it.i]);
}

// Sends that waited for room while messages of a lower priority went by: the one with the most.
function inversionFindings(journal) {
  const { entries, links, states } = journal;
  let worst = null;
  let count = 0;
  entries.forEach((it, i) => {
    if (!SENDS.has(it.call) || it.reply !== "waits") return;
    const end = links.takenAt.get(it.place);
    const priority = Number(it.given[1]);
    let lower = 0;
    for (let k = i + 1; k < (end === undefined ? entries.length : end); k += 1) {
      const message = states.queues[k] === states.queues[i] ? taken(entries[k]) : null;
      const sent = message === null ? null : entries[message - links.start];
      if (sent && Number(sent.given[1]) < priority) lower += 1;
    }
    if (lower > 0) count += 1;
    if (lower > (worst ? worst.lower : 0)) worst = { i, lower, priority };
  });
  if (!worst) return [];
  const more = count > 1 ? `, the worst of ${count} such sends` : "";
  const were = worst.lower === 1 ? "was" : "were";
  const text = `Priority inversion: a message of priority ${worst.priority} waited for room ` +
    `while ${counted(worst.lower, "message")} of a lower priority ${were} received${more}. ` +
    "A full queue admits in the order of waiting.";
  return [{ text, i: worst.i, grave: true }];
}

// The median of numbers.
function middleOf(numbers) {
  return [...numbers].sort((a, b) => a - b)[numbers.length >> 1];
}

// By how much of the period a send may be late that counts as periodic, and how many periods without
// a send stand out.
const TOLERANCE = 0.2;
const MISSED = 1.9;

// What did not happen: sends of one caller to one queue that came with a period, and then for a
// while did not.
function missingFindings(journal) {
  const { entries, states, times } = journal;
  if (!times) return [];
  const sends = new Map();
  entries.forEach((it, i) => {
    if (!isSent(it)) return;
    const key = `${it.process} ${states.queues[i]}`;
    if (!sends.has(key)) sends.set(key, []);
    sends.get(key).push(i);
  });
  return [...sends.values()].flatMap((list) => missingAmong(journal, list));
}

// The longest gap among periodic sends. The end of the journal counts as a send.
function missingAmong(journal, sends) {
  const { entries, states, times, links } = journal;
  const ends = [...sends.slice(1).map((i) => times[i]), times[entries.length - 1]];
  const gaps = sends.map((i, k) => ends[k] - times[i]);
  const period = middleOf(gaps.slice(0, -1));
  const isRegular = (gap) => Math.abs(gap - period) <= TOLERANCE * period;
  const odd = gaps.slice(0, -1).filter((gap) => !isRegular(gap)).length;
  const longest = gaps.reduce((best, gap, k) => (gap > gaps[best] ? k : best), 0);
  const isPeriodic = period > 0 && gaps.length - 1 - odd >= 2 && odd <= 1;
  if (!isPeriodic || gaps[longest] < MISSED * period) return [];
  const i = sends[longest];
  const queue = queueOf(states.at(i), entries[i]);
  const text = `${namesOf([entries[i].process])} sent to ${queueName(queue)} every ` +
    `${secondsText(period)}, but nothing for ${secondsText(gaps[longest])} after entry ` +
    `${i + links.start}.`;
  return [{ text, i, grave: true }];
}

// Calls whose deadline passed. Often that is what was wanted.
function lateFindings(journal) {
  const late = journal.entries.filter((it) => it.reply === "ETIMEDOUT");
  if (late.length === 0) return [];
  const i = late[0].place - journal.links.start;
  return [{ text: `${counted(late.length, "deadline")} passed (ETIMEDOUT). The first:`, i }];
}

function errorFindings(journal) {
  const counts = new Map();
  let first = -1;
  journal.entries.forEach((it, i) => {
    if (!isError(it) || it.reply === "ETIMEDOUT") return;
    if (first < 0) first = i;
    counts.set(it.reply, (counts.get(it.reply) || 0) + 1);
  });
  if (first < 0) return [];
  const list = [...counts].map(([reply, n]) => `${n} ${reply}`);
  return [{ text: `Errors: ${few(list)}. The first:`, i: first }];
}

// Messages that nobody received.
function leftFindings(journal, state) {
  const left = [...state.queues.values()].flatMap((it) => it.messages.map((m) => m.place));
  if (left.length === 0) return [];
  const oldest = left.reduce((a, b) => Math.min(a, b));
  const i = oldest - journal.links.start;
  const text = `${counted(left.length, "message")} ${left.length === 1 ? "lies" : "lie"} in the ` +
    `queues at the end. The oldest${i < 0 ? `, ${oldest}, was sent before the window.` : ":"}`;
  return [{ text, i: i < 0 ? undefined : i }];
}

// How the run ended, if yak-explore has said it: then nobody has to guess from the waits.
function endFindings({ ends }) {
  return ends.map((it, k) => (k === 0 ? { text: `The run ended: ${it}`, grave: true } :
    { text: it, depth: 1 }));
}

function findingsOf(journal) {
  const ended = endFindings(journal.threads);
  if (journal.entries.length === 0) return ended;
  const state = journal.states.at(journal.entries.length);
  const waits = ended.length > 0 ? ended : waitFindings(journal, state);
  const found = [...waits, ...missingFindings(journal), ...registrationFindings(journal, state),
    ...inversionFindings(journal), ...errorFindings(journal), ...lateFindings(journal),
    ...leftFindings(journal, state)];
  return found.length > 0 ? found :
    [{ text: "Nothing: no call failed, nobody waits at the end, and the queues are empty. Whether " +
      "the replies are right, mqlog check tells." }];
}

// The picture: time from left to right, a lane for each caller, and those of one process beside each
// other.
const TOP = 22;
const LEFT = 84;

// The shape of a mark, by what the entry does: readable without its colour.
function shapeOf(entry) {
  if (isError(entry)) return "cross";
  if (entry.reply === "waits") return "ring";
  if (SENDS.has(entry.call)) return "up";
  if (RECEIVES.has(entry.call)) return "down";
  if (entry.call === "notify" || entry.call === "notice") return "diamond";
  if (entry.call === "collect" || entry.call === "withdraw") return "half";
  return "square";
}

const SHAPES = {
  cross: (c, x, y) => {
    c.moveTo(x - 5, y - 5);
    c.lineTo(x + 5, y + 5);
    c.moveTo(x + 5, y - 5);
    c.lineTo(x - 5, y + 5);
  },
  ring: (c, x, y) => c.arc(x, y, 5, 0, 7),
  up: (c, x, y) => polygon(c, [[x, y - 6], [x + 6, y + 5], [x - 6, y + 5]]),
  down: (c, x, y) => polygon(c, [[x, y + 6], [x + 6, y - 5], [x - 6, y - 5]]),
  diamond: (c, x, y) => polygon(c, [[x, y - 7], [x + 6, y], [x, y + 7], [x - 6, y]]),
  half: (c, x, y) => c.arc(x, y, 5, Math.PI / 2, -Math.PI / 2),
  square: (c, x, y) => c.rect(x - 4, y - 4, 8, 8),
};

function polygon(c, points) {
  points.forEach(([x, y], i) => (i === 0 ? c.moveTo(x, y) : c.lineTo(x, y)));
  c.closePath();
}

// The first of some rising numbers that is at least n, as an index.
function firstFrom(numbers, n) {
  let low = 0;
  let high = numbers.length;
  while (low < high) {
    const middle = (low + high) >> 1;
    if (numbers[middle] < n) low = middle + 1;
    else high = middle;
  }
  return low;
}

// The order of names such as `process 3.2`: by their words, and then by their numbers.
function byName(a, b) {
  const [first, second] = [a, b].map((it) => it.split(/[ .]/));
  return compare(first[0], second[0]) || first[1] - second[1] ||
    (first[2] || 1) - (second[2] || 1);
}

// A picture with a lane for each name, which zooms and moves.
class Chart {
  constructor(canvas, names) {
    this.canvas = canvas;
    this.from = 0;
    this.chosen = 0;
    this.shows = () => true;
    this.names = [...new Set(names)].sort(byName);
    const lanes = new Map(this.names.map((name, lane) => [name, lane]));
    this.laneOf = Uint16Array.from(names, (it) => lanes.get(it));
    this.lane = this.names.length > 8 ? 34 : 46;
    this.top = TOP;
  }

  get width() {
    return this.canvas.clientWidth - LEFT;
  }

  x(i) {
    return LEFT + (i - this.from + 0.5) * this.scale;
  }

  // The middle of the lane of an entry.
  y(i) {
    return this.top + (this.laneOf[i] + 0.5) * this.lane;
  }

  // Whether a place lies within what is seen.
  sees(place) {
    return place >= this.from && place < this.from + this.width / this.scale;
  }

  bound() {
    const fits = this.width / Math.max(1, this.count);
    this.scale = Math.max(Math.min(fits, 20), Math.min(160, this.scale));
    const last = this.count - this.width / this.scale;
    this.from = Math.max(0, Math.min(last, this.from));
  }

  zoom(factor, x) {
    const at = (x - LEFT) / this.scale + this.from;
    this.scale *= factor;
    this.bound();
    this.from = at - (x - LEFT) / this.scale;
    this.bound();
  }

  pan(pixels) {
    this.from += pixels / this.scale;
    this.bound();
  }

  // Moves the picture, if the entry is not seen. Its lane is brought into the box of the canvas.
  reveal(i) {
    const place = this.placeOf(i);
    if (!this.sees(place)) this.from = place - this.width / this.scale / 2;
    this.bound();
    const box = this.canvas.parentElement;
    const [y, margin] = [this.y(i), this.lane / 2];
    if (y - margin < box.scrollTop || y + margin > box.scrollTop + box.clientHeight) {
      box.scrollTop = y - box.clientHeight / 2;
    }
  }

  draw() {
    const ratio = window.devicePixelRatio || 1;
    const height = this.top + this.names.length * this.lane + 6;
    this.canvas.style.height = `${height}px`;
    this.canvas.width = this.canvas.clientWidth * ratio;
    this.canvas.height = height * ratio;
    const c = this.canvas.getContext("2d");
    c.scale(ratio, ratio);
    c.font = "12px sans-serif";
    this.colours = coloursOf(this.canvas);
    this.bound();
    const first = Math.max(0, Math.floor(this.from));
    const last = Math.ceil(this.from + this.width / this.scale);
    this.drawLanes(c, height);
    c.save();
    c.beginPath();
    c.rect(LEFT, 0, this.width, height);
    c.clip();
    this.drawParts(c, [first, last + 1], height);
    c.restore();
  }

  drawLanes(c, height) {
    this.names.forEach((name, lane) => {
      const y = this.top + (lane + 0.5) * this.lane;
      c.fillStyle = this.colours.text;
      c.fillText(name, 2, y + 4);
      c.fillStyle = this.colours.line;
      c.fillRect(LEFT, y, this.width, 1);
    });
    c.fillRect(LEFT - 1, 0, 1, height);
  }
}

// The lane of an entry: that of its thread, if it is known.
function laneName(entry) {
  if (entry.thread !== undefined) return `thread ${entry.thread}`;
  return `process ${callerWord(entry.process)}`;
}

// How far apart entries of one time are, in the picture by time.
const LEAST_GAP = 0.25;

// Where entries with these times stand: as far apart as their times, and a little if these are the
// same.
function placesOf(times) {
  const places = new Float64Array(times.length);
  const unit = times.length / times[times.length - 1];
  for (let i = 1; i < times.length; i += 1) {
    places[i] = places[i - 1] + Math.max(LEAST_GAP, (times[i] - times[i - 1]) * unit);
  }
  return places;
}

// A time in milliseconds, in seconds.
function secondsText(time) {
  return `${Number((time / 1000).toPrecision(6))} s`;
}

class Timeline extends Chart {
  constructor(canvas, journal) {
    super(canvas, journal.entries.map(laneName));
    this.journal = journal;
    const { entries, links } = journal;
    this.scale = Math.max(20, Math.min(100, this.width / Math.max(1, entries.length)));
    this.errors = Uint8Array.from(entries, isError);
    this.waits = this.names.map(() => ({ from: [], to: [] }));
    entries.forEach((it, i) => {
      if (it.reply !== "waits") return;
      const lane = this.waits[this.laneOf[i]];
      const end = links.endedAt.get(it.place);
      lane.from.push(i);
      lane.to.push(end === undefined ? entries.length : end);
    });
  }

  // Entries stand by their times, or in their order.
  setByTime(isByTime) {
    this.places = isByTime ? placesOf(this.journal.times) : null;
    this.reveal(this.chosen);
  }

  get length() {
    return this.journal.entries.length;
  }

  // How wide the picture is, in the least width of an entry.
  get count() {
    return this.length === 0 ? 0 : this.placeOf(this.length - 1) + 1;
  }

  // Where the i-th entry stands; the end of the journal is one further than the last.
  placeOf(i) {
    if (!this.places) return i;
    return i < this.length ? this.places[i] : this.places[this.length - 1] + 1;
  }

  x(i) {
    return super.x(this.placeOf(i));
  }

  // The entry at a point of the canvas, or the nearest there is.
  entryAt(x) {
    const place = (x - LEFT) / this.scale + this.from - 0.5;
    if (!this.places) return Math.max(0, Math.min(this.length - 1, Math.round(place)));
    const i = Math.min(this.length - 1, firstFrom(this.places, place));
    return i > 0 && place - this.places[i - 1] < this.places[i] - place ? i - 1 : i;
  }

  drawParts(c, seen, height) {
    const index = (place) => (this.places ? firstFrom(this.places, place) : place);
    const range = [Math.max(0, index(seen[0]) - 1), Math.min(this.length, index(seen[1]) + 1)];
    this.drawChosen(c, height);
    this.drawTicks(c, range, height);
    this.drawWaits(c, range);
    this.drawMessages(c, range);
    this.drawMarks(c, range);
  }

  drawTicks(c, range, height) {
    if (this.places) this.drawTimes(c, range, height);
    else this.drawNumbers(c, range, height);
  }

  drawTick(c, i, text, height) {
    c.fillStyle = this.colours.line;
    c.fillRect(this.x(i), 14, 1, height);
    c.fillStyle = this.colours.faint;
    c.fillText(text, this.x(i) + 3, 12);
  }

  // The time of an entry, where there is room for it.
  drawTimes(c, [first, last], height) {
    const { times } = this.journal;
    let drawn = -Infinity;
    for (let i = first; i < last; i += 1) {
      const isNew = i === 0 || times[i] > times[i - 1];
      if (isNew && this.x(i) - drawn >= 80) {
        this.drawTick(c, i, secondsText(times[i]), height);
        drawn = this.x(i);
      }
    }
  }

  drawNumbers(c, [first, last], height) {
    const steps = [1, 2, 5, 10, 20, 50, 100, 200, 500, 1000, 2000, 5000, 10000, 50000, 100000];
    const step = steps.find((it) => it * this.scale >= 60) || 500000;
    for (let i = first - (first % step); i < last; i += step) {
      this.drawTick(c, i, String(i + this.journal.links.start), height);
    }
  }

  drawChosen(c, height) {
    c.fillStyle = this.colours.chosen;
    const width = Math.max(3, this.scale * (this.places ? LEAST_GAP : 1));
    c.fillRect(this.x(this.chosen) - width / 2, 0, width, height);
  }

  // A wait is a bar of stripes from its call to its end.
  drawWaits(c, [first, last]) {
    this.waits.forEach(({ from, to }, lane) => {
      const y = this.top + (lane + 0.5) * this.lane;
      let drawn = -1;
      for (let w = firstFrom(to, first); w < from.length && from[w] < last; w += 1) {
        const [left, right] = [Math.max(LEFT, this.x(from[w])), this.x(to[w])];
        if (right <= drawn) continue;
        drawn = Math.ceil(right) + (this.scale < 2 ? 2 : 0);
        c.fillStyle = this.colours.wait;
        c.fillRect(left, y - 6, Math.max(1, right - left), 13);
        this.stripe(c, left, Math.min(right, LEFT + this.width), y);
      }
    });
  }

  stripe(c, left, right, y) {
    if (right - left < 12) return;
    c.strokeStyle = this.colours.text;
    c.lineWidth = 0.5;
    c.beginPath();
    for (let x = left + 8; x < right; x += 8) {
      c.moveTo(x, y - 6);
      c.lineTo(x - 6, y + 7);
    }
    c.stroke();
  }

  // A message is an arrow from its send to the receive that takes it. Where too many are seen, none
  // is drawn.
  drawMessages(c, [first, last]) {
    this.tooMany = last - first > 4000;
    if (this.tooMany) return;
    const { entries, links } = this.journal;
    c.lineWidth = 1.5;
    for (let i = first; i < last; i += 1) {
      const message = taken(entries[i]);
      if (message !== null) this.drawArrow(c, i, message - links.start);
      const end = links.takenAt.get(entries[i].place);
      if (end !== undefined && end >= last) this.drawArrow(c, end, i);
    }
  }

  drawArrow(c, i, sent) {
    const { entries, links } = this.journal;
    let receiver = i;
    if (entries[i].reply === "handed") receiver = Number(entries[i].got[0]) - links.start;
    const sender = entries[sent];
    if (!entries[receiver] || !sender) return;
    if (!this.shows(sender, sent) || !this.shows(entries[i], i)) return;
    const [x1, y1, x2, y2] = [this.x(sent), this.y(sent), this.x(i), this.y(receiver)];
    const story = this.story && this.story.has(sent);
    c.strokeStyle = story ? this.colours.story : this.colours.message;
    c.lineWidth = story ? 3 : 1.5;
    c.beginPath();
    c.moveTo(x1, y1);
    if (y1 === y2) c.quadraticCurveTo((x1 + x2) / 2, y1 - this.lane, x2, y2);
    else c.lineTo(x2, y2);
    c.stroke();
    this.drawTip(c, x1, y1 === y2 ? y1 - this.lane : y1, x2, y2);
  }

  drawTip(c, x1, y1, x2, y2) {
    const angle = Math.atan2(y2 - y1, x2 - x1);
    c.beginPath();
    for (const turn of [2.7, 0, -2.7]) {
      const length = turn === 0 ? 7 : 12;
      const back = turn === 0 ? Math.PI : Math.PI + (turn > 0 ? 0.35 : -0.35);
      c.lineTo(x2 + length * Math.cos(angle + back), y2 + length * Math.sin(angle + back));
    }
    c.stroke();
  }

  drawMarks(c, [first, last]) {
    const { entries } = this.journal;
    const drawn = new Float64Array(2 * this.names.length).fill(-9);
    for (let i = first; i < last; i += 1) {
      const x = this.x(i);
      const key = 2 * this.laneOf[i] + this.errors[i];
      if (this.scale < 2 && x - drawn[key] < 3) continue;
      if (!this.shows(entries[i], i)) continue;
      drawn[key] = x;
      this.drawMark(c, entries[i], i, x);
    }
  }

  drawMark(c, entry, i, x) {
    const shape = shapeOf(entry);
    const colour = this.colours[shape] || this.colours.text;
    const y = this.y(i);
    c.fillStyle = colour;
    if (this.scale < 2) {
      c.fillRect(x, y - 5, 2, 10);
      return;
    }
    c.strokeStyle = colour;
    c.lineWidth = 2;
    c.beginPath();
    SHAPES[shape](c, x, y);
    if (shape === "ring" || shape === "cross") c.stroke();
    else c.fill();
    const room = this.x(i + 1) - x;
    if (room >= 50 || i === this.chosen) this.drawLabel(c, entry, [x, y], room);
  }

  drawLabel(c, entry, [x, y], room) {
    c.fillStyle = this.colours.text;
    c.fillText(`${entry.call}${entry.reply === "waits" ? " waits" : ""}`, x - 8, y - 10);
    const error = isError(entry) ? entry.reply : "";
    const below = isSent(entry) ? `${entry.given[1]}: ${entry.payload}` : error;
    if (room < 50) return;
    const most = Math.floor(room / 7);
    c.fillText(below.length > most ? `${below.slice(0, most - 2)}..` : below, x - 8, y + 19);
  }
}

function coloursOf(element) {
  const style = getComputedStyle(element);
  const names = ["text", "faint", "line", "chosen", "wait", "message", "story", "cross", "ring",
    "up", "down", "diamond", "panel"];
  return Object.fromEntries(names.map((it) => [it, style.getPropertyValue(`--${it}`).trim()]));
}

// What is told of an entry: its line, the state before and after, and its stories.
const CALLS = {
  open: "opens a queue", close: "closes a descriptor", unlink: "unlinks a name",
  send: "sends", tsend: "sends until a deadline", recv: "receives",
  trecv: "receives until a deadline", getattr: "asks for attributes",
  setattr: "sets the nonblocking flag", notify: "registers, or removes its registration",
  notice: "asks for its oldest notice", collect: "collects what ended its wait",
  withdraw: "withdraws its wait, whose deadline has passed",
};

const FAULTS = {
  EAGAIN: "the call would have to wait, and its descriptor is nonblocking",
  EBADF: "the descriptor is not open for this", EBUSY: "a process is registered already",
  EEXIST: "the queue exists already", EINVAL: "an argument is not valid",
  EMFILE: "the process has no free descriptor", EMSGSIZE: "the length does not fit the queue",
  ENAMETOOLONG: "the name is too long", ENOENT: "no queue has this name",
  ENOSPC: "there is no room for another queue", ETIMEDOUT: "the deadline has passed",
};

// What an entry's reply says.
function replyText(entry) {
  const { reply, got } = entry;
  const full = SENDS.has(entry.call) ? "the queue is full" : "the queue is empty";
  const texts = {
    queued: "the message is put into the queue", waits: `${full}, so it waits`,
    handed: `the message goes to the receive ${got[0]}, which waited`,
    got: `it gets message ${got[0]}`, collected: `entry ${got[0]} answered it`,
    withdrawn: `of entry ${got[0]}`,
    fd: `as descriptor ${got[0]}${got[1] ? ", and creates it" : ""}`,
    notice: got[0] === "none" ? "there is none" : `its value is ${got[0]}`,
  };
  const text = texts[reply] || FAULTS[reply];
  const admitted = named(entry, "admitted");
  const more = admitted === null ? "" : `, and the send ${admitted}, which waited, is admitted`;
  return text ? `: ${text}${more}` : more;
}

// The rows of a state: each has a key, by which it is found again, and a text.
function rowsOf(state) {
  const rows = [];
  const add = (key, text) => rows.push({ key, text });
  for (const it of [...state.queues.values()].sort((a, b) => a.queue - b.queue)) {
    const limits = `${it.messages.length} of ${it.maxmsg} messages, of ${it.msgsize} bytes at most`;
    add(`q${it.queue}`, `${queueName(it)}: ${limits}`);
    it.messages.forEach((m, i) => add(`q${it.queue}m${m.place}`, `  ${messageText(m, i)}`));
    for (const w of it.senders) {
      const text = `  process ${callerWord(w.process)} waits to send since ${w.place}: ` +
        `priority ${w.priority}`;
      add(`q${it.queue}s${w.place}`, text);
    }
    for (const w of it.receivers) {
      const text = `  process ${callerWord(w.process)} waits to receive since ${w.place}`;
      add(`q${it.queue}r${w.place}`, text);
    }
    const n = it.registration;
    if (n) {
      const text = `  process ${callerWord(n.process)} is registered since ${n.place}, ` +
        `with value ${n.value}`;
      add(`q${it.queue}n`, text);
    }
  }
  for (const it of callersOf(state)) {
    rows.push(...processRows(it));
  }
  return rows;
}

function messageText(m, i) {
  const text = m.text === "" ? "" : ` "${m.text}"`;
  return `${i === 0 ? "next" : "then"}: message ${m.place}, priority ${m.priority}, ` +
    `${counted(Number(m.length), "byte")}${text}`;
}

function processRows(it) {
  const p = it.process;
  const answered = it.answered === null ? "" : `, answered by ${it.answered}`;
  const waits = it.wait === null ? "" : `: waits since ${it.wait}${answered}`;
  const rows = [{ key: `p${p}`, text: `process ${callerWord(p)}${waits}` }];
  for (const h of [...it.own.held.values()].sort((a, b) => a.descriptor - b.descriptor)) {
    const access = { r: "read", w: "write", b: "read and write" }[h.access];
    const text = `  descriptor ${h.descriptor}: queue ${h.queue}, ${access}` +
      `${h.nonblock ? ", nonblocking" : ""}`;
    rows.push({ key: `p${p}d${h.descriptor}`, text });
  }
  it.own.notices.forEach((v, i) => rows.push({ key: `p${p}v${i}`, text: `  notice ${v}` }));
  return rows;
}

// The rows of two states side by side: each key once, in an order that both keep where they can.
function sideBySide(before, after) {
  const old = new Map(before.map((it) => [it.key, it.text]));
  const now = new Map(after.map((it) => [it.key, it.text]));
  const rows = [];
  const done = new Set();
  const push = (key) => {
    if (!done.has(key)) rows.push({ key, old: old.get(key), now: now.get(key) });
    done.add(key);
  };
  let k = 0;
  for (const { key } of before) {
    for (; now.has(key) && k < after.length && after[k].key !== key; k += 1) push(after[k].key);
    push(key);
  }
  for (; k < after.length; k += 1) push(after[k].key);
  return rows;
}

function element(name, text, properties = {}) {
  const made = document.createElement(name);
  made.textContent = text;
  return Object.assign(made, properties);
}

function cell(text, other, mark, className) {
  if (text === undefined) return element("td", "");
  if (text === other) return element("td", `  ${text}`);
  return element("td", `${mark} ${text}`, { className });
}

const MOST_ROWS = 40;

// The queue or the process that a row is of.
function groupOf(key) {
  return /^[qp]\d+/.exec(key)[0];
}

// The states before and after side by side. Of long ones the queues and processes that stay as they
// were stand behind a line.
function stateTable(before, after) {
  const rows = sideBySide(rowsOf(before), rowsOf(after));
  const changed = new Set(rows.filter((it) => it.old !== it.now).map((it) => groupOf(it.key)));
  const shown = rows.length <= MOST_ROWS ? rows : rows.filter((it) => changed.has(groupOf(it.key)));
  const parts = [tableOf(shown)];
  if (shown.length < rows.length) {
    const rest = rows.filter((it) => !changed.has(groupOf(it.key)));
    const groups = [...new Set(rest.map((it) => groupOf(it.key)))];
    const queues = groups.filter((it) => it.startsWith("q")).length;
    const processes = groups.length - queues;
    const text = `${counted(queues, "queue")} and ${processes} ` +
      `${processes === 1 ? "process" : "processes"} stay as they were`;
    parts.push(folded(text, () => tableOf(rest), false));
  }
  return parts;
}

function tableOf(rows) {
  const table = document.createElement("table");
  const head = table.insertRow();
  head.append(element("th", "before: \u2212 is gone or was other"));
  head.append(element("th", "after: + is new"));
  for (const { old, now } of rows) {
    const row = table.insertRow();
    row.append(cell(old, now, "\u2212", "gone"), cell(now, old, "+", "new"));
  }
  return table;
}

// A line behind which more stands, which is made once it is opened.
function folded(text, more, open) {
  const made = element("details", "");
  made.append(element("summary", text));
  const fill = () => {
    if (made.open && made.childElementCount === 1) made.append(more());
  };
  made.addEventListener("toggle", fill);
  made.open = open;
  fill();
  return made;
}

function storyItems(page, steps) {
  const list = document.createElement("ul");
  for (const it of steps) {
    const line = element("li", it.text, { className: it.grave ? "grave" : "" });
    line.style.paddingLeft = `${(it.depth || 0) * 18}px`;
    if (it.i !== undefined) {
      const link = element("a", page.nameOf(it.i), { href: "#" });
      link.addEventListener("click", (event) => {
        event.preventDefault();
        page.choose(it.i);
        page.input("entry").querySelector("h2").focus();
      });
      line.append(" ", link);
    }
    list.append(line);
  }
  return list;
}

// A heading that can have the focus.
function heading(text) {
  return element("h2", text, { tabIndex: -1 });
}

function storyList(page, title, steps) {
  return [element("h2", title), storyItems(page, steps)];
}

// The stories of an entry, and the sends that the picture marks for them.
function storiesOf(page, i, after) {
  const { journal } = page;
  const entry = journal.entries[i];
  const parts = [];
  const message = messageAt(journal, i);
  if (message !== null) {
    const title = `Where did message ${message} go?`;
    parts.push(...storyList(page, title, messageStory(journal, message)));
  }
  if (entry.call === "notify" && entry.reply === "ok" && entry.given[1] !== "-") {
    const title = "What became of this registration?";
    parts.push(...storyList(page, title, registrationStory(journal, i)));
  }
  return [...parts, ...waitStories(page, i, after)];
}

// Who waits after an entry: a line for each process, behind which the chain stands.
function waitStories(page, i, after) {
  const { journal } = page;
  const waiting = callersOf(after).filter((it) => it.wait !== null);
  if (waiting.length === 0) return [];
  const stuck = stuckProcesses(journal, after);
  const parts = [element("h2", "Who waits, and why?")];
  const open = [...stuck].filter((p) => waitOf(after, p).queue);
  if (open.length > 0) {
    const list = open.sort(byLane).map(callerWord).join(", ");
    const text = `Nobody who has the queue open and could answer ${list} runs. ` +
      "Only a process that opens the queue can end this.";
    parts.push(element("p", text, { className: "grave" }));
  }
  for (const it of waiting) {
    const own = it.process === journal.entries[i].process;
    parts.push(waitDetails(page, i, after, it.process, own || waiting.length <= 2));
  }
  return parts;
}

function waitDetails(page, i, after, p, open) {
  const { journal } = page;
  const text = waitText(journal, after, p, waitOf(after, p));
  return folded(text, () => storyItems(page, waitStory(journal, after, p, i + 1)), open);
}

function entryPanel(page, i, before, after) {
  const entry = page.journal.entries[i];
  const queue = queueOf(before, entry);
  const on = queue ? ` on ${queueName(queue)}` : "";
  const line = element("div", entry.line, { className: `line${isError(entry) ? " error" : ""}` });
  const by = entry.thread === undefined ? "" : `, in thread ${entry.thread} at step ${entry.step},`;
  const text = `${namesOf([entry.process])}${by} ${CALLS[entry.call] || entry.call}${on}` +
    `${replyText(entry)}.`;
  page.say(`Entry ${entry.place}: ${text}`);
  return [heading(`Entry ${entry.place}`), line, element("p", text), ...storiesOf(page, i, after)];
}

// The page: what is chosen, what is shown, and what keys and buttons do.
class Page {
  constructor(parts) {
    const dark = window.matchMedia("(prefers-color-scheme: dark)").matches;
    document.documentElement.dataset.theme = dark ? "dark" : "light";
    this.load(parts);
    this.timeline.shows = (entry, i) => this.passes(entry, i);
    this.fillFilters();
    this.listen();
  }

  // Shows a journal.
  load({ said, before, entries }) {
    const threads = noteThreads(entries, document.querySelector("#threads").textContent);
    this.entries = entries;
    this.journal = {
      entries, threads, links: new Links(entries), states: new States(entries, before),
      times: timesOf(entries),
    };
    this.input("timed").parentElement.hidden = this.journal.times === null;
    this.timeline = new Timeline(document.querySelector("canvas"), this.journal);
    const { start } = this.journal.links;
    const last = start + entries.length - 1;
    const title = entries.length === 0 ? "The journal is empty" : `Entries ${start} to ${last}`;
    this.input("title").textContent = said ? `${title}, which explain a history` : title;
    const found = findingsOf(this.journal);
    const steps = said ? [{ text: `mqlog judge: ${said}` }, ...found] : found;
    if (steps.length > 0) {
      this.input("findings").replaceChildren(...storyList(this, "What stands out", steps));
    }
    if (threads.steps.length > 0) {
      const text = `The ${counted(threads.steps.length, "step")} of the run`;
      const list = () => element("pre", threads.steps.join("\n"));
      this.input("findings").append(folded(text, list, false));
    }
    this.choose(0);
  }

  nameOf(i) {
    return `entry ${this.entries[i].place}`;
  }

  entryAt(x) {
    return this.timeline.entryAt(x);
  }

  input(name) {
    return document.querySelector(`#${name}`);
  }

  fillFilters() {
    const { entries } = this;
    const fill = (name, values) => {
      this.input(name).append(new Option("all", ""));
      for (const [value, text] of values) this.input(name).append(new Option(text, value));
    };
    const numbers = [...new Set(entries.map((it) => it.process))].sort(byLane);
    fill("process", numbers.map((it) => [it, callerWord(it)]));
    const queues = this.journal ? [...this.journal.states.names] : [];
    fill("queue", queues.map(([q, name]) => [q, `${q} ${name}`]));
    fill("call", [...new Set(entries.map((it) => it.call))].sort().map((it) => [it, it]));
  }

  // Whether the filters let an entry through.
  passes(entry, i) {
    const { process, queue, call, errors, find } = this.filters;
    return (process === "" || entry.process === Number(process)) &&
      (queue === "" || this.journal.states.queues[i] === Number(queue)) &&
      (call === "" || entry.call === call) && (!errors || isError(entry)) &&
      (find === "" || entry.line.includes(find));
  }

  get filters() {
    if (!this.read) {
      const [process, queue, call] = ["process", "queue", "call"].map((it) => this.input(it).value);
      const find = this.input("find").value;
      this.read = { process, queue, call, errors: this.input("errors").checked, find };
    }
    return this.read;
  }

  // The next entry from here, forward or back, that the filters and a test let through.
  next(step, test = () => true) {
    const { entries } = this;
    for (let i = this.timeline.chosen + step; i >= 0 && i < entries.length; i += step) {
      if (this.passes(entries[i], i) && test(entries[i])) return i;
    }
    return this.timeline.chosen;
  }

  choose(i) {
    const { entries, states } = this.journal;
    if (entries.length === 0) {
      this.timeline.draw();
      return;
    }
    this.timeline.chosen = i;
    const before = states.at(i);
    const after = copyOf(before);
    follow(after, entries[i]);
    const message = messageAt(this.journal, i);
    this.timeline.story = new Set(message === null ? [] : [message - this.journal.links.start]);
    this.input("entry").replaceChildren(...entryPanel(this, i, before, after));
    this.input("state").replaceChildren(element("h2", "State"), ...stateTable(before, after));
    this.timeline.reveal(i);
    this.draw();
  }

  // Says what was chosen to who does not see it.
  say(text) {
    this.input("said").textContent = text;
  }

  draw() {
    if (this.waiting) return;
    this.waiting = true;
    requestAnimationFrame(() => {
      this.waiting = false;
      this.timeline.draw();
      const note = "Too many entries are shown for arrows: zoom in.";
      this.input("note").textContent = this.timeline.tooMany ? note : "";
    });
  }

  listen() {
    const filters = ["process", "queue", "call", "errors", "find"];
    filters.forEach((it) => this.input(it).addEventListener("input", () => {
      this.read = null;
      this.draw();
    }));
    this.input("timed").addEventListener("change", () => {
      this.timeline.setByTime(this.input("timed").checked);
      this.draw();
    });
    const middle = () => this.timeline.width / 2;
    const buttons = {
      back: () => this.choose(this.next(-1)), on: () => this.choose(this.next(1)),
      in: () => this.zoom(1.5, middle()), out: () => this.zoom(1 / 1.5, middle()),
      theme: () => this.turnTheme(),
    };
    for (const [name, act] of Object.entries(buttons)) {
      this.input(name).addEventListener("click", act);
    }
    document.addEventListener("keydown", (event) => this.key(event, buttons));
    window.addEventListener("resize", () => this.draw());
    this.listenToPointer(this.timeline.canvas);
  }

  turnTheme() {
    const { dataset } = document.documentElement;
    dataset.theme = dataset.theme === "dark" ? "light" : "dark";
    this.draw();
  }

  zoom(factor, x) {
    this.timeline.zoom(factor, x);
    this.draw();
  }

  listenToPointer(canvas) {
    let held = null;
    canvas.addEventListener("pointerdown", (event) => {
      held = { x: event.offsetX, moved: false };
      canvas.setPointerCapture(event.pointerId);
    });
    canvas.addEventListener("pointermove", (event) => {
      if (!held) return;
      const by = held.x - event.offsetX;
      if (!held.moved && Math.abs(by) < 4) return;
      held = { x: event.offsetX, moved: true };
      this.timeline.pan(by);
      this.draw();
    });
    canvas.addEventListener("pointerup", (event) => {
      if (held && !held.moved) this.choose(this.entryAt(event.offsetX, event.offsetY));
      held = null;
    });
    canvas.addEventListener("wheel", (event) => {
      const isAcross = event.shiftKey || Math.abs(event.deltaX) > Math.abs(event.deltaY);
      // Without a key, the wheel scrolls the lanes, as everywhere.
      if (!event.ctrlKey && !isAcross) return;
      event.preventDefault();
      if (event.ctrlKey) this.zoom(event.deltaY < 0 ? 1.25 : 0.8, event.offsetX);
      else {
        this.timeline.pan(event.deltaX || event.deltaY);
        this.draw();
      }
    }, { passive: false });
  }

  key(event, buttons) {
    const typing = ["INPUT", "SELECT"].includes(event.target.tagName);
    if (event.key === "Escape") event.target.blur();
    if (event.key === "Enter" && event.target.id === "find") this.choose(this.next(1));
    if (typing || event.ctrlKey || event.metaKey || event.altKey) return;
    const { entries } = this;
    const chosen = entries[this.timeline.chosen];
    const same = (it) => !event.shiftKey || laneName(it) === laneName(chosen);
    const acts = {
      ArrowLeft: () => this.choose(this.next(-1, same)),
      ArrowRight: () => this.choose(this.next(1, same)),
      Home: () => this.choose(0), End: () => this.choose(entries.length - 1),
      e: () => this.choose(this.next(1, isError)), n: () => this.choose(this.next(1)),
      "+": buttons.in, "-": buttons.out, "/": () => this.input("find").focus(),
    };
    if (!acts[event.key]) return;
    event.preventDefault();
    if (chosen) acts[event.key]();
  }
}

// A history that no journal explains: its calls, the call at fault, and those that overlap it.
// The calls that the lines of a history have, in the order in which they began.
function callsOf(text) {
  const calls = text.split("\n").filter((line) => line !== "").map(callOf);
  nameQueues(calls);
  const sorted = [...calls].sort((a, b) => compare(a.begin, b.begin) || a.index - b.index);
  rank(sorted);
  return sorted;
}

function callOf(line, index) {
  const words = line.split(" ");
  const arrow = words.indexOf("->", 4);
  const quoted = arrow > 4 && words[arrow - 1].startsWith('"');
  const end = words[2] === "-" ? null : BigInt(words[2]);
  const got = words.slice(arrow + 2);
  return {
    index, line, end, begin: BigInt(words[1]), process: callerOf(words[0]), call: words[3],
    given: words.slice(4, quoted ? arrow - 1 : arrow),
    payload: quoted ? words[arrow - 1].slice(1, -1) : "",
    reply: words[arrow + 1] || "", got,
    received: got.length > 1 ? got[1].slice(1, -1) : "",
  };
}

function compare(a, b) {
  return a < b ? -1 : Number(a > b);
}

// The name of the queue that each call is made on, by the opens of its process.
function nameQueues(calls) {
  const open = new Map();
  for (const it of calls) {
    const key = `${it.process} ${it.given[0]}`;
    if (it.call === "open" || it.call === "unlink") it.queue = it.payload;
    else it.queue = open.get(key) || null;
    if (it.reply === "fd") open.set(`${it.process} ${it.got[0]}`, it.payload);
    if (it.call === "close" && it.reply === "ok") open.delete(key);
  }
}

// Notes where each call begins and ends among all moments: only their order matters.
function rank(calls) {
  const moments = [...new Set(calls.flatMap((it) => [it.begin, it.end ?? it.begin]))].sort(compare);
  const ranks = new Map(moments.map((moment, k) => [moment, k]));
  for (const it of calls) {
    it.from = ranks.get(it.begin);
    it.to = it.end === null ? moments.length : ranks.get(it.end);
  }
}

// The call whose return is the last: no journal explains the prefix until then.
function faultOf(calls) {
  const returned = calls.filter((it) => it.end !== null);
  return returned.reduce((last, it) =>
    !last || compare(it.end, last.end) > 0 || (it.end === last.end && it.index > last.index)
      ? it : last, null);
}

function overlap(a, b) {
  return a !== b && a.from <= b.to && b.from <= a.to;
}

// What the calls of a prefix say against the return of one of them: texts with the calls that they
// speak of.
function evidenceOf(calls, it) {
  const steps = [];
  const say = (text, found) => {
    steps.push({ text });
    for (const other of found) steps.push({ depth: 1, text: other.line, i: calls.indexOf(other) });
  };
  if (it.reply === "got") {
    const same = (other) => other.queue === it.queue;
    const sends = calls.filter((other) => SENDS.has(other.call) && same(other) &&
      other.given[1] === it.got[0] && other.payload === it.received && !isError(other));
    const takes = calls.filter((other) => other !== it && same(other) && other.reply === "got" &&
      other.got[0] === it.got[0] && other.received === it.received);
    const nobody = "Nobody sent this message to the queue before.";
    say(sends.length === 0 ? nobody : "It was sent by", sends);
    if (takes.length > 0) say("It was also received by", takes);
  }
  const around = calls.filter((other) => overlap(it, other));
  say(around.length === 0 ? "No call overlaps it: all others came before." :
    "These overlap it, and may take effect before or after it", around);
  return steps;
}

const BAR = 22;

// The picture of a history: a lane for each process, a bar from the begin of a call to its return.
class HistoryTimeline extends Chart {
  constructor(canvas, calls, fault) {
    super(canvas, calls.map((it) => `process ${callerWord(it.process)}`));
    this.calls = calls;
    this.fault = fault;
    this.scale = Math.max(20, Math.min(90, this.width / Math.max(1, this.moments)));
  }

  get moments() {
    return this.calls.reduce((most, it) => Math.max(most, it.to, it.from + 1), 0) + 1;
  }

  get count() {
    return this.moments;
  }

  // The place of a call in the picture.
  placeOf(i) {
    return this.calls[i].from;
  }

  callAt(x, y) {
    const at = (x - LEFT) / this.scale + this.from;
    const lane = Math.floor((y - this.top) / this.lane);
    const near = (it) => Math.max(it.from - at, at - it.to, 0);
    const calls = this.calls.filter((it, i) => this.laneOf[i] === lane);
    const found = (calls.length > 0 ? calls : this.calls)
      .reduce((best, it) => (!best || near(it) < near(best) ? it : best), null);
    return this.calls.indexOf(found);
  }

  drawParts(c) {
    this.calls.forEach((it, i) => this.drawCall(c, it, i));
  }

  drawCall(c, it, i) {
    const [left, right] = [this.x(it.from - 0.4), this.x(it.to + 0.4)];
    if (right < LEFT || left > LEFT + this.width) return;
    const y = this.y(i) - BAR / 2;
    const fault = it === this.fault;
    c.fillStyle = i === this.chosen ? this.colours.chosen : this.colours.panel;
    c.fillRect(left, y, right - left, BAR);
    c.strokeStyle = fault ? this.colours.cross : this.colours.message;
    if (this.fault && overlap(this.fault, it)) c.strokeStyle = this.colours.story;
    c.lineWidth = fault ? 3 : 1.5;
    c.setLineDash(it.end === null ? [5, 4] : []);
    c.strokeRect(left, y, right - left, BAR);
    c.setLineDash([]);
    c.save();
    c.beginPath();
    c.rect(left, y, right - left, BAR);
    c.clip();
    c.fillStyle = fault ? this.colours.cross : this.colours.text;
    c.fillText(`${fault ? "\u2717 " : ""}${labelOf(it)}`, Math.max(left, LEFT) + 4, y + 15);
    c.restore();
  }
}

function labelOf(it) {
  const what = it.payload !== "" ? ` "${it.payload}"` : "";
  const received = it.received !== "" ? ` "${it.received}"` : "";
  return `${it.call}${what}${it.end === null ? "" : ` ${it.reply}${received}`}`;
}

class HistoryPage extends Page {
  load({ said, calls }) {
    this.said = said;
    this.fault = said.startsWith("impossible") ? faultOf(calls) : null;
    this.entries = calls;
    this.timeline = new HistoryTimeline(document.querySelector("canvas"), calls, this.fault);
    this.input("queue").parentElement.hidden = true;
    this.input("timed").parentElement.hidden = true;
    const kind = this.fault ? "A history that no journal explains" : "A history, undecided";
    this.input("title").textContent = kind;
    this.input("legend").textContent = "a bar: a call, from its begin to its return; dashed: it " +
      "had not returned; \u2717 and thick: its return can't be explained; only the order of moments " +
      "counts | left and right: step, with Shift in the same process; + and -, or Ctrl and the " +
      "wheel: zoom; drag: move; /: find; n: next found; e: next error";
    this.tell();
    this.choose(this.fault ? calls.indexOf(this.fault) : 0);
  }

  tell() {
    const steps = [{ text: this.said }];
    if (this.fault) {
      const text = "Every order of these calls that keeps to their begins and returns " +
        "contradicts some reply, and this is the last return:";
      steps.push({ text, i: this.entries.indexOf(this.fault) });
    }
    this.input("findings").replaceChildren(...storyList(this, "What mqlog judge says", steps));
  }

  nameOf(i) {
    return `the ${this.entries[i].call} of process ${callerWord(this.entries[i].process)}`;
  }

  entryAt(x, y) {
    return this.timeline.callAt(x, y);
  }

  choose(i) {
    if (this.entries.length === 0) return;
    const it = this.entries[i];
    this.timeline.chosen = i;
    const on = it.queue ? ` on ${it.queue}` : "";
    const returned = [it.reply, ...it.got].join(" ");
    const came = it.end === null ? "It had not returned." : `It returned ${returned}.`;
    const line = element("div", it.line, { className: `line${it === this.fault ? " error" : ""}` });
    const text = `${namesOf([it.process])} ${CALLS[it.call] || it.call}${on}. ${came}`;
    const title = it === this.fault ? "The return that can't be explained" : "Call";
    const steps = storyList(this, "What speaks of it", evidenceOf(this.entries, it));
    this.input("entry").replaceChildren(heading(title), line, element("p", text));
    this.say(`${title}: ${text}`);
    this.input("state").replaceChildren(...steps);
    this.timeline.reveal(i);
    this.draw();
  }
}

// What begins when the page is opened.
const parts = pageOf(document.querySelector("#journal").textContent);
window.page = parts.calls ? new HistoryPage(parts) : new Page(parts);
</script>
</body>
</html>
"###;
