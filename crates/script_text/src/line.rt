//! The lines of a script, and what they mean.
ghost use Rattle.std.specs.Prelude.{◌≡◌, ◌≤◌, ◌<◌, ◌∷◌, IfSome, ◌==◌, true, length, map, position};
ghost use Rattle.std.specs.Option.{option_map};
ghost use Rattle.mq_model.specs.Deadlines.{is_moment};
ghost use Rattle.script_text.specs.Script.{is_skipped, is_phase_end, is_clock, processes_written, clock_written, moment_written, call_line_written, line_written, lines_of, processes_behind, time_behind, said_call, said_line};

use crate::clock::FixedClock;
use crate::command::{Command, command_of, deadline_of};
use mq_model::entries::Deadline;
use mq_model::limits::{NANOSECONDS, PROCESSES};
use text_io::words::count_of;

/// A call with its process, its line, counted from 1, and the clock of its phase.
#[derive(Clone, Copy)]
pub struct ScriptCall<T> {
    pub process: u32,
    pub line: u64,
    pub command: Command<T>,
    pub clock: FixedClock,
}

/// The time of a phase that is being read.
#[derive(Clone, Copy)]
pub struct PhaseTime {
    /// The time that its clocks return.
    pub moment: Deadline,
    /// Whether the phase has a call. Then no clock line may follow.
    pub begun: bool,
}

/// What a line means. `C` is a call with its process.
#[derive(Clone, Copy)]
pub enum Line<C> {
    /// Nothing: an empty line, or a comment.
    Skipped,
    /// The number of processes.
    Processes(u32),
    /// The end of a phase.
    PhaseEnd,
    /// The time that the clocks return from here on.
    Clock(Deadline),
    Call(C),
}

impl PhaseTime {
    /// The time after a line.
    pub fn behind(self, line: &Line<ScriptCall<&[u8]>>) -> PhaseTime
        ensures { result ≡ time_behind (said_line line.now) self }
    {
        match line {
            Line::Clock(moment) => PhaseTime {
                moment: *moment,
                begun: self.begun,
            },
            Line::Call(_) => PhaseTime {
                moment: self.moment,
                begun: true,
            },
            Line::PhaseEnd => PhaseTime {
                moment: self.moment,
                begun: false,
            },
            Line::Skipped | Line::Processes(_) => self,
        }
    }
}

/// The first line, with its line feed, and the bytes after it.
pub fn first_line(text: &[u8]) -> (&[u8], &[u8])
    requires { 0 < length text.now }
    ensures lines { lines_of text.now ≡ result.0.now ∷ lines_of result.1.now }
    ensures some { 0 < length result.0.now }
    ensures shorter { length result.1.now < length text.now }
{
    match first_feed(text) {
        Some(at) => text.split_at(at + 1),
        None => (text, &[]),
    }
}

fn first_feed(text: &[u8]) -> Option<usize>
    ensures { result ≡ position (λ b. b == 10) text.now }
{
    text.iter().position(|b| *b == b'\n')
}

/// What the words of a line mean, if the line has this number and its phase has this time so far.
/// The number of processes comes first.
pub fn line_of<'s>(
    processes: Option<u32>,
    number: u64,
    time: PhaseTime,
    words: &[&'s [u8]],
) -> Option<Line<ScriptCall<&'s [u8]>>>
    requires moment { is_moment time.moment ≡ true }
    ensures written { option_map said_line result ≡ line_written processes number time
        (map (λ word. word.now) words.now) }
    ensures count { IfSome processes (λ n. (1 ≤ n) × (n ≤ 32)) →
        IfSome result (λ line. IfSome (processes_behind (said_line line) processes) (λ n. (1 ≤ n) ×
        (n ≤ 32))) }
    ensures moment { IfSome result (λ line.
        is_moment (time_behind (said_line line) time).moment ≡ true) }
{
    if is_skipped(words) {
        return Some(Line::Skipped);
    }
    let Some(processes) = processes else {
        return Some(Line::Processes(processes_of(words)?));
    };
    if is_phase_end(words) {
        return Some(Line::PhaseEnd);
    }
    if is_clock(words) {
        if time.begun {
            return None;
        }
        return Some(Line::Clock(clock_of(words)?));
    }
    Some(Line::Call(call_of(processes, number, time.moment, words)?))
}

pub(crate) fn is_skipped(words: &[&[u8]]) -> bool
    ensures { result ≡ is_skipped (map (λ word. word.now) words.now) }
{
    match words {
        [] => true,
        [word, ..] => word.first() == Some(&b'#'),
    }
}

fn is_phase_end(words: &[&[u8]]) -> bool
    ensures { result ≡ is_phase_end (map (λ word. word.now) words.now) }
{
    match words {
        [word] => *word == b"--".as_slice(),
        _ => false,
    }
}

pub(crate) fn is_clock(words: &[&[u8]]) -> bool
    ensures { result ≡ is_clock (map (λ word. word.now) words.now) }
{
    match words {
        [] => false,
        [word, ..] => *word == b"clock".as_slice(),
    }
}

// The time that a clock line sets.
pub(crate) fn clock_of(words: &[&[u8]]) -> Option<Deadline>
    ensures written { result ≡ clock_written (map (λ word. word.now) words.now) }
    ensures moment { IfSome result (λ moment. is_moment moment ≡ true) }
{
    match words {
        [_, sec, nsec] => moment_of(sec, nsec),
        _ => None,
    }
}

fn moment_of(sec: &[u8], nsec: &[u8]) -> Option<Deadline>
    ensures written { result ≡ moment_written sec.now nsec.now }
    ensures moment { IfSome result (λ moment. is_moment moment ≡ true) }
{
    let moment = deadline_of(sec, nsec)?;
    if moment.nsec < 0 || moment.nsec >= NANOSECONDS {
        return None;
    }
    Some(moment)
}

pub(crate) fn processes_of(words: &[&[u8]]) -> Option<u32>
    ensures written { result ≡ processes_written (map (λ word. word.now) words.now) }
    ensures bounds { IfSome result (λ n. (1 ≤ n) × (n ≤ 32)) }
{
    match words {
        [word, count] if *word == b"processes".as_slice() => count_of(PROCESSES, count),
        _ => None,
    }
}

fn call_of<'s>(
    processes: u32,
    number: u64,
    moment: Deadline,
    words: &[&'s [u8]],
) -> Option<ScriptCall<&'s [u8]>>
    requires { is_moment moment ≡ true }
    ensures { option_map said_call result ≡ call_line_written processes number moment
        (map (λ word. word.now) words.now) }
{
    match words {
        [process, words @ ..] => Some(ScriptCall {
            process: count_of(processes, process)?,
            line: number,
            command: command_of(words)?,
            clock: FixedClock { moment },
        }),
        [] => None,
    }
}
