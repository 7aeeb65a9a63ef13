//! From the bytes of a script to its calls.
ghost use Rattle.std.specs.Prelude.{◌≡◌, ◌≤◌, ◌<◌, ◌+◌, ◌^◌, ◌∷◌, ◌++◌, [], IfOk, IfSome, OnOk, if◌then◌else◌, length, true, Some, None};
ghost use Rattle.script_text.specs.Phases.{whole_behind};
ghost use Rattle.script_text.specs.ScriptFault.{Gives};
ghost use Rattle.script_text.specs.Script.{Written, is_within_limits, line_read, or_fault, place_behind, processes_behind, said_line, said_script, script_written, time_behind, with_line};
ghost use Rattle.mq_model.specs.Deadlines.{is_moment};

use crate::fault::ScriptFault;
use crate::line::{Line, PhaseTime, ScriptCall, first_line, line_of};
use mq_model::entries::Deadline;
use std::alloc::{AllocError, Global};
use std::mem;
use text_io::words::words;

/// The maximum length of a script, in bytes.
pub const MOST_BYTES: usize = 1_048_576;
/// The maximum number of call lines of a script.
const MOST_CALLS: u64 = 1000;

/// A script that was read and checked: the number of its processes, and the calls of its phases, in
/// the order of their lines. Names and messages are slices of the script's bytes.
#[derive(Drop)]
pub struct Script<'s> {
    pub processes: u32,
    pub phases: Vec<Vec<ScriptCall<&'s [u8]>>>,
}

/// The script in these bytes. `ScriptFault::BadCall`: the first wrong line. It may be the one that
/// exceeds a limit, or if the number of processes is missing, the one after the last.
pub fn read_script<'s>(alloc: Global, text: &'s [u8]) -> Result<Script<'s>, ScriptFault>
    ensures written { Gives said_script result (script_written text.now) }
    ensures count { IfOk result (λ script. (1 ≤ script.processes) × (script.processes ≤ 32)) }
{
    let mut phases = Phases::new(alloc);
    let mut processes = None;
    let mut at = Place {
        lines: 0,
        bytes: 0,
        calls: 0,
        time: PhaseTime {
            moment: Deadline { sec: 0, nsec: 0 },
            begun: false,
        },
    };
    let mut rest = text;
    while !rest.is_empty() {
        let (bytes, others) = first_line(rest);
        let (line, place) = next_line(alloc, processes, at, bytes)?;
        processes = processes_behind(&line, processes);
        phases.add(line)?;
        at = place;
        rest = others;
    }
    let Some(processes) = processes else {
        return Err(ScriptFault::BadCall(at.lines + 1));
    };
    Ok(phases.finish(processes)?)
}

/// How much of a script was read, and the time of the phase.
#[derive(Clone, Copy)]
pub struct Place {
    pub lines: u64,
    pub bytes: u64,
    pub calls: u64,
    pub time: PhaseTime,
}

impl Place {
    // The position after a line, if it is within the limits of a script.
    fn behind(self, bytes: &[u8], line: &Line<ScriptCall<&[u8]>>) -> Option<Place>
        requires { self.lines + 1 < 2 ^ 64 }
        ensures next { result ≡ (let next = place_behind self bytes.now (said_line line.now) in
            if is_within_limits next then Some next else None) }
        ensures time { IfSome result (λ next.
            next.time ≡ time_behind (said_line line.now) self.time) }
        ensures lines { IfSome result (λ next. next.lines ≡ self.lines + 1) }
        ensures bytes { IfSome result (λ next. (next.bytes ≡ self.bytes + length bytes.now) ×
            (next.bytes ≤ 1048576)) }
    {
        let calls = match line {
            Line::Call(_) => self.calls.checked_add(1)?,
            _ => self.calls,
        };
        let bytes = self.bytes.checked_add(bytes.len() as u64)?;
        if bytes > MOST_BYTES as u64 || calls > MOST_CALLS {
            return None;
        }
        Some(Place {
            lines: self.lines + 1,
            bytes,
            calls,
            time: self.time.behind(line),
        })
    }
}

// What the bytes of the next line mean, and the position after it.
fn next_line<'s>(
    alloc: Global,
    processes: Option<u32>,
    at: Place,
    bytes: &'s [u8],
) -> Result<(Line<ScriptCall<&'s [u8]>>, Place), ScriptFault>
    requires lines { at.lines + 1 < 2 ^ 64 }
    requires count { IfSome processes (λ n. (1 ≤ n) × (n ≤ 32)) }
    requires moment { is_moment at.time.moment ≡ true }
    ensures read { Gives (λ read. (said_line read.0, read.1)) result
        (or_fault (line_read processes at bytes.now) (at.lines + 1) (λ read. Ok read)) }
    ensures count { IfOk result (λ read. IfSome (processes_behind (said_line read.0) processes)
        (λ n. (1 ≤ n) × (n ≤ 32))) }
    ensures moment { IfOk result (λ read. is_moment read.1.time.moment ≡ true) }
    ensures lines { IfOk result (λ read. read.1.lines ≡ at.lines + 1) }
    ensures bytes { IfOk result (λ read. (read.1.bytes ≡ at.bytes + length bytes.now) ×
        (read.1.bytes ≤ 1048576)) }
{
    let number = at.lines + 1;
    let words = words(alloc, bytes)?;
    let line = line_of(processes, number, at.time, words.as_slice()).ok_or(ScriptFault::BadCall(
        number,
    ))?;
    let place = at.behind(bytes, &line).ok_or(ScriptFault::BadCall(number))?;
    Ok((line, place))
}

// The number of processes after a line, if it is known by then.
fn processes_behind(line: &Line<ScriptCall<&[u8]>>, before: Option<u32>) -> Option<u32>
    ensures { result ≡ processes_behind (said_line line.now) before }
{
    match line {
        Line::Processes(count) => Some(*count),
        _ => before,
    }
}

/// The phases that were read so far: those that have ended, and the current one.
#[derive(Drop)]
pub struct Phases<'s> {
    alloc: Global,
    ended: Vec<Vec<ScriptCall<&'s [u8]>>>,
    current: Vec<ScriptCall<&'s [u8]>>,
}

impl<'s> Phases<'s> {
    fn new(alloc: Global) -> Phases<'s>
        ensures ended { result.ended.items ≡ [] }
        ensures current { result.current.items ≡ [] }
    {
        Phases {
            alloc,
            ended: Vec::new(alloc),
            current: Vec::new(alloc),
        }
    }

    // Adds what the next line means.
    fn add(&mut self, line: Line<ScriptCall<&'s [u8]>>) -> Result<(), AllocError>
        ensures { OnOk result ((rest : Written) →
            whole_behind self.new rest ≡
            whole_behind self.old (with_line (said_line line.entry) rest)) }
    {
        match line {
            Line::Skipped | Line::Processes(_) | Line::Clock(_) => {}
            Line::PhaseEnd => self.end()?,
            Line::Call(call) => self.current.push(call)?,
        }
        Ok(())
    }

    // Ends the current phase.
    fn end(&mut self) -> Result<(), AllocError>
        ensures current { OnOk result (self.new.current.items ≡ []) }
        ensures ended { OnOk result (self.new.ended.items ≡ self.old.ended.items ++
            self.old.current ∷ []) }
    {
        let next = Vec::new(self.alloc);
        self.ended.push(mem::replace(&mut self.current, next))?;
        Ok(())
    }

    // The script, if nothing is left to read.
    fn finish(mut self, processes: u32) -> Result<Script<'s>, AllocError>
        ensures { IfOk result (λ script.
            said_script script ≡ whole_behind self.entry
            (record { processes = processes; first = []; later = [] })) }
    {
        self.end()?;
        Ok(Script {
            processes,
            phases: self.ended,
        })
    }
}
