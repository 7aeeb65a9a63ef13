//! Reading traces, line by line.

use crate::fault::Fault;
use crate::operation::{Also, Choice, End, Parked, Step, Trace, can_choose};
use crate::record::{Record, record_of};
use std::alloc::{AllocError, Global};
use std::io::BufRead;

/// How many messages a queue can hold, and how many it held when it was first seen.
#[derive(Clone, Copy)]
pub struct Room {
    pub object: u32,
    pub most: u32,
    pub held: u32,
}

/// The lines of an input.
#[derive(Drop)]
pub struct Lines<R: BufRead + Drop> {
    input: R,
    line: Vec<u8>,
    count: u64,
}

impl<R: BufRead + Drop> Lines<R> {
    /// The lines of an input, from its start.
    pub fn new(alloc: Global, input: R) -> Lines<R> {
        Lines {
            input,
            line: Vec::new(alloc),
            count: 0,
        }
    }

    /// Reads a line. False at the end of the input.
    pub fn advance(&mut self) -> Result<bool, Fault> {
        self.line.clear();
        self.count = self.count.saturating_add(1);
        match self.input.read_until(b'\n', &mut self.line) {
            Ok(count) => Ok(count != 0),
            Err(_) => Err(Fault::Input),
        }
    }

    /// The line that was read last.
    pub fn line(&self) -> &[u8] {
        self.line.as_slice()
    }

    /// The error that this line is malformed.
    pub fn malformed(&self) -> Fault {
        Fault::Malformed { line: self.count }
    }
}

// The part of a trace that was read so far.
#[derive(Drop)]
struct Draft {
    steps: Vec<Step>,
    parked: Option<Vec<Parked>>,
    left: Vec<Parked>,
}

impl Draft {
    fn new(alloc: Global) -> Draft {
        Draft {
            steps: Vec::new(alloc),
            parked: None,
            left: Vec::new(alloc),
        }
    }

    // Adds the chosen step, if one of the parked threads can make it.
    fn choose(&mut self, alloc: Global, choice: Choice) -> Result<bool, AllocError> {
        let Some(parked) = self.parked.take() else {
            return Ok(false);
        };
        if !can_choose(&parked, choice) {
            return Ok(false);
        }
        let also = Vec::new(alloc);
        self.steps.push(Step {
            parked,
            choice,
            also,
            error: 0,
            value: 0,
        })?;
        Ok(true)
    }

    fn add_also(&mut self, also: Also) -> Result<bool, AllocError> {
        match self.steps.last_mut() {
            Some(step) => {
                step.also.push(also)?;
                Ok(true)
            }
            None => Ok(false),
        }
    }

    // Adds what a line says, if it is in its place.
    fn add(
        &mut self,
        alloc: Global,
        rooms: &mut Vec<Room>,
        record: Record,
    ) -> Result<bool, AllocError> {
        match record {
            Record::At(parked) => Ok(self.park(parked)),
            Record::Chose(choice) => self.choose(alloc, choice),
            Record::Also(also) => self.add_also(also),
            Record::Gave(error, value) => Ok(self.give(error, value)),
            Record::Room(object, most, held) => {
                rooms.push(Room { object, most, held })?;
                Ok(true)
            }
            Record::Left(parked) => {
                self.left = parked;
                Ok(true)
            }
            Record::End(_, _) => Ok(false),
        }
    }

    fn park(&mut self, parked: Vec<Parked>) -> bool {
        let fits = self.parked.is_none();
        self.parked = Some(parked);
        fits
    }

    fn finish(self, end: End, fails: bool) -> Trace {
        let Draft {
            steps,
            parked: _,
            left,
        } = self;
        Trace {
            steps,
            left,
            end,
            fails,
        }
    }

    fn give(&mut self, error: u32, value: u64) -> bool {
        match self.steps.last_mut() {
            Some(step) => {
                step.error = error;
                step.value = value;
                true
            }
            None => false,
        }
    }
}

/// Reads a trace, up to its last line. It has at most `most` steps.
pub fn read_trace<R: BufRead + Drop>(
    alloc: Global,
    lines: &mut Lines<R>,
    rooms: &mut Vec<Room>,
    most: usize,
) -> Result<Trace, Fault> {
    let mut draft = Draft::new(alloc);
    for _ in 0..u64::MAX {
        if !lines.advance()? {
            return Err(Fault::Ended);
        }
        match record_of(alloc, lines.line())? {
            Some(Record::End(end, fails)) => return Ok(draft.finish(end, fails)),
            Some(record) => {
                if !draft.add(alloc, rooms, record)? {
                    return Err(lines.malformed());
                }
            }
            None => return Err(lines.malformed()),
        }
        if draft.steps.len() > most {
            return Err(Fault::TooLarge);
        }
    }
    Err(Fault::Ended)
}
