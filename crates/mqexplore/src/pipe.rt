//! A program behind a pipe.
ghost use Rattle.std.specs.Prelude.{true};

use exploration::explore::{Ending, Program, Summary};
use exploration::fault::Fault;
use exploration::operation::Trace;
use exploration::request::{Request, request_text, write_line};
use exploration::trace::{Lines, Room, read_trace};
use std::alloc::{AllocError, Global};
use std::io::{BufRead, Write};

/// A launcher that answers each request with a trace.
#[derive(Drop)]
pub struct Pipe<R: BufRead + Drop, W: Write + Drop> {
    lines: Lines<R>,
    output: W,
    rooms: Vec<Room>,
    most_steps: usize,
    alloc: Global,
}

impl<R: BufRead + Drop, W: Write + Drop> Pipe<R, W> {
    /// Reads requests from these lines, writes what to run next to the output, and refuses a run of
    /// more steps than this.
    pub fn new(alloc: Global, lines: Lines<R>, output: W, most_steps: usize) -> Pipe<R, W> {
        Pipe {
            lines,
            output,
            rooms: Vec::new(alloc),
            most_steps,
            alloc,
        }
    }

    /// Writes a line, and flushes.
    pub fn say(&mut self, line: &str) -> Result<(), Fault> {
        write_line(&mut self.output, line)?;
        match self.output.flush() {
            Ok(()) => Ok(()),
            Err(_) => Err(Fault::Output),
        }
    }

    fn trace(&mut self) -> Result<Trace, Fault> {
        read_trace(
            self.alloc,
            &mut self.lines,
            &mut self.rooms,
            self.most_steps,
        )
    }
}

fn bound_text(alloc: Global, bound: Option<u32>) -> Result<String, AllocError> {
    match bound {
        Some(most) => format!(in alloc; "bound {most}\n"),
        None => String::from_str(alloc, "bound all\n"),
    }
}

/// The lines that end an exploration.
pub fn summary_text(alloc: Global, summary: &Summary) -> Result<String, AllocError> {
    match summary.ending {
        Ending::All if summary.checked == 0 => String::from_str(alloc, "done all\n"),
        Ending::All => format!(in alloc; "done unseen {} {}\n", summary.unseen, summary.checked),
        Ending::Budget => String::from_str(alloc, "done budget\n"),
    }
}

impl<R: BufRead + Drop, W: Write + Drop> Program for Pipe<R, W> {
    // A proof knows nothing about what the other side showed.
    ghost could = { λ _ _ _. true };

    fn run(&mut self, alloc: Global, request: &Request) -> Result<Trace, Fault> {
        let line = request_text(alloc, request)?;
        self.say(&line)?;
        self.trace()
    }

    fn run_at_random(&mut self, alloc: Global, seed: u64) -> Result<Trace, Fault> {
        let line = format!(in alloc; "random {seed}\n")?;
        self.say(&line)?;
        self.trace()
    }

    fn begin(&mut self, bound: Option<u32>) -> Result<(), Fault> {
        let line = bound_text(self.alloc, bound)?;
        self.say(&line)
    }

    fn rooms(&self) -> &[Room] {
        self.rooms.as_slice()
    }
}
