//! Pages that this program puts together: of a journal with known threads, and of a checked
//! history.

use crate::progress::with_progress;
use crate::unread::{unread, wrong_steps};
use crate::{failed, judged, not_opened, say};
use journal_tasks::{LogFault, Question};
use journal_views::{FRONT, HEAD, TAIL, page_of_text};
use line_reasons::formats::Format;
use line_reasons::kept::Kept;
use std::alloc::AllocGlobal;
use std::io::{Eprint, ErrorKind, Print, Read, Write};
use std::process::ExitCode;
use std::rt::Files;
use std::sync::Wait;
use std::thread::Threads;
use std::time::Clock;
use std::{fs, io};

/// The part of a page before the lines of a journal. If there is a file that names the threads of
/// the entries, it has the lines of that file; if one of them is malformed, it says so.
pub fn head_of(
    rt: &(impl Eprint + AllocGlobal + Files),
    threads: Option<&str>,
) -> Result<Vec<u8>, ExitCode> {
    let text = match threads {
        None => Vec::new(rt.alloc()),
        Some(path) => match fs::read(rt, path) {
            Ok(text) => text,
            Err(error) if error.kind() == ErrorKind::OutOfMemory => {
                return Err(failed(rt, Some(path), LogFault::NoMemory));
            }
            Err(error) => return Err(not_opened(rt, path, &error)),
        },
    };
    match wrong_steps(rt, &text) {
        Ok(None) => {}
        Ok(Some(what)) => {
            say(rt, threads, &what);
            return Err(ExitCode::from(2));
        }
        Err(_) => return Err(failed(rt, threads, LogFault::NoMemory)),
    }
    match page_of_text(rt.alloc(), &text, FRONT.as_bytes(), HEAD.as_bytes()) {
        Ok(head) => Ok(head),
        Err(_) => Err(failed(rt, threads, LogFault::NoMemory)),
    }
}

/// Checks a history, and writes the result as a page, with the journal that explains the history.
pub fn judge_to_page<R: Read>(
    rt: &(impl Print + Eprint + AllocGlobal + Threads + Wait + Clock + Sync + Files),
    file: Option<&str>,
    input: &mut Kept<R>,
    question: Question,
    seconds: Option<u64>,
) -> ExitCode {
    let asked = Question {
        journal: true,
        budget: question.budget,
    };
    let mut said = Vec::new(rt.alloc());
    let search = || judged(rt, input, &mut said, asked, seconds);
    let status = match with_progress(rt, "judge", search) {
        Ok(status) => status,
        Err(fault) => return unread(rt, file, input, Format::History, fault),
    };
    let head = match head_of(rt, None) {
        Ok(head) => head,
        Err(status) => return status,
    };
    let Ok(page) = page_of_text(rt.alloc(), &said, &head, TAIL.as_bytes()) else {
        return failed(rt, file, LogFault::NoMemory);
    };
    match io::writer(rt).write_all(&page) {
        Ok(()) => ExitCode::from(status),
        Err(_) => failed(rt, file, LogFault::Output),
    }
}
