// Journals and histories of message queue calls as text. Scripts are run, and journals and
// histories checked and drawn.
#![tactic(auto)]

mod beyond;
mod command;
mod pages;
mod progress;
mod scripts;
mod task;
mod unread;

use beyond::Beyond;
use command::{Asked, Source, asked_by, command};
use fast_mutex::FastMutex;
use journal_format::input::read_input;
use journal_tasks::{
    Drawn, Ending, LogFault, NoStart, Question, Trial, Wanted, Window, check_journal,
    compact_journal, draw_journal, judge_history, judge_in_time, record_history, record_script,
    resume_script, state_journal, try_orders, try_orders_after, try_orders_in_time,
};
use journal_views::{TAIL, Unviewed, Viewed, view_journal};
use line_reasons::formats::Format;
use line_reasons::kept::Kept;
use mq::Guarded;
use mq_model::journals::Journal;
use pages::{head_of, judge_to_page};
use progress::with_progress;
use script_runner::{Plain, RunFault};
use scripts::{script_of, stopped};
use std::alloc::{Alloc, Global};
use std::fmt::Display;
use std::io::{Eprint, ErrorKind, Input, Print, Read, Write};
use std::process::ExitCode;
use std::rt::{Env, Files};
use std::sync::Wait;
use std::thread::Threads;
use std::time::Clock;
use std::{env, fs, io};
use task::Task;
use text_io::sources::{ByteSource, Memory};
use unread::unread;

fn main(rt: HostRuntime) -> ExitCode {
    match words_of(&rt) {
        Ok(Some(words)) => asked(&rt, words.as_slice()),
        Ok(None) => {
            // If this cannot be written, there is nothing left to do.
            let _ = eprintln!(rt; "the arguments are not text");
            ExitCode::from(2)
        }
        Err(fault) => failed(&rt, None, fault),
    }
}

// The arguments of the command line, if they are text.
fn words_of(rt: &(impl Env + Alloc<A = Global>)) -> Result<Option<Vec<String>>, LogFault> {
    match env::args(rt) {
        Ok(words) => Ok(Some(words.collect(rt.alloc())?)),
        Err(error) if error.kind() == ErrorKind::OutOfMemory => Err(LogFault::NoMemory),
        Err(_) => Ok(None),
    }
}

// Does what the command line asks for, or says what is wrong with it.
fn asked(
    rt: &(impl Print + Eprint + AllocGlobal + Threads + Wait + Clock + Sync + Input + Files),
    words: &[String],
) -> ExitCode {
    let Ok(command) = command(rt.alloc()) else {
        return failed(rt, None, LogFault::NoMemory);
    };
    let matches = match command.try_get_matches_from(words) {
        Ok(matches) => matches,
        Err(error) => return not_asked(rt, error),
    };
    match asked_by(&matches) {
        None => ExitCode::from(2),
        Some(
            Asked {
                file: Source::StandardInput,
                second: Some(Source::StandardInput),
                ..
            },
        ) => {
            say(
                rt,
                None,
                &"the script and the journal can't both be the standard input",
            );
            ExitCode::from(2)
        }
        Some(asked) => match asked.file {
            Source::StandardInput => {
                answer(rt, asked, None, &mut Kept::new(rt.alloc(), rt.reader()))
            }
            Source::Path(path) => match fs::open(rt, path) {
                Ok(input) => answer(rt, asked, Some(path), &mut Kept::new(rt.alloc(), input)),
                Err(error) => not_opened(rt, path, &error),
            },
        },
    }
}

// Says what is wrong with the command line, or writes the help or the version if it asks for them.
fn not_asked(rt: &(impl Print + Eprint), error: clap::Error) -> ExitCode {
    if error.kind() == clap::error::ErrorKind::OutOfMemory {
        return failed(rt, None, LogFault::NoMemory);
    }
    match error.print(rt) {
        Ok(()) => ExitCode::from(error.exit_code() as u8),
        Err(_) => failed(rt, None, LogFault::Output),
    }
}

// Does a task on the content of a file or of standard input.
fn answer<R: Read>(
    rt: &(impl Print + Eprint + AllocGlobal + Threads + Wait + Clock + Sync + Input + Files),
    asked: Asked<'_>,
    file: Option<&str>,
    input: &mut Kept<R>,
) -> ExitCode {
    match asked.task {
        Task::Run => run(rt, file, input),
        Task::Resume => resume(rt, file, input, asked.second),
        Task::History => history(rt, file, input),
        Task::Check => check(rt, file, input),
        Task::Compact => compact(rt, file, input),
        Task::Draw(window) => draw(rt, file, input, window),
        Task::View(window) => match head_of(rt, asked.threads) {
            Ok(head) => view(rt, file, input, window, &head),
            Err(status) => status,
        },
        Task::State(wanted) => state(rt, file, input, wanted),
        Task::Judge(question, seconds) if asked.page => {
            judge_to_page(rt, file, input, question, seconds)
        }
        Task::Judge(question, seconds) => judge(rt, file, input, question, seconds),
        Task::Orders(trial, seconds) => match asked.second {
            None => orders(rt, file, input, trial, seconds),
            Some(past) => orders_after(rt, past, file, input, trial, seconds),
        },
    }
}

// Writes a line to standard error, with the name of the file that it is about, if there is one.
fn say<T: Display>(rt: &impl Eprint, file: Option<&str>, what: &T) {
    // If this cannot be written, there is nothing left to do.
    let _ = match file {
        None => eprintln!(rt; "{what}"),
        Some(path) => eprintln!(rt; "{path}: {what}"),
    };
}

fn not_opened(rt: &impl Eprint, path: &str, error: &io::Error) -> ExitCode {
    say(rt, Some(path), error);
    ExitCode::from(3)
}

fn failed(rt: &impl Eprint, file: Option<&str>, fault: LogFault) -> ExitCode {
    let about = match fault {
        LogFault::Output => None,
        _ => file,
    };
    say(rt, about, &fault);
    ExitCode::from(fault.status())
}

fn check<R: Read>(
    rt: &(impl Print + Eprint + AllocGlobal),
    file: Option<&str>,
    input: &mut Kept<R>,
) -> ExitCode {
    match check_journal(rt.alloc(), input, &mut io::writer(rt)) {
        Ok(verdict) => ExitCode::from(verdict.status()),
        Err(fault) => unread(rt, file, input, Format::Journal, fault),
    }
}

fn compact<R: Read>(
    rt: &(impl Print + Eprint + AllocGlobal),
    file: Option<&str>,
    input: &mut Kept<R>,
) -> ExitCode {
    match compact_journal(rt.alloc(), input, &mut io::writer(rt)) {
        Ok(None) => ExitCode::SUCCESS,
        Ok(Some(why)) => {
            say(rt, file, &why);
            ExitCode::from(1)
        }
        Err(fault) => unread(rt, file, input, Format::Journal, fault),
    }
}

fn draw<R: Read>(
    rt: &(impl Print + Eprint + AllocGlobal),
    file: Option<&str>,
    input: &mut Kept<R>,
    window: Window,
) -> ExitCode {
    match draw_journal(rt.alloc(), input, &mut io::writer(rt), window) {
        Ok(Drawn::Written) => ExitCode::SUCCESS,
        Ok(Drawn::Beyond(len)) => nothing_shown(rt, file, window, len),
        Err(fault) => unread(rt, file, input, Format::Journal, fault),
    }
}

// Says that the first entry that is to be shown is not there.
fn nothing_shown(rt: &impl Eprint, file: Option<&str>, window: Window, len: u64) -> ExitCode {
    let beyond = Beyond {
        from: window.from,
        len,
    };
    say(rt, file, &beyond);
    ExitCode::from(2)
}

fn view<R: Read>(
    rt: &(impl Print + Eprint + AllocGlobal),
    file: Option<&str>,
    input: &mut Kept<R>,
    window: Window,
    head: &[u8],
) -> ExitCode {
    let (from, to, tail) = (window.from, window.to, TAIL.as_bytes());
    match view_journal(rt.alloc(), input, &mut io::writer(rt), from, to, head, tail) {
        Ok(Viewed::Written) => ExitCode::SUCCESS,
        Ok(Viewed::TooLong) => {
            let what = "too long for a page: cut a window by --from K and --to L";
            say(rt, file, &what);
            ExitCode::from(1)
        }
        Ok(Viewed::Beyond(len)) => nothing_shown(rt, file, window, len),
        Err(Unviewed::Unread(fault)) => {
            unread(rt, file, input, Format::Journal, LogFault::from(fault))
        }
        Err(Unviewed::Output) => failed(rt, file, LogFault::Output),
    }
}

fn state<R: Read>(
    rt: &(impl Print + Eprint + AllocGlobal),
    file: Option<&str>,
    input: &mut Kept<R>,
    wanted: Wanted,
) -> ExitCode {
    match state_journal(rt.alloc(), input, &mut io::writer(rt), wanted) {
        Ok(None) => ExitCode::SUCCESS,
        Ok(Some(why)) => {
            say(rt, file, &why);
            ExitCode::from(1)
        }
        Err(fault) => unread(rt, file, input, Format::Journal, fault),
    }
}

fn judge<R: Read>(
    rt: &(impl Print + Eprint + AllocGlobal + Threads + Wait + Clock + Sync + Files),
    file: Option<&str>,
    input: &mut Kept<R>,
    question: Question,
    seconds: Option<u64>,
) -> ExitCode {
    let search = || judged(rt, input, &mut io::writer(rt), question, seconds);
    match with_progress(rt, "judge", search) {
        Ok(status) => ExitCode::from(status),
        Err(fault) => unread(rt, file, input, Format::History, fault),
    }
}

// Checks a history, and returns the exit status.
fn judged<R: ByteSource, W: Write>(
    rt: &(impl AllocGlobal + Clock),
    input: &mut R,
    output: &mut W,
    question: Question,
    seconds: Option<u64>,
) -> Result<u8, LogFault> {
    match seconds {
        None => judge_history(rt.alloc(), input, output, question),
        Some(seconds) => judge_in_time(rt, rt.alloc(), input, output, question, seconds),
    }
}

fn run<R: Read>(
    rt: &(impl Print + Eprint + AllocGlobal + Threads + Wait + Clock + Sync),
    file: Option<&str>,
    input: &mut Kept<R>,
) -> ExitCode {
    let text = match script_of(rt, file, input) {
        Ok(text) => text,
        Err(status) => return status,
    };
    let outcome = record_script::<FastMutex<Guarded>, _, _, _, _>(
        rt,
        rt.alloc(),
        &mut Memory { rest: &text },
        &mut io::writer(rt),
        &Plain,
    );
    match outcome {
        Ok(()) => ExitCode::SUCCESS,
        Err(fault) => stopped(rt, file, &text, fault),
    }
}

// Runs a script in the state that the journal in `input` leaves.
fn resume<R: Read>(
    rt: &(impl Print + Eprint + AllocGlobal + Threads + Wait + Clock + Sync + Input + Files),
    file: Option<&str>,
    input: &mut Kept<R>,
    script: Option<Source<'_>>,
) -> ExitCode {
    let journal = match read_input(rt.alloc(), input) {
        Ok(journal) => journal,
        Err(fault) => {
            return unread(rt, file, input, Format::Journal, LogFault::from(fault));
        }
    };
    match script {
        None | Some(Source::StandardInput) => go_on(rt, file, journal, None, &mut rt.reader()),
        Some(Source::Path(path)) => match fs::open(rt, path) {
            Ok(mut lines) => go_on(rt, file, journal, Some(path), &mut lines),
            Err(error) => not_opened(rt, path, &error),
        },
    }
}

// Runs the script in `input` in the state that a journal leaves. The files are named `script` and
// `past`.
fn go_on<R: ByteSource>(
    rt: &(impl Print + Eprint + AllocGlobal + Threads + Wait + Clock + Sync),
    past: Option<&str>,
    journal: Journal,
    script: Option<&str>,
    input: &mut R,
) -> ExitCode {
    let text = match script_of(rt, script, input) {
        Ok(text) => text,
        Err(status) => return status,
    };
    let outcome = resume_script::<FastMutex<Guarded>, _, _, _, _>(
        rt,
        rt.alloc(),
        journal,
        &mut Memory { rest: &text },
        &mut io::writer(rt),
        &Plain,
    );
    match outcome {
        Ok(None) => ExitCode::SUCCESS,
        Ok(Some(why)) => {
            say(rt, past, &why);
            ExitCode::from(1)
        }
        Err(fault) => stopped(rt, script, &text, fault),
    }
}

fn history<R: Read>(
    rt: &(impl Print + Eprint + AllocGlobal + Threads + Wait + Clock + Sync),
    file: Option<&str>,
    input: &mut Kept<R>,
) -> ExitCode {
    let text = match script_of(rt, file, input) {
        Ok(text) => text,
        Err(status) => return status,
    };
    let outcome = record_history::<FastMutex<Guarded>, _, _, _>(
        rt,
        rt.alloc(),
        &mut Memory { rest: &text },
        &mut io::writer(rt),
    );
    match outcome {
        Ok(()) => ExitCode::SUCCESS,
        Err(fault) => stopped(rt, file, &text, fault),
    }
}

fn orders<R: Read>(
    rt: &(impl Print + Eprint + AllocGlobal + Threads + Wait + Clock + Sync + Files),
    file: Option<&str>,
    input: &mut Kept<R>,
    trial: Trial,
    seconds: Option<u64>,
) -> ExitCode {
    let text = match script_of(rt, file, input) {
        Ok(text) => text,
        Err(status) => return status,
    };
    if seconds.is_some() {
        let journal = Journal::new(rt.alloc());
        return orders_on(rt, None, journal, file, &text, trial, seconds);
    }
    let mut script = Memory { rest: &text };
    let search = || try_orders(rt.alloc(), &mut script, &mut io::writer(rt), trial);
    match with_progress(rt, "orders", search) {
        Ok(ending) => ended(rt, file, ending),
        Err(fault) => stopped(rt, file, &text, fault),
    }
}

fn ended(rt: &impl Eprint, file: Option<&str>, ending: Ending) -> ExitCode {
    match ending {
        Ending::NoSuch => say(rt, file, &"no outcome of this number"),
        Ending::NotReached => say(rt, file, &"no outcome of this number within the budget"),
        Ending::Well | Ending::Deadlock | Ending::OutOfBudget => {}
    }
    ExitCode::from(ending.status())
}

// Tries the interleavings of a script in the state that the journal `past` leaves.
fn orders_after<R: Read>(
    rt: &(impl Print + Eprint + AllocGlobal + Threads + Wait + Clock + Sync + Input + Files),
    past: Source<'_>,
    file: Option<&str>,
    input: &mut Kept<R>,
    trial: Trial,
    seconds: Option<u64>,
) -> ExitCode {
    match past {
        Source::StandardInput => {
            let mut entries = Kept::new(rt.alloc(), rt.reader());
            orders_from(rt, None, &mut entries, file, input, trial, seconds)
        }
        Source::Path(path) => match fs::open(rt, path) {
            Ok(entries) => {
                let mut entries = Kept::new(rt.alloc(), entries);
                orders_from(rt, Some(path), &mut entries, file, input, trial, seconds)
            }
            Err(error) => not_opened(rt, path, &error),
        },
    }
}

// The same with the journal in `entries`, whose file is named `past`.
fn orders_from<J: Read, R: Read>(
    rt: &(impl Print + Eprint + AllocGlobal + Threads + Wait + Clock + Sync + Files),
    past: Option<&str>,
    entries: &mut Kept<J>,
    file: Option<&str>,
    input: &mut Kept<R>,
    trial: Trial,
    seconds: Option<u64>,
) -> ExitCode {
    let journal = match read_input(rt.alloc(), entries) {
        Ok(journal) => journal,
        Err(fault) => {
            return unread(rt, past, entries, Format::Journal, LogFault::from(fault));
        }
    };
    match script_of(rt, file, input) {
        Ok(text) => orders_on(rt, past, journal, file, &text, trial, seconds),
        Err(status) => status,
    }
}

// The same with this journal and the text of the script.
fn orders_on(
    rt: &(impl Print + Eprint + AllocGlobal + Threads + Wait + Clock + Sync + Files),
    past: Option<&str>,
    journal: Journal,
    file: Option<&str>,
    text: &[u8],
    trial: Trial,
    seconds: Option<u64>,
) -> ExitCode {
    let search = || tried(rt, journal, text, trial, seconds);
    match with_progress(rt, "orders", search) {
        Ok(Ok(ending)) => ended(rt, file, ending),
        Ok(Err(why)) => {
            say(rt, past, &why);
            ExitCode::from(1)
        }
        Err(fault) => stopped(rt, file, text, fault),
    }
}

fn tried(
    rt: &(impl Print + AllocGlobal + Clock),
    journal: Journal,
    text: &[u8],
    trial: Trial,
    seconds: Option<u64>,
) -> Result<Result<Ending, NoStart>, RunFault> {
    let mut script = Memory { rest: text };
    let mut output = io::writer(rt);
    match seconds {
        None => try_orders_after(rt.alloc(), journal, &mut script, &mut output, trial),
        Some(seconds) => {
            let alloc = rt.alloc();
            try_orders_in_time(rt, alloc, journal, &mut script, &mut output, trial, seconds)
        }
    }
}
