//! The command line: the tasks, their options, and the files that they read.

use crate::task::{Options, Task, task_named};
use clap::{Arg, ArgAction, ArgMatches, Command, value_parser};
use std::alloc::{AllocError, Global};

/// The version of the program, as in the file VERSION.
const VERSION: &str = "0.1.0";

const STATUSES: &str = "\
Exit status:
  0  done
  1  not legal, not linearizable, or not there: the task says which
  2  a line is malformed, or the arguments are wrong
  3  a read or a write failed
  4  memory was refused
  5  run, history, resume: the script is deadlocked; orders: an interleaving
     deadlocks; judge: the budget was used up
  6  orders: the budget was used up, and no deadlock was found, or no
     outcome of the number that --journal wants";

/// The command line, as `clap` describes it.
pub fn command<'a>(alloc: Global) -> Result<Command<'a>, AllocError> {
    let command = Command::new(alloc, "mqlog")
        .version(VERSION)
        .about("Writes, checks, draws, searches and judges journals of message queue calls")
        .after_help(STATUSES)
        .subcommand_required(true);
    let command = with_runs(alloc, command)?;
    let command = with_checks(alloc, command)?;
    let command = with_views(alloc, command)?;
    with_searches(alloc, command)
}

// Adds the tasks that run scripts.
fn with_runs<'a>(alloc: Global, command: Command<'a>) -> Result<Command<'a>, AllocError> {
    command
        .subcommand(task(alloc, "run", "Runs a script, and writes its journal")?)?
        .subcommand(resume(alloc)?)?
        .subcommand(task(
            alloc,
            "history",
            "Runs a script, and writes the history of its calls",
        )?)
}

// Adds the tasks that check a journal, or shorten it.
fn with_checks<'a>(alloc: Global, command: Command<'a>) -> Result<Command<'a>, AllocError> {
    command
        .subcommand(task(
            alloc,
            "check",
            "Says whether a journal is legal, or names its first entry that is not",
        )?)?
        .subcommand(task(
            alloc,
            "compact",
            "Writes a short journal that leaves the same state",
        )?)
}

// Adds the tasks that show a journal.
fn with_views<'a>(alloc: Global, command: Command<'a>) -> Result<Command<'a>, AllocError> {
    command
        .subcommand(windowed(
            alloc,
            "draw",
            "Writes a picture (SVG) of a journal, of at most 2000 entries",
        )?)?
        .subcommand(view(alloc)?)?
        .subcommand(state(alloc)?)
}

// Adds the tasks that search.
fn with_searches<'a>(alloc: Global, command: Command<'a>) -> Result<Command<'a>, AllocError> {
    command
        .subcommand(judge(alloc)?)?
        .subcommand(orders(alloc)?)
}

// A task that reads a file.
fn task<'a>(alloc: Global, name: &'a str, about: &'a str) -> Result<Command<'a>, AllocError> {
    let file = Arg::new(alloc, "FILE").help("The file to read; none, or -, for standard input");
    Command::new(alloc, name).about(about).arg(file)
}

// An option with a number.
fn number<'a>(alloc: Global, name: &'a str, letter: &'a [&'a str], help: &'a str) -> Arg<'a> {
    Arg::new(alloc, name)
        .long(name)
        .value_names(letter)
        .value_parser(value_parser!(u64))
        .help(help)
}

// The time after which a search ends.
fn seconds<'a>(alloc: Global) -> Arg<'a> {
    number(
        alloc,
        "seconds",
        &["N"],
        "Ends the search after about N seconds; its steps have no limit, unless --budget is given",
    )
}

// An option without a value.
fn flag<'a>(alloc: Global, id: &'a str, name: &'a str, help: &'a str) -> Arg<'a> {
    Arg::new(alloc, id)
        .long(name)
        .action(ArgAction::SetTrue)
        .help(help)
}

// An option with the path of a file.
fn path<'a>(alloc: Global, id: &'a str, name: &'a str, help: &'a str) -> Arg<'a> {
    Arg::new(alloc, id)
        .long(name)
        .value_names(&["FILE"])
        .help(help)
}

fn resume<'a>(alloc: Global) -> Result<Command<'a>, AllocError> {
    task(
        alloc,
        "resume",
        "Runs a script in the state that a journal leaves, and writes the journal of both",
    )?
    .arg(path(
        alloc,
        "script",
        "script",
        "The script; -, for standard input",
    )
    .required(true))
}

// A task that shows a part of a journal.
fn windowed<'a>(alloc: Global, name: &'a str, about: &'a str) -> Result<Command<'a>, AllocError> {
    task(alloc, name, about)?
        .arg(number(alloc, "from", &["K"], "The first entry that is shown"))?
        .arg(number(alloc, "to", &["L"], "The last entry that is shown"))
}

fn view<'a>(alloc: Global) -> Result<Command<'a>, AllocError> {
    windowed(
        alloc,
        "view",
        "Writes a page (HTML) that steps through a journal of at most 1000000 entries",
    )?
    .arg(
        Arg::new(alloc, "threads")
            .long("threads")
            .value_names(&["FILE"])
            .help(
                "A file with lines PLACE THREAD STEP, as yak-explore writes it: lanes are threads",
            ),
    )
}

fn state<'a>(alloc: Global) -> Result<Command<'a>, AllocError> {
    task(
        alloc,
        "state",
        "Writes the queues and processes as a journal leaves them",
    )?
    .arg(number(
        alloc,
        "at",
        &["K"],
        "The state after the first K entries, in place of all",
    ))?
    .arg(flag(alloc, "json", "json", "Writes JSON"))
}

fn judge<'a>(alloc: Global) -> Result<Command<'a>, AllocError> {
    task(
        alloc,
        "judge",
        "Says whether a history is linearizable, or which prefix of it is not",
    )?
    .arg(flag(
        alloc,
        "explained",
        "journal",
        "Also writes a journal that explains the history",
    ))?
    .arg(flag(
        alloc,
        "page",
        "page",
        "Writes a page (HTML) of the answer: of that journal, or of the prefix that is impossible",
    ))?
    .arg(number(
        alloc,
        "budget",
        &["N"],
        "Takes at most N steps, in place of 5000000 and 10 for each call",
    ))?
    .arg(seconds(alloc))
}

fn orders<'a>(alloc: Global) -> Result<Command<'a>, AllocError> {
    task(
        alloc,
        "orders",
        "Tries every interleaving of a script's calls, and writes what they lead to",
    )?
    .arg(number(
        alloc,
        "journal",
        &["K"],
        "Writes a journal that leads to outcome or deadlock K, in place of the report",
    ))?
    .arg(number(
        alloc,
        "budget",
        &["N"],
        "Takes at most N steps, in place of 5000000",
    ))?
    .arg(seconds(alloc))?
    .arg(path(
        alloc,
        "past",
        "from",
        "Begins in the state that this journal leaves",
    ))
}

/// A file that a task reads.
#[derive(Clone, Copy)]
pub enum Source<'a> {
    StandardInput,
    Path(&'a str),
}

/// A task and the file that it reads, and for a task that reads two the second one: the script of
/// `resume`, the journal of `orders`. Then the file that names the threads of a journal, and
/// whether `judge` writes a page.
#[derive(Clone, Copy)]
pub struct Asked<'a> {
    pub task: Task,
    pub file: Source<'a>,
    pub second: Option<Source<'a>>,
    pub threads: Option<&'a str>,
    pub page: bool,
}

/// What the command line asks for.
pub fn asked_by<'a>(matches: &ArgMatches<'a>) -> Option<Asked<'a>> {
    let (name, given) = matches.subcommand()?;
    let task = task_named(name, options_of(given))?;
    Some(Asked {
        task,
        file: source_of(given.get_str("FILE")),
        second: second_of(task, given),
        threads: given.get_str("threads"),
        page: given.get_flag("page"),
    })
}

// The file that an argument names.
fn source_of(word: Option<&str>) -> Source<'_> {
    match word {
        None | Some("-") => Source::StandardInput,
        Some(path) => Source::Path(path),
    }
}

// The second file that a task reads.
fn second_of<'a>(task: Task, matches: &ArgMatches<'a>) -> Option<Source<'a>> {
    let word = match task {
        Task::Resume => matches.get_str("script")?,
        Task::Orders(_, _) => matches.get_str("past")?,
        _ => return None,
    };
    Some(source_of(Some(word)))
}

// The options given to a task.
fn options_of(matches: &ArgMatches<'_>) -> Options {
    Options {
        from: matches.get_one::<u64>("from"),
        to: matches.get_one::<u64>("to"),
        at: matches.get_one::<u64>("at"),
        journal: matches.get_one::<u64>("journal"),
        budget: matches.get_one::<u64>("budget"),
        seconds: matches.get_one::<u64>("seconds"),
        json: matches.get_flag("json"),
        explained: matches.get_flag("explained"),
    }
}
