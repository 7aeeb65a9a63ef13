//! The tasks, by name and options.
ghost use Rattle.std.specs.Prelude.{◌≡◌};
ghost use Rattle.mqlog.specs.Task.{budget_of, task_named, trial_of, question_of, wanted_of, window_of};

use journal_tasks::{LAST, Question, REPORT, Trial, WHOLE, Wanted, Window};
use journal_views::Form;

/// What the program is asked to do.
#[derive(Clone, Copy)]
pub enum Task {
    /// Runs a script and writes its journal.
    Run,
    /// Runs a script in the state that a journal leaves, and writes the journal of both.
    Resume,
    /// Runs a script and writes the history of its calls.
    History,
    /// Checks a journal.
    Check,
    /// Writes a short journal that leaves an equivalent state.
    Compact,
    /// Writes a picture of a journal.
    Draw(Window),
    /// Writes a page of a journal.
    View(Window),
    /// Writes the state after a journal, or after a prefix of it.
    State(Wanted),
    /// Checks whether a concurrent history is linearizable, in so many seconds if they are given.
    Judge(Question, Option<u64>),
    /// Tries every interleaving of the calls of a script, in so many seconds if they are given.
    Orders(Trial, Option<u64>),
}

/// The options that were given.
#[derive(Clone, Copy)]
pub struct Options {
    pub from: Option<u64>,
    pub to: Option<u64>,
    pub at: Option<u64>,
    pub journal: Option<u64>,
    pub budget: Option<u64>,
    pub seconds: Option<u64>,
    pub json: bool,
    /// Whether a journal that explains a history is wanted.
    pub explained: bool,
}

/// The task with this name and these options, if there is one.
pub fn task_named(name: &str, options: Options) -> Option<Task>
    ensures { result ≡ task_named name.now options }
{
    let task = match name {
        "run" => Task::Run,
        "resume" => Task::Resume,
        "history" => Task::History,
        "check" => Task::Check,
        "compact" => Task::Compact,
        "draw" => Task::Draw(window_of(options)),
        "view" => Task::View(window_of(options)),
        "state" => Task::State(wanted_of(options)),
        "judge" => Task::Judge(question_of(options), options.seconds),
        "orders" => Task::Orders(trial_of(options), options.seconds),
        _ => return None,
    };
    Some(task)
}

// The part of a journal that is shown.
fn window_of(options: Options) -> Window
    ensures { result ≡ window_of options }
{
    Window {
        from: options.from.unwrap_or(WHOLE.from),
        to: options.to.unwrap_or(WHOLE.to),
    }
}

// Which state is written, and in which form.
fn wanted_of(options: Options) -> Wanted
    ensures { result ≡ wanted_of options }
{
    Wanted {
        at: options.at,
        form: if options.json { Form::Json } else { LAST.form },
    }
}

// The maximum number of steps, if there is one: given seconds alone, the number of steps is not
// limited.
fn budget_of(options: Options) -> Option<u64>
    ensures { result ≡ budget_of options }
{
    match options.seconds {
        Some(_) => Some(options.budget.unwrap_or(u64::MAX)),
        None => options.budget,
    }
}

// How a history is checked.
fn question_of(options: Options) -> Question
    ensures { result ≡ question_of options }
{
    Question {
        journal: options.explained,
        budget: budget_of(options),
    }
}

// How the interleavings are tried.
fn trial_of(options: Options) -> Trial
    ensures { result ≡ trial_of options }
{
    Trial {
        journal: options.journal,
        budget: budget_of(options).unwrap_or(REPORT.budget),
    }
}
