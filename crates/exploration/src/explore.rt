//! Exploring all schedules of a program that can matter.
ghost use Rattle.std.specs.Prelude.{◌≡◌, Bool, true, List, [], IfOk};
ghost use Rattle.exploration.specs.Shown.{Possible, Shows};
ghost use Rattle.exploration.specs.declared.operation.Choice.{Choice};

use crate::fault::Fault;
use crate::follow::Rules;
use crate::operation::{End, Trace};
use crate::plan::Plan;
use crate::request::Request;
use crate::search::{Limits, Search};
use crate::trace::Room;
use std::alloc::Global;
use std::collections::HashSet;

/// Runs a program under given schedules.
pub trait Program {
    /// Some run showed that this choice is possible after those.
    ghost could: { Self → List Choice → Choice → Bool };

    /// Runs the program with these choices, each of which some run showed to be possible.
    fn run(&mut self, alloc: Global, request: &Request) -> Result<Trace, Fault>
        requires { Possible (could self.old) request.now.choices.items }
        ensures keeps { (before : List Choice) (choice : Choice) →
            could self.old before choice ≡ true → could self.new before choice ≡ true }
        ensures shows { IfOk result (λ trace. Shows (could self.new) [] trace.steps.items) };

    /// Runs the program with pseudorandom choices from a seed.
    fn run_at_random(&mut self, alloc: Global, seed: u64) -> Result<Trace, Fault>
        ensures { (before : List Choice) (choice : Choice) →
            could self.old before choice ≡ true → could self.new before choice ≡ true };

    /// Called before the search within a bound begins, or the search without one.
    fn begin(&mut self, bound: Option<u32>) -> Result<(), Fault>
        ensures { (before : List Choice) (choice : Choice) →
            could self.old before choice ≡ true → could self.new before choice ≡ true };

    /// The queues that the runs showed.
    fn rooms(&self) -> &[Room];
}

/// The options of an exploration.
#[derive(Clone, Copy)]
pub struct Options {
    /// If given, the searches with the bounds from 0 to this one come first.
    pub bounds: Option<u32>,
    pub rules: Rules,
    /// The maximum number of runs.
    pub budget: u64,
    /// The number of random runs at the end.
    pub check: u64,
    pub limits: Limits,
}

/// The result of an exploration.
#[derive(Clone, Copy, PartialEq, Eq)]
pub enum Ending {
    /// Every order that can matter was tried.
    All,
    /// The budget of runs was used up.
    Budget,
}

// The result of a search.
#[derive(Clone, Copy, PartialEq, Eq)]
enum Searched {
    Whole,
    WithinBound,
    OutOfBudget,
}

/// The counts of an exploration.
#[derive(Drop)]
pub struct Tally {
    pub runs: u64,
    /// The partial orders that were seen, by their hashes.
    orders: HashSet<u64>,
}

/// The summary of an exploration.
#[derive(Drop)]
pub struct Summary {
    pub ending: Ending,
    pub runs: u64,
    /// The number of random runs with a partial order that no run before had.
    pub unseen: u64,
    /// The number of random runs.
    pub checked: u64,
}

// Whether a run with this end shows everything that the program does.
fn is_whole(end: End) -> bool {
    matches!(end, End::Done | End::Deadlock | End::Died)
}

impl Tally {
    fn new(alloc: Global) -> Tally {
        Tally {
            runs: 0,
            orders: HashSet::new(alloc),
        }
    }

    // Counts a run, if the budget has one left.
    fn starts_run(&mut self, budget: u64) -> bool {
        if self.runs < budget {
            self.runs += 1;
            true
        } else {
            false
        }
    }

    fn note(&mut self, key: u64) -> Result<(), Fault> {
        match self.orders.insert(key) {
            Ok(_) => Ok(()),
            Err(_) => Err(Fault::NoMemory),
        }
    }
}

// Tries the schedules within a bound, or all. It terminates: its measure is the maximum number of
// runs that are left.
fn search_within<P: Program>(
    alloc: Global,
    program: &mut P,
    options: Options,
    bound: Option<u32>,
    tally: &mut Tally,
) -> Result<Searched, Fault> {
    program.begin(bound)?;
    let mut search = Search::new(alloc, options.rules, bound, options.limits);
    let mut request = Request::first(alloc);
    'runs: loop {
        if !tally.starts_run(options.budget) {
            return Ok(Searched::OutOfBudget);
        }
        let trace = program.run(alloc, &request)?;
        let goes_on = search.learn(alloc, program.rooms(), &trace)?;
        if goes_on && is_whole(trace.end) {
            tally.note(search.order_key())?;
        }
        match search.next(alloc)? {
            Some(next) => request = next,
            None => return Ok(ending_of(search.is_cut())),
        }
    }
}

fn ending_of(is_cut: bool) -> Searched {
    if is_cut {
        Searched::WithinBound
    } else {
        Searched::Whole
    }
}

// Searches with the bounds from 0 on, as long as there are schedules beyond the bound, and then
// without a bound.
fn search_all<P: Program>(
    alloc: Global,
    program: &mut P,
    options: Options,
    tally: &mut Tally,
) -> Result<Ending, Fault> {
    if let Some(most) = options.bounds {
        for bound in 0..=most {
            match search_within(alloc, program, options, Some(bound), tally)? {
                Searched::Whole => return Ok(Ending::All),
                Searched::WithinBound => {}
                Searched::OutOfBudget => return Ok(Ending::Budget),
            }
        }
    }
    match search_within(alloc, program, options, None, tally)? {
        Searched::Whole | Searched::WithinBound => Ok(Ending::All),
        Searched::OutOfBudget => Ok(Ending::Budget),
    }
}

// Makes the random runs, and counts those with a partial order that no run before had.
fn unseen_orders<P: Program>(
    alloc: Global,
    program: &mut P,
    options: Options,
    tally: &Tally,
) -> Result<u64, Fault> {
    let mut unseen = 0u64;
    let mut plan = Plan::new(alloc, options.rules, None);
    for seed in 0..options.check {
        let trace = program.run_at_random(alloc, seed + 1)?;
        plan.learn_order(alloc, program.rooms(), &trace)?;
        if is_whole(trace.end) && !tally.orders.contains(&plan.order_key()) {
            unseen = unseen.saturating_add(1);
        }
    }
    Ok(unseen)
}

/// Runs a program under each schedule that can matter, unless the budget is used up first, and then
/// under random ones. Each schedule has only choices that an earlier run showed to be possible, as
/// `Program::run` requires.
pub fn explore<P: Program>(
    alloc: Global,
    program: &mut P,
    options: Options,
) -> Result<Summary, Fault> {
    let mut tally = Tally::new(alloc);
    let ending = search_all(alloc, program, options, &mut tally)?;
    let mut checked = 0;
    let mut unseen = 0;
    if ending == Ending::All {
        checked = options.check;
        unseen = unseen_orders(alloc, program, options, &tally)?;
    }
    Ok(Summary {
        ending,
        runs: tally.runs,
        unseen,
        checked,
    })
}
