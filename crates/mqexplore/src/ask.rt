//! The options that the launcher sends.

use exploration::explore::Options;
use exploration::follow::Rules;
use exploration::search::Limits;
use std::alloc::{AllocError, Global};
use text_io::words::{number, small_number, words};

// The maximum number of steps of a run, and of choices of a step.
const LIMITS: Limits = Limits {
    steps: 1_000_000,
    choices: 4096,
};

fn bounds_of(word: &[u8]) -> Option<Option<u32>> {
    match word {
        b"none" => Some(None),
        _ => small_number(word).map(Some),
    }
}

fn rules_of(word: &[u8]) -> Option<Rules> {
    match word {
        b"any" => Some(Rules { any_time: true }),
        b"last" => Some(Rules { any_time: false }),
        _ => None,
    }
}

fn options_by(bounds: &[u8], budget: &[u8], time: &[u8], check: &[u8]) -> Option<Options> {
    let bounds = bounds_of(bounds)?;
    let rules = rules_of(time)?;
    let budget = number(budget)?;
    let check = number(check)?;
    Some(Options {
        bounds,
        rules,
        budget,
        check,
        limits: LIMITS,
    })
}

/// The options of an exploration: the line `explore MOST RUNS any|last RUNS`. They are the greatest
/// bound, or `none` for no bounds, the budget, when deadlines pass, and the number of checks.
pub fn options_of(alloc: Global, line: &[u8]) -> Result<Option<Options>, AllocError> {
    let words = words(alloc, line)?;
    match words.as_slice() {
        [b"explore", bounds, budget, time, check] => Ok(options_by(bounds, budget, time, check)),
        _ => Ok(None),
    }
}
