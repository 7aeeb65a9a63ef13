//! The line of a call of a history.
ghost use Rattle.std.specs.Prelude.{◌≡◌, ◌-◌, ◌^◌, true, false, IfOk, IfSome, MatchOption, codes, string_bytes, unwrap_or};
ghost use Rattle.std.specs.Option.{option_map};
ghost use Rattle.journal_format.specs.Reading.{words_at};
ghost use Rattle.journal_format.specs.Text.{number_or};
ghost use Rattle.histories.specs.Histories.{is_pending};
ghost use Rattle.history_judge.specs.Fitting.{Fits};
ghost use Rattle.history_judge.specs.Reading.{IsNoLine, IsOneOf, parts_at, parts_seen};
ghost use Rattle.history_judge.specs.Text.{end_of, line_text};

use crate::fitting::fits;
use crate::outcome::{outcome_of, outcome_text};
use histories::operation::{Operation, Outcome};
use journal_format::call::{call_of, call_text};
use journal_format::payload::payload_text;
use journal_format::words::{number_of, number_or_of, quoted_of, small_number_of, word_of};
use mq_model::entries::Call;
use mq_model::forms::is_process;
use percent_encoding::percent_decode;
use std::alloc::{AllocError, Global};
use text_io::words::words;

/// A call of a process with what it returned.
#[derive(Drop)]
pub struct Called {
    pub process: u32,
    pub operation: Operation,
}

// The time at which an operation ended, or a dash if it had not.
fn end_text(alloc: Global, operation: &Operation) -> Result<String, AllocError>
    ensures { IfOk result (λ text. string_bytes text ≡
        number_or (codes "-") (end_of operation.now)) }
{
    let end = operation.end;
    match operation.outcome {
        Outcome::Pending => String::from_str(alloc, "-"),
        _ => format!(in alloc; "{end}"),
    }
}

/// The line of a call.
#[tactic(auto, using(crate::proofs::Joining::line_parts))]
pub fn line_of(alloc: Global, called: &Called) -> Result<String, AllocError>
    ensures { IfOk result (λ line. string_bytes line ≡ line_text called.now) }
{
    let process = called.process;
    let begin = called.operation.begin;
    let end = end_text(alloc, &called.operation)?;
    let call = call_text(alloc, &called.operation.call)?;
    let quoted = payload_text(alloc, &called.operation.given)?;
    let outcome = outcome_text(alloc, &called.operation.outcome)?;
    format!(in alloc; "{process} {begin} {end} {call}{quoted} ->{outcome}\n")
}

// The parts of a line: what its words mean, what is between the quotes of its call, and the words
// after its arrow.
#[derive(Drop)]
struct Parts<'w, 's> {
    process: u32,
    begin: u64,
    end: Option<u64>,
    call: Call,
    quoted: &'s [u8],
    result: &'w [&'s [u8]],
}

#[tactic(auto, unfolding(crate::specs::Reading::parts_at))]
fn parts_of<'w, 's>(words: &'w [&'s [u8]]) -> Option<Parts<'w, 's>>
    ensures { option_map parts_seen result ≡ parts_at (words_at words.now) }
{
    let (process, words) = small_number_of(words)?;
    let (begin, words) = number_of(words)?;
    let (end, words) = number_or_of(b"-", words)?;
    let (call, words) = call_of(words)?;
    let (quoted, words) = quoted_of(words);
    let (_arrow, result) = word_of(words)?;
    Some(Parts {
        process,
        begin,
        end,
        call,
        quoted,
        result,
    })
}

// The time at which a call with this result ended: the one in its line, or the greatest if it had
// not returned.
fn end_read(outcome: &Outcome, written: Option<u64>) -> u64
    ensures pending { is_pending outcome.now ≡ true → result ≡ 2 ^ 64 - 1 }
    ensures returned { is_pending outcome.now ≡ false → result ≡ unwrap_or written (2 ^ 64 - 1) }
{
    match outcome {
        Outcome::Pending => u64::MAX,
        _ => written.unwrap_or(u64::MAX),
    }
}

/// The call of a process from 1 to 32 with this line, if it is the line of one. The line ends with
/// its line feed.
pub fn read_line(alloc: Global, line: &[u8]) -> Result<Option<Called>, AllocError>
    // The line of the call that is read is this one.
    ensures found { IfOk result (λ read. IfSome read (λ called. line.now ≡ line_text called)) }
    // If this is the line of a call, that call is read.
    ensures only { IfOk result (λ read. MatchOption read (IsNoLine line.now) (IsOneOf line.now)) }
    ensures fits { IfOk result (λ read. IfSome read Fits) }
{
    let words = words(alloc, line)?;
    let Some(parts) = parts_of(words.as_slice()) else {
        return Ok(None);
    };
    if !is_process(parts.process) {
        return Ok(None);
    }
    let Some(outcome) = outcome_of(alloc, parts.result)? else {
        return Ok(None);
    };
    let mut given = Vec::new(alloc);
    percent_decode(parts.quoted).append_to(&mut given)?;
    let called = Called {
        process: parts.process,
        operation: Operation {
            call: parts.call,
            given,
            begin: parts.begin,
            end: end_read(&outcome, parts.end),
            outcome,
        },
    };
    // Words that no line has may have been accepted, such as numbers with leading zeros. Then the
    // line of the call that was read differs.
    let written = line_of(alloc, &called)?;
    if written.as_bytes() != line {
        return Ok(None);
    }
    fits(&called);
    Ok(Some(called))
}
