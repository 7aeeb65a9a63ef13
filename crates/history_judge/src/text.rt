//! The text of a history.
ghost use Rattle.std.specs.Prelude.{◌≡◌, ◌<◌, ◌≤◌, ◌+◌, ◌^◌, ◌++◌, ◌∷◌, [], ℕ, List, false, IfOk, IsErrOf, MatchResult, OnOk, length};
ghost use Rattle.journal_format.specs.Text.{has_feed};
ghost use Rattle.journal_format.specs.declared.fault.JournalFault.TheVariants.{BadLine, Input, NoMemory};
ghost use Rattle.history_judge.specs.Fitting.{AllFit, Fits};
ghost use Rattle.history_judge.specs.HistoryFault.{StopsAt};
ghost use Rattle.history_judge.specs.Seen.{AreSameCalls};
ghost use Rattle.history_judge.specs.Text.{history_text, line_text, message_of};

use crate::line::{Called, line_of, read_line};
use journal_format::fault::JournalFault;
use journal_format::lines::MOST_LINE;
use script_text::line::first_line;
use std::alloc::{AllocError, Global};

/// The text of a history.
pub fn write_history(alloc: Global, calls: &[Called]) -> Result<Vec<u8>, AllocError>
    ensures { IfOk result (λ text. text.items ≡ history_text calls.now) }
{
    let mut text = Vec::new(alloc);
    for called in calls {
        let line = line_of(alloc, called)?;
        text.extend_from_slice(line.as_bytes())?;
    }
    Ok(text)
}

/// The calls with this text, in the order of their lines. `JournalFault::BadLine`: this line,
/// counted from 1, is the first that is not the line of a call of a process from 1 to 32. A last
/// line without a line feed is not a line.
pub fn read_history(alloc: Global, text: &[u8]) -> Result<Vec<Called>, JournalFault>
    // The text of the history that is read is this one.
    ensures found { IfOk result (λ calls. text.now ≡ history_text calls.items) }
    ensures fits { IfOk result (λ calls. AllFit calls.items) }
    // If this is the text of a history, that history is read, unless memory is refused.
    ensures only { (history : List Called) → AllFit history → text.now ≡ history_text history →
        MatchResult result (λ calls. AreSameCalls calls.items history) (λ fault. fault ≡ NoMemory) }
    // The line in the error is the first bad one.
    ensures bad_line { (line : ℕ) → IsErrOf result (BadLine line) → StopsAt line text.now }
    ensures no_input { IsErrOf result Input → ⊥ }
{
    let mut calls: Vec<Called> = Vec::new(alloc);
    match read_lines(alloc, &mut calls, text) {
        Ok(rest) => whole(calls, rest),
        Err(fault) => Err(fault),
    }
}

/// Parses the lines at the start of a text, appends their calls, and returns what follows the last
/// line feed. `JournalFault::BadLine`: this line, counted from the start of the history, is the
/// first that is not the line of such a call, whatever follows.
pub fn read_lines<'t>(
    alloc: Global,
    calls: &mut Vec<Called>,
    text: &'t [u8],
) -> Result<&'t [u8], JournalFault>
    requires fits { AllFit calls.old.items }
    ensures fits { OnOk result (AllFit calls.new.items) }
    ensures lines { IfOk result (λ rest. history_text calls.old.items ++ text.now ≡
        history_text calls.new.items ++ rest.now) }
    ensures rest { IfOk result (λ rest. has_feed rest.now ≡ false) }
    ensures later { (line : ℕ) → IsErrOf result (BadLine line) → length calls.old.items < line }
    ensures bad_line { (line : ℕ) → IsErrOf result (BadLine line) → (more : List ℕ) →
        StopsAt line (history_text calls.old.items ++ (text.now ++ more)) }
    ensures no_input { IsErrOf result Input → ⊥ }
{
    let mut rest = text;
    'lines: while rest.contains(&b'\n') {
        let (line, others) = first_line(rest);
        let Some(called) = read_line(alloc, line)? else {
            return Err(JournalFault::BadLine(calls.len() as u64 + 1));
        };
        add(calls, called)?;
        rest = others;
    }
    Ok(rest)
}

/// The calls of a history that was read, if nothing follows its last line. `JournalFault::BadLine`:
/// something does.
pub fn whole(calls: Vec<Called>, rest: &[u8]) -> Result<Vec<Called>, JournalFault>
    requires fits { AllFit calls.items }
    requires rest { has_feed rest.now ≡ false }
    ensures whole { IfOk result (λ read. (read ≡ calls) × (rest.now ≡ [])) }
    ensures next { (line : ℕ) → IsErrOf result (BadLine line) → line ≡ length calls.items + 1 }
    ensures bad_line { (line : ℕ) → IsErrOf result (BadLine line) →
        StopsAt line (history_text calls.items ++ rest.now) }
    ensures fault { IsErrOf result NoMemory → ⊥ }
    ensures no_input { IsErrOf result Input → ⊥ }
{
    let len = calls.len() as u64;
    if rest.is_empty() {
        Ok(calls)
    } else {
        Err(JournalFault::BadLine(len + 1))
    }
}

/// If the name or the message of a call, and the message that it received, have at most 65,536
/// bytes each, its line is not longer than what is read. The function does nothing: its contract is
/// the law.
pub fn lines_are_short()
    ensures { (c : Called) → Fits c → length c.operation.given.items ≤ 2 ^ 16 →
        length (message_of c.operation.outcome) ≤ 2 ^ 16 → length (line_text c) ≤ MOST_LINE }
{}

// Appends a call.
fn add(calls: &mut Vec<Called>, called: Called) -> Result<(), AllocError>
    ensures { OnOk result (calls.new.items ≡ calls.old.items ++ called ∷ []) }
{
    calls.push(called)?;
    Ok(())
}
