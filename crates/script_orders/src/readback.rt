//! A law of the report: its text tells the outcomes. It is a function that does nothing and takes
//! no time: its contract is the law.
ghost use Rattle.script_orders.specs.Readback.{CanBeReadBack};

/// A report can be read back: if two reports have the same text, they have the same number of
/// phases, and in each phase the same outcomes and deadlocks with the same numbers, and both or
/// none say that every interleaving was tried. The texts of the outcomes consist of whole lines,
/// none of which begins with the first letter of a line of the report itself. So are the texts of
/// calls whose messages have no line feed, but no clause says that. A script has no such message;
/// the journal before it may have one.
pub fn reports_can_be_read_back()
    ensures { CanBeReadBack }
{}
