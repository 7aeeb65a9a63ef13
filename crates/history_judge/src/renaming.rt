//! Laws of the renumbering of descriptors: what `rename` does to a history that already has this
//! library's numbers. The laws are functions that do nothing and take no time: the contract of each
//! is the law.
ghost use Rattle.std.specs.Prelude.{◌≡◌, List, []};
ghost use Rattle.histories.specs.declared.operation.Operation.{Operation};
ghost use Rattle.history_judge.specs.Descriptors.{no_numbers, renamed};
ghost use Rattle.history_judge.specs.OwnNumbers.{HaveOwnNumbers};

/// A history with this library's numbers is unchanged.
pub fn own_numbers_stay()
    ensures { (operations : List Operation) → HaveOwnNumbers [] operations →
        renamed no_numbers operations ≡ operations }
{}

/// Renumbering twice is the same as once.
pub fn renames_once()
    ensures { (operations : List Operation) →
        renamed no_numbers (renamed no_numbers operations) ≡ renamed no_numbers operations }
{}
