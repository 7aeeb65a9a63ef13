//! An assertion in a function of its own, so that no test carries facts about the values.
use std::fmt::Debug;
use std::process::Abort;

/// The value found is the one wanted. If not, `what` says which value it is.
pub fn same<A: Abort, T: PartialEq + Debug + Drop>(rt: &A, found: T, wanted: T, what: &str) {
    assert_eq!(rt; found, wanted, "{what}");
}
