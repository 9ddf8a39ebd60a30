//! The assertions of the tests: functions without a contract, each proved once, so that a test is a
//! series of calls.

use std::fmt::Debug;
use std::process::Abort;

/// Asserts that the found value is the wanted one.
pub(crate) fn same<T: PartialEq + Debug + Drop>(rt: &impl Abort, found: T, wanted: T) {
    assert_eq!(rt; found, wanted);
}

/// Asserts that the found value is the wanted one, at this row of a table.
pub(crate) fn same_at<T: PartialEq + Debug + Drop>(
    rt: &impl Abort,
    row: impl Debug + Drop,
    found: T,
    wanted: T,
) {
    assert_eq!(rt; found, wanted, "at {row:?}");
}

/// Asserts a fact.
pub(crate) fn holds(rt: &impl Abort, fact: bool) {
    assert!(rt; fact);
}

/// Asserts a fact at this row of a table.
pub(crate) fn holds_at(rt: &impl Abort, row: impl Debug + Drop, fact: bool) {
    assert!(rt; fact, "at {row:?}");
}
