//! What the tests assert. A call of a function without a contract costs the prover less than an assertion does.

use std::fmt::Debug;
use std::process::Abort;

/// Fails the test, with both values, if they differ.
pub(crate) fn same<T: PartialEq + Debug + Drop>(rt: &impl Abort, found: T, wanted: T) {
    assert_eq!(rt; found, wanted);
}

/// Fails the test if this does not hold.
pub(crate) fn holds(rt: &impl Abort, fact: bool) {
    assert!(rt; fact);
}
