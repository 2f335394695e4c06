//! Compares a result with what is expected. A call of these is far cheaper to prove than an `assert_eq!`, or
//! an `assert!` with words, in the caller.
use std::fmt::Debug;
use std::process::Abort;

/// If the condition does not hold, prints what it is about and ends the test.
pub(crate) fn ensure<T: Debug + Copy>(rt: &impl Abort, is: bool, of: T) {
    assert!(rt; is, "not of {of:?}");
}

/// If the two are not equal, prints both and ends the test.
pub(crate) fn same<T: PartialEq + Debug + Copy>(rt: &impl Abort, came: T, wanted: T) {
    assert_eq!(rt; came, wanted);
}
