//! Compares what came with what was wanted. A call of these is far cheaper to prove than an `assert_eq!`, or
//! an `assert!` with words, in the caller.
use std::fmt::Debug;
use std::process::Abort;

/// Prints `of` and ends the test if `is` is false.
pub(crate) fn ensure<T: Debug + Copy>(rt: &impl Abort, is: bool, of: T) {
    assert!(rt; is, "not of {of:?}");
}

/// Prints both and ends the test if they differ.
pub(crate) fn same<T: PartialEq + Debug + Copy>(rt: &impl Abort, came: T, wanted: T) {
    assert_eq!(rt; came, wanted);
}
