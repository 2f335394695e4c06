//! Compares what came with what was wanted. A call of these is far cheaper to prove than an `assert_eq!`, or
//! an `assert!` with words, in the caller.
use release::Answer;
use std::fmt::Debug;
use std::process::Abort;

/// Prints `of` and ends the test if `is` is false.
pub(crate) fn ensure<T: Debug + Copy>(rt: &impl Abort, is: bool, of: T) {
    assert!(rt; is, "not of {of:?}");
}

/// Prints both and ends the test if they differ.
pub(crate) fn same<T: PartialEq + Debug + Copy>(rt: &impl Abort, came: T, wanted: T) {
    assert_eq!(rt; came, wanted);
}

/// Whether the answer is that page.
pub(crate) fn is_page<F>(answer: &Result<Answer, F>, status: u16, body: &str) -> bool {
    match answer {
        Ok(answer) => answer.status == status && answer.body.as_str() == body,
        Err(_) => false,
    }
}
