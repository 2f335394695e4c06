//! Where a device fails within the four calls of a seal.

/// After how many calls the device fails, the choice of the crash, whether what was put is found.
type Failure = (u32, Option<u8>, bool);

/// The device fails after the calls of the row. Then the node is opened again, after a crash by a choice or
/// without one. What was put is found only if its gate was written and not lost.
pub(crate) const FAILURES: &[Failure] = &[
    (0, Some(0), false),
    (0, Some(1), false),
    (0, Some(7), false),
    (0, None, false),
    (1, Some(0), false),
    (1, Some(1), false),
    (1, Some(7), false),
    (1, None, false),
    (2, Some(0), false),
    (2, Some(1), false),
    (2, Some(7), false),
    (2, None, false),
    (3, Some(0), false),
    (3, Some(1), true),
    (3, Some(7), false),
    (3, None, true),
];
