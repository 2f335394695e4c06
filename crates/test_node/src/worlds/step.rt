//! A schedule's steps, as tables have them.

/// What happens at a node, by its number.
#[derive(Clone, Copy)]
pub(crate) enum Step {
    /// A command of editor 1, with the number of its ticket.
    Submit(u8, u64, &'static str),
    Tick(u8),
    Ask(u8),
    Deliver(u8, usize),
    Arm(u8, u32),
    Crash(u8, u8),
    Restart(u8),
    /// Each message that no such step has taken reaches all nodes, and so do the messages that follow from
    /// it.
    Settle,
}
