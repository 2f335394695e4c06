/// Why a run stops at an event.
pub(crate) enum RunStop {
    /// The event is not taken, because an allocation failed.
    Wanted,
    /// The event is taken, but an allocation failed as its node published.
    Unpublished,
    /// The event names no node of the cluster or no message, or its floor is not allowed.
    Bad,
}
