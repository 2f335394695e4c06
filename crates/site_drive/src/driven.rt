/// What a drive ignored, as losses.
#[derive(Clone, Copy, Debug, PartialEq, Eq, Drop)]
pub struct Driven {
    /// Datagrams that spell no message.
    pub malformed: u32,
    /// Calls of the link that failed.
    pub failed: u64,
}
