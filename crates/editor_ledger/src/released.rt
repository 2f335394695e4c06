/// A release as the log keeps it.
#[derive(Clone, Copy, Debug, Drop, PartialEq, Eq)]
pub struct Released {
    /// Its number, as the group counts releases.
    pub release: u64,
    /// When it was seen first, in seconds since 1970.
    pub time: u64,
    /// How many commands it shows that no release showed before.
    pub commands: u64,
    /// Whether it is that release; else it is that one or an earlier one, as others released as well.
    pub exact: bool,
}
