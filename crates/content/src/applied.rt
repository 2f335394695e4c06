/// What the next value of a list did to the site.
#[derive(Clone, Copy, Debug, Drop, PartialEq, Eq)]
pub enum Applied {
    /// A command put or removed something at a name, even if there was nothing to remove.
    Changed,
    /// A release.
    Released,
    /// A command whose ticket an earlier command has.
    Repeat,
    NotACommand,
}
