/// What was said of a release.
#[derive(Drop)]
pub struct Message {
    /// The release's number.
    pub release: u64,
    pub text: String,
}
