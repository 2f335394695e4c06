/// A page: its HTTP status, its text, and the path that it moved to, if it did.
#[derive(Drop)]
pub struct Answer {
    pub status: u16,
    pub body: String,
    pub location: Option<String>,
}
