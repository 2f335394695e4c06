/// A file of a folder: its path below the folder, with `/` between its parts, and its bytes.
#[derive(Drop)]
pub struct SiteFile {
    pub path: String,
    pub bytes: Vec<u8>,
}
