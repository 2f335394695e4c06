use release::Releases;

/// The pages of a folder, or the faults that it has instead.
#[derive(Drop)]
pub enum Shown {
    Pages(Releases),
    Faults(String),
}
