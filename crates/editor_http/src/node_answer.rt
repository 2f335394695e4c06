/// What a node answered.
#[derive(Drop)]
pub struct NodeAnswer {
    pub status: u16,
    pub body: Vec<u8>,
}
