//! A node as a service.

use node::Node;

/// A node that is asked by HTTP: it answers from what it has published, and a submission is one of its calls.
#[derive(Drop)]
pub struct Served<D> {
    pub node: Node<D>,
}
