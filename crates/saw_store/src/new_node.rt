//! Nodes that are not kept yet.

use saw_node::{Node, NodeHash};

/// A node that is not kept yet, and its hash.
#[derive(Drop)]
pub struct NewNode {
    pub hash: NodeHash,
    pub node: Node,
}
