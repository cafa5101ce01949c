/// Names a node of the pool that gave it, for as long as the node is in a list there.
#[derive(Clone, Copy, Debug, PartialEq, Eq)]
pub struct NodeId {
    pub(crate) number: u32,
}
