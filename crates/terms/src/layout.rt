use crate::node::Node;
use fixed_vec::FixedVec;

pub mod laying;

// The nodes of terms, each at the place that is its number among them.
#[derive(Clone, Copy)]
pub struct Layout<const N: usize> {
    nodes: FixedVec<Node, N>,
}
