// Lent nodes: free ones, and rows of nodes that hold terms.
#![tactic(auto)]

pub mod loading;
pub mod store;
