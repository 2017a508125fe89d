// Terms, tickets and their text; the nodes that hold terms, and views of them.
#![tactic(auto)]

pub mod laws;
pub mod layout;
pub mod node;
pub mod renamed;
pub mod symbol;
pub mod view;
