// The search for next steps, and reducing.
#![tactic(auto)]

pub mod reduce;
mod search;
mod visits;
