// One step of a rule in place.
#![tactic(auto)]

mod building;
mod copying;
pub mod step;
