// Making the rules of a sheet ready for use on terms in nodes.
#![tactic(auto)]

pub mod compiled_sheet;
mod outline;
mod planning;
pub mod rules;
mod sets;
