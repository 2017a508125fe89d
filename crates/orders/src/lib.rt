// Orders on tickets that answer for the rules of a sheet: linear interpretations, and one order then another.
#![tactic(auto)]

pub mod laws;
pub mod lexicographic;
pub mod linear;
pub mod order;
pub mod weight;
