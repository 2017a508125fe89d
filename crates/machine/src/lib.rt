// The reference machine: what the book answers, said by tickets and numbers of next steps alone; what admission answers; and what holds after every list of calls.
#![tactic(auto)]

pub mod admission;
pub mod laws;
