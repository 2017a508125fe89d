// What reading a text is: tokens, faults, refusals, and the laws of reading a ticket.
#![tactic(auto)]

pub mod fault;
pub mod heading;
pub mod laws;
pub mod refusal;
pub mod token;
