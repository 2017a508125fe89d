// Texts read: tickets, and the two lines that head a sheet.
#![tactic(auto)]

pub mod heading;
pub mod machine;
mod parser;
pub mod ticket;
