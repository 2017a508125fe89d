// What reading a sheet is: its text, how it is read, and the laws of reading it.
#![tactic(auto)]

pub mod laws;
