// The program's part that is proved: the parts of the input, and the answer to each.
#![tactic(auto)]

pub mod answer;
pub mod laws;
pub mod line;
pub mod opening;
pub mod reply;
pub mod rule_line;
pub mod sheet_text;
pub mod text;
