// A text cut into tokens, and what is wrong with a token by itself.
#![tactic(auto)]

mod cutting;
mod judging;
pub mod number;
pub mod token;
