// Loops over the terms of any view, with a stack of places: counting symbols, writing text and comparing two terms.
#![tactic(auto)]

pub mod compare;
pub mod count;
mod pending;
pub mod row;
pub mod unwritten;
pub mod write;

// The most symbols of a term that is walked.
pub const MOST: usize = 16_384;
