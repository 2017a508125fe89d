// The theory of term rewriting: steps, next steps, conversions, overlaps, orders, and the theorems on convergent rules.
#![tactic(auto)]

pub mod laws;
pub mod order;
