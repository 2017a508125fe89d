// Whether a left side matches in nodes, and whether there is room for the step.
#![tactic(auto)]

mod onward;
pub mod places;
pub mod room;
pub mod survey;
