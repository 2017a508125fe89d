// A weighing: a base and three factors for each operator, none outside its range.
#![tactic(auto)]

ghost use Rattle.std.specs.Prelude.{◌≡◌, length};

use bounded::{Base, Factor};

mod bounded;
mod entries;
pub mod setting;

// What one operator weighs: its base, and the factor of each argument or '-'.
#[derive(Clone, Copy)]
pub struct Row {
    base: Base,
    factors: [Option<Factor>; 3],
    ghost three: { length factors ≡ 3 },
}

// A row for each of 32 operators.
#[derive(Clone, Copy)]
pub struct Weighing {
    rows: [Row; 32],
    ghost whole: { length rows ≡ 32 },
}

// Why a weighing does not take a base or a factor.
#[derive(Clone, Copy, PartialEq, Eq, Debug)]
pub enum Unweighable {
    // the operator is past the last, the 32nd
    PastOperators,
    // the argument is past the third
    PastArguments,
    // the base or the factor is too small or too large
    OutOfRange,
}
