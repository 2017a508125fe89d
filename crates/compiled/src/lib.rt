// Rules made ready for use on terms in nodes: what to look for, and what to make.
#![tactic(auto)]

ghost use Rattle.std.specs.Prelude.{◌≡◌, length};

use fixed_vec::FixedVec;
use rule_set::RuleSet;
use terms::symbol::Symbol;

pub mod rules;

// A symbol of a left side, behind its first one: what must stand there, if it is no variable; whether it has arguments, and whether
// a sibling follows.
#[derive(Clone, Copy)]
pub struct Check {
    pub symbol: Option<Symbol>,
    pub has_first: bool,
    pub has_next: bool,
}

// Where a node of a right side comes from: it is made; or it is what stands where the left side has the variable at this number,
// moved to the first occurrence in reading order and copied to the others.
#[derive(Clone, Copy)]
pub enum Source {
    Made(Symbol),
    Moved(usize),
    Copied(usize),
}

// A symbol of a right side, and whether it has arguments, and whether a sibling follows.
#[derive(Clone, Copy)]
pub struct Piece {
    pub source: Source,
    pub has_first: bool,
    pub has_next: bool,
}

// One rule.
#[derive(Clone, Copy)]
pub struct Plan {
    // whether the left side has arguments, and its symbols behind the first in reading order
    pub has_first: bool,
    pub checks: FixedVec<Check, 32>,
    // the right side's first symbol, and the others in reading order
    pub root: Piece,
    pub pieces: FixedVec<Piece, 32>,
    // the numbers of those among the others that are operators, arguments first
    pub visits: FixedVec<usize, 32>,
    // the numbers at which the left side has variables that the right side does not have, and those of the copies
    pub dropped: FixedVec<usize, 8>,
    pub copied: FixedVec<usize, 32>,
    // how many symbols of the left side, and of the right one, are no variables
    pub before: usize,
    pub after: usize,
}

// For an argument of a left side: the rules that match only where such an operator is in front of it, or that do not ask; and those for
// anything else in front.
#[derive(Clone, Copy)]
pub struct Fronts {
    pub operators: [RuleSet; 32],
    pub others: RuleSet,
    ghost whole: { length operators ≡ 32 },
}

// The rules of a sheet; for each operator those whose left side has it in front; and what may be in front of the first two arguments.
#[derive(Clone, Copy)]
pub struct CompiledRules {
    pub plans: FixedVec<Plan, 32>,
    pub begins: [RuleSet; 32],
    pub first: Fronts,
    pub second: Fronts,
    ghost whole: { length begins ≡ 32 },
}
