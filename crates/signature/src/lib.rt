// A signature as a value: declared operators with their names and arities.
#![tactic(auto)]

ghost use Rattle.std.specs.Prelude.{◌≡◌, length};
ghost use Rattle.terms.specs.Signature.{Declared};
ghost use Rattle.fixed_vec.specs.FixedVec.{items};
ghost use Rattle.signature.specs.Operators.{ops_from};

use fixed_vec::FixedVec;
use operator::Operator;

pub mod declaring;
pub mod operator;

// Up to 32 declared operators: names spelt as names, none twice, none with more than three arguments.
#[derive(Clone, Copy)]
pub struct Signature {
    operators: FixedVec<Operator, 32>,
    // the operator that is looked at first for a name, by the name's mark
    likely: [u8; 256],
    ghost marked: { length likely ≡ 256 },
    ghost declared: { Declared (ops_from (items operators)) },
}
