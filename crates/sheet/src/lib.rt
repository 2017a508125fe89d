// A sheet as a value: the operators, the rules, and whether it is admitted.
#![tactic(auto)]

ghost use Rattle.std.specs.Prelude.{◌≡◌, true};
ghost use Rattle.fixed_vec.specs.FixedVec.{items};
ghost use Rattle.signature.specs.Declaring.{sig_of};
ghost use Rattle.rewriting.specs.Convergent.{Convergent};
ghost use Rattle.sheet.specs.Rules.{rules_from, Lawful};

use fixed_vec::FixedVec;
use rule::Rule;
use signature::Signature;

pub mod filling;
pub mod rule;
pub mod side;
pub mod viewing;

// Up to 32 rules over the operators of a signature. Only a sheet of convergent rules is marked as admitted.
#[derive(Drop)]
pub struct Sheet {
    signature: Signature,
    rules: FixedVec<Rule, 32>,
    // True only after `mark_admitted`, which requires the fact.
    admitted: bool,
    ghost lawful: { Lawful (sig_of signature) (rules_from (items rules)) },
    ghost judged: { (admitted ≡ true → ∥ Convergent (sig_of signature) (rules_from (items rules)) ∥₁) },
}
