ghost use Rattle.std.specs.Prelude.{Decides};
ghost use Rattle.sheet.specs.Sheet.{rules_of};
ghost use Rattle.orders.specs.Order.{RuleIn, Orients};

use rewriting::order::ReductionOrder;
use sheet::Sheet;

// An order that tells which rules of a sheet it orients. A number past the sheet's rules is answered no.
pub trait Order: ReductionOrder {
    // Whether the rule of a number is oriented strictly.
    fn is_strict(&self, sheet: &Sheet, rule: usize) -> bool
        ensures { Decides result (RuleIn (Self.strict self.now) (rules_of sheet.now) rule) };

    // Whether the rule of a number is oriented weakly.
    fn is_weak(&self, sheet: &Sheet, rule: usize) -> bool
        ensures { Decides result (RuleIn (Self.weak self.now) (rules_of sheet.now) rule) };
}

// How an order orients a rule.
#[derive(Clone, Copy, PartialEq, Eq, Debug)]
pub enum Orientation {
    Strict,
    // weakly only
    Weak,
    Neither,
}

// How the order orients the rule of a number; neither way if there is none.
pub fn orientation_of<O: Order>(order: &O, sheet: &Sheet, rule: usize) -> Orientation
    ensures { Orients (O.strict order.now) (O.weak order.now) (rules_of sheet.now) rule result }
{
    if order.is_strict(sheet, rule) {
        Orientation::Strict
    } else if order.is_weak(sheet, rule) {
        Orientation::Weak
    } else {
        Orientation::Neither
    }
}
