ghost use Rattle.std.specs.Prelude.{◌≡◌};
ghost use Rattle.sheet.specs.Sides.{side_of};
ghost use Rattle.sheet.specs.Rules.{rule_between, rule_of};

use crate::side::Side;

// A rule: its left side and its right side.
#[derive(Clone, Copy)]
pub struct Rule {
    left: Side,
    right: Side,
}

impl Rule {
    pub(crate) fn new(left: &Side, right: &Side) -> Rule
        ensures { rule_of result ≡ rule_between left.now right.now }
    {
        Rule {
            left: *left,
            right: *right,
        }
    }

    pub fn left(&self) -> &Side
        ensures { side_of result.now ≡ (rule_of self.now).left }
    {
        &self.left
    }

    pub fn right(&self) -> &Side
        ensures { side_of result.now ≡ (rule_of self.now).right }
    {
        &self.right
    }
}
