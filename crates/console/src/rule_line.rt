ghost use Rattle.std.specs.Prelude.{◌≡◌, Some};
ghost use Rattle.sheet.specs.Sheet.{rules_of};
ghost use Rattle.orders.specs.Linear.{linear_of};
ghost use Rattle.console.specs.RuleLines.{orientation_text, rule_line, OrientsByDefault};

use orders::lexicographic::default_order;
use orders::order::{Orientation, orientation_of};
use sheet::Sheet;
use std::fmt;
use weighing::Weighing;

// A rule as it is answered: its number, and how the default order orients it.
#[derive(Clone, Copy)]
pub struct RuleLine {
    pub rule: usize,
    pub orientation: Orientation,
}

// The word for an orientation.
fn word(orientation: Orientation) -> &'static str
    ensures { result.now ≡ orientation_text orientation }
{
    match orientation {
        Orientation::Strict => "falls",
        Orientation::Weak => "holds",
        Orientation::Neither => "no",
    }
}

impl fmt::Display for RuleLine {
    ghost output = { λ l. Some (rule_line l.rule l.orientation) };

    fn fmt<W: fmt::Write>(&self, f: &mut fmt::Formatter<W>) -> fmt::Result {
        let RuleLine { rule, orientation } = *self;
        write!(f, "rule {rule} {}", word(orientation))
    }
}

// How the default order of a sheet with these weighings orients the rule of a number; neither way if there is none.
pub fn orient(sheet: &Sheet, first: &Weighing, second: &Weighing, rule: usize) -> RuleLine
    ensures number { result.rule ≡ rule }
    ensures orients { OrientsByDefault (linear_of first.now) (linear_of second.now) (rules_of sheet.now) rule result.orientation }
{
    let orientation = orientation_of(&default_order(first, second), sheet, rule);
    RuleLine { rule, orientation }
}
