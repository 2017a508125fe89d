ghost use Rattle.std.specs.Prelude.{Decides};
ghost use Rattle.sheet.specs.Sheet.{rules_of};
ghost use Rattle.sheet.specs.Sides.{side_of};
ghost use Rattle.symbol_order.specs.Counts.{Counts, CountsRule, AtLeast};

use orders::linear::Interpretation;
use sheet::Sheet;
use sheet::side::Side;
use weighing::Weighing;

// How many symbols a term has, and how often each of the variables A to H stands there.
#[derive(Clone, Copy)]
pub(crate) struct Count {
    pub(crate) symbols: usize,
    pub(crate) occurrences: [u64; 8],
}

impl Count {
    // Whether nothing in the other one is larger.
    pub(crate) fn is_at_least(&self, other: &Count) -> bool
        ensures { Decides result (AtLeast self.now other.now) }
    {
        for x in 0..8 {
            if self.occurrences[x] < other.occurrences[x] {
                return false;
            }
        }
        self.symbols >= other.symbols
    }
}

// Where every factor is 1, a variable's coefficient is how often it stands there.
fn count_side(side: &Side) -> Count
    ensures { Counts (side_of side.now) result }
{
    let plain = Interpretation::of(&Weighing::missing());
    let occurrences = plain.weigh(side).coefficients;
    Count {
        symbols: side.len(),
        occurrences,
    }
}

// The counts of both sides of the rule of a number, if there is one.
pub(crate) fn count_rule(sheet: &Sheet, rule: usize) -> Option<(Count, Count)>
    ensures { CountsRule (rules_of sheet.now) rule result }
{
    let rule = sheet.rule(rule)?;
    Some((count_side(rule.left()), count_side(rule.right())))
}
