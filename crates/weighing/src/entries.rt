ghost use Rattle.std.specs.Prelude.{◌≡◌, ℕ, suc, ◌≤◌, Some};
ghost use Rattle.sheet_reading.specs.Values.{neutral_in};
ghost use Rattle.weighing.specs.Weighing.{written, entry_of};

use crate::Row;
use crate::bounded::{Base, Factor};

impl Row {
    // Base 0 and factor 1 for each argument.
    pub(crate) fn neutral() -> Row
        ensures { (line : ℕ) → entry_of result line ≡ neutral_in line }
    {
        Row {
            base: Base { value: 0 },
            factors: [Some(Factor { value: 1 }); 3],
        }
    }

    // The factor of an argument, 1 past the third.
    pub(crate) fn factor(&self, argument: usize) -> Option<Factor>
        ensures value { written result ≡ entry_of self.now (suc argument) }
        ensures past { 3 ≤ argument → written result ≡ Some 1 }
    {
        self.factors
            .get(argument)
            .copied()
            .unwrap_or(Some(Factor { value: 1 }))
    }
}
