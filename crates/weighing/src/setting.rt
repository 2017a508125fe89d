ghost use Rattle.std.specs.Prelude.{◌≡◌, ℕ, suc, ◌≤◌, Some, None};
ghost use Rattle.weighing.specs.Factor.{Factor};
ghost use Rattle.weighing.specs.Weighing.{entry_of, value_at, Missing, PutsBase, PutsFactor, times};

use crate::bounded::{Base, Factor};
use crate::{Row, Unweighable, Weighing};

impl Weighing {
    // A missing weighing: base 0 and factor 1 everywhere.
    pub fn missing() -> Weighing
        ensures { Missing result }
    {
        Weighing {
            rows: [Row::neutral(); 32],
        }
    }

    // Makes it a missing weighing.
    pub fn clear(&mut self)
        ensures { Missing self.new }
    {
        *self = Weighing::missing();
    }

    // Gives an operator its base, of 100 at most.
    #[tactic(auto, using(std::proofs::lemmas::Grind::common_steps, crate::proofs::Rows::values_rebased))]
    pub fn set_base(&mut self, operator: u8, base: u8) -> Result<(), Unweighable>
        ensures { PutsBase self.old operator base self.new result }
    {
        let at = usize::from(operator);
        let mut row = *self.rows.get(at).ok_or(Unweighable::PastOperators)?;
        row.base = Base::try_from(base)?;
        // By index: after `get_mut` nothing is known of the other rows.
        self.rows[at] = row;
        Ok(())
    }

    // Gives an operator the factor of an argument, '-' or from 1 to 4.
    #[tactic(auto, using(std::proofs::lemmas::Grind::common_steps, crate::proofs::Rows::values_refactored, crate::proofs::Rows::factor_written))]
    pub fn set_factor(
        &mut self,
        operator: u8,
        argument: usize,
        factor: Option<u8>,
    ) -> Result<(), Unweighable>
        ensures { PutsFactor self.old operator argument factor self.new result }
    {
        let at = usize::from(operator);
        let mut row = *self.rows.get(at).ok_or(Unweighable::PastOperators)?;
        row.factors.get(argument).ok_or(Unweighable::PastArguments)?;
        // By index: after `get_mut` nothing is known of the other factors.
        row.factors[argument] = factor.map(Factor::try_from).transpose()?;
        self.rows[at] = row;
        Ok(())
    }

    // The row of an operator, a neutral one past the last.
    fn row(&self, operator: u8) -> Row
        ensures { (line : ℕ) → entry_of result line ≡ value_at self.now line operator }
    {
        self.rows
            .get(usize::from(operator))
            .copied()
            .unwrap_or_else(Row::neutral)
    }

    // The base of an operator, 0 past the last.
    pub fn base(&self, operator: u8) -> u8
        ensures value { Some result ≡ value_at self.now 0 operator }
        ensures low { result ≤ 100 }
    {
        u8::from(self.row(operator).base)
    }

    // The factor of an argument as it is written, '-' as nothing; 1 past the last operator and past the third argument.
    pub fn written_factor(&self, operator: u8, argument: usize) -> Option<u8>
        ensures value { result ≡ value_at self.now (suc argument) operator }
        ensures within { Factor result }
        ensures past { 3 ≤ argument → result ≡ Some 1 }
    {
        self.row(operator).factor(argument).map(u8::from)
    }

    // What the factor of an argument multiplies by.
    pub fn factor(&self, operator: u8, argument: usize) -> u8
        ensures value { result ≡ times (value_at self.now (suc argument) operator) }
        ensures least { 1 ≤ result }
        ensures most { result ≤ 4 }
    {
        self.written_factor(operator, argument).unwrap_or(1)
    }
}
