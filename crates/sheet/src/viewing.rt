ghost use Rattle.std.specs.Prelude.{◌≡◌, ◌<◌, ◌≤◌, true, length, MatchOption};
ghost use Rattle.signature.specs.Declaring.{sig_of};
ghost use Rattle.rewriting.specs.Convergent.{Convergent};
ghost use Rattle.rewriting.specs.Rules.{rule_at};
ghost use Rattle.sheet.specs.Rules.{rule_of, Lawful};
ghost use Rattle.sheet.specs.Sheet.{operators_of, rules_of, is_admitted};

use crate::Sheet;
use crate::rule::Rule;
use signature::Signature;

impl Sheet {
    // Its operators.
    pub fn signature(&self) -> &Signature
        ensures { sig_of result.now ≡ operators_of self.now }
    {
        &self.signature
    }

    // How many rules it has.
    pub fn len(&self) -> usize
        ensures value { result ≡ length (rules_of self.now) }
        ensures few { result ≤ 32 }
    {
        self.rules.len()
    }

    // The rule of a number, if there is one.
    pub fn rule(&self, n: usize) -> Option<&Rule>
        ensures value { MatchOption result (length (rules_of self.now) ≤ n) (λ x. (n < length (rules_of self.now)) × (rule_of x.now ≡ rule_at (rules_of self.now) n)) }
        ensures lawful { Lawful (operators_of self.now) (rules_of self.now) }
    {
        self.rules.get(n)
    }

    // Whether it is admitted.
    pub fn is_admitted(&self) -> bool
        ensures value { result ≡ is_admitted self.now }
        ensures convergent { result ≡ true → ∥ Convergent (operators_of self.now) (rules_of self.now) ∥₁ }
    {
        self.admitted
    }
}
