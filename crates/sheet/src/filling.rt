ghost use Rattle.std.specs.Prelude.{◌≡◌, ◌<◌, true, false, [], ◌∷◌, ◌++◌, length};
ghost use Rattle.terms.specs.Rule.{RuleOf};
ghost use Rattle.signature.specs.Declaring.{sig_of};
ghost use Rattle.rewriting.specs.Convergent.{Convergent};
ghost use Rattle.sheet.specs.Rules.{rule_between};
ghost use Rattle.sheet.specs.Sheet.{operators_of, rules_of, is_admitted, Bare};

use crate::Sheet;
use crate::rule::Rule;
use crate::side::Side;
use fixed_vec::FixedVec;
use signature::Signature;

impl Sheet {
    // Without operators and rules.
    pub fn new() -> Sheet
        ensures { Bare [] result }
    {
        let blank = Side::blank();
        Sheet {
            signature: Signature::new(),
            rules: FixedVec::new(Rule::new(&blank, &blank)),
            admitted: false,
        }
    }

    // Makes it a sheet without operators and rules.
    pub fn clear(&mut self)
        ensures { Bare [] self.new }
    {
        self.begin(&Signature::new());
    }

    // Makes it a sheet over these operators, without rules as yet.
    pub fn begin(&mut self, signature: &Signature)
        ensures { Bare (sig_of signature.now) self.new }
    {
        self.rules.clear();
        self.admitted = false;
        self.signature = *signature;
    }

    // Puts one more rule behind the others. The sheet is then not admitted.
    pub fn add(&mut self, left: &Side, right: &Side)
        requires lawful { RuleOf (operators_of self.old) (rule_between left.now right.now) }
        requires room { length (rules_of self.old) < 32 }
        ensures operators { operators_of self.new ≡ operators_of self.old }
        ensures rules { rules_of self.new ≡ rules_of self.old ++ rule_between left.now right.now ∷ [] }
        ensures unjudged { is_admitted self.new ≡ false }
    {
        self.admitted = false;
        self.rules.push(Rule::new(left, right)).unwrap();
    }

    // Marks a sheet of convergent rules as admitted.
    pub fn mark_admitted(&mut self)
        requires { Convergent (operators_of self.old) (rules_of self.old) }
        ensures operators { operators_of self.new ≡ operators_of self.old }
        ensures rules { rules_of self.new ≡ rules_of self.old }
        ensures admitted { is_admitted self.new ≡ true }
    {
        self.admitted = true;
    }
}
