ghost use Rattle.std.specs.Prelude.{ℕ, ◌≤◌, List, length, MatchOption};
ghost use Rattle.terms.specs.Rule.{Rule};
ghost use Rattle.compiled.specs.Compiled.{PlanOf, Beginning, RulesOut, FrontsOf, IsCompiled};

use crate::{CompiledRules, Fronts, Plan};
use rule_set::RuleSet;
use terms::symbol::Symbol;

impl CompiledRules {
    // The rules whose left side has an operator in front.
    pub fn beginning(&self, operator: u8) -> RuleSet
        ensures { (rules : List Rule) → IsCompiled rules self.now → Beginning rules operator result }
    {
        let at = usize::from(operator);
        if at >= 32 {
            return RuleSet::none();
        }
        self.begins[at]
    }

    // The rules that may match where a symbol is in front of the first argument.
    pub fn with_first(&self, symbol: Option<Symbol>) -> RuleSet
        ensures { (rules : List Rule) → IsCompiled rules self.now → RulesOut rules 0 symbol result }
    {
        self.first.allowing(symbol)
    }

    // The same for the second argument.
    pub fn with_second(&self, symbol: Option<Symbol>) -> RuleSet
        ensures { (rules : List Rule) → IsCompiled rules self.now → RulesOut rules 1 symbol result }
    {
        self.second.allowing(symbol)
    }

    // The plan of the rule of a number, if there is one.
    pub fn plan(&self, i: usize) -> Option<&Plan>
        ensures { (rules : List Rule) → IsCompiled rules self.now → MatchOption result (length rules ≤ i) (λ p. PlanOf rules i p.now) }
    {
        self.plans.get(i)
    }
}

impl Fronts {
    // The rules that may match where a symbol is in front.
    fn allowing(&self, symbol: Option<Symbol>) -> RuleSet
        ensures { (rules : List Rule) (n : ℕ) → length rules ≤ 32 → FrontsOf rules n self.now → RulesOut rules n symbol result }
    {
        let Some(Symbol::Operator(operator)) = symbol else {
            return self.others;
        };
        let at = usize::from(operator);
        if at >= 32 {
            return RuleSet::all();
        }
        self.operators[at]
    }
}
