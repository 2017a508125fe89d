ghost use Rattle.std.specs.Prelude.{◌≡◌, ℕ, ◌<◌, Some, None, Option, ◌==◌, ◌&&◌, ◌||◌, length, slice_index_or};
ghost use Rattle.rule_set.specs.declared.RuleSet.{RuleSet};
ghost use Rattle.rule_set.specs.Members.{has};
ghost use Rattle.rewriting.specs.Rules.{left_of};
ghost use Rattle.sheet.specs.Sheet.{rules_of};
ghost use Rattle.compiled.specs.Compiled.{BeginsWith, Beginning, may_begin_under, FrontsOf};
ghost use Rattle.compiling.specs.Noting.{allows, Noted};

use compiled::Fronts;
use rule_set::RuleSet;
use sheet::Sheet;
use terms::symbol::Symbol;
use terms::view::TermView;

// For each operator the rules whose left side has it in front.
pub fn begins(sheet: &Sheet) -> [RuleSet; 32]
    ensures many { length result ≡ 32 }
    ensures begins { (f : ℕ) (d : RuleSet) → f < 32 → Beginning (rules_of sheet.now) f (slice_index_or result f d) }
{
    let mut begins = [RuleSet::none(); 32];
    for rule in 0..sheet.len() {
        let operator = usize::from(first_operator(sheet, rule));
        begins[operator] = begins[operator].with(rule);
    }
    begins
}

// What may be in front of the n-th argument.
pub fn fronts_of(sheet: &Sheet, n: usize) -> Fronts
    ensures { FrontsOf (rules_of sheet.now) n result }
{
    let mut operators = [RuleSet::none(); 32];
    let mut others = RuleSet::none();
    for rule in 0..sheet.len() {
        let wanted = wanted(sheet, rule, n);
        note(&mut operators, rule, wanted);
        others = noted(others, rule, wanted, None);
    }
    Fronts { operators, others }
}

// Puts a rule into the sets of the operators that may be in front, by the symbol that is wanted there.
fn note(operators: &mut [RuleSet; 32], rule: usize, wanted: Option<Symbol>)
    requires { rule < 32 }
    ensures { (f : ℕ) (d : RuleSet) → f < 32 → Noted (slice_index_or operators.old f d) rule wanted (Some f) (slice_index_or operators.new f d) }
{
    for operator in 0..32u8 {
        let at = usize::from(operator);
        operators[at] = noted(operators[at], rule, wanted, Some(operator));
    }
}

// A set, with a rule if this may be in front.
fn noted(set: RuleSet, rule: usize, wanted: Option<Symbol>, operator: Option<u8>) -> RuleSet
    requires { rule < 32 }
    ensures { Noted set rule wanted operator result }
{
    if allows(wanted, operator) {
        set.with(rule)
    } else {
        set
    }
}

// Whether this may be in front of what is wanted; None for what is no operator.
fn allows(wanted: Option<Symbol>, operator: Option<u8>) -> bool
    ensures { result ≡ allows wanted operator }
{
    let Some(symbol) = wanted else {
        return true;
    };
    match symbol {
        Symbol::Variable(_) => true,
        Symbol::Instrument(_) => operator.is_none(),
        Symbol::Operator(wanted) => operator == Some(wanted),
    }
}

// The symbol of the n-th argument of a left side, if it has so many.
fn wanted(sheet: &Sheet, rule: usize, n: usize) -> Option<Symbol>
    requires { rule < length (rules_of sheet.now) }
    ensures { (o : Option ℕ) → allows result o ≡ may_begin_under n (left_of (rules_of sheet.now) rule) o }
{
    let Some(rule) = sheet.rule(rule) else {
        unreachable()
    };
    let left = rule.left();
    let Some(argument) = left.argument(left.root(), n) else {
        return None;
    };
    left.symbol(argument)
}

// The operator with which a rule begins.
fn first_operator(sheet: &Sheet, rule: usize) -> u8
    requires { rule < length (rules_of sheet.now) }
    ensures begins { BeginsWith result (left_of (rules_of sheet.now) rule) }
    ensures low { result < 32 }
{
    let Some(rule) = sheet.rule(rule) else {
        unreachable()
    };
    let left = rule.left();
    let Some(symbol) = left.symbol(left.root()) else {
        unreachable()
    };
    let Symbol::Operator(operator) = symbol else {
        unreachable()
    };
    operator
}
