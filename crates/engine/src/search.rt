ghost use Rattle.fixed_vec.specs.FixedVec.{items, content};
ghost use Rattle.node_store.specs.Memory.{memory};
ghost use Rattle.engine.specs.Searching.{Begins, Narrows, Finds, Looks, Searches};

use crate::visits::{Visit, Visits, put, put_row};
use compiled::CompiledRules;
use matching::places::{Places, matches};
use node_store::store::Store;
use rule_set::RuleSet;
use terms::symbol::Symbol;

// Where the next step is, and by which rule.
#[derive(Clone, Copy)]
pub struct Hit {
    pub place: u16,
    pub rule: usize,
}

// The most turns of a search: two for each node, and one more.
const TURNS: usize = 32_800;

// The most rules of a sheet.
const MOST_RULES: usize = 32;

// The next step, where its left side stands then, and the visits after it.
pub fn search(
    store: &Store,
    rules: &CompiledRules,
    todo: &mut Visits,
    places: &mut Places,
) -> Option<Hit>
    ensures { Searches (memory store.now) rules.now (content todo.old) (items places.new) (content todo.new) result }
{
    for _n in 0..TURNS {
        match todo.pop()? {
            Visit::Fresh(place) => look_along(store, rules, place, todo),
            Visit::Reached(place) => {
                if let Some(rule) = find(store, rules, place, places) {
                    return Some(Hit { place, rule });
                }
            }
        }
    }
    None
}

// Looks at a row, and at the rows below it that come first.
fn look_along(store: &Store, rules: &CompiledRules, first: u16, todo: &mut Visits)
    ensures { Looks (memory store.now) rules.now first (content todo.old) (content todo.new) None }
{
    let mut place = first;
    for _n in 0..TURNS {
        let Some(further) = look_at(store, rules, place, todo) else {
            return;
        };
        place = further;
    }
}

// Leaves visits to the first node of a row, if a rule may match there, and to its siblings. Answers the row that comes before them.
fn look_at(store: &Store, rules: &CompiledRules, place: u16, todo: &mut Visits) -> Option<u16>
    ensures { Looks (memory store.now) rules.now place (content todo.old) (content todo.new) result }
{
    let node = store.node(place);
    if !beginning(rules, node.symbol).is_empty() {
        put_row(todo, node.next);
        put(todo, Visit::Reached(place));
        return node.first;
    }
    if node.first.is_none() {
        return node.next;
    }
    put_row(todo, node.next);
    node.first
}

// The lowest rule that matches at a place, and where its left side stands then.
fn find(store: &Store, rules: &CompiledRules, place: u16, places: &mut Places) -> Option<usize>
    ensures { Finds (memory store.now) rules.now place (items places.new) result }
{
    let node = store.node(place);
    let begin = beginning(rules, node.symbol);
    if begin.is_empty() {
        return None;
    }
    let mut rest = narrowed(store, rules, node.first, begin);
    for _n in 0..MOST_RULES {
        let i = rest.first()?;
        let plan = rules.plan(i)?;
        if matches(store, plan, node.first, places) {
            return Some(i);
        }
        rest = rest.without(i);
    }
    None
}

// The rules whose left side begins with a symbol.
fn beginning(rules: &CompiledRules, symbol: Option<Symbol>) -> RuleSet
    ensures { Begins rules.now symbol result }
{
    let Some(front) = symbol else {
        return RuleSet::none();
    };
    match front {
        Symbol::Operator(operator) => rules.beginning(operator),
        Symbol::Variable(_) | Symbol::Instrument(_) => RuleSet::none(),
    }
}

// Those candidates that may match over a row of arguments, by the symbols in front of the first two.
fn narrowed(
    store: &Store,
    rules: &CompiledRules,
    first: Option<u16>,
    candidates: RuleSet,
) -> RuleSet
    ensures { Narrows (memory store.now) rules.now first candidates result }
{
    let Some(place) = first else {
        return candidates;
    };
    let one = store.node(place);
    let fewer = candidates.both(rules.with_first(one.symbol));
    let Some(second) = one.next else {
        return fewer;
    };
    let two = store.node(second);
    fewer.both(rules.with_second(two.symbol))
}
