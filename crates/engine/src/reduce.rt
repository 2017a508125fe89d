ghost use Rattle.std.specs.Prelude.{◌≡◌, []};
ghost use Rattle.fixed_vec.specs.FixedVec.{items, content};
ghost use Rattle.node_store.specs.Memory.{memory};
ghost use Rattle.engine.specs.Reducing.{Reduces};
ghost use Rattle.engine.specs.Searching.{Starts, Makes};
ghost use Rattle.engine.specs.Revisits.{is_operator, Revisits};

use crate::search::{Hit, search};
use crate::visits::{Visit, Visits, put, put_row};
use compiled::{CompiledRules, Plan, Source};
use fixed_vec::FixedVec;
use matching::places::Places;
use matching::room::has_room;
use matching::survey::Scratch;
use node_store::store::Store;
use stepping::step::step;
use terms::symbol::Symbol;

// Why no more steps are made.
#[derive(Clone, Copy, PartialEq, Eq, Debug)]
pub enum Stop {
    Finished,
    Spent,
    Short,
}

#[derive(Clone, Copy, PartialEq, Eq, Debug)]
pub struct Reduced {
    pub steps: u32,
    pub stop: Stop,
}

// Makes so many next steps of the term held at a place, as far as there are any and there is room.
pub fn reduce(store: &mut Store, rules: &CompiledRules, place: u16, allowed: u32) -> Reduced
    ensures { Reduces (memory store.old) rules.now place allowed (memory store.new) result }
{
    let mut todo = Visits::new(Visit::Fresh(0));
    start(store, place, &mut todo);
    let mut scratch = Scratch::new();
    let mut places = Places::new(0);
    for steps in 0..allowed {
        let Some(hit) = search(store, rules, &mut todo, &mut places) else {
            let stop = Stop::Finished;
            return Reduced { steps, stop };
        };
        if !make(store, rules, hit, &places, &mut scratch, &mut todo) {
            let stop = Stop::Short;
            return Reduced { steps, stop };
        }
    }
    let stop = match search(store, rules, &mut todo, &mut places) {
        Some(_) => Stop::Spent,
        None => Stop::Finished,
    };
    let steps = allowed;
    Reduced { steps, stop }
}

// Puts visits to a term that nobody has looked at on the empty stack.
fn start(store: &Store, place: u16, todo: &mut Visits)
    ensures { content todo.old ≡ [] → Starts (memory store.now) place (content todo.new) }
{
    put(todo, Visit::Reached(place));
    put_row(todo, store.node(place).first);
}

// Makes the step that was found, if there is room, and leaves visits to what it makes.
fn make(
    store: &mut Store,
    rules: &CompiledRules,
    hit: Hit,
    places: &Places,
    scratch: &mut Scratch,
    todo: &mut Visits,
) -> bool
    ensures { Makes (memory store.old) rules.now hit (items places.now) (content todo.old) (memory store.new) (content todo.new) result }
{
    let Some(plan) = rules.plan(hit.rule) else {
        return false;
    };
    let mut sizes = FixedVec::new(0);
    if !has_room(store, plan, places, scratch, &mut sizes) {
        return false;
    }
    let mut made = Places::new(0);
    let Some(()) = step(store, plan, hit.place, places, &sizes, scratch, &mut made) else {
        return false;
    };
    revisit(plan, hit.place, &made, todo);
    true
}

// Leaves visits to the operators that a step made, arguments first.
fn revisit(plan: &Plan, place: u16, made: &Places, todo: &mut Visits)
    ensures { Revisits plan.now place (content made.now) (content todo.old) (content todo.new) }
{
    if makes_operator(plan.root.source) {
        put(todo, Visit::Reached(place));
    }
    let visits = plan.visits.as_slice();
    let places = made.as_slice();
    let n = places.len();
    for k in 0..visits.len() {
        let number = visits[visits.len() - 1 - k];
        if number < n {
            put(todo, Visit::Reached(places[n - 1 - number]));
        }
    }
}

// Whether a symbol that a step makes is an operator.
fn makes_operator(source: Source) -> bool
    ensures { result ≡ is_operator source }
{
    match source {
        Source::Made(symbol) => matches!(symbol, Symbol::Operator(_)),
        Source::Moved(_) | Source::Copied(_) => false,
    }
}
