ghost use Rattle.std.specs.Prelude.{◌≡◌, ◌↔◌, IsTrue, None, cond, slice_index_or};
ghost use Rattle.fixed_vec.specs.FixedVec.{items};
ghost use Rattle.node_store.specs.Memory.{memory};
ghost use Rattle.matching.specs.Fitting.{Fits, Begins};
ghost use Rattle.matching.specs.Matching.{Matched};

use crate::onward::onward;
use compiled::{Check, Plan};
use fixed_vec::FixedVec;
use node_store::store::Store;
use terms::node::Node;

// The places at which the checks of a plan stand, in their order.
pub type Places = FixedVec<u16, 32>;

// Whether the arguments that begin at a link are those of the left side under some substitution.
pub fn matches(store: &Store, plan: &Plan, first: Option<u16>, places: &mut Places) -> bool
    ensures { Matched (memory store.now).nodes plan.now first (items places.new) result }
{
    if !begins(store, plan, first) {
        return false;
    }
    places.clear();
    let mut later: FixedVec<u16, 32> = FixedVec::new(0);
    let mut current = first;
    for check in plan.checks.iter() {
        let Some(place) = current else {
            return false;
        };
        let node = store.node(place);
        if !fits(check, &node) {
            return false;
        }
        let _ = places.push(place);
        current = onward(below(check, &node), node.next, &mut later);
    }
    true
}

// Whether the first node of a row is as the first check says, before anything is set up; most left sides do not match, and most of them
// fail here.
fn begins(store: &Store, plan: &Plan, first: Option<u16>) -> bool
    ensures { IsTrue result ↔ Begins (memory store.now).nodes (items plan.now.checks) first }
{
    let Some(check) = plan.checks.first() else {
        return first.is_none();
    };
    let Some(place) = first else {
        return false;
    };
    fits(check, &store.node(place))
}

// Whether a node is as a check says.
fn fits(check: &Check, node: &Node) -> bool
    ensures { IsTrue result ↔ Fits check.now node.now }
{
    if let Some(symbol) = check.symbol {
        if node.symbol != Some(symbol) {
            return false;
        }
        if node.first.is_some() != check.has_first {
            return false;
        }
    }
    node.next.is_some() == check.has_next
}

// Where the arguments begin that are to be looked at: a variable stands for its arguments too.
fn below(check: &Check, node: &Node) -> Option<u16>
    ensures { result ≡ cond check.now.has_first node.now.first None }
{
    if check.has_first { node.first } else { None }
}
