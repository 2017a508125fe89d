ghost use Rattle.std.specs.Prelude.{◌≡◌, ℕ, slice_index};
ghost use Rattle.fixed_vec.specs.FixedVec.{items};
ghost use Rattle.node_store.specs.Memory.{memory};
ghost use Rattle.matching.specs.Room.{Roomed};
ghost use Rattle.matching.specs.Sizing.{Sized, Lists, CountsOnto};

use crate::places::Places;
use crate::survey::{Scratch, survey};
use compiled::Plan;
use fixed_vec::FixedVec;
use node_store::store::Store;

// Whether there are the nodes for a step; the sizes of the parts that it drops.
pub fn has_room(
    store: &Store,
    plan: &Plan,
    places: &Places,
    scratch: &mut Scratch,
    sizes: &mut FixedVec<usize, 8>,
) -> bool
    ensures { Roomed (memory store.now) plan.now (items places.now) (items sizes.new) result }
{
    let before = count_dropped(store, plan, places, scratch, sizes);
    let after = count_copied(store, plan, places, scratch);
    after <= before.saturating_add(store.free())
}

// How many symbols are given up: those of the left side that are no variables, and those of the parts that are dropped. Lists the sizes
// of these parts.
fn count_dropped(
    store: &Store,
    plan: &Plan,
    places: &Places,
    scratch: &mut Scratch,
    sizes: &mut FixedVec<usize, 8>,
) -> usize
    ensures sizes { Lists (memory store.now).nodes (items places.now) (items plan.now.dropped) (items sizes.new) }
    ensures sum { CountsOnto plan.now.before (memory store.now).nodes (items places.now) (items plan.now.dropped) result }
{
    sizes.clear();
    let mut before = plan.before;
    for number in plan.dropped.iter() {
        let n = size(store, place_of(places, *number), scratch);
        let _ = sizes.push(n);
        before = before.saturating_add(n);
    }
    before
}

// How many symbols are made: those of the right side that are no variables, and those of the parts that are copied.
fn count_copied(store: &Store, plan: &Plan, places: &Places, scratch: &mut Scratch) -> usize
    ensures { CountsOnto plan.now.after (memory store.now).nodes (items places.now) (items plan.now.copied) result }
{
    let mut after = plan.after;
    for number in plan.copied.iter() {
        let n = size(store, place_of(places, *number), scratch);
        after = after.saturating_add(n);
    }
    after
}

// The place of a number, and 0 past the last one.
fn place_of(places: &Places, number: usize) -> u16
    ensures { result ≡ slice_index (items places.now) number }
{
    places.get(number).copied().unwrap_or(0)
}

// How many symbols the term at a place has.
fn size(store: &Store, place: u16, scratch: &mut Scratch) -> usize
    ensures { (n : ℕ) → Sized (memory store.now).nodes place n → result ≡ n }
{
    survey(store, store.node(place).first, scratch);
    scratch.order.len() + 1
}
