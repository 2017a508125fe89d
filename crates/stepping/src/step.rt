ghost use Rattle.std.specs.Prelude.{◌≡◌};
ghost use Rattle.fixed_vec.specs.FixedVec.{items, content};
ghost use Rattle.node_store.specs.Memory.{memory};
ghost use Rattle.stepping.specs.Parting.{parted, without, finished};
ghost use Rattle.stepping.specs.Stepping.{Steps};

use crate::building::build;
use compiled::{Plan, Source};
use fixed_vec::FixedVec;
use matching::places::Places;
use matching::survey::Scratch;
use node_store::store::Store;

// Makes the step of a rule at a place, where its left side matches and for which there is room. Answers the places made.
pub fn step(
    store: &mut Store,
    plan: &Plan,
    place: u16,
    places: &Places,
    sizes: &FixedVec<usize, 8>,
    scratch: &mut Scratch,
    made: &mut Places,
) -> Option<()>
    ensures { Steps (memory store.old) plan.now place (items places.now) (items sizes.now) (memory store.new) (content made.new) result }
{
    let symbol = store.node(place).symbol;
    store.put_under(place, symbol, None);
    take_apart(store, plan, places);
    give_dropped(store, plan, places, sizes);
    let row = build(store, plan, places, scratch, made);
    finish(store, plan.root.source, place, places, row?);
    Some(())
}

// Frees the nodes that the left side matched, but those of variables, which become rows of their own.
fn take_apart(store: &mut Store, plan: &Plan, places: &Places)
    ensures { memory store.new ≡ parted (memory store.old) (items plan.now.checks) (items places.now) }
{
    for (check, place) in plan.checks.iter().zip(places.iter()) {
        match check.symbol {
            Some(_) => store.free_node(*place),
            None => {
                store.end(*place);
            }
        }
    }
}

// Gives back the parts of variables that the right side does not have.
fn give_dropped(store: &mut Store, plan: &Plan, places: &Places, sizes: &FixedVec<usize, 8>)
    ensures { memory store.new ≡ without (memory store.old) (items plan.now.dropped) (items sizes.now) (items places.now) }
{
    for (number, size) in plan.dropped.iter().zip(sizes.iter()) {
        let place = places.get(*number).copied().unwrap_or(0);
        store.give(place, *size);
    }
}

// Puts the right side's first symbol in the place of the left side's.
fn finish(store: &mut Store, source: Source, place: u16, places: &Places, row: Option<u16>)
    ensures { memory store.new ≡ finished (memory store.old) source place (items places.now) row }
{
    match source {
        Source::Made(symbol) => store.put_under(place, Some(symbol), row),
        Source::Moved(number) | Source::Copied(number) => {
            let part = places.get(number).copied().unwrap_or(0);
            let node = store.node(part);
            store.free_node(part);
            store.put_under(place, node.symbol, node.first);
        }
    }
}
