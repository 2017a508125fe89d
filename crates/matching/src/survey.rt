ghost use Rattle.std.specs.Prelude.{◌≡◌, []};
ghost use Rattle.fixed_vec.specs.FixedVec.{items};
ghost use Rattle.node_store.specs.Memory.{memory};
ghost use Rattle.matching.specs.Surveying.{Surveyed};

use crate::onward::onward;
use fixed_vec::FixedVec;
use node_store::store::Store;
use traversal::MOST;

// Stacks for going through terms of a store.
#[derive(Clone, Copy)]
pub struct Scratch {
    pub order: FixedVec<u16, MOST>,
    pub stack: FixedVec<u16, MOST>,
}

impl Scratch {
    // With nothing on them.
    pub fn new() -> Scratch
        ensures order { items result.order ≡ [] }
        ensures stack { items result.stack ≡ [] }
    {
        Scratch {
            order: FixedVec::new(0),
            stack: FixedVec::new(0),
        }
    }
}

// The places of a row's nodes in reading order.
pub fn survey(store: &Store, first: Option<u16>, scratch: &mut Scratch)
    ensures { Surveyed (memory store.now).nodes first (items scratch.new.order) (items scratch.new.stack) }
{
    scratch.order.clear();
    scratch.stack.clear();
    let mut current = first;
    for _n in 0..MOST {
        let Some(place) = current else {
            return;
        };
        let _ = scratch.order.push(place);
        let node = store.node(place);
        current = onward(node.first, node.next, &mut scratch.stack);
    }
}
