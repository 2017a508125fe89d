ghost use Rattle.fixed_vec.specs.FixedVec.{content};
ghost use Rattle.node_store.specs.Memory.{memory};
ghost use Rattle.stepping.specs.Copying.{Taken, Copies, Repeats};

use fixed_vec::FixedVec;
use matching::survey::{Scratch, survey};
use node_store::store::Store;
use traversal::MOST;

// A copy of the part at a place, before a row.
pub fn copy(store: &mut Store, place: u16, next: Option<u16>, scratch: &mut Scratch) -> Option<u16>
    ensures { Copies (memory store.old) place next (memory store.new) result }
{
    let node = store.node(place);
    survey(store, node.first, scratch);
    for _n in 0..scratch.order.len() {
        let source = scratch.order.pop()?;
        repeat(store, source, &mut scratch.stack)?;
    }
    let row = scratch.stack.pop();
    store.join(node.symbol?, row, next)
}

// The node at a place again, over the row of copies that is on top of the stack, if it has arguments, and before the next one, if it has a
// sibling.
fn repeat(store: &mut Store, place: u16, stack: &mut FixedVec<u16, MOST>) -> Option<()>
    ensures { Repeats (memory store.old) place (content stack.old) (memory store.new) (content stack.new) result }
{
    let node = store.node(place);
    let first = take(stack, node.first.is_some());
    let next = take(stack, node.next.is_some());
    let new = store.join(node.symbol?, first, next)?;
    stack.push(new).ok()
}

// The top of a stack, taken off if it is wanted.
pub fn take<const N: usize>(stack: &mut FixedVec<u16, N>, wanted: bool) -> Option<u16>
    ensures { Taken wanted (content stack.old) (content stack.new) result }
{
    if wanted { stack.pop() } else { None }
}
