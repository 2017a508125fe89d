ghost use Rattle.std.specs.Prelude.{◌≡◌, length, None};
ghost use Rattle.fixed_vec.specs.FixedVec.{content};
ghost use Rattle.traversal.specs.Rows.{row_of};
ghost use Rattle.node_store.specs.Memory.{memory};
ghost use Rattle.node_store.specs.Loading.{Traced, Adds, Builds, Fetches};

use crate::store::Store;
use fixed_vec::FixedVec;
use terms::view::TermView;
use traversal::MOST;
use traversal::row::push_arguments;

// Makes the nodes of the term of n symbols at a place, for which there is room.
pub fn fetch<V: TermView>(store: &mut Store, view: &V, place: u16, n: usize) -> Option<u16>
    ensures { Fetches (V.answers view.now) place n (memory store.old) (memory store.new) result }
{
    let mut order: FixedVec<u16, MOST> = FixedVec::new(place);
    trace(view, place, n, &mut order)?;
    let root = build(store, view, &mut order)?;
    store.mark(root);
    Some(root)
}

// How many arguments are at a place.
fn arity<V: TermView>(view: &V, place: u16) -> usize
    ensures row { result ≡ length (row_of (V.answers view.now) place) }
    ensures few { (V.answers view.now).argument place 3 ≡ None }
{
    let Some(_) = view.argument(place, 0) else {
        return 0;
    };
    let Some(_) = view.argument(place, 1) else {
        return 1;
    };
    let Some(_) = view.argument(place, 2) else {
        return 2;
    };
    3
}

// The places of the n symbols of the term at a place, in reading order.
fn trace<V: TermView>(view: &V, place: u16, n: usize, order: &mut FixedVec<u16, MOST>) -> Option<()>
    ensures { Traced (V.answers view.now) place n (content order.old) (content order.new) result }
{
    let mut stack: FixedVec<u16, MOST> = FixedVec::new(place);
    stack.push(place).ok()?;
    for _k in 0..n {
        let top = stack.pop()?;
        order.push(top).ok()?;
        push_arguments(view, top, &mut stack).ok()?;
    }
    Some(())
}

// Makes the node of the symbol at a place, before a row whose first terms are its arguments.
fn add<V: TermView>(store: &mut Store, view: &V, place: u16, head: Option<u16>) -> Option<u16>
    ensures { Adds (V.answers view.now) place (memory store.old) head (memory store.new) result }
{
    let symbol = view.symbol(place)?;
    let n = arity(view, place);
    if n == 0 {
        return store.join(symbol, None, head);
    }
    let last = store.along(head, n - 1)?;
    let next = store.end(last);
    store.join(symbol, head, next)
}

// Makes the nodes of a term, of which these are the places of the symbols; answers the place of its root.
fn build<V: TermView>(store: &mut Store, view: &V, order: &mut FixedVec<u16, MOST>) -> Option<u16>
    ensures { Builds (V.answers view.now) (content order.old) (memory store.old) (memory store.new) result }
{
    let mut head = None;
    for _k in 0..order.len() {
        let Some(place) = order.pop() else {
            return head;
        };
        head = add(store, view, place, head);
    }
    head
}
