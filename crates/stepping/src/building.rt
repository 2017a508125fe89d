ghost use Rattle.fixed_vec.specs.FixedVec.{items, content};
ghost use Rattle.node_store.specs.Memory.{memory};
ghost use Rattle.stepping.specs.Building.{MadeFrom, Builds};

use crate::copying::{copy, take};
use compiled::{Plan, Source};
use fixed_vec::FixedVec;
use matching::places::Places;
use matching::survey::Scratch;
use node_store::store::Store;

// Makes the row of a right side's arguments, the last piece first; answers its link, and the places of its pieces.
pub fn build(
    store: &mut Store,
    plan: &Plan,
    places: &Places,
    scratch: &mut Scratch,
    made: &mut Places,
) -> Option<Option<u16>>
    ensures { Builds (memory store.old) plan.now (items places.now) (memory store.new) (content made.new) result }
{
    made.clear();
    let mut rows: Places = FixedVec::new(0);
    let pieces = plan.pieces.as_slice();
    for i in (0..pieces.len()).rev() {
        let piece = &pieces[i];
        let first = take(&mut rows, piece.has_first);
        let next = take(&mut rows, piece.has_next);
        let place = build_piece(store, piece.source, first, next, places, scratch)?;
        made.push(place).ok()?;
        rows.push(place).ok()?;
    }
    Some(rows.pop())
}

// Makes one piece over a row and before another, or moves or copies the part that it stands for.
fn build_piece(
    store: &mut Store,
    source: Source,
    first: Option<u16>,
    next: Option<u16>,
    places: &Places,
    scratch: &mut Scratch,
) -> Option<u16>
    ensures { MadeFrom (memory store.old) source first next (items places.now) (memory store.new) result }
{
    match source {
        Source::Made(symbol) => store.join(symbol, first, next),
        Source::Moved(number) => {
            let place = places.get(number).copied().unwrap_or(0);
            store.link(place, next);
            Some(place)
        }
        Source::Copied(number) => {
            let place = places.get(number).copied().unwrap_or(0);
            copy(store, place, next, scratch)
        }
    }
}
