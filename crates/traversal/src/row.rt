ghost use Rattle.std.specs.Prelude.{◌≡◌, None};
ghost use Rattle.fixed_vec.specs.FixedVec.{content};
ghost use Rattle.traversal.specs.Rows.{row_of, padded, PutBefore};

use crate::MOST;
use fixed_vec::{FixedVec, Full};
use terms::view::TermView;

// The places of the arguments of a place, in order, and nothing behind the last. In an array: a `FixedVec` of them is slower to go through.
pub fn arguments<V: TermView>(view: &V, place: u16) -> [Option<u16>; 3]
    ensures row { result ≡ padded (row_of (V.answers view.now) place) }
    ensures few { (V.answers view.now).argument place 3 ≡ None }
{
    let Some(first) = view.argument(place, 0) else {
        return [None; 3];
    };
    let Some(second) = view.argument(place, 1) else {
        return [Some(first), None, None];
    };
    [Some(first), Some(second), view.argument(place, 2)]
}

// Puts the places of the arguments of a place onto the stack, the first on top. In writing an item carries more, from one to the next,
// so that has a loop of its own.
pub fn push_arguments<V: TermView>(
    view: &V,
    place: u16,
    stack: &mut FixedVec<u16, MOST>,
) -> Result<(), Full>
    ensures row { PutBefore (row_of (V.answers view.now) place) (content stack.old) (content stack.new) result }
    ensures few { (V.answers view.now).argument place 3 ≡ None }
{
    let [first, second, third] = arguments(view, place);
    for slot in [third, second, first] {
        if let Some(argument) = slot {
            stack.push(argument)?;
        }
    }
    Ok(())
}
