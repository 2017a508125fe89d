ghost use Rattle.std.specs.Prelude.{◌∷◌};
ghost use Rattle.fixed_vec.specs.FixedVec.{content};
ghost use Rattle.traversal.specs.Walks.{Counted};
ghost use Rattle.traversal.specs.Rows.{Visited};

use crate::MOST;
use crate::row::push_arguments;
use fixed_vec::FixedVec;
use terms::symbol::Symbol;
use terms::view::TermView;

// The number of symbols of the term at a place, or nothing where no term of at most 16,384 symbols stands there.
pub fn count_symbols<V: TermView>(view: &V, place: u16) -> Option<usize>
    ensures { Counted (V.answers view.now) place result }
{
    let mut stack: FixedVec<u16, MOST> = FixedVec::new(place);
    stack.push(place).ok()?;
    for n in 0..=MOST {
        let Some(top) = stack.pop() else {
            return Some(n);
        };
        visit(view, top, &mut stack)?;
    }
    None
}

// Puts the places of the arguments of a symbol onto the stack; nothing where it cannot be the symbol of a term, or there is no room.
fn visit<V: TermView>(view: &V, place: u16, stack: &mut FixedVec<u16, MOST>) -> Option<()>
    ensures { Visited (V.answers view.now) (place ∷ content stack.old) (content stack.new) result }
{
    match view.symbol(place)? {
        Symbol::Variable(_) | Symbol::Instrument(_) => match view.argument(place, 0) {
            Some(_) => None,
            None => Some(()),
        },
        Symbol::Operator(_) => push_arguments(view, place, stack).ok(),
    }
}
