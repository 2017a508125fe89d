ghost use Rattle.fixed_vec.specs.FixedVec.{content};
ghost use Rattle.traversal.specs.Pendings.{SomeOfSize};
ghost use Rattle.traversal.specs.Comparing.{Compared, ComparedOfSize, SomeLeft, Opened};

use crate::MOST;
use crate::count::count_symbols;
use crate::row::push_arguments;
use fixed_vec::FixedVec;
use terms::symbol::Symbol;
use terms::view::TermView;

// Whether one term stands at two places, each of its own view; nothing where at one of them no term of at most 16,384 symbols stands.
pub fn same_terms<V: TermView, W: TermView>(
    first: &V,
    place: u16,
    second: &W,
    other: u16,
) -> Option<bool>
    ensures { Compared (V.answers first.now) place (W.answers second.now) other result }
{
    let n = count_symbols(first, place)?;
    let m = count_symbols(second, other)?;
    if n != m {
        return Some(false);
    }
    Some(same_of_size(first, place, second, other, n))
}

// Whether two terms of n symbols are one: both are gone through in reading order, up to the first symbol that differs or has another
// number of arguments.
fn same_of_size<V: TermView, W: TermView>(
    first: &V,
    place: u16,
    second: &W,
    other: u16,
    n: usize,
) -> bool
    requires first { SomeOfSize (V.answers first.now) place n }
    requires second { SomeOfSize (W.answers second.now) other n }
    ensures { ComparedOfSize (V.answers first.now) place (W.answers second.now) other n result }
{
    let mut places: FixedVec<u16, MOST> = FixedVec::new(place);
    let mut others: FixedVec<u16, MOST> = FixedVec::new(other);
    let (Ok(()), Ok(())) = (places.push(place), others.push(other)) else {
        unreachable()
    };
    for _k in 0..n {
        if next_symbol(first, &mut places) != next_symbol(second, &mut others) {
            return false;
        }
        if places.len() != others.len() {
            return false;
        }
    }
    true
}

// Takes the top place off, puts the places of its arguments there, and answers its symbol.
fn next_symbol<V: TermView>(view: &V, stack: &mut FixedVec<u16, MOST>) -> Option<Symbol>
    requires { SomeLeft (V.answers view.now) (content stack.old) }
    ensures { Opened (V.answers view.now) (content stack.old) (content stack.new) result }
{
    let Some(place) = stack.pop() else {
        unreachable()
    };
    let Ok(()) = push_arguments(view, place, stack) else {
        unreachable()
    };
    view.symbol(place)
}
