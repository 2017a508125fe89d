ghost use Rattle.std.specs.Prelude.{◌≡◌, ◌<◌, ◌∷◌, length};
ghost use Rattle.fixed_vec.specs.FixedVec.{content};
ghost use Rattle.engine.specs.Searched.{ahead};

use fixed_vec::FixedVec;
use traversal::MOST;

// A visit of a search: to a row that nobody has looked at, or to a node whose arguments are done.
#[derive(Clone, Copy)]
pub enum Visit {
    Fresh(u16),
    Reached(u16),
}

// The visits still to be made, the next one on top.
pub type Visits = FixedVec<Visit, MOST>;

// Puts a visit on top. In a search there is room for it, since there is at most one to each node.
pub fn put(todo: &mut Visits, visit: Visit)
    ensures { length (content todo.old) < MOST → content todo.new ≡ visit ∷ content todo.old }
{
    todo.push(visit).unwrap_or(())
}

// Puts a visit to the row at a link on top, if one begins there.
pub fn put_row(todo: &mut Visits, first: Option<u16>)
    ensures { length (content todo.old) < MOST → content todo.new ≡ ahead first (content todo.old) }
{
    if let Some(place) = first {
        put(todo, Visit::Fresh(place));
    }
}
