ghost use Rattle.node_store.specs.Memory.{memory};
ghost use Rattle.pool.specs.Loaded.{Loaded};

use crate::Pool;
use node_store::loading::fetch;
use terms::view::TermView;
use traversal::count::count_symbols;

// Why a term is not loaded.
#[derive(Clone, Copy, PartialEq, Eq, Debug)]
pub enum Unloaded {
    // no term of at most 16,384 symbols stands at the place
    NoTerm,
    // fewer nodes are free than the term has symbols
    NoRoom,
}

impl<'n> Pool<'n> {
    // Holds the term that stands at a place of a view too, and answers the place of its root.
    pub fn load<V: TermView>(&mut self, view: &V, place: u16) -> Result<u16, Unloaded>
        ensures { Loaded (V.answers view.now) place (memory self.old.store) (memory self.new.store) result }
    {
        let Some(n) = count_symbols(view, place) else {
            return Err(Unloaded::NoTerm);
        };
        if n > self.store.free() {
            return Err(Unloaded::NoRoom);
        }
        let Some(root) = fetch(&mut self.store, view, place, n) else {
            return Err(Unloaded::NoTerm);
        };
        Ok(root)
    }
}
