ghost use Rattle.terms.specs.Nodes.{node_answers};
ghost use Rattle.node_store.specs.Memory.{memory};

use crate::Pool;
use terms::symbol::Symbol;
use terms::view::TermView;

impl<'n> TermView for Pool<'n> {
    ghost answers = { λ s. node_answers (memory s.store).nodes };

    fn symbol(&self, place: u16) -> Option<Symbol> {
        self.store.node(place).symbol
    }

    fn argument(&self, place: u16, n: usize) -> Option<u16> {
        if n >= 3 {
            return None;
        }
        self.store.along(self.store.node(place).first, n)
    }
}
