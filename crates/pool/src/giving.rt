ghost use Rattle.std.specs.Prelude.{◌≡◌, ◌+◌, ◌==◌, ◌<◌, ℕ, cond, is_some, length, IfSome, IfNone, Some, None};
ghost use Rattle.traversal.specs.Walks.{most_symbols, StandsWith};
ghost use Rattle.terms.specs.Term.{Term};
ghost use Rattle.terms.specs.Nodes.{node_answers};
ghost use Rattle.node_store.specs.Memory.{memory, cleared};
ghost use Rattle.node_store.specs.Sound.{held_at, symbols_of};

use crate::Pool;
use node_store::store::Store;
use terms::node::Node;
use traversal::count::count_symbols;

// The most nodes of a pool.
const MOST: usize = 16_384;

impl<'n> Pool<'n> {
    // A pool of the lent nodes, all of them vacant and free; nothing where there are more than 16,384.
    pub fn new(nodes: &'n mut [Node]) -> Option<Pool<'n>>
        ensures some { IfSome result (λ p. memory p.store ≡ cleared (length nodes.old)) }
        ensures none { IfNone result (most_symbols < length nodes.old) }
    {
        if nodes.len() > MOST {
            return None;
        }
        let store = Store::new(nodes);
        Some(Pool { store })
    }

    // How many nodes are free.
    pub fn free(&self) -> usize
        ensures { result ≡ (memory self.now.store).free }
    {
        self.store.free()
    }

    // Whether a term is held at a place. It stands there in the pool's view then.
    pub fn holds(&self, place: u16) -> bool
        ensures answer { result ≡ is_some (held_at (memory self.now.store).nodes place) }
        ensures stands { (t : Term) → held_at (memory self.now.store).nodes place ≡ Some t → ∥ StandsWith (node_answers (memory self.now.store).nodes) place t ∥₁ }
    {
        self.store.is_root(place)
    }

    // Frees the nodes of the term that is held at a place; answers whether one is held there, else nothing changes.
    pub fn give(&mut self, place: u16) -> bool
        ensures answer { result ≡ is_some (held_at (memory self.old.store).nodes place) }
        ensures held { (q : ℕ) → held_at (memory self.new.store).nodes q ≡ cond (q == place) None (held_at (memory self.old.store).nodes q) }
        ensures free { (memory self.new.store).free ≡ (memory self.old.store).free + symbols_of (held_at (memory self.old.store).nodes place) }
    {
        if !self.store.is_root(place) {
            return false;
        }
        let Some(n) = count_symbols(self, place) else {
            return false;
        };
        self.store.give(place, n);
        true
    }

    // Makes every node vacant and free; no term is held then.
    pub fn clear(&mut self)
        ensures { memory self.new.store ≡ cleared (length (memory self.old.store).nodes) }
    {
        self.store.clear();
    }
}
