ghost use Rattle.std.specs.Prelude.{◌≡◌, ℕ, ◌≤◌, Some, None};
ghost use Rattle.terms.specs.View.{Answers};

use crate::symbol::Symbol;

// Whatever holds terms at places. Its meaning is the term, if any, that its answers spell at each place; asking alters nothing.
pub trait TermView {
    ghost answers: { Self → Answers };

    // What stands at a place, or nothing.
    fn symbol(&self, place: u16) -> Option<Symbol>
        ensures { result ≡ (answers self.now).symbol place };

    // The place of the n-th argument of what stands at a place, or that there is none. There are three at most.
    fn argument(&self, place: u16, n: usize) -> Option<u16>
        ensures place { result ≡ (answers self.now).argument place n }
        ensures few { (k : ℕ) → 3 ≤ k → (answers self.now).argument place k ≡ None };
}
