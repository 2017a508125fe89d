ghost use Rattle.std.specs.Prelude.{◌≡◌, ℕ, Some};
ghost use Rattle.terms.specs.View.{Answers, renamed_symbol, renamed_answers};
ghost use Rattle.terms.specs.Laws.{RenamedStand};

use crate::symbol::Symbol;
use crate::view::TermView;

// A view over another one, with every variable counted eight higher modulo 16.
#[derive(Drop)]
pub struct Renamed<'v, V> {
    inner: &'v V,
}

impl<'v, V: TermView> Renamed<'v, V> {
    // At its places stand the renamed terms of the view below, and no others.
    pub fn over(inner: &'v V) -> Renamed<'v, V>
        ensures answers { V.answers result.inner.now ≡ V.answers inner.now }
        ensures terms { RenamedStand (V.answers inner.now) }
    {
        Renamed { inner }
    }
}

impl Symbol {
    // With its variable, if it is one, counted eight higher modulo 16.
    fn renamed(self) -> Symbol
        ensures { Some result ≡ renamed_symbol (Some self) }
    {
        match self {
            Symbol::Variable(x) => Symbol::Variable((x % 16 + 8) % 16),
            other => other,
        }
    }
}

impl<'v, V: TermView> TermView for Renamed<'v, V> {
    ghost answers = { λ s. renamed_answers (V.TermView.answers s.inner.now) };

    fn symbol(&self, place: u16) -> Option<Symbol> {
        self.inner.symbol(place).map(Symbol::renamed)
    }

    fn argument(&self, place: u16, n: usize) -> Option<u16> {
        self.inner.argument(place, n)
    }
}
