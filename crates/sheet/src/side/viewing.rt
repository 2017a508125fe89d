ghost use Rattle.std.specs.Prelude.{◌≡◌, ◌≤◌};
ghost use Rattle.terms.specs.Term.{symbols};
ghost use Rattle.terms.specs.Rule.{levels};
ghost use Rattle.terms.specs.View.{Stands};
ghost use Rattle.sheet.specs.Terms.{term_in, LaidSide};
ghost use Rattle.sheet.specs.Sides.{side_of, side_answers};

use super::Side;
use terms::layout::Layout;
use terms::node::Node;
use terms::symbol::Symbol;
use terms::view::TermView;

impl Side {
    // The side that a layout holds.
    pub fn new(nodes: &Layout<32>) -> Side
        requires { LaidSide nodes.now }
        ensures { side_of result ≡ term_in nodes.now }
    {
        Side { nodes: *nodes }
    }

    // A side of one instrument, for the places that are not in use.
    #[tactic(auto, using(crate::proofs::Sides::laid_instrument))]
    pub(crate) fn blank() -> Side {
        let mut nodes = Layout::new();
        nodes
            .push(Node {
                symbol: Some(Symbol::Instrument(1)),
                ..Node::VACANT
            })
            .unwrap();
        Side::new(&nodes)
    }

    // How many symbols it has.
    pub fn len(&self) -> usize
        ensures value { result ≡ symbols (side_of self.now) }
        ensures few { result ≤ 32 }
    {
        self.nodes.len()
    }

    // The place of its term as a view. The term has at most 16 levels.
    #[tactic(auto, using(crate::proofs::Sides::side_stands))]
    pub fn root(&self) -> u16
        ensures value { result ≡ 0 }
        ensures stands { Stands (side_answers self.now) result (side_of self.now) }
        ensures low { levels (side_of self.now) ≤ 16 }
    {
        0
    }
}

impl TermView for Side {
    ghost answers = { side_answers };

    fn symbol(&self, place: u16) -> Option<Symbol> {
        self.nodes.symbol(place)
    }

    fn argument(&self, place: u16, n: usize) -> Option<u16> {
        self.nodes.argument(place, n)
    }
}
