ghost use Rattle.std.specs.Prelude.{◌≡◌, ℕ, ◌<◌, ◌≤◌, List, [], ◌∷◌, ◌++◌, length, slice_index_or};
ghost use Rattle.terms.specs.Nodes.{vacant, along, node_answers, with_next};
ghost use Rattle.terms.specs.Layout.{in_use, Pushed};

use super::Layout;
use crate::node::Node;
use crate::symbol::Symbol;
use crate::view::TermView;
use fixed_vec::FixedVec;

impl<const N: usize> Layout<N> {
    // With no node in use.
    pub fn new() -> Layout<N>
        ensures { in_use result ≡ [] }
    {
        Layout {
            nodes: FixedVec::new(Node::VACANT),
        }
    }

    // How many nodes are in use.
    pub fn len(&self) -> usize
        ensures value { result ≡ length (in_use self.now) }
        ensures few { result ≤ N }
    {
        self.nodes.len()
    }

    // Puts one more node into use and answers its place, or nothing where there is no room or no place number.
    pub fn push(&mut self, node: Node) -> Option<u16>
        ensures { Pushed N (in_use self.old) node (in_use self.new) result }
    {
        let place = u16::try_from(self.nodes.len()).ok()?;
        self.nodes.push(node).ok()?;
        Some(place)
    }

    // Makes `next` the next sibling of the node at a place that is in use.
    pub fn link(&mut self, place: u16, next: u16)
        ensures { in_use self.new ≡ with_next (in_use self.old) place next }
    {
        let node = self.node(place);
        let linked = Node {
            next: Some(next),
            ..node
        };
        self.nodes.set(usize::from(place), linked);
    }

    // The node at a place, vacant where none is in use.
    fn node(&self, place: u16) -> Node
        ensures { result ≡ slice_index_or (in_use self.now) place vacant }
    {
        self.nodes
            .get(usize::from(place))
            .copied()
            .unwrap_or(Node::VACANT)
    }

    // So many siblings along from a link.
    #[tactic(auto, using(crate::proofs::Nodes::along_next))]
    fn along(&self, start: Option<u16>, n: usize) -> Option<u16>
        ensures { result ≡ along (in_use self.now) start n }
    {
        let mut link = start;
        for _k in 0..n {
            link = self.node(link?).next;
        }
        link
    }
}

impl<const N: usize> TermView for Layout<N> {
    ghost answers = { λ s. node_answers (in_use s) };

    fn symbol(&self, place: u16) -> Option<Symbol> {
        self.node(place).symbol
    }

    fn argument(&self, place: u16, n: usize) -> Option<u16> {
        if n >= 3 {
            return None;
        }
        self.along(self.node(place).first, n)
    }
}
