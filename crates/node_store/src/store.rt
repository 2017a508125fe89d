ghost use Rattle.std.specs.Prelude.{◌≡◌, ◌+◌, ◌<◌, ◌^◌, length, slice_index_or};
ghost use Rattle.terms.specs.Nodes.{vacant, along};
ghost use Rattle.node_store.specs.Memory.{memory, cleared, written, given, freed_at, linked, laid_over};
ghost use Rattle.node_store.specs.Work.{Settles, turned, reused, opened, FirstUnused, Joins};
ghost use Rattle.node_store.specs.Loading.{ended, marked};
ghost use Rattle.node_store.specs.Sound.{leads};

use terms::node::Node;
use terms::symbol::Symbol;

// Lent nodes. Those from `fresh` on are vacant and were never in use; `freed` begins a row of nodes that were given back, each with
// all that hangs below it.
#[derive(Drop)]
pub struct Store<'n> {
    nodes: &'n mut [Node],
    fresh: usize,
    freed: Option<u16>,
    free: usize,
}

impl<'n> Store<'n> {
    // With every node vacant.
    pub fn new(nodes: &'n mut [Node]) -> Store<'n>
        ensures { memory result ≡ cleared (length nodes.old) }
    {
        let free = nodes.len();
        nodes.fill(Node::VACANT);
        Store {
            nodes,
            fresh: 0,
            freed: None,
            free,
        }
    }

    // Makes every node vacant.
    pub fn clear(&mut self)
        ensures { memory self.new ≡ cleared (length self.old.nodes.now) }
    {
        self.nodes.fill(Node::VACANT);
        self.fresh = 0;
        self.freed = None;
        self.free = self.nodes.len();
    }

    // How many nodes are free.
    pub fn free(&self) -> usize
        ensures { result ≡ (memory self.now).free }
    {
        self.free
    }

    // The node at a place, vacant where there is none.
    pub fn node(&self, place: u16) -> Node
        ensures { result ≡ slice_index_or (memory self.now).nodes place vacant }
    {
        self.nodes
            .get(usize::from(place))
            .copied()
            .unwrap_or(Node::VACANT)
    }

    // Whether the node at a place is its own next sibling, as the roots of held terms are.
    pub fn is_root(&self, place: u16) -> bool
        ensures { result ≡ leads (slice_index_or (memory self.now).nodes place vacant).next place }
    {
        match self.node(place).next {
            Some(next) => next == place,
            None => false,
        }
    }

    // So many siblings along from a link.
    #[tactic(auto, using(terms::proofs::Nodes::along_next))]
    pub fn along(&self, start: Option<u16>, n: usize) -> Option<u16>
        ensures { result ≡ along (memory self.now).nodes start n }
    {
        let mut link = start;
        for _k in 0..n {
            link = self.node(link?).next;
        }
        link
    }

    // Puts a node at a place; where there is none, nothing changes.
    pub fn put(&mut self, place: u16, node: Node)
        ensures { memory self.new ≡ written (memory self.old) place node }
    {
        let at = usize::from(place);
        if at < self.nodes.len() {
            self.nodes[at] = node;
        }
    }

    // Frees the n nodes of the term at a place.
    pub fn give(&mut self, place: u16, n: usize)
        ensures { memory self.new ≡ given (memory self.old) place n }
    {
        let first = self.node(place).first;
        let next = self.freed;
        let symbol = None;
        self.put(
            place,
            Node {
                symbol,
                first,
                next,
            },
        );
        self.freed = Some(place);
        self.free = self.free.saturating_add(n);
    }

    // Takes the next sibling off the node at a place, and answers it.
    pub fn end(&mut self, place: u16) -> Option<u16>
        ensures memory { memory self.new ≡ ended (memory self.old) place }
        ensures next { result ≡ (slice_index_or (memory self.old).nodes place vacant).next }
    {
        let next = self.node(place).next;
        self.link(place, None);
        next
    }

    // Makes the node at a place its own next sibling.
    pub fn mark(&mut self, place: u16)
        ensures { memory self.new ≡ marked (memory self.old) place }
    {
        self.link(place, Some(place));
    }

    // Makes another node the next sibling of the node at a place.
    pub fn link(&mut self, place: u16, next: Option<u16>)
        ensures { memory self.new ≡ linked (memory self.old) place next }
    {
        let node = self.node(place);
        self.put(place, Node { next, ..node });
    }

    // Puts another symbol at a place, over another row of arguments.
    pub fn put_under(&mut self, place: u16, symbol: Option<Symbol>, first: Option<u16>)
        ensures { memory self.new ≡ laid_over (memory self.old) place symbol first }
    {
        let old = self.node(place);
        self.put(
            place,
            Node {
                symbol,
                first,
                ..old
            },
        );
    }

    // Frees the node at a place alone.
    pub fn free_node(&mut self, place: u16)
        ensures { memory self.new ≡ freed_at (memory self.old) place }
    {
        self.put(
            place,
            Node {
                symbol: None,
                first: None,
                next: self.freed,
            },
        );
        self.freed = Some(place);
        self.free = self.free.saturating_add(1);
    }

    // Makes a free node the first of a row: its arguments and its later siblings stand already. Nothing where no node is free.
    pub fn join(&mut self, symbol: Symbol, first: Option<u16>, next: Option<u16>) -> Option<u16>
        ensures { Joins (memory self.old) symbol first next (memory self.new) result }
    {
        self.settle();
        let symbol = Some(symbol);
        let node = Node {
            symbol,
            first,
            next,
        };
        if let Some(place) = self.freed {
            self.reuse(place, node);
            return Some(place);
        }
        let place = self.unused()?;
        self.open(node);
        Some(place)
    }

    // The place of the first node that was never in use, if there is one with a place number.
    fn unused(&self) -> Option<u16>
        ensures { FirstUnused (memory self.now) result }
    {
        if self.fresh >= self.nodes.len() {
            return None;
        }
        u16::try_from(self.fresh).ok()
    }

    // Uses the first node of those given back, at this place.
    fn reuse(&mut self, place: u16, node: Node)
        ensures { memory self.new ≡ reused (memory self.old) place node }
    {
        self.freed = self.node(place).next;
        self.free = self.free.saturating_sub(1);
        self.put(place, node);
    }

    // Uses the first node that was never in use.
    fn open(&mut self, node: Node)
        requires { self.old.fresh < length self.old.nodes.now }
        ensures { memory self.new ≡ opened (memory self.old) node }
    {
        let at = self.fresh;
        self.fresh += 1;
        self.free = self.free.saturating_sub(1);
        self.nodes[at] = node;
    }

    // Turns the row of those given back until nothing hangs below its first node.
    fn settle(&mut self)
        ensures { Settles (memory self.old) (memory self.new) }
    {
        for _n in 0..self.free {
            let Some(root) = self.freed else {
                return;
            };
            let Some(low) = self.node(root).first else {
                return;
            };
            self.turn(root, low);
        }
    }

    // Puts the first of those given back behind what hangs first below it.
    fn turn(&mut self, root: u16, low: u16)
        ensures { memory self.new ≡ turned (memory self.old) root low }
    {
        let upper = self.node(root);
        let lower = self.node(low);
        let first = lower.next;
        let next = Some(root);
        self.put(root, Node { first, ..upper });
        self.put(low, Node { next, ..lower });
        self.freed = Some(low);
    }
}
