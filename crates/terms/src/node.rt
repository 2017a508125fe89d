use crate::symbol::Symbol;

// A symbol, the place of its first argument and the place of its next sibling. A vacant node has none of them.
// Places and no boxes: terms live in lent nodes, and nothing is allocated.
#[derive(Clone, Copy)]
pub struct Node {
    pub symbol: Option<Symbol>,
    pub first: Option<u16>,
    pub next: Option<u16>,
}

impl Node {
    pub const VACANT: Node = Node {
        symbol: None,
        first: None,
        next: None,
    };
}
