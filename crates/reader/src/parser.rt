use crate::ticket::TICKET_NODES;
use fixed_vec::FixedVec;
use reading::token::At;
use terms::layout::Layout;

pub mod parsing;

// An operator whose arguments are being read: where its name stands, its node, and how many arguments follow the one being read.
#[derive(Clone, Copy)]
pub struct Frame {
    pub at: At,
    pub node: u16,
    pub left: u8,
}

// A term that was read: the node of its root, and the place of an operator without arguments that stands just before.
#[derive(Clone, Copy)]
pub struct Whole {
    pub root: u16,
    pub bare: Option<At>,
}

// What may come: a term; an opening parenthesis behind an operator; or what follows a term.
#[derive(Clone, Copy)]
pub enum Phase {
    Wants,
    Opens(Frame),
    Has(Whole),
}

// What is read so far: the nodes in reading order, the operators whose arguments are being read, and what may come.
#[derive(Drop)]
pub struct Parser {
    nodes: Layout<TICKET_NODES>,
    frames: FixedVec<Frame, TICKET_NODES>,
    phase: Phase,
}
