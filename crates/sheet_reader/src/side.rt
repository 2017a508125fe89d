use reading::token::At;
use signature::Signature;
use terms::layout::Layout;

mod nested;
mod rooms;
mod symbols;

// How many rules a sheet may have, and how many symbols a side, on how many levels.
pub(crate) const SIDE_RULES: usize = 32;

pub(crate) const SIDE_SYMBOLS: usize = 32;

pub(crate) const SIDE_LEVELS: u8 = 16;

// The side of a rule that is read.
#[derive(Clone, Copy, PartialEq, Eq)]
pub(crate) enum Hand {
    Left,
    Right,
}

// How many symbols may still come, and on how many levels.
#[derive(Clone, Copy)]
pub(crate) struct Room {
    pub(crate) symbols: u8,
    pub(crate) levels: u8,
}

// A term that was read: the place of an operator without arguments that stands just before, and how many symbols may still come.
#[derive(Clone, Copy)]
pub(crate) struct Whole {
    pub(crate) bare: Option<At>,
    pub(crate) spare: u8,
}

// A side as far as it is read: its nodes in reading order, and which variables stand on the left side.
#[derive(Clone, Copy)]
pub(crate) struct SideReader<'s> {
    pub(crate) signature: &'s Signature,
    pub(crate) hand: Hand,
    pub(crate) variables: [bool; 8],
    pub(crate) nodes: Layout<SIDE_SYMBOLS>,
}
