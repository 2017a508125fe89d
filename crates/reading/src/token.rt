// A byte that is a token by itself: ( ) , = - blank and line end.
#[derive(Clone, Copy, PartialEq, Eq, Debug)]
pub enum Mark {
    Opening,
    Closing,
    Comma,
    Equals,
    Dash,
    Blank,
    LineEnd,
}

// The byte place and the line of a token, both from 0.
#[derive(Clone, Copy, PartialEq, Eq, Debug)]
pub struct At {
    pub place: usize,
    pub line: usize,
}

impl At {
    // where a text begins
    pub const ORIGIN: At = At { place: 0, line: 0 };
}
