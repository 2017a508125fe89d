ghost use Rattle.std.specs.Prelude.{◌≡◌, ◌+◌, ◌^◌, ◌<◌, ◌≤◌, true, length};
ghost use Rattle.terms.specs.Signature.{spelt};

use reading::token::{At, Mark};

// A part of the text that is spelt as a name.
#[derive(Clone, Copy)]
pub struct Name<'t> {
    pub bytes: &'t [u8],
    ghost is_spelt: { spelt bytes.now ≡ true },
}

// A token. Names, numbers and instruments are the parts of the text that they were read from.
#[derive(Clone, Copy)]
pub enum Token<'t> {
    Name(Name<'t>),
    Number(&'t [u8]),
    Instrument(&'t [u8]),
    Variable(u8),
    Mark(Mark),
    // a byte that begins no token
    Stray(u8),
}

// A token with its place.
#[derive(Clone, Copy)]
pub struct Lexeme<'t> {
    pub token: Token<'t>,
    pub at: At,
}

// What is left of a text, and where that begins.
#[derive(Clone, Copy)]
pub struct Lexer<'t> {
    pub(crate) rest: &'t [u8],
    pub at: At,
    ghost fits: { at.place + length rest.now < 2 ^ 64 },
    ghost few: { at.line ≤ at.place },
}
