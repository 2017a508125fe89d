ghost use Rattle.std.specs.Prelude.{◌≡◌, ℕ, ◌+◌, ◌-◌, ◌^◌, ◌<◌, ◌≤◌, ◌∷◌, Bool, length, drop, slice_index};
ghost use Rattle.reading.specs.Tokens.{front, single, first_token, first_of_text, token_bytes, lines, origin};
ghost use Rattle.std.specs.Fn.{ComputesKey};
ghost use Rattle.std.specs.Option.{option_map};
ghost use Rattle.terms.specs.Signature.{digit, word};
ghost use Rattle.lexer.specs.Lexing.{meaning, what_is_left, Lexed};

use crate::token::{Lexeme, Lexer, Name, Token};
use reading::token::{At, Mark};

// A name has at most so many bytes behind its first.
const NAME_REST: usize = 11;

// The first byte with the run behind it of bytes that are wanted, of so many at most.
fn run<'t, F: Fn(&u8) -> bool>(text: &'t [u8], wanted: F, most: usize) -> &'t [u8]
    requires some { 0 < length text.now }
    requires callable { (f : _) (b : _) → F.FnMut.pre f b }
    ensures { (p : ℕ → Bool) → ComputesKey F.FnMut p wanted → result.now ≡ slice_index text.now 0 ∷ front p most (drop 1 text.now) }
{
    let behind = text[1..]
        .iter()
        .copied()
        .take(most)
        .take_while(wanted)
        .count();
    &text[..behind + 1]
}

// The first byte and the digits behind it.
fn digits<'t>(text: &'t [u8]) -> &'t [u8]
    requires { 0 < length text.now }
    ensures { result.now ≡ slice_index text.now 0 ∷ front digit (length (drop 1 text.now)) (drop 1 text.now) }
{
    run(text, u8::is_ascii_digit, text.len() - 1)
}

// The first byte and the lower-case letters and digits behind it, as far as a name goes.
fn words<'t>(text: &'t [u8]) -> &'t [u8]
    requires { 0 < length text.now }
    ensures { result.now ≡ slice_index text.now 0 ∷ front word 11 (drop 1 text.now) }
{
    run(text, is_word, NAME_REST)
}

// What a name goes on with.
fn is_word(b: &u8) -> bool
    ensures { result ≡ word b.now }
{
    b.is_ascii_lowercase() || b.is_ascii_digit()
}

// The token of a byte that no name, number or instrument begins with.
fn single_token<'t>(b: u8) -> Token<'t>
    ensures { meaning result ≡ single b }
{
    match b {
        b'A'..=b'H' => Token::Variable(b - b'A'),
        b'(' => Token::Mark(Mark::Opening),
        b')' => Token::Mark(Mark::Closing),
        b',' => Token::Mark(Mark::Comma),
        b'=' => Token::Mark(Mark::Equals),
        b'-' => Token::Mark(Mark::Dash),
        b' ' => Token::Mark(Mark::Blank),
        b'\n' => Token::Mark(Mark::LineEnd),
        _ => Token::Stray(b),
    }
}

// The first token of a text that is not empty. A name ends after 12 bytes.
#[tactic(auto, using(crate::proofs::Runs::words_spelt))]
fn first_token<'t>(text: &'t [u8]) -> Option<Token<'t>>
    ensures { option_map meaning result ≡ first_of_text text.now }
{
    match text {
        [] => None,
        [b'a'..=b'z', ..] => Some(Token::Name(Name { bytes: words(text) })),
        [b'0'..=b'9', ..] => Some(Token::Number(digits(text))),
        [b'#', ..] => Some(Token::Instrument(digits(text))),
        [b, ..] => Some(single_token(*b)),
    }
}

impl<'t> Token<'t> {
    // How many bytes of the text it takes.
    fn width(self) -> usize
        ensures { result ≡ length (token_bytes (meaning self.entry)) }
    {
        match self {
            Token::Name(name) => name.bytes.len(),
            Token::Number(part) | Token::Instrument(part) => part.len(),
            Token::Variable(_) | Token::Mark(_) | Token::Stray(_) => 1,
        }
    }

    // How many lines it ends.
    fn line_ends(self) -> usize
        ensures { result ≡ lines (meaning self.entry) }
    {
        match self {
            Token::Mark(Mark::LineEnd) => 1,
            _ => 0,
        }
    }
}

impl<'t> Lexer<'t> {
    pub fn new(text: &'t [u8]) -> Lexer<'t>
        ensures rest { what_is_left result ≡ text.now }
        ensures at { result.at ≡ origin }
    {
        Lexer {
            rest: text,
            at: At::ORIGIN,
        }
    }

    // The next token with its place, or nothing at the end of the text; the lexer then stands behind it.
    pub fn next_token(&mut self) -> Option<Lexeme<'t>>
        ensures { Lexed self.old result self.new }
    {
        let Lexer { rest, at } = *self;
        let token = first_token(rest)?;
        let width = token.width();
        *self = Lexer {
            rest: &rest[width..],
            at: At {
                place: at.place + width,
                line: at.line + token.line_ends(),
            },
        };
        Some(Lexeme { token, at })
    }
}
