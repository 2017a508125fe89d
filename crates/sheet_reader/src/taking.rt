ghost use Rattle.std.specs.Prelude.{◌≡◌, ℕ, List, codes, IfOk};
ghost use Rattle.sheet_reading.specs.Reading.{Stand, is_mark, is_word};
ghost use Rattle.sheet_reader.specs.Progress.{Reached, Meets, Goes, EndsEarly, Wants, misplaced};
ghost use Rattle.sheet_reader.specs.Weighings.{TakesWord};
ghost use Rattle.lexer.specs.Lexing.{meaning, ReadToken};

use lexer::token::{Lexeme, Lexer, Token};
use reading::fault::{SheetFault, TextFault};
use reading::token::{At, Mark};

// The next token; the text must not end here.
#[tactic(auto, using(crate::proofs::Progress::met))]
pub(crate) fn next<'t>(lexer: &mut Lexer<'t>) -> Result<Lexeme<'t>, SheetFault>
    ensures reading { (b : List ℕ) (s : Stand) → EndsEarly s → Reached b s lexer.old → Goes b result (λ x. Meets b s x lexer.new) }
    ensures token { IfOk result (λ x. ReadToken lexer.old x lexer.new) }
{
    match lexer.next_token() {
        Some(lexeme) => Ok(lexeme),
        None => Err(TextFault::Unexpected(lexer.at).into()),
    }
}

// The fault of a token that may not come behind a term, where an operator without arguments may stand just before.
pub(crate) fn misplaced(lexeme: Lexeme, bare: Option<At>) -> TextFault
    ensures { result ≡ misplaced bare (meaning lexeme.entry.token) lexeme.entry.at }
{
    match (lexeme.token, bare) {
        (Token::Mark(Mark::Opening), Some(name)) => TextFault::WrongArity(name),
        _ => lexeme.unexpected(),
    }
}

// Whether a token is this mark.
pub(crate) fn is_mark(token: Token, mark: Mark) -> bool
    ensures { result ≡ is_mark mark (meaning token.entry) }
{
    match token {
        Token::Mark(found) => found == mark,
        _ => false,
    }
}

// The mark that must come, behind a term or a value.
pub(crate) fn expect<'t>(
    lexer: &mut Lexer<'t>,
    bare: Option<At>,
    mark: Mark,
) -> Result<(), SheetFault>
    ensures { (b : List ℕ) (s u : Stand) → EndsEarly s → Wants s bare mark u → Reached b s lexer.old → Goes b result (λ _. Reached b u lexer.new) }
{
    let lexeme = next(lexer)?;
    if is_mark(lexeme.token, mark) {
        Ok(())
    } else {
        Err(misplaced(lexeme, bare).into())
    }
}

// Whether a token is the word `rules`.
fn is_word(token: Token) -> bool
    ensures { result ≡ is_word (codes "rules") (meaning token.entry) }
{
    match token {
        Token::Name(name) => name.bytes == b"rules".as_slice(),
        _ => false,
    }
}

// Takes the word `rules` where it comes next, and says whether it did.
pub(crate) fn take_word<'t>(lexer: &mut Lexer<'t>) -> bool
    ensures { TakesWord lexer.old result lexer.new }
{
    let mut ahead = *lexer;
    match ahead.next_token() {
        Some(lexeme) if is_word(lexeme.token) => {
            *lexer = ahead;
            true
        }
        _ => false,
    }
}
