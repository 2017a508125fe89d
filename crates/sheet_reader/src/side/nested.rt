ghost use Rattle.std.specs.Prelude.{◌≡◌, ℕ, ◌<◌, List, Ok, IfOk};
ghost use Rattle.terms.specs.Term.{Term, Terms, nil};
ghost use Rattle.lexer.specs.declared.token.Token.TheVariants.{Name as is_name};
ghost use Rattle.reading.specs.Reading.{Context, within, wants, opens, on_has, and_then, chain};
ghost use Rattle.lexer.specs.Lexing.{meaning};
ghost use Rattle.sheet_reader.specs.Progress.{Reached, Meets, Goes};
ghost use Rattle.sheet_reader.specs.Sides.{Around, stand_in, Fits, inside, in_row, ReadsTerm, ReadsRow};

use super::{Room, SideReader, Whole};
use crate::taking::{is_mark, misplaced, next};
use lexer::token::{Lexeme, Lexer, Name, Token};
use reading::fault::{SheetFault, TextFault};
use reading::token::{At, Mark};

// '(' behind the operator at a place.
fn open<'t>(lexer: &mut Lexer<'t>, at: At) -> Result<(), SheetFault>
    ensures { (b : List ℕ) (i : Around) (f n : ℕ) → Reached b (stand_in i (opens f at n i.context)) lexer.old → Goes b result (λ _. Reached b (stand_in i (wants (within f at nil n i.context))) lexer.new) }
{
    let Some(lexeme) = lexer.next_token() else {
        return Err(TextFault::WrongArity(at).into());
    };
    if is_mark(lexeme.token, Mark::Opening) {
        Ok(())
    } else {
        Err(lexeme.fault_or(TextFault::WrongArity(at)).into())
    }
}

// What comes behind an argument of the operator at a place that so many more must follow: how many must follow the next one, or none.
fn behind_argument(
    lexeme: Lexeme,
    bare: Option<At>,
    more: u8,
    at: At,
) -> Result<Option<u8>, TextFault>
    ensures { (t : Term) (f : ℕ) (ts : Terms) (k : Context) → on_has (meaning lexeme.entry.token) lexeme.entry.at t bare (within f at ts more k) ≡ chain result (λ o. Ok (in_row f at (and_then ts t) o k)) }
{
    match (lexeme.token, more.checked_sub(1)) {
        (Token::Mark(Mark::Closing), None) => Ok(None),
        (Token::Mark(Mark::Comma), Some(fewer)) => Ok(Some(fewer)),
        (Token::Mark(Mark::Closing | Mark::Comma), _) => Err(TextFault::WrongArity(at)),
        _ => Err(misplaced(lexeme, bare)),
    }
}

impl<'s> SideReader<'s> {
    // An operator with its arguments.
    #[cycle(terms)]
    fn operator<'t>(
        &mut self,
        lexer: &mut Lexer<'t>,
        name: Name<'t>,
        at: At,
        room: Room,
    ) -> Result<Whole, SheetFault>
        ensures less { IfOk result (λ whole. whole.spare < room.symbols) }
        ensures reads { (b : List ℕ) (i : Around) → Fits self.old room i → Meets b (stand_in i (wants i.context)) (record { token = is_name name.entry; at = at }) lexer.old → Goes b result (λ whole. ReadsTerm b self.old room i whole self.new lexer.new) }
    {
        let (below, arity) = self.head(name, at, room)?;
        let Some(more) = arity.checked_sub(1) else {
            return Ok(Whole {
                bare: Some(at),
                spare: below.symbols,
            });
        };
        open(lexer, at)?;
        let spare = self.arguments(lexer, more, at, below)?;
        Ok(Whole { bare: None, spare })
    }

    // An argument of the operator at a place and so many more, and the parenthesis behind them; how many symbols may still come.
    #[cycle(terms)]
    fn arguments<'t>(
        &mut self,
        lexer: &mut Lexer<'t>,
        more: u8,
        at: At,
        room: Room,
    ) -> Result<u8, SheetFault>
        ensures less { IfOk result (λ spare. spare < room.symbols) }
        ensures reads { (b : List ℕ) (i : Around) (f : ℕ) (ts : Terms) → Fits self.old room (inside i f at ts more) → Reached b (stand_in i (wants (inside i f at ts more).context)) lexer.old → Goes b result (λ spare. ReadsRow b self.old room i f at ts more spare self.new lexer.new) }
    {
        let root = self.nodes.len() as u16;
        let first = next(lexer)?;
        let argument = self.term(lexer, first, room)?;
        let lexeme = next(lexer)?;
        let Some(fewer) = behind_argument(lexeme, argument.bare, more, at)? else {
            return Ok(argument.spare);
        };
        self.nodes.link(root, self.nodes.len() as u16);
        let left = Room {
            symbols: argument.spare,
            levels: room.levels,
        };
        self.arguments(lexer, fewer, at, left)
    }

    // The term that begins with this token.
    #[cycle(terms)]
    pub(crate) fn term<'t>(
        &mut self,
        lexer: &mut Lexer<'t>,
        lexeme: Lexeme<'t>,
        room: Room,
    ) -> Result<Whole, SheetFault>
        ensures less { IfOk result (λ whole. whole.spare < room.symbols) }
        ensures reads { (b : List ℕ) (i : Around) → Fits self.old room i → Meets b (stand_in i (wants i.context)) lexeme.entry lexer.old → Goes b result (λ whole. ReadsTerm b self.old room i whole self.new lexer.new) }
    {
        match lexeme.token {
            Token::Name(name) => self.operator(lexer, name, lexeme.at, room),
            Token::Instrument(part) => self.instrument(part, lexeme.at, room),
            Token::Variable(x) => self.variable(x, lexeme.at, room),
            _ => Err(lexeme.unexpected().into()),
        }
    }
}
