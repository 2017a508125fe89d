ghost use Rattle.std.specs.Prelude.{◌≡◌};
ghost use Rattle.lexer.specs.Lexing.{meaning};
ghost use Rattle.reading.specs.declared.fault.TextFault.TheVariants.{Unexpected};
ghost use Rattle.reading.specs.Reading.{fault_of};

use crate::number::{instrument_number, is_plain};
use crate::token::{Lexeme, Token};
use reading::fault::TextFault;

impl<'t> Lexeme<'t> {
    // Its fault where it is refused with `fault`: what is wrong with the token by itself goes first.
    pub fn fault_or(self, fault: TextFault) -> TextFault
        ensures { result ≡ fault_of (meaning self.entry.token) self.entry.at fault }
    {
        match self.token {
            Token::Stray(_) => TextFault::Stray(self.at),
            Token::Number(part) if !is_plain(part) => TextFault::BadNumber(self.at),
            Token::Instrument(part) if instrument_number(part).is_none() => {
                TextFault::BadNumber(self.at)
            }
            _ => fault,
        }
    }

    // Its fault where it is not allowed.
    pub fn unexpected(self) -> TextFault
        ensures { result ≡ fault_of (meaning self.entry.token) self.entry.at (Unexpected self.entry.at) }
    {
        self.fault_or(TextFault::Unexpected(self.at))
    }
}
