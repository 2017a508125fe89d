ghost use Rattle.std.specs.Prelude.{◌≡◌};
ghost use Rattle.terms.specs.Term.{Term};
ghost use Rattle.terms.specs.Layout.{LaysOut};
ghost use Rattle.signature.specs.Declaring.{sig_of};
ghost use Rattle.reading.specs.Reading.{State, step, ending, read_ticket};
ghost use Rattle.reading.specs.Laws.{TicketLaw};
ghost use Rattle.reader.specs.Parsing.{Holds, Sparse};
ghost use Rattle.reader.specs.Ticket.{Reads};

use crate::machine::{Machine, read};
use crate::parser::Parser;
use lexer::token::Lexeme;
use reading::fault::TextFault;
use reading::token::At;
use signature::Signature;
use terms::layout::Layout;

// How many bytes a ticket may have.
pub const TICKET_BYTES: usize = 4096;

// How many nodes its text can ask for: each symbol takes two bytes or more, but for the last.
pub const TICKET_NODES: usize = 2048;

// A ticket of a signature, as far as it is read.
#[derive(Drop)]
struct TicketReader<'s> {
    signature: &'s Signature,
    parser: Parser,
}

impl<'s> Machine for TicketReader<'s> {
    type Output = Layout<TICKET_NODES>;

    type Fault = TextFault;

    ghost State = { State };

    ghost Value = { Term };

    ghost most_bytes = { 4096 };

    ghost rules = { λ m. record { step = step (sig_of m.signature.now); end = ending } };

    ghost stands = { λ m s place. Holds m.parser s × Sparse s place };

    ghost gives = { λ layout t. LaysOut layout t };

    fn limit(&self) -> usize {
        TICKET_BYTES
    }

    fn step(&mut self, lexeme: Lexeme) -> Result<(), TextFault> {
        self.parser.step(self.signature, lexeme)
    }

    fn finish(self, at: At) -> Result<Layout<TICKET_NODES>, TextFault> {
        self.parser.finish(at)
    }
}

// The ticket of a text, laid out in reading order, or what is wrong with the text.
// `reads`: it is just what the definition gives. `law`: what the definition gives is the ticket with this very text,
// if there is one and the text is not too long, and else the fault of the first wrong token.
pub fn read_ticket(signature: &Signature, text: &[u8]) -> Result<Layout<TICKET_NODES>, TextFault>
    ensures reads { Reads result (read_ticket (sig_of signature.now) text.now) }
    ensures law { TicketLaw (sig_of signature.now) text.now }
{
    // First, so that nothing is built for a text that is refused.
    if text.len() > TICKET_BYTES {
        return Err(TextFault::PastLimit(At::ORIGIN));
    }
    let machine = TicketReader {
        signature,
        parser: Parser::new(),
    };
    read(machine, text)
}
