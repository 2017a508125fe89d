ghost use Rattle.std.specs.Prelude.{IfErr};
ghost use Rattle.reading.specs.Heading.{read_heading};
ghost use Rattle.reading.specs.HeadingLaw.{OfHeading, HeadingLaw};
ghost use Rattle.reader.specs.Heading.{Heads};

use crate::machine::read;
use reading::fault::{SheetFault, TextFault};
use reading::heading::Stage;
use reading::token::At;
use signature::Signature;

mod stepping;

// How many bytes a sheet may have.
pub const SHEET_BYTES: usize = 32768;

// What is read so far of the lines that head a sheet: the operators, and what may come.
#[derive(Clone, Copy)]
pub struct Heading {
    signature: Signature,
    stage: Stage,
}

// The signature that the two lines at the head of a sheet declare, or what is wrong with them.
// `reads`: it is just what the definition gives. `law`: the definition gives a signature exactly if the text is its heading.
// `fault`: what is wrong is the text, or a name that stands twice.
pub fn read_signature(text: &[u8]) -> Result<Signature, SheetFault>
    ensures reads { Heads result (read_heading text.now) }
    ensures law { HeadingLaw text.now }
    ensures fault { IfErr result OfHeading }
{
    // First, so that nothing is built for a text that is refused.
    if text.len() > SHEET_BYTES {
        return Err(TextFault::PastLimit(At::ORIGIN).into());
    }
    read(Heading::new(), text)
}
