ghost use Rattle.std.specs.Prelude.{◌≡◌, Some};
ghost use Rattle.signature.specs.Declaring.{sig_of};
ghost use Rattle.console.specs.Texts.{seen};
ghost use Rattle.console.specs.Replies.{ticket_text, reply_text, answer_text, Showable, Shows};

use crate::answer::too_long;
use crate::line::Line;
use reader::ticket::{TICKET_BYTES, TICKET_NODES, read_ticket};
use reading::refusal::Refusal;
use signature::Signature;
use std::fmt;
use terms::layout::Layout;
use traversal::write::write_text;

// A ticket as it is answered: how many symbols it has, and its text.
#[derive(Clone, Copy)]
pub struct TicketLine<'b> {
    pub symbols: usize,
    pub text: &'b str,
}

impl<'b> fmt::Display for TicketLine<'b> {
    ghost output = { λ t. Some (ticket_text t) };

    fn fmt<W: fmt::Write>(&self, f: &mut fmt::Formatter<W>) -> fmt::Result {
        let TicketLine { symbols, text } = *self;
        write!(f, "ticket {symbols} {text}")
    }
}

// The answer to a line. The buffer takes the ticket's text, written anew from the term that was read.
pub fn reply<'b>(
    signature: &Signature,
    line: &Line,
    buffer: &'b mut [u8; TICKET_BYTES],
) -> Result<TicketLine<'b>, Refusal>
    ensures { reply_text result ≡ answer_text (sig_of signature.now) (seen line.now) }
{
    let text = line.bytes().ok_or_else(too_long)?;
    let ticket = read_ticket(signature, text)?;
    Ok(show(signature, &ticket, buffer))
}

// The answer to the text of a ticket.
fn show<'b>(
    signature: &Signature,
    ticket: &Layout<TICKET_NODES>,
    buffer: &'b mut [u8],
) -> TicketLine<'b>
    requires { Showable (sig_of signature.now) ticket.now buffer.old }
    ensures { Shows (sig_of signature.now) ticket.now result }
{
    let symbols = ticket.len();
    let Ok(n) = write_text(signature, ticket, 0, buffer) else {
        unreachable()
    };
    let Ok(text) = std::str::from_utf8(&buffer[0..n]) else {
        unreachable()
    };
    TicketLine { symbols, text }
}
