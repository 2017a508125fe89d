// The rules of a sheet, and lent memory in which tickets are reduced by them.
use crate::answer::{Answer, Held};
use crate::request::{MOST_NODES, Request};
use compiling::compiled_sheet::CompiledSheet;
use console::line::Line;
use pool::Pool;
use pool::loading::Unloaded;
use reader::ticket::{TICKET_NODES, read_ticket};
use reading::refusal::Refusal;
use signature::Signature;
use terms::layout::Layout;
use terms::node::Node;
use traversal::write::write_text;

// How many bytes the text of a term in a pool can have: for each symbol a name of at most 12 bytes, a mark before it and a
// parenthesis behind it.
pub(crate) const TEXT_BYTES: usize = 14 * MOST_NODES;

#[derive(Drop)]
pub(crate) struct Desk<'m> {
    pub signature: &'m Signature,
    pub rules: &'m CompiledSheet,
    pub nodes: &'m mut [Node],
    pub buffer: &'m mut [u8],
}

impl<'m> Desk<'m> {
    // The answer to a line.
    pub(crate) fn answer(&mut self, line: &Line) -> Result<Answer<'_>, Refusal> {
        let Some(request) = line.bytes().and_then(Request::parse) else {
            return Ok(Answer::BadLine);
        };
        let ticket = read_ticket(self.signature, request.ticket)?;
        Ok(self.reduce(request, &ticket).unwrap_or(Answer::Failed))
    }

    // The answer to a line with this ticket; nothing where a call fails that must not.
    fn reduce(
        &mut self,
        request: Request<'_>,
        ticket: &Layout<TICKET_NODES>,
    ) -> Option<Answer<'_>> {
        if request.nodes > self.nodes.len() {
            return None;
        }
        let mut pool = Pool::new(&mut self.nodes[..request.nodes])?;
        let place = match pool.load(ticket, 0) {
            Ok(place) => place,
            Err(Unloaded::NoRoom) => return Some(Answer::NoRoom),
            Err(Unloaded::NoTerm) => return None,
        };
        let reduced = pool.reduce(self.rules, place, request.steps)?;
        let free = pool.free();
        let n = write_text(self.signature, &pool, place, self.buffer).ok()?;
        let text = std::str::from_utf8(self.buffer.get(..n)?).ok()?;
        Some(Answer::Reduced(Held {
            reduced,
            free,
            text,
        }))
    }
}
