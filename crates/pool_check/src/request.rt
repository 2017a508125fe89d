// A line of the input, read.
use lexer::number::number;

// The most nodes of a pool.
pub(crate) const MOST_NODES: usize = 16_384;

// What a line asks for: a pool of so many nodes, so many steps at most, and the text of a ticket.
#[derive(Clone, Copy)]
pub(crate) struct Request<'l> {
    pub nodes: usize,
    pub steps: u32,
    pub ticket: &'l [u8],
}

impl<'l> Request<'l> {
    // What a line `NODES STEPS TICKET` asks for; nothing where the line is of another form.
    pub(crate) fn parse(line: &'l [u8]) -> Option<Request<'l>> {
        let (nodes, rest) = split_at_blank(line)?;
        let (steps, ticket) = split_at_blank(rest)?;
        let nodes = decimal(nodes, MOST_NODES as u32)? as usize;
        let steps = decimal(steps, u32::MAX)?;
        if nodes == 0 {
            return None;
        }
        Some(Request {
            nodes,
            steps,
            ticket,
        })
    }
}

// What stands before the first blank and what stands behind it.
fn split_at_blank(text: &[u8]) -> Option<(&[u8], &[u8])> {
    let place = text.iter().position(|byte| *byte == b' ')?;
    let (front, rest) = text.split_at(place);
    match rest {
        [_blank, behind @ ..] => Some((front, behind)),
        [] => None,
    }
}

// The number that a text writes in decimal, without needless zeros, if it is at most `most`.
fn decimal(text: &[u8], most: u32) -> Option<u32> {
    if text.iter().all(|byte| byte.is_ascii_digit()) {
        number(text, most)
    } else {
        None
    }
}
