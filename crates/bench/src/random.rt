// Tickets of the house sheet, made by a small fixed generator of numbers: one seed always gives the same ticket.
ghost use Rattle.std.specs.Prelude.{◌<◌};

use std::alloc::{AllocError, Global};

#[derive(Drop)]
struct Random {
    state: u32,
}

impl Random {
    // The next number below a limit; 0 where the limit is 0.
    fn below(&mut self, limit: usize) -> usize
        ensures { 0 < limit → result < limit }
    {
        self.state = self
            .state
            .wrapping_mul(1_664_525)
            .wrapping_add(1_013_904_223);
        (self.state >> 8) as usize % limit.max(1)
    }

    // One of some bytes; a blank where there is none.
    fn one_of(&mut self, bytes: &[u8]) -> u8 {
        let chosen = self.below(bytes.len());
        bytes.get(chosen).copied().unwrap_or(b' ')
    }
}

// What is still to be written: a term of so many bytes, 2 or more, or a mark.
#[derive(Clone, Copy)]
enum Piece {
    Term(usize),
    Mark(u8),
}

// A ticket of so many bytes, 2 or more.
pub(crate) fn ticket(heap: Global, bytes: usize, seed: u32) -> Result<Vec<u8>, AllocError> {
    let mut random = Random { state: seed };
    let mut text = Vec::new(heap);
    let mut pieces = Vec::new(heap);
    pieces.push(Piece::Term(bytes))?;
    // each turn writes a byte or more
    for _ in 0..bytes {
        let Some(piece) = pieces.pop() else {
            break;
        };
        match piece {
            Piece::Mark(mark) => text.push(mark)?,
            Piece::Term(bytes) => put_term(&mut random, bytes, &mut text, &mut pieces)?,
        }
    }
    Ok(text)
}

// Writes the front of a term of so many bytes; what follows goes onto the pieces, the first on top.
fn put_term(
    random: &mut Random,
    bytes: usize,
    text: &mut Vec<u8>,
    pieces: &mut Vec<Piece>,
) -> Result<(), AllocError> {
    if bytes < 7 {
        return put_leaf(random, bytes, text);
    }
    if bytes < 11 || random.below(3) == 0 {
        text.extend_from_slice(b"neg(")?;
        pieces.push(Piece::Mark(b')'))?;
        pieces.push(Piece::Term(bytes - 5))?;
        return Ok(());
    }
    text.extend_from_slice(b"both(")?;
    // beside these five bytes, a comma and a parenthesis, each argument has two bytes or more
    let first = 2 + random.below(bytes - 10);
    pieces.push(Piece::Mark(b')'))?;
    pieces.push(Piece::Term(bytes - 7 - first))?;
    pieces.push(Piece::Mark(b','))?;
    pieces.push(Piece::Term(first))?;
    Ok(())
}

// Writes a term without arguments.
fn put_leaf(random: &mut Random, bytes: usize, text: &mut Vec<u8>) -> Result<(), AllocError> {
    if bytes == 3 && random.below(2) == 0 {
        text.extend_from_slice(b"nil")?;
        return Ok(());
    }
    text.push(b'#')?;
    // no needless zero in front
    text.push(random.one_of(b"123456789"))?;
    for _ in 2..bytes {
        text.push(random.one_of(b"0123456789"))?;
    }
    Ok(())
}
