ghost use Rattle.console.specs.Texts.{seen};
ghost use Rattle.console.specs.Lines.{Taken};
ghost use Rattle.console.specs.Endings.{ReadsLine};

use crate::text::Text;
use std::io;
use std::io::BufRead;

// How many bytes a line may have, without its end.
pub const LINE_BYTES: usize = 4200;

pub type Line = Text<LINE_BYTES>;

// How a line ended: with a line end, or with the input behind some bytes.
#[derive(Clone, Copy, PartialEq, Eq, Debug)]
pub enum Ending {
    LineEnd,
    InputEnd,
}

impl<const N: usize> Text<N> {
    // The bytes up to the first line end, and how many bytes that were, the line end counted; nothing where there is none.
    #[tactic(auto, using(crate::proofs::Lines::going_end, crate::proofs::Lines::going_found))]
    pub fn take(&mut self, bytes: &[u8]) -> Option<usize>
        ensures { Taken N (seen self.old) bytes.now (seen self.new) result }
    {
        for (i, byte) in bytes.iter().enumerate() {
            if *byte == b'\n' {
                return Some(i + 1);
            }
            self.push(*byte);
        }
        None
    }

    // The next line of a reader, without its end; none at the end of the input.
    pub fn read_line<R: BufRead>(&mut self, reader: &mut R) -> io::Result<Option<Ending>>
        ensures { ReadsLine N (R.remaining reader.old) (R.remaining reader.new) (seen self.new) result }
    {
        self.clear();
        let mut ending = None;
        // a reader may have no end, so the chunks are counted, and a line ends behind the last
        for _ in 0..u64::MAX {
            let chunk = reader.fill_buf()?;
            if chunk.is_empty() {
                return Ok(ending);
            }
            let len = chunk.len();
            if let Some(n) = self.take(chunk) {
                reader.consume(n);
                return Ok(Some(Ending::LineEnd));
            }
            reader.consume(len);
            ending = Some(Ending::InputEnd);
        }
        Ok(ending)
    }
}
