ghost use Rattle.std.specs.Prelude.{◌≡◌, ◌↔◌, codes, IsTrue};
ghost use Rattle.console.specs.Texts.{seen, whole_text};
ghost use Rattle.console.specs.Fronts.{ReadsFront};

use crate::line::Ending;
use crate::text::Text;
use reader::heading::SHEET_BYTES;
use std::io;
use std::io::BufRead;

pub type SheetText = Text<SHEET_BYTES>;

impl Text<SHEET_BYTES> {
    // Whether it is just a dot.
    fn is_dot(&self) -> bool
        ensures { IsTrue result ↔ (seen self.now ≡ whole_text (codes ".")) }
    {
        matches!(self.bytes(), Some(b"."))
    }

    // The text of a sheet: the lines of a reader up to one that is just a dot, or to the end of the input.
    pub fn read_sheet<R: BufRead>(&mut self, reader: &mut R) -> io::Result<()>
        ensures { ReadsFront SHEET_BYTES (R.remaining reader.old) (R.remaining reader.new) (seen self.new) result }
    {
        self.clear();
        let mut line = SheetText::new();
        // a reader may have no end, so the lines are counted
        for _ in 0..u64::MAX {
            let Some(ending) = line.read_line(reader)? else {
                break;
            };
            if line.is_dot() {
                break;
            }
            self.append(&line);
            match ending {
                Ending::LineEnd => self.push(b'\n'),
                Ending::InputEnd => break,
            }
        }
        Ok(())
    }
}
