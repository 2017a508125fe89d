// Reads a sheet up to a line that is just a dot, then lines of the form `NODES STEPS TICKET`, and answers each: the ticket, loaded
// into a fresh pool of so many nodes, after so many steps at most. No admission is asked.
#![tactic(auto)]

use compiling::compiled_sheet::CompiledSheet;
use console::answer::write_answer;
use console::line::Line;
use console::opening::open;
use console::sheet_text::SheetText;
use desk::{Desk, TEXT_BYTES};
use request::MOST_NODES;
use sheet::Sheet;
use std::io;
use std::io::{BufReader, BufWriter, Read, Write};
use terms::node::Node;
use weighing::Weighing;

mod answer;
mod desk;
mod request;

// How many bytes of the input are read at a time.
const CHUNK_BYTES: usize = 65536;

// Answers each line of the input.
fn answer_lines<R: Read, W: Write>(
    desk: &mut Desk<'_>,
    input: &mut BufReader<R>,
    out: &mut W,
) -> io::Result<()> {
    let mut line = Line::new();
    // a reader may have no end, so the lines are counted
    for _ in 0..u64::MAX {
        if input.buffer().is_empty() {
            out.flush()?;
        }
        if line.read_line(input)?.is_none() {
            break;
        }
        write_answer(out, desk.answer(&line))?;
    }
    Ok(())
}

fn main(rt: HostRuntime) -> anyhow::Result<()> {
    let mut input = BufReader::with_capacity(rt.alloc(), CHUNK_BYTES, rt.stdin())?;
    let mut out = BufWriter::new(rt.alloc(), rt.stdout())?;
    let mut text = SheetText::new();
    text.read_sheet(&mut input)?;
    let mut sheet = Sheet::new();
    let mut first = Weighing::missing();
    let mut second = Weighing::missing();
    let opening = open(&text, &mut sheet, &mut first, &mut second);
    if opening.is_ok() {
        let mut desk = Desk {
            signature: sheet.signature(),
            rules: &CompiledSheet::of(&sheet),
            nodes: &mut [Node::VACANT; MOST_NODES],
            buffer: &mut [0; TEXT_BYTES],
        };
        answer_lines(&mut desk, &mut input, &mut out)?;
    } else {
        write_answer(&mut out, opening)?;
    }
    out.flush()?;
    Ok(())
}
