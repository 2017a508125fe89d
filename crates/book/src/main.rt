// Reads a sheet up to a line that is just a dot, then a ticket a line, and answers the sheet, each of its rules and each ticket.
#![tactic(auto)]

use console::answer::write_answer;
use console::line::Line;
use console::opening::open;
use console::reply::reply;
use console::rule_line::orient;
use console::sheet_text::SheetText;
use reader::ticket::TICKET_BYTES;
use sheet::Sheet;
use signature::Signature;
use std::io;
use std::io::{BufReader, BufWriter, Read, Write};
use weighing::Weighing;

// How many bytes of the input are read at a time.
const CHUNK_BYTES: usize = 65536;

// Answers how the default order orients each rule of a sheet.
fn answer_rules<W: Write>(
    sheet: &Sheet,
    first: &Weighing,
    second: &Weighing,
    out: &mut W,
) -> io::Result<()> {
    for rule in 0..sheet.len() {
        write_answer(out, Ok(orient(sheet, first, second, rule)))?;
    }
    Ok(())
}

// Answers each line of the input. Where no further line has begun, what is answered is written out before reading on.
fn answer_lines<R: Read, W: Write>(
    signature: &Signature,
    input: &mut BufReader<R>,
    out: &mut W,
) -> io::Result<()> {
    let mut line = Line::new();
    let mut buffer = [0; TICKET_BYTES];
    // a reader may have no end, so the lines are counted
    for _ in 0..u64::MAX {
        if input.buffer().is_empty() {
            out.flush()?;
        }
        if line.read_line(input)?.is_none() {
            break;
        }
        write_answer(out, reply(signature, &line, &mut buffer))?;
    }
    Ok(())
}

fn main(rt: HostRuntime) -> anyhow::Result<()> {
    let mut input = BufReader::with_capacity(rt.alloc(), CHUNK_BYTES, rt.stdin())?;
    let mut out = BufWriter::new(rt.alloc(), rt.stdout())?;
    let mut text = SheetText::new();
    text.read_sheet(&mut input)?;
    let mut sheet = Sheet::new();
    let mut first = Weighing::missing();
    let mut second = Weighing::missing();
    let opening = open(&text, &mut sheet, &mut first, &mut second);
    write_answer(&mut out, opening)?;
    if opening.is_ok() {
        answer_rules(&sheet, &first, &second, &mut out)?;
        answer_lines(sheet.signature(), &mut input, &mut out)?;
    }
    out.flush()?;
    Ok(())
}
