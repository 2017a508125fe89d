ghost use Rattle.std.specs.Prelude.{ℕ, ◌≤◌, List, [], length};
ghost use Rattle.signature.specs.Declaring.{sig_of};
ghost use Rattle.sheet_reading.specs.Reading.{wants_value, read_sheet};
ghost use Rattle.sheet_reader.specs.Progress.{start, Reached, Goes};
ghost use Rattle.sheet_reader.specs.Reading.{FillsSheet};

use crate::rules::read_rules;
use crate::taking::next;
use crate::values::read_weighings;
use lexer::token::Lexer;
use reader::heading::{Heading, SHEET_BYTES};
use reader::machine::Machine;
use reading::fault::{SheetFault, TextFault};
use reading::token::At;
use sheet::Sheet;
use signature::Signature;
use weighing::Weighing;

// The operators of the lines of names and counts.
fn read_heading<'t>(lexer: &mut Lexer<'t>) -> Result<Signature, SheetFault>
    ensures { (b : List ℕ) → length b ≤ 32768 → Reached b start lexer.old → Goes b result (λ signature. Reached b (wants_value (sig_of signature) [] []) lexer.new) }
{
    let mut heading = Heading::new();
    while !heading.is_done() {
        let lexeme = next(lexer)?;
        heading.step(lexeme)?;
    }
    heading.finish(lexer.at)
}

// Reads a text into a sheet and two weighings; what a refused text leaves in them is not told.
pub(crate) fn fill(
    text: &[u8],
    sheet: &mut Sheet,
    first: &mut Weighing,
    second: &mut Weighing,
) -> Result<(), SheetFault>
    ensures { FillsSheet result (read_sheet text.now) sheet.new first.new second.new }
{
    if text.len() > SHEET_BYTES {
        return Err(TextFault::PastLimit(At::ORIGIN).into());
    }
    let mut lexer = Lexer::new(text);
    let signature = read_heading(&mut lexer)?;
    read_weighings(&mut lexer, &signature, first, second)?;
    sheet.begin(&signature);
    read_rules(&mut lexer, sheet)
}
