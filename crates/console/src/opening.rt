ghost use Rattle.std.specs.Prelude.{◌≡◌, ℕ, List, Some};
ghost use Rattle.sheet_reading.specs.Reading.{read_sheet};
ghost use Rattle.console.specs.Texts.{seen, within};
ghost use Rattle.console.specs.Openings.{sheet_line, opened_text, opening_text, Opens};

use crate::answer::too_long;
use crate::sheet_text::SheetText;
use reader::heading::SHEET_BYTES;
use reading::refusal::Refusal;
use sheet::Sheet;
use sheet_reader::read;
use std::fmt;
use weighing::Weighing;

// A sheet as it is answered: how many rules it has.
#[derive(Clone, Copy)]
pub struct SheetLine {
    pub rules: usize,
}

impl fmt::Display for SheetLine {
    ghost output = { λ l. Some (sheet_line l.rules) };

    fn fmt<W: fmt::Write>(&self, f: &mut fmt::Formatter<W>) -> fmt::Result {
        let SheetLine { rules } = *self;
        write!(f, "read {rules}")
    }
}

// Reads the text of a sheet into a sheet and two weighings, or answers the refusal.
// Both clauses speak of the text that was read, be it held or too long. `prints`: the answer is printed as the definition says.
// `holds`: sheet and weighings are what it gives; after a refusal the sheet is empty and both weighings are as if missing.
#[tactic(auto, using(crate::proofs::Openings::overlong_read))]
pub fn open(
    text: &SheetText,
    sheet: &mut Sheet,
    first: &mut Weighing,
    second: &mut Weighing,
) -> Result<SheetLine, Refusal>
    ensures prints { (b : List ℕ) → seen text.now ≡ within SHEET_BYTES b → opened_text result ≡ opening_text (read_sheet b) }
    ensures holds { (b : List ℕ) → seen text.now ≡ within SHEET_BYTES b → Opens result (read_sheet b) sheet.new first.new second.new }
{
    let Some(bytes) = text.bytes() else {
        sheet.clear();
        first.clear();
        second.clear();
        return Err(too_long());
    };
    read(bytes, sheet, first, second)?;
    Ok(SheetLine { rules: sheet.len() })
}
