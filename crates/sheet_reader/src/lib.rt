// Sheets read from their text.
#![tactic(auto)]

ghost use Rattle.sheet_reading.specs.Laws.{SheetLaw};
ghost use Rattle.sheet_reading.specs.Reading.{read_sheet};
ghost use Rattle.sheet_reader.specs.Reading.{ReadsSheet};

use reading::fault::SheetFault;
use sheet::Sheet;
use weighing::Weighing;

mod rules;
mod side;
mod taking;
mod values;
mod whole;

// Reads a text into a sheet and two weighings, or answers what is wrong with it.
// `reads`: they are just what the definition gives; the sheet is not admitted, and a second weighing that the text does not have
// is as if missing. After a refusal the sheet is empty and both weighings are as if missing. `law`: the definition gives a sheet
// exactly if the text is its text, within the limits, and else the
// fault of the first token that is wrong or past a limit.
#[tactic(auto, using(sheet_reading::proofs::Reading::sheet_law))]
pub fn read(
    text: &[u8],
    sheet: &mut Sheet,
    first: &mut Weighing,
    second: &mut Weighing,
) -> Result<(), SheetFault>
    ensures reads { ReadsSheet result (read_sheet text.now) sheet.new first.new second.new }
    ensures law { SheetLaw text.now }
{
    let outcome = whole::fill(text, sheet, first, second);
    if outcome.is_err() {
        sheet.clear();
        first.clear();
        second.clear();
    }
    outcome
}
