ghost use Rattle.std.specs.Prelude.{◌≡◌, ℕ, false, List, length, Ok, OnOk};
ghost use Rattle.signature.specs.Declaring.{sig_of};
ghost use Rattle.sheet.specs.Sheet.{operators_of, is_admitted};
ghost use Rattle.terms.specs.Rule.{Rule};
ghost use Rattle.terms.specs.Signature.{Sig};
ghost use Rattle.sheet_reading.specs.Values.{Grid};
ghost use Rattle.sheet_reading.specs.Sides.{Hand};
ghost use Rattle.sheet_reading.specs.Reading.{in_rule};
ghost use Rattle.sheet_reader.specs.Progress.{outcome, Reached, Meets, Goes};
ghost use Rattle.reading.specs.Reading.{top, wants};
ghost use Rattle.sheet_reader.specs.Sides.{Fits};
ghost use Rattle.sheet_reader.specs.Rules.{next_rule, behind_rules, AddsRule, sheet_with, outermost, end_mark, ReadsSide, ReadsRule};

use crate::side::{Room, SIDE_SYMBOLS, SideReader};
use crate::taking::{expect, next};
use lexer::token::{Lexeme, Lexer};
use reading::fault::SheetFault;
use reading::token::Mark;
use sheet::Sheet;
use sheet::side::Side;
use signature::Signature;
use terms::layout::Layout;

// The nodes of the two sides of a rule.
#[derive(Clone, Copy)]
struct Sides {
    left: Layout<SIDE_SYMBOLS>,
    right: Layout<SIDE_SYMBOLS>,
}

// The side that begins with a token, and the mark behind it.
fn read_side<'t, 's>(
    lexer: &mut Lexer<'t>,
    lexeme: Lexeme<'t>,
    side: &mut SideReader<'s>,
    room: Room,
    mark: Mark,
) -> Result<(), SheetFault>
    ensures { (b : List ℕ) (sig : Sig) (grid : Grid) (rules : List Rule) (d : Hand) → mark ≡ end_mark d → Fits side.old room (outermost sig grid rules d) → Meets b (in_rule sig grid rules d (wants top)) lexeme.entry lexer.old → Goes b result (λ _. ReadsSide b side.old (outermost sig grid rules d) side.new lexer.new) }
{
    let read = side.term(lexer, lexeme, room)?;
    expect(lexer, read.bare, mark)
}

// The two sides of the rule that begins with a token, behind so many rules.
fn read_sides<'t>(
    lexer: &mut Lexer<'t>,
    lexeme: Lexeme<'t>,
    signature: &Signature,
    rules: usize,
) -> Result<Sides, SheetFault>
    ensures { (b : List ℕ) (grid : Grid) (before : List Rule) → length before ≡ rules → Meets b (next_rule (sig_of signature.now) grid before) lexeme.entry lexer.old → Goes b result (λ sides. ReadsRule b (sig_of signature.now) grid before sides lexer.new) }
{
    let room = Room::of_side(rules);
    let mut left = SideReader::left(signature);
    read_side(lexer, lexeme, &mut left, room, Mark::Equals)?;
    let mut right = left.right();
    let first = next(lexer)?;
    read_side(lexer, first, &mut right, room, Mark::LineEnd)?;
    Ok(Sides {
        left: left.nodes,
        right: right.nodes,
    })
}

// The rule that begins with a token.
fn read_rule<'t>(
    lexer: &mut Lexer<'t>,
    lexeme: Lexeme<'t>,
    sheet: &mut Sheet,
) -> Result<(), SheetFault>
    requires { (b : List ℕ) × (grid : Grid) × Meets b (behind_rules sheet.old grid) lexeme lexer.old }
    ensures goes { (b : List ℕ) (grid : Grid) → Meets b (behind_rules sheet.old grid) lexeme.entry lexer.old → Goes b result (λ _. Reached b (behind_rules sheet.new grid) lexer.new) }
    ensures one_more { OnOk result (AddsRule sheet.old sheet.new) }
    ensures operators { operators_of sheet.new ≡ operators_of sheet.old }
{
    let sides = read_sides(lexer, lexeme, sheet.signature(), sheet.len())?;
    sheet.add(&Side::new(&sides.left), &Side::new(&sides.right));
    Ok(())
}

// The rules, up to the end of the text.
pub(crate) fn read_rules<'t>(lexer: &mut Lexer<'t>, sheet: &mut Sheet) -> Result<(), SheetFault>
    requires { (b : List ℕ) × (grid : Grid) × Reached b (behind_rules sheet.old grid) lexer.old }
    ensures operators { operators_of sheet.new ≡ operators_of sheet.old }
    ensures goes { (b : List ℕ) (grid : Grid) → Reached b (behind_rules sheet.old grid) lexer.old → is_admitted sheet.old ≡ false → Goes b result (λ _. (outcome b ≡ Ok (sheet_with sheet.new grid)) × (is_admitted sheet.new ≡ false)) }
{
    while let Some(lexeme) = lexer.next_token() {
        read_rule(lexer, lexeme, sheet)?;
    }
    Ok(())
}
