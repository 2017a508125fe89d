ghost use Rattle.std.specs.Prelude.{◌≡◌, ℕ, suc, ◌<◌, cond, List, [], ◌∷◌, ◌++◌, length, Some, None, Ok, IfOk};
ghost use Rattle.terms.specs.Signature.{Sig};
ghost use Rattle.signature.specs.Declaring.{sig_of};
ghost use Rattle.lexer.specs.Lexing.{meaning};
ghost use Rattle.reading.specs.Reading.{top, wants, chain};
ghost use Rattle.sheet_reading.specs.Values.{Value, Grid, ValueIn};
ghost use Rattle.sheet_reading.specs.Sides.{on_left};
ghost use Rattle.sheet_reading.specs.Reading.{wants_value, has_value, has_word, in_rule, value_of};
ghost use Rattle.sheet_reader.specs.Progress.{Reached, Goes};
ghost use Rattle.sheet_reader.specs.Weighings.{Weighs, ValueComes, in_line};
ghost use Rattle.sheet_reader.specs.Values.{Awaits, InWeighing};
ghost use Rattle.weighing.specs.Factor.{Factor};
ghost use Rattle.weighing.specs.Weighing.{Missing};

use crate::taking::{expect, next, take_word};
use lexer::number::number;
use lexer::token::{Lexeme, Lexer, Token};
use reading::fault::{SheetFault, TextFault};
use reading::token::Mark;
use signature::Signature;
use weighing::Weighing;

// The number from the least to the largest that a token is.
fn number_of(lexeme: Lexeme, least: u8, most: u8) -> Result<u8, SheetFault>
    ensures value { chain result (λ n. Ok (Some n)) ≡ value_of (Some (least, most)) (meaning lexeme.entry.token) lexeme.entry.at }
    ensures within { IfOk result (λ n. ValueIn (Some (least, most)) (Some n)) }
{
    let Token::Number(digits) = lexeme.token else {
        return Err(lexeme.unexpected().into());
    };
    match number(digits, u32::from(most)) {
        Some(n) if n >= u32::from(least) => Ok(n as u8),
        _ => Err(TextFault::BadNumber(lexeme.at).into()),
    }
}

// A number from the least to the largest that may stand.
fn read_number<'t>(lexer: &mut Lexer<'t>, least: u8, most: u8) -> Result<u8, SheetFault>
    ensures value { (b : List ℕ) (sig : Sig) (grid : Grid) (vs : List Value) → Awaits b sig grid vs (Some (least, most)) lexer.old
        → Goes b result (λ n. Reached b (has_value sig grid (vs ++ Some n ∷ [])) lexer.new) }
    ensures within { IfOk result (λ n. ValueIn (Some (least, most)) (Some n)) }
{
    let lexeme = next(lexer)?;
    number_of(lexeme, least, most)
}

// The factor of an argument, or '-' where the operator has no such argument.
#[tactic(auto, using(crate::proofs::Lines::wants_dash))]
fn read_factor<'t>(lexer: &mut Lexer<'t>, has_argument: bool) -> Result<Option<u8>, SheetFault>
    ensures value { (b : List ℕ) (sig : Sig) (grid : Grid) (vs : List Value) → Awaits b sig grid vs (cond has_argument (Some (1, 4)) None) lexer.old
        → Goes b result (λ v. Reached b (has_value sig grid (vs ++ v ∷ [])) lexer.new) }
    ensures factor { IfOk result Factor }
{
    if has_argument {
        Ok(Some(read_number(lexer, 1, 4)?))
    } else {
        expect(lexer, None, Mark::Dash)?;
        Ok(None)
    }
}

// The value of an operator in a line: its base in line 0, and in the other three the factor of an argument.
fn read_value<'t>(
    lexer: &mut Lexer<'t>,
    signature: &Signature,
    line: usize,
    operator: u8,
    weighing: &mut Weighing,
) -> Result<(), SheetFault>
    requires line { line < 4 }
    requires operator { operator < 32 }
    ensures { (b : List ℕ) (from : ℕ) (grid : Grid) (vs : List Value) → length vs ≡ operator → InWeighing b (wants_value (sig_of signature.now) grid vs) from line grid vs lexer.old weighing.old → ValueComes grid vs lexer.old
        → Goes b result (λ _. (v : Value) × InWeighing b (has_value (sig_of signature.now) grid (vs ++ v ∷ [])) from line grid (vs ++ v ∷ []) lexer.new weighing.new) }
{
    match line.checked_sub(1) {
        None => {
            let base = read_number(lexer, 0, 100)?;
            weighing.set_base(operator, base).unwrap();
        }
        Some(argument) => {
            let has_argument = argument < signature.arity(operator) as usize;
            let factor = read_factor(lexer, has_argument)?;
            weighing.set_factor(operator, argument, factor).unwrap();
        }
    }
    Ok(())
}

// The blank before a value that is not the first of its line.
fn read_blank<'t>(lexer: &mut Lexer<'t>, operator: u8) -> Result<(), SheetFault>
    ensures { (b : List ℕ) (sig : Sig) (grid : Grid) (vs : List Value) → length vs ≡ operator → operator < length sig → ValueComes grid vs lexer.old → Reached b (in_line sig grid vs) lexer.old
        → Goes b result (λ _. Reached b (wants_value sig grid vs) lexer.new × ValueComes grid vs lexer.new) }
{
    if operator > 0 {
        expect(lexer, None, Mark::Blank)
    } else {
        Ok(())
    }
}

// A line of values, one for each operator.
fn read_line<'t>(
    lexer: &mut Lexer<'t>,
    signature: &Signature,
    line: usize,
    weighing: &mut Weighing,
) -> Result<(), SheetFault>
    requires { line < 4 }
    ensures { (b : List ℕ) (from : ℕ) (grid : Grid) → InWeighing b (wants_value (sig_of signature.now) grid []) from line grid [] lexer.old weighing.old → ValueComes grid [] lexer.old
        → Goes b result (λ _. (vs : List Value) × InWeighing b (wants_value (sig_of signature.now) (grid ++ vs ∷ []) []) from (suc line) (grid ++ vs ∷ []) [] lexer.new weighing.new) }
{
    for operator in 0..signature.len() as u8 {
        read_blank(lexer, operator)?;
        read_value(lexer, signature, line, operator, weighing)?;
    }
    expect(lexer, None, Mark::LineEnd)
}

// The four lines of a weighing.
fn read_weighing<'t>(
    lexer: &mut Lexer<'t>,
    signature: &Signature,
    weighing: &mut Weighing,
) -> Result<(), SheetFault>
    ensures { (b : List ℕ) (from : ℕ) (grid : Grid) → InWeighing b (wants_value (sig_of signature.now) grid []) from 0 grid [] lexer.old weighing.old → ValueComes grid [] lexer.old
        → Goes b result (λ _. (more : Grid) × InWeighing b (wants_value (sig_of signature.now) (grid ++ more) []) from 4 (grid ++ more) [] lexer.new weighing.new) }
{
    for line in 0..4 {
        read_line(lexer, signature, line, weighing)?;
    }
    Ok(())
}

// The word `rules` behind the second weighing, where nothing else may come.
fn read_word<'t>(lexer: &mut Lexer<'t>) -> Result<(), SheetFault>
    ensures { (b : List ℕ) (sig : Sig) (grid : Grid) → length grid ≡ 8 → Reached b (wants_value sig grid []) lexer.old → Goes b result (λ _. Reached b (has_word sig grid) lexer.new) }
{
    if take_word(lexer) {
        return Ok(());
    }
    let lexeme = next(lexer)?;
    Err(lexeme.unexpected().into())
}

// The second weighing, where there is one, and the word `rules`.
fn read_second<'t>(
    lexer: &mut Lexer<'t>,
    signature: &Signature,
    second: &mut Weighing,
) -> Result<(), SheetFault>
    ensures { (b : List ℕ) (grid : Grid) → length grid ≡ 4 → Missing second.old → Reached b (wants_value (sig_of signature.now) grid []) lexer.old
        → Goes b result (λ _. (more : Grid) × Reached b (has_word (sig_of signature.now) (grid ++ more)) lexer.new × Weighs second.new (grid ++ more) 4) }
{
    if take_word(lexer) {
        return Ok(());
    }
    read_weighing(lexer, signature, second)?;
    read_word(lexer)
}

// One weighing or two, and the line `rules`.
pub(crate) fn read_weighings<'t>(
    lexer: &mut Lexer<'t>,
    signature: &Signature,
    first: &mut Weighing,
    second: &mut Weighing,
) -> Result<(), SheetFault>
    ensures { (b : List ℕ) → Reached b (wants_value (sig_of signature.now) [] []) lexer.old
        → Goes b result (λ _. (grid : Grid) × Reached b (in_rule (sig_of signature.now) grid [] on_left (wants top)) lexer.new × Weighs first.new grid 0 × Weighs second.new grid 4) }
{
    first.clear();
    second.clear();
    read_weighing(lexer, signature, first)?;
    read_second(lexer, signature, second)?;
    expect(lexer, None, Mark::LineEnd)
}
