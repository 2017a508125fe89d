// What a sheet is read into, and how it is shown.
use crate::cases::FULL;
use crate::notation::text;
use reading::refusal::Refusal;
use sheet::Sheet;
use sheet::side::Side;
use signature::Signature;
use std::alloc::{AllocError, Global};
use std::test::Fail;
use traversal::write::write_text;
use weighing::Weighing;

// The three values that a sheet is read into.
#[derive(Drop)]
pub(crate) struct Held {
    pub sheet: Sheet,
    pub first: Weighing,
    pub second: Weighing,
}

impl Held {
    // With all that a sheet can have.
    pub(crate) fn full(heap: Global) -> Result<Held, Fail> {
        let mut held = Held {
            sheet: Sheet::new(),
            first: Weighing::missing(),
            second: Weighing::missing(),
        };
        let full = text(heap, FULL)?;
        sheet_reader::read(
            full.as_slice(),
            &mut held.sheet,
            &mut held.first,
            &mut held.second,
        )?;
        Ok(held)
    }

    // Reads a text, and answers what was read or the refusal.
    pub(crate) fn read(&mut self, heap: Global, text: &[u8]) -> Result<String, Fail> {
        match sheet_reader::read(text, &mut self.sheet, &mut self.first, &mut self.second) {
            Ok(()) => self.show(heap),
            Err(fault) => Ok(Refusal::from(fault).to_string(heap)?),
        }
    }

    // The operators and the rules.
    fn show(&self, heap: Global) -> Result<String, Fail> {
        let mut shown = String::new(heap);
        let signature = self.sheet.signature();
        for operator in (0..=u8::MAX).take(signature.len()) {
            let lead = if operator == 0 { "" } else { ", " };
            let name = std::str::from_utf8(signature.name(operator))?;
            let arity = signature.arity(operator);
            write!(shown, "{lead}{name} {arity}")?;
            show_row(&self.first, operator, &mut shown)?;
            show_row(&self.second, operator, &mut shown)?;
        }
        for n in 0..self.sheet.len() {
            let rule = self.sheet.rule(n).ok_or("fewer rules")?;
            shown.push_str("; ")?;
            show_side(signature, rule.left(), &mut shown)?;
            shown.push('=')?;
            show_side(signature, rule.right(), &mut shown)?;
        }
        Ok(shown)
    }

    // Whether nothing is held behind the operators and rules of the sheet, and the sheet is not admitted.
    pub(crate) fn rest_is_bare(&self) -> bool {
        !self.sheet.is_admitted()
            && self.sheet.rule(self.sheet.len()).is_none()
            && (0..=u8::MAX).skip(self.sheet.signature().len()).all(|operator| is_neutral(
                &self.first,
                operator,
            ) && is_neutral(&self.second, operator))
    }

    // Whether there are neither operators nor rules.
    pub(crate) fn is_empty(&self) -> bool {
        self.sheet.signature().len() == 0 && self.sheet.len() == 0
    }
}

// Base and factors of an operator, with '-' where there is none.
fn show_row(weighing: &Weighing, operator: u8, shown: &mut String) -> Result<(), AllocError> {
    let base = weighing.base(operator);
    write!(shown, " {base}:")?;
    for argument in 0..3 {
        match weighing.written_factor(operator, argument) {
            Some(factor) => write!(shown, "{factor}")?,
            None => shown.push('-')?,
        }
    }
    Ok(())
}

// The text of a side, written anew.
fn show_side(signature: &Signature, side: &Side, shown: &mut String) -> Result<(), Fail> {
    let mut buffer = [0; 1024];
    let n = write_text(signature, side, side.root(), &mut buffer)?;
    let text = buffer.get(..n).ok_or("past the buffer")?;
    shown.push_str(std::str::from_utf8(text)?)?;
    Ok(())
}

fn is_neutral(weighing: &Weighing, operator: u8) -> bool {
    weighing.base(operator) == 0
        && (0..4).all(|argument| weighing.written_factor(operator, argument) == Some(1))
}
