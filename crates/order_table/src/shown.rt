// The notation of the table.
use orders::lexicographic::default_order;
use orders::linear::Interpretation;
use orders::order::{Order, Orientation, orientation_of};
use orders::weight::Weight;
use sheet::Sheet;
use std::alloc::{AllocError, Global};
use std::test::Fail;
use symbol_order::BySymbols;
use weighing::Weighing;

// The text of a sheet: the lines before its rules, and the rules, each with its end.
pub(crate) fn text(heap: Global, front: &str, rules: &str) -> Result<Vec<u8>, Fail> {
    let mut whole = String::new(heap);
    whole.push_str(front)?;
    repeat(rules, &mut whole)?;
    if !rules.is_empty() {
        whole.push('/')?;
    }
    Ok(lines(heap, whole.as_str())?)
}

// A text with '/' for a line end.
fn lines(heap: Global, text: &str) -> Result<Vec<u8>, AllocError> {
    text.bytes()
        .map(|b| if b == b'/' { b'\n' } else { b })
        .collect(heap)
}

// Writes a column, each {N:PART} in it as N times PART.
fn repeat(column: &str, whole: &mut String) -> Result<(), Fail> {
    for piece in column.split('{') {
        let Some((counted, rest)) = piece.split_once('}') else {
            // what stands before the first brace
            whole.push_str(piece)?;
            continue;
        };
        let (times, part) = counted.split_once(':').ok_or("no colon")?;
        let times: u32 = times.parse()?;
        for _ in 0..times {
            whole.push_str(part)?;
        }
        whole.push_str(rest)?;
    }
    Ok(())
}

// What is found of rule 0 of a sheet.
pub(crate) fn answer(
    heap: Global,
    sheet: &Sheet,
    first: &Weighing,
    second: &Weighing,
) -> Result<String, Fail> {
    let mut found = String::new(heap);
    let rule = sheet.rule(0).ok_or("no rule")?;
    for weighing in [first, second] {
        let interpretation = Interpretation::of(weighing);
        show(&interpretation.weigh(rule.left()), &mut found)?;
        found.push(' ')?;
        show(&interpretation.weigh(rule.right()), &mut found)?;
        found.push('|')?;
    }
    found.push_str(oriented(&default_order(first, second), sheet))?;
    found.push('|')?;
    found.push_str(oriented(&BySymbols, sheet))?;
    Ok(found)
}

fn oriented<O: Order>(order: &O, sheet: &Sheet) -> &'static str {
    match orientation_of(order, sheet, 0) {
        Orientation::Strict => "falls",
        Orientation::Weak => "holds",
        Orientation::Neither => "no",
    }
}

// The constant, and each coefficient that is not 0 before its variable.
fn show(weight: &Weight, found: &mut String) -> Result<(), AllocError> {
    write!(found, "{}", weight.constant)?;
    for (variable, coefficient) in "ABCDEFGH".chars().zip(weight.coefficients) {
        if coefficient > 0 {
            write!(found, "+{coefficient}{variable}")?;
        }
    }
    Ok(())
}
