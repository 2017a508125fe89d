// The notation of the table.
use compiled::{CompiledRules, Piece, Plan, Source};
use rule_set::RuleSet;
use sheet::Sheet;
use std::alloc::{AllocError, Global};
use terms::symbol::Symbol;

// A text with '/' for a line end.
pub(crate) fn lines(heap: Global, text: &str) -> Result<Vec<u8>, AllocError> {
    text.bytes()
        .map(|b| if b == b'/' { b'\n' } else { b })
        .collect(heap)
}

// The rules that begin with each operator of a sheet.
pub(crate) fn beginnings(
    heap: Global,
    sheet: &Sheet,
    compiled: &CompiledRules,
) -> Result<String, AllocError> {
    let mut found = String::new(heap);
    for operator in 0..32u8 {
        if usize::from(operator) < sheet.signature().len() {
            if operator > 0 {
                found.push(' ')?;
            }
            show_set(compiled.beginning(operator), &mut found)?;
        }
    }
    Ok(found)
}

// A plan.
pub(crate) fn plan(heap: Global, sheet: &Sheet, plan: &Plan) -> Result<String, AllocError> {
    let mut found = String::new(heap);
    show_links(plan.has_first, false, &mut found)?;
    for check in plan.checks.iter() {
        found.push(' ')?;
        match check.symbol {
            Some(symbol) => show_symbol(sheet, symbol, &mut found)?,
            None => found.push('_')?,
        }
        show_links(check.has_first, check.has_next, &mut found)?;
    }
    found.push('|')?;
    show_piece(sheet, &plan.root, &mut found)?;
    for piece in plan.pieces.iter() {
        found.push(' ')?;
        show_piece(sheet, piece, &mut found)?;
    }
    show_list(plan.visits.as_slice(), &mut found)?;
    show_list(plan.dropped.as_slice(), &mut found)?;
    show_list(plan.copied.as_slice(), &mut found)?;
    write!(found, "|{} {}", plan.before, plan.after)?;
    Ok(found)
}

fn show_piece(sheet: &Sheet, piece: &Piece, found: &mut String) -> Result<(), AllocError> {
    match piece.source {
        Source::Made(symbol) => show_symbol(sheet, symbol, found)?,
        Source::Moved(number) => write!(found, ">{number}")?,
        Source::Copied(number) => write!(found, "={number}")?,
    }
    show_links(piece.has_first, piece.has_next, found)
}

// A variable by its number: a plan has none as a symbol.
fn show_symbol(sheet: &Sheet, symbol: Symbol, found: &mut String) -> Result<(), AllocError> {
    match symbol {
        Symbol::Variable(x) => write!(found, "?{x}"),
        Symbol::Instrument(n) => write!(found, "#{n}"),
        Symbol::Operator(operator) => {
            for byte in sheet.signature().name(operator) {
                found.push(char::from(*byte))?;
            }
            Ok(())
        }
    }
}

fn show_links(has_first: bool, has_next: bool, found: &mut String) -> Result<(), AllocError> {
    if has_first {
        found.push('(')?;
    }
    if has_next {
        found.push(',')?;
    }
    Ok(())
}

// A bar, and numbers with a blank between two.
fn show_list(numbers: &[usize], found: &mut String) -> Result<(), AllocError> {
    found.push('|')?;
    for (i, number) in numbers.iter().enumerate() {
        if i > 0 {
            found.push(' ')?;
        }
        write!(found, "{number}")?;
    }
    Ok(())
}

// The members of a set with a comma between two, or a dash.
fn show_set(set: RuleSet, found: &mut String) -> Result<(), AllocError> {
    if set.is_empty() {
        return found.push('-');
    }
    let mut rest = set;
    for i in 0..32 {
        let Some(rule) = rest.first() else {
            break;
        };
        if i > 0 {
            found.push(',')?;
        }
        write!(found, "{rule}")?;
        rest = rest.without(rule);
    }
    Ok(())
}
