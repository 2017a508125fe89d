// The notation of the table: short-hands at the front of a column, parts that are repeated, '/' for a line end.
use crate::cases::{HOUSE, HOUSE_OPERATORS, NAMES};
use std::alloc::{AllocError, Global};
use std::test::Fail;

// The text that a case gives.
pub(crate) fn text(heap: Global, column: &str) -> Result<Vec<u8>, Fail> {
    let mut whole = String::new(heap);
    let rest = if let Some(rest) = column.strip_prefix('&') {
        whole.push_str(HOUSE)?;
        rest
    } else if let Some(rest) = column.strip_prefix('@') {
        whole.push_str(HOUSE)?;
        whole.push_str("rules/")?;
        rest
    } else if let Some(rest) = column.strip_prefix('%') {
        whole.push_str(NAMES)?;
        rest
    } else {
        column
    };
    repeat(rest, &mut whole)?;
    Ok(lines(heap, whole.as_str())?)
}

// A text with '/' for a line end.
fn lines(heap: Global, text: &str) -> Result<Vec<u8>, AllocError> {
    text.bytes()
        .map(|b| if b == b'/' { b'\n' } else { b })
        .collect(heap)
}

// What a case expects.
pub(crate) fn answer(heap: Global, column: &str) -> Result<String, Fail> {
    let mut whole = String::new(heap);
    let rest = if let Some(rest) = column.strip_prefix('@') {
        whole.push_str(HOUSE_OPERATORS)?;
        rest
    } else if let Some(rest) = column.strip_prefix('%') {
        list_names(&mut whole)?;
        rest
    } else {
        column
    };
    repeat(rest, &mut whole)?;
    Ok(whole)
}

// The operators of NAMES as they are read.
fn list_names(whole: &mut String) -> Result<(), AllocError> {
    for name in NAMES.split(' ') {
        let lead = if whole.is_empty() { "" } else { ", " };
        write!(whole, "{lead}{name} 0 0:--- 0:111")?;
    }
    Ok(())
}

// Writes a column, each {N:PART} in it as N times PART.
fn repeat(column: &str, whole: &mut String) -> Result<(), Fail> {
    for piece in column.split('{') {
        let Some((counted, rest)) = piece.split_once('}') else {
            // what stands before the first brace
            whole.push_str(piece)?;
            continue;
        };
        let (times, part) = counted.split_once(':').ok_or("no colon")?;
        let times: u32 = times.parse()?;
        for _ in 0..times {
            whole.push_str(part)?;
        }
        whole.push_str(rest)?;
    }
    Ok(())
}
