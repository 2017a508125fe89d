// Large texts: a sheet of 32 operators and 32 rules, and a ticket of the same operators.
use std::alloc::{AllocError, Global};

// The last bytes of the names. The operators take 0, 1, 2, 3, 0, 1, .. arguments in turn.
const LAST: &[u8; 32] = b"abcdefghijklmnopqrstuvwxyz012345";

// Writes the name of an operator: what all names begin with, and a byte of its own.
fn put_name(text: &mut Vec<u8>, front: &[u8], operator: usize) -> Result<(), AllocError> {
    text.extend_from_slice(front)?;
    text.push(LAST[operator % 32])?;
    Ok(())
}

// Writes a line of one value for each operator.
fn put_line(text: &mut Vec<u8>, values: [&[u8]; 4]) -> Result<(), AllocError> {
    for operator in 0..32 {
        if operator > 0 {
            text.push(b' ')?;
        }
        text.extend_from_slice(values[operator % 4])?;
    }
    text.push(b'\n')?;
    Ok(())
}

// Writes a term: on each of the levels an operator of three arguments, the first two without arguments, the third on the next
// level; below the last an operator over the innermost term. So it has three symbols a level and two more.
fn put_term(
    text: &mut Vec<u8>,
    front: &[u8],
    levels: usize,
    innermost: &[u8],
) -> Result<(), AllocError> {
    for level in 0..levels {
        let group = level % 8 * 4;
        put_name(text, front, group + 3)?;
        text.push(b'(')?;
        put_name(text, front, group)?;
        text.push(b',')?;
        put_name(text, front, group + 4)?;
        text.push(b',')?;
    }
    put_name(text, front, 29)?;
    text.push(b'(')?;
    text.extend_from_slice(innermost)?;
    for _ in 0..=levels {
        text.push(b')')?;
    }
    Ok(())
}

// A sheet with two weighings and 32 rules of 32 symbols a side.
pub(crate) fn sheet(heap: Global, front: &[u8]) -> Result<Vec<u8>, AllocError> {
    let mut text = Vec::new(heap);
    for operator in 0..32 {
        if operator > 0 {
            text.push(b' ')?;
        }
        put_name(&mut text, front, operator)?;
    }
    text.push(b'\n')?;
    put_line(&mut text, [b"0", b"1", b"2", b"3"])?;
    for _ in 0..2 {
        put_line(&mut text, [b"100", b"99", b"98", b"97"])?;
        put_line(&mut text, [b"-", b"4", b"3", b"2"])?;
        put_line(&mut text, [b"-", b"-", b"2", b"1"])?;
        put_line(&mut text, [b"-", b"-", b"-", b"3"])?;
    }
    text.extend_from_slice(b"rules\n")?;
    for _ in 0..32 {
        put_term(&mut text, front, 10, b"A")?;
        text.push(b'=')?;
        put_term(&mut text, front, 10, b"A")?;
        text.push(b'\n')?;
    }
    Ok(text)
}

// A ticket.
pub(crate) fn ticket(heap: Global, front: &[u8], levels: usize) -> Result<Vec<u8>, AllocError> {
    let mut text = Vec::new(heap);
    put_term(&mut text, front, levels, b"#1")?;
    Ok(text)
}
