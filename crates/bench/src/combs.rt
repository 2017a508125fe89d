// Tickets of the house sheet that are too long as a text, laid out node by node: neg over 600 both.
use crate::jobs::{BOTH, NEG};
use reader::ticket::TICKET_NODES;
use terms::layout::Layout;
use terms::node::Node;
use terms::symbol::Symbol;

// How many both.
const TEETH: u16 = 600;

// Each both in the first argument of the one before: first neg and all both, then the instruments from the innermost.
pub(crate) fn left() -> Option<Layout<TICKET_NODES>> {
    let mut layout = Layout::new();
    push(&mut layout, Symbol::Operator(NEG), Some(1), None)?;
    for k in 1..=TEETH {
        let next = if k == 1 {
            None
        } else {
            Some(2 * TEETH + 3 - k)
        };
        push(&mut layout, Symbol::Operator(BOTH), Some(k + 1), next)?;
    }
    for k in 0..=TEETH {
        let next = if k == 0 { Some(TEETH + 2) } else { None };
        push(&mut layout, Symbol::Instrument(u32::from(k)), None, next)?;
    }
    Some(layout)
}

// Each both in the second argument of the one before: neg, then each both and its first instrument, then the last instrument.
pub(crate) fn right() -> Option<Layout<TICKET_NODES>> {
    let mut layout = Layout::new();
    push(&mut layout, Symbol::Operator(NEG), Some(1), None)?;
    for k in 0..TEETH {
        push(&mut layout, Symbol::Operator(BOTH), Some(2 * k + 2), None)?;
        push(
            &mut layout,
            Symbol::Instrument(u32::from(k)),
            None,
            Some(2 * k + 3),
        )?;
    }
    push(
        &mut layout,
        Symbol::Instrument(u32::from(TEETH)),
        None,
        None,
    )?;
    Some(layout)
}

fn push(
    layout: &mut Layout<TICKET_NODES>,
    symbol: Symbol,
    first: Option<u16>,
    next: Option<u16>,
) -> Option<u16> {
    let symbol = Some(symbol);
    layout.push(Node {
        symbol,
        first,
        next,
    })
}
