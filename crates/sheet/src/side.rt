ghost use Rattle.sheet.specs.Terms.{LaidSide};

use terms::layout::Layout;

pub mod viewing;

// A side of a rule: the nodes of a term of at most 32 symbols and 16 levels, in reading order.
#[derive(Clone, Copy)]
pub struct Side {
    nodes: Layout<32>,
    ghost laid: { LaidSide nodes },
}
