// What stands at a node in use.
#[derive(Clone, Copy, PartialEq, Eq)]
pub enum Symbol {
    Variable(u8),
    Instrument(u32),
    Operator(u8),
}
