use fixed_vec::FixedVec;

pub mod naming;

// A name of at most 12 bytes.
#[derive(Clone, Copy)]
pub struct Name {
    pub(crate) bytes: FixedVec<u8, 12>,
}

// A declared operator: its name, and how many arguments it takes.
#[derive(Clone, Copy)]
pub struct Operator {
    pub(crate) name: Name,
    pub(crate) arity: u8,
}

// Why an operator gets no other arity.
#[derive(Clone, Copy, PartialEq, Eq, Debug)]
pub enum Unrankable {
    // it is not declared
    Undeclared,
    // the arity is more than three
    PastThree,
}

// Why a name is not declared.
#[derive(Clone, Copy, PartialEq, Eq, Debug)]
pub enum Undeclarable {
    // it is no name
    Misspelt,
    // 32 names are declared
    Full,
    // it is declared already
    Twice,
}
