// Why a text is not written.
#[derive(Clone, Copy, PartialEq, Eq, Debug)]
pub enum Unwritten {
    // no term of at most 16,384 symbols stands at the place
    NoTerm,
    // the buffer is shorter than the text
    TooShort,
}
