// What may come in the two lines that head a sheet, its names and its argument counts.
#[derive(Clone, Copy, PartialEq, Eq)]
pub enum Stage {
    // a name
    WantsName,
    // a blank and another name, or the end of the line of names
    HasName,
    // the argument count of the operator of this number
    WantsCount(u8),
    // a blank and the next count, or the end of the line behind the last
    HasCount(u8),
    // nothing more
    Done,
}
