ghost use Rattle.std.specs.Prelude.{◌≡◌};
ghost use Rattle.reading.specs.declared.fault.SheetFault.TheVariants.{Text};

use crate::token::At;

// What is wrong with a text, and where.
#[derive(Clone, Copy, PartialEq, Eq, Debug)]
pub enum TextFault {
    // a byte that begins no token
    Stray(At),
    // a number out of range or with a needless zero, or # without digits
    BadNumber(At),
    // a token that is not allowed here, or the end too early
    Unexpected(At),
    // a name that is not declared
    Undeclared(At),
    // another number of arguments than the operator takes, at its name
    WrongArity(At),
    // a limit passed
    PastLimit(At),
}

// What is wrong with a sheet: with its text, or with what the text says.
#[derive(Clone, Copy, PartialEq, Eq, Debug)]
pub enum SheetFault {
    Text(TextFault),
    // a name that stands twice in the line of names
    Repeated(At),
    // a left side that does not begin with a declared operator
    Headless(At),
    // a variable that stands twice in a left side
    Doubled(At),
    // a variable of a right side that does not stand in the left side
    Unbound(At),
}

impl From<TextFault> for SheetFault {
    ghost from_gives = { λ f r. r ≡ Text f };

    fn from(fault: TextFault) -> SheetFault {
        SheetFault::Text(fault)
    }
}
