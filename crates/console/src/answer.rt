ghost use Rattle.std.specs.Prelude.{◌≡◌, [], ◌∷◌, ◌++◌, OnOk, IfSome};
ghost use Rattle.std.specs.Io.KnownBytes.{Appends};
ghost use Rattle.reading.specs.declared.fault.TextFault.TheVariants.{PastLimit};
ghost use Rattle.reading.specs.Tokens.{origin};
ghost use Rattle.reading.specs.Refusals.{text_refusal};
ghost use Rattle.console.specs.Printing.{printed};

use reading::fault::TextFault;
use reading::refusal::Refusal;
use reading::token::At;
use std::io::Write;
use std::{fmt, io};

// The refusal of a text that is too long.
pub fn too_long() -> Refusal
    ensures { result ≡ text_refusal (PastLimit origin) }
{
    Refusal::from(TextFault::PastLimit(At::ORIGIN))
}

// Writes an answer, what was asked for or the refusal, and a line end behind it.
pub fn write_answer<W: Write, T: fmt::Display + Drop>(
    out: &mut W,
    answer: Result<T, Refusal>,
) -> io::Result<()>
    ensures { OnOk result (IfSome (printed T.output answer) (λ text. Appends (W.contents out.old) (W.contents out.new) (text ++ 10 ∷ []))) }
{
    match answer {
        Ok(line) => writeln!(out, "{line}"),
        Err(refusal) => writeln!(out, "{refusal}"),
    }
}
