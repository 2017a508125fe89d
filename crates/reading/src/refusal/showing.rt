ghost use Rattle.std.specs.Prelude.{◌≡◌, Some};
ghost use Rattle.reading.specs.Refusals.{layer_text, refusal_text, text_refusal, sheet_refusal};

use super::{Layer, Refusal};
use crate::fault::{SheetFault, TextFault};
use crate::token::At;
use std::fmt;

impl From<TextFault> for Refusal {
    ghost from_gives = { λ f r. r ≡ text_refusal f };

    fn from(fault: TextFault) -> Refusal {
        match fault {
            TextFault::Stray(at) => placed(1, Layer::Text, at),
            TextFault::BadNumber(at) => placed(2, Layer::Text, at),
            TextFault::Unexpected(at) => placed(3, Layer::Text, at),
            TextFault::Undeclared(at) => placed(4, Layer::Text, at),
            TextFault::WrongArity(at) => placed(5, Layer::Text, at),
            TextFault::PastLimit(at) => placed(6, Layer::Text, at),
        }
    }
}

// A fault of the text is passed on unaltered.
impl From<SheetFault> for Refusal {
    ghost from_gives = { λ f r. r ≡ sheet_refusal f };

    fn from(fault: SheetFault) -> Refusal {
        match fault {
            SheetFault::Text(inner) => Refusal::from(inner),
            SheetFault::Repeated(at) => placed(7, Layer::Sheet, at),
            SheetFault::Headless(at) => placed(8, Layer::Sheet, at),
            SheetFault::Doubled(at) => placed(9, Layer::Sheet, at),
            SheetFault::Unbound(at) => placed(10, Layer::Sheet, at),
        }
    }
}

fn placed(number: u8, layer: Layer, at: At) -> Refusal
    ensures { result ≡ record { number = number; layer = layer; place = at.place; second = at.line } }
{
    Refusal {
        number,
        layer,
        place: at.place,
        second: at.line,
    }
}

impl Layer {
    // The layer's name in a printed refusal.
    pub fn name(self) -> &'static str
        ensures { result.now ≡ layer_text self }
    {
        match self {
            Layer::Text => "text",
            Layer::Sheet => "sheet",
            Layer::Pool => "pool",
            Layer::Book => "book",
        }
    }
}

impl fmt::Display for Layer {
    ghost output = { λ l. Some (layer_text l) };

    fn fmt<W: fmt::Write>(&self, f: &mut fmt::Formatter<W>) -> fmt::Result {
        f.write_str(self.name())
    }
}

impl fmt::Display for Refusal {
    ghost output = { λ r. Some (refusal_text r) };

    fn fmt<W: fmt::Write>(&self, f: &mut fmt::Formatter<W>) -> fmt::Result {
        let Refusal {
            number,
            layer,
            place,
            second,
        } = *self;
        write!(f, "refused {number} {layer} {place} {second}")
    }
}
