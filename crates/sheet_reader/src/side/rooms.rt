ghost use Rattle.std.specs.Prelude.{◌≡◌, length};
ghost use Rattle.reading.specs.Reading.{top};
ghost use Rattle.sheet_reader.specs.Sides.{Around, Roomy, Below};

use super::{Room, SIDE_LEVELS, SIDE_RULES, SIDE_SYMBOLS};
use reading::fault::TextFault;
use reading::token::At;

impl Room {
    // That of a whole side, with so many rules read before; none past the 32nd.
    pub(crate) fn of_side(rules: usize) -> Room
        ensures { (i : Around) → length i.rules ≡ rules → i.context ≡ top → Roomy result i }
    {
        let symbols = if rules < SIDE_RULES {
            SIDE_SYMBOLS as u8
        } else {
            0
        };
        Room {
            symbols,
            levels: SIDE_LEVELS,
        }
    }

    // That behind a symbol at a place, and below it.
    pub(crate) fn below(self, at: At) -> Result<Room, TextFault>
        ensures { Below self at result }
    {
        match (self.symbols.checked_sub(1), self.levels.checked_sub(1)) {
            (Some(symbols), Some(levels)) => Ok(Room { symbols, levels }),
            _ => Err(TextFault::PastLimit(at)),
        }
    }
}
