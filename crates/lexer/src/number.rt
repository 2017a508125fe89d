ghost use Rattle.std.specs.Prelude.{◌≡◌};
ghost use Rattle.reading.specs.Numbers.{plain, value_after, up_to, numbered, instrument_number};

// The largest number of an instrument.
const LARGEST_INSTRUMENT: u32 = 999_999;

// Whether there are digits, with no needless zero in front.
pub(crate) fn is_plain(digits: &[u8]) -> bool
    ensures { result ≡ plain digits.now }
{
    match digits {
        [] => false,
        [_] => true,
        [first, ..] => *first != b'0',
    }
}

// The number that digits write, if it is at most `most`. A `for`, since it ends at the first digit past that.
#[tactic(auto, using(crate::proofs::Values::value_grows, crate::proofs::Values::value_more, crate::proofs::Values::value_done, crate::proofs::Values::up_past, crate::proofs::Values::up_within))]
fn value(digits: &[u8], most: u32) -> Option<u32>
    ensures { result ≡ up_to most (value_after 0 digits.now) }
{
    let mut n: u64 = 0;
    for d in digits {
        n = n * 10 + u64::from(d.saturating_sub(b'0'));
        if n > u64::from(most) {
            return None;
        }
    }
    Some(n as u32)
}

// The same, where no zero is needless.
pub fn number(digits: &[u8], most: u32) -> Option<u32>
    ensures { result ≡ numbered most digits.now }
{
    if is_plain(digits) {
        value(digits, most)
    } else {
        None
    }
}

// The number of an instrument, from '#' and its digits.
#[tactic(auto, using(crate::proofs::Values::instrument_is))]
pub fn instrument_number(part: &[u8]) -> Option<u32>
    ensures { result ≡ instrument_number part.now }
{
    match part {
        [b'#', digits @ ..] => number(digits, LARGEST_INSTRUMENT),
        _ => None,
    }
}
