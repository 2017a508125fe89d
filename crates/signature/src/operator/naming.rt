ghost use Rattle.std.specs.Prelude.{◌≡◌, ◌≤◌, length};
ghost use Rattle.terms.specs.Signature.{all_words, spelt};
ghost use Rattle.signature.specs.Operators.{op_from};

use super::{Name, Operator};
use fixed_vec::FixedVec;

impl Operator {
    // Of this name, without arguments as yet.
    pub(crate) fn named(name: &[u8]) -> Operator
        requires { length name.now ≤ 12 }
        ensures { op_from result ≡ record { name = name.now; arity = 0 } }
    {
        let mut bytes = FixedVec::new(0);
        bytes.extend_from_slice(name).unwrap();
        Operator {
            name: Name { bytes },
            arity: 0,
        }
    }
}

fn are_words(part: &[u8]) -> bool
    ensures { result ≡ all_words part.now }
{
    part.iter()
        .all(|b| b.is_ascii_lowercase() || b.is_ascii_digit())
}

// Whether a part is spelt as a name.
pub fn is_name(part: &[u8]) -> bool
    ensures { result ≡ spelt part.now }
{
    match part {
        [first, rest @ ..] => first.is_ascii_lowercase() && rest.len() <= 11 && are_words(rest),
        [] => false,
    }
}
