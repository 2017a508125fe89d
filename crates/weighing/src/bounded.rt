ghost use Rattle.std.specs.Prelude.{◌≡◌, ◌≤◌, MatchResult};
ghost use Rattle.weighing.specs.declared.Unweighable.TheVariants.{OutOfRange};

use crate::Unweighable;

// A number from LEAST to MOST.
#[derive(Clone, Copy)]
pub(crate) struct Bounded<const LEAST: u8, const MOST: u8> {
    pub(crate) value: u8,
    ghost least: { LEAST ≤ value },
    ghost most: { value ≤ MOST },
}

pub(crate) type Base = Bounded<0, 100>;

pub(crate) type Factor = Bounded<1, 4>;

impl<const LEAST: u8, const MOST: u8> TryFrom<u8> for Bounded<LEAST, MOST> {
    type Error = Unweighable;

    ghost try_from_gives = { λ value r. MatchResult r (λ x. x.value ≡ value)
        (λ e. (e ≡ OutOfRange) × ((LEAST ≤ value) × (value ≤ MOST) → ⊥)) };

    fn try_from(value: u8) -> Result<Self, Unweighable> {
        if (LEAST..=MOST).contains(&value) {
            Ok(Bounded { value })
        } else {
            Err(Unweighable::OutOfRange)
        }
    }
}

impl<const LEAST: u8, const MOST: u8> From<Bounded<LEAST, MOST>> for u8 {
    ghost from_gives = { λ x value. value ≡ x.value };

    fn from(x: Bounded<LEAST, MOST>) -> u8 {
        x.value
    }
}
