// Theorems about the definitions.
ghost use Rattle.reading.specs.Laws.{DecimalNumbers};
ghost use Rattle.reading.specs.Cases.{Worked};

// Digits are read as the number whose decimal they are.
#[tactic(auto, using(crate::proofs::Digits::numbers))]
pub fn numbers_are_decimals()
    ensures { DecimalNumbers }
{}

// The worked cases hold.
#[tactic(auto, using(crate::proofs::Cases::worked))]
pub fn cases_hold()
    ensures { Worked }
{}
