// Theorems about the definitions.
ghost use Rattle.std.specs.Prelude.{ℕ, List};
ghost use Rattle.sheet_reading.specs.Laws.{SheetLaw};
ghost use Rattle.sheet_reading.specs.Cases.{Worked};

// A sheet is read as it is written, and each refusal says what is wrong first.
#[tactic(auto, using(crate::proofs::Reading::sheet_law))]
pub fn sheets_are_read_as_written()
    ensures { (b : List ℕ) → SheetLaw b }
{}

// The worked cases hold.
#[tactic(auto, using(crate::proofs::Cases::worked))]
pub fn sheet_cases_hold()
    ensures { Worked }
{}
