// Theorems about the definitions.
ghost use Rattle.orders.specs.Cases.{Worked};
ghost use Rattle.orders.specs.Laws.{LinesInterpret};

// The worked cases hold.
#[tactic(auto, using(crate::proofs::Worked::worked))]
pub fn order_cases_hold()
    ensures { Worked }
{}

// A weighing that has the values of four lines of a sheet gives the interpretation that those lines give.
#[tactic(auto, using(crate::proofs::Grids::lines_interpret))]
pub fn lines_are_interpreted()
    ensures { LinesInterpret }
{}
