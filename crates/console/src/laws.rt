// Theorems about the definitions.
ghost use Rattle.console.specs.Fronts.{OneFront};

// An input has at most one text of a sheet at its front.
#[tactic(auto, using(crate::proofs::OneFront::one_front))]
pub fn fronts_are_unique()
    ensures { OneFront }
{}
