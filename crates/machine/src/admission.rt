// Theorems about admission.
ghost use Rattle.std.specs.Prelude.{ℕ, List};
ghost use Rattle.terms.specs.Rule.{Rule};
ghost use Rattle.machine.specs.Overlapping.{OverlapsTested};
ghost use Rattle.machine.specs.Laws.{SidesTested, AdmissionDecided, OneAdmission, AdmittedConverge, AdmittedKeep};

use rewriting::order::ReductionOrder;

// Admission gives one answer; where a test decides which rules the order orients strictly, it is the function's.
pub fn admission_is_decided<O: ReductionOrder>(order: &O)
    ensures one { OneAdmission (O.strict order.now) }
    ensures decided { AdmissionDecided (O.strict order.now) }
{}

// Rules that are admitted under an order are convergent, and what holds of those after every list of calls holds of them.
pub fn admitted_rules_keep<O: ReductionOrder>(order: &O)
    ensures converge { AdmittedConverge (O.strict order.now) }
    ensures keep { AdmittedKeep (O.strict order.now) }
{}

// Two sides get one answer: 14, 13 or 12 each in its case, else none.
pub fn sides_are_tested()
    ensures { SidesTested }
{}

// There is no refusal exactly if the sides of every overlap pass; else it is that of the first overlap whose sides are refused.
pub fn overlaps_are_tested()
    ensures { (rules : List Rule) (nodes : ℕ) → OverlapsTested rules nodes }
{}
