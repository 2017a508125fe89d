// Theorems about the definitions.
ghost use Rattle.rewriting.specs.Laws.{StepsAreInductive, StepsFill, StepsKeepTickets, NextIsNextStep, OneNextStep, NoNextStep, RunsAdd, RunsReduce, RenamedApart, UnifierUnifies, UnifierIsMostGeneral, OverlapsAreSteps, CriticalPairs, NoEndlessSteps, NextStepsEnd, ConversionsAgree, EqualRunsConvert, FormsDecide, UnifierIsCommon, PositionsAreListed};

// A step at a position is a step by induction on the term, and the reverse.
#[tactic(auto, using(crate::proofs::Stepping::step_rewrites, crate::proofs::Stepping::rewrites_step))]
pub fn steps_are_inductive()
    ensures { StepsAreInductive }
{}

// Steps are closed under substitution.
#[tactic(auto, using(crate::proofs::Stepping::steps_fill))]
pub fn steps_are_closed_under_substitution()
    ensures { StepsFill }
{}

// Steps lead from tickets to tickets.
pub fn steps_keep_tickets()
    ensures { StepsKeepTickets }
{}

// The function gives the next step and nothing else; there is at most one, and none exactly if no rule matches anywhere.
pub fn next_gives_the_next_step()
    ensures gives { NextIsNextStep }
    ensures one { OneNextStep }
    ensures none { NoNextStep }
{}

// So many next steps and then so many more are as many as both together, and after them a term is one that it reduces to.
pub fn runs_reduce()
    ensures add { RunsAdd }
    ensures reduce { RunsReduce }
{}

// A term over the signature, renamed, shares no variable with another.
#[tactic(auto, using(crate::proofs::Overlapping::renamed_apart))]
pub fn renaming_sets_apart()
    ensures { RenamedApart }
{}

// The unifier of two separate terms makes them the term that they become, and is most general; without one they become none.
pub fn unifiers_are_most_general()
    ensures common { UnifierIsCommon }
    ensures unifies { UnifierUnifies }
    ensures general { UnifierIsMostGeneral }
{}

// One step leads from one term to either side of an overlap.
pub fn overlaps_are_steps()
    ensures { OverlapsAreSteps }
{}

// The critical pair lemma: where the sides of each overlap can be joined, so can what any two steps lead to from one term, and the reverse.
pub fn overlaps_are_critical()
    ensures { CriticalPairs }
{}

// Where steps from tickets end there is no endless list of tickets with a step from each to the next.
pub fn no_steps_are_endless()
    ensures { NoEndlessSteps }
{}

// From every ticket the next steps end, after a number that rules and ticket alone fix.
pub fn next_steps_end()
    ensures { NextStepsEnd }
{}

// The two ends of a conversion have one and the same normal form, which next steps lead to.
pub fn conversions_agree()
    ensures { ConversionsAgree }
{}

// A conversion joins two tickets exactly if they are one and the same term once their next steps have ended; and wherever next steps lead to the same one it does.
pub fn normal_forms_decide()
    ensures decide { FormsDecide }
    ensures meet { EqualRunsConvert }
{}

// The positions of a term are listed in reading order.
pub fn positions_are_listed()
    ensures { PositionsAreListed }
{}
