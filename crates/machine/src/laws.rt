// Theorems about the machine.
ghost use Rattle.machine.specs.Machine.{Machine};
ghost use Rattle.machine.specs.Laws.{RefusedStay, HistoryTells, ReductionsFixed, ConvergentKeep, SessionsKeep, FollowersKeep};
ghost use Rattle.machine.specs.Cases.{Worked, WorkedAdmissions, HouseKeeps};

// A reduction makes the next steps that are allowed and possible, and that fixes how many, and why no more.
pub fn reductions_are_fixed()
    ensures { ReductionsFixed }
{}

// A refused call changes nothing.
pub fn refused_calls_stay()
    ensures { RefusedStay }
{}

// An entry holds just what the calls and their answers tell.
pub fn histories_tell()
    ensures { HistoryTells }
{}

// What holds of convergent rules after every list of calls.
pub fn convergent_rules_keep()
    ensures { ConvergentKeep }
{}

// A book, of whatever type, and the machines that it stands for.
pub trait Follower {
    ghost stands: { Self → Machine → Type 0 };
}

// What a book keeps whose calls each follow the machine.
pub fn followers_keep<B: Follower>(book: &B)
    ensures sessions { SessionsKeep B.stands }
    ensures calls { FollowersKeep B.stands }
{}

// The worked cases hold.
#[tactic(auto, using(crate::proofs::Cases::worked_cases))]
pub fn machine_cases_hold()
    ensures { Worked }
{}

// The worked cases of admission hold.
#[tactic(auto, using(crate::proofs::House::worked_admissions))]
pub fn admission_cases_hold()
    ensures { WorkedAdmissions }
{}

// The house sheet is admitted, and so its rules are convergent: what holds of those is not empty.
#[tactic(auto, using(crate::proofs::House::house_keeps))]
pub fn house_sheet_keeps()
    ensures { HouseKeeps }
{}
