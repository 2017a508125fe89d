// Theorems about the definitions.
ghost use Rattle.terms.specs.Laws.{UniqueText, UniqueTermText, OneAtAPlace, ReadOffStands};

// On the tickets of a signature, equal text exactly if equal term; the same of its terms with variables.
#[tactic(auto, using(crate::proofs::Readable::unique_text, crate::proofs::Readable::unique_term_text))]
pub fn text_is_unique()
    ensures tickets { UniqueText }
    ensures terms { UniqueTermText }
{}

// At most one term stands at a place of a view.
#[tactic(auto, using(crate::proofs::Standing::one_at_a_place))]
pub fn one_at_a_place()
    ensures { OneAtAPlace }
{}

// The term that stands at a place is the one that is read off there.
#[tactic(auto, using(crate::proofs::Offs::off_stands))]
pub fn what_stands_is_read_off()
    ensures { ReadOffStands }
{}
