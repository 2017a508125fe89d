ghost use Rattle.std.specs.Prelude.{List};
ghost use Rattle.terms.specs.Signature.{Sig};
ghost use Rattle.terms.specs.Rule.{Rule};
ghost use Rattle.rewriting.specs.Rules.{RulesOf};
ghost use Rattle.node_store.specs.Memory.{memory};
ghost use Rattle.compiled.specs.Compiled.{IsCompiled};
ghost use Rattle.pool.specs.Reducing.{ReducesHeld};

use crate::Pool;
use compiling::compiled_sheet::CompiledSheet;
use engine::reduce::{Reduced, reduce};

impl<'n> Pool<'n> {
    // Makes so many next steps of the term held at a place, as far as there are any and there is room; answers how many it made and
    // why it stopped, or nothing where no term is held there. Called again it goes on from there.
    pub fn reduce(&mut self, rules: &CompiledSheet, place: u16, allowed: u32) -> Option<Reduced>
        ensures { (sig : Sig) (all : List Rule) → RulesOf sig all → IsCompiled all rules.now.rules → ReducesHeld all (memory self.old.store) place allowed (memory self.new.store) result }
    {
        if !self.store.is_root(place) {
            return None;
        }
        Some(reduce(&mut self.store, rules.rules(), place, allowed))
    }
}
