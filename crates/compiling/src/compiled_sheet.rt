ghost use Rattle.std.specs.Prelude.{◌≡◌};
ghost use Rattle.sheet.specs.Sheet.{rules_of};
ghost use Rattle.compiled.specs.Compiled.{IsCompiled};
ghost use Rattle.compiling.specs.FromRules.{FromRules};

use crate::rules::compile;
use compiled::CompiledRules;
use sheet::Sheet;

// The rules of a sheet, compiled: they are nothing but rules over a signature.
#[derive(Drop)]
pub struct CompiledSheet {
    rules: CompiledRules,
    ghost lawful: { ∥ FromRules rules ∥₁ },
}

impl CompiledSheet {
    pub fn of(sheet: &Sheet) -> CompiledSheet
        ensures { IsCompiled (rules_of sheet.now) result.rules }
    {
        let rules = compile(sheet);
        CompiledSheet { rules }
    }

    pub fn rules(&self) -> &CompiledRules
        ensures same { result.now ≡ self.now.rules }
        ensures lawful { ∥ FromRules result.now ∥₁ }
    {
        &self.rules
    }
}
