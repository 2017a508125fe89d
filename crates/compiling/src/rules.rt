ghost use Rattle.sheet.specs.Sheet.{rules_of};
ghost use Rattle.compiled.specs.Compiled.{IsCompiled};

use crate::planning::{blank, plan_of};
use crate::sets::{begins, fronts_of};
use compiled::CompiledRules;
use fixed_vec::FixedVec;
use sheet::Sheet;

// The rules of a sheet.
pub fn compile(sheet: &Sheet) -> CompiledRules
    ensures { IsCompiled (rules_of sheet.now) result }
{
    let mut plans = FixedVec::new(blank());
    for i in 0..sheet.len() {
        let Some(rule) = sheet.rule(i) else {
            unreachable()
        };
        plans.push(plan_of(rule)).unwrap();
    }
    CompiledRules {
        plans,
        begins: begins(sheet),
        first: fronts_of(sheet, 0),
        second: fronts_of(sheet, 1),
    }
}
