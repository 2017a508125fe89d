// Rules of sheets, their weights, and how orders orient them: a table worked out by hand.
#![tactic(auto)]

pub mod cases;
#[cfg(test)]
mod shown;

#[cfg(test)]
mod tests {
    use crate::cases::CASES;
    use crate::shown::{answer, text};
    use orders::lexicographic::default_order;
    use orders::linear::Interpretation;
    use orders::order::{Order, Orientation, orientation_of};
    use sheet::Sheet;
    use std::alloc::Global;
    use std::test::Fail;
    use symbol_order::BySymbols;
    use weighing::Weighing;

    // A sheet and its two weighings.
    #[derive(Drop)]
    struct Held {
        sheet: Sheet,
        first: Weighing,
        second: Weighing,
    }

    fn read(heap: Global, front: &str, rules: &str) -> Result<Held, Fail> {
        let mut held = Held {
            sheet: Sheet::new(),
            first: Weighing::missing(),
            second: Weighing::missing(),
        };
        let text = text(heap, front, rules)?;
        sheet_reader::read(
            text.as_slice(),
            &mut held.sheet,
            &mut held.first,
            &mut held.second,
        )?;
        Ok(held)
    }

    #[test]
    fn every_case_is_answered(rt: HostRuntime) -> Result<(), Fail> {
        let heap = rt.alloc();
        for sheet in CASES.split("\n\n") {
            let (head, cases) = sheet.split_once('\n').ok_or("no rules")?;
            let (_caption, front) = head.split_once("||").ok_or("no front")?;
            for case in cases.split('\n') {
                let (rule, expected) = case.split_once('|').ok_or("no bar")?;
                let held = read(heap, front, rule)?;
                let found = answer(heap, &held.sheet, &held.first, &held.second)?;
                assert_eq!(rt; found.as_str(), expected, "{}", case);
            }
        }
        Ok(())
    }

    #[test]
    fn rules_past_the_last_are_answered_no(rt: HostRuntime) -> Result<(), Fail> {
        let heap = rt.alloc();
        let front = "p q/1 1/1 1/1 1/- -/- -/rules/";
        for (rules, known) in [("", 0), ("p(A)=A", 1), ("p(A)=A/q(A)=A", 2)] {
            let held = read(heap, front, rules)?;
            let order = default_order(&held.first, &held.second);
            assert_eq!(rt; held.sheet.len(), known);
            for rule in [known, known + 1, 31, 32, usize::MAX] {
                assert!(rt; !order.is_strict(&held.sheet, rule), "{}", rule);
                assert!(rt; !order.is_weak(&held.sheet, rule), "{}", rule);
                assert!(rt; !BySymbols.is_strict(&held.sheet, rule), "{}", rule);
                assert!(rt; !BySymbols.is_weak(&held.sheet, rule), "{}", rule);
                assert_eq!(rt;
                    orientation_of(&order, &held.sheet, rule),
                    Orientation::Neither
                );
            }
        }
        Ok(())
    }

    // A '-' counts as 1, and a name that the weighing does not know has base 0.
    #[test]
    fn a_weighing_is_asked_about_another_sheet(rt: HostRuntime) -> Result<(), Fail> {
        let heap = rt.alloc();
        let names = read(heap, "a b/0 0/3 2/- -/- -/- -/rules/", "")?;
        let front = "nil neg both/0 1 2/1 1 3/- 2 2/- - 1/- - -/rules/";
        let held = read(heap, front, "neg(both(A,nil))=A")?;
        let rule = held.sheet.rule(0).ok_or("no rule")?;
        let weight = Interpretation::of(&names.first).weigh(rule.left());
        assert_eq!(rt; weight.constant, 5);
        assert_eq!(rt; weight.coefficients, [1, 0, 0, 0, 0, 0, 0, 0]);
        Ok(())
    }
}
