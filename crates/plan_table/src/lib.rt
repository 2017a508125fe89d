// Rules of sheets and their plans: a table worked out by hand.
#![tactic(auto)]

pub mod cases;
#[cfg(test)]
mod shown;

#[cfg(test)]
mod tests {
    use crate::cases::CASES;
    use crate::shown::{beginnings, lines, plan};
    use compiling::rules::compile;
    use sheet::Sheet;
    use std::alloc::Global;
    use std::test::Fail;
    use weighing::Weighing;

    // The sheet of a front and the rules of its cases.
    fn read(heap: Global, front: &str, cases: &str) -> Result<Sheet, Fail> {
        let mut whole = String::new(heap);
        whole.push_str(front)?;
        for case in cases.lines() {
            let (rule, _plan) = case.split_once('|').ok_or("no bar")?;
            whole.push_str(rule)?;
            whole.push('/')?;
        }
        let text = lines(heap, whole.as_str())?;
        let mut sheet = Sheet::new();
        sheet_reader::read(
            text.as_slice(),
            &mut sheet,
            &mut Weighing::missing(),
            &mut Weighing::missing(),
        )?;
        Ok(sheet)
    }

    #[test]
    fn every_case_is_answered(rt: HostRuntime) -> Result<(), Fail> {
        let heap = rt.alloc();
        for case in CASES.split("\n\n") {
            let (head, cases) = case.split_once('\n').unwrap_or((case, ""));
            let (_caption, rest) = head.split_once("||").ok_or("no front")?;
            let (front, begins) = rest.split_once("||").ok_or("no sets")?;
            let sheet = read(heap, front, cases)?;
            let compiled = compile(&sheet);
            let found = beginnings(heap, &sheet, &compiled)?;
            assert_eq!(rt; found.as_str(), begins, "{}", head);
            for (i, case) in cases.lines().enumerate() {
                let (_rule, expected) = case.split_once('|').ok_or("no bar")?;
                let made = compiled.plan(i).ok_or("no plan")?;
                let found = plan(heap, &sheet, made)?;
                assert_eq!(rt; found.as_str(), expected, "{}", case);
            }
            assert!(rt; compiled.plan(cases.lines().count()).is_none());
        }
        Ok(())
    }
}
