// Sheets as text, and what is read of them: a table worked out by hand. Sides of rules, compared.
#![tactic(auto)]

pub mod cases;
#[cfg(test)]
mod compared;
#[cfg(test)]
mod held;
#[cfg(test)]
mod notation;

#[cfg(test)]
mod tests {
    use crate::cases::{CASES, FRONTS, LONG};
    use crate::held::Held;
    use crate::notation::{answer, text};
    use std::alloc::Global;
    use std::process::Abort;
    use std::test::Fail;

    // Reads a text in the place of a full sheet, and compares what is read with what is expected.
    fn compare(
        rt: &impl Abort,
        heap: Global,
        case: &str,
        text: &[u8],
        expected: &str,
    ) -> Result<(), Fail> {
        let mut held = Held::full(heap)?;
        let found = held.read(heap, text)?;
        assert_eq!(rt; found.as_str(), expected, "{}", case);
        assert!(rt; held.rest_is_bare(), "{}", case);
        assert_eq!(rt;
            held.is_empty(),
            expected.starts_with("refused "),
            "{}",
            case
        );
        Ok(())
    }

    #[test]
    fn every_case_is_answered(rt: HostRuntime) -> Result<(), Fail> {
        let heap = rt.alloc();
        for case in CASES.split('\n') {
            // a line without a bar is a caption
            if let Some((written, expected)) = case.split_once('|') {
                let bytes = text(heap, written)?;
                let expected = answer(heap, expected)?;
                compare(&rt, heap, case, bytes.as_slice(), expected.as_str())?;
            }
        }
        Ok(())
    }

    #[test]
    fn every_front_is_answered(rt: HostRuntime) -> Result<(), Fail> {
        let heap = rt.alloc();
        let whole = text(heap, LONG)?;
        assert_eq!(rt; FRONTS.split('\n').count(), whole.len() + 1);
        for (n, expected) in FRONTS.split('\n').enumerate() {
            let front = whole.as_slice().get(..n).ok_or("more fronts than bytes")?;
            compare(&rt, heap, expected, front, expected)?;
        }
        Ok(())
    }

    #[test]
    fn a_full_sheet_is_read(rt: HostRuntime) -> Result<(), Fail> {
        let held = Held::full(rt.alloc())?;
        assert_eq!(rt; held.sheet.signature().len(), 32);
        assert_eq!(rt; held.sheet.len(), 32);
        for weighing in [&held.first, &held.second] {
            assert_eq!(rt; weighing.base(31), 100);
            assert_eq!(rt; weighing.written_factor(31, 2), Some(4));
        }
        Ok(())
    }
}
