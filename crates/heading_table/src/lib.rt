// The lines that head a sheet, and what is read of them: a table worked out by hand.
#![tactic(auto)]

pub mod cases;

#[cfg(test)]
mod tests {
    use crate::cases::{CASES, NAMES};
    use reader::heading::read_signature;
    use reading::refusal::Refusal;
    use signature::Signature;
    use std::alloc::{AllocError, Global};
    use std::test::Fail;

    // A text with '/' for a line end.
    fn unfold(heap: Global, text: &str) -> Result<Vec<u8>, AllocError> {
        text.bytes()
            .map(|b| if b == b'/' { b'\n' } else { b })
            .collect(heap)
    }

    // The names with their arities.
    fn listed(heap: Global, signature: &Signature) -> Result<String, AllocError> {
        let mut list = String::new(heap);
        for operator in (0..=u8::MAX).take(signature.len()) {
            if !list.is_empty() {
                list.push(' ')?;
            }
            let name = std::str::from_utf8(signature.name(operator)).unwrap_or("?");
            let arity = signature.arity(operator);
            write!(list, "{name} {arity}")?;
        }
        Ok(list)
    }

    fn answer(heap: Global, text: &[u8]) -> Result<String, AllocError> {
        match read_signature(text) {
            Ok(signature) => listed(heap, &signature),
            Err(fault) => Refusal::from(fault).to_string(heap),
        }
    }

    // As in the table of tickets: a crate for what the two share would be longer than both.
    #[test]
    fn every_case_is_answered(rt: HostRuntime) -> Result<(), Fail> {
        for case in CASES.split('\n') {
            let (text, expected) = case.split_once('|').ok_or("no bar")?;
            let bytes = unfold(rt.alloc(), text)?;
            let found = answer(rt.alloc(), bytes.as_slice())?;
            assert_eq!(rt; found.as_str(), expected, "{}", text);
        }
        Ok(())
    }

    #[test]
    fn a_sheet_has_at_most_32_names(rt: HostRuntime) -> Result<(), Fail> {
        let heap = rt.alloc();
        let mut text = Vec::new(heap);
        text.extend_from_slice(NAMES.as_bytes())?;
        let refused = answer(heap, text.as_slice())?;
        assert_eq!(rt; refused.as_str(), "refused 6 text 119 0", "33 names");
        let (most, _) = NAMES.rsplit_once(' ').ok_or("no names")?;
        let mut text = Vec::new(heap);
        text.extend_from_slice(most.as_bytes())?;
        text.extend_from_slice(b"\n0")?;
        for _ in 0..31 {
            text.extend_from_slice(b" 0")?;
        }
        text.extend_from_slice(b"\n")?;
        assert!(rt; read_signature(text.as_slice()).is_ok(), "32 names");
        Ok(())
    }
}
