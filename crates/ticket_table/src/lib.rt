// Tickets as text, and the answers to them: a table worked out by hand.
#![tactic(auto)]

pub mod cases;

#[cfg(test)]
mod tests {
    use crate::cases::{CASES, FRONTS, LONG};
    use console::answer::write_answer;
    use console::line::{Ending, Line};
    use console::reply::reply;
    use console::sheet_text::SheetText;
    use reading::refusal::{Layer, Refusal};
    use signature::Signature;
    use std::alloc::{AllocError, Global};
    use std::io;
    use std::io::{BufReader, ErrorKind, Read};
    use std::test::Fail;

    fn declared() -> Result<Signature, Fail> {
        let mut signature = Signature::new();
        let names: [(&[u8], u8); 6] = [
            (b"nil", 0),
            (b"neg", 1),
            (b"both", 2),
            (b"mix", 3),
            (b"abcdefghijkl", 1),
            (b"x1y2", 0),
        ];
        for (operator, (name, arity)) in (0..=u8::MAX).zip(names) {
            signature.declare(name)?;
            signature.rank(operator, arity)?;
        }
        Ok(signature)
    }

    fn answer(heap: Global, signature: &Signature, text: &[u8]) -> Result<String, AllocError> {
        let mut line = Line::new();
        for b in text {
            line.push(*b);
        }
        let mut buffer = [0; 4096];
        match reply(signature, &line, &mut buffer) {
            Ok(ticket) => format!(in heap; "{ticket}"),
            Err(refusal) => format!(in heap; "{refusal}"),
        }
    }

    #[test]
    fn every_case_is_answered(rt: HostRuntime) -> Result<(), Fail> {
        let signature = declared()?;
        for case in CASES.split('\n') {
            let (text, expected) = case.split_once('|').ok_or("no bar")?;
            let found = answer(rt.alloc(), &signature, text.as_bytes())?;
            assert_eq!(rt; found.as_str(), expected, "{}", text);
        }
        Ok(())
    }

    #[test]
    fn every_front_is_refused(rt: HostRuntime) -> Result<(), Fail> {
        let signature = declared()?;
        assert_eq!(rt; FRONTS.len(), LONG.len());
        for (n, (number, place)) in FRONTS.into_iter().enumerate() {
            let front = LONG.as_bytes().get(..n).ok_or("more fronts than bytes")?;
            let found = answer(rt.alloc(), &signature, front)?;
            let refusal = Refusal {
                number,
                layer: Layer::Text,
                place,
                second: 0,
            };
            let expected = format!(in rt.alloc(); "{refusal}")?;
            assert_eq!(rt; found.as_str(), expected.as_str(), "{}", LONG);
        }
        Ok(())
    }

    // 818 times neg over an instrument, whose bytes are given.
    fn deep(heap: Global, instrument: &[u8]) -> Result<Vec<u8>, AllocError> {
        let mut text = Vec::new(heap);
        for _ in 0..818 {
            text.extend_from_slice(b"neg(")?;
        }
        text.extend_from_slice(instrument)?;
        for _ in 0..818 {
            text.extend_from_slice(b")")?;
        }
        Ok(text)
    }

    #[test]
    fn a_ticket_has_at_most_4096_bytes(rt: HostRuntime) -> Result<(), Fail> {
        let heap = rt.alloc();
        let signature = declared()?;
        let longest = deep(heap, b"#12345")?;
        assert_eq!(rt; longest.len(), 4096);
        let found = answer(heap, &signature, longest.as_slice())?;
        let text = std::str::from_utf8(longest.as_slice())?;
        let expected = format!(in heap; "ticket 819 {text}")?;
        assert_eq!(rt; found.as_str(), expected.as_str(), "4096 bytes");
        let longer = deep(heap, b"#123456")?;
        assert_eq!(rt; longer.len(), 4097);
        let refused = answer(heap, &signature, longer.as_slice())?;
        assert_eq!(rt; refused.as_str(), "refused 6 text 0 0", "4097 bytes");
        Ok(())
    }

    #[test]
    fn lines_are_read_across_chunks(rt: HostRuntime) -> Result<(), Fail> {
        let text: &[u8] = b"nil\n\nneg(nil)";
        let mut reader = BufReader::with_capacity(rt.alloc(), 3, text)?;
        let mut line = Line::new();
        let expected: [(Option<Ending>, &[u8]); 4] = [
            (Some(Ending::LineEnd), b"nil"),
            (Some(Ending::LineEnd), b""),
            (Some(Ending::InputEnd), b"neg(nil)"),
            (None, b""),
        ];
        for (ending, bytes) in expected {
            assert_eq!(rt; line.read_line(&mut reader)?, ending);
            assert_eq!(rt; line.bytes(), Some(bytes));
        }
        Ok(())
    }

    // Gives a byte at a time, and fails behind the last.
    #[derive(Drop)]
    struct Failing {
        bytes: &'static [u8],
    }

    impl Read for Failing {
        fn read(&mut self, buf: &mut [u8]) -> io::Result<usize> {
            let [first, rest @ ..] = self.bytes else {
                return Err(ErrorKind::Other.into());
            };
            if buf.is_empty() {
                return Ok(0);
            }
            buf[0] = *first;
            self.bytes = rest;
            Ok(1)
        }
    }

    #[test]
    fn a_failing_reader_ends_a_line_with_its_error(rt: HostRuntime) -> Result<(), Fail> {
        let failing = Failing {
            bytes: b"nil\nneg(",
        };
        let mut reader = BufReader::with_capacity(rt.alloc(), 3, failing)?;
        let mut line = Line::new();
        assert_eq!(rt; line.read_line(&mut reader)?, Some(Ending::LineEnd));
        assert!(rt; line.read_line(&mut reader).is_err());
        assert_eq!(rt; line.bytes(), Some(b"neg(".as_slice()));
        assert!(rt; line.read_line(&mut reader).is_err());
        assert_eq!(rt; line.bytes(), Some(b"".as_slice()));
        Ok(())
    }

    #[test]
    fn a_sheet_is_read_up_to_a_dot(rt: HostRuntime) -> Result<(), Fail> {
        let input: &[u8] = b"nil\n..\n.\nneg(nil)";
        let mut reader = BufReader::with_capacity(rt.alloc(), 3, input)?;
        let mut text = SheetText::new();
        text.read_sheet(&mut reader)?;
        assert_eq!(rt; text.bytes(), Some(b"nil\n..\n".as_slice()));
        let mut line = Line::new();
        assert_eq!(rt; line.read_line(&mut reader)?, Some(Ending::InputEnd));
        assert_eq!(rt; line.bytes(), Some(b"neg(nil)".as_slice()));
        Ok(())
    }

    #[test]
    fn a_failing_reader_ends_a_sheet_with_its_error(rt: HostRuntime) -> Result<(), Fail> {
        let failing = Failing { bytes: b"nil\nneg" };
        let mut reader = BufReader::with_capacity(rt.alloc(), 3, failing)?;
        let mut text = SheetText::new();
        assert!(rt; text.read_sheet(&mut reader).is_err());
        assert_eq!(rt; text.bytes(), Some(b"nil\n".as_slice()));
        Ok(())
    }

    #[test]
    fn an_answer_is_a_line(rt: HostRuntime) -> Result<(), Fail> {
        let signature = declared()?;
        let mut out = Vec::new(rt.alloc());
        let mut line = Line::new();
        for text in ["neg(#7)", "neg(#7"] {
            line.clear();
            let _ = line.take(text.as_bytes());
            write_answer(&mut out, reply(&signature, &line, &mut [0; 4096]))?;
        }
        assert_eq!(rt;
            out.as_slice(),
            b"ticket 2 neg(#7)\nrefused 3 text 6 0\n".as_slice()
        );
        Ok(())
    }
}
