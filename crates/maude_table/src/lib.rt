// Tickets reduced in a pool, and what Maude makes of them: a table.
#![tactic(auto)]

pub mod cases;

#[cfg(test)]
mod tests {
    use crate::cases::CASES;
    use compiling::compiled_sheet::CompiledSheet;
    use engine::reduce::Stop;
    use pool::Pool;
    use reader::ticket::read_ticket;
    use sheet::Sheet;
    use signature::Signature;
    use std::alloc::{AllocError, Global};
    use std::test::Fail;
    use terms::node::Node;
    use traversal::write::write_text;
    use weighing::Weighing;

    // How many nodes a ticket is given, and how many bytes the text of a term in them can have.
    const NODES: usize = 16_384;

    const TEXT_BYTES: usize = 14 * NODES;

    // A text with '/' for a line end.
    fn lines(heap: Global, text: &str) -> Result<Vec<u8>, AllocError> {
        text.bytes()
            .map(|b| if b == b'/' { b'\n' } else { b })
            .collect(heap)
    }

    // Reads a sheet from its lines.
    fn read(heap: Global, front: &str, sheet: &mut Sheet) -> Result<(), Fail> {
        let text = lines(heap, front)?;
        let mut first = Weighing::missing();
        let mut second = Weighing::missing();
        sheet_reader::read(text.as_slice(), sheet, &mut first, &mut second)?;
        Ok(())
    }

    // The text of a ticket's normal form, at the front of the buffer.
    fn form<'b>(
        signature: &Signature,
        rules: &CompiledSheet,
        ticket: &str,
        nodes: &mut [Node],
        buffer: &'b mut [u8],
    ) -> Result<&'b str, Fail> {
        let ticket = read_ticket(signature, ticket.as_bytes())?;
        let mut pool = Pool::new(nodes).ok_or("too many nodes")?;
        let place = pool.load(&ticket, 0).map_err(|_| "not loaded")?;
        let reduced = pool.reduce(rules, place, u32::MAX).ok_or("not held")?;
        if reduced.stop != Stop::Finished {
            return Err("not finished".into());
        }
        let n = write_text(signature, &pool, place, buffer).map_err(|_| "not written")?;
        let text = buffer.get(..n).ok_or("written past the buffer")?;
        Ok(std::str::from_utf8(text)?)
    }

    #[test]
    fn every_ticket_comes_to_its_normal_form(rt: HostRuntime) -> Result<(), Fail> {
        let mut nodes = [Node::VACANT; NODES];
        let mut buffer = [0; TEXT_BYTES];
        for part in CASES.split("\n\n") {
            let (head, cases) = part.split_once('\n').ok_or("no tickets")?;
            let (_caption, front) = head.split_once("||").ok_or("no front")?;
            let mut sheet = Sheet::new();
            read(rt.alloc(), front, &mut sheet)?;
            let rules = CompiledSheet::of(&sheet);
            for case in cases.split('\n') {
                let (ticket, expected) = case.split_once('|').ok_or("no bar")?;
                let found = form(sheet.signature(), &rules, ticket, &mut nodes, &mut buffer)?;
                assert_eq!(rt; found, expected, "{}", ticket);
            }
        }
        Ok(())
    }
}
