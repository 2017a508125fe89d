ghost use Rattle.std.specs.Prelude.{◌∷◌};
ghost use Rattle.terms.specs.Term.{Term};
ghost use Rattle.terms.specs.Text.{text_of};
ghost use Rattle.signature.specs.Declaring.{sig_of};
ghost use Rattle.traversal.specs.Walks.{Written};
ghost use Rattle.fixed_vec.specs.FixedVec.{content};
ghost use Rattle.traversal.specs.Bytes.{Lays};
ghost use Rattle.traversal.specs.Pendings.{Spread, Layable, Stepped, OfSize, SomeOfSize};

use crate::MOST;
use crate::count::count_symbols;
use crate::pending::{Lead, Pending};
use crate::row::arguments;
use crate::unwritten::Unwritten;
use fixed_vec::{FixedVec, Full};
use signature::Signature;
use terms::view::TermView;
use writer::Writer;

mod symbols;
mod writer;

// Writes the text of the term at a place to the front of the buffer and answers its length; or nothing is written.
pub fn write_text<V: TermView>(
    signature: &Signature,
    view: &V,
    place: u16,
    buffer: &mut [u8],
) -> Result<usize, Unwritten>
    ensures { Written (sig_of signature.now) (V.answers view.now) place buffer.old buffer.new result }
{
    let n = count_symbols(view, place).ok_or(Unwritten::NoTerm)?;
    let len = lay_text(signature, view, place, n, &mut []);
    if len > buffer.len() {
        return Err(Unwritten::TooShort);
    }
    lay_text(signature, view, place, n, buffer);
    Ok(len)
}

// Writes the text of a term of n symbols as far as the buffer reaches, and answers its whole length.
// The signature and the view stay two parameters, here and below: a struct of them would be made in one place and read in two.
fn lay_text<V: TermView>(
    signature: &Signature,
    view: &V,
    place: u16,
    n: usize,
    buffer: &mut [u8],
) -> usize
    requires { SomeOfSize (V.answers view.now) place n }
    ensures { (t : Term) → OfSize (V.answers view.now) place n t → Lays (text_of (sig_of signature.now) t) buffer.old 0 buffer.new result }
{
    let root = Pending {
        place,
        lead: None,
        closings: 0,
    };
    let mut stack: FixedVec<Pending, MOST> = FixedVec::new(root);
    let Ok(()) = stack.push(root) else {
        unreachable()
    };
    let mut writer = Writer::new(buffer);
    // Counted, and no `while let`: the count is what shows that the loop ends.
    for _k in 0..n {
        let Some(item) = stack.pop() else {
            unreachable()
        };
        lay_symbol(signature, view, item, &mut stack, &mut writer);
    }
    writer.len()
}

// Writes what stands before a term, its symbol and, where it has no arguments, what stands after it; its arguments go onto the stack.
fn lay_symbol<V: TermView>(
    signature: &Signature,
    view: &V,
    item: Pending,
    stack: &mut FixedVec<Pending, MOST>,
    writer: &mut Writer<'_>,
)
    requires { Layable (V.answers view.now) (item ∷ content stack.old) writer.old.len }
    ensures { Stepped (sig_of signature.now) (V.answers view.now) (item ∷ content stack.old) (content stack.new) writer.old writer.new }
{
    writer.put_lead(item.lead);
    writer.put_symbol(signature, view.symbol(item.place));
    let row = arguments(view, item.place);
    if row[0].is_none() {
        writer.put_closings(item.closings);
    } else {
        let Ok(()) = push_arguments(row, item.closings + 1, stack) else {
            unreachable()
        };
    }
}

// Puts arguments onto the stack, the first on top, with so many closing parentheses after the last.
fn push_arguments(
    row: [Option<u16>; 3],
    closings: u32,
    stack: &mut FixedVec<Pending, MOST>,
) -> Result<(), Full>
    ensures { Spread closings row (content stack.old) (content stack.new) result }
{
    let [first, second, third] = row;
    let mut after = closings;
    for (slot, lead) in [
        (third, Lead::Comma),
        (second, Lead::Comma),
        (first, Lead::Opening),
    ] {
        if let Some(place) = slot {
            stack.push(Pending {
                place,
                lead: Some(lead),
                closings: after,
            })?;
            after = 0;
        }
    }
    Ok(())
}
