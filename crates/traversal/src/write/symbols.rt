ghost use Rattle.std.specs.Prelude.{◌+◌, ◌≤◌};
ghost use Rattle.signature.specs.Declaring.{sig_of};
ghost use Rattle.traversal.specs.Bytes.{HasRoom, Puts};
ghost use Rattle.traversal.specs.Pendings.{lead_text, symbol_text};

use super::writer::Writer;
use crate::pending::Lead;
use itoa::Buffer;
use signature::Signature;
use terms::symbol::Symbol;

impl Writer<'_> {
    // Writes what stands before a term.
    pub(super) fn put_lead(&mut self, lead: Option<Lead>)
        requires { HasRoom self.old 1 }
        ensures { Puts (lead_text lead) self.old self.new }
    {
        if let Some(lead) = lead {
            self.put(lead.byte());
        }
    }

    // Writes the text of a symbol without its arguments, of 12 bytes at most.
    pub(super) fn put_symbol(&mut self, signature: &Signature, symbol: Option<Symbol>)
        requires { HasRoom self.old 12 }
        ensures text { Puts (symbol_text (sig_of signature.now) symbol) self.old self.new }
        ensures short { self.new.len ≤ self.old.len + 12 }
    {
        match symbol {
            None => {}
            Some(Symbol::Variable(x)) => self.put(b'A' + x % 16),
            Some(Symbol::Instrument(n)) => {
                self.put(b'#');
                self.put_all(Buffer::new().format(n).as_bytes());
            }
            Some(Symbol::Operator(operator)) => self.put_all(signature.name(operator)),
        }
    }
}
