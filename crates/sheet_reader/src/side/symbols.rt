ghost use Rattle.std.specs.Prelude.{◌≡◌, ◌<◌, Some, None, Ok, IfOk};
ghost use Rattle.terms.specs.Term.{Term, variable};
ghost use Rattle.terms.specs.Substitution.{occurrences};
ghost use Rattle.signature.specs.Declaring.{sig_of};
ghost use Rattle.reading.specs.Tokens.{a_name, an_instrument, a_variable};
ghost use Rattle.reading.specs.Reading.{top, State, has, chain};
ghost use Rattle.sheet_reading.specs.Sides.{on_left, on_right, fronted, variable_on};
ghost use Rattle.sheet_reader.specs.Sides.{Around, Fits, Roomy, Marked, Lays, ReadsLeaf, ReadsHead, begun_with};

use super::{Hand, Room, SideReader, Whole};
use lexer::number::instrument_number;
use lexer::token::Name;
use reading::fault::{SheetFault, TextFault};
use reading::token::At;
use signature::Signature;
use terms::layout::Layout;
use terms::node::Node;
use terms::symbol::Symbol;

impl<'s> SideReader<'s> {
    // A left side, with nothing read.
    pub(crate) fn left(signature: &'s Signature) -> SideReader<'s>
        ensures { (room : Room) (i : Around) → sig_of signature.now ≡ i.operators → i.hand ≡ on_left → i.context ≡ top → Roomy room i → Fits result room i }
    {
        SideReader {
            signature,
            hand: Hand::Left,
            variables: [false; 8],
            nodes: Layout::new(),
        }
    }

    // The right side beside this left one.
    pub(crate) fn right(self) -> SideReader<'s>
        ensures { (room : Room) (i : Around) (l : Term) → sig_of self.entry.signature.now ≡ i.operators → Marked self.entry.variables on_left (λ x. occurrences x l) → i.hand ≡ on_right l → i.context ≡ top → Roomy room i → Fits result room i }
    {
        SideReader {
            hand: Hand::Right,
            nodes: Layout::new(),
            ..self
        }
    }

    // The node of a symbol, and the place of its first argument.
    fn take(&mut self, symbol: Symbol, first: Option<u16>, at: At) -> Result<(), TextFault>
        ensures { Lays self.old (record { symbol = Some symbol; first = first; next = None }) at result self.new }
    {
        let node = Node {
            symbol: Some(symbol),
            first,
            next: None,
        };
        self.nodes.push(node).ok_or(TextFault::PastLimit(at))?;
        Ok(())
    }

    // A left side has an operator in front.
    fn check_front(&self, at: At) -> Result<(), SheetFault>
        ensures { (room : Room) (i : Around) (s : State) → Fits self.now room i → fronted i.hand i.context at s ≡ chain result (λ _. Ok s) }
    {
        if self.hand == Hand::Left && self.nodes.len() == 0 {
            Err(SheetFault::Headless(at))
        } else {
            Ok(())
        }
    }

    // An instrument.
    pub(crate) fn instrument(
        &mut self,
        part: &[u8],
        at: At,
        room: Room,
    ) -> Result<Whole, SheetFault>
        ensures less { IfOk result (λ whole. whole.spare < room.symbols) }
        ensures reads { (i : Around) → Fits self.old room i → ReadsLeaf self.old room i result self.new (begun_with i (an_instrument part.now) at) }
    {
        let n = instrument_number(part).ok_or(TextFault::BadNumber(at))?;
        let behind = room.below(at)?;
        self.check_front(at)?;
        self.take(Symbol::Instrument(n), None, at)?;
        Ok(Whole {
            bare: None,
            spare: behind.symbols,
        })
    }

    // On the left side no variable stands twice, and on the right one only those of the left side.
    fn check_variable(&self, x: u8, at: At) -> Result<(), SheetFault>
        ensures { (room : Room) (i : Around) → x < 8 → Fits self.now room i → variable_on i.hand x i.context at ≡ chain result (λ _. Ok (has (variable x) None i.context)) }
    {
        match (self.hand, self.variables[usize::from(x % 8)]) {
            (Hand::Left, true) => Err(SheetFault::Doubled(at)),
            (Hand::Right, false) => Err(SheetFault::Unbound(at)),
            _ => Ok(()),
        }
    }

    // A variable, of eight.
    pub(crate) fn variable(&mut self, x: u8, at: At, room: Room) -> Result<Whole, SheetFault>
        ensures less { IfOk result (λ whole. whole.spare < room.symbols) }
        ensures reads { (i : Around) → x < 8 → Fits self.old room i → ReadsLeaf self.old room i result self.new (begun_with i (a_variable x) at) }
    {
        let behind = room.below(at)?;
        self.check_front(at)?;
        self.check_variable(x, at)?;
        self.take(Symbol::Variable(x), None, at)?;
        self.variables[usize::from(x % 8)] = true;
        Ok(Whole {
            bare: None,
            spare: behind.symbols,
        })
    }

    // An operator: the room below it, and how many arguments it takes.
    pub(crate) fn head(&mut self, name: Name, at: At, room: Room) -> Result<(Room, u8), SheetFault>
        ensures less { IfOk result (λ h. h.0.symbols < room.symbols) }
        ensures reads { (i : Around) → Fits self.old room i → ReadsHead self.old room i at result self.new (begun_with i (a_name name.entry.bytes.now) at) }
    {
        let operator = self
            .signature
            .find(name.bytes)
            .ok_or(TextFault::Undeclared(at))?;
        let below = room.below(at)?;
        let arity = self.signature.arity(operator);
        let first = if arity == 0 {
            None
        } else {
            Some(self.nodes.len() as u16 + 1)
        };
        self.take(Symbol::Operator(operator), first, at)?;
        Ok((below, arity))
    }
}
