ghost use Rattle.std.specs.Prelude.{◌≡◌, ℕ, Ok, Option};
ghost use Rattle.terms.specs.Term.{Term, nil};
ghost use Rattle.signature.specs.Declaring.{sig_of};
ghost use Rattle.reading.specs.declared.token.Mark.TheVariants.{Opening};
ghost use Rattle.reading.specs.Tokens.{a_name};
ghost use Rattle.reading.specs.Numbers.{instrument_number};
ghost use Rattle.reading.specs.Reading.{Context, top, State, wants, opens, has, on_wants, with_number, on_opens_mark, needless, closed, continued, step, ending};
ghost use Rattle.reader.specs.declared.parser.Phase.TheVariants.{Opens, Has};
ghost use Rattle.lexer.specs.Lexing.{meaning};
ghost use Rattle.reader.specs.Machine.{Stepped, Finished};
ghost use Rattle.terms.specs.Layout.{LaysOut};
ghost use Rattle.reader.specs.Parsing.{Holds, Leaf, Takes, Moves};

use super::{Frame, Parser, Phase, Whole};
use crate::ticket::TICKET_NODES;
use fixed_vec::FixedVec;
use lexer::number::instrument_number;
use lexer::token::{Lexeme, Name, Token};
use reading::fault::TextFault;
use reading::token::{At, Mark};
use signature::Signature;
use terms::layout::Layout;
use terms::node::Node;
use terms::symbol::Symbol;

// '(' behind a term: a needless one behind an operator without arguments.
fn needless_fault(bare: Option<At>, at: At) -> TextFault
    ensures { result ≡ needless bare at }
{
    match bare {
        Some(name) => TextFault::WrongArity(name),
        None => TextFault::Unexpected(at),
    }
}

impl Parser {
    // With nothing read.
    pub fn new() -> Parser
        ensures { Holds result (wants top) }
    {
        let filler = Frame {
            at: At::ORIGIN,
            node: 0,
            left: 0,
        };
        Parser {
            nodes: Layout::new(),
            frames: FixedVec::new(filler),
            phase: Phase::Wants,
        }
    }

    // A symbol without arguments, where a term may begin.
    fn take_leaf(&mut self, symbol: Symbol, bare: Option<At>, at: At) -> Result<(), TextFault>
        ensures { (k : Context) (t : Term) → Leaf symbol t → Takes self.old (wants k) at result (Ok (has t bare k)) self.new }
    {
        let leaf = Node {
            symbol: Some(symbol),
            first: None,
            next: None,
        };
        let root = self.nodes.push(leaf).ok_or(TextFault::PastLimit(at))?;
        self.phase = Phase::Has(Whole { root, bare });
        Ok(())
    }

    // An operator of one argument and so many more, where a term may begin. Unlike a leaf it has a first argument, and its parenthesis
    // comes next; as one function the two would share the push alone.
    fn take_operator(&mut self, operator: u8, left: u8, at: At) -> Result<(), TextFault>
        ensures { (k : Context) → Takes self.old (wants k) at result (Ok (opens operator at left k)) self.new }
    {
        let first = self.nodes.len() as u16 + 1;
        let head = Node {
            symbol: Some(Symbol::Operator(operator)),
            first: Some(first),
            next: None,
        };
        let node = self.nodes.push(head).ok_or(TextFault::PastLimit(at))?;
        self.phase = Phase::Opens(Frame { at, node, left });
        Ok(())
    }

    // A name, where a term may begin.
    fn take_name(&mut self, signature: &Signature, name: Name, at: At) -> Result<(), TextFault>
        ensures { (k : Context) → Takes self.old (wants k) at result (on_wants (sig_of signature.now) (a_name name.entry.bytes.now) at k) self.new }
    {
        let operator = signature.find(name.bytes).ok_or(TextFault::Undeclared(at))?;
        let arity = signature.arity(operator);
        if arity == 0 {
            self.take_leaf(Symbol::Operator(operator), Some(at), at)
        } else {
            self.take_operator(operator, arity - 1, at)
        }
    }

    // An instrument, where a term may begin.
    fn take_instrument(&mut self, part: &[u8], at: At) -> Result<(), TextFault>
        ensures { (k : Context) → Takes self.old (wants k) at result (with_number (instrument_number part.now) at k) self.new }
    {
        let n = instrument_number(part).ok_or(TextFault::BadNumber(at))?;
        self.take_leaf(Symbol::Instrument(n), None, at)
    }

    // '(' behind an operator that takes arguments.
    fn open(&mut self, frame: Frame, at: At) -> Result<(), TextFault>
        requires { self.old.phase ≡ Opens frame }
        ensures { (f : ℕ) (k : Context) → Takes self.old (opens f frame.at frame.left k) at result (on_opens_mark Opening f frame.at frame.left k) self.new }
    {
        self.frames
            .push(frame)
            .map_err(|_full| TextFault::PastLimit(at))?;
        self.phase = Phase::Wants;
        Ok(())
    }

    // ')' behind a term.
    fn close(&mut self, at: At) -> Result<(), TextFault>
        ensures { (t : Term) (m : Option At) (k : Context) → Holds self.old (has t m k) → Stepped result (closed t k at) (Holds self.new) }
    {
        let frame = self.frames.pop().ok_or(TextFault::Unexpected(at))?;
        if frame.left > 0 {
            return Err(TextFault::WrongArity(frame.at));
        }
        self.phase = Phase::Has(Whole {
            root: frame.node,
            bare: None,
        });
        Ok(())
    }

    // ',' behind a term, whose root then has the next node as its sibling.
    fn proceed(&mut self, read: Whole, at: At) -> Result<(), TextFault>
        requires { self.old.phase ≡ Has read }
        ensures { (t : Term) (k : Context) → Takes self.old (has t read.bare k) at result (continued t k at) self.new }
    {
        let frame = self.frames.pop().ok_or(TextFault::Unexpected(at))?;
        let left = frame
            .left
            .checked_sub(1)
            .ok_or(TextFault::WrongArity(frame.at))?;
        let next = self.nodes.len() as u16;
        self.nodes.link(read.root, next);
        self.frames
            .push(Frame { left, ..frame })
            .map_err(|_full| TextFault::PastLimit(at))?;
        self.phase = Phase::Wants;
        Ok(())
    }

    // One token.
    pub fn step(&mut self, signature: &Signature, lexeme: Lexeme) -> Result<(), TextFault>
        ensures { Moves self.old lexeme.entry.at result (λ s. step (sig_of signature.now) s lexeme.entry.at (meaning lexeme.entry.token)) self.new }
    {
        let Lexeme { token, at } = lexeme;
        match (self.phase, token) {
            (Phase::Wants, Token::Name(name)) => self.take_name(signature, name, at),
            (Phase::Wants, Token::Instrument(part)) => self.take_instrument(part, at),
            (Phase::Opens(frame), Token::Mark(Mark::Opening)) => self.open(frame, at),
            (Phase::Opens(frame), _) => Err(lexeme.fault_or(TextFault::WrongArity(frame.at))),
            (Phase::Has(read), Token::Mark(Mark::Opening)) => Err(needless_fault(read.bare, at)),
            (Phase::Has(_), Token::Mark(Mark::Closing)) => self.close(at),
            (Phase::Has(read), Token::Mark(Mark::Comma)) => self.proceed(read, at),
            _ => Err(lexeme.unexpected()),
        }
    }

    // The end of the text.
    pub fn finish(self, at: At) -> Result<Layout<TICKET_NODES>, TextFault>
        ensures { (s : State) → Holds self s → Finished LaysOut result (ending s at) }
    {
        match self.phase {
            Phase::Has(_) if self.frames.is_empty() => Ok(self.nodes),
            Phase::Opens(frame) => Err(TextFault::WrongArity(frame.at)),
            _ => Err(TextFault::Unexpected(at)),
        }
    }
}
