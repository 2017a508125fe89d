ghost use Rattle.std.specs.Prelude.{◌≡◌, ◌↔◌, suc, [], length, nat_lt, IsTrue, OnErr};
ghost use Rattle.signature.specs.Declaring.{sig_of};
ghost use Rattle.reading.specs.Tokens.{a_name, a_number};
ghost use Rattle.reading.specs.declared.heading.Stage.TheVariants.{WantsName, Done};
ghost use Rattle.terms.specs.Signature.{Sig};
ghost use Rattle.reading.specs.Heading.{Head, wants_name, wants_count, head_step, head_end};
ghost use Rattle.lexer.specs.Lexing.{meaning};
ghost use Rattle.reader.specs.Heading.{head_of, Headed, why_not};

use super::{Heading, SHEET_BYTES};
use crate::machine::Machine;
use lexer::number::number;
use lexer::token::{Lexeme, Name, Token};
use reading::fault::{SheetFault, TextFault};
use reading::heading::Stage;
use reading::token::{At, Mark};
use signature::Signature;
use signature::operator::Undeclarable;

// The largest argument count.
const LARGEST_COUNT: u32 = 3;

// The fault of a name that is not declared, which needs the place too, and so is no `From`. No token is a name that is misspelt.
fn name_fault(why: Undeclarable, at: At) -> SheetFault
    ensures { result ≡ why_not why at }
{
    match why {
        Undeclarable::Misspelt => TextFault::Unexpected(at).into(),
        Undeclarable::Full => TextFault::PastLimit(at).into(),
        Undeclarable::Twice => SheetFault::Repeated(at),
    }
}

impl Heading {
    // With nothing read.
    pub fn new() -> Heading
        ensures { head_of result ≡ ([], WantsName) }
    {
        Heading {
            signature: Signature::new(),
            stage: Stage::WantsName,
        }
    }

    // Whether nothing more may come: the lines are read to their end.
    pub fn is_done(&self) -> bool
        ensures { IsTrue result ↔ ((head_of self.now).1 ≡ Done) }
    {
        self.stage == Stage::Done
    }

    // A name, where one may come.
    fn take_name(&mut self, name: Name, at: At) -> Result<(), SheetFault>
        ensures next { Headed result (wants_name 32 (a_name name.entry.bytes.now) (sig_of self.old.signature) at) (head_of self.new) }
        ensures kept { OnErr result (head_of self.new ≡ head_of self.old) }
    {
        self.signature
            .declare(name.bytes)
            .map_err(|why| name_fault(why, at))?;
        self.stage = Stage::HasName;
        Ok(())
    }

    // A count, where that of an operator may come.
    fn take_count(&mut self, operator: u8, digits: &[u8], at: At) -> Result<(), SheetFault>
        ensures next { Headed result (wants_count (a_number digits.now) (sig_of self.old.signature) operator at) (head_of self.new) }
        ensures kept { OnErr result (head_of self.new ≡ head_of self.old) }
    {
        let count = number(digits, LARGEST_COUNT).ok_or(TextFault::BadNumber(at))?;
        // The count is at most 3, and so is kept; where no such operator is declared nothing is set, as in the definition.
        let _ = self.signature.rank(operator, count as u8);
        self.stage = Stage::HasCount(operator);
        Ok(())
    }

    // Whether another operator is declared behind this one.
    fn is_followed(&self, operator: u8) -> bool
        ensures { result ≡ nat_lt (suc operator) (length (sig_of self.now.signature)) }
    {
        usize::from(operator) + 1 < self.signature.len()
    }

    // One token, at any place, where a machine's step promises this within its limit alone. After a refusal all is as it was.
    pub fn advance(&mut self, lexeme: Lexeme) -> Result<(), SheetFault>
        ensures next { Headed result (head_step 32 (head_of self.old) lexeme.entry.at (meaning lexeme.entry.token)) (head_of self.new) }
        ensures kept { OnErr result (head_of self.new ≡ head_of self.old) }
    {
        match (self.stage, lexeme.token) {
            (Stage::WantsName, Token::Name(name)) => return self.take_name(name, lexeme.at),
            (Stage::HasName, Token::Mark(Mark::Blank)) => self.stage = Stage::WantsName,
            (Stage::HasName, Token::Mark(Mark::LineEnd)) => self.stage = Stage::WantsCount(0),
            (Stage::WantsCount(operator), Token::Number(digits)) => {
                return self.take_count(operator, digits, lexeme.at);
            }
            (Stage::HasCount(operator), Token::Mark(Mark::Blank)) if self.is_followed(operator) => {
                self.stage = Stage::WantsCount(operator + 1);
            }
            (Stage::HasCount(operator), Token::Mark(Mark::LineEnd))
                if !self.is_followed(operator) => {
                self.stage = Stage::Done;
            }
            _ => return Err(lexeme.unexpected().into()),
        }
        Ok(())
    }
}

impl Machine for Heading {
    type Output = Signature;

    type Fault = SheetFault;

    ghost State = { Head };

    ghost Value = { Sig };

    ghost most_bytes = { 32768 };

    ghost rules = { λ h. record { step = head_step 32; end = head_end } };

    ghost stands = { λ h s place. s ≡ head_of h };

    ghost gives = { λ signature sig. sig ≡ sig_of signature };

    fn limit(&self) -> usize {
        SHEET_BYTES
    }

    fn step(&mut self, lexeme: Lexeme) -> Result<(), SheetFault> {
        self.advance(lexeme)
    }

    fn finish(self, at: At) -> Result<Signature, SheetFault> {
        match self.stage {
            Stage::Done => Ok(self.signature),
            _ => Err(TextFault::Unexpected(at).into()),
        }
    }
}
