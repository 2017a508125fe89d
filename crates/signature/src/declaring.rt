ghost use Rattle.std.specs.Prelude.{◌≡◌, ◌<◌, ◌≤◌, [], length, MatchOption, IfSome, IsTrue, ◌↔◌};
ghost use Rattle.terms.specs.Signature.{op_of, found};
ghost use Rattle.signature.specs.Operators.{op_from};
ghost use Rattle.signature.specs.Declaring.{sig_of, Declares, Ranks};

use crate::Signature;
use crate::operator::naming::is_name;
use crate::operator::{Operator, Undeclarable, Unrankable};
use fixed_vec::FixedVec;

// A number by which names are mostly told apart: from the first byte, the last and the length.
fn mark(name: &[u8]) -> u8 {
    match name {
        [] => 0,
        [only] => *only,
        [first, .., last] => first.wrapping_mul(5).wrapping_add(last.wrapping_mul(3)),
    }
}

impl Signature {
    // With no operator.
    pub fn new() -> Signature
        ensures { sig_of result ≡ [] }
    {
        Signature {
            operators: FixedVec::new(Operator::named(&[])),
            likely: [0; 256],
        }
    }

    // How many operators are declared.
    pub fn len(&self) -> usize
        ensures value { result ≡ length (sig_of self.now) }
        ensures few { result ≤ 32 }
    {
        self.operators.len()
    }

    // The operator of a number, if it is declared.
    fn operator(&self, operator: u8) -> Option<&Operator>
        ensures { MatchOption result (length (sig_of self.now) ≤ operator) (λ x. (operator < length (sig_of self.now)) × (op_of (sig_of self.now) operator ≡ op_from x.now) × ((op_from x.now).arity ≤ 3)) }
    {
        self.operators.get(operator as usize)
    }

    // The name of an operator, empty where it is not declared.
    pub fn name(&self, operator: u8) -> &[u8]
        ensures value { result.now ≡ (op_of (sig_of self.now) operator).name }
        ensures short { length result.now ≤ 12 }
    {
        self.operator(operator)
            .map_or(&[], |declared| declared.name.bytes.as_slice())
    }

    // How many arguments an operator takes, 0 where it is not declared.
    pub fn arity(&self, operator: u8) -> u8
        ensures value { result ≡ (op_of (sig_of self.now) operator).arity }
        ensures few { result ≤ 3 }
    {
        self.operator(operator).map_or(0, |declared| declared.arity)
    }

    // The operator of a name.
    #[tactic(auto, using(terms::proofs::Names::found_there))]
    pub fn find(&self, name: &[u8]) -> Option<u8>
        ensures { result ≡ found (sig_of self.now) name.now }
    {
        let likely = self.likely[usize::from(mark(name))];
        if self.is_named(likely, name) {
            return Some(likely);
        }
        self.search(name)
    }

    // Whether an operator is declared and has this name.
    fn is_named(&self, operator: u8, name: &[u8]) -> bool
        ensures { IsTrue result ↔ ((operator < length (sig_of self.now)) × ((op_of (sig_of self.now) operator).name ≡ name.now)) }
    {
        match self.operator(operator) {
            Some(declared) => declared.name.bytes.as_slice() == name,
            None => false,
        }
    }

    // The operator of a name, by going through all.
    fn search(&self, name: &[u8]) -> Option<u8>
        ensures { result ≡ found (sig_of self.now) name.now }
    {
        let place = self.place(name)?;
        Some(place as u8)
    }

    // The place of the operator of a name.
    fn place(&self, name: &[u8]) -> Option<usize>
        ensures value { result ≡ found (sig_of self.now) name.now }
        ensures within { IfSome result (λ place. place < 32) }
    {
        self.operators
            .iter()
            .position(|operator| operator.name.bytes.as_slice() == name)
    }

    // Declares one operator more, without arguments as yet.
    pub fn declare(&mut self, name: &[u8]) -> Result<(), Undeclarable>
        ensures { Declares (sig_of self.old) name.now (sig_of self.new) result }
    {
        if !is_name(name) {
            return Err(Undeclarable::Misspelt);
        }
        if self.operators.is_full() {
            return Err(Undeclarable::Full);
        }
        if self.find(name).is_some() {
            return Err(Undeclarable::Twice);
        }
        self.likely[usize::from(mark(name))] = self.operators.len() as u8;
        self.operators.push(Operator::named(name)).unwrap();
        Ok(())
    }

    // Gives a declared operator its arity, of three at most.
    #[tactic(auto, using(crate::proofs::Operators::set_again))]
    pub fn rank(&mut self, operator: u8, arity: u8) -> Result<(), Unrankable>
        ensures { Ranks (sig_of self.old) operator arity (sig_of self.new) result }
    {
        let Some(declared) = self.operator(operator) else {
            return Err(Unrankable::Undeclared);
        };
        if arity > 3 {
            return Err(Unrankable::PastThree);
        }
        let ranked = Operator { arity, ..*declared };
        self.operators.set(operator as usize, ranked);
        Ok(())
    }
}
