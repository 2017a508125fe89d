// Texts of sheets and of tickets, made by dice.
use crate::dice::Dice;
use signature::Signature;
use std::alloc::{AllocError, Global};
use std::test::Fail;

const NAMES: [&str; 8] = [
    "nil",
    "s",
    "both",
    "f2",
    "abcdefghijkl",
    "rules",
    "neg",
    "x",
];

const INSTRUMENTS: [&str; 4] = ["#0", "#1", "#7", "#999999"];

const VARIABLES: [&str; 8] = ["A", "B", "C", "D", "E", "F", "G", "H"];

// An operator over terms, which are put where the text has variables.
#[derive(Clone, Drop)]
struct Pattern {
    text: String,
    // how many symbols it has behind the first, and how many levels below it
    symbols: usize,
    levels: usize,
}

impl Pattern {
    // Each symbol but the first stands behind an opening parenthesis or a comma.
    fn of(text: String) -> Pattern {
        let mut symbols: usize = 0;
        let mut levels: usize = 0;
        let mut open: usize = 0;
        for b in text.as_str().bytes() {
            match b {
                b'(' => {
                    symbols = symbols.saturating_add(1);
                    open = open.saturating_add(1);
                    levels = levels.max(open);
                }
                b',' => symbols = symbols.saturating_add(1),
                b')' => open = open.saturating_sub(1),
                _ => {}
            }
        }
        Pattern {
            text,
            symbols,
            levels,
        }
    }
}

// Which variables may come in a term: none, each that has not been there, or the first so many.
#[derive(Clone, Copy)]
enum Variables {
    Absent,
    After(usize),
    First(usize),
}

// The operators of a sheet, and what its terms are made of.
#[derive(Drop)]
pub(crate) struct Generator {
    pub dice: Dice,
    signature: Signature,
    // of each operator, and then of each left side
    patterns: Vec<Pattern>,
    variables: Variables,
    // how many symbols more the term may have
    room: usize,
}

impl Generator {
    // With three to eight operators.
    pub(crate) fn new(heap: Global, seed: u64) -> Result<Generator, Fail> {
        let mut dice = Dice::new(seed);
        let mut signature = Signature::new();
        let mut patterns = Vec::new(heap);
        let most = 3 + dice.below(6);
        for (operator, name) in (0..=u8::MAX).zip(NAMES).take(most) {
            signature.declare(name.as_bytes())?;
            let (arity, arguments) = dice.pick(&[
                (0, ""),
                (1, "(A)"),
                (1, "(A)"),
                (2, "(A,B)"),
                (2, "(A,B)"),
                (3, "(A,B,C)"),
            ]);
            signature.rank(operator, arity)?;
            patterns.push(Pattern::of(format!(in heap; "{name}{arguments}")?))?;
        }
        Ok(Generator {
            dice,
            signature,
            patterns,
            variables: Variables::Absent,
            room: 0,
        })
    }

    // A sheet.
    pub(crate) fn sheet(&mut self, heap: Global) -> Result<String, Fail> {
        let mut text = String::new(heap);
        self.put_front(&mut text)?;
        let most = self.dice.pick(&[2, 4, 6, 9, 32]);
        for _ in 0..self.dice.below(13) {
            let left = self.left(heap)?;
            let right = self.right(heap, most)?;
            write!(text, "{left}={right}\n")?;
            self.patterns.push(Pattern::of(left))?;
        }
        Ok(text)
    }

    // A ticket.
    pub(crate) fn ticket(&mut self, heap: Global) -> Result<String, Fail> {
        self.variables = Variables::Absent;
        self.room = self.dice.below(60);
        let levels = self.dice.below(60);
        let mut text = String::new(heap);
        self.put_term(&mut text, levels, 0, 15)?;
        Ok(text)
    }

    fn left(&mut self, heap: Global) -> Result<String, Fail> {
        self.variables = Variables::After(0);
        self.room = self.dice.pick(&[3, 5, 7, 31]);
        let mut text = String::new(heap);
        self.put_term(&mut text, 15, 0, 60)?;
        Ok(text)
    }

    // A right side for the left side before it, of so many symbols at most.
    fn right(&mut self, heap: Global, most: usize) -> Result<String, Fail> {
        if let Variables::After(n) = self.variables {
            self.variables = Variables::First(n);
        }
        self.room = self.dice.below(most);
        let mut text = String::new(heap);
        self.put_term(&mut text, 15, 20, 40)?;
        Ok(text)
    }

    // The lines in front of the rules: names, numbers of arguments, bases, three lines of factors.
    fn put_front(&mut self, text: &mut String) -> Result<(), Fail> {
        for line in 0..6 {
            for operator in (0..=u8::MAX).take(self.signature.len()) {
                if operator > 0 {
                    text.push(' ')?;
                }
                let arity = self.signature.arity(operator);
                match line {
                    0 => text.push_str(std::str::from_utf8(self.signature.name(operator))?)?,
                    1 => write!(text, "{arity}")?,
                    2 => text.push('1')?,
                    _ => text.push(if arity + 3 > line { '1' } else { '-' })?,
                }
            }
            text.push('\n')?;
        }
        Ok(text.push_str("rules\n")?)
    }

    // A term of so many levels below its first. So many times in a hundred it is a leaf, and so many times a term below it is one,
    // even where there is room for more.
    fn put_term(
        &mut self,
        text: &mut String,
        levels: usize,
        leaf: usize,
        leaves: usize,
    ) -> Result<(), Fail> {
        let pattern = self.pattern(levels)?;
        if levels == 0 || pattern.symbols > self.room || self.dice.comes(leaf) {
            return Ok(self.put_leaf(text)?);
        }
        self.room -= pattern.symbols;
        let below = levels.saturating_sub(pattern.levels.max(1));
        for c in pattern.text.as_str().chars() {
            match c {
                'A'..='H' => self.put_term(text, below, leaves, leaves)?,
                _ => text.push(c)?,
            }
        }
        Ok(())
    }

    // A variable or an instrument.
    fn put_leaf(&mut self, text: &mut String) -> Result<(), AllocError> {
        let leaf = match self.variables {
            Variables::After(n) if n < 8 && self.dice.comes(80) => {
                self.variables = Variables::After(n + 1);
                VARIABLES[n]
            }
            Variables::First(n) if n > 0 && self.dice.comes(85) => self
                .dice
                .pick(&VARIABLES[..n.min(8)]),
            _ => self.dice.pick(&INSTRUMENTS),
        };
        text.push_str(leaf)
    }

    // The pattern of an operator, or one that there is room for.
    fn pattern(&mut self, levels: usize) -> Result<Pattern, Fail> {
        let any = self.dice.below(self.patterns.len());
        let any = self.patterns.get(any).ok_or("no pattern")?;
        if self.dice.comes(40) && any.symbols <= self.room && any.levels <= levels {
            return Ok(any.clone()?);
        }
        let operator = self.dice.below(self.signature.len());
        Ok(self.patterns.get(operator).ok_or("no operator")?.clone()?)
    }
}
