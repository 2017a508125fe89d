ghost use Rattle.std.specs.Prelude.{◌≡◌, ℕ, suc, ◌≤◌, ◌∷◌, length, take};
ghost use Rattle.fixed_vec.specs.FixedVec.{items};
ghost use Rattle.terms.specs.Term.{Term, Terms};
ghost use Rattle.terms.specs.View.{Stands, StandFrom};
ghost use Rattle.sheet.specs.Sides.{side_of, side_answers};
ghost use Rattle.compiled.specs.Symbols.{wanted, is_variable, parts_under, has_variable, home, plain};
ghost use Rattle.compiling.specs.Outlines.{leaf, part_of, Outlines};
ghost use Rattle.compiling.specs.Walking.{Occupied, RoomForTerm, RoomForRow, AddsTerm, AddsRow};

use fixed_vec::FixedVec;
use sheet::side::Side;
use terms::symbol::Symbol;
use terms::view::TermView;

// The levels of a side, at most.
const LEVELS: u8 = 16;

// A symbol of a side, whether it has arguments, and whether a sibling follows.
#[derive(Clone, Copy)]
pub struct Part {
    pub symbol: Symbol,
    pub has_first: bool,
    pub has_next: bool,
}

// A side: its first symbol, the others in reading order, and the numbers of those among the others that are operators, arguments
// first.
#[derive(Clone, Copy)]
pub struct Outline {
    pub root: Part,
    pub others: FixedVec<Part, 32>,
    pub operators: FixedVec<usize, 32>,
}

impl Part {
    // The symbol at a place of a side, of which it is known whether a sibling follows.
    fn at(side: &Side, place: u16, has_next: bool) -> Part
        requires { Occupied (side_answers side.now) place }
        ensures { (t : Term) → Stands (side_answers side.now) place t → result ≡ part_of t has_next }
    {
        let Some(symbol) = side.symbol(place) else {
            unreachable()
        };
        Part {
            symbol,
            has_first: side.argument(place, 0).is_some(),
            has_next,
        }
    }

    // What must stand where a pattern has it: nothing certain, if it is a variable.
    pub fn wanted(&self) -> Option<Symbol>
        ensures { result ≡ wanted (leaf self.now) }
    {
        match self.symbol {
            Symbol::Variable(_) => None,
            symbol => Some(symbol),
        }
    }

    fn is_variable(&self, x: u8) -> bool
        ensures { result ≡ is_variable x (leaf self.now) }
    {
        self.symbol == Symbol::Variable(x)
    }
}

impl Outline {
    pub fn of(side: &Side) -> Outline
        ensures { Outlines (side_of side.now) result }
    {
        let place = side.root();
        let root = Part::at(side, place, false);
        let mut outline = Outline {
            root,
            others: FixedVec::new(root),
            operators: FixedVec::new(0),
        };
        outline.add_arguments(side, place, 0, LEVELS);
        outline
    }

    // Puts the symbols of the term at a place behind the others. It has no more than so many levels.
    #[cycle(add)]
    fn add_term(&mut self, side: &Side, place: u16, has_next: bool, levels: u8)
        requires { RoomForTerm (side_answers side.now) place levels self.old }
        ensures { (t : Term) → Stands (side_answers side.now) place t → AddsTerm t has_next self.old self.new }
    {
        let number = self.others.len();
        let part = Part::at(side, place, has_next);
        self.others.push(part).unwrap();
        self.add_arguments(side, place, 0, levels - 1);
        if let Symbol::Operator(_) = part.symbol {
            self.operators.push(number).unwrap();
        }
    }

    // Those of the arguments of a place from the n-th on.
    #[cycle(add)]
    fn add_arguments(&mut self, side: &Side, place: u16, n: usize, levels: u8)
        requires { RoomForRow (side_answers side.now) place n levels self.old }
        ensures { (ts : Terms) → StandFrom (side_answers side.now) place n ts → AddsRow ts self.old self.new }
    {
        let Some(argument) = side.argument(place, n) else {
            return;
        };
        let has_next = side.argument(place, n + 1).is_some();
        self.add_term(side, argument, has_next, levels);
        self.add_arguments(side, place, n + 1, levels);
    }

    // Whether a variable is among the first n symbols.
    pub fn has_variable(&self, x: u8, n: usize) -> bool
        requires { n ≤ suc (length (items self.now.others)) }
        ensures { (t : Term) → Outlines t self.now → result ≡ has_variable x (take n (t ∷ parts_under t)) }
    {
        n > 0
            && (self.root.is_variable(x)
                || self.others[..n - 1].iter().any(|part| part.is_variable(x)))
    }

    // The number among the others at which a variable stands first, or how many they are.
    pub fn home(&self, x: u8) -> usize
        ensures { (t : Term) → Outlines t self.now → result ≡ home x (parts_under t) }
    {
        self.others
            .iter()
            .position(|part| part.is_variable(x))
            .unwrap_or(self.others.len())
    }

    // How many symbols are no variables.
    pub fn plain(&self) -> usize
        ensures { (t : Term) → Outlines t self.now → result ≡ plain (t ∷ parts_under t) }
    {
        usize::from(self.root.wanted().is_some())
            + self
                .others
                .iter()
                .filter(|part| part.wanted().is_some())
                .count()
    }
}
