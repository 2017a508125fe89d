ghost use Rattle.std.specs.Prelude.{◌≡◌, false, suc, [], ◌∷◌, ◌≤◌, length, take};
ghost use Rattle.fixed_vec.specs.FixedVec.{items};
ghost use Rattle.terms.specs.Term.{Term};
ghost use Rattle.compiled.specs.declared.Source.TheVariants.{Moved};
ghost use Rattle.terms.specs.Rule.{Rule};
ghost use Rattle.sheet.specs.Rules.{rule_of};
ghost use Rattle.compiled.specs.Symbols.{parts_under};
ghost use Rattle.compiled.specs.Plans.{checks_under, pieces_under, dropped_from, copied_in, Planned};
ghost use Rattle.compiling.specs.Outlines.{piece_for, Outlines, OutlinesRule};
ghost use Rattle.compiling.specs.Compilable.{Linear, Compilable};

use crate::outline::{Outline, Part};
use compiled::{Check, Piece, Plan, Source};
use fixed_vec::FixedVec;
use sheet::rule::Rule as Stored;
use terms::symbol::Symbol;

// What stands in the slots that are not in use.
const NO_CHECK: Check = Check {
    symbol: None,
    has_first: false,
    has_next: false,
};

const NO_PIECE: Piece = Piece {
    source: Source::Moved(0),
    has_first: false,
    has_next: false,
};

// What stands in the slots of plans that are not in use: nothing to look for or to make.
pub fn blank() -> Plan
    ensures sought { (result.has_first ≡ false) × (items result.checks ≡ []) }
    ensures made { (result.root ≡ record { source = Moved 0; has_first = false; has_next = false }) × (items result.pieces ≡ []) × (items result.visits ≡ []) }
    ensures moved { (items result.dropped ≡ []) × (items result.copied ≡ []) }
    ensures counted { (result.before ≡ 0) × (result.after ≡ 0) }
{
    Plan {
        has_first: false,
        checks: FixedVec::new(NO_CHECK),
        root: NO_PIECE,
        pieces: FixedVec::new(NO_PIECE),
        visits: FixedVec::new(0),
        dropped: FixedVec::new(0),
        copied: FixedVec::new(0),
        before: 0,
        after: 0,
    }
}

// The plan of a rule.
pub fn plan_of(rule: &Stored) -> Plan
    requires { Compilable (rule_of rule.now) }
    ensures { Planned (rule_of rule.now) result }
{
    let left = Outline::of(rule.left());
    let right = Outline::of(rule.right());
    let pieces = pieces_of(&left, &right);
    Plan {
        has_first: left.root.has_first,
        checks: checks_of(&left),
        root: piece_of(&left, &right, &right.root, 0),
        pieces,
        visits: right.operators,
        dropped: dropped(&left, &right),
        copied: copied(pieces.as_slice()),
        before: left.plain(),
        after: right.plain(),
    }
}

// A check for each symbol of a left side behind its first.
fn checks_of(left: &Outline) -> FixedVec<Check, 32>
    ensures { (t : Term) → Outlines t left.now → items result ≡ checks_under t }
{
    let mut checks = FixedVec::new(NO_CHECK);
    for part in left.others.iter() {
        checks
            .push(Check {
                symbol: part.wanted(),
                has_first: part.has_first,
                has_next: part.has_next,
            })
            .unwrap();
    }
    checks
}

// A piece for each symbol of a right side behind its first.
fn pieces_of(left: &Outline, right: &Outline) -> FixedVec<Piece, 32>
    ensures { (r : Rule) → OutlinesRule r left.now right.now → items result ≡ pieces_under (parts_under r.left) (r.right ∷ []) r.right }
{
    let mut pieces = FixedVec::new(NO_PIECE);
    for (number, part) in right.others.iter().enumerate() {
        pieces
            .push(piece_of(left, right, part, number + 1))
            .unwrap();
    }
    pieces
}

// The piece for a symbol of a right side, behind the first n.
fn piece_of(left: &Outline, right: &Outline, part: &Part, n: usize) -> Piece
    requires { n ≤ suc (length (items right.now.others)) }
    ensures { (r : Rule) → OutlinesRule r left.now right.now → result ≡ piece_for (parts_under r.left) (take n (r.right ∷ parts_under r.right)) part.now }
{
    let source = match part.symbol {
        Symbol::Variable(x) => {
            if right.has_variable(x, n) {
                Source::Copied(left.home(x))
            } else {
                Source::Moved(left.home(x))
            }
        }
        symbol => Source::Made(symbol),
    };
    Piece {
        source,
        has_first: part.has_first,
        has_next: part.has_next,
    }
}

// The numbers at which a left side has variables that the right side does not have.
fn dropped(left: &Outline, right: &Outline) -> FixedVec<usize, 8>
    requires { (r : Rule) × OutlinesRule r left.now right.now × Linear r.left }
    ensures { (r : Rule) → OutlinesRule r left.now right.now → items result ≡ dropped_from 0 (parts_under r.left) (r.right ∷ parts_under r.right) }
{
    let mut dropped = FixedVec::new(0);
    for (number, part) in left.others.iter().enumerate() {
        if let Symbol::Variable(x) = part.symbol {
            if !right.has_variable(x, right.others.len() + 1) {
                dropped.push(number).unwrap();
            }
        }
    }
    dropped
}

// The numbers from which pieces are copied.
fn copied(pieces: &[Piece]) -> FixedVec<usize, 32>
    requires { length pieces.now ≤ 32 }
    ensures { items result ≡ copied_in pieces.now }
{
    let mut copied = FixedVec::new(0);
    for piece in pieces {
        if let Source::Copied(number) = piece.source {
            copied.push(number).unwrap();
        }
    }
    copied
}
