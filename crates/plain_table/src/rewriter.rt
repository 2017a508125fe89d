// The plain rewriter: each step is looked for from the root, and a step makes a new tree.
use crate::tree::Tree;
use engine::reduce::{Reduced, Stop};
use sheet::Sheet;
use std::alloc::{AllocError, Global};
use std::test::Fail;
use terms::symbol::Symbol;

// The most levels of a side.
const LEVELS: usize = 16;

// The part of a tree that stands for each variable.
type Parts<'t> = [Option<&'t Tree>; 8];

// A rule.
#[derive(Drop)]
pub(crate) struct Rule {
    left: Tree,
    right: Tree,
}

// The rules of a sheet.
pub(crate) fn rules_of(heap: Global, sheet: &Sheet) -> Result<Vec<Rule>, Fail> {
    let mut rules = Vec::new(heap);
    for n in 0..sheet.len() {
        let rule = sheet.rule(n).ok_or("fewer rules")?;
        let left = Tree::read(heap, rule.left(), rule.left().root(), LEVELS)?;
        let right = Tree::read(heap, rule.right(), rule.right().root(), LEVELS)?;
        rules.push(Rule { left, right })?;
    }
    Ok(rules)
}

// Whether a tree is a left side, filled; then the parts are what it is filled with.
fn matches<'t>(left: &Tree, tree: &'t Tree, parts: &mut Parts<'t>) -> bool {
    if let Symbol::Variable(x) = left.symbol {
        if let Some(part) = parts.get_mut(usize::from(x)) {
            *part = Some(tree);
        }
        return true;
    }
    if left.symbol != tree.symbol || left.arguments.len() != tree.arguments.len() {
        return false;
    }
    for (inner, argument) in left.arguments.iter().zip(tree.arguments.iter()) {
        if !matches(inner, argument, parts) {
            return false;
        }
    }
    true
}

// A right side, filled with these parts.
fn filled(heap: Global, right: &Tree, parts: &Parts<'_>) -> Result<Tree, Fail> {
    if let Symbol::Variable(x) = right.symbol {
        let part = parts.get(usize::from(x)).copied().flatten();
        return Ok(part.ok_or("a variable of the right side only")?.clone()?);
    }
    let mut arguments = Vec::new(heap);
    for argument in &right.arguments {
        arguments.push(filled(heap, argument, parts)?)?;
    }
    Ok(Tree {
        symbol: right.symbol,
        arguments,
    })
}

// A tree with another one as its argument of this number.
fn with_argument(
    heap: Global,
    tree: &Tree,
    number: usize,
    other: Tree,
) -> Result<Tree, AllocError> {
    let mut arguments = Vec::new(heap);
    for argument in tree.arguments.iter().take(number) {
        arguments.push(argument.clone()?)?;
    }
    arguments.push(other)?;
    for argument in tree.arguments.iter().skip(number).skip(1) {
        arguments.push(argument.clone()?)?;
    }
    Ok(Tree {
        symbol: tree.symbol,
        arguments,
    })
}

// The tree after the next step: in the first argument that has one, else at the root by the first rule that matches.
fn next(heap: Global, rules: &[Rule], tree: &Tree) -> Result<Option<Tree>, Fail> {
    for (number, argument) in tree.arguments.iter().enumerate() {
        if let Some(other) = next(heap, rules, argument)? {
            return Ok(Some(with_argument(heap, tree, number, other)?));
        }
    }
    for rule in rules {
        let mut parts: Parts<'_> = [None; 8];
        if matches(&rule.left, tree, &mut parts) {
            return Ok(Some(filled(heap, &rule.right, &parts)?));
        }
    }
    Ok(None)
}

// Reduces a tree by the steps that are allowed, with so many nodes free beside those of the tree.
pub(crate) fn reduce(
    heap: Global,
    rules: &[Rule],
    tree: &mut Tree,
    free: usize,
    allowed: u32,
) -> Result<Reduced, Fail> {
    let nodes = tree.symbols().saturating_add(free);
    let mut steps = 0;
    loop {
        let Some(after) = next(heap, rules, tree)? else {
            return Ok(Reduced {
                steps,
                stop: Stop::Finished,
            });
        };
        if steps >= allowed {
            return Ok(Reduced {
                steps,
                stop: Stop::Spent,
            });
        }
        if after.symbols() > nodes {
            return Ok(Reduced {
                steps,
                stop: Stop::Short,
            });
        }
        *tree = after;
        steps += 1;
    }
}
