// Sides of rules, which are terms of two views, compared as they stand and renamed.
use crate::notation::text;
use sheet::Sheet;
use sheet::rule::Rule;
use std::alloc::Global;
use std::test::Fail;
use terms::layout::Layout;
use terms::node::Node;
use terms::renamed::Renamed;
use terms::symbol::Symbol;
use traversal::compare::same_terms;
use weighing::Weighing;

// A rule over the operators of HOUSE; whether its sides are one term, and whether they are with the right one renamed.
const SIDES: [(&str, bool, bool); 9] = [
    ("neg(nil)=neg(nil)", true, true),
    ("both(#1,neg(nil))=both(#1,neg(nil))", true, true),
    ("both(neg(A),B)=both(neg(A),B)", true, false),
    ("both(neg(A),B)=both(neg(B),A)", false, false),
    ("both(nil,neg(#1))=both(nil,neg(#2))", false, false),
    ("both(nil,neg(#1))=both(nil,neg(nil))", false, false),
    ("both(neg(nil),nil)=both(nil,neg(nil))", false, false),
    ("both(nil,nil)=both(nil,neg(nil))", false, false),
    ("nil=#1", false, false),
];

// The first rule of a sheet.
fn rule(heap: Global, column: &str) -> Result<Rule, Fail> {
    let mut sheet = Sheet::new();
    let text = text(heap, column)?;
    sheet_reader::read(
        text.as_slice(),
        &mut sheet,
        &mut Weighing::missing(),
        &mut Weighing::missing(),
    )?;
    Ok(*sheet.rule(0).ok_or("no rule")?)
}

#[test]
fn sides_are_compared(rt: HostRuntime) -> Result<(), Fail> {
    let heap = rt.alloc();
    for (written, same, same_renamed) in SIDES {
        let column = format!(in heap; "@{written}/")?;
        let rule = rule(heap, column.as_str())?;
        let (left, right) = (rule.left(), rule.right());
        let renamed = Renamed::over(right);
        let again = Renamed::over(&renamed);
        let found = [
            same_terms(left, 0, right, 0),
            same_terms(right, 0, left, 0),
            same_terms(left, 0, &again, 0),
            same_terms(left, 0, &renamed, 0),
        ];
        let expected = [same, same, same, same_renamed].map(Some);
        assert_eq!(rt; found, expected, "{}", written);
    }
    Ok(())
}

// Two left sides with the same symbols in the same order, over other numbers of arguments.
#[test]
fn arities_are_compared(rt: HostRuntime) -> Result<(), Fail> {
    let heap = rt.alloc();
    let wide = "f g a/2 1 0/0 0 0/1 1 -/1 - -/- - -/rules/f(g(a),a)=a/";
    let deep = "f g a/1 2 0/0 0 0/1 1 -/- 1 -/- - -/rules/f(g(a,a))=a/";
    let (wide, deep) = (rule(heap, wide)?, rule(heap, deep)?);
    assert_eq!(rt; same_terms(wide.left(), 0, deep.left(), 0), Some(false));
    assert_eq!(rt; same_terms(deep.left(), 0, wide.left(), 0), Some(false));
    assert_eq!(rt; same_terms(wide.right(), 0, deep.right(), 0), Some(true));
    Ok(())
}

#[test]
fn places_without_a_term_are_told(rt: HostRuntime) -> Result<(), Fail> {
    let rule = rule(rt.alloc(), "@neg(nil)=nil/")?;
    let (left, right) = (rule.left(), rule.right());
    assert_eq!(rt; same_terms(left, 1, right, 0), Some(true));
    for free in [2, 31, 32, u16::MAX] {
        assert_eq!(rt; same_terms(left, free, right, 0), None, "{}", free);
        assert_eq!(rt; same_terms(left, 0, right, free), None, "{}", free);
        assert_eq!(rt; same_terms(left, free, right, free), None, "{}", free);
    }
    Ok(())
}

// Two variables, each the other one renamed, and a symbol that is its own argument.
#[test]
fn nodes_are_compared(rt: HostRuntime) -> Result<(), Fail> {
    let mut nodes: Layout<3> = Layout::new();
    for (symbol, first) in [
        (Symbol::Variable(3), None),
        (Symbol::Variable(11), None),
        (Symbol::Operator(0), Some(2)),
    ] {
        let node = Node {
            symbol: Some(symbol),
            first,
            next: None,
        };
        nodes.push(node).ok_or("no room")?;
    }
    let renamed = Renamed::over(&nodes);
    assert_eq!(rt; same_terms(&nodes, 0, &nodes, 1), Some(false));
    assert_eq!(rt; same_terms(&nodes, 0, &renamed, 1), Some(true));
    assert_eq!(rt; same_terms(&renamed, 0, &nodes, 1), Some(true));
    assert_eq!(rt; same_terms(&nodes, 2, &nodes, 2), None);
    assert_eq!(rt; same_terms(&nodes, 0, &renamed, 2), None);
    Ok(())
}
