//! Trees, looked into: what is joined with what, and what leaves nothing behind.

use murphi_ast::expr::{Expr, Link};
use murphi_ast::rule::{Protocol, RuleDecl};
use murphi_lex::tokens;
use murphi_protocols::protocol;
use std::alloc::Global;
use std::test::Fail;

/// What an expression is.
#[derive(Debug, Clone, Copy, PartialEq, Eq)]
enum Kind {
    Leaf,
    Call,
    Not,
    Minus,
    Chain,
    Compare,
    Implies,
    Choice,
    Quantified,
    Absent,
}

fn kind_of(e: Option<&Expr>) -> Kind {
    match e {
        None => Kind::Absent,
        Some(Expr::Call { .. }) => Kind::Call,
        Some(Expr::Not { .. }) => Kind::Not,
        Some(Expr::Minus { .. }) => Kind::Minus,
        Some(Expr::Chain { .. }) => Kind::Chain,
        Some(Expr::Compare { .. }) => Kind::Compare,
        Some(Expr::Implies { .. }) => Kind::Implies,
        Some(Expr::Choice { .. }) => Kind::Choice,
        Some(Expr::Quantified { .. }) => Kind::Quantified,
        Some(_) => Kind::Leaf,
    }
}

/// The first part of an expression.
fn first(e: &Expr) -> Option<&Expr> {
    match e {
        Expr::Not { body, .. } => Some(body.get()),
        Expr::Minus { body, .. } => Some(body.get()),
        Expr::Chain { first, .. } => Some(first.get()),
        Expr::Compare { left, .. } => Some(left.get()),
        Expr::Implies { left, .. } => Some(left.get()),
        Expr::Choice { test, .. } => Some(test.get()),
        Expr::Quantified { body, .. } => Some(body.get()),
        _ => None,
    }
}

/// The last operand of a chain.
fn last_of(links: &[Link]) -> Option<&Expr> {
    match links {
        [.., last] => Some(&last.operand),
        [] => None,
    }
}

/// The last part of an expression that has several.
fn last(e: &Expr) -> Option<&Expr> {
    match e {
        Expr::Chain { rest, .. } => last_of(rest.as_slice()),
        Expr::Compare { right, .. } => Some(right.get()),
        Expr::Implies { right, .. } => Some(right.get()),
        Expr::Choice { no, .. } => Some(no.get()),
        _ => None,
    }
}

fn read(alloc: Global, text: &[u8]) -> Option<Protocol> {
    match tokens(alloc, text) {
        Ok(all) => match protocol(alloc, &all) {
            Ok(tree) => Some(tree),
            Err(_) => None,
        },
        Err(_) => None,
    }
}

/// The shapes of the one invariant of a text, of its first part and of its last.
fn shapes(alloc: Global, text: &[u8]) -> [Kind; 3] {
    match read(alloc, text) {
        Some(tree) => match tree.rules.as_slice() {
            [RuleDecl::Invariant { body, .. }] => [
                kind_of(Some(body)),
                kind_of(first(body)),
                kind_of(last(body)),
            ],
            _ => [Kind::Absent, Kind::Absent, Kind::Absent],
        },
        None => [Kind::Absent, Kind::Absent, Kind::Absent],
    }
}

#[test]
fn expressions(rt: HostRuntime) -> Result<(), Fail> {
    let rows: [(&[u8], [Kind; 3]); 18] = [
        (b"invariant ((a))", [Kind::Leaf, Kind::Absent, Kind::Absent]),
        (b"invariant a(1)", [Kind::Call, Kind::Absent, Kind::Absent]),
        (
            b"invariant a - b - c",
            [Kind::Chain, Kind::Leaf, Kind::Leaf],
        ),
        (
            b"invariant a - (b - c)",
            [Kind::Chain, Kind::Leaf, Kind::Chain],
        ),
        (
            b"invariant (a - b) - c",
            [Kind::Chain, Kind::Chain, Kind::Leaf],
        ),
        (
            b"invariant a | b & c",
            [Kind::Chain, Kind::Leaf, Kind::Chain],
        ),
        (
            b"invariant a & b | c",
            [Kind::Chain, Kind::Chain, Kind::Leaf],
        ),
        (
            b"invariant a + b * c",
            [Kind::Chain, Kind::Leaf, Kind::Chain],
        ),
        (b"invariant -a * b", [Kind::Chain, Kind::Minus, Kind::Leaf]),
        (
            b"invariant !a = b",
            [Kind::Not, Kind::Compare, Kind::Absent],
        ),
        (b"invariant !a & b", [Kind::Chain, Kind::Not, Kind::Leaf]),
        (
            b"invariant a + 1 = b",
            [Kind::Compare, Kind::Chain, Kind::Leaf],
        ),
        (
            b"invariant a | b -> c = d",
            [Kind::Implies, Kind::Chain, Kind::Compare],
        ),
        (
            b"invariant (a -> b) -> c",
            [Kind::Implies, Kind::Implies, Kind::Leaf],
        ),
        (
            b"invariant a -> b ? c : d",
            [Kind::Choice, Kind::Implies, Kind::Leaf],
        ),
        (
            b"invariant a ? b : c ? d : e",
            [Kind::Choice, Kind::Leaf, Kind::Choice],
        ),
        (
            b"invariant a ? b ? c : d : e",
            [Kind::Choice, Kind::Leaf, Kind::Leaf],
        ),
        (
            b"invariant forall i : T do a -> b end",
            [Kind::Quantified, Kind::Implies, Kind::Absent],
        ),
    ];
    for (text, want) in rows.as_slice() {
        assert_eq!(rt; shapes(rt.alloc(), text), *want);
    }
    Ok(())
}

/// How many statements the one start state of a text has.
fn statements(alloc: Global, text: &[u8]) -> Option<usize> {
    match read(alloc, text) {
        Some(tree) => match tree.rules.as_slice() {
            [RuleDecl::Start { body, .. }] => Some(body.len()),
            _ => None,
        },
        None => None,
    }
}

/// How many items stand in the one ruleset of a text.
fn inner_items(alloc: Global, text: &[u8]) -> Option<usize> {
    match read(alloc, text) {
        Some(tree) => match tree.rules.as_slice() {
            [RuleDecl::Group { items, .. }] => Some(items.len()),
            _ => None,
        },
        None => None,
    }
}

#[test]
fn empty_parts(rt: HostRuntime) -> Result<(), Fail> {
    assert_eq!(rt; statements(rt.alloc(), b"startstate end"), Some(0));
    assert_eq!(rt; statements(rt.alloc(), b"startstate ;; end"), Some(0));
    assert_eq!(rt;
        statements(rt.alloc(), b";; startstate ; a := b ;;; c := d; ; end ;"),
        Some(2)
    );
    assert_eq!(rt; inner_items(rt.alloc(), b"ruleset i : T do end"), Some(0));
    assert_eq!(rt;
        inner_items(
            rt.alloc(),
            b"ruleset i : T do ;; invariant a ;;; invariant b; ; end"
        ),
        Some(2)
    );
    Ok(())
}
