//! Protocols with their verdicts, each worked out by hand. Protocols and verdicts are written as
//! short texts, which the functions below read and print.
//!
//! An item begins with `S`, `R` or `I` for start state, rule and invariant, and ends with `;`.
//! Small letters are variables, and `0` and `1` truth values. Operators follow their operands: `!`,
//! `&`, `|`, `=`, `#` for not equal, `>` for implies, and `+` for one more operand of a chain of
//! `&`. `:` assigns: `0a:` is `a := false`. What no assignment takes is the guard or the invariant.
//!
//! A state is written cell by cell as `u`, `0` or `1`.

use flat_check::{Finding, Formula, Verdict, check, finding_is_no_proof};
use murphi_ast::decl::Decl;
use murphi_ast::expr::{ChainOp, CompareOp, Designator, Expr, Link, Named, TypeExpr};
use murphi_ast::rule::{Protocol, RuleDecl};
use murphi_ast::stmt::Stmt;
use murphi_ast::text::{Memory, Text};
use murphi_ast::token::Span;
use sqlite_items::{Boxed, Items};
use std::alloc::{AllocError, Global};
use std::mem;
use std::test::Fail;

const AT: Span = Span { line: 1, column: 1 };

fn name(alloc: Global, letter: u8) -> Result<Named, Memory> {
    let name = Text::make(alloc, &[letter])?;
    Ok(Named { name, at: AT })
}

fn place(alloc: Global, letter: u8) -> Result<Expr, Memory> {
    let root = name(alloc, letter)?;
    Ok(Expr::Place(Designator {
        root,
        selectors: Items::new(alloc),
    }))
}

fn boxed(alloc: Global, e: Expr) -> Result<Boxed<Expr>, Memory> {
    let b = Boxed::new(alloc, e)?;
    Ok(b)
}

fn pop(stack: &mut Items<Expr>) -> Result<Expr, Memory> {
    match stack.pop() {
        Some(e) => Ok(e),
        None => Err(Memory),
    }
}

fn chain(alloc: Global, op: ChainOp, left: Expr, right: Expr) -> Result<Expr, Memory> {
    let first = boxed(alloc, left)?;
    let mut rest = Items::new(alloc);
    rest.push(Link { op, operand: right })?;
    Ok(Expr::Chain { first, rest })
}

fn longer(left: Expr, right: Expr) -> Result<Expr, Memory> {
    match left {
        Expr::Chain { first, mut rest } => {
            rest.push(Link {
                op: ChainOp::And,
                operand: right,
            })?;
            Ok(Expr::Chain { first, rest })
        }
        _ => Err(Memory),
    }
}

fn compare(alloc: Global, op: CompareOp, left: Expr, right: Expr) -> Result<Expr, Memory> {
    let left = boxed(alloc, left)?;
    let right = boxed(alloc, right)?;
    Ok(Expr::Compare { op, left, right })
}

fn binary(alloc: Global, sign: u8, left: Expr, right: Expr) -> Result<Expr, Memory> {
    match sign {
        b'&' => chain(alloc, ChainOp::And, left, right),
        b'|' => chain(alloc, ChainOp::Or, left, right),
        b'+' => longer(left, right),
        b'=' => compare(alloc, CompareOp::Equal, left, right),
        b'#' => compare(alloc, CompareOp::NotEqual, left, right),
        _ => {
            let left = boxed(alloc, left)?;
            let right = boxed(alloc, right)?;
            Ok(Expr::Implies { left, right })
        }
    }
}

fn operation(alloc: Global, sign: u8, stack: &mut Items<Expr>) -> Result<Expr, Memory> {
    let last = pop(stack)?;
    if sign == b'!' {
        let body = boxed(alloc, last)?;
        return Ok(Expr::Not { body, at: AT });
    }
    let left = pop(stack)?;
    binary(alloc, sign, left, last)
}

fn expression(alloc: Global, sign: u8, stack: &mut Items<Expr>) -> Result<Expr, Memory> {
    match sign {
        b'a'..=b'z' => place(alloc, sign),
        b'0' | b'1' => Ok(Expr::Truth {
            value: sign == b'1',
            at: AT,
        }),
        _ => operation(alloc, sign, stack),
    }
}

fn assignment(stack: &mut Items<Expr>) -> Result<Stmt, Memory> {
    let to = pop(stack)?;
    let value = pop(stack)?;
    match to {
        Expr::Place(to) => Ok(Stmt::Assign { to, value }),
        _ => Err(Memory),
    }
}

fn item(
    alloc: Global,
    kind: u8,
    left: Option<Expr>,
    body: Items<Stmt>,
) -> Result<RuleDecl, Memory> {
    match (kind, left) {
        (b'S', None) => Ok(RuleDecl::Start {
            title: None,
            locals: Items::new(alloc),
            body,
            at: AT,
        }),
        (b'R', guard) => Ok(RuleDecl::Rule {
            title: None,
            guard,
            locals: Items::new(alloc),
            body,
            at: AT,
        }),
        (b'I', Some(body)) => Ok(RuleDecl::Invariant {
            title: None,
            body,
            at: AT,
        }),
        _ => Err(Memory),
    }
}

fn items(alloc: Global, text: &[u8]) -> Result<Items<RuleDecl>, Memory> {
    let mut kind = 0;
    let mut stack = Items::new(alloc);
    let mut body = Items::new(alloc);
    let mut all = Items::new(alloc);
    for sign in text {
        match *sign {
            b'S' | b'R' | b'I' => kind = *sign,
            b':' => {
                let stmt = assignment(&mut stack)?;
                body.push(stmt)?;
            }
            b';' => {
                let left = stack.pop();
                let done = mem::replace(&mut body, Items::new(alloc));
                let one = item(alloc, kind, left, done)?;
                all.push(one)?;
            }
            _ => {
                let e = expression(alloc, *sign, &mut stack)?;
                stack.push(e)?;
            }
        }
    }
    Ok(all)
}

fn protocol(alloc: Global, letters: &[u8], text: &[u8]) -> Result<Protocol, Memory> {
    let mut decls = Items::new(alloc);
    for letter in letters {
        let one = name(alloc, *letter)?;
        let mut names = Items::new(alloc);
        names.push(one)?;
        decls.push(Decl::Variables {
            names,
            body: TypeExpr::Truth(AT),
        })?;
    }
    let rules = items(alloc, text)?;
    Ok(Protocol { decls, rules })
}

fn cells(alloc: Global, state: &[Option<bool>]) -> Result<String, AllocError> {
    let mut text = String::new(alloc);
    for cell in state {
        let letter = match cell {
            None => "u",
            Some(false) => "0",
            Some(true) => "1",
        };
        text.push_str(letter)?;
    }
    Ok(text)
}

fn formula(alloc: Global, formula: Formula) -> Result<String, AllocError> {
    match formula {
        Formula::Item(item) => format!(in alloc; "item {item}"),
        Formula::StartFault(start) => format!(in alloc; "fault {start}"),
    }
}

fn shown(alloc: Global, verdict: &Verdict) -> Result<String, AllocError> {
    match verdict {
        Verdict::Inductive => String::from_str(alloc, "inductive"),
        Verdict::Found {
            finding,
            formula: broken,
        } => {
            let broken = formula(alloc, *broken)?;
            match finding {
                Finding::BadStart { start, state } => {
                    let state = cells(alloc, state.as_slice())?;
                    format!(in alloc; "start {start} {state} {broken}")
                }
                Finding::BadStep { from, rule, to } => {
                    let from = cells(alloc, from.as_slice())?;
                    let to = cells(alloc, to.as_slice())?;
                    format!(in alloc; "step {from} {rule} {to} {broken}")
                }
            }
        }
    }
}

#[test]
fn verdicts(rt: HostRuntime) -> Result<(), Fail> {
    let alloc = rt.alloc();
    finding_is_no_proof();
    for (letters, text, want) in [
        // One node of two has the token; then a rule that gives it to both.
        ("ab", "S1a:0b:;Ra0a:1b:;Rb1a:0b:;Iab#;", "inductive"),
        (
            "ab",
            "S1a:0b:;Ra0a:1b:;Rb1a:0b:;Ra1b:;Iab#;",
            "step 10 3 11 item 4",
        ),
        // Starts: one that violates, the second of two, one that faults without and with a formula
        // that undefined variables violate.
        ("a", "S0a:;Ia;", "start 0 0 item 1"),
        ("a", "S1a:;S0a:;Ia;", "start 1 0 item 2"),
        ("ab", "Sb!a:;", "start 0 uu fault 0"),
        ("ab", "Sb!a:;Ia;", "start 0 uu item 1"),
        ("ab", "Sb!a:;Ra1a:;", "start 0 uu item 1"),
        // A guard that reads an undefined variable, in the start and after a step; a body that
        // faults, and one that would, behind a false guard.
        ("a", "S;Ra1a:;", "start 0 u item 1"),
        ("ab", "S1a:;Raba:;", "step 1u 1 uu item 1"),
        ("ab", "S1a:;Rab!a:;", "start 0 1u item 1"),
        ("ab", "S0a:;Rab!a:;", "inductive"),
        // The first violated formula: the second of two invariants, the first of two, an invariant
        // before a rule that stands above it.
        ("ab", "S0a:0b:;Ra!1b:;Ia!;Ib!;", "step 00 1 01 item 3"),
        ("ab", "S0a:0b:;Ra!1a:1b:;Ia!;Ib!;", "step 00 1 11 item 2"),
        (
            "abc",
            "S0a:0b:;Rb!1b:;Ra!1a:cb:;Ia!;",
            "step 00u 2 1uu item 3",
        ),
        // Settled from the left, and not from the right.
        ("ab", "S0a:;Rab&1a:;", "inductive"),
        ("ab", "S1a:;Rab|1a:;", "inductive"),
        ("ab", "S0a:;Iab>;", "inductive"),
        ("ab", "S0a:;Iba&!;", "start 0 0u item 1"),
        ("abc", "S0a:;Iab&c+!;", "inductive"),
        ("abc", "S1a:1b:;Iab&c+!;", "start 0 11u item 1"),
        // Undefinedness is copied, and a comparison reads both sides.
        ("ab", "Sba:;", "inductive"),
        ("ab", "S1a:;Iab=;", "start 0 1u item 1"),
        ("ab", "S1a:1b:;Iab=;", "inductive"),
        // A rule without a guard.
        ("a", "S1a:;R0a:;Ia;", "step 1 1 0 item 2"),
    ] {
        let p = protocol(alloc, letters.as_bytes(), text.as_bytes())?;
        let verdict = check(alloc, &p)?;
        let got = shown(alloc, &verdict)?;
        assert_eq!(rt; got.as_str(), want, "of {text}");
    }
    Ok(())
}
