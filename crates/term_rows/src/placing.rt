//! Rows of terms in place of all variables at once.

use crate::values::{FALSE, H, M, Make, P, TRUE, UNDEFINED, term, value};
use Make::{All, If, Known, Not, One, Or, Read, Same, Var};
use sqlite_items::Items;
use std::alloc::Global;
use std::process::Abort;
use std::test::Fail;
use term_core::substitute::place;
use term_core::term::Term;
use term_core::text::Memory;
use term_core::value::Value::{self, Node, Number};

/// What comes in place of the variables of a term, from variable 0 on, for frames of two variables,
/// and the values of the answer with 1, 2 and 3 nodes, where these are node 1 and node N.
#[derive(Clone, Copy)]
struct Row {
    steps: &'static [Make],
    terms: &'static [&'static [Make]],
    values: [Value; 3],
}

const ROWS: [Row; 8] = [
    // both variables change places at once: m[N][1]
    Row {
        steps: &[Var(0), Var(1), Read(M, 2)],
        terms: &[&[Var(1)], &[Var(0)]],
        values: [TRUE, UNDEFINED, UNDEFINED],
    },
    // m[1][p[1]]
    Row {
        steps: &[Var(0), Var(1), Read(M, 2)],
        terms: &[&[Var(0)], &[Var(0), Read(P, 1)]],
        values: [TRUE, TRUE, TRUE],
    },
    // three variables, of which the second does not occur: h[1], v2 = N
    Row {
        steps: &[
            Var(0),
            Read(H, 1),
            Known(Number(1)),
            Same,
            Var(2),
            Var(0),
            Same,
            Or(2),
        ],
        terms: &[&[Var(1)], &[Known(TRUE)], &[Var(0)]],
        values: [TRUE, FALSE, FALSE],
    },
    // all j: j = N
    Row {
        steps: &[Var(1), Var(0), Same, All],
        terms: &[&[Var(1)]],
        values: [TRUE, FALSE, FALSE],
    },
    // some i, all j: i = N or j = i
    Row {
        steps: &[Var(1), Var(0), Same, Var(2), Var(1), Same, Or(2), All, One],
        terms: &[&[Var(1)]],
        values: [TRUE, TRUE, TRUE],
    },
    // all j: j = x or x = 1, where x is "if some i is not v0 then v0 else v1"
    Row {
        steps: &[
            Var(1),
            Var(0),
            Same,
            Var(0),
            Known(Node(1)),
            Same,
            Or(2),
            All,
        ],
        terms: &[&[Var(2), Var(0), Same, Not, One, Var(0), Var(1), If]],
        values: [TRUE, TRUE, TRUE],
    },
    // no variables: some j is node 2
    Row {
        steps: &[Var(0), Known(Node(2)), Same, One],
        terms: &[],
        values: [FALSE, TRUE, TRUE],
    },
    // a variable past the list is that of the frame after the new one, which nothing binds
    Row {
        steps: &[Var(1)],
        terms: &[&[Var(0)]],
        values: [UNDEFINED, UNDEFINED, UNDEFINED],
    },
];

/// The answer of a row.
fn placed(alloc: Global, row: Row) -> Result<Term, Memory> {
    let made = term(alloc, row.steps)?;
    let mut terms = Items::new(alloc);
    for steps in row.terms {
        let one = term(alloc, steps)?;
        terms.push(one)?;
    }
    let out = place(alloc, &made, 2, terms.as_slice())?;
    Ok(out)
}

fn check(rt: &impl Abort, alloc: Global, row: Row) -> Result<(), Memory> {
    let out = placed(alloc, row)?;
    let [first, second, third] = row.values;
    assert_eq!(rt; value(rt, alloc, 1, &out)?, first);
    assert_eq!(rt; value(rt, alloc, 2, &out)?, second);
    assert_eq!(rt; value(rt, alloc, 3, &out)?, third);
    Ok(())
}

#[test]
fn terms_stand_for_all_variables(rt: HostRuntime) -> Result<(), Fail> {
    for row in ROWS {
        check(&rt, rt.alloc(), row)?;
    }
    Ok(())
}
