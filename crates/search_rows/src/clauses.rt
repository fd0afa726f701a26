//! Rows worked out by hand: which assignments satisfy which formulas, and what the parts give back.

use clause_core::{Assignment, Clause, Cnf, Lit, satisfies};
use std::alloc::Global;
use std::test::Fail;

/// The clause of the literals with these codes.
fn clause_of(alloc: Global, codes: &[u32]) -> Result<Clause, Fail> {
    let mut lits = Vec::new(alloc);
    for code in codes {
        lits.push(Lit { code: *code })?;
    }
    Ok(Clause::make(alloc, lits))
}

/// The formula over two variables of these clauses, each given by the codes of its literals.
fn formula_of(alloc: Global, clauses: &[&[u32]]) -> Result<Cnf, Fail> {
    let mut cnf = Cnf::make(alloc, 2);
    for codes in clauses {
        let c = clause_of(alloc, codes)?.copy(alloc)?;
        if c.is_in_range(cnf.variables()) {
            cnf.push(c)?;
        }
    }
    Ok(cnf)
}

/// What the literals give back.
#[test]
fn literals(rt: HostRuntime) {
    let last = u32::MAX;
    for (code, variable, negated, opposite) in [
        (0, 0, false, 1),
        (1, 0, true, 0),
        (6, 3, false, 7),
        (last, 2147483647, true, last - 1),
    ] {
        let l = Lit { code };
        assert_eq!(rt; l.variable(), variable);
        assert_eq!(rt; l.is_negated(), negated);
        assert_eq!(rt; l.negated().code, opposite);
    }
    assert_eq!(rt; Lit::positive(5).code, 10);
    assert_eq!(rt; Lit::negative(5).code, 11);
}

/// Formulas over the variables a (codes 0 and 1) and b (codes 2 and 3) of up to two clauses,
/// against assignments: every clause wants one true literal, and a variable past the end is false.
#[test]
fn formulas(rt: HostRuntime) -> Result<(), Fail> {
    let rows: [(&[&[u32]], &[bool], bool); 11] = [
        (&[], &[], true),
        (&[&[]], &[true, true], false),
        (&[&[0]], &[true], true),
        (&[&[0]], &[false], false),
        (&[&[1]], &[true], false),
        (&[&[1]], &[], true),
        (&[&[2]], &[true], false),
        (&[&[1, 2]], &[true, true], true),
        (&[&[0, 1]], &[false], true),
        (&[&[0, 2], &[1, 2]], &[false, true, false], true),
        (&[&[0, 2], &[1, 2]], &[true, false], false),
    ];
    for (clauses, values, want) in rows {
        let cnf = formula_of(rt.alloc(), clauses)?;
        let a = Assignment::make(rt.alloc(), values.to_vec(rt.alloc())?);
        assert_eq!(rt; satisfies(&cnf, &a), want);
        assert_eq!(rt; cnf.clauses().len(), clauses.len());
        assert_eq!(rt; cnf.variables(), 2);
    }
    Ok(())
}
