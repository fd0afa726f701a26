//! Rows worked out by hand: logs that are derivations, and logs that are not.

use clause_core::{Clause, Cnf, Lit};
use clause_derivation::{Chain, Log, Marks, Resolve, Steps, check, check_under};
use std::alloc::Global;
use std::test::Fail;

/// A clause by the codes of its literals: 0 and 1 are a and its negation, 2 and 3 those of b, 4 and
/// 5 those of c.
fn clause_of(alloc: Global, codes: &[u32]) -> Result<Clause, Fail> {
    let mut lits = Vec::new(alloc);
    for code in codes {
        lits.push(Lit { code: *code })?;
    }
    Ok(Clause::make(alloc, lits))
}

fn clauses_of(alloc: Global, rows: &[&[u32]]) -> Result<Vec<Clause>, Fail> {
    let mut clauses = Vec::new(alloc);
    for codes in rows {
        clauses.push(clause_of(alloc, codes)?)?;
    }
    Ok(clauses)
}

/// The formula over the three variables of these clauses.
fn formula_of(alloc: Global, rows: &[&[u32]]) -> Result<Cnf, Fail> {
    let mut cnf = Cnf::make(alloc, 3);
    for codes in rows {
        let c = clause_of(alloc, codes)?;
        if c.is_in_range(cnf.variables()) {
            cnf.push(c)?;
        }
    }
    Ok(cnf)
}

/// A step as written: the number of a clause, and the pivot (0 is a, 1 is b, 2 is c).
fn step_of(text: &str) -> Result<Resolve, Fail> {
    let (with, pivot) = text.split_once('/').ok_or("a step has a pivot")?;
    Ok(Resolve {
        with: with.parse::<u32>()?,
        pivot: pivot.parse::<u32>()?,
    })
}

/// A chain as written: the number of its first clause, its steps, a colon and the codes of its
/// result.
fn chain_of(alloc: Global, text: &str) -> Result<Chain, Fail> {
    let (named, codes) = text.split_once(':').ok_or("a chain has a result")?;
    let mut words = named.split_whitespace();
    let first = words
        .next()
        .ok_or("a chain has a first clause")?
        .parse::<u32>()?;
    let mut steps = Vec::new(alloc);
    for word in words {
        steps.push(step_of(word)?)?;
    }
    let mut lits = Vec::new(alloc);
    for code in codes.split_whitespace() {
        lits.push(Lit {
            code: code.parse::<u32>()?,
        })?;
    }
    Ok(Chain {
        first,
        steps: Steps::make(alloc, steps),
        result: Clause::make(alloc, lits),
    })
}

/// A log as written: its chains, each after a line feed.
fn log_of(alloc: Global, text: &str) -> Result<Log, Fail> {
    let mut log = Log::make(alloc, Vec::new(alloc));
    for line in text.lines() {
        log.push(chain_of(alloc, line)?)?;
    }
    Ok(log)
}

/// Logs over the four clauses of a and b, numbers 0 to 3: {a, b}, {a, -b}, {-a, b}, {-a, -b}; and
/// over {a}, {a, -a} and {-a, c}, numbers 4 to 6. So the first chain has number 7, and 8 once a
/// clause {c} has come in before the chains.
#[test]
fn logs(rt: HostRuntime) -> Result<(), Fail> {
    let cnf = formula_of(
        rt.alloc(),
        &[&[0, 2], &[0, 3], &[1, 2], &[1, 3], &[0], &[0, 1], &[1, 4]],
    )?;
    let longer = formula_of(
        rt.alloc(),
        &[
            &[0, 2],
            &[0, 3],
            &[1, 2],
            &[1, 3],
            &[0],
            &[0, 1],
            &[1, 4],
            &[4],
        ],
    )?;
    assert_eq!(rt; cnf.clauses().len(), 7);
    assert_eq!(rt; longer.clauses().len(), 8);
    let mut marks = Marks::make(rt.alloc(), 4)?;
    let rows = [
        ("no chains", "", true),
        ("a refutation", "0 1/1 : 0\n2 3/1 : 1\n7 8/0 :", true),
        ("one chain of three steps", "0 1/1 2/0 3/1 : 1", true),
        ("no steps", "0 : 2 0", true),
        (
            "the pivot is missing in the second clause",
            "0 4/1 : 0",
            false,
        ),
        (
            "the pivot is missing in the current clause",
            "4 0/1 : 0",
            false,
        ),
        (
            "the pivot stands the same way in both",
            "0 1/0 : 2 3",
            false,
        ),
        ("on one variable of two", "0 3/0 : 2 3", true),
        ("on two variables at once", "0 3/0 :", false),
        ("its own number", "7 :", false),
        ("a later number", "8 : 0\n4 : 0", false),
        ("an earlier chain's number", "4 : 0\n7 : 0", true),
        ("a literal too few", "0 2/0 :", false),
        ("a literal too many", "0 2/0 : 2 0", false),
        ("the same literal twice", "0 2/0 : 2 2", true),
        ("a result past the variables", "4 : 0 99", false),
        ("both ways", "5 5/0 : 0 1", false),
        (
            "one way, of a clause with both literals",
            "5 6/0 : 1 4",
            true,
        ),
    ];
    for (name, chains, want) in rows {
        let mut log = log_of(rt.alloc(), chains)?;
        assert_eq!(rt; check_alone(&cnf, &log, &mut marks), Some(want), "{name}");
        log.make_room(7);
        assert_eq!(rt;
            check_alone(&longer, &log, &mut marks),
            Some(want),
            "{name}, moved"
        );
        assert_eq!(rt; marks.units().len(), 0);
    }
    Ok(())
}

/// A log over {a, b} (number 0), then {-a, c} (1) and {-c} (2), then the units that the marks hold.
#[test]
fn logs_under_units(rt: HostRuntime) -> Result<(), Fail> {
    let cnf = formula_of(rt.alloc(), &[&[0, 2]])?;
    let more = clauses_of(rt.alloc(), &[&[1, 4], &[5]])?;
    let mut marks = Marks::make(rt.alloc(), 3)?;
    // {b, c}, {b} and, with the unit -b of number 3 or 4, the empty clause
    let third = log_of(rt.alloc(), "0 1/0 2/2 3/1 :")?;
    let fourth = log_of(rt.alloc(), "0 1/0 2/2 4/1 :")?;
    // the unit's own number, and its literal as a result
    let unit = log_of(rt.alloc(), "3 : 3")?;
    assert!(rt; third.ends_empty());
    assert!(rt; !unit.ends_empty());
    for (added, log, want) in [
        (0, &third, false),
        (1, &third, true),
        (1, &fourth, false),
        (2, &third, false),
        (2, &fourth, true),
        (1, &unit, true),
        (2, &unit, false),
    ] {
        marks.clear_units();
        if added == 2 {
            add_unit(&mut marks, 4);
        }
        if added > 0 {
            add_unit(&mut marks, 3);
        }
        assert_eq!(rt;
            check_over(&cnf, &more, log, &mut marks),
            Some(want),
            "{added}"
        );
        assert_eq!(rt;
            check_over(&cnf, &more, log, &mut marks),
            Some(want),
            "{added} again"
        );
        assert_eq!(rt; marks.units().len(), added);
        assert_eq!(rt; check_alone(&cnf, log, &mut marks), Some(false));
    }
    Ok(())
}

/// Adds the unit of this code where there is room for it and it is in range.
fn add_unit(marks: &mut Marks, code: u32) {
    let l = Lit { code };
    let room = 2 * marks.variables() as usize + 1;
    if marks.units().len() < room {
        if l.variable() < marks.variables() {
            marks.add_unit(l);
        }
    }
}

/// The check without units, where the marks fit.
fn check_alone(cnf: &Cnf, log: &Log, marks: &mut Marks) -> Option<bool> {
    if marks.variables() < cnf.variables() {
        return None;
    }
    Some(check(cnf, log, marks))
}

/// The check under units, where the marks fit.
fn check_over(cnf: &Cnf, more: &[Clause], log: &Log, marks: &mut Marks) -> Option<bool> {
    if marks.variables() < cnf.variables() {
        return None;
    }
    let variables = marks.variables();
    if !more.iter().all(|c| c.is_in_range(variables)) {
        return None;
    }
    Some(check_under(cnf, more, log, marks))
}
