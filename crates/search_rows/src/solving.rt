//! Rows worked out by hand: which clauses can be satisfied under which assumptions.

ghost use Rattle.std.specs.Prelude.{◌<◌};
ghost use Rattle.clause_core.specs.Formula.{IsInRange};
ghost use Rattle.sat_solver.specs.Answers.{AreConsistent};

use clause_core::{Assignment, Clause, Lit, satisfies};
use clause_derivation::{Marks, check};
use sat_solver::{Solver, Verdict, are_consistent};
use std::alloc::Global;
use std::test::Fail;

/// What the solver answered: satisfied, or the codes of the used assumptions in order.
#[derive(Debug, PartialEq, Eq, Drop)]
enum Answer {
    Satisfied,
    Core(Vec<u32>),
}

/// The numbers of a text.
fn numbers(alloc: Global, text: &str) -> Result<Vec<u32>, Fail> {
    let mut out = Vec::new(alloc);
    for word in text.split_whitespace() {
        out.push(word.parse::<u32>()?)?;
    }
    Ok(out)
}

/// The literals of these codes: 0 and 1 are a and its negation, 2 and 3 those of b, 4 and 5 those of
/// c.
fn lits_of(alloc: Global, codes: &[u32]) -> Result<Vec<Lit>, Fail> {
    let mut lits = Vec::new(alloc);
    for code in codes {
        lits.push(Lit { code: *code })?;
    }
    Ok(lits)
}

/// The clause of a line of codes.
fn clause_of(alloc: Global, line: &str) -> Result<Clause, Fail> {
    let codes = numbers(alloc, line)?;
    let lits = lits_of(alloc, codes.as_slice())?;
    Ok(Clause::make(alloc, lits))
}

/// A failure, where something does not hold.
fn expect(holds: bool, what: &str) -> Result<(), Fail> {
    if holds { Ok(()) } else { Err(Fail::from(what)) }
}

/// Adds a clause.
fn add(solver: &mut Solver, c: &Clause) -> Result<(), Fail> {
    if !c.is_in_range(solver.cnf().variables()) {
        return Err(Fail::from("a clause is out of range"));
    }
    solver.add(c)?;
    Ok(())
}

/// Adds the clauses of a text, one a line.
fn add_all(alloc: Global, solver: &mut Solver, clauses: &str) -> Result<(), Fail> {
    for line in clauses.lines() {
        let c = clause_of(alloc, line)?;
        add(solver, &c)?;
    }
    Ok(())
}

/// Whether the log is a derivation from the clauses.
fn log_checks(alloc: Global, solver: &Solver) -> Result<bool, Fail> {
    let mut marks = Marks::make(alloc, solver.cnf().variables())?;
    Ok(check(solver.cnf(), solver.log(), &mut marks))
}

/// Whether the literals are all true.
fn are_true(a: &Assignment, lits: &[Lit]) -> bool {
    lits.iter().all(|l| a.is_true(*l))
}

/// An assignment as the answer: it satisfies the clauses and the assumptions.
fn satisfied(solver: &Solver, assumptions: &[Lit], a: &Assignment) -> Result<Answer, Fail> {
    expect(satisfies(solver.cnf(), a), "a clause is false")?;
    expect(are_true(a, assumptions), "an assumption is false")?;
    Ok(Answer::Satisfied)
}

/// Whether a clause is that of the opposites of literals.
fn are_opposites(derived: &[Lit], used: &[Lit]) -> bool {
    (derived.len() == used.len()) & used.iter().all(|l| derived.contains(&l.negated()))
}

/// The codes of literals, in order.
fn codes_of(alloc: Global, lits: &[Lit]) -> Result<Vec<u32>, Fail> {
    let mut codes = Vec::new(alloc);
    for l in lits {
        codes.push(l.code)?;
    }
    codes.sort()?;
    Ok(codes)
}

/// A core as the answer: the chain that it names derives the clause of the opposites.
fn core(alloc: Global, solver: &Solver, used: &[Lit], at: u32) -> Result<Answer, Fail> {
    match solver.log().items().get(at as usize) {
        None => Err(Fail::from("no chain stands there")),
        Some(chain) => {
            let derives = are_opposites(chain.result.items(), used);
            expect(derives, "the chain derives another clause")?;
            let codes = codes_of(alloc, used)?;
            Ok(Answer::Core(codes))
        }
    }
}

/// What the solver answers under these assumptions. What the answer promises is tested.
fn ask(alloc: Global, solver: &mut Solver, assumptions: &[Lit]) -> Result<Answer, Fail>
    requires range { IsInRange solver.old.cnf.variables assumptions.now }
    requires consistent { AreConsistent assumptions.now }
{
    match solver.solve(assumptions)? {
        Verdict::Satisfied(a) => satisfied(solver, assumptions, &a),
        Verdict::Core { used, at } => core(alloc, solver, used.items(), at),
    }
}

/// What the solver answers under the assumptions of a line.
fn answer_to(alloc: Global, solver: &mut Solver, line: &str) -> Result<Answer, Fail> {
    let assumptions = clause_of(alloc, line)?;
    if !assumptions.is_in_range(solver.cnf().variables()) {
        return Err(Fail::from("an assumption is out of range"));
    }
    if !are_consistent(assumptions.items()) {
        return Err(Fail::from("two assumptions are opposite"));
    }
    ask(alloc, solver, assumptions.items())
}

/// The answer as written: `satisfied`, or the codes of a core.
fn answer_of(alloc: Global, text: &str) -> Result<Answer, Fail> {
    if text == "satisfied" {
        return Ok(Answer::Satisfied);
    }
    let codes = numbers(alloc, text)?;
    Ok(Answer::Core(codes))
}

/// Whether the solver answers so, with a log that checks.
fn answers(
    alloc: Global,
    solver: &mut Solver,
    assumptions: &str,
    want: &str,
) -> Result<bool, Fail> {
    let got = answer_to(alloc, solver, assumptions)?;
    let want = answer_of(alloc, want)?;
    let checks = log_checks(alloc, solver)?;
    Ok((got == want) & checks)
}

/// Whether a new solver over three variables answers so, twice.
fn answers_twice(
    alloc: Global,
    clauses: &str,
    assumptions: &str,
    want: &str,
) -> Result<bool, Fail> {
    let mut solver = Solver::make(alloc, 3)?;
    add_all(alloc, &mut solver, clauses)?;
    let first = answers(alloc, &mut solver, assumptions, want)?;
    let second = answers(alloc, &mut solver, assumptions, want)?;
    Ok(first & second)
}

/// Clauses over three variables, one a line, the assumptions, and the answer.
#[test]
fn rows(rt: HostRuntime) -> Result<(), Fail> {
    for (name, clauses, assumptions, want) in [
        ("no clauses", "", "", "satisfied"),
        ("no clauses, an assumption", "", "5", "satisfied"),
        ("the four clauses", "0 2\n0 3\n1 2\n1 3", "", ""),
        ("the first two", "0 2\n0 3", "", "satisfied"),
        ("the first two under a", "0 2\n0 3", "0", "satisfied"),
        ("the first two under not a", "0 2\n0 3", "1", "1"),
        ("the first two under c and not a", "0 2\n0 3", "4 1", "1"),
        ("the first alone", "0 2", "", "satisfied"),
        ("the first alone under not a", "0 2", "1", "satisfied"),
        ("the first alone, both are false", "0 2", "1 3", "1 3"),
        ("the empty clause", "\n", "4", ""),
        ("a literal twice", "1 1", "0", "0"),
        ("a tautology", "0 1", "0 2", "satisfied"),
        ("a unit", "2", "2 4", "satisfied"),
        ("opposite units", "2\n0\n3", "", ""),
    ] {
        let right = answers_twice(rt.alloc(), clauses, assumptions, want)?;
        assert!(rt; right, "{name}");
    }
    Ok(())
}

/// One solver over time: what is assumed in one call does not hold in the next, and clauses come in
/// between. The clauses are a or b, then not a or c, then not c, then not b.
#[test]
fn one_solver_over_time(rt: HostRuntime) -> Result<(), Fail> {
    let mut solver = Solver::make(rt.alloc(), 3)?;
    for (clause, assumptions, want) in [
        ("0 2", "1", "satisfied"),
        ("0 2", "1 3", "1 3"),
        ("1 4", "1", "satisfied"),
        ("1 4", "5 3", "3 5"),
        ("5", "0", "0"),
        ("5", "3", "3"),
        ("5", "", "satisfied"),
        ("3", "", ""),
    ] {
        add_all(rt.alloc(), &mut solver, clause)?;
        let right = answers(rt.alloc(), &mut solver, assumptions, want)?;
        assert!(rt; right, "{assumptions}");
    }
    Ok(())
}

/// Adds the clauses of a pigeon: it sits in one of four holes, and in none of an earlier one.
fn add_pigeon(alloc: Global, solver: &mut Solver, p: u32) -> Result<(), Fail>
    requires { p < 5 }
{
    let mut codes = Vec::new(alloc);
    for h in 0..4u32 {
        codes.push(8 * p + 2 * h)?;
    }
    if p == 0 {
        codes.push(40)?;
    }
    let lits = lits_of(alloc, codes.as_slice())?;
    add(solver, &Clause::make(alloc, lits))?;
    for q in 0..p {
        for h in 0..4u32 {
            let lits = lits_of(alloc, &[8 * p + 2 * h + 1, 8 * q + 2 * h + 1])?;
            add(solver, &Clause::make(alloc, lits))?;
        }
    }
    Ok(())
}

/// Five pigeons do not fit into four holes, however the conflicts go. Variable 4 p + h says that
/// pigeon p sits in hole h; under the assumption of variable 20, pigeon 0 needs no hole, and the
/// others fit.
#[test]
fn pigeons(rt: HostRuntime) -> Result<(), Fail> {
    let mut solver = Solver::make(rt.alloc(), 21)?;
    for p in 0..5u32 {
        add_pigeon(rt.alloc(), &mut solver, p)?;
    }
    let full = answers(rt.alloc(), &mut solver, "41", "41")?;
    assert!(rt; full);
    let fits = answers(rt.alloc(), &mut solver, "40", "satisfied")?;
    assert!(rt; fits);
    assert!(rt; solver.log().items().len() > 1);
    Ok(())
}
