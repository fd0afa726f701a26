//! Formulas, logs and systems from lists of numbers.

ghost use Rattle.std.specs.Prelude.{◌≡◌, IfOk};

use clause_core::{Clause, Cnf, Lit};
use clause_derivation::{Chain, Log, Marks, Resolve, Steps};
use cnf_emit::BitSystem;
use inductive_check::{Certificate, accept};
use std::alloc::Global;
use std::test::Fail;

/// The clause of literals that have these codes.
pub fn clause(alloc: Global, codes: &[u32]) -> Result<Clause, Fail> {
    let mut lits = Vec::new(alloc);
    for code in codes {
        lits.push(Lit { code: *code })?;
    }
    Ok(Clause::make(alloc, lits))
}

/// The formula of these clauses.
pub fn formula(alloc: Global, variables: u32, rows: &[&[u32]]) -> Result<Cnf, Fail>
    ensures { IfOk result (λ f. f.variables ≡ variables) }
{
    let mut cnf = Cnf::make(alloc, variables);
    for codes in rows {
        let c = clause(alloc, codes)?;
        if !c.is_in_range(variables) {
            Err("a clause in range")?;
        }
        cnf.push(c)?;
    }
    Ok(cnf)
}

/// The log of one chain that is to end in the empty clause: the number that it starts from, then for
/// each step a number and a pivot. No numbers give the log without chains.
pub fn log(alloc: Global, numbers: &[u32]) -> Result<Log, Fail> {
    let mut chains = Vec::new(alloc);
    if numbers.is_empty() {
        return Ok(Log::make(alloc, chains));
    }
    let mut steps = Vec::new(alloc);
    for k in 0..(numbers.len() - 1) / 2 {
        steps.push(Resolve {
            with: numbers[2 * k + 1],
            pivot: numbers[2 * k + 2],
        })?;
    }
    chains.push(Chain {
        first: numbers[0],
        steps: Steps::make(alloc, steps),
        result: clause(alloc, &[])?,
    })?;
    Ok(Log::make(alloc, chains))
}

/// The logs of one chain each.
fn logs(alloc: Global, rows: &[&[u32]]) -> Result<Vec<Log>, Fail> {
    let mut out = Vec::new(alloc);
    for numbers in rows {
        let one = log(alloc, numbers)?;
        out.push(one)?;
    }
    Ok(out)
}

/// The certificate of clauses by their codes, and of logs of one chain each.
pub fn certificate(
    alloc: Global,
    clauses: &[&[u32]],
    starts: &[&[u32]],
    steps: &[&[u32]],
) -> Result<Certificate, Fail> {
    let mut all = Vec::new(alloc);
    for codes in clauses {
        let c = clause(alloc, codes)?;
        all.push(c)?;
    }
    let starts = logs(alloc, starts)?;
    let steps = logs(alloc, steps)?;
    Ok(Certificate::make(all, starts, steps))
}

/// A system of one bit, variable 0 before and variable 1 after a step, which is bad where it is true.
pub fn one_bit(alloc: Global, start: &[&[u32]], step: &[&[u32]]) -> Result<BitSystem, Fail> {
    let start = formula(alloc, 2, start)?;
    let step = formula(alloc, 2, step)?;
    let current = vec![in alloc; Lit { code: 0 }]?;
    let next = vec![in alloc; Lit { code: 2 }]?;
    Ok(BitSystem::make(start, step, current, next, Lit { code: 0 }, Lit { code: 2 }))
}

/// A system of two bits, variables 0 and 1 before and 2 and 3 after a step. Whether a state is bad is
/// variable 4, and after a step variable 5.
pub fn two_bits(alloc: Global, start: &[&[u32]], step: &[&[u32]]) -> Result<BitSystem, Fail> {
    let start = formula(alloc, 5, start)?;
    let step = formula(alloc, 6, step)?;
    let current = vec![in alloc; Lit { code: 0 }, Lit { code: 2 }]?;
    let next = vec![in alloc; Lit { code: 4 }, Lit { code: 6 }]?;
    Ok(BitSystem::make(
        start,
        step,
        current,
        next,
        Lit { code: 8 },
        Lit { code: 10 },
    ))
}

/// Whether the certificate is accepted, with a unit in the marks that plays no part.
pub fn is_accepted(alloc: Global, system: &BitSystem, c: &Certificate) -> Result<bool, Fail> {
    let variables = system.start().variables().max(system.step().variables());
    let mut marks = Marks::make(alloc, variables)?;
    marks.add_unit(system.bad());
    let accepted = accept(system, c, &mut marks);
    if !marks.units().is_empty() {
        Err("no unit is left")?;
    }
    Ok(accepted)
}
