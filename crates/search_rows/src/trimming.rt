//! A log that is cut down to what its last chain stands on.

use crate::building::{clause, formula};
use clause_core::Cnf;
use clause_derivation::{Chain, Log, Marks, Resolve, Steps, check, trim};
use std::alloc::Global;
use std::test::Fail;

/// A chain of one step: the numbers of two clauses, the pivot, and the codes of the result.
fn chain(alloc: Global, first: u32, with: u32, pivot: u32, codes: &[u32]) -> Result<Chain, Fail> {
    let steps = vec![in alloc; Resolve { with, pivot }]?;
    let result = clause(alloc, codes)?;
    Ok(Chain {
        first,
        steps: Steps::make(alloc, steps),
        result,
    })
}

/// The log over {a, b}, {a, not b}, {not a, b}, {not a, not b}, numbers 0 to 3, with the chains
/// 4: a, 5: b, which nothing uses, 6: not a, and 7: the empty clause of 4 and 6.
fn wasteful(alloc: Global) -> Result<Log, Fail> {
    let mut log = Log::make(alloc, Vec::new(alloc));
    log.push(chain(alloc, 0, 1, 1, &[0])?)?;
    log.push(chain(alloc, 0, 2, 0, &[2])?)?;
    log.push(chain(alloc, 2, 3, 1, &[1])?)?;
    log.push(chain(alloc, 4, 6, 0, &[])?)?;
    Ok(log)
}

/// Whether the log is a derivation that ends in the empty clause.
fn is_refutation(alloc: Global, cnf: &Cnf, log: &Log) -> Result<bool, Fail> {
    let mut marks = Marks::make(alloc, cnf.variables())?;
    let derived = check(cnf, log, &mut marks);
    Ok(derived & log.ends_empty())
}

/// The chain that nothing uses goes, and the numbers after it fall by one.
#[test]
fn unused_chain(rt: HostRuntime) -> Result<(), Fail> {
    let a = rt.alloc();
    let cnf = formula(a, 2, &[&[0, 2], &[0, 3], &[1, 2], &[1, 3]])?;
    let log = wasteful(a)?;
    assert!(rt; is_refutation(a, &cnf, &log)?);
    let less = trim(a, 4, &log)?;
    assert!(rt; is_refutation(a, &cnf, &less)?);
    assert_eq!(rt; less.items().len(), 3);
    if let Some(last) = less.items().last() {
        assert_eq!(rt; last.first, 4);
        assert_eq!(rt;
            last.steps.items(),
            [Resolve { with: 5, pivot: 0 }].as_slice()
        );
    }
    Ok(())
}

/// The front of a log, and its copy.
#[test]
fn front(rt: HostRuntime) -> Result<(), Fail> {
    let a = rt.alloc();
    let cnf = formula(a, 2, &[&[0, 2], &[0, 3], &[1, 2], &[1, 3]])?;
    let mut log = wasteful(a)?;
    let copy = log.copy(a)?;
    log.truncate(3);
    assert_eq!(rt; log.items().len(), 3);
    assert!(rt; !is_refutation(a, &cnf, &log)?);
    assert!(rt; is_refutation(a, &cnf, &copy)?);
    Ok(())
}
