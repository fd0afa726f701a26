//! Copies of machines, and states that are too large.

use crate::values::{FALSE, TRUE, X, machine};
use sqlite_items::Items;
use std::alloc::Global;
use std::test::Fail;
use term_core::machine::{CellFamily, Kind, Piece, TermMachine, TermRule, Update};
use term_core::state::NodeState;
use term_core::term::Term;
use term_core::text::{Memory, Text};
use term_core::value::{Sort, Value};

/// A rule with one node parameter, one piece and one update.
fn rule(alloc: Global) -> Result<TermRule, Memory> {
    let mut params = Items::new(alloc);
    params.push(Text::make(alloc, b"i")?)?;
    let mut ok = Items::new(alloc);
    ok.push(Piece {
        binders: 1,
        body: Term::Known(TRUE),
    })?;
    let mut updates = Items::new(alloc);
    updates.push(Update {
        family: X,
        body: Term::Known(Value::Number(4)),
    })?;
    Ok(TermRule {
        title: Text::make(alloc, b"Step")?,
        values: Items::from_slice(alloc, &[Value::Node(1)])?,
        params,
        prefix: 2,
        guard: Term::Known(FALSE),
        ok,
        updates,
    })
}

/// The machine of the other rows with a kind, a start and a rule.
fn whole(alloc: Global) -> Result<TermMachine, Memory> {
    let mut names = Items::new(alloc);
    names.push(Text::make(alloc, b"Idle")?)?;
    let mut made = machine(alloc)?;
    made.kinds.push(Kind { names })?;
    made.starts.push(rule(alloc)?)?;
    made.rules.push(rule(alloc)?)?;
    made.rules.push(rule(alloc)?)?;
    Ok(made)
}

#[test]
fn machines_have_copies(rt: HostRuntime) -> Result<(), Fail> {
    let copied = whole(rt.alloc())?.copy(rt.alloc())?;
    assert_eq!(rt; copied.kinds.len(), 1);
    assert_eq!(rt; copied.families.len(), 4);
    assert_eq!(rt; copied.starts.len(), 1);
    assert_eq!(rt; copied.rules.len(), 2);
    Ok(())
}

#[test]
fn too_many_cells_take_no_memory(rt: HostRuntime) -> Result<(), Fail> {
    let alloc = rt.alloc();
    let mut families = Items::new(alloc);
    families.push(CellFamily {
        name: Text::make(alloc, b"m[][]")?,
        sort: Sort::Truth,
        axes: 2,
        undefined: true,
    })?;
    let machine = TermMachine {
        kinds: Items::new(alloc),
        families,
        starts: Items::new(alloc),
        rules: Items::new(alloc),
    };
    assert!(rt; NodeState::make(alloc, &machine, 65_536).is_err());
    assert!(rt; NodeState::make(alloc, &machine, 10).is_ok());
    Ok(())
}
