//! Rows of opened terms and of instances, each opened by hand.

use crate::spelling::{spelled, spelled_all};
use crate::values::{FALSE, M, Make, P, TRUE, term};
use Make::{All, And, If, Known, Not, One, Or, Read, Same, Var};
use lemma_strengthen::formula::{Formula, FormulaKind};
use lemma_strengthen::instance::instances;
use lemma_strengthen::normal::normal;
use sqlite_items::Items;
use std::alloc::Global;
use std::process::Abort;
use std::test::Fail;
use term_core::machine::Piece;
use term_core::text::{Memory, Text};

/// A piece, the length of the prefix, and the text of the opened body.
#[derive(Clone, Copy)]
pub struct Row {
    pub binders: u32,
    pub steps: &'static [Make],
    length: u32,
    opened: &'static [u8],
}

pub const ROWS: [Row; 18] = [
    // all i, all j: m[i][j]
    Row {
        binders: 0,
        steps: &[Var(0), Var(1), Read(M, 2), All, All],
        length: 2,
        opened: b"m(v0,v1,)",
    },
    // more variables than quantifiers
    Row {
        binders: 0,
        steps: &[Var(0), Var(0), Read(M, 2), All],
        length: 3,
        opened: b"m(v0,v0,)",
    },
    // more quantifiers than variables
    Row {
        binders: 0,
        steps: &[Var(0), Var(1), Read(M, 2), All, All],
        length: 1,
        opened: b"Am(v0,v1,)",
    },
    // Not of all stays, and binds a number past the prefix
    Row {
        binders: 0,
        steps: &[Var(0), Var(0), Read(M, 2), All, Not],
        length: 1,
        opened: b"!Am(v1,v1,)",
    },
    // Not of some is all of Not, which is opened where a variable is left
    Row {
        binders: 0,
        steps: &[Var(0), Var(0), Read(M, 2), One, Not],
        length: 1,
        opened: b"!m(v0,v0,)",
    },
    Row {
        binders: 0,
        steps: &[Var(0), Var(0), Read(M, 2), One, Not],
        length: 0,
        opened: b"A!m(v0,v0,)",
    },
    // the parts of Or take variables in order
    Row {
        binders: 0,
        steps: &[
            Var(0),
            Var(0),
            Read(M, 2),
            All,
            Var(0),
            Read(P, 1),
            Var(0),
            Same,
            All,
            Or(2),
        ],
        length: 2,
        opened: b"|(m(v0,v0,),=p(v1,)v1,)",
    },
    Row {
        binders: 0,
        steps: &[
            Var(0),
            Var(0),
            Read(M, 2),
            All,
            Var(0),
            Read(P, 1),
            Var(0),
            Same,
            All,
            Or(2),
        ],
        length: 1,
        opened: b"|(m(v0,v0,),A=p(v1,)v1,)",
    },
    // those of And share them
    Row {
        binders: 0,
        steps: &[
            Var(0),
            Var(0),
            Read(M, 2),
            All,
            Var(0),
            Read(P, 1),
            Var(0),
            Same,
            All,
            And(2),
        ],
        length: 2,
        opened: b"&(m(v0,v0,),=p(v0,)v0,)",
    },
    // Not of And is Or of Nots, and Not of Or is And of Nots
    Row {
        binders: 0,
        steps: &[
            Var(0),
            Var(0),
            Read(M, 2),
            One,
            Var(0),
            Read(P, 1),
            Var(0),
            Same,
            One,
            And(2),
            Not,
        ],
        length: 2,
        opened: b"|(!m(v0,v0,),!=p(v1,)v1,)",
    },
    Row {
        binders: 0,
        steps: &[
            Var(0),
            Var(0),
            Read(M, 2),
            One,
            Var(0),
            Read(P, 1),
            Var(0),
            Same,
            One,
            Or(2),
            Not,
        ],
        length: 1,
        opened: b"&(!m(v0,v0,),!=p(v0,)v0,)",
    },
    // an If with a quantifier in its test: (not some m or true) and (some m or all p)
    Row {
        binders: 0,
        steps: &[
            Var(0),
            Var(0),
            Read(M, 2),
            One,
            Known(TRUE),
            Var(0),
            Read(P, 1),
            Var(0),
            Same,
            All,
            If,
        ],
        length: 2,
        opened: b"&(|(!m(v0,v0,),T,),|(Em(v2,v2,),=p(v0,)v0,),)",
    },
    // Not of an If keeps the test, and turns both branches
    Row {
        binders: 0,
        steps: &[
            Known(TRUE),
            Var(0),
            Var(0),
            Read(M, 2),
            One,
            Var(0),
            Read(P, 1),
            Var(0),
            Same,
            One,
            If,
            Not,
        ],
        length: 1,
        opened: b"&(|(!T,!m(v0,v0,),),|(T,!=p(v0,)v0,),)",
    },
    // an If without a quantifier stays
    Row {
        binders: 1,
        steps: &[
            Var(0),
            Var(0),
            Read(M, 2),
            Known(TRUE),
            Known(FALSE),
            If,
            Not,
        ],
        length: 1,
        opened: b"!?m(v0,v0,):T:F",
    },
    // Not of Not is gone
    Row {
        binders: 1,
        steps: &[Var(0), Var(0), Same, Not, Not],
        length: 1,
        opened: b"=v0v0",
    },
    // the binders come first, and what stays is numbered past the prefix
    Row {
        binders: 1,
        steps: &[Var(0), Var(1), Read(M, 2), One],
        length: 3,
        opened: b"Em(v0,v3,)",
    },
    Row {
        binders: 1,
        steps: &[Var(1), Var(2), Read(M, 2), One, All],
        length: 2,
        opened: b"Em(v1,v2,)",
    },
    // no variable is left for the second of three
    Row {
        binders: 1,
        steps: &[
            Var(1),
            Var(0),
            Read(M, 2),
            All,
            Var(1),
            Var(0),
            Same,
            All,
            Or(2),
        ],
        length: 2,
        opened: b"|(m(v1,v0,),A=v2v0,)",
    },
];

/// The formulas of a piece.
pub fn opened(alloc: Global, row: Row) -> Result<Items<Formula>, Memory> {
    let body = term(alloc, row.steps)?;
    let mut pieces = Items::new(alloc);
    if row.binders <= row.length {
        pieces.push(Piece {
            binders: row.binders,
            body,
        })?;
    }
    let title = Text::make(alloc, b"Mutex")?;
    let out = made(alloc, title, row.length, pieces)?;
    Ok(out)
}

/// The formulas of pieces, if none has more binders than the prefix is long.
fn made(
    alloc: Global,
    title: Text,
    length: u32,
    pieces: Items<Piece>,
) -> Result<Items<Formula>, Memory> {
    for piece in pieces.as_slice() {
        if piece.binders > length {
            return Err(Memory);
        }
    }
    let out = normal(alloc, FormulaKind::Invariant(title), length, pieces)?;
    Ok(out)
}

fn check(rt: &impl Abort, alloc: Global, row: Row) -> Result<(), Memory> {
    let formulas = opened(alloc, row)?;
    assert_eq!(rt; formulas.len(), 1);
    for f in formulas.as_slice() {
        assert_eq!(rt; f.prefix, row.length);
        assert_eq!(rt; spelled(alloc, &f.body)?.as_slice(), row.opened);
    }
    Ok(())
}

#[test]
fn pieces_are_opened(rt: HostRuntime) -> Result<(), Fail> {
    for row in ROWS {
        check(&rt, rt.alloc(), row)?;
    }
    Ok(())
}

/// A body with a prefix, how many window nodes there are, and the texts of the instances.
#[derive(Clone, Copy)]
struct Instances {
    steps: &'static [Make],
    prefix: u32,
    window: u8,
    texts: &'static [u8],
}

const INSTANCES: [Instances; 14] = [
    // without a prefix there is the body itself
    Instances {
        steps: &[Var(0), Var(0), Read(M, 2), One],
        prefix: 0,
        window: 1,
        texts: b"Em(v1,v1,) ",
    },
    Instances {
        steps: &[Var(0), Var(0), Read(M, 2), One],
        prefix: 0,
        window: 2,
        texts: b"Em(v2,v2,) ",
    },
    Instances {
        steps: &[Var(0), Var(0), Read(M, 2), One],
        prefix: 0,
        window: 3,
        texts: b"Em(v3,v3,) ",
    },
    Instances {
        steps: &[Var(0), Var(0), Read(M, 2), One],
        prefix: 0,
        window: 4,
        texts: b"Em(v4,v4,) ",
    },
    Instances {
        steps: &[Var(0), Var(0), Read(M, 2)],
        prefix: 1,
        window: 1,
        texts: b"m(v0,v0,) ",
    },
    Instances {
        steps: &[Var(0), Var(0), Read(M, 2)],
        prefix: 1,
        window: 2,
        texts: b"m(v0,v0,) m(v1,v1,) ",
    },
    Instances {
        steps: &[Var(0), Var(0), Read(M, 2)],
        prefix: 1,
        window: 3,
        texts: b"m(v0,v0,) m(v1,v1,) m(v2,v2,) ",
    },
    Instances {
        steps: &[Var(0), Var(0), Read(M, 2)],
        prefix: 1,
        window: 4,
        texts: b"m(v0,v0,) m(v1,v1,) m(v2,v2,) m(v3,v3,) ",
    },
    // the first variable is the slowest
    Instances {
        steps: &[Var(0), Var(1), Read(M, 2)],
        prefix: 2,
        window: 1,
        texts: b"m(v0,v0,) ",
    },
    Instances {
        steps: &[Var(0), Var(1), Read(M, 2)],
        prefix: 2,
        window: 2,
        texts: b"m(v0,v0,) m(v0,v1,) m(v1,v0,) m(v1,v1,) ",
    },
    Instances {
        steps: &[Var(0), Var(1), Read(M, 2)],
        prefix: 2,
        window: 3,
        texts: b"m(v0,v0,) m(v0,v1,) m(v0,v2,) m(v1,v0,) m(v1,v1,) m(v1,v2,) m(v2,v0,) m(v2,v1,) m(v2,v2,) ",
    },
    Instances {
        steps: &[Var(0), Var(1), Read(M, 2)],
        prefix: 2,
        window: 4,
        texts: b"m(v0,v0,) m(v0,v1,) m(v0,v2,) m(v0,v3,) m(v1,v0,) m(v1,v1,) m(v1,v2,) m(v1,v3,) \
            m(v2,v0,) m(v2,v1,) m(v2,v2,) m(v2,v3,) m(v3,v0,) m(v3,v1,) m(v3,v2,) m(v3,v3,) ",
    },
    // what the body binds is numbered past the window
    Instances {
        steps: &[Var(0), Var(1), Read(M, 2), One],
        prefix: 1,
        window: 4,
        texts: b"Em(v0,v4,) Em(v1,v4,) Em(v2,v4,) Em(v3,v4,) ",
    },
    // a window without nodes has no choice for a variable
    Instances {
        steps: &[Var(0)],
        prefix: 1,
        window: 0,
        texts: b"",
    },
];

fn check_instances(rt: &impl Abort, alloc: Global, row: Instances) -> Result<(), Memory> {
    let f = Formula {
        kind: FormulaKind::Lemma(Text::make(alloc, b"Only")?),
        prefix: row.prefix,
        body: term(alloc, row.steps)?,
    };
    let all = instances(alloc, &f.copy(alloc)?, row.window)?;
    assert_eq!(rt; spelled_all(alloc, all.as_slice())?.as_slice(), row.texts);
    Ok(())
}

#[test]
fn bodies_have_instances(rt: HostRuntime) -> Result<(), Fail> {
    for row in INSTANCES {
        check_instances(&rt, rt.alloc(), row)?;
    }
    Ok(())
}
