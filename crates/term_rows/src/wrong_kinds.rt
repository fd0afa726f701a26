//! Rows of terms with a part of a wrong kind, worked out by hand.

use crate::values::{A1, FALSE, H, M, Make, P, TRUE, UNDEFINED, term, value};
use Make::{All, And, Arith, If, Known, Less, Not, One, Or, Read};
use Value::{Node, Number};
use std::alloc::Global;
use std::process::Abort;
use std::test::Fail;
use term_core::text::Memory;
use term_core::value::ArithOp::{Add, Divide, Modulo, Subtract, Times};
use term_core::value::Value;

/// The steps of a term around a part of a wrong kind, and the value that it has then.
#[derive(Clone, Copy)]
struct Around {
    before: &'static [Make],
    after: &'static [Make],
    value: Value,
}

/// One for each place where a truth value belongs: the part counts as false.
const AS_FALSE: [Around; 8] = [
    Around {
        before: &[],
        after: &[Not],
        value: TRUE,
    },
    Around {
        before: &[Known(TRUE)],
        after: &[And(2)],
        value: FALSE,
    },
    Around {
        before: &[],
        after: &[Known(TRUE), And(2)],
        value: FALSE,
    },
    Around {
        before: &[Known(FALSE)],
        after: &[Or(2)],
        value: FALSE,
    },
    Around {
        before: &[],
        after: &[Known(FALSE), Or(2)],
        value: FALSE,
    },
    Around {
        before: &[],
        after: &[Known(Number(1)), Known(Number(2)), If],
        value: Number(2),
    },
    Around {
        before: &[],
        after: &[All],
        value: FALSE,
    },
    Around {
        before: &[],
        after: &[One],
        value: FALSE,
    },
];

/// One for each place where a number belongs: the part counts as 0.
const AS_ZERO: [Around; 14] = [
    Around {
        before: &[],
        after: &[Known(Number(1)), Less],
        value: TRUE,
    },
    Around {
        before: &[],
        after: &[Known(Number(0)), Less],
        value: FALSE,
    },
    Around {
        before: &[Known(Number(-1))],
        after: &[Less],
        value: TRUE,
    },
    Around {
        before: &[Known(Number(0))],
        after: &[Less],
        value: FALSE,
    },
    Around {
        before: &[],
        after: &[Known(Number(5)), Arith(Add)],
        value: Number(5),
    },
    Around {
        before: &[Known(Number(5))],
        after: &[Arith(Add)],
        value: Number(5),
    },
    Around {
        before: &[],
        after: &[Known(Number(5)), Arith(Subtract)],
        value: Number(-5),
    },
    Around {
        before: &[Known(Number(5))],
        after: &[Arith(Subtract)],
        value: Number(5),
    },
    Around {
        before: &[],
        after: &[Known(Number(5)), Arith(Times)],
        value: Number(0),
    },
    Around {
        before: &[Known(Number(5))],
        after: &[Arith(Times)],
        value: Number(0),
    },
    Around {
        before: &[],
        after: &[Known(Number(5)), Arith(Divide)],
        value: Number(0),
    },
    Around {
        before: &[Known(Number(5))],
        after: &[Arith(Divide)],
        value: Number(0),
    },
    Around {
        before: &[],
        after: &[Known(Number(5)), Arith(Modulo)],
        value: Number(0),
    },
    Around {
        before: &[Known(Number(5))],
        after: &[Arith(Modulo)],
        value: Number(0),
    },
];

/// One for each place where an index belongs: the part counts as undefined.
const AS_NO_INDEX: [Around; 4] = [
    Around {
        before: &[],
        after: &[Read(P, 1)],
        value: UNDEFINED,
    },
    Around {
        before: &[],
        after: &[Read(H, 1)],
        value: UNDEFINED,
    },
    Around {
        before: &[Known(Node(1))],
        after: &[Read(M, 2)],
        value: UNDEFINED,
    },
    Around {
        before: &[],
        after: &[Known(Node(2)), Read(M, 2)],
        value: UNDEFINED,
    },
];

/// The values of the terms around a part.
fn check_around(
    rt: &impl Abort,
    alloc: Global,
    rows: &[Around],
    part: Value,
) -> Result<(), Memory> {
    for row in rows {
        let mut steps = Vec::new(alloc);
        steps.extend_from_slice(row.before)?;
        steps.push(Known(part))?;
        steps.extend_from_slice(row.after)?;
        let made = term(alloc, steps.as_slice())?;
        assert_eq!(rt; value(rt, alloc, 2, &made)?, row.value);
    }
    Ok(())
}

#[test]
fn parts_of_wrong_kinds(rt: HostRuntime) -> Result<(), Fail> {
    for part in [UNDEFINED, Number(1), A1, Node(1)] {
        check_around(&rt, rt.alloc(), &AS_FALSE, part)?;
    }
    for part in [UNDEFINED, TRUE, A1, Node(1)] {
        check_around(&rt, rt.alloc(), &AS_ZERO, part)?;
    }
    for part in [UNDEFINED, TRUE, Number(1), A1] {
        check_around(&rt, rt.alloc(), &AS_NO_INDEX, part)?;
    }
    Ok(())
}
