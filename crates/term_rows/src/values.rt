//! Rows of terms on a small machine with 1, 2 and 3 nodes, worked out by hand.
use ArithOp::{Add, Divide, Modulo, Subtract, Times};
use Make::{All, And, Arith, If, Known, Less, Not, One, Or, Read, Same, Var};
use Value::{Member, Node, Number};
use sqlite_items::{Boxed, Items};
use std::alloc::Global;
use std::process::Abort;
use std::test::Fail;
use term_core::frame::Frame;
use term_core::machine::{CellFamily, TermMachine, copy_families};
use term_core::state::NodeState;
use term_core::substitute::substitute;
use term_core::term::{Term, copy_terms};
use term_core::text::{Memory, Text};
use term_core::value::{ArithOp, Sort, Value};

pub const UNDEFINED: Value = Value::Undefined;

pub const TRUE: Value = Value::Truth(true);

pub const FALSE: Value = Value::Truth(false);

/// The families of the machine: `p[]` of nodes, `x` from -2 to 5, `h[]` that is never undefined,
/// and `m[][]` of truth values.
pub const P: u32 = 0;

pub const X: u32 = 1;

pub const H: u32 = 2;

pub const M: u32 = 3;

/// A step that makes a term of those on top of a stack, the last on top.
#[derive(Clone, Copy)]
pub enum Make {
    Known(Value),
    Var(u32),
    Read(u32, usize),
    Not,
    And(usize),
    Or(usize),
    If,
    Same,
    Less,
    Arith(ArithOp),
    All,
    One,
}

/// Takes so many terms from the stack, in the order in which they were put.
fn take(alloc: Global, stack: &mut Items<Term>, count: usize) -> Result<Items<Term>, Memory> {
    let mut out = Items::new(alloc);
    let mut back = Items::new(alloc);
    for _ in 0..count {
        if let Some(t) = stack.pop() {
            back.push(t)?;
        }
    }
    for _ in 0..count {
        if let Some(t) = back.pop() {
            out.push(t)?;
        }
    }
    Ok(out)
}

/// Takes one term from the stack.
fn top(alloc: Global, stack: &mut Items<Term>) -> Result<Boxed<Term>, Memory> {
    let t = match stack.pop() {
        Some(t) => t,
        None => Term::Known(UNDEFINED),
    };
    let b = Boxed::new(alloc, t)?;
    Ok(b)
}

/// The term that a step makes.
fn made_by(alloc: Global, stack: &mut Items<Term>, step: Make) -> Result<Term, Memory> {
    match step {
        Make::Known(value) => Ok(Term::Known(value)),
        Make::Var(number) => Ok(Term::Var(number)),
        Make::Read(family, count) => Ok(Term::Read {
            family,
            at: take(alloc, stack, count)?,
        }),
        Make::Not => Ok(Term::Not(top(alloc, stack)?)),
        Make::And(count) => Ok(Term::And(take(alloc, stack, count)?)),
        Make::Or(count) => Ok(Term::Or(take(alloc, stack, count)?)),
        Make::If => {
            let no = top(alloc, stack)?;
            let yes = top(alloc, stack)?;
            let test = top(alloc, stack)?;
            Ok(Term::If { test, yes, no })
        }
        Make::Same => {
            let right = top(alloc, stack)?;
            let left = top(alloc, stack)?;
            Ok(Term::Same { left, right })
        }
        Make::Less => {
            let right = top(alloc, stack)?;
            let left = top(alloc, stack)?;
            Ok(Term::Less { left, right })
        }
        Make::Arith(op) => {
            let right = top(alloc, stack)?;
            let left = top(alloc, stack)?;
            Ok(Term::Arith { op, left, right })
        }
        Make::All => Ok(Term::Quantified {
            all: true,
            body: top(alloc, stack)?,
        }),
        Make::One => Ok(Term::Quantified {
            all: false,
            body: top(alloc, stack)?,
        }),
    }
}

/// The term that these steps make.
pub fn term(alloc: Global, steps: &[Make]) -> Result<Term, Memory> {
    let mut stack = Items::new(alloc);
    for step in steps {
        let made = made_by(alloc, &mut stack, *step)?;
        stack.push(made)?;
    }
    let only = top(alloc, &mut stack)?;
    Ok(only.into_inner())
}

pub fn family(
    alloc: Global,
    name: &[u8],
    sort: Sort,
    axes: u32,
    undefined: bool,
) -> Result<CellFamily, Memory> {
    let name = Text::make(alloc, name)?;
    Ok(CellFamily {
        name,
        sort,
        axes,
        undefined,
    })
}

pub fn machine(alloc: Global) -> Result<TermMachine, Memory> {
    let mut families = Items::new(alloc);
    families.push(family(alloc, b"p[]", Sort::Node, 1, true)?)?;
    families.push(family(alloc, b"x", Sort::Range { low: -2, high: 5 }, 0, true)?)?;
    families.push(family(alloc, b"h[]", Sort::Range { low: 0, high: 1 }, 1, false)?)?;
    families.push(family(alloc, b"m[][]", Sort::Truth, 2, true)?)?;
    Ok(TermMachine {
        kinds: Items::new(alloc),
        families,
        starts: Items::new(alloc),
        rules: Items::new(alloc),
    })
}

/// Gives a cell a value, if there is such a cell and it may have it.
pub fn put(state: &mut NodeState, family: u32, at: &[u32], value: Value) -> bool {
    if !state.has_cell(family, at) {
        return false;
    }
    if !state.may_have(family, value) {
        return false;
    }
    state.set(family, at, value);
    true
}

/// `p[1] = N`, `x = 3`, `h[1] = 1`, `m[1][N] = true`; all other cells are blank.
pub fn sample(rt: &impl Abort, alloc: Global, nodes: u32) -> Result<NodeState, Memory> {
    let machine = machine(alloc)?;
    let mut state = NodeState::make(alloc, &machine, nodes)?;
    let last = [1, nodes];
    assert!(rt; put(&mut state, P, &[1], Node(nodes)));
    assert!(rt; put(&mut state, X, &[], Number(3)));
    assert!(rt; put(&mut state, H, &[1], Number(1)));
    assert!(rt; put(&mut state, M, &last, TRUE));
    Ok(state)
}

/// No cells of the machine with two nodes, or values that they cannot have.
const REFUSED: [(u32, &[u32], Value); 9] = [
    (P, &[3], Node(1)),
    (P, &[0], Node(1)),
    (P, &[1], Node(3)),
    (P, &[1], Node(0)),
    (P, &[1, 1], Node(1)),
    (X, &[], Number(6)),
    (X, &[], TRUE),
    (H, &[1], UNDEFINED),
    (4, &[], TRUE),
];

/// The value of a term in the sample, with node 1 and node N as its variables.
pub fn value(rt: &impl Abort, alloc: Global, nodes: u32, t: &Term) -> Result<Value, Memory> {
    let state = sample(rt, alloc, nodes)?;
    let mut frame = Frame::make(alloc, 4)?;
    assert!(rt; frame.spare() == 4);
    frame.push(1);
    frame.push(nodes);
    assert!(rt; t.nests_within(frame.spare()));
    let value = t.value(&state, &mut frame);
    assert!(rt; frame.nodes() == [1, nodes].as_slice());
    assert!(rt; frame.spare() == 2);
    Ok(value)
}

/// The steps of a term and the values that it has with 1, 2 and 3 nodes.
#[derive(Clone, Copy)]
struct Row {
    steps: &'static [Make],
    values: [Value; 3],
}

pub const A1: Value = Member { kind: 0, index: 1 };

const A2: Value = Member { kind: 0, index: 2 };

const B1: Value = Member { kind: 1, index: 1 };

/// Constants, variables and reads.
const READS: [Row; 21] = [
    Row {
        steps: &[Known(UNDEFINED)],
        values: [UNDEFINED, UNDEFINED, UNDEFINED],
    },
    Row {
        steps: &[Known(Number(-7))],
        values: [Number(-7), Number(-7), Number(-7)],
    },
    Row {
        steps: &[Var(0)],
        values: [Node(1), Node(1), Node(1)],
    },
    Row {
        steps: &[Var(1)],
        values: [Node(1), Node(2), Node(3)],
    },
    Row {
        steps: &[Var(2)],
        values: [UNDEFINED, UNDEFINED, UNDEFINED],
    },
    Row {
        steps: &[Read(X, 0)],
        values: [Number(3), Number(3), Number(3)],
    },
    Row {
        steps: &[Var(0), Read(P, 1)],
        values: [Node(1), Node(2), Node(3)],
    },
    Row {
        steps: &[Var(0), Read(P, 1), Read(P, 1)],
        values: [Node(1), UNDEFINED, UNDEFINED],
    },
    Row {
        steps: &[Var(0), Read(H, 1)],
        values: [Number(1), Number(1), Number(1)],
    },
    Row {
        steps: &[Known(Node(2)), Read(H, 1)],
        values: [UNDEFINED, Number(0), Number(0)],
    },
    Row {
        steps: &[Known(UNDEFINED), Read(H, 1)],
        values: [UNDEFINED, UNDEFINED, UNDEFINED],
    },
    Row {
        steps: &[Known(Number(1)), Read(H, 1)],
        values: [UNDEFINED, UNDEFINED, UNDEFINED],
    },
    Row {
        steps: &[Known(TRUE), Read(H, 1)],
        values: [UNDEFINED, UNDEFINED, UNDEFINED],
    },
    Row {
        steps: &[Known(Node(0)), Read(H, 1)],
        values: [UNDEFINED, UNDEFINED, UNDEFINED],
    },
    Row {
        steps: &[Known(Node(4)), Read(H, 1)],
        values: [UNDEFINED, UNDEFINED, UNDEFINED],
    },
    Row {
        steps: &[Var(0), Read(4, 1)],
        values: [UNDEFINED, UNDEFINED, UNDEFINED],
    },
    Row {
        steps: &[Var(0), Read(X, 1)],
        values: [UNDEFINED, UNDEFINED, UNDEFINED],
    },
    Row {
        steps: &[Var(0), Read(M, 1)],
        values: [UNDEFINED, UNDEFINED, UNDEFINED],
    },
    Row {
        steps: &[Var(0), Var(1), Read(M, 2)],
        values: [TRUE, TRUE, TRUE],
    },
    Row {
        steps: &[Var(1), Var(0), Read(M, 2)],
        values: [TRUE, UNDEFINED, UNDEFINED],
    },
    Row {
        steps: &[Var(0), Known(TRUE), Read(M, 2)],
        values: [UNDEFINED, UNDEFINED, UNDEFINED],
    },
];

/// Connectives, choices and comparisons, with parts of wrong kinds.
const TRUTHS: [Row; 26] = [
    Row {
        steps: &[Known(TRUE), Not],
        values: [FALSE, FALSE, FALSE],
    },
    Row {
        steps: &[Known(UNDEFINED), Not],
        values: [TRUE, TRUE, TRUE],
    },
    Row {
        steps: &[Known(Number(1)), Not],
        values: [TRUE, TRUE, TRUE],
    },
    Row {
        steps: &[And(0)],
        values: [TRUE, TRUE, TRUE],
    },
    Row {
        steps: &[Or(0)],
        values: [FALSE, FALSE, FALSE],
    },
    Row {
        steps: &[Known(TRUE), Known(TRUE), And(2)],
        values: [TRUE, TRUE, TRUE],
    },
    Row {
        steps: &[Known(TRUE), Known(Number(1)), And(2)],
        values: [FALSE, FALSE, FALSE],
    },
    Row {
        steps: &[Known(UNDEFINED), Known(TRUE), And(2)],
        values: [FALSE, FALSE, FALSE],
    },
    Row {
        steps: &[Known(UNDEFINED), Known(TRUE), Or(2)],
        values: [TRUE, TRUE, TRUE],
    },
    Row {
        steps: &[Known(Node(1)), Known(FALSE), Or(2)],
        values: [FALSE, FALSE, FALSE],
    },
    Row {
        steps: &[Known(TRUE), Known(Number(1)), Known(Number(2)), If],
        values: [Number(1), Number(1), Number(1)],
    },
    Row {
        steps: &[Known(UNDEFINED), Known(Number(1)), Known(TRUE), If],
        values: [TRUE, TRUE, TRUE],
    },
    Row {
        steps: &[Known(UNDEFINED), Known(UNDEFINED), Same],
        values: [TRUE, TRUE, TRUE],
    },
    Row {
        steps: &[Known(UNDEFINED), Known(Number(0)), Same],
        values: [FALSE, FALSE, FALSE],
    },
    Row {
        steps: &[Known(Number(0)), Known(FALSE), Same],
        values: [FALSE, FALSE, FALSE],
    },
    Row {
        steps: &[Known(Number(-1)), Known(Number(-1)), Same],
        values: [TRUE, TRUE, TRUE],
    },
    Row {
        steps: &[Known(A1), Known(A1), Same],
        values: [TRUE, TRUE, TRUE],
    },
    Row {
        steps: &[Known(A1), Known(B1), Same],
        values: [FALSE, FALSE, FALSE],
    },
    Row {
        steps: &[Known(A1), Known(A2), Same],
        values: [FALSE, FALSE, FALSE],
    },
    Row {
        steps: &[Var(0), Var(1), Same],
        values: [TRUE, FALSE, FALSE],
    },
    Row {
        steps: &[Known(Number(1)), Known(Number(2)), Less],
        values: [TRUE, TRUE, TRUE],
    },
    Row {
        steps: &[Known(Number(2)), Known(Number(2)), Less],
        values: [FALSE, FALSE, FALSE],
    },
    Row {
        steps: &[Known(Number(-2)), Known(Number(1)), Less],
        values: [TRUE, TRUE, TRUE],
    },
    Row {
        steps: &[Var(0), Var(1), Less],
        values: [FALSE, FALSE, FALSE],
    },
    Row {
        steps: &[Known(UNDEFINED), Known(Number(1)), Less],
        values: [TRUE, TRUE, TRUE],
    },
    Row {
        steps: &[Known(TRUE), Known(Number(0)), Less],
        values: [FALSE, FALSE, FALSE],
    },
];

/// The first quantifier binds variable 2, one inside it variable 3.
const QUANTIFIERS: [Row; 9] = [
    Row {
        steps: &[Var(2), Read(H, 1), Known(Number(1)), Same, All],
        values: [TRUE, FALSE, FALSE],
    },
    Row {
        steps: &[Var(2), Read(H, 1), Known(Number(1)), Same, One],
        values: [TRUE, TRUE, TRUE],
    },
    Row {
        steps: &[Var(2), Var(1), Same, Not, All],
        values: [FALSE, FALSE, FALSE],
    },
    Row {
        steps: &[Var(2), Var(1), Same, One],
        values: [TRUE, TRUE, TRUE],
    },
    Row {
        steps: &[Known(Number(1)), All],
        values: [FALSE, FALSE, FALSE],
    },
    Row {
        steps: &[Var(2), Var(3), Read(M, 2), One, All],
        values: [TRUE, FALSE, FALSE],
    },
    Row {
        steps: &[Var(2), Var(3), Read(M, 2), All, One],
        values: [TRUE, FALSE, FALSE],
    },
    Row {
        steps: &[Var(2), Var(3), Read(M, 2), One, One],
        values: [TRUE, TRUE, TRUE],
    },
    Row {
        steps: &[Var(2), Var(3), Same, All, All],
        values: [TRUE, FALSE, FALSE],
    },
];

fn check(rt: &impl Abort, alloc: Global, rows: &[Row]) -> Result<(), Memory> {
    for row in rows {
        let made = term(alloc, row.steps)?;
        let copied = made.copy(alloc)?;
        let [first, second, third] = row.values;
        assert_eq!(rt; value(rt, alloc, 1, &made)?, first);
        assert_eq!(rt; value(rt, alloc, 2, &made)?, second);
        assert_eq!(rt; value(rt, alloc, 3, &copied)?, third);
    }
    Ok(())
}

#[test]
fn terms_have_their_values(rt: HostRuntime) -> Result<(), Fail> {
    let alloc = rt.alloc();
    check(&rt, alloc, &READS)?;
    check(&rt, alloc, &TRUTHS)?;
    check(&rt, alloc, &QUANTIFIERS)?;
    Ok(())
}

/// Operators on two numbers, or values of a wrong kind, and their results.
const NUMBERS: [(ArithOp, Value, Value, i16); 18] = [
    (Add, Number(2), Number(3), 5),
    (Add, Number(32767), Number(1), 0),
    (Add, TRUE, Number(5), 5),
    (Subtract, Number(2), Number(3), -1),
    (Subtract, Number(-32768), Number(1), 0),
    (Subtract, UNDEFINED, Number(7), -7),
    (Times, Number(181), Number(181), 32761),
    (Times, Number(200), Number(200), 0),
    (Times, Node(2), Number(3), 0),
    (Divide, Number(7), Number(2), 3),
    (Divide, Number(-7), Number(2), -3),
    (Divide, Number(7), Number(0), 0),
    (Divide, Number(7), UNDEFINED, 0),
    (Divide, Number(-32768), Number(-1), 0),
    (Modulo, Number(7), Number(-2), 1),
    (Modulo, Number(-7), Number(2), -1),
    (Modulo, Number(7), Number(0), 0),
    (Modulo, Number(-32768), Number(-1), 0),
];

#[test]
fn operators_have_their_results(rt: HostRuntime) -> Result<(), Fail> {
    for (op, left, right, result) in NUMBERS {
        let made = term(rt.alloc(), &[Known(left), Known(right), Arith(op)])?;
        assert_eq!(rt; value(&rt, rt.alloc(), 2, &made)?, Number(result));
    }
    Ok(())
}

/// The cells in order with two nodes: `p[1] p[2] x h[1] h[2] m[1][1] m[1][2] m[2][1] m[2][2]`.
const CELLS: [Value; 9] = [
    Node(2),
    UNDEFINED,
    Number(3),
    Number(1),
    Number(0),
    UNDEFINED,
    TRUE,
    UNDEFINED,
    UNDEFINED,
];

fn check_cells(rt: &impl Abort, state: &mut NodeState) {
    for (family, at, value) in REFUSED {
        assert!(rt; !put(state, family, at, value));
    }
    assert_eq!(rt; state.values(), CELLS.as_slice());
    assert_eq!(rt; state.value(M, &[1, 2]), TRUE);
    assert_eq!(rt; state.value(M, &[1, 3]), UNDEFINED);
}

#[test]
fn cells_stand_in_their_order(rt: HostRuntime) -> Result<(), Fail> {
    let mut state = sample(&rt, rt.alloc(), 2)?;
    check_cells(&rt, &mut state);
    Ok(())
}

#[test]
fn families_have_copies(rt: HostRuntime) -> Result<(), Fail> {
    let state = sample(&rt, rt.alloc(), 2)?;
    let families = copy_families(rt.alloc(), state.families())?;
    assert_eq!(rt; families.len(), 4);
    Ok(())
}

#[test]
fn texts_have_copies(rt: HostRuntime) -> Result<(), Fail> {
    let name = Text::make(rt.alloc(), b"Chan[].Cmd")?;
    assert_eq!(rt; name.copy(rt.alloc())?.bytes(), b"Chan[].Cmd".as_slice());
    Ok(())
}

/// What comes in place of a variable of a term, with the values of the answer with 1, 2 and 3 nodes.
#[derive(Clone, Copy)]
struct Change {
    steps: &'static [Make],
    var: u32,
    by: &'static [Make],
    values: [Value; 3],
}

/// In frames of two variables, node 1 and node N; the quantifiers bind variables 2 and 3.
const CHANGES: [Change; 5] = [
    Change {
        steps: &[Var(0), Var(1), Same],
        var: 0,
        by: &[Var(1)],
        values: [TRUE, TRUE, TRUE],
    },
    // variable 0 does not occur
    Change {
        steps: &[Var(1), Read(H, 1)],
        var: 0,
        by: &[Var(1)],
        values: [Number(1), Number(0), Number(0)],
    },
    // some i, all j: i = v0 and (j = v1 or j = j), with p[v0] for v0
    Change {
        steps: &[
            Var(2),
            Var(0),
            Same,
            Var(3),
            Var(1),
            Same,
            Var(3),
            Var(3),
            Same,
            Or(2),
            And(2),
            All,
            One,
        ],
        var: 0,
        by: &[Var(0), Read(P, 1)],
        values: [TRUE, TRUE, TRUE],
    },
    // all i, some j: h[v0] = 1 and i = j, with p[v0] for v0
    Change {
        steps: &[
            Var(0),
            Read(H, 1),
            Known(Number(1)),
            Same,
            Var(2),
            Var(3),
            Same,
            And(2),
            One,
            All,
        ],
        var: 0,
        by: &[Var(0), Read(P, 1)],
        values: [TRUE, FALSE, FALSE],
    },
    // all i: i = v1 or v1 = 1, with "if some i is not v0 then v0 else v1" for v1
    Change {
        steps: &[
            Var(2),
            Var(1),
            Same,
            Var(1),
            Known(Node(1)),
            Same,
            Or(2),
            All,
        ],
        var: 1,
        by: &[Var(2), Var(0), Same, Not, One, Var(0), Var(1), If],
        values: [TRUE, TRUE, TRUE],
    },
];

/// The answer, where the two terms are for frames of two variables.
fn changed(rt: &impl Abort, alloc: Global, change: Change) -> Result<Term, Memory> {
    let made = term(alloc, change.steps)?;
    let by = term(alloc, change.by)?;
    assert!(rt; change.var < 2);
    assert!(rt; made.free_variables() <= 2);
    assert!(rt; by.free_variables() <= 2);
    let out = substitute(alloc, &made, 2, change.var, &by)?;
    Ok(out)
}

#[test]
fn terms_stand_for_variables(rt: HostRuntime) -> Result<(), Fail> {
    let alloc = rt.alloc();
    for change in CHANGES {
        let out = changed(&rt, alloc, change)?;
        let [first, second, third] = change.values;
        assert_eq!(rt; value(&rt, alloc, 1, &out)?, first);
        assert_eq!(rt; value(&rt, alloc, 2, &out)?, second);
        assert_eq!(rt; value(&rt, alloc, 3, &out)?, third);
    }
    let all = copy_terms(alloc, &[Term::Known(TRUE), Term::Var(3)])?;
    assert_eq!(rt; all.len(), 2);
    Ok(())
}
