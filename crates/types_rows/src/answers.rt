//! What is wanted of a text or of a lemma, and what typing answers.

use murphi_ast::expr::Expr;
use murphi_ast::rule::Protocol;
use murphi_ast::text::{Memory, Text};
use murphi_ast::token::Span;
use murphi_expressions::expression::expression;
use murphi_lex::tokens;
use murphi_protocols::protocol;
use murphi_typed::protocol::{Typed, TypedFormula};
use murphi_types::fault::Quantity;
use std::alloc::{AllocError, Global};
use type_texts::formula::type_formula;
use type_texts::protocol::type_protocol;
use type_texts::refusal::TypeRefusal;

/// What is wanted: that it is typed, or how it is refused. A place is a column of the row's line.
#[derive(Debug, Clone, Copy, PartialEq, Eq)]
pub enum Want {
    Typed,
    E05(u32),
    E06(u32),
    E07(u32),
    E08(u32),
    E09,
    E10(u32),
    E11(u32),
    E13,
    E14(u32),
    /// A limit: the quantity, how much there is of it, and the limit.
    E16(Quantity, u64, u64),
    /// It is refused on another line, or is not read at all.
    Elsewhere,
    Memory,
}

/// What stands around a row: whole lines before it, and what is before it on the line above and behind it on the line
/// below. The name that is given to the node type is none where it is empty.
#[derive(Clone, Copy)]
pub struct Around<'a> {
    pub node: &'a [u8],
    pub declared: &'a [u8],
    pub before: &'a [u8],
    pub behind: &'a [u8],
}

/// Nothing around a row.
pub const ALONE: Around<'static> = Around {
    node: b"",
    declared: b"",
    before: b"",
    behind: b"",
};

/// A row of declarations.
pub const DECLARED: Around<'static> = Around {
    node: b"",
    declared: b"",
    before: b"",
    behind: b"startstate end",
};

/// A row of items.
pub const ITEM: Around<'static> = Around {
    node: b"",
    declared: b"",
    before: b"",
    behind: b"; startstate end",
};

/// A whole text with a name for its node type.
pub const NODES: Around<'static> = Around {
    node: b"NODE",
    declared: b"",
    before: b"",
    behind: b"",
};

/// A row of items behind a few declarations.
pub const FEW: Around<'static> = Around {
    node: b"NODE",
    declared: b"",
    before: b"type NODE : scalarset(2); T : 0..9; var b : boolean;",
    behind: b"; startstate end",
};

/// Declarations of all kinds.
const WORLD: &[u8] = b"const C : 3;
type NODE : scalarset(2); E : enum { A, B }; S : scalarset(2); T : 0..3;
  R : record f : boolean; g : 0..3 end;
var b, c : boolean; x, y : 0..3; z : -2..5; e : E; s : S; n : NODE; r, q : R;
  a : array [0..1] of boolean; m : array [E] of R; w : array [NODE] of boolean;
function F(v : 0..3) : boolean; return v = 1; end;
function K() : 0..3; return 2; end;
procedure P(var v : boolean); v := true; end;
procedure Q(var v : 0..3); v := 1; end;
procedure O(v : R; w : 0..3); end;
function N() : boolean; return exists i : NODE do w[i] end; end;
function M(v : boolean) : boolean; return exists i : NODE do v & w[i] end; end;
";

/// A row is a type.
pub const TYPE: Around<'static> = Around {
    node: b"NODE",
    declared: WORLD,
    before: b"var t :",
    behind: b"; startstate end",
};

/// A row is an expression.
pub const EXPRESSION: Around<'static> = Around {
    node: b"NODE",
    declared: WORLD,
    before: b"invariant",
    behind: b"; startstate end",
};

/// A row of items.
pub const ITEMS: Around<'static> = Around {
    node: b"NODE",
    declared: WORLD,
    before: b"",
    behind: b"; startstate end",
};

/// A row is the body of a procedure.
pub const WEIGHED: Around<'static> = Around {
    node: b"NODE",
    declared: WORLD,
    before: b"procedure G();",
    behind: b"end; startstate end",
};

/// A row of statements of a rule.
pub const IN_RULE: Around<'static> = Around {
    node: b"NODE",
    declared: WORLD,
    before: b"ruleset i : 0..3; j : NODE do rule b ==>",
    behind: b"end end; startstate end",
};

/// A row of statements of a procedure.
pub const IN_PROCEDURE: Around<'static> = Around {
    node: b"NODE",
    declared: WORLD,
    before: b"procedure G(u : 0..3; var l : 0..3; h : R; var k : boolean);",
    behind: b"end; startstate end",
};

/// A row of statements of a function.
pub const IN_FUNCTION: Around<'static> = Around {
    node: b"NODE",
    declared: WORLD,
    before: b"function G(u : 0..3) : 0..3;",
    behind: b"; return 1; end; startstate end",
};

fn place(line: u32, at: Span, want: Want) -> Want {
    if at.line == line {
        want
    } else {
        Want::Elsewhere
    }
}

/// A refusal, where its place is on the row's line.
fn refused(line: u32, why: TypeRefusal) -> Want {
    match why {
        TypeRefusal::E05(at) => place(line, at, Want::E05(at.column)),
        TypeRefusal::E06(at) => place(line, at, Want::E06(at.column)),
        TypeRefusal::E07(at) => place(line, at, Want::E07(at.column)),
        TypeRefusal::E08(at) => place(line, at, Want::E08(at.column)),
        TypeRefusal::E09 => Want::E09,
        TypeRefusal::E10(at) => place(line, at, Want::E10(at.column)),
        TypeRefusal::E11(at) => place(line, at, Want::E11(at.column)),
        TypeRefusal::E13 => Want::E13,
        TypeRefusal::E14(at) => place(line, at, Want::E14(at.column)),
        TypeRefusal::E16 {
            quantity,
            count,
            limit,
        } => Want::E16(quantity, count, limit),
        TypeRefusal::Memory => Want::Memory,
    }
}

/// The tree of a text, if it is read.
pub fn tree_of(alloc: Global, text: &[u8]) -> Option<Protocol> {
    match tokens(alloc, text) {
        Ok(all) => match protocol(alloc, &all) {
            Ok(tree) => Some(tree),
            Err(_) => None,
        },
        Err(_) => None,
    }
}

/// The tree of an expression, if it is read.
fn lemma_of(alloc: Global, text: &[u8]) -> Option<Expr> {
    match tokens(alloc, text) {
        Ok(all) => {
            if all.is_empty() {
                return None;
            }
            match expression(alloc, &all, 0) {
                Ok((tree, _)) => Some(tree),
                Err(_) => None,
            }
        }
        Err(_) => None,
    }
}

/// The name that is given to the node type, if one is.
fn node_of(alloc: Global, name: &[u8]) -> Result<Option<Text>, Memory> {
    if name.is_empty() {
        return Ok(None);
    }
    let name = Text::make(alloc, name)?;
    Ok(Some(name))
}

/// The typed protocol of a text, or how it is refused, with its row on this line.
pub fn typed(alloc: Global, node: &[u8], text: &[u8], line: u32) -> Result<Typed, Want> {
    let name = match node_of(alloc, node) {
        Ok(name) => name,
        Err(_) => return Err(Want::Memory),
    };
    match tree_of(alloc, text) {
        None => Err(Want::Elsewhere),
        Some(tree) => match type_protocol(alloc, &tree, name) {
            Ok(typed) => Ok(typed),
            Err(why) => Err(refused(line, why)),
        },
    }
}

/// The text of a row, and the line that the row stands on.
fn text_of(alloc: Global, around: &Around, row: &[u8]) -> Result<(Vec<u8>, u32), AllocError> {
    let mut text = Vec::from_slice(alloc, around.declared)?;
    text.extend_from_slice(around.before)?;
    let mut line: u32 = 2;
    for byte in around.declared {
        if *byte == b'\n' {
            line = line.saturating_add(1);
        }
    }
    text.push(b'\n')?;
    text.extend_from_slice(row)?;
    text.push(b'\n')?;
    text.extend_from_slice(around.behind)?;
    Ok((text, line))
}

/// The typed protocol of a row, or how it is refused.
pub fn typed_row(alloc: Global, around: &Around, row: &[u8]) -> Result<Typed, Want> {
    match text_of(alloc, around, row) {
        Err(_) => Err(Want::Memory),
        Ok((text, line)) => typed(alloc, around.node, &text, line),
    }
}

/// What is answered of a row.
pub fn answer(alloc: Global, around: &Around, row: &[u8]) -> Want {
    match typed_row(alloc, around, row) {
        Ok(_) => Want::Typed,
        Err(want) => want,
    }
}

/// The first row that is answered otherwise, if there is one.
pub fn wrong(alloc: Global, around: &Around, rows: &[(&[u8], Want)]) -> Option<usize> {
    for (i, (text, want)) in rows.iter().enumerate() {
        if answer(alloc, around, text) != *want {
            return Some(i);
        }
    }
    None
}

/// The declarations of the world, typed.
pub fn world(alloc: Global) -> Result<Typed, Want> {
    typed_row(alloc, &TYPE, b"boolean")
}

/// The typed lemma of a row, or how it is refused.
pub fn lemma(alloc: Global, protocol: &Typed, row: &[u8]) -> Result<TypedFormula, Want> {
    match lemma_of(alloc, row) {
        None => Err(Want::Elsewhere),
        Some(tree) => match type_formula(alloc, protocol, &tree) {
            Ok(formula) => Ok(formula),
            Err(why) => Err(refused(1, why)),
        },
    }
}
