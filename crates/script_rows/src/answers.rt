//! What is wanted of a script, and what reading it answers.

use murphi_ast::text::Text;
use murphi_lex::tokens;
use murphi_protocols::protocol;
use murphi_typed::protocol::Typed;
use murphi_typed::types::Kind;
use run_scripts::read::script;
use run_scripts::refusal::{Line, ScriptRefusal};
use std::alloc::Global;
use term_core::value::Value;
use type_texts::protocol::type_protocol;
use typed_names::values::{add_bytes, add_value};

/// What is wanted: so many lines, or the place where the script is refused.
#[derive(Debug, Clone, Copy, PartialEq, Eq)]
pub enum Want {
    Lines(usize),
    E02(u32, u32),
    E03(u32, u32),
    E19(u32, u32),
    /// The protocol is not typed.
    NoText,
    Memory,
}

/// The protocol of the rows. Its rules are numbered from 0 as `R` 0, `Up` 1, `N` 2, `C` 3, `D` 4, `#6` 5, `Q` 6, `U` 7.
pub const PROTOCOL: &[u8] =
    b"type NODE : scalarset(3); D : scalarset(2); C : enum { red, green, K1 };
var a : array [NODE] of boolean;
startstate \"S0\" clear a end;
ruleset i : NODE do startstate \"S1\" clear a end end;
ruleset z : -2..3 do rule \"R\" true ==> clear a end end;
ruleset z : 1..3 do rule \"Up\" true ==> clear a end end;
ruleset i : NODE do rule \"N\" true ==> clear a end end;
ruleset c : C; b : boolean do rule \"C\" true ==> clear a end end;
ruleset i : NODE; d : D do rule \"D\" true ==> clear a end end;
rule true ==> clear a end;
rule \"Q\" true ==> clear a end;
ruleset u : scalarset(2) do rule \"U\" true ==> clear a end end;
";

/// A protocol without rules.
pub const WITHOUT_RULES: &[u8] = b"var a : boolean; startstate \"S0\" clear a end;";

/// The typed text; no node type is named where the name is empty.
fn typed(alloc: Global, node: &[u8], text: &[u8]) -> Option<Typed> {
    let Ok(all) = tokens(alloc, text) else {
        return None;
    };
    let Ok(tree) = protocol(alloc, &all) else {
        return None;
    };
    let Ok(name) = Text::make(alloc, node) else {
        return None;
    };
    let node = if node.is_empty() { None } else { Some(name) };
    match type_protocol(alloc, &tree, node) {
        Ok(typed) => Some(typed),
        Err(_) => None,
    }
}

/// What is answered of a script for two nodes.
pub fn answer(alloc: Global, node: &[u8], text: &[u8], bytes: &[u8]) -> Want {
    match typed(alloc, node, text) {
        None => Want::NoText,
        Some(typed) => match script(alloc, &typed, 2, bytes) {
            Ok(lines) => Want::Lines(lines.as_slice().len()),
            Err(ScriptRefusal::E02(at)) => Want::E02(at.line, at.column),
            Err(ScriptRefusal::E03(at)) => Want::E03(at.line, at.column),
            Err(ScriptRefusal::E19(at)) => Want::E19(at.line, at.column),
            Err(ScriptRefusal::Memory) => Want::Memory,
        },
    }
}

/// The first row that is answered otherwise, if there is one.
pub fn wrong(alloc: Global, node: &[u8], text: &[u8], rows: &[(&[u8], Want)]) -> Option<usize> {
    for (i, (bytes, want)) in rows.iter().enumerate() {
        if answer(alloc, node, text, bytes) != *want {
            return Some(i);
        }
    }
    None
}

/// The values of a line as they are printed, each behind a space.
fn printed(alloc: Global, kinds: &[Kind], values: &[Value]) -> Option<Vec<u8>> {
    let mut out: Vec<u8> = Vec::new(alloc);
    for value in values {
        if add_bytes(&mut out, b" ").is_err() {
            return None;
        }
        if add_value(alloc, &mut out, kinds, *value).is_err() {
            return None;
        }
    }
    Some(out)
}

/// Whether a line has this number and these values.
fn is_line(alloc: Global, kinds: &[Kind], line: &Line, which: usize, values: &[u8]) -> bool {
    match printed(alloc, kinds, line.values.as_slice()) {
        None => false,
        Some(out) => line.which == which && out.as_slice() == values,
    }
}

/// The first line of a script for two nodes that says something else, if there is one; 100 where it is refused or
/// has another number of lines.
pub fn unlike(alloc: Global, bytes: &[u8], wanted: &[(usize, &[u8])]) -> Option<usize> {
    let Some(typed) = typed(alloc, b"NODE", PROTOCOL) else {
        return Some(100);
    };
    let Ok(lines) = script(alloc, &typed, 2, bytes) else {
        return Some(100);
    };
    let lines = lines.as_slice();
    if lines.len() != wanted.len() {
        return Some(100);
    }
    for (i, (which, values)) in wanted.iter().enumerate() {
        if !is_line(alloc, typed.kinds.as_slice(), &lines[i], *which, values) {
            return Some(i);
        }
    }
    None
}
