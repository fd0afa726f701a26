//! Values and members of kinds, written behind a text.

ghost use Rattle.std.specs.Prelude.{◌≡◌, ◌++◌, ◌<◌, OnOk, Some};
ghost use Rattle.std.specs.Fmt.{decimal, signed_decimal};
ghost use Rattle.murphi_typed.specs.Names.{enum_text, scalarset_text, member_text, value_text};

use crate::doubtful::is_doubtful;
use murphi_ast::text::Text;
use murphi_typed::types::Kind;
use std::alloc::Global;
use term_core::text::Memory;
use term_core::value::Value;

/// Writes bytes behind others.
pub fn add_bytes(out: &mut Vec<u8>, bytes: &[u8]) -> Result<(), Memory>
    ensures { OnOk result (out.new.items ≡ out.old.items ++ bytes.now) }
{
    out.extend_from_slice(bytes)?;
    Ok(())
}

/// Writes a number in decimal behind other bytes.
pub fn add_number(alloc: Global, out: &mut Vec<u8>, number: u64) -> Result<(), Memory>
    ensures { OnOk result (out.new.items ≡ out.old.items ++ decimal number) }
{
    let text = format!(in alloc; "{number}")?;
    add_bytes(out, text.as_str().as_bytes())
}

/// Writes a number in decimal behind other bytes, with `-` in front where it is negative.
fn add_signed(alloc: Global, out: &mut Vec<u8>, number: i16) -> Result<(), Memory>
    ensures { OnOk result (out.new.items ≡ out.old.items ++ signed_decimal number) }
{
    let text = format!(in alloc; "{number}")?;
    add_bytes(out, text.as_str().as_bytes())
}

/// Writes an enum name, behind an apostrophe where it could be read as another value.
pub fn add_enum(out: &mut Vec<u8>, name: &[u8]) -> Result<(), Memory>
    ensures { OnOk result (out.new.items ≡ out.old.items ++ enum_text name.now) }
{
    if !is_doubtful(name) {
        return add_bytes(out, name);
    }
    out.push(39)?;
    add_bytes(out, name)
}

/// Writes the name that stands for a scalarset in front of its members.
fn add_scalarset(out: &mut Vec<u8>, name: &Option<Text>) -> Result<(), Memory>
    ensures { OnOk result (out.new.items ≡ out.old.items ++ scalarset_text name.now) }
{
    match name {
        Some(name) => add_bytes(out, name.bytes()),
        None => add_bytes(out, b"scalarset"),
    }
}

/// Writes a member of a kind, counted from 0: an enum name, or `T_k` for member k of the scalarset T, from 1.
pub fn add_member(alloc: Global, out: &mut Vec<u8>, kind: &Kind, index: u64) -> Result<(), Memory>
    requires { index < 18446744073709551615 }
    ensures { OnOk result (out.new.items ≡ out.old.items ++ member_text (Some kind.now) index) }
{
    match kind {
        Kind::Listed { names } => {
            let names = names.as_slice();
            if index as usize >= names.len() {
                return Ok(());
            }
            add_enum(out, names[index as usize].bytes())
        }
        Kind::Scalarset { name, .. } => {
            add_scalarset(out, name)?;
            out.push(95)?;
            add_number(alloc, out, index + 1)
        }
    }
}

/// Writes a value as it is printed; a node is its number.
pub fn add_value(
    alloc: Global,
    out: &mut Vec<u8>,
    kinds: &[Kind],
    value: Value,
) -> Result<(), Memory>
    ensures { OnOk result (out.new.items ≡ out.old.items ++ value_text kinds.now value) }
{
    match value {
        Value::Undefined => add_bytes(out, b"undefined"),
        Value::Truth(true) => add_bytes(out, b"true"),
        Value::Truth(false) => add_bytes(out, b"false"),
        Value::Number(number) => add_signed(alloc, out, number),
        Value::Member { kind, index } => {
            if kind as usize >= kinds.len() {
                return Ok(());
            }
            add_member(alloc, out, &kinds[kind as usize], u64::from(index))
        }
        Value::Node(n) => add_number(alloc, out, n as u64),
    }
}
