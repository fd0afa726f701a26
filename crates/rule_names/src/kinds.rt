//! The kinds of a typed protocol as a machine of terms has them: each with the printed names of its members.

ghost use Rattle.std.specs.Prelude.{◌≡◌, ◌<◌, map, IfOk, Some};
ghost use Rattle.murphi_typed.specs.Names.{member_text};
ghost use Rattle.rule_inline.specs.Machine.{member_count, named_kind};
ghost use Rattle.term_core.specs.Nodes.{nodes_from};

use murphi_typed::types::Kind;
use sqlite_items::Items;
use std::alloc::Global;
use term_core::machine::Kind as NamedKind;
use term_core::text::{Memory, Text};
use typed_names::values::add_member;

/// How many members a kind has.
fn member_count(kind: &Kind) -> u64
    ensures { result ≡ member_count kind.now }
{
    match kind {
        Kind::Listed { names } => names.as_slice().len() as u64,
        Kind::Scalarset { count, .. } => u64::from(*count),
    }
}

/// The printed name of a member of a kind.
fn member_name(alloc: Global, kind: &Kind, index: u64) -> Result<Text, Memory>
    requires { index < 18446744073709551615 }
    ensures { IfOk result (λ t. t ≡ member_text (Some kind.now) index) }
{
    let mut bytes: Vec<u8> = Vec::new(alloc);
    add_member(alloc, &mut bytes, kind, index)?;
    let text = Text::make(alloc, bytes.as_slice())?;
    Ok(text)
}

/// The printed names of all members of a kind, in order.
fn member_names(alloc: Global, kind: &Kind) -> Result<Items<Text>, Memory>
    ensures { IfOk result (λ ts. ts ≡ map (member_text (Some kind.now)) (nodes_from 0 (member_count kind.now))) }
{
    let mut names = Items::new(alloc);
    for index in 0..member_count(kind) {
        let name = member_name(alloc, kind, index)?;
        names.push(name)?;
    }
    Ok(names)
}

/// The kinds, each with the printed names of its members.
pub fn named_kinds(alloc: Global, kinds: &[Kind]) -> Result<Items<NamedKind>, Memory>
    ensures { IfOk result (λ ks. ks ≡ map named_kind kinds.now) }
{
    let mut out = Items::new(alloc);
    for kind in kinds {
        let names = member_names(alloc, kind)?;
        out.push(NamedKind { names })?;
    }
    Ok(out)
}
