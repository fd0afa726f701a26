//! The families of cells as a machine of terms has them: each with its printed name, what its cells hold and
//! how many node indices it has.

ghost use Rattle.std.specs.Prelude.{◌≡◌, ◌++◌, map, IfOk, OnOk};
ghost use Rattle.rule_inline.specs.Machine.{way_name, family_name, cell_family};
ghost use Rattle.rule_parts.specs.Seen.{seen_step, seen_family};
ghost use Rattle.rule_names.specs.Texts.{index_text};

use murphi_typed::protocol::Typed;
use murphi_typed::types::Kind;
use rule_parts::family::{Family, Step};
use rule_parts::place::holes;
use sqlite_items::Items;
use std::alloc::Global;
use term_core::machine::CellFamily;
use term_core::text::{Memory, Text};
use term_core::value::Value;
use typed_names::values::{add_bytes, add_value};

/// Writes an index: `[v]`, or `[]` for a node.
fn add_index(
    alloc: Global,
    out: &mut Vec<u8>,
    kinds: &[Kind],
    part: Option<Value>,
) -> Result<(), Memory>
    ensures { OnOk result (out.new.items ≡ out.old.items ++ index_text kinds.now part) }
{
    out.push(91)?;
    match part {
        None => {}
        Some(value) => add_value(alloc, out, kinds, value)?,
    }
    out.push(93)?;
    Ok(())
}

/// Writes a way down behind the name of a variable. It goes as deep as the way is long, which is how deep
/// the type of the variable nests.
fn add_way(
    alloc: Global,
    out: &mut Vec<u8>,
    kinds: &[Kind],
    steps: &[Step],
    key: &[Option<Value>],
) -> Result<(), Memory>
    ensures { OnOk result (out.new.items ≡ out.old.items ++ way_name kinds.now (map seen_step steps.now) key.now) }
{
    if steps.is_empty() {
        return Ok(());
    }
    match &steps[0] {
        Step::Into(name) => {
            out.push(46)?;
            add_bytes(out, name.bytes())?;
            add_way(alloc, out, kinds, &steps[1..], key)
        }
        Step::Over(_) => {
            if key.is_empty() {
                return Ok(());
            }
            add_index(alloc, out, kinds, key[0])?;
            add_way(alloc, out, kinds, &steps[1..], &key[1..])
        }
    }
}

/// The printed name of a family: that of its global, and the way down with `[]` for a node index.
fn family_name(alloc: Global, typed: &Typed, family: &Family) -> Result<Text, Memory>
    ensures { IfOk result (λ t. t ≡ family_name typed.now (seen_family family.now)) }
{
    let mut bytes: Vec<u8> = Vec::new(alloc);
    let globals = typed.globals.as_slice();
    if (family.global as usize) < globals.len() {
        add_bytes(&mut bytes, globals[family.global as usize].name.bytes())?;
    }
    add_way(
        alloc,
        &mut bytes,
        typed.kinds.as_slice(),
        family.steps.as_slice(),
        family.key.as_slice(),
    )?;
    let text = Text::make(alloc, bytes.as_slice())?;
    Ok(text)
}

/// A family as the machine has it. Every cell of a protocol may be undefined.
fn cell_family(alloc: Global, typed: &Typed, family: &Family) -> Result<CellFamily, Memory>
    ensures { IfOk result (λ f. f ≡ cell_family typed.now (seen_family family.now)) }
{
    let name = family_name(alloc, typed, family)?;
    let axes = holes(family.key.as_slice())?;
    Ok(CellFamily {
        name,
        sort: family.of.sort(),
        axes,
        undefined: true,
    })
}

/// The families as the machine has them.
pub fn cell_families(
    alloc: Global,
    typed: &Typed,
    families: &[Family],
) -> Result<Items<CellFamily>, Memory>
    ensures { IfOk result (λ fs. fs ≡ map (cell_family typed.now) (map seen_family families.now)) }
{
    let mut out = Items::new(alloc);
    for family in families {
        let made = cell_family(alloc, typed, family)?;
        out.push(made)?;
    }
    Ok(out)
}
