//! What a typed protocol has declared, once more as typing takes it.

ghost use Rattle.std.specs.Prelude.{◌≡◌, map, drop, slice_get, IfOk};
ghost use Rattle.std.specs.Option.{option_copied};
ghost use Rattle.murphi_types.specs.Lemmas.{variable_meaning, known_of};
ghost use Rattle.type_texts.specs.Lemmas.{meaning_among, entry_among};

use murphi_ast::text::{Memory, Text};
use murphi_typed::expr::Root;
use murphi_typed::protocol::{Declared, Entity, Routine, Typed, Variable};
use murphi_typed::shared::Shared;
use murphi_typed::types::Kind;
use murphi_types::names::Names;
use murphi_types::scope::{Entry, Known, Meaning};
use sqlite_items::Items;
use std::alloc::Global;
use type_parts::types::copy_type;

fn variable_at(globals: &[Variable], number: u32) -> Option<&Variable>
    ensures { option_copied result ≡ slice_get globals.now number }
{
    globals.get(number as usize)
}

/// What the name of a global stands for.
fn variable_meaning(alloc: Global, globals: &[Variable], number: u32) -> Result<Meaning, Memory>
    ensures { IfOk result (λ m. m ≡ variable_meaning number (slice_get globals.now number)) }
{
    match variable_at(globals, number) {
        None => Ok(Meaning::Refused),
        Some(one) => {
            let of = copy_type(alloc, &one.of)?;
            let of = Shared::new(alloc, of)?;
            Ok(Meaning::Variable {
                root: Root::Global(number),
                of,
            })
        }
    }
}

/// What a global name stands for.
fn meaning_of(alloc: Global, globals: &[Variable], what: &Entity) -> Result<Meaning, Memory>
    ensures { IfOk result (λ m. m ≡ meaning_among globals.now what.now) }
{
    match what {
        Entity::Constant(number) => Ok(Meaning::Constant(*number)),
        Entity::TypeName(of) => {
            let of = of.share()?;
            Ok(Meaning::TypeName(of))
        }
        Entity::Variable(number) => {
            let what = variable_meaning(alloc, globals, *number)?;
            Ok(what)
        }
        Entity::Member { kind, index, count } => Ok(Meaning::Member {
            kind: *kind,
            index: *index,
            count: *count,
        }),
        Entity::Routine(number) => Ok(Meaning::Routine(*number)),
    }
}

fn names_of(alloc: Global, globals: &[Variable], names: &[Declared]) -> Result<Names, Memory>
    ensures { IfOk result (λ n. n ≡ map (entry_among globals.now) names.now) }
{
    let mut out = Names::new(alloc);
    for one in names {
        let name = one.name.copy(alloc)?;
        let what = meaning_of(alloc, globals, &one.what)?;
        out.push(alloc, Entry { name, what })?;
    }
    Ok(out)
}

fn copy_texts(alloc: Global, all: &[Text]) -> Result<Items<Text>, Memory>
    ensures { IfOk result (λ out. out ≡ all.now) }
{
    let mut out = Items::new(alloc);
    for one in all {
        out.push(one.copy(alloc)?)?;
    }
    Ok(out)
}

fn copy_name(alloc: Global, name: &Option<Text>) -> Result<Option<Text>, Memory>
    ensures { IfOk result (λ o. o ≡ name.now) }
{
    match name {
        None => Ok(None),
        Some(name) => {
            let name = name.copy(alloc)?;
            Ok(Some(name))
        }
    }
}

fn copy_kind(alloc: Global, one: &Kind) -> Result<Kind, Memory>
    ensures { IfOk result (λ k. k ≡ one.now) }
{
    match one {
        Kind::Listed { names } => {
            let names = copy_texts(alloc, names.as_slice())?;
            Ok(Kind::Listed { names })
        }
        Kind::Scalarset { name, count } => {
            let name = copy_name(alloc, name)?;
            let count = *count;
            Ok(Kind::Scalarset { name, count })
        }
    }
}

/// The kinds from a number on.
pub(crate) fn kinds_from(alloc: Global, all: &[Kind], first: usize) -> Result<Items<Kind>, Memory>
    ensures { IfOk result (λ out. out ≡ drop first all.now) }
{
    let mut out = Items::new(alloc);
    if first < all.len() {
        for one in &all[first..] {
            out.push(copy_kind(alloc, one)?)?;
        }
    }
    Ok(out)
}

fn copy_variables(alloc: Global, all: &[Variable]) -> Result<Items<Variable>, Memory>
    ensures { IfOk result (λ out. out ≡ all.now) }
{
    let mut out = Items::new(alloc);
    for one in all {
        let name = one.name.copy(alloc)?;
        let of = copy_type(alloc, &one.of)?;
        out.push(Variable { name, of })?;
    }
    Ok(out)
}

fn share_routines(alloc: Global, all: &[Shared<Routine>]) -> Result<Items<Shared<Routine>>, Memory>
    ensures { IfOk result (λ out. out ≡ all.now) }
{
    let mut out = Items::new(alloc);
    for one in all {
        out.push(one.share()?)?;
    }
    Ok(out)
}

/// What a typed protocol has declared. The routines are shared, not copied.
pub(crate) fn known_of(alloc: Global, typed: &Typed) -> Result<Known, Memory>
    ensures { IfOk result (λ k. k ≡ known_of typed.now) }
{
    let globals = typed.globals.as_slice();
    let names = names_of(alloc, globals, typed.names.as_slice())?;
    let kinds = kinds_from(alloc, typed.kinds.as_slice(), 0)?;
    let globals = copy_variables(alloc, globals)?;
    let routines = share_routines(alloc, typed.routines.as_slice())?;
    let weights = Items::from_slice(alloc, typed.weights.as_slice())?;
    Ok(Known {
        names,
        kinds,
        globals,
        routines,
        weights,
    })
}
