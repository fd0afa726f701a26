//! What a walk over a body keeps of it.
#![tactic(auto, using(crate::proofs::DepthLemmas::depths))]

ghost use Rattle.std.specs.Prelude.{◌≡◌, ◌+◌, drop, IfOk};
ghost use Rattle.type_prefixes.specs.Summaries.{first_place, later_places, empty, called, touched, raised, root_walked};

use murphi_ast::text::Memory;
use murphi_typed::expr::Root;
use sqlite_items::Items;
use std::alloc::Global;

/// How deep a body binds nodes by itself, and for each formal how deep the places bind them where it is
/// used. A number past the greatest u32 is want of memory.
#[derive(Drop)]
pub struct Depth {
    pub own: u32,
    pub formals: Items<u32>,
}

/// The sum, which has to be a u32.
pub(crate) fn added(a: u32, b: u32) -> Result<u32, Memory>
    ensures { IfOk result (λ n. n ≡ a + b) }
{
    match a.checked_add(b) {
        Some(sum) => Ok(sum),
        None => Err(Memory),
    }
}

/// Of a body without statements.
pub(crate) fn no_depth(alloc: Global) -> Depth
    ensures { result ≡ empty }
{
    Depth {
        own: 0,
        formals: Items::new(alloc),
    }
}

/// How deep the routine of a number binds nodes by itself.
pub(crate) fn own_of(all: &[Depth], routine: u32) -> u32
    ensures { result ≡ (called all.now routine).own }
{
    let at = routine as usize;
    if at < all.len() { all[at].own } else { 0 }
}

/// Where the routine of a number uses its formals.
pub(crate) fn formals_of(all: &[Depth], routine: u32) -> &[u32]
    ensures { result.now ≡ (called all.now routine).formals }
{
    let at = routine as usize;
    if at < all.len() {
        all[at].formals.as_slice()
    } else {
        &[]
    }
}

/// Where the first of these formals is used.
pub(crate) fn first_of(places: &[u32]) -> u32
    ensures { result ≡ first_place places.now }
{
    if places.len() == 0 { 0 } else { places[0] }
}

/// Where those after the first are used.
pub(crate) fn later(places: &[u32]) -> &[u32]
    ensures { result.now ≡ later_places places.now }
{
    if places.len() == 0 {
        places
    } else {
        &places[1..]
    }
}

/// Where a formal is used.
fn place_at(places: &[u32], at: usize) -> u32
    ensures { result ≡ first_place (drop at places.now) }
{
    if at < places.len() { places[at] } else { 0 }
}

/// Something stands inside so many levels.
pub(crate) fn touch(depth: Depth, inside: u32) -> Depth
    ensures { result ≡ touched inside depth }
{
    let Depth { own, formals } = depth;
    Depth {
        own: own.max(inside),
        formals,
    }
}

fn raise(places: Items<u32>, formal: u32, inside: u32) -> Result<Items<u32>, Memory>
    ensures { IfOk result (λ v. v ≡ raised places formal inside) }
{
    let at = formal as usize;
    let mut places = places;
    while places.len() <= at {
        places.push(0)?;
    }
    let before = place_at(places.as_slice(), at);
    places.set(at, before.max(inside));
    Ok(places)
}

/// The variable of a designator is used inside so many levels.
pub(crate) fn walk_root(root: Root, inside: u32, depth: Depth) -> Result<Depth, Memory>
    ensures { IfOk result (λ d. d ≡ root_walked root inside depth) }
{
    match root {
        Root::Formal(k) | Root::Place(k) => {
            let Depth { own, formals } = depth;
            let formals = raise(formals, k, inside)?;
            Ok(Depth {
                own: own.max(inside),
                formals,
            })
        }
        Root::Global(_) | Root::Local(_) => Ok(touch(depth, inside)),
    }
}
