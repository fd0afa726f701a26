//! The instances of a formula over the nodes of a window.

#![tactic(auto, using(crate::proofs::CountLemmas::counting))]

ghost use Rattle.std.specs.Prelude.{◌≡◌, ◌∷◌, ◌++◌, [], IfOk, OnOk};
ghost use Rattle.std.specs.List.{flat_map};
ghost use Rattle.term_core.specs.declared.term.Term.{Var};
ghost use Rattle.term_core.specs.Values.{below};
ghost use Rattle.lemma_strengthen.specs.Opening.{instances};
ghost use Rattle.lemma_strengthen.specs.OpenLists.{instances_after};

use crate::formula::Formula;
use sqlite_items::Items;
use std::alloc::Global;
use term_core::substitute::place;
use term_core::term::Term;
use term_core::text::Memory;

/// The body of a formula for each choice of window nodes for its prefix, the first variable slowest.
/// In an answer `Var(k)` with k below `window` stands for window node k + 1, and inner quantifiers bind
/// the numbers from `window` up. A number of a variable that would pass `u32` is answered as want of
/// memory.
pub fn instances(alloc: Global, f: &Formula, window: u8) -> Result<Items<Term>, Memory>
    ensures { IfOk result (λ out. out ≡ instances window f.now.prefix f.now.body) }
{
    let mut names = Items::new(alloc);
    let mut out = Items::new(alloc);
    choose(
        alloc,
        u32::from(window),
        &f.body,
        f.prefix,
        &mut names,
        &mut out,
    )?;
    Ok(out)
}

/// Adds the body for the nodes chosen so far with each choice of nodes for so many variables more.
#[cycle(choose)]
fn choose(
    alloc: Global,
    window: u32,
    body: &Term,
    left: u32,
    names: &mut Items<Term>,
    out: &mut Items<Term>,
) -> Result<(), Memory>
    ensures out { OnOk result (out.new ≡ out.old ++ instances_after window body.now left names.old) }
    ensures names { OnOk result (names.new ≡ names.old) }
{
    if left == 0 {
        let one = place(alloc, body, window, names.as_slice())?;
        out.push(one)?;
        Ok(())
    } else {
        choose_next(alloc, window, body, left - 1, names, out)?;
        Ok(())
    }
}

/// The same with each node for the next variable, and so many variables after it.
#[cycle(choose)]
fn choose_next(
    alloc: Global,
    window: u32,
    body: &Term,
    left: u32,
    names: &mut Items<Term>,
    out: &mut Items<Term>,
) -> Result<(), Memory>
    ensures out { OnOk result (out.new ≡ out.old ++ flat_map (λ k. instances_after window body.now left (names.old ++ Var k ∷ [])) (below window)) }
    ensures names { OnOk result (names.new ≡ names.old) }
{
    for node in 0..window {
        names.push(Term::Var(node))?;
        choose(alloc, window, body, left, names, out)?;
        names.pop();
    }
    Ok(())
}
