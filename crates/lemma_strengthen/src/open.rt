//! A term opened to a prefix of node variables: universal quantifiers that can be moved to the front
//! take the variables of the prefix in order.

#![tactic(auto, using(crate::proofs::OpenEquations::openings))]

ghost use Rattle.std.specs.Prelude.{◌≡◌, ◌+◌, ◌-◌, ◌≤◌, ◌<◌, ◌∷◌, ◌++◌, [], suc, map, IfOk};
ghost use Rattle.term_core.specs.declared.term.Term.{Or, Var};
ghost use Rattle.term_core.specs.Substitution.{placed};
ghost use Rattle.lemma_strengthen.specs.Opening.{signed, quantified, splits, taken, opened};
ghost use Rattle.lemma_strengthen.specs.OpenLists.{shared_taken, turn_taken, turn_opened};

use sqlite_items::{Boxed, Items};
use std::alloc::Global;
use term_core::substitute::place;
use term_core::term::Term;
use term_core::text::Memory;

/// An opened term, and how many variables opening it took.
#[derive(Drop)]
pub(crate) struct Opened {
    pub term: Term,
    pub used: u32,
}

/// What an opening is for: the length of the prefix, the next variable and how many are left.
#[derive(Clone, Copy)]
pub(crate) struct Room {
    pub to: u32,
    pub next: u32,
    pub left: u32,
}

/// What is left when so many variables are taken.
fn after(room: Room, taken: u32) -> Room
    requires within { taken ≤ room.left }
    requires room { room.next + room.left ≤ room.to }
    ensures to { result.to ≡ room.to }
    ensures next { result.next ≡ room.next + taken }
    ensures left { result.left ≡ room.left - taken }
    ensures room { result.next + result.left ≤ result.to }
{
    Room {
        to: room.to,
        next: room.next + taken,
        left: room.left - taken,
    }
}

fn boxed(alloc: Global, t: Term) -> Result<Boxed<Term>, Memory>
    ensures { IfOk result (λ b. b ≡ t) }
{
    let b = Boxed::new(alloc, t)?;
    Ok(b)
}

/// The term, or its negation.
fn with_sign(alloc: Global, sign: bool, t: Term) -> Result<Term, Memory>
    ensures { IfOk result (λ out. out ≡ signed sign t) }
{
    if sign {
        Ok(t)
    } else {
        let body = boxed(alloc, t)?;
        Ok(Term::Not(body))
    }
}

/// A quantifier that stays, or its negation, over a copy of its body.
fn kept(alloc: Global, sign: bool, all: bool, body: &Term) -> Result<Term, Memory>
    ensures { IfOk result (λ out. out ≡ quantified sign all body.now) }
{
    let body = body.copy(alloc)?;
    let body = boxed(alloc, body)?;
    if sign {
        Ok(Term::Quantified { all, body })
    } else if all {
        let inner = boxed(alloc, Term::Quantified { all: true, body })?;
        Ok(Term::Not(inner))
    } else {
        let inner = boxed(alloc, Term::Not(body))?;
        Ok(Term::Quantified {
            all: true,
            body: inner,
        })
    }
}

/// A quantifier that stays, or its negation, for the prefix.
fn stay(
    alloc: Global,
    sign: bool,
    all: bool,
    body: &Term,
    names: &[Term],
    to: u32,
) -> Result<Opened, Memory>
    ensures tree { IfOk result (λ o. o.term ≡ placed to names.now (quantified sign all body.now)) }
    ensures used { IfOk result (λ o. o.used ≡ 0) }
{
    let t = kept(alloc, sign, all, body)?;
    let term = place(alloc, &t, to, names)?;
    Ok(Opened { term, used: 0 })
}

/// Whether an If holds a quantifier.
fn holds_quantifier(test: &Term, yes: &Term, no: &Term) -> bool
    ensures { result ≡ splits test.now yes.now no.now }
{
    if !test.nests_within(0) {
        return true;
    }
    if !yes.nests_within(0) {
        return true;
    }
    !no.nests_within(0)
}

fn two(alloc: Global, first: Term, second: Term) -> Result<Items<Term>, Memory>
    ensures { IfOk result (λ out. out ≡ first ∷ second ∷ []) }
{
    let mut out = Items::new(alloc);
    out.push(first)?;
    out.push(second)?;
    Ok(out)
}

/// A term that stays as it is, or its negation.
fn plain(alloc: Global, t: &Term, sign: bool, names: &[Term], to: u32) -> Result<Opened, Memory>
    ensures tree { IfOk result (λ o. o.term ≡ signed sign (placed to names.now t.now)) }
    ensures used { IfOk result (λ o. o.used ≡ 0) }
{
    let t = place(alloc, t, to, names)?;
    let term = with_sign(alloc, sign, t)?;
    Ok(Opened { term, used: 0 })
}

/// The term, or its negation, opened. For variable k of the term stands the k-th of the names, which
/// are left as they were.
#[cycle(open)]
pub(crate) fn open(
    alloc: Global,
    t: &Term,
    sign: bool,
    names: &mut Items<Term>,
    room: Room,
) -> Result<Opened, Memory>
    requires { room.next + room.left ≤ room.to }
    ensures tree { IfOk result (λ o. o.term ≡ opened room.to sign names.old room.next room.left t.now) }
    ensures used { IfOk result (λ o. o.used ≡ taken sign room.left t.now) }
    ensures within { IfOk result (λ o. o.used ≤ room.left) }
    ensures same { IfOk result (λ o. names.new ≡ names.old) }
{
    match t {
        Term::Known(_)
        | Term::Var(_)
        | Term::Read { .. }
        | Term::Same { .. }
        | Term::Less { .. }
        | Term::Arith { .. } => {
            let out = plain(alloc, t, sign, names.as_slice(), room.to)?;
            Ok(out)
        }
        Term::Not(body) => {
            let out = open(alloc, body.get(), !sign, names, room)?;
            Ok(out)
        }
        Term::And(parts) => {
            if sign {
                let out = open_shared(alloc, parts.as_slice(), sign, names, room)?;
                Ok(Opened {
                    term: Term::And(out.terms),
                    used: out.used,
                })
            } else {
                let out = open_in_turn(alloc, parts.as_slice(), sign, names, room)?;
                Ok(Opened {
                    term: Term::Or(out.terms),
                    used: out.used,
                })
            }
        }
        Term::Or(parts) => {
            if sign {
                let out = open_in_turn(alloc, parts.as_slice(), sign, names, room)?;
                Ok(Opened {
                    term: Term::Or(out.terms),
                    used: out.used,
                })
            } else {
                let out = open_shared(alloc, parts.as_slice(), sign, names, room)?;
                Ok(Opened {
                    term: Term::And(out.terms),
                    used: out.used,
                })
            }
        }
        Term::If { test, yes, no } => {
            if holds_quantifier(test.get(), yes.get(), no.get()) {
                let fails = open(alloc, test.get(), false, names, room)?;
                let first = open_after(alloc, fails, yes.get(), sign, names, room)?;
                let holds = open(alloc, test.get(), true, names, room)?;
                let second = open_after(alloc, holds, no.get(), sign, names, room)?;
                let used = first.used.max(second.used);
                let parts = two(alloc, first.term, second.term)?;
                Ok(Opened {
                    term: Term::And(parts),
                    used,
                })
            } else {
                let out = plain(alloc, t, sign, names.as_slice(), room.to)?;
                Ok(out)
            }
        }
        Term::Quantified { all, body } => {
            if sign == *all && 0 < room.left {
                let out = open_body(alloc, body.get(), sign, names, room)?;
                Ok(out)
            } else {
                let out = stay(alloc, sign, *all, body.get(), names.as_slice(), room.to)?;
                Ok(out)
            }
        }
    }
}

/// The body of a quantifier that takes the next variable.
#[cycle(open)]
fn open_body(
    alloc: Global,
    body: &Term,
    sign: bool,
    names: &mut Items<Term>,
    room: Room,
) -> Result<Opened, Memory>
    requires room { room.next + room.left ≤ room.to }
    requires left { 0 < room.left }
    ensures tree { IfOk result (λ o. o.term ≡ opened room.to sign (names.old ++ Var room.next ∷ []) (suc room.next) (room.left - 1) body.now) }
    ensures used { IfOk result (λ o. o.used ≡ suc (taken sign (room.left - 1) body.now)) }
    ensures within { IfOk result (λ o. o.used ≤ room.left) }
    ensures same { IfOk result (λ o. names.new ≡ names.old) }
{
    names.push(Term::Var(room.next))?;
    let inner = Room {
        to: room.to,
        next: room.next + 1,
        left: room.left - 1,
    };
    let out = open(alloc, body, sign, names, inner)?;
    names.pop();
    Ok(Opened {
        term: out.term,
        used: out.used + 1,
    })
}

/// Or of what is opened already and a branch, which takes the variables that are left then.
#[cycle(open)]
fn open_after(
    alloc: Global,
    first: Opened,
    branch: &Term,
    sign: bool,
    names: &mut Items<Term>,
    room: Room,
) -> Result<Opened, Memory>
    requires room { room.next + room.left ≤ room.to }
    requires first { first.used ≤ room.left }
    ensures tree { IfOk result (λ o. o.term ≡ Or (first.term ∷ opened room.to sign names.old (room.next + first.used) (room.left - first.used) branch.now ∷ [])) }
    ensures used { IfOk result (λ o. o.used ≡ first.used + taken sign (room.left - first.used) branch.now) }
    ensures within { IfOk result (λ o. o.used ≤ room.left) }
    ensures same { IfOk result (λ o. names.new ≡ names.old) }
{
    let inner = after(room, first.used);
    let second = open(alloc, branch, sign, names, inner)?;
    let used = first.used + second.used;
    let parts = two(alloc, first.term, second.term)?;
    Ok(Opened {
        term: Term::Or(parts),
        used,
    })
}

/// Opened terms, and how many variables they took together.
#[derive(Drop)]
pub(crate) struct OpenedAll {
    pub terms: Items<Term>,
    pub used: u32,
}

/// Terms that share the variables.
#[cycle(open)]
fn open_shared(
    alloc: Global,
    all: &[Term],
    sign: bool,
    names: &mut Items<Term>,
    room: Room,
) -> Result<OpenedAll, Memory>
    requires { room.next + room.left ≤ room.to }
    ensures trees { IfOk result (λ o. o.terms ≡ map (opened room.to sign names.old room.next room.left) all.now) }
    ensures used { IfOk result (λ o. o.used ≡ shared_taken sign room.left all.now) }
    ensures within { IfOk result (λ o. o.used ≤ room.left) }
    ensures same { IfOk result (λ o. names.new ≡ names.old) }
{
    let mut out = Items::new(alloc);
    let mut taken = 0u32;
    for one in all {
        let done = open(alloc, one, sign, names, room)?;
        taken = taken.max(done.used);
        out.push(done.term)?;
    }
    Ok(OpenedAll {
        terms: out,
        used: taken,
    })
}

/// Terms of which each takes the variables that those before it left.
#[cycle(open)]
fn open_in_turn(
    alloc: Global,
    all: &[Term],
    sign: bool,
    names: &mut Items<Term>,
    room: Room,
) -> Result<OpenedAll, Memory>
    requires { room.next + room.left ≤ room.to }
    ensures trees { IfOk result (λ o. o.terms ≡ turn_opened room.to sign names.old room.next room.left all.now) }
    ensures used { IfOk result (λ o. o.used ≡ turn_taken sign room.left all.now) }
    ensures within { IfOk result (λ o. o.used ≤ room.left) }
    ensures same { IfOk result (λ o. names.new ≡ names.old) }
{
    let mut out = Items::new(alloc);
    let mut taken = 0u32;
    for one in all {
        let inner = after(room, taken);
        let done = open(alloc, one, sign, names, inner)?;
        taken += done.used;
        out.push(done.term)?;
    }
    Ok(OpenedAll {
        terms: out,
        used: taken,
    })
}
