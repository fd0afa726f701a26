//! The discipline: a typed protocol that breaks no symmetry rule, or the first break.

#![tactic(auto, using(crate::proofs::DisciplineEquations::disciplined))]

ghost use Rattle.std.specs.Prelude.{◌≡◌, map, IfOk};
ghost use Rattle.scalarset_rules.specs.Rules.{first_break, size_form, breaks_with, node_breaks, routine_breaks, top_scope, own_stand, own_stands, count_of, formula_break, broken};
ghost use Rattle.scalarset_rules.specs.Seen.{seen_stand, scope_at};
ghost use Rattle.scalarset_rules.specs.Verdicts.{Says, first_clears, first_routine_clears, first_start_clears, first_rule_clears, first_uses, first_routines, first_starts, first_rules};

use crate::judge::{Break, first_of, one};
use crate::place::Level;
use crate::scan::{Want, scan_body};
use crate::shape::{Shape, Stand, Variable};
use crate::within::body_break;
use murphi_ast::text::Memory;
use murphi_ast::token::Span;
use murphi_typed::protocol::{
    Formal, NodeType, Parameter, Routine, Rule, Start, Typed, TypedFormula, WrittenSize,
};
use murphi_typed::shared::Shared;
use murphi_typed::stmt::Stmt;
use sqlite_items::Items;
use std::alloc::Global;

/// A typed protocol that breaks no symmetry rule.
#[derive(Drop)]
pub struct Disciplined {
    held: Typed,
}

/// Why a protocol is no disciplined one: the first break of a rule from 1 to 9, in text order and at
/// one place the least rule; or want of memory.
#[derive(Debug, Drop)]
pub enum DisciplineStop {
    Broken { rule: u8, at: Span },
    Memory,
}

impl Disciplined {
    /// The protocol.
    pub fn typed(&self) -> &Typed
        ensures { result.now ≡ self.now.held }
    {
        &self.held
    }
}

/// The first place where a lemma breaks S1: where it uses the constant that gives the size of the node
/// type. It takes no memory.
pub fn formula_rule(_d: &Disciplined, f: &TypedFormula) -> Option<Span>
    ensures { result ≡ formula_break f.now }
{
    let uses = f.uses.as_slice();
    if uses.len() == 0 { None } else { Some(uses[0]) }
}

/// Judges a typed protocol. A refusal gives it up.
pub fn discipline(alloc: Global, typed: Typed) -> Result<Disciplined, DisciplineStop>
    ensures { Says typed result }
{
    match judge(alloc, &typed) {
        Err(Memory) => Err(DisciplineStop::Memory),
        Ok(None) => Ok(Disciplined { held: typed }),
        Ok(Some(b)) => Err(DisciplineStop::Broken {
            rule: b.rule,
            at: b.at,
        }),
    }
}

fn judge(alloc: Global, typed: &Typed) -> Result<Option<Break>, Memory>
    ensures { IfOk result (λ b. b ≡ broken typed.now) }
{
    let cleared = clears(typed);
    match &typed.node {
        None => Ok(cleared),
        Some(node) => {
            let rest = about_nodes(alloc, typed, node)?;
            Ok(first_of(cleared, rest))
        }
    }
}

fn clears(typed: &Typed) -> Option<Break>
    ensures { result ≡ first_clears typed.now }
{
    let routines = routine_clears(typed.routines.as_slice());
    let starts = start_clears(typed.starts.as_slice());
    let rules = rule_clears(typed.rules.as_slice());
    first_of(routines, first_of(starts, rules))
}

fn routine_clears(all: &[Shared<Routine>]) -> Option<Break>
    ensures { result ≡ first_routine_clears all.now }
{
    let mut first = None;
    for r in all {
        first = first_of(first, scan_body(Want::Clear, &r.get().body));
    }
    first
}

fn start_clears(all: &[Start]) -> Option<Break>
    ensures { result ≡ first_start_clears all.now }
{
    let mut first = None;
    for a in all {
        first = first_of(first, scan_body(Want::Clear, &a.body));
    }
    first
}

fn rule_clears(all: &[Rule]) -> Option<Break>
    ensures { result ≡ first_rule_clears all.now }
{
    let mut first = None;
    for r in all {
        first = first_of(first, scan_body(Want::Clear, &r.body));
    }
    first
}

fn about_nodes(alloc: Global, typed: &Typed, node: &NodeType) -> Result<Option<Break>, Memory>
    ensures { IfOk result (λ b. b ≡ first_break (breaks_with typed.now node.now)) }
{
    let uses = uses_of(node.uses.as_slice());
    let size = size_of(&node.size, node.size_at);
    let all = typed.routines.as_slice();
    let routines = routines_of(alloc, all, all)?;
    let starts = starts_of(alloc, all, typed.starts.as_slice())?;
    let rules = rules_of(alloc, all, typed.rules.as_slice())?;
    Ok(first_of(
        uses,
        first_of(size, first_of(routines, first_of(starts, rules))),
    ))
}

fn uses_of(uses: &[Span]) -> Option<Break>
    ensures { result ≡ first_uses uses.now }
{
    let mut first = None;
    for at in uses {
        first = first_of(first, one(1, *at));
    }
    first
}

fn size_of(size: &WrittenSize, at: Span) -> Option<Break>
    ensures { result ≡ first_break (size_form size.now at) }
{
    match size {
        WrittenSize::Number => None,
        WrittenSize::Constant(_) => None,
        WrittenSize::Other => one(2, at),
    }
}

/// The breaks in a body but for S3.
fn body_of(
    alloc: Global,
    routines: &[Shared<Routine>],
    bound: u32,
    stands: &[Stand],
    body: &Stmt,
) -> Result<Option<Break>, Memory>
    ensures { IfOk result (λ b. b ≡ first_break (node_breaks routines.now (scope_at 0 bound stands.now) body.now)) }
{
    let returns = scan_body(Want::Return, body);
    let level = Level { depth: 0, bound };
    let own = body_break(alloc, routines, level, stands, body)?;
    Ok(first_of(returns, own))
}

fn own_stand(alloc: Global, number: u32, formal: &Formal) -> Stand
    ensures { seen_stand result ≡ own_stand number formal.now }
{
    if formal.by_place {
        Stand::Placed(Shape {
            owner: Variable::Formal { depth: 0, number },
            parts: Items::new(alloc),
        })
    } else {
        Stand::Valued(None)
    }
}

/// A routine's own formals: each is a variable of its own. A number past the greatest u32 is want of
/// memory.
fn own_stands(alloc: Global, formals: &[Formal]) -> Result<Items<Stand>, Memory>
    ensures { IfOk result (λ v. map seen_stand v ≡ own_stands 0 formals.now) }
{
    let mut out = Items::new(alloc);
    let mut number = 0u32;
    for formal in formals {
        out.push(own_stand(alloc, number, formal))?;
        number = match number.checked_add(1) {
            Some(next) => next,
            None => return Err(Memory),
        };
    }
    Ok(out)
}

fn count(params: &[Parameter]) -> Result<u32, Memory>
    ensures { IfOk result (λ n. n ≡ count_of params.now) }
{
    match u32::try_from(params.len()) {
        Ok(n) => Ok(n),
        Err(_) => Err(Memory),
    }
}

fn routine_of(alloc: Global, all: &[Shared<Routine>], r: &Routine) -> Result<Option<Break>, Memory>
    ensures { IfOk result (λ b. b ≡ first_break (routine_breaks all.now r.now)) }
{
    let stands = own_stands(alloc, r.formals.as_slice())?;
    let rest = body_of(alloc, all, 0, stands.as_slice(), &r.body)?;
    match r.result {
        None => Ok(rest),
        Some(_) => Ok(first_of(scan_body(Want::For, &r.body), rest)),
    }
}

fn routines_of(
    alloc: Global,
    all: &[Shared<Routine>],
    some: &[Shared<Routine>],
) -> Result<Option<Break>, Memory>
    ensures { IfOk result (λ b. b ≡ first_routines all.now some.now) }
{
    let mut first = None;
    for r in some {
        let more = routine_of(alloc, all, r.get())?;
        first = first_of(first, more);
    }
    Ok(first)
}

fn top_of(
    alloc: Global,
    all: &[Shared<Routine>],
    params: &[Parameter],
    body: &Stmt,
) -> Result<Option<Break>, Memory>
    ensures { IfOk result (λ b. b ≡ first_break (node_breaks all.now (top_scope params.now) body.now)) }
{
    let bound = count(params)?;
    let stands = Items::new(alloc);
    let b = body_of(alloc, all, bound, stands.as_slice(), body)?;
    Ok(b)
}

fn starts_of(
    alloc: Global,
    all: &[Shared<Routine>],
    some: &[Start],
) -> Result<Option<Break>, Memory>
    ensures { IfOk result (λ b. b ≡ first_starts all.now some.now) }
{
    let mut first = None;
    for a in some {
        let more = top_of(alloc, all, a.params.as_slice(), &a.body)?;
        first = first_of(first, more);
    }
    Ok(first)
}

fn rules_of(alloc: Global, all: &[Shared<Routine>], some: &[Rule]) -> Result<Option<Break>, Memory>
    ensures { IfOk result (λ b. b ≡ first_rules all.now some.now) }
{
    let mut first = None;
    for r in some {
        let more = top_of(alloc, all, r.params.as_slice(), &r.body)?;
        first = first_of(first, more);
    }
    Ok(first)
}
