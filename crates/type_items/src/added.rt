//! One item more, from its parts: its tree, its place among those of its kind, its fault.
#![tactic(auto, using(crate::proofs::MadeLemmas::added))]

ghost use Rattle.std.specs.Prelude.{◌≡◌, IfOk};
ghost use Rattle.type_items.specs.Gathering.{with_fault, body_fault, claim_fault, head_of, rule_from, rule_tree, rule_added, start_from, start_tree, start_added, invariant_tree, invariant_added, left};

use crate::gathered::{Claimed, Gathered, Head, Inside, JudgedBody, Made};
use crate::limits::{limit_of, past_fault};
use crate::lists::copy_parameters;
use crate::opened::Opened;
use crate::rulesets::{Mark, leave};
use murphi_ast::expr::Expr;
use murphi_ast::text::{Memory, Text};
use murphi_ast::token::Span;
use murphi_typed::expr::Expr as Tree;
use murphi_typed::protocol::{Guard, Parameter, Rule, Start, TypedFormula};
use murphi_typed::stmt::Stmt;
use murphi_types::fault::Fault;
use sqlite_items::Items;
use std::alloc::Global;
use type_names::formulas::lemma_uses;
use type_parts::faults::sooner;

/// One fault more, which comes after those so far in the list of the definition.
pub fn with_fault(fault: Option<Fault>, inside: Inside) -> Inside
    ensures { result ≡ with_fault fault inside }
{
    Inside {
        context: inside.context,
        params: inside.params,
        fault: sooner(inside.fault, fault),
    }
}

/// The first fault of a rule or a start state: of its parameters, its parts, its limits.
pub fn body_fault(
    past: Option<Span>,
    at: Span,
    count: u64,
    params: &[Parameter],
    part: &JudgedBody,
) -> Result<Option<Fault>, Memory>
    ensures { IfOk result (λ f. f ≡ body_fault past at count params.now part.now) }
{
    let parameters = past_fault(past, params)?;
    let typed = part.fault.is_none();
    let limit = limit_of(typed, at, count, part.weight, part.limit);
    Ok(sooner(parameters, sooner(part.fault, limit)))
}

/// The first fault of an invariant: of its parts, its limits. Its node parameters are not limited.
pub fn claim_fault(at: Span, count: u64, claimed: &Claimed) -> Option<Fault>
    ensures { result ≡ claim_fault at count claimed.now }
{
    let typed = claimed.part.of.is_some();
    let limit = limit_of(typed, at, count, claimed.part.weight, None);
    sooner(claimed.part.fault, limit)
}

/// What the tree of a rule or a start state with these parameters has beside its parts.
fn head_of(
    alloc: Global,
    opened: &Opened,
    params: &[Parameter],
    guard: &Option<Guard>,
    body: &Stmt,
) -> Result<Head, Memory>
    ensures { IfOk result (λ h. h ≡ head_of opened.now params.now guard.now body.now) }
{
    let prefix = opened.rule_prefix(alloc, params, guard, body)?;
    let params = copy_parameters(alloc, params)?;
    Ok(Head { params, prefix })
}

fn rule_from(title: Text, head: Head, part: JudgedBody) -> Rule
    ensures { result ≡ rule_from title head part }
{
    Rule {
        title,
        params: head.params,
        guard: part.guard,
        locals: part.locals,
        body: part.body,
        prefix: head.prefix,
    }
}

/// A rule, from its parts.
pub fn rule_of(
    alloc: Global,
    opened: &Opened,
    title: Text,
    params: &[Parameter],
    part: JudgedBody,
) -> Result<Rule, Memory>
    ensures { IfOk result (λ r. r ≡ rule_tree opened.now title params.now part) }
{
    let head = head_of(alloc, opened, params, &part.guard, &part.body)?;
    let one = rule_from(title, head, part);
    Ok(one)
}

/// One rule more, which has so many instances.
pub fn add_rule(
    alloc: Global,
    title: &Option<Text>,
    count: u64,
    one: Rule,
    made: Made,
) -> Result<Made, Memory>
    ensures { IfOk result (λ m. m ≡ rule_added title.now count one made) }
{
    let mut made = made;
    made.rule_numbers.add(alloc, title, count)?;
    made.rules.push(one)?;
    Ok(made)
}

fn start_from(title: Text, head: Head, part: JudgedBody) -> Start
    ensures { result ≡ start_from title head part }
{
    Start {
        title,
        params: head.params,
        locals: part.locals,
        body: part.body,
        prefix: head.prefix,
    }
}

/// A start state, from its parts.
pub fn start_of(
    alloc: Global,
    opened: &Opened,
    title: Text,
    params: &[Parameter],
    part: JudgedBody,
) -> Result<Start, Memory>
    ensures { IfOk result (λ r. r ≡ start_tree opened.now title params.now part) }
{
    let head = head_of(alloc, opened, params, &None, &part.body)?;
    let one = start_from(title, head, part);
    Ok(one)
}

/// One start state more, which has so many instances.
pub fn add_start(
    alloc: Global,
    title: &Option<Text>,
    count: u64,
    one: Start,
    made: Made,
) -> Result<Made, Memory>
    ensures { IfOk result (λ m. m ≡ start_added title.now count one made) }
{
    let mut made = made;
    made.start_numbers.add(alloc, title, count)?;
    made.starts.push(one)?;
    Ok(made)
}

/// An invariant, from its parts.
pub fn invariant_of(
    alloc: Global,
    opened: &Opened,
    size: &Option<Text>,
    written: &Expr,
    title: Text,
    params: &[Parameter],
    tree: Tree,
) -> Result<TypedFormula, Memory>
    ensures { IfOk result (λ r. r ≡ invariant_tree opened.now size.now written.now title params.now tree) }
{
    let copied = copy_parameters(alloc, params)?;
    let prefix = opened.formula_prefix(alloc, params, &tree)?;
    let uses = lemma_uses(written, alloc, size)?;
    let kinds = Items::new(alloc);
    Ok(TypedFormula {
        title,
        params: copied,
        body: tree,
        prefix,
        kinds,
        uses,
    })
}

/// One invariant more, which has so many instances.
pub fn add_invariant(
    alloc: Global,
    title: &Option<Text>,
    count: u64,
    one: TypedFormula,
    made: Made,
) -> Result<Made, Memory>
    ensures { IfOk result (λ m. m ≡ invariant_added title.now count one made) }
{
    let mut made = made;
    made.invariant_numbers.add(alloc, title, count)?;
    made.invariants.push(one)?;
    Ok(made)
}

/// After a ruleset.
pub fn left(done: Gathered, mark: Mark) -> Gathered
    ensures { result ≡ left mark done }
{
    let Gathered { inside, made } = done;
    Gathered {
        inside: leave(inside, mark),
        made,
    }
}
