//! Typing of a lemma.

ghost use Rattle.std.specs.Prelude.{◌≡◌, ℕ, [], Some, IfOk, OnOk};
ghost use Rattle.murphi_typed.specs.Prefix.{formula_prefix};
ghost use Rattle.murphi_types.specs.Faults.{first_fault};
ghost use Rattle.murphi_types.specs.Weights.{stopped, weight_faults};
ghost use Rattle.murphi_types.specs.Places.{place_of};
ghost use Rattle.murphi_types.specs.Found.{Found};
ghost use Rattle.murphi_types.specs.Typing.{found};
ghost use Rattle.murphi_types.specs.Uses.{uses_of};
ghost use Rattle.murphi_types.specs.Lemmas.{lemma_scope, lemma_found, lemma_faults, lemma_typed, node_size_name, weight_faults_of};
ghost use Rattle.type_parts.specs.Contexts.{moved};
ghost use Rattle.type_expressions.specs.PartsGiven.{part_of};
ghost use Rattle.type_texts.specs.Lemmas.{truth_wanted, lemma_context, own_kinds, formula_with};
ghost use Rattle.type_texts.specs.Refusing.{Answers};

use crate::known::{kinds_from, known_of};
use crate::refusal::{TypeRefusal, told};
use murphi_ast::expr::Expr;
use murphi_ast::text::{Memory, Text};
use murphi_ast::token::Span;
use murphi_typed::expr::Expr as Tree;
use murphi_typed::protocol::{NodeType, Typed, TypedFormula, WrittenSize};
use murphi_typed::types::Kind;
use murphi_types::fault::{Cause, Fault, Quantity};
use murphi_types::scope::Scope;
use sqlite_items::Items;
use std::alloc::Global;
use type_expressions::judge::expr;
use type_names::formulas::{lemma_repeats, lemma_uses};
use type_parts::context::Context;
use type_parts::expressions::as_truth;
use type_parts::faults::sooner;
use type_parts::judged::Judged;
use type_parts::places::place_of;
use type_prefixes::prefixes::Depths;

/// The weight of a well-typed item is limited.
const MOST_WEIGHT: u64 = 10_000;

/// What is typed of a lemma: its tree, the kinds that it writes itself, and its first fault. Where there is one, the
/// tree says nothing.
struct JudgedLemma {
    tree: Tree,
    kinds: Items<Kind>,
    fault: Option<Fault>,
}

/// A typed lemma, and its first fault. The formula of one that has a fault says nothing.
struct JudgedFormula {
    formula: TypedFormula,
    fault: Option<Fault>,
}

/// A lemma stands in no body and in no scope but that of the whole text.
fn lemma_scope(alloc: Global) -> Scope
    ensures { result ≡ lemma_scope }
{
    Scope {
        inner: Items::new(alloc),
        bound: 0,
        in_function: false,
        routines: Items::new(alloc),
        node: None,
    }
}

/// The limit of weights, where a weight passes it.
#[tactic(auto, using(crate::proofs::LemmaEquations::weights))]
fn weight_fault(at: Span, weight: u64) -> Option<Fault>
    ensures { (w : ℕ) → weight ≡ stopped w → result ≡ first_fault (weight_faults at w) }
{
    if weight <= MOST_WEIGHT {
        return None;
    }
    let cause = Cause::E16 {
        quantity: Quantity::Weight,
        count: weight,
        limit: MOST_WEIGHT,
    };
    Some(Fault { cause, at })
}

/// The limit of weights, where a well-typed part passes it.
#[tactic(auto, using(crate::proofs::LemmaEquations::passing))]
fn passed(at: Span, part: &Judged) -> Option<Fault>
    ensures { (f : Found) → part.now ≡ part_of f → result ≡ first_fault (weight_faults_of at f) }
{
    match part.of {
        None => None,
        Some(_) => weight_fault(at, part.weight),
    }
}

fn copied(alloc: Global, name: &Text) -> Result<Option<Text>, Memory>
    ensures { IfOk result (λ o. o ≡ Some name.now) }
{
    let name = name.copy(alloc)?;
    Ok(Some(name))
}

/// The name of the constant that is the size of the node type.
fn size_name(alloc: Global, node: &Option<NodeType>) -> Result<Option<Text>, Memory>
    ensures { IfOk result (λ o. o ≡ node_size_name node.now) }
{
    match node {
        None => Ok(None),
        Some(node) => match &node.size {
            WrittenSize::Constant(name) => {
                let name = copied(alloc, name)?;
                Ok(name)
            }
            WrittenSize::Number => Ok(None),
            WrittenSize::Other => Ok(None),
        },
    }
}

/// A lemma, which has to be a truth value.
fn lemma(alloc: Global, context: &mut Context, e: &Expr) -> Result<Judged, Memory>
    ensures part { IfOk result (λ r. r ≡ truth_wanted (place_of e.now) (part_of (found context.old.scope context.old.known e.now))) }
    ensures context { OnOk result (context.new ≡ moved context.old (found context.old.scope context.old.known e.now).known) }
{
    let part = expr(alloc, context, e)?;
    Ok(as_truth(part, place_of(e)))
}

/// The first fault of a lemma, from its part.
fn lemma_fault(
    alloc: Global,
    typed: &Typed,
    e: &Expr,
    part: &Judged,
) -> Result<Option<Fault>, Memory>
    ensures { IfOk result (λ f. part.now ≡ part_of (lemma_found typed.now e.now) → f ≡ first_fault (lemma_faults typed.now e.now)) }
{
    let names = typed.names.as_slice();
    let repeated = lemma_repeats(e, alloc, names)?;
    let at = place_of(e);
    let limit = passed(at, part);
    let rest = sooner(repeated, limit);
    let first = sooner(part.fault, rest);
    Ok(first)
}

/// What is typed of a lemma, where it stands.
fn judged_there(
    alloc: Global,
    context: &mut Context,
    typed: &Typed,
    e: &Expr,
) -> Result<JudgedLemma, Memory>
    ensures tree { IfOk result (λ j. context.old ≡ lemma_context typed.now → j.tree ≡ (lemma_found typed.now e.now).tree) }
    ensures kinds { IfOk result (λ j. context.old ≡ lemma_context typed.now → j.kinds ≡ own_kinds typed.now (lemma_found typed.now e.now).known.kinds) }
    ensures fault { IfOk result (λ j. context.old ≡ lemma_context typed.now → j.fault ≡ first_fault (lemma_faults typed.now e.now)) }
{
    let part = lemma(alloc, context, e)?;
    let fault = lemma_fault(alloc, typed, e, &part)?;
    let all = context.known.kinds.as_slice();
    let count = typed.kinds.len();
    let kinds = kinds_from(alloc, all, count)?;
    let Judged { tree, .. } = part;
    Ok(JudgedLemma { tree, kinds, fault })
}

/// What is typed of a lemma.
fn judged(alloc: Global, typed: &Typed, e: &Expr) -> Result<JudgedLemma, Memory>
    ensures tree { IfOk result (λ j. j.tree ≡ (lemma_found typed.now e.now).tree) }
    ensures kinds { IfOk result (λ j. j.kinds ≡ own_kinds typed.now (lemma_found typed.now e.now).known.kinds) }
    ensures fault { IfOk result (λ j. j.fault ≡ first_fault (lemma_faults typed.now e.now)) }
{
    let known = known_of(alloc, typed)?;
    let scope = lemma_scope(alloc);
    let mut context = Context { scope, known };
    let made = judged_there(alloc, &mut context, typed, e)?;
    Ok(made)
}

/// The prefix length of a lemma.
fn lemma_prefix(alloc: Global, typed: &Typed, tree: &Tree) -> Result<u32, Memory>
    ensures { IfOk result (λ n. n ≡ formula_prefix typed.now.routines [] tree.now) }
{
    let depths = Depths::of_shared(alloc, typed.routines.as_slice())?;
    let prefix = depths.formula_prefix(alloc, &[], tree)?;
    Ok(prefix)
}

/// Where a lemma uses the constant that is the size of the node type.
fn size_uses(alloc: Global, typed: &Typed, e: &Expr) -> Result<Items<Span>, Memory>
    ensures { IfOk result (λ u. u ≡ uses_of (node_size_name typed.now.node) e.now) }
{
    let size = size_name(alloc, &typed.node)?;
    let uses = lemma_uses(e, alloc, &size)?;
    Ok(uses)
}

/// The formula of a lemma that is typed.
fn formula(
    alloc: Global,
    typed: &Typed,
    e: &Expr,
    tree: Tree,
    kinds: Items<Kind>,
) -> Result<TypedFormula, Memory>
    ensures { IfOk result (λ f. f ≡ formula_with typed.now e.now tree kinds) }
{
    let prefix = lemma_prefix(alloc, typed, &tree)?;
    let uses = size_uses(alloc, typed, e)?;
    let title = Text::make(alloc, &[])?;
    Ok(TypedFormula {
        title,
        params: Items::new(alloc),
        body: tree,
        prefix,
        kinds,
        uses,
    })
}

/// The typed lemma, and its first fault.
#[tactic(auto, using(crate::proofs::LemmaEquations::lemmas))]
fn typed_lemma(alloc: Global, typed: &Typed, e: &Expr) -> Result<JudgedFormula, Memory>
    ensures fault { IfOk result (λ j. j.fault ≡ first_fault (lemma_faults typed.now e.now)) }
    ensures formula { IfOk result (λ j. j.formula ≡ lemma_typed typed.now e.now) }
{
    let JudgedLemma { tree, kinds, fault } = judged(alloc, typed, e)?;
    let made = formula(alloc, typed, e, tree, kinds)?;
    Ok(JudgedFormula {
        formula: made,
        fault,
    })
}

/// The typed formula of a lemma, beside the typed protocol whose names it uses; enum names that it writes are
/// declared within it alone. Its name is given to it elsewhere. It is refused by the first of its faults, as
/// E05 to E08, E10, E11 or E16.
#[tactic(auto, using(crate::proofs::LemmaEquations::answers))]
pub fn type_formula(alloc: Global, typed: &Typed, e: &Expr) -> Result<TypedFormula, TypeRefusal>
    ensures { Answers (lemma_faults typed.now e.now) (lemma_typed typed.now e.now) result }
{
    match typed_lemma(alloc, typed, e) {
        Err(Memory) => Err(TypeRefusal::Memory),
        Ok(JudgedFormula { formula, fault }) => match fault {
            None => Ok(formula),
            Some(fault) => Err(told(fault)),
        },
    }
}
