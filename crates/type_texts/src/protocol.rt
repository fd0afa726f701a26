//! Typing of a whole text.
#![tactic(auto, using(crate::proofs::TextEquations::texts))]

ghost use Rattle.std.specs.Prelude.{◌≡◌, map, Option, None, IfOk};
ghost use Rattle.murphi_ast.specs.declared.rule.Protocol.{Protocol as WrittenText};
ghost use Rattle.murphi_typed.specs.Families.{Name};
ghost use Rattle.murphi_types.specs.Faults.{sooner, first_fault};
ghost use Rattle.murphi_types.specs.Texts.{entity_of, declared_name, items_of, no_node, faults_of, typed_text};
ghost use Rattle.type_items.specs.Gathering.{items_part};
ghost use Rattle.type_texts.specs.Texts.{TextAnswers, global_number, no_starts, items_after, parts_fault, typed_of};

use crate::refusal::{TypeRefusal, told};
use murphi_ast::rule::{Protocol, RuleDecl};
use murphi_ast::text::{Memory, Text};
use murphi_typed::expr::Root;
use murphi_typed::protocol::{Declared, Entity, NodeType, Start, Typed};
use murphi_types::fault::Fault;
use murphi_types::scope::{Entry, Known, Meaning};
use sqlite_items::Items;
use std::alloc::Global;
use type_declarations::state::Declaring;
use type_items::items::items;
use type_items::judged::JudgedItems;
use type_names::texts::text_repeats;
use type_nodes::node::{node_type, size_among, size_name};
use type_parts::faults::sooner;
use type_routines::texts::declarations;

/// The items of a text, with the first fault of them and of its declarations.
#[derive(Drop)]
struct JudgedParts {
    items: JudgedItems,
    fault: Option<Fault>,
}

/// A typed text, and its first fault at a place. The protocol of one that has a fault says nothing.
struct JudgedText {
    typed: Typed,
    fault: Option<Fault>,
}

fn global_number(root: Root) -> u32
    ensures { result ≡ global_number root }
{
    match root {
        Root::Global(number) => number,
        Root::Local(_) => 0,
        Root::Formal(_) => 0,
        Root::Place(_) => 0,
    }
}

/// What a global name declares.
fn entity_of(what: &Meaning) -> Result<Entity, Memory>
    ensures { IfOk result (λ e. e ≡ entity_of what.now) }
{
    match what {
        Meaning::Constant(number) => Ok(Entity::Constant(*number)),
        Meaning::TypeName(of) => {
            let of = of.share()?;
            Ok(Entity::TypeName(of))
        }
        Meaning::Variable { root, .. } => Ok(Entity::Variable(global_number(*root))),
        Meaning::Member { kind, index, count } => Ok(Entity::Member {
            kind: *kind,
            index: *index,
            count: *count,
        }),
        Meaning::Routine(number) => Ok(Entity::Routine(*number)),
        Meaning::Bound { .. } => Ok(Entity::Variable(0)),
        Meaning::Refused => Ok(Entity::Variable(0)),
    }
}

/// The global names.
fn global_names(alloc: Global, all: &[Entry]) -> Result<Items<Declared>, Memory>
    ensures { IfOk result (λ out. out ≡ map declared_name all.now) }
{
    let mut out = Items::new(alloc);
    for one in all {
        let name = one.name.copy(alloc)?;
        let what = entity_of(&one.what)?;
        out.push(Declared { name, what })?;
    }
    Ok(out)
}

/// Whether a name is given to the node type that is no global type declared as a scalarset.
fn no_node(node: &Option<Text>, tree: &Protocol) -> bool
    ensures { result ≡ no_node node.now tree.now }
{
    match node {
        None => false,
        Some(node) => match size_among(node, tree.decls.as_slice()) {
            Some(_) => false,
            None => true,
        },
    }
}

fn has_no_start(starts: &[Start]) -> bool
    ensures { result ≡ no_starts starts.now }
{
    match starts {
        [] => true,
        [..] => false,
    }
}

/// The typed protocol of the items of a text, with what it has declared.
fn made(alloc: Global, node: Option<NodeType>, items: JudgedItems) -> Result<Typed, Memory>
    ensures { IfOk result (λ t. t ≡ typed_of node items) }
{
    let JudgedItems {
        rules,
        starts,
        invariants,
        known,
        ..
    } = items;
    let names = global_names(alloc, known.names.as_slice())?;
    let Known {
        kinds,
        globals,
        routines,
        weights,
        ..
    } = known;
    Ok(Typed {
        names,
        kinds,
        node,
        globals,
        routines,
        weights,
        starts,
        rules,
        invariants,
    })
}

/// The items of a text, where its declarations leave off.
fn items_after(
    alloc: Global,
    declared: Declaring,
    size: &Option<Text>,
    rules: &[RuleDecl],
) -> Result<JudgedParts, Memory>
    ensures items { IfOk result (λ p. p.items ≡ items_after declared size.now rules.now) }
    ensures fault { IfOk result (λ p. p.fault ≡ sooner declared.fault (sooner declared.limit (items_after declared size.now rules.now).fault)) }
{
    let Declaring {
        context,
        fault,
        limit,
        ..
    } = declared;
    let items = items(alloc, context, size, rules)?;
    let rest = sooner(limit, items.fault);
    let fault = sooner(fault, rest);
    Ok(JudgedParts { items, fault })
}

/// The declarations and items of a text.
fn parts(alloc: Global, tree: &Protocol, node: Option<Text>) -> Result<JudgedParts, Memory>
    ensures items { IfOk result (λ p. p.items ≡ items_part (items_of node tree.now)) }
    ensures fault { IfOk result (λ p. p.fault ≡ parts_fault node tree.now) }
{
    let size = size_name(alloc, &node, tree)?;
    let declared = declarations(alloc, node, tree)?;
    let rules = tree.rules.as_slice();
    let made = items_after(alloc, declared, &size, rules)?;
    Ok(made)
}

/// The typed text, and its first fault at a place.
fn judged_text(alloc: Global, tree: &Protocol, node: Option<Text>) -> Result<JudgedText, Memory>
    ensures fault { IfOk result (λ j. j.fault ≡ first_fault (faults_of node tree.now)) }
    ensures typed { IfOk result (λ j. j.typed ≡ typed_text node tree.now) }
{
    let repeated = text_repeats(tree, alloc)?;
    let of_nodes = node_type(alloc, &node, tree)?;
    let given = parts(alloc, tree, node)?;
    let first = sooner(given.fault, repeated);
    let typed = made(alloc, of_nodes, given.items)?;
    Ok(JudgedText {
        typed,
        fault: first,
    })
}

/// The typed text, where no fault has a place.
fn without_faults(missing: bool, typed: Typed) -> Result<Typed, TypeRefusal>
    ensures { (node : Option Name) (P : WrittenText) → None ≡ first_fault (faults_of node P) → missing ≡ no_node node P → typed ≡ typed_text node P → TextAnswers node P result }
{
    if missing {
        return Err(TypeRefusal::E13);
    }
    if has_no_start(typed.starts.as_slice()) {
        return Err(TypeRefusal::E09);
    }
    Ok(typed)
}

/// The typed protocol of a text; `node` is the name that is given to its node type. It is refused for the first
/// of its faults, as E05 to E08, E10, E11, E14 or E16; else for a name of the node type that is no global type
/// declared as a scalarset, E13; else where it has no start state, E09.
pub fn type_protocol(
    alloc: Global,
    tree: &Protocol,
    node: Option<Text>,
) -> Result<Typed, TypeRefusal>
    ensures { TextAnswers node tree.now result }
{
    let missing = no_node(&node, tree);
    match judged_text(alloc, tree, node) {
        Err(Memory) => Err(TypeRefusal::Memory),
        Ok(JudgedText { typed, fault }) => match fault {
            None => without_faults(missing, typed),
            Some(fault) => Err(told(fault)),
        },
    }
}
