//! How the size of the node type is written, and where the constant that is this size is used.
#![tactic(auto, using(crate::proofs::NodeEquations::nodes))]

ghost use Rattle.std.specs.Prelude.{◌≡◌, Some, map, is_some, IfOk};
ghost use Rattle.std.specs.Option.{option_copied};
ghost use Rattle.murphi_types.specs.Texts.{written_size, size_of_type, size_in, size_among, node_size, constant_in, size_name, size_uses, node_type};
ghost use Rattle.type_nodes.specs.Sizes.{name_of, is_number, size_by};

use murphi_ast::decl::Decl;
use murphi_ast::expr::{Designator, Expr, Named, TypeExpr};
use murphi_ast::rule::Protocol;
use murphi_ast::text::{Memory, Text};
use murphi_ast::token::Span;
use murphi_typed::protocol::{NodeType, WrittenSize};
use sqlite_items::Items;
use std::alloc::Global;
use type_names::texts::text_uses;
use type_parts::places::place_of;

/// The name that a designator is, if it is one.
fn name_of(place: &Designator) -> Option<&Text>
    ensures { option_copied result ≡ name_of place.now }
{
    match place.selectors.as_slice() {
        [] => Some(&place.root.name),
        [..] => None,
    }
}

/// The name of the constant that a size is, if it is written as a name.
fn constant_in(size: &Expr) -> Option<&Text>
    ensures { option_copied result ≡ constant_in (Some size.now) }
{
    match size {
        Expr::Place(place) => name_of(place),
        Expr::Number { .. } => None,
        Expr::Truth { .. } => None,
        Expr::Call { .. } => None,
        Expr::Not { .. } => None,
        Expr::Minus { .. } => None,
        Expr::Chain { .. } => None,
        Expr::Compare { .. } => None,
        Expr::Implies { .. } => None,
        Expr::Choice { .. } => None,
        Expr::Quantified { .. } => None,
        Expr::IsUndefined { .. } => None,
    }
}

/// Whether a size is written as one number.
fn is_number(size: &Expr) -> bool
    ensures { result ≡ is_number size.now }
{
    match size {
        Expr::Number { .. } => true,
        Expr::Place(_) => false,
        Expr::Truth { .. } => false,
        Expr::Call { .. } => false,
        Expr::Not { .. } => false,
        Expr::Minus { .. } => false,
        Expr::Chain { .. } => false,
        Expr::Compare { .. } => false,
        Expr::Implies { .. } => false,
        Expr::Choice { .. } => false,
        Expr::Quantified { .. } => false,
        Expr::IsUndefined { .. } => false,
    }
}

/// How a size is written, which is a number or has this name.
fn size_by(alloc: Global, number: bool, name: &Option<Text>) -> Result<WrittenSize, Memory>
    ensures { IfOk result (λ w. w ≡ size_by number name.now) }
{
    if number {
        return Ok(WrittenSize::Number);
    }
    match name {
        Some(name) => {
            let name = name.copy(alloc)?;
            Ok(WrittenSize::Constant(name))
        }
        None => Ok(WrittenSize::Other),
    }
}

/// The size of a type that is declared directly as a scalarset, if it is the node type.
fn size_of_type<'a>(node: &Text, name: &Named, body: &'a TypeExpr) -> Option<&'a Expr>
    ensures { option_copied result ≡ size_of_type node.now name.now body.now }
{
    match body {
        TypeExpr::Scalarset { size, .. } => {
            if name.name.bytes() == node.bytes() {
                return Some(size.get());
            }
            None
        }
        TypeExpr::Known(_) => None,
        TypeExpr::Truth(_) => None,
        TypeExpr::Range { .. } => None,
        TypeExpr::Listed { .. } => None,
        TypeExpr::Fields { .. } => None,
        TypeExpr::Array { .. } => None,
    }
}

fn size_in<'a>(node: &Text, one: &'a Decl) -> Option<&'a Expr>
    ensures { option_copied result ≡ size_in node.now one.now }
{
    match one {
        Decl::TypeName { name, body } => size_of_type(node, name, body),
        Decl::Constant { .. } => None,
        Decl::Variables { .. } => None,
        Decl::Routine(_) => None,
    }
}

/// The size of the node type of this name, if a global type of that name is declared directly as a scalarset.
pub fn size_among<'a>(node: &Text, all: &'a [Decl]) -> Option<&'a Expr>
    ensures { option_copied result ≡ size_among node.now all.now }
{
    for one in all {
        if let Some(size) = size_in(node, one) {
            return Some(size);
        }
    }
    None
}

/// The size of the node type, if its name is given and a global type of that name is declared as a scalarset.
pub fn node_size<'a>(node: &Option<Text>, tree: &'a Protocol) -> Option<&'a Expr>
    ensures { option_copied result ≡ node_size node.now tree.now }
{
    match node {
        Some(node) => size_among(node, tree.decls.as_slice()),
        None => None,
    }
}

/// The name of the constant that a size is, if it is written as a name.
fn copied_name(alloc: Global, size: &Expr) -> Result<Option<Text>, Memory>
    ensures { IfOk result (λ o. o ≡ constant_in (Some size.now)) }
{
    match constant_in(size) {
        Some(name) => {
            let name = name.copy(alloc)?;
            Ok(Some(name))
        }
        None => Ok(None),
    }
}

/// The name of the constant that is the size of the node type.
pub fn size_name(
    alloc: Global,
    node: &Option<Text>,
    tree: &Protocol,
) -> Result<Option<Text>, Memory>
    ensures { IfOk result (λ o. o ≡ size_name node.now tree.now) }
{
    match node_size(node, tree) {
        Some(size) => {
            let name = copied_name(alloc, size)?;
            Ok(name)
        }
        None => Ok(None),
    }
}

/// The uses of the constant that is the size, but for the declaration of the node type.
fn size_uses(
    alloc: Global,
    node: &Text,
    name: &Option<Text>,
    tree: &Protocol,
) -> Result<Items<Span>, Memory>
    ensures { IfOk result (λ us. us ≡ size_uses node.now name.now tree.now) }
{
    match name {
        Some(name) => {
            let uses = text_uses(tree, alloc, node, name)?;
            Ok(uses)
        }
        None => Ok(Items::new(alloc)),
    }
}

/// The node type of this name and size.
fn with_size(alloc: Global, node: &Text, size: &Expr, tree: &Protocol) -> Result<NodeType, Memory>
    ensures { IfOk result (λ t. Some t ≡ node_type (Some node.now) tree.now (Some size.now)) }
{
    let constant = copied_name(alloc, size)?;
    let uses = size_uses(alloc, node, &constant, tree)?;
    let written = size_by(alloc, is_number(size), &constant)?;
    let name = node.copy(alloc)?;
    Ok(NodeType {
        name,
        size: written,
        size_at: place_of(size),
        uses,
    })
}

/// The node type of a text, if its name is given and a global type of that name is declared as a scalarset.
pub fn node_type(
    alloc: Global,
    node: &Option<Text>,
    tree: &Protocol,
) -> Result<Option<NodeType>, Memory>
    ensures { IfOk result (λ t. t ≡ node_type node.now tree.now (node_size node.now tree.now)) }
{
    match node {
        Some(node) => match size_among(node, tree.decls.as_slice()) {
            Some(size) => {
                let made = with_size(alloc, node, size, tree)?;
                Ok(Some(made))
            }
            None => Ok(None),
        },
        None => Ok(None),
    }
}
