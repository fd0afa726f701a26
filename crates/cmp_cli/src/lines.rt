//! The lines of a report.

ghost use Rattle.std.specs.Prelude.{◌≡◌, ◌<◌, ◌++◌, [], ◌∷◌, IfOk, OnOk, map, length, codes};
ghost use Rattle.murphi_ast.specs.declared.expr.Named.{Named};
ghost use Rattle.murphi_ast.specs.State.{variables, declared_by};
ghost use Rattle.cmp_cli.specs.Report.{line, quoted, formula_word, item_of, formula_line, claim_at, claims_of_first, cell_text, cell_lines, state_lines};

use crate::titles::item_title;
use flat_check::Formula;
use murphi_ast::decl::Decl;
use murphi_ast::expr::Named;
use murphi_ast::rule::{Protocol, RuleDecl};
use murphi_ast::text::{Memory, Text};
use sqlite_items::Items;
use std::alloc::Global;

/// The line of this text.
pub fn plain(alloc: Global, text: &[u8]) -> Result<Text, Memory>
    ensures { IfOk result (λ t. t ≡ line text.now) }
{
    let mut bytes = Vec::from_slice(alloc, text)?;
    bytes.push(b'\n')?;
    let line = Text::make(alloc, bytes.as_slice())?;
    Ok(line)
}

/// The line of two texts, and of a third in quotation marks.
pub fn titled(alloc: Global, first: &[u8], second: &[u8], title: &Text) -> Result<Text, Memory>
    ensures { IfOk result (λ t. t ≡ line (first.now ++ second.now ++ quoted title.now)) }
{
    let mut bytes = Vec::from_slice(alloc, first)?;
    bytes.extend_from_slice(second)?;
    bytes.push(b'"')?;
    bytes.extend_from_slice(title.bytes())?;
    bytes.extend_from_slice(b"\"\n")?;
    let line = Text::make(alloc, bytes.as_slice())?;
    Ok(line)
}

/// What kind of formula it is.
fn formula_word(items: &[RuleDecl], formula: Formula) -> &'static [u8]
    ensures { result.now ≡ formula_word items.now formula }
{
    match formula {
        Formula::Item(k) => {
            if k < items.len() {
                match &items[k] {
                    RuleDecl::Invariant { .. } => b"invariant ",
                    _ => b"nofault ",
                }
            } else {
                b"nofault "
            }
        }
        Formula::StartFault(_) => b"nofault start ",
    }
}

/// The number of the item that a formula speaks of.
fn item_of(formula: Formula) -> usize
    ensures { result ≡ item_of formula }
{
    match formula {
        Formula::Item(k) => k,
        Formula::StartFault(k) => k,
    }
}

/// A line that names a formula.
pub fn formula_line(
    alloc: Global,
    head: &[u8],
    items: &[RuleDecl],
    formula: Formula,
) -> Result<Text, Memory>
    ensures { IfOk result (λ t. t ≡ formula_line head.now items.now formula) }
{
    let title = item_title(alloc, items, item_of(formula))?;
    let line = titled(alloc, head, formula_word(items, formula), &title)?;
    Ok(line)
}

/// The claim of an item, where it is an invariant.
fn claim(alloc: Global, items: &[RuleDecl], k: usize) -> Result<Items<Text>, Memory>
    requires { k < length items.now }
    ensures { IfOk result (λ lines. lines ≡ claim_at items.now k) }
{
    let mut lines = Items::new(alloc);
    match &items[k] {
        RuleDecl::Invariant { .. } => {
            let line = formula_line(alloc, b"claim ", items, Formula::Item(k))?;
            lines.push(line)?;
            Ok(lines)
        }
        RuleDecl::Rule { .. } | RuleDecl::Start { .. } | RuleDecl::Group { .. } => Ok(lines),
    }
}

/// The claims of the invariants, in text order.
pub fn claims(alloc: Global, items: &[RuleDecl]) -> Result<Items<Text>, Memory>
    ensures { IfOk result (λ lines. lines ≡ claims_of_first items.now (length items.now)) }
{
    let mut lines = Items::new(alloc);
    for k in 0..items.len() {
        let claim = claim(alloc, items, k)?;
        lines.append(claim)?;
    }
    Ok(lines)
}

/// What a cell holds.
fn cell_text(cell: Option<bool>) -> &'static [u8]
    ensures { result.now ≡ cell_text cell }
{
    match cell {
        None => b"undefined",
        Some(false) => b"false",
        Some(true) => b"true",
    }
}

/// The line of a variable with its cell.
fn cell_line(alloc: Global, name: &Text, cell: Option<bool>) -> Result<Text, Memory>
    ensures { IfOk result (λ t. t ≡ line (name.now ++ codes " = " ++ cell_text cell)) }
{
    let mut bytes = Vec::from_slice(alloc, name.bytes())?;
    bytes.extend_from_slice(b" = ")?;
    bytes.extend_from_slice(cell_text(cell))?;
    let line = plain(alloc, bytes.as_slice())?;
    Ok(line)
}

/// The lines of these variables with these cells.
fn cell_lines(alloc: Global, names: &[Text], cells: &[Option<bool>]) -> Result<Items<Text>, Memory>
    ensures { IfOk result (λ lines. lines ≡ cell_lines names.now cells.now) }
{
    let mut lines = Items::new(alloc);
    for (k, name) in names.iter().enumerate() {
        if k >= cells.len() {
            return Ok(lines);
        }
        let line = cell_line(alloc, name, cells[k])?;
        lines.push(line)?;
    }
    Ok(lines)
}

/// The names alone, without their places.
fn texts(alloc: Global, declared: &[Named]) -> Result<Items<Text>, Memory>
    ensures { IfOk result (λ names. names ≡ map (λ (n : Named). n.name) declared.now) }
{
    let mut names = Items::new(alloc);
    for one in declared {
        let name = one.name.copy(alloc)?;
        names.push(name)?;
    }
    Ok(names)
}

/// The variables that a declaration declares.
fn declared_by(alloc: Global, decl: &Decl) -> Result<Items<Text>, Memory>
    ensures { IfOk result (λ names. names ≡ declared_by decl.now) }
{
    match decl {
        Decl::Variables { names, .. } => {
            let names = texts(alloc, names.as_slice())?;
            Ok(names)
        }
        Decl::Constant { .. } | Decl::TypeName { .. } | Decl::Routine(_) => Ok(Items::new(alloc)),
    }
}

/// The variables of a protocol, in the order of their declarations.
fn variables(alloc: Global, p: &Protocol) -> Result<Items<Text>, Memory>
    ensures { IfOk result (λ names. names ≡ variables p.now) }
{
    let mut names = Items::new(alloc);
    for decl in p.decls.as_slice() {
        let more = declared_by(alloc, decl)?;
        names.append(more)?;
    }
    Ok(names)
}

/// Adds a state: a heading, and its cells.
pub fn push_state(
    alloc: Global,
    lines: &mut Items<Text>,
    heading: &[u8],
    p: &Protocol,
    state: &Items<Option<bool>>,
) -> Result<(), Memory>
    ensures { OnOk result (lines.new ≡ lines.old ++ state_lines heading.now p.now state.now) }
{
    let heading = plain(alloc, heading)?;
    lines.push(heading)?;
    let names = variables(alloc, p)?;
    let cells = cell_lines(alloc, names.as_slice(), state.as_slice())?;
    lines.append(cells)?;
    Ok(())
}
