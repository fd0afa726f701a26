//! The readers of expressions, of the places in them, and of the types of bound variables: one cycle.
ghost use Rattle.std.specs.Prelude.{◌≡◌, ◌≤◌, true, length};
ghost use Rattle.murphi_grammar.specs.declared.symbol.Symbol.TheVariants as t;
ghost use Rattle.murphi_grammar.specs.Names as n;
ghost use Rattle.murphi_grammar.specs.Parts.{one, form};
ghost use Rattle.murphi_grammar.specs.Pieces.{cut};
ghost use Rattle.murphi_expressions.specs.Says.{Says, Gives, Goes, Stays, can_begin, itself};
ghost use Rattle.murphi_expressions.specs.Levels.{SaysChain, SaysOperand, SaysLinks};
ghost use Rattle.murphi_expressions.specs.Parts.{bound, bound_parts, primary_of, range_rest, range_of, other_type, other_type_of, array_type, array_of, field_form, field_of};

use crate::build::{
    array, chain_of, choice, comparison, implication, minus, negation, quantified, range, scalarset,
};
use crate::names::names;
use crate::sign::{
    Level, begins_expression, begins_other_sum, begins_range_tail, begins_selector, compare_sign,
    link_sign,
};
use crate::step::{Stop, enter, expect, expect_end, is_at, name, number_at, open, place_at, push};
use murphi_ast::expr::{Bind, Designator, Expr, FieldDecl, Link, Named, Selector, TypeExpr};
use murphi_ast::token::Token;
use murphi_grammar::symbol::Symbol;
use sqlite_items::Items;
use std::alloc::Global;

/// `implies ( ? expr : expr )?`
#[cycle(reader)]
#[tactic(auto, using(crate::proofs::ExprArms::expr_arms))]
pub fn expr(alloc: Global, tokens: &[Token], at: usize, room: u32) -> Result<(Expr, usize), Stop>
    requires { at ≤ length tokens.now }
    ensures is { Says n.Expr room tokens.now at result }
    ensures goes { Goes at tokens.now result }
{
    let (test, next) = implies(alloc, tokens, at, room)?;
    if !is_at(tokens, next, Symbol::Question) {
        return Ok((test, next));
    }
    let inside = enter(next, room)?;
    let (left, colon) = expr(alloc, tokens, next + 1, inside)?;
    let behind = expect(tokens, colon, Symbol::Colon)?;
    let (right, end) = expr(alloc, tokens, behind, inside)?;
    let tree = choice(alloc, test, left, right)?;
    Ok((tree, end))
}

/// `or ( -> or )?`
#[cycle(reader)]
#[tactic(auto, using(crate::proofs::ExprArms::implies_arms))]
pub fn implies(alloc: Global, tokens: &[Token], at: usize, room: u32) -> Result<(Expr, usize), Stop>
    requires { at ≤ length tokens.now }
    ensures is { Says n.Implies room tokens.now at result }
    ensures goes { Goes at tokens.now result }
{
    let (left, next) = chain(alloc, tokens, at, room, Level::Or)?;
    if !is_at(tokens, next, Symbol::Arrow) {
        return Ok((left, next));
    }
    let inside = enter(next, room)?;
    let (right, end) = chain(alloc, tokens, next + 1, inside, Level::Or)?;
    let tree = implication(alloc, left, right)?;
    Ok((tree, end))
}

/// Operands of a level with signs between them.
#[cycle(reader)]
#[tactic(auto, using(crate::proofs::ChainArms::chain_arms))]
pub fn chain(
    alloc: Global,
    tokens: &[Token],
    at: usize,
    room: u32,
    level: Level,
) -> Result<(Expr, usize), Stop>
    requires { at ≤ length tokens.now }
    ensures is { SaysChain level room tokens.now at result }
    ensures goes { Goes at tokens.now result }
{
    let (first, next) = operand(alloc, tokens, at, room, level)?;
    let (rest, end) = links(alloc, tokens, next, room, level)?;
    let tree = chain_of(alloc, first, rest)?;
    Ok((tree, end))
}

/// The further operands of a chain, each behind its sign.
#[cycle(reader)]
#[tactic(auto, using(crate::proofs::ChainArms::links_arms))]
fn links(
    alloc: Global,
    tokens: &[Token],
    at: usize,
    room: u32,
    level: Level,
) -> Result<(Items<Link>, usize), Stop>
    requires { at ≤ length tokens.now }
    ensures is { SaysLinks level room tokens.now at result }
    ensures goes { Stays at tokens.now result }
{
    let mut links = Items::new(alloc);
    let mut next = at;
    while let Some(op) = link_sign(level, tokens, next) {
        let (operand, behind) = operand(alloc, tokens, next + 1, room, level)?;
        push(&mut links, Link { op, operand })?;
        next = behind;
    }
    Ok((links, next))
}

/// One operand of a level.
#[cycle(reader)]
#[tactic(auto, using(crate::proofs::ChainArms::operand_arms))]
fn operand(
    alloc: Global,
    tokens: &[Token],
    at: usize,
    room: u32,
    level: Level,
) -> Result<(Expr, usize), Stop>
    requires { at ≤ length tokens.now }
    ensures is { SaysOperand level room tokens.now at result }
    ensures goes { Goes at tokens.now result }
{
    match level {
        Level::Or => chain(alloc, tokens, at, room, Level::And),
        Level::And => not(alloc, tokens, at, room),
        Level::Sum => chain(alloc, tokens, at, room, Level::Product),
        Level::Product => unary(alloc, tokens, at, room),
    }
}

/// `! not | compare`
#[cycle(reader)]
#[tactic(auto, using(crate::proofs::ExprArms::not_arms))]
fn not(alloc: Global, tokens: &[Token], at: usize, room: u32) -> Result<(Expr, usize), Stop>
    requires { at ≤ length tokens.now }
    ensures is { Says n.Not room tokens.now at result }
    ensures goes { Goes at tokens.now result }
{
    if !is_at(tokens, at, Symbol::Bang) {
        return compare(alloc, tokens, at, room);
    }
    let inside = enter(at, room)?;
    let (body, next) = not(alloc, tokens, at + 1, inside)?;
    let tree = negation(alloc, body, place_at(tokens, at))?;
    Ok((tree, next))
}

/// A sum, or two with a comparison between them.
#[cycle(reader)]
#[tactic(auto, using(crate::proofs::ChainArms::compare_arms))]
fn compare(alloc: Global, tokens: &[Token], at: usize, room: u32) -> Result<(Expr, usize), Stop>
    requires { at ≤ length tokens.now }
    ensures is { Says n.Compare room tokens.now at result }
    ensures goes { Goes at tokens.now result }
{
    let (left, next) = chain(alloc, tokens, at, room, Level::Sum)?;
    match compare_sign(tokens, next) {
        None => Ok((left, next)),
        Some(op) => {
            let (right, end) = chain(alloc, tokens, next + 1, room, Level::Sum)?;
            let tree = comparison(alloc, op, left, right)?;
            Ok((tree, end))
        }
    }
}

/// `- unary | primary`
#[cycle(reader)]
#[tactic(auto, using(crate::proofs::ExprArms::unary_arms))]
fn unary(alloc: Global, tokens: &[Token], at: usize, room: u32) -> Result<(Expr, usize), Stop>
    requires { at ≤ length tokens.now }
    ensures is { Says n.Unary room tokens.now at result }
    ensures goes { Goes at tokens.now result }
{
    if !is_at(tokens, at, Symbol::Name) {
        return other_unary(alloc, tokens, at, room);
    }
    let (root, next) = name(alloc, tokens, at)?;
    let (tree, end) = name_rest(alloc, tokens, next, room, root)?;
    Ok((tree, end))
}

/// A unary that begins with no name.
#[cycle(reader)]
#[tactic(auto, using(crate::proofs::ExprArms::other_unary_arms))]
fn other_unary(alloc: Global, tokens: &[Token], at: usize, room: u32) -> Result<(Expr, usize), Stop>
    requires { at ≤ length tokens.now }
    ensures is { Says (n.Cut n.OtherUnary) room tokens.now at result }
    ensures goes { Goes at tokens.now result }
{
    if !is_at(tokens, at, Symbol::Minus) {
        return other_primary(alloc, tokens, at, room);
    }
    let inside = enter(at, room)?;
    let (body, next) = unary(alloc, tokens, at + 1, inside)?;
    let tree = minus(alloc, body, place_at(tokens, at))?;
    Ok((tree, next))
}

/// Behind the first name of a primary: arguments, or fields and indices.
#[cycle(reader)]
#[tactic(auto, using(crate::proofs::ExprArms::name_rest_arms))]
fn name_rest(
    alloc: Global,
    tokens: &[Token],
    at: usize,
    room: u32,
    root: Named,
) -> Result<(Expr, usize), Stop>
    requires { at ≤ length tokens.now }
    ensures is { Gives (cut n.NameRest) (primary_of root) room tokens.now at result }
    ensures goes { Stays at tokens.now result }
{
    if is_at(tokens, at, Symbol::Open) {
        let (args, end) = arguments(alloc, tokens, at, room)?;
        return Ok((Expr::Call { name: root, args }, end));
    }
    let (selectors, end) = selectors(alloc, tokens, at, room)?;
    Ok((Expr::Place(Designator { root, selectors }), end))
}

/// `( args? )`
#[cycle(reader)]
#[tactic(auto, using(crate::proofs::ExprArms::arguments_arms))]
pub fn arguments(
    alloc: Global,
    tokens: &[Token],
    at: usize,
    room: u32,
) -> Result<(Items<Expr>, usize), Stop>
    requires { at ≤ length tokens.now }
    ensures is { Says (n.Cut n.Arguments) room tokens.now at result }
    ensures goes { Goes at tokens.now result }
{
    let inside = open(tokens, at, Symbol::Open, room)?;
    if !begins_expression(tokens, at + 1) {
        let end = expect(tokens, at + 1, Symbol::Close)?;
        return Ok((Items::new(alloc), end));
    }
    let (args, next) = args(alloc, tokens, at + 1, inside)?;
    let end = expect(tokens, next, Symbol::Close)?;
    Ok((args, end))
}

/// Expressions with commas between them.
#[cycle(reader)]
#[tactic(auto, using(crate::proofs::Loops::args_arms))]
fn args(alloc: Global, tokens: &[Token], at: usize, room: u32) -> Result<(Items<Expr>, usize), Stop>
    requires { at ≤ length tokens.now }
    ensures is { Says n.Args room tokens.now at result }
    ensures goes { Goes at tokens.now result }
{
    let mut args = Items::new(alloc);
    let (first, behind) = expr(alloc, tokens, at, room)?;
    push(&mut args, first)?;
    let mut next = behind;
    while is_at(tokens, next, Symbol::Comma) {
        let (one, behind) = expr(alloc, tokens, next + 1, room)?;
        push(&mut args, one)?;
        next = behind;
    }
    Ok((args, next))
}

/// A name with fields and indices.
#[cycle(reader)]
#[tactic(auto, using(crate::proofs::ExprArms::place_arms))]
pub fn place(
    alloc: Global,
    tokens: &[Token],
    at: usize,
    room: u32,
) -> Result<(Designator, usize), Stop>
    requires { at ≤ length tokens.now }
    ensures is { Says n.Place room tokens.now at result }
    ensures goes { Goes at tokens.now result }
{
    let (root, next) = name(alloc, tokens, at)?;
    let (selectors, end) = selectors(alloc, tokens, next, room)?;
    Ok((Designator { root, selectors }, end))
}

/// Any number of fields and indices.
#[cycle(reader)]
#[tactic(auto, using(crate::proofs::Loops::selectors_arms))]
pub fn selectors(
    alloc: Global,
    tokens: &[Token],
    at: usize,
    room: u32,
) -> Result<(Items<Selector>, usize), Stop>
    requires { at ≤ length tokens.now }
    ensures is { Says (n.Cut n.Selectors) room tokens.now at result }
    ensures goes { Stays at tokens.now result }
{
    let mut selectors = Items::new(alloc);
    let mut next = at;
    while begins_selector(tokens, next) {
        let (one, behind) = selector(alloc, tokens, next, room)?;
        push(&mut selectors, one)?;
        next = behind;
    }
    Ok((selectors, next))
}

/// `. name | [ expr ]`
#[cycle(reader)]
#[tactic(auto, using(crate::proofs::ExprArms::selector_arms))]
fn selector(
    alloc: Global,
    tokens: &[Token],
    at: usize,
    room: u32,
) -> Result<(Selector, usize), Stop>
    requires { at ≤ length tokens.now }
    ensures is { Says (n.Cut n.OneSelector) room tokens.now at result }
    ensures goes { Goes at tokens.now result }
{
    if is_at(tokens, at, Symbol::Dot) {
        let (field, end) = name(alloc, tokens, at + 1)?;
        return Ok((Selector::Field(field), end));
    }
    let inside = open(tokens, at, Symbol::OpenBracket, room)?;
    let (index, next) = expr(alloc, tokens, at + 1, inside)?;
    let end = expect(tokens, next, Symbol::CloseBracket)?;
    Ok((Selector::Index(index), end))
}

/// A primary that begins with no name.
#[cycle(reader)]
#[tactic(auto, using(crate::proofs::ExprArms::other_primary_arms))]
fn other_primary(
    alloc: Global,
    tokens: &[Token],
    at: usize,
    room: u32,
) -> Result<(Expr, usize), Stop>
    requires { at ≤ length tokens.now }
    ensures is { Says (n.Cut n.OtherPrimary) room tokens.now at result }
    ensures goes { Goes at tokens.now result }
{
    let place = place_at(tokens, at);
    if is_at(tokens, at, Symbol::Number) {
        let value = number_at(tokens, at);
        return Ok((Expr::Number { value, at: place }, at + 1));
    }
    if is_at(tokens, at, Symbol::True) {
        return Ok((
            Expr::Truth {
                value: true,
                at: place,
            },
            at + 1,
        ));
    }
    if is_at(tokens, at, Symbol::False) {
        return Ok((
            Expr::Truth {
                value: false,
                at: place,
            },
            at + 1,
        ));
    }
    if is_at(tokens, at, Symbol::Open) {
        let inside = enter(at, room)?;
        let (body, next) = expr(alloc, tokens, at + 1, inside)?;
        let end = expect(tokens, next, Symbol::Close)?;
        return Ok((body, end));
    }
    binder(alloc, tokens, at, room)
}

/// `isundefined`, or a quantifier.
#[cycle(reader)]
#[tactic(auto, using(crate::proofs::ExprArms::binder_arms))]
fn binder(alloc: Global, tokens: &[Token], at: usize, room: u32) -> Result<(Expr, usize), Stop>
    requires { at ≤ length tokens.now }
    ensures is { Says (n.Cut n.Binder) room tokens.now at result }
    ensures goes { Goes at tokens.now result }
{
    let word = place_at(tokens, at);
    if is_at(tokens, at, Symbol::IsUndefined) {
        let inside = open(tokens, at + 1, Symbol::Open, room)?;
        let (place, next) = place(alloc, tokens, at + 1 + 1, inside)?;
        let end = expect(tokens, next, Symbol::Close)?;
        return Ok((Expr::IsUndefined { place, at: word }, end));
    }
    if is_at(tokens, at, Symbol::Forall) {
        let inside = enter(at, room)?;
        let ((bind, body), end) = bound(alloc, tokens, at + 1, inside, Symbol::EndForall)?;
        let tree = quantified(alloc, true, bind, body, word)?;
        return Ok((tree, end));
    }
    let inside = open(tokens, at, Symbol::Exists, room)?;
    let ((bind, body), end) = bound(alloc, tokens, at + 1, inside, Symbol::EndExists)?;
    let tree = quantified(alloc, false, bind, body, word)?;
    Ok((tree, end))
}

/// `bind do expr end`, where `end` may be this word.
#[cycle(reader)]
#[tactic(auto, using(crate::proofs::ExprArms::bound_arms))]
fn bound(
    alloc: Global,
    tokens: &[Token],
    at: usize,
    room: u32,
    word: Symbol,
) -> Result<((Bind, Expr), usize), Stop>
    requires { at ≤ length tokens.now }
    ensures is { Gives (bound word) (bound_parts word) room tokens.now at result }
    ensures goes { Goes at tokens.now result }
{
    let (bind, next) = bind(alloc, tokens, at, room)?;
    let behind = expect(tokens, next, Symbol::Do)?;
    let (body, last) = expr(alloc, tokens, behind, room)?;
    let end = expect_end(tokens, last, word)?;
    Ok(((bind, body), end))
}

/// `name : type | name := sum to sum`
#[cycle(reader)]
#[tactic(auto, using(crate::proofs::ExprArms::bind_arms))]
pub fn bind(alloc: Global, tokens: &[Token], at: usize, room: u32) -> Result<(Bind, usize), Stop>
    requires { at ≤ length tokens.now }
    ensures is { Says n.Bind room tokens.now at result }
    ensures goes { Goes at tokens.now result }
{
    let (name, next) = name(alloc, tokens, at)?;
    if is_at(tokens, next, Symbol::Colon) {
        let (over, end) = type_form(alloc, tokens, next + 1, room)?;
        return Ok((Bind { name, over }, end));
    }
    let behind = expect(tokens, next, Symbol::Becomes)?;
    let (low, word) = chain(alloc, tokens, behind, room, Level::Sum)?;
    let last = expect(tokens, word, Symbol::To)?;
    let (high, end) = chain(alloc, tokens, last, room, Level::Sum)?;
    let over = range(alloc, low, high)?;
    Ok((Bind { name, over }, end))
}

/// A type.
#[cycle(reader)]
#[tactic(auto, using(crate::proofs::TypeArms::type_arms))]
pub fn type_form(
    alloc: Global,
    tokens: &[Token],
    at: usize,
    room: u32,
) -> Result<(TypeExpr, usize), Stop>
    requires { at ≤ length tokens.now }
    ensures is { Says n.TypeForm room tokens.now at result }
    ensures goes { Goes at tokens.now result }
{
    if is_at(tokens, at, Symbol::Name) {
        return named_type(alloc, tokens, at, room);
    }
    if is_at(tokens, at, Symbol::Boolean) {
        return Ok((TypeExpr::Truth(place_at(tokens, at)), at + 1));
    }
    if begins_other_sum(tokens, at) {
        let (first, next) = other_unary(alloc, tokens, at, room)?;
        let (tree, end) = range_behind(alloc, tokens, next, room, first)?;
        return Ok((tree, end));
    }
    if is_at(tokens, at, Symbol::Enum) {
        let behind = expect(tokens, at + 1, Symbol::OpenBrace)?;
        let (names, last) = names(alloc, tokens, behind)?;
        let end = expect(tokens, last, Symbol::CloseBrace)?;
        let tree = TypeExpr::Listed {
            names,
            at: place_at(tokens, at),
        };
        return Ok((tree, end));
    }
    other_type(alloc, tokens, at, room)
}

/// A type that begins with a name: the type of this name, or a range.
#[cycle(reader)]
#[tactic(auto, using(crate::proofs::TypeArms::named_type_arms))]
fn named_type(
    alloc: Global,
    tokens: &[Token],
    at: usize,
    room: u32,
) -> Result<(TypeExpr, usize), Stop>
    requires is { can_begin (one t.Name) tokens.now at ≡ true }
    requires within { at ≤ length tokens.now }
    ensures is { Says n.TypeForm room tokens.now at result }
    ensures goes { Goes at tokens.now result }
{
    let (root, next) = name(alloc, tokens, at)?;
    if !begins_range_tail(tokens, next) {
        return Ok((TypeExpr::Known(root), next));
    }
    let (first, behind) = name_rest(alloc, tokens, next, room, root)?;
    let (tree, end) = range_behind(alloc, tokens, behind, room, first)?;
    Ok((tree, end))
}

/// Behind the first operand of a range.
#[cycle(reader)]
#[tactic(auto, using(crate::proofs::TypeArms::range_behind_arms))]
fn range_behind(
    alloc: Global,
    tokens: &[Token],
    at: usize,
    room: u32,
    first: Expr,
) -> Result<(TypeExpr, usize), Stop>
    requires { at ≤ length tokens.now }
    ensures is { Gives range_rest (range_of first) room tokens.now at result }
    ensures goes { Goes at tokens.now result }
{
    let (factors, next) = links(alloc, tokens, at, room, Level::Product)?;
    let product = chain_of(alloc, first, factors)?;
    let (terms, last) = links(alloc, tokens, next, room, Level::Sum)?;
    let low = chain_of(alloc, product, terms)?;
    let behind = expect(tokens, last, Symbol::DotDot)?;
    let (high, end) = chain(alloc, tokens, behind, room, Level::Sum)?;
    let tree = range(alloc, low, high)?;
    Ok((tree, end))
}

/// `scalarset ( expr )`, a record or an array.
#[cycle(reader)]
#[tactic(auto, using(crate::proofs::TypeArms::other_type_arms))]
fn other_type(
    alloc: Global,
    tokens: &[Token],
    at: usize,
    room: u32,
) -> Result<(TypeExpr, usize), Stop>
    requires { at ≤ length tokens.now }
    ensures is { Gives other_type other_type_of room tokens.now at result }
    ensures goes { Goes at tokens.now result }
{
    let word = place_at(tokens, at);
    if is_at(tokens, at, Symbol::Scalarset) {
        let inside = open(tokens, at + 1, Symbol::Open, room)?;
        let (size, next) = expr(alloc, tokens, at + 1 + 1, inside)?;
        let end = expect(tokens, next, Symbol::Close)?;
        let tree = scalarset(alloc, size, word)?;
        return Ok((tree, end));
    }
    if is_at(tokens, at, Symbol::Record) {
        let inside = enter(at, room)?;
        let (fields, next) = fields(alloc, tokens, at + 1, inside)?;
        let end = expect_end(tokens, next, Symbol::EndRecord)?;
        return Ok((TypeExpr::Fields { fields, at: word }, end));
    }
    array_type(alloc, tokens, at, room)
}

/// `array [ type ] of type`
#[cycle(reader)]
#[tactic(auto, using(crate::proofs::TypeArms::array_arms))]
fn array_type(
    alloc: Global,
    tokens: &[Token],
    at: usize,
    room: u32,
) -> Result<(TypeExpr, usize), Stop>
    requires { at ≤ length tokens.now }
    ensures is { Gives array_type array_of room tokens.now at result }
    ensures goes { Goes at tokens.now result }
{
    let inside = open(tokens, at, Symbol::Array, room)?;
    let within = open(tokens, at + 1, Symbol::OpenBracket, inside)?;
    let (index, next) = type_form(alloc, tokens, at + 1 + 1, within)?;
    let behind = expect(tokens, next, Symbol::CloseBracket)?;
    let last = expect(tokens, behind, Symbol::Of)?;
    let (item, end) = type_form(alloc, tokens, last, inside)?;
    let tree = array(alloc, index, item, place_at(tokens, at))?;
    Ok((tree, end))
}

/// Fields with semicolons between them, the last of which may have one behind it.
#[cycle(reader)]
#[tactic(auto, using(crate::proofs::Loops::fields_arms))]
fn fields(
    alloc: Global,
    tokens: &[Token],
    at: usize,
    room: u32,
) -> Result<(Items<FieldDecl>, usize), Stop>
    requires { at ≤ length tokens.now }
    ensures is { Says n.Fields room tokens.now at result }
    ensures goes { Stays at tokens.now result }
{
    let mut fields = Items::new(alloc);
    let mut next = at;
    while is_at(tokens, next, Symbol::Name) {
        let (one, behind) = field(alloc, tokens, next, room)?;
        push(&mut fields, one)?;
        if !is_at(tokens, behind, Symbol::Semicolon) {
            return Ok((fields, behind));
        }
        next = behind + 1;
    }
    Ok((fields, next))
}

/// `names : type`
#[cycle(reader)]
#[tactic(auto, using(crate::proofs::TypeArms::field_arms))]
fn field(alloc: Global, tokens: &[Token], at: usize, room: u32) -> Result<(FieldDecl, usize), Stop>
    requires { at ≤ length tokens.now }
    ensures is { Gives field_form field_of room tokens.now at result }
    ensures goes { Goes at tokens.now result }
{
    let (names, next) = names(alloc, tokens, at)?;
    let behind = expect(tokens, next, Symbol::Colon)?;
    let (body, end) = type_form(alloc, tokens, behind, room)?;
    Ok((FieldDecl { names, body }, end))
}
