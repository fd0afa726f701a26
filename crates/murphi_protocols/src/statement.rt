//! Statements. Those that hold other statements are one cycle.
ghost use Rattle.std.specs.Prelude.{◌≡◌, ◌≤◌, length};
ghost use Rattle.murphi_grammar.specs.Names as n;
ghost use Rattle.murphi_grammar.specs.Parts.{form, optional};
ghost use Rattle.murphi_grammar.specs.Pieces.{cut};
ghost use Rattle.murphi_expressions.specs.Says.{Says, Gives, Goes, Stays};
ghost use Rattle.murphi_protocols.specs.Parts.{after, stmt_option, named_stmt_of, simple_form, simple_of, if_form, if_of, switch_form, switch_of, for_form, for_of};

use crate::begins::{begins_expression, begins_statement};
use crate::list::push_some;
use murphi_ast::expr::{Designator, Expr, Named};
use murphi_ast::stmt::{Arm, Case, Stmt};
use murphi_ast::token::Token;
use murphi_expressions::reader::{arguments, bind, expr, implies, place, selectors};
use murphi_expressions::step::{Stop, expect, expect_end, is_at, name, open, place_at, push};
use murphi_grammar::symbol::Symbol;
use sqlite_items::Items;
use std::alloc::Global;

/// Behind the first name of a statement: arguments, or what is assigned to.
#[tactic(auto, using(crate::proofs::StmtArms::named_stmt_arms))]
fn named_stmt(
    alloc: Global,
    tokens: &[Token],
    at: usize,
    room: u32,
    root: Named,
) -> Result<(Stmt, usize), Stop>
    requires { at ≤ length tokens.now }
    ensures is { Gives (cut n.StmtRest) (named_stmt_of root) room tokens.now at result }
    ensures goes { Goes at tokens.now result }
{
    if is_at(tokens, at, Symbol::Open) {
        let (args, end) = arguments(alloc, tokens, at, room)?;
        return Ok((Stmt::Call { name: root, args }, end));
    }
    let (selectors, next) = selectors(alloc, tokens, at, room)?;
    let behind = expect(tokens, next, Symbol::Becomes)?;
    let (value, end) = expr(alloc, tokens, behind, room)?;
    let to = Designator { root, selectors };
    Ok((Stmt::Assign { to, value }, end))
}

/// `error string | assert expr string? | put string | put expr | return expr?`
#[tactic(auto, using(crate::proofs::StmtArms::simple_arms))]
fn simple_stmt(alloc: Global, tokens: &[Token], at: usize, room: u32) -> Result<(Stmt, usize), Stop>
    requires { at ≤ length tokens.now }
    ensures is { Gives simple_form simple_of room tokens.now at result }
    ensures goes { Goes at tokens.now result }
{
    let word = place_at(tokens, at);
    if is_at(tokens, at, Symbol::Error) {
        let end = expect(tokens, at + 1, Symbol::Quoted)?;
        return Ok((Stmt::Error { at: word }, end));
    }
    if is_at(tokens, at, Symbol::Assert) {
        let (test, end) = expr(alloc, tokens, at + 1, room)?;
        if is_at(tokens, end, Symbol::Quoted) {
            return Ok((Stmt::Assert { test, at: word }, end + 1));
        }
        return Ok((Stmt::Assert { test, at: word }, end));
    }
    if is_at(tokens, at, Symbol::Put) {
        if is_at(tokens, at + 1, Symbol::Quoted) {
            return Ok((
                Stmt::Put {
                    value: None,
                    at: word,
                },
                at + 1 + 1,
            ));
        }
        let (value, end) = expr(alloc, tokens, at + 1, room)?;
        return Ok((
            Stmt::Put {
                value: Some(value),
                at: word,
            },
            end,
        ));
    }
    if !is_at(tokens, at, Symbol::Return) {
        return Err(Stop::Wrong(at));
    }
    if !begins_expression(tokens, at + 1) {
        return Ok((
            Stmt::Return {
                value: None,
                at: word,
            },
            at + 1,
        ));
    }
    let (value, end) = expr(alloc, tokens, at + 1, room)?;
    Ok((
        Stmt::Return {
            value: Some(value),
            at: word,
        },
        end,
    ))
}

/// Any number of `, implies` behind these labels.
#[tactic(auto, using(crate::proofs::StmtLoops::labels_arms))]
fn labels(
    alloc: Global,
    tokens: &[Token],
    at: usize,
    room: u32,
    front: Items<Expr>,
) -> Result<(Items<Expr>, usize), Stop>
    requires { at ≤ length tokens.now }
    ensures is { Gives (cut n.MoreLabels) (after front) room tokens.now at result }
    ensures goes { Stays at tokens.now result }
{
    let mut labels = front;
    let mut next = at;
    while is_at(tokens, next, Symbol::Comma) {
        let (one, behind) = implies(alloc, tokens, next + 1, room)?;
        push(&mut labels, one)?;
        next = behind;
    }
    Ok((labels, next))
}

/// `stmt? { ; stmt? }`
#[cycle(statements)]
#[tactic(auto, using(crate::proofs::StmtLoops::stmts_arms))]
pub fn stmts(
    alloc: Global,
    tokens: &[Token],
    at: usize,
    room: u32,
) -> Result<(Items<Stmt>, usize), Stop>
    requires { at ≤ length tokens.now }
    ensures is { Says n.Stmts room tokens.now at result }
    ensures goes { Stays at tokens.now result }
{
    let (first, behind) = optional_stmt(alloc, tokens, at, room)?;
    let mut stmts = Items::new(alloc);
    push_some(&mut stmts, first)?;
    let mut next = behind;
    while is_at(tokens, next, Symbol::Semicolon) {
        let (one, behind) = optional_stmt(alloc, tokens, next + 1, room)?;
        push_some(&mut stmts, one)?;
        next = behind;
    }
    Ok((stmts, next))
}

/// `stmt?`
#[cycle(statements)]
#[tactic(auto, using(crate::proofs::StmtArms::optional_stmt_arms))]
fn optional_stmt(
    alloc: Global,
    tokens: &[Token],
    at: usize,
    room: u32,
) -> Result<(Option<Stmt>, usize), Stop>
    requires { at ≤ length tokens.now }
    ensures is { Gives (optional (form n.Stmt)) stmt_option room tokens.now at result }
    ensures goes { Stays at tokens.now result }
{
    if !begins_statement(tokens, at) {
        return Ok((None, at));
    }
    let (one, end) = stmt(alloc, tokens, at, room)?;
    Ok((Some(one), end))
}

/// A statement.
#[cycle(statements)]
#[tactic(auto, using(crate::proofs::StmtArms::stmt_arms))]
fn stmt(alloc: Global, tokens: &[Token], at: usize, room: u32) -> Result<(Stmt, usize), Stop>
    requires { at ≤ length tokens.now }
    ensures is { Says n.Stmt room tokens.now at result }
    ensures goes { Goes at tokens.now result }
{
    if is_at(tokens, at, Symbol::Name) {
        let (root, next) = name(alloc, tokens, at)?;
        let (tree, end) = named_stmt(alloc, tokens, next, room, root)?;
        return Ok((tree, end));
    }
    if is_at(tokens, at, Symbol::Clear) {
        let (place, end) = place(alloc, tokens, at + 1, room)?;
        let tree = Stmt::Clear {
            place,
            at: place_at(tokens, at),
        };
        return Ok((tree, end));
    }
    if is_at(tokens, at, Symbol::Undefine) {
        let (place, end) = place(alloc, tokens, at + 1, room)?;
        let tree = Stmt::Undefine {
            place,
            at: place_at(tokens, at),
        };
        return Ok((tree, end));
    }
    if is_at(tokens, at, Symbol::If) {
        return if_stmt(alloc, tokens, at, room);
    }
    if is_at(tokens, at, Symbol::Switch) {
        return switch_stmt(alloc, tokens, at, room);
    }
    if is_at(tokens, at, Symbol::For) {
        return for_stmt(alloc, tokens, at, room);
    }
    simple_stmt(alloc, tokens, at, room)
}

/// `if expr then stmts { elsif expr then stmts } ( else stmts )? end`
#[cycle(statements)]
#[tactic(auto, using(crate::proofs::StmtArms::if_arms))]
fn if_stmt(alloc: Global, tokens: &[Token], at: usize, room: u32) -> Result<(Stmt, usize), Stop>
    requires { at ≤ length tokens.now }
    ensures is { Gives if_form if_of room tokens.now at result }
    ensures goes { Goes at tokens.now result }
{
    let inside = open(tokens, at, Symbol::If, room)?;
    let (first, next) = arm(alloc, tokens, at + 1, inside)?;
    let mut arms = Items::new(alloc);
    push(&mut arms, first)?;
    let (arms, behind) = more_arms(alloc, tokens, next, inside, arms)?;
    let (otherwise, last) = otherwise(alloc, tokens, behind, inside)?;
    let end = expect_end(tokens, last, Symbol::EndIf)?;
    let tree = Stmt::If {
        arms,
        otherwise,
        at: place_at(tokens, at),
    };
    Ok((tree, end))
}

/// `expr then stmts`
#[cycle(statements)]
#[tactic(auto, using(crate::proofs::StmtArms::arm_arms))]
fn arm(alloc: Global, tokens: &[Token], at: usize, room: u32) -> Result<(Arm, usize), Stop>
    requires { at ≤ length tokens.now }
    ensures is { Says (n.Cut n.IfArm) room tokens.now at result }
    ensures goes { Goes at tokens.now result }
{
    let (test, next) = expr(alloc, tokens, at, room)?;
    let behind = expect(tokens, next, Symbol::Then)?;
    let (body, end) = stmts(alloc, tokens, behind, room)?;
    Ok((Arm { test, body }, end))
}

/// Any number of `elsif expr then stmts` behind these.
#[cycle(statements)]
#[tactic(auto, using(crate::proofs::StmtLoops::more_arms_arms))]
fn more_arms(
    alloc: Global,
    tokens: &[Token],
    at: usize,
    room: u32,
    front: Items<Arm>,
) -> Result<(Items<Arm>, usize), Stop>
    requires { at ≤ length tokens.now }
    ensures is { Gives (cut n.MoreArms) (after front) room tokens.now at result }
    ensures goes { Stays at tokens.now result }
{
    let mut arms = front;
    let mut next = at;
    while is_at(tokens, next, Symbol::Elsif) {
        let (one, behind) = arm(alloc, tokens, next + 1, room)?;
        push(&mut arms, one)?;
        next = behind;
    }
    Ok((arms, next))
}

/// `( else stmts )?`
#[cycle(statements)]
#[tactic(auto, using(crate::proofs::StmtArms::otherwise_arms))]
fn otherwise(
    alloc: Global,
    tokens: &[Token],
    at: usize,
    room: u32,
) -> Result<(Items<Stmt>, usize), Stop>
    requires { at ≤ length tokens.now }
    ensures is { Says (n.Cut n.Otherwise) room tokens.now at result }
    ensures goes { Stays at tokens.now result }
{
    if !is_at(tokens, at, Symbol::Else) {
        return Ok((Items::new(alloc), at));
    }
    let (body, end) = stmts(alloc, tokens, at + 1, room)?;
    Ok((body, end))
}

/// `switch expr { case implies { , implies } : stmts } ( else stmts )? end`
#[cycle(statements)]
#[tactic(auto, using(crate::proofs::StmtArms::switch_arms))]
fn switch_stmt(alloc: Global, tokens: &[Token], at: usize, room: u32) -> Result<(Stmt, usize), Stop>
    requires { at ≤ length tokens.now }
    ensures is { Gives switch_form switch_of room tokens.now at result }
    ensures goes { Goes at tokens.now result }
{
    let inside = open(tokens, at, Symbol::Switch, room)?;
    let (on, next) = expr(alloc, tokens, at + 1, inside)?;
    let (cases, behind) = cases(alloc, tokens, next, inside)?;
    let (otherwise, last) = otherwise(alloc, tokens, behind, inside)?;
    let end = expect_end(tokens, last, Symbol::EndSwitch)?;
    let tree = Stmt::Switch {
        on,
        cases,
        otherwise,
        at: place_at(tokens, at),
    };
    Ok((tree, end))
}

/// Any number of cases.
#[cycle(statements)]
#[tactic(auto, using(crate::proofs::StmtLoops::cases_arms))]
fn cases(
    alloc: Global,
    tokens: &[Token],
    at: usize,
    room: u32,
) -> Result<(Items<Case>, usize), Stop>
    requires { at ≤ length tokens.now }
    ensures is { Says (n.Cut n.Cases) room tokens.now at result }
    ensures goes { Stays at tokens.now result }
{
    let mut cases = Items::new(alloc);
    let mut next = at;
    while is_at(tokens, next, Symbol::Case) {
        let (one, behind) = case(alloc, tokens, next, room)?;
        push(&mut cases, one)?;
        next = behind;
    }
    Ok((cases, next))
}

/// `case implies { , implies } : stmts`
#[cycle(statements)]
#[tactic(auto, using(crate::proofs::StmtArms::case_arms))]
fn case(alloc: Global, tokens: &[Token], at: usize, room: u32) -> Result<(Case, usize), Stop>
    requires { at ≤ length tokens.now }
    ensures is { Says (n.Cut n.CaseArm) room tokens.now at result }
    ensures goes { Goes at tokens.now result }
{
    let next = expect(tokens, at, Symbol::Case)?;
    let (first, behind) = implies(alloc, tokens, next, room)?;
    let mut front = Items::new(alloc);
    push(&mut front, first)?;
    let (labels, colon) = labels(alloc, tokens, behind, room, front)?;
    let last = expect(tokens, colon, Symbol::Colon)?;
    let (body, end) = stmts(alloc, tokens, last, room)?;
    Ok((Case { labels, body }, end))
}

/// `for bind do stmts end`
#[cycle(statements)]
#[tactic(auto, using(crate::proofs::StmtArms::for_arms))]
fn for_stmt(alloc: Global, tokens: &[Token], at: usize, room: u32) -> Result<(Stmt, usize), Stop>
    requires { at ≤ length tokens.now }
    ensures is { Gives for_form for_of room tokens.now at result }
    ensures goes { Goes at tokens.now result }
{
    let inside = open(tokens, at, Symbol::For, room)?;
    let (bind, next) = bind(alloc, tokens, at + 1, inside)?;
    let behind = expect(tokens, next, Symbol::Do)?;
    let (body, last) = stmts(alloc, tokens, behind, inside)?;
    let end = expect_end(tokens, last, Symbol::EndFor)?;
    let tree = Stmt::For {
        bind,
        body,
        at: place_at(tokens, at),
    };
    Ok((tree, end))
}
