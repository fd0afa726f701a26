//! Guards, locals and bodies of rules and start states, and what invariants claim.
#![tactic(auto, using(crate::proofs::BodyLemmas::bodies))]

ghost use Rattle.std.specs.Prelude.{◌≡◌, IfOk, OnOk};
ghost use Rattle.murphi_types.specs.Items.{guard_found};
ghost use Rattle.type_parts.specs.Contexts.{moved};
ghost use Rattle.type_items.specs.Bodies.{guard_judged, guard_with, locals_with, stated_with, bodied_done, bodied_with, claimed_with};

use crate::gathered::{Bodied, Claimed, Inside, JudgedBody, JudgedGuard, Stated};
use crate::lists::shorten;
use murphi_ast::decl::Decl;
use murphi_ast::expr::Expr;
use murphi_ast::stmt::Stmt as WrittenStmt;
use murphi_ast::text::Memory;
use murphi_ast::token::Span;
use murphi_typed::protocol::{Guard, Parameter};
use murphi_typed::stmt::Stmt;
use murphi_types::fault::Fault;
use sqlite_items::Items;
use std::alloc::Global;
use type_declarations::declare::declare;
use type_declarations::state::Declaring;
use type_expressions::judge::expr;
use type_parts::context::Context;
use type_parts::expressions::as_truth;
use type_parts::faults::sooner;
use type_parts::judged::Judged;
use type_parts::places::place_of;
use type_parts::weights::plus;
use type_statements::judge::statements;
use type_statements::judged::Leaving;

fn guard_made(at: Span, part: Judged) -> JudgedGuard
    ensures { result ≡ guard_judged at part }
{
    JudgedGuard {
        guard: Some(Guard {
            test: part.tree,
            at,
        }),
        weight: part.weight,
        fault: part.fault,
    }
}

/// A guard, if there is one.
fn judge_guard(
    alloc: Global,
    context: &mut Context,
    written: &Option<Expr>,
) -> Result<JudgedGuard, Memory>
    ensures part { IfOk result (λ r. r ≡ guard_with context.old written.now) }
    ensures context { OnOk result (context.new ≡ moved context.old (guard_found context.old.scope context.old.known written.now).known) }
{
    match written {
        None => Ok(JudgedGuard {
            guard: None,
            weight: 0,
            fault: None,
        }),
        Some(test) => {
            let at = place_of(test);
            let part = expr(alloc, context, test)?;
            Ok(guard_made(at, as_truth(part, at)))
        }
    }
}

/// The locals of one body.
fn judge_locals(alloc: Global, context: Context, all: &[Decl]) -> Result<Declaring, Memory>
    ensures { IfOk result (λ d. d ≡ locals_with context all.now) }
{
    let mut done = Declaring {
        context,
        locals: Items::new(alloc),
        leaves: 0,
        fault: None,
        limit: None,
    };
    for one in all {
        declare(alloc, false, one, &mut done)?;
    }
    Ok(done)
}

/// The statements of a body after its locals, which are in scope in it alone: before them there were so many
/// entries.
fn judge_statements(
    alloc: Global,
    entries: usize,
    declared: Declaring,
    body: &[WrittenStmt],
) -> Result<Stated, Memory>
    ensures { IfOk result (λ s. s ≡ stated_with entries declared body.now) }
{
    let Declaring {
        context,
        locals,
        leaves: _,
        fault,
        limit,
    } = declared;
    let mut context = context;
    let done = statements(alloc, &mut context, Leaving::AtEnd, body)?;
    shorten(&mut context.scope.inner, entries);
    let fault = sooner(fault, done.fault);
    Ok(Stated {
        context,
        locals,
        trees: done.trees,
        weight: done.weight,
        fault,
        limit,
    })
}

fn bodied(
    params: Items<Parameter>,
    fault: Option<Fault>,
    tested: JudgedGuard,
    done: Stated,
) -> Bodied
    ensures { result ≡ bodied_done params fault tested done }
{
    Bodied {
        inside: Inside {
            context: done.context,
            params,
            fault,
        },
        part: JudgedBody {
            guard: tested.guard,
            locals: done.locals,
            body: Stmt::Block(done.trees),
            weight: plus(tested.weight, done.weight),
            fault: sooner(tested.fault, done.fault),
            limit: done.limit,
        },
    }
}

/// Guard, locals and body, in text order.
pub fn judge_body(
    alloc: Global,
    inside: Inside,
    guard: &Option<Expr>,
    locals: &[Decl],
    body: &[WrittenStmt],
) -> Result<Bodied, Memory>
    ensures { IfOk result (λ b. b ≡ bodied_with inside guard.now locals.now body.now) }
{
    let Inside {
        context,
        params,
        fault,
    } = inside;
    let mut context = context;
    let entries = context.scope.inner.len();
    let tested = judge_guard(alloc, &mut context, guard)?;
    let declared = judge_locals(alloc, context, locals)?;
    let done = judge_statements(alloc, entries, declared, body)?;
    let made = bodied(params, fault, tested, done);
    Ok(made)
}

/// What an invariant claims: a truth value.
pub fn judge_claim(alloc: Global, inside: Inside, body: &Expr) -> Result<Claimed, Memory>
    ensures { IfOk result (λ c. c ≡ claimed_with inside body.now) }
{
    let Inside {
        context,
        params,
        fault,
    } = inside;
    let mut context = context;
    let part = expr(alloc, &mut context, body)?;
    let part = as_truth(part, place_of(body));
    Ok(Claimed {
        inside: Inside {
            context,
            params,
            fault,
        },
        part,
    })
}
