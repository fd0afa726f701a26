//! Prefix lengths: how many quantifiers over nodes can be moved to the front of an expression.

#![tactic(auto, using(crate::proofs::MovedEquations::moved))]

ghost use Rattle.std.specs.Prelude.{◌≡◌, ◌+◌, IfOk};
ghost use Rattle.murphi_typed.specs.Prefix.{is_over_nodes, level, up, down, joined_up, joined_down};
ghost use Rattle.murphi_typed.specs.PrefixLists.{list_up, list_down};

use crate::expr::{Expr, Link};
use crate::types::Simple;
use murphi_ast::expr::ChainOp;
use murphi_ast::text::Memory;

impl Simple {
    /// Whether this is the type of nodes.
    pub fn is_over_nodes(self) -> bool
        ensures { result ≡ is_over_nodes self }
    {
        match self {
            Simple::Node => true,
            _ => false,
        }
    }

    /// How deep nodes are bound in a quantifier or a `for` over this type, by how deep they are bound
    /// inside. A length past the greatest u32 is want of memory, here and below.
    pub fn level(self, inner: u32) -> Result<u32, Memory>
        ensures { IfOk result (λ n. n ≡ level self inner) }
    {
        match self {
            Simple::Node => added(1, inner),
            _ => Ok(inner),
        }
    }
}

fn added(a: u32, b: u32) -> Result<u32, Memory>
    ensures { IfOk result (λ n. n ≡ a + b) }
{
    match a.checked_add(b) {
        Some(sum) => Ok(sum),
        None => Err(Memory),
    }
}

fn join_up(op: ChainOp, before: u32, operand: u32) -> Result<u32, Memory>
    ensures { IfOk result (λ n. n ≡ joined_up op before operand) }
{
    match op {
        ChainOp::And => Ok(before.max(operand)),
        ChainOp::Or => added(before, operand),
        _ => Ok(0),
    }
}

fn join_down(op: ChainOp, before: u32, operand: u32) -> Result<u32, Memory>
    ensures { IfOk result (λ n. n ≡ joined_down op before operand) }
{
    match op {
        ChainOp::And => added(before, operand),
        ChainOp::Or => Ok(before.max(operand)),
        _ => Ok(0),
    }
}

impl Expr {
    /// How many `forall`s over nodes can be moved to the front, where the expression is to be true.
    #[cycle(moved)]
    pub fn up(&self) -> Result<u32, Memory>
        ensures { IfOk result (λ n. n ≡ up self.now) }
    {
        match self {
            Expr::Chain { first, rest } => {
                let before = first.get().up()?;
                let n = up_chain(before, rest.as_slice())?;
                Ok(n)
            }
            Expr::Implies { left, right } => {
                let left = left.get().down()?;
                let right = right.get().up()?;
                let n = added(left, right)?;
                Ok(n)
            }
            Expr::Not(body) => {
                let n = body.get().down()?;
                Ok(n)
            }
            Expr::Choice { test, yes, no } => {
                let chosen = test.get().down()?;
                let yes = yes.get().up()?;
                let first = added(chosen, yes)?;
                let left = test.get().up()?;
                let no = no.get().up()?;
                let second = added(left, no)?;
                Ok(first.max(second))
            }
            Expr::Quantified { all, over, body } => {
                if *all {
                    let inner = body.get().up()?;
                    let n = over.level(inner)?;
                    Ok(n)
                } else {
                    Ok(0)
                }
            }
            _ => Ok(0),
        }
    }

    /// How many `exists` over nodes can be moved to the front, where the expression is to be false.
    #[cycle(moved)]
    pub fn down(&self) -> Result<u32, Memory>
        ensures { IfOk result (λ n. n ≡ down self.now) }
    {
        match self {
            Expr::Chain { first, rest } => {
                let before = first.get().down()?;
                let n = down_chain(before, rest.as_slice())?;
                Ok(n)
            }
            Expr::Implies { left, right } => {
                let left = left.get().up()?;
                let right = right.get().down()?;
                Ok(left.max(right))
            }
            Expr::Not(body) => {
                let n = body.get().up()?;
                Ok(n)
            }
            Expr::Choice { test, yes, no } => {
                let chosen = test.get().down()?;
                let yes = yes.get().down()?;
                let first = added(chosen, yes)?;
                let left = test.get().up()?;
                let no = no.get().down()?;
                let second = added(left, no)?;
                Ok(first.max(second))
            }
            Expr::Quantified { all, over, body } => {
                if *all {
                    Ok(0)
                } else {
                    let inner = body.get().down()?;
                    let n = over.level(inner)?;
                    Ok(n)
                }
            }
            _ => Ok(0),
        }
    }
}

#[cycle(moved)]
fn up_chain(before: u32, rest: &[Link]) -> Result<u32, Memory>
    ensures { IfOk result (λ n. n ≡ list_up before rest.now) }
{
    let mut sum = before;
    for link in rest {
        let operand = link.operand.up()?;
        sum = join_up(link.op, sum, operand)?;
    }
    Ok(sum)
}

#[cycle(moved)]
fn down_chain(before: u32, rest: &[Link]) -> Result<u32, Memory>
    ensures { IfOk result (λ n. n ≡ list_down before rest.now) }
{
    let mut sum = before;
    for link in rest {
        let operand = link.operand.down()?;
        sum = join_down(link.op, sum, operand)?;
    }
    Ok(sum)
}
