//! Lists of names.
ghost use Rattle.std.specs.Prelude.{◌≡◌, ◌≤◌, length};
ghost use Rattle.murphi_grammar.specs.Names as n;
ghost use Rattle.murphi_grammar.specs.Parts.{form};
ghost use Rattle.murphi_expressions.specs.Says.{Takes, Goes, itself};

use crate::step::{Stop, is_at, name, push};
use murphi_ast::expr::Named;
use murphi_ast::token::Token;
use murphi_grammar::symbol::Symbol;
use sqlite_items::Items;
use std::alloc::Global;

/// Names with commas between them.
#[tactic(auto, using(crate::proofs::NameArms::names_arms))]
pub fn names(alloc: Global, tokens: &[Token], at: usize) -> Result<(Items<Named>, usize), Stop>
    requires { at ≤ length tokens.now }
    ensures is { Takes (form n.NameList) itself tokens.now at result }
    ensures goes { Goes at tokens.now result }
{
    let mut names = Items::new(alloc);
    let (first, behind) = name(alloc, tokens, at)?;
    push(&mut names, first)?;
    let mut next = behind;
    while is_at(tokens, next, Symbol::Comma) {
        let (one, behind) = name(alloc, tokens, next + 1)?;
        push(&mut names, one)?;
        next = behind;
    }
    Ok((names, next))
}
