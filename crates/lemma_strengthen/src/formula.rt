//! Formulas and what they are of.
ghost use Rattle.std.specs.Prelude.{◌≡◌, IfOk};

use std::alloc::Global;
use term_core::term::Term;
use term_core::text::{Memory, Text};

/// What a formula is of: an invariant or a lemma by its title, the derived formula of a rule and one
/// of its node parameters, or that a rule or a start, by its title, does not fault.
#[derive(Drop)]
pub enum FormulaKind {
    Invariant(Text),
    Lemma(Text),
    Flow { rule: Text, param: Text },
    NoFault(Text),
    StartFault(Text),
}

/// A body that is said of every choice of nodes for the first `prefix` variables, repeats allowed.
/// The quantifiers of the body are numbered from `prefix` up.
#[derive(Drop)]
pub struct Formula {
    pub kind: FormulaKind,
    pub prefix: u32,
    pub body: Term,
}

impl FormulaKind {
    /// A kind equal to this one.
    pub fn copy(&self, alloc: Global) -> Result<FormulaKind, Memory>
        ensures { IfOk result (λ k. k ≡ self.now) }
    {
        match self {
            FormulaKind::Invariant(title) => {
                let title = title.copy(alloc)?;
                Ok(FormulaKind::Invariant(title))
            }
            FormulaKind::Lemma(title) => {
                let title = title.copy(alloc)?;
                Ok(FormulaKind::Lemma(title))
            }
            FormulaKind::Flow { rule, param } => {
                let rule = rule.copy(alloc)?;
                let param = param.copy(alloc)?;
                Ok(FormulaKind::Flow { rule, param })
            }
            FormulaKind::NoFault(title) => {
                let title = title.copy(alloc)?;
                Ok(FormulaKind::NoFault(title))
            }
            FormulaKind::StartFault(title) => {
                let title = title.copy(alloc)?;
                Ok(FormulaKind::StartFault(title))
            }
        }
    }
}

impl Formula {
    /// A formula equal to this one.
    pub fn copy(&self, alloc: Global) -> Result<Formula, Memory>
        ensures { IfOk result (λ f. f ≡ self.now) }
    {
        let kind = self.kind.copy(alloc)?;
        let body = self.body.copy(alloc)?;
        Ok(Formula {
            kind,
            prefix: self.prefix,
            body,
        })
    }
}
