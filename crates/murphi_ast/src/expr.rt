//! Expressions, designators, and the types that stand in binds and declarations.
ghost use Rattle.std.specs.Prelude.{◌≡◌, IfOk};

use crate::text::{Memory, Text};
use crate::token::Span;
use sqlite_items::{Boxed, Items};
use std::alloc::Global;

/// A name with the place where it stands.
#[derive(Debug, Drop)]
pub struct Named {
    pub name: Text,
    pub at: Span,
}

/// An operator of a chain, which goes from left to right.
#[derive(Debug, Clone, Copy, PartialEq, Eq)]
pub enum ChainOp {
    Or,
    And,
    Add,
    Subtract,
    Times,
    Divide,
    Modulo,
}

/// A comparison.
#[derive(Debug, Clone, Copy, PartialEq, Eq)]
pub enum CompareOp {
    Equal,
    NotEqual,
    Less,
    LessEqual,
    Greater,
    GreaterEqual,
}

/// An expression. Parentheses leave nothing in it.
#[cycle(expr)]
#[derive(Drop)]
pub enum Expr {
    Number {
        value: u16,
        at: Span,
    },
    Truth {
        value: bool,
        at: Span,
    },
    Place(Designator),
    Call {
        name: Named,
        args: Items<Expr>,
    },
    Not {
        body: Boxed<Expr>,
        at: Span,
    },
    Minus {
        body: Boxed<Expr>,
        at: Span,
    },
    Chain {
        first: Boxed<Expr>,
        rest: Items<Link>,
    },
    Compare {
        op: CompareOp,
        left: Boxed<Expr>,
        right: Boxed<Expr>,
    },
    Implies {
        left: Boxed<Expr>,
        right: Boxed<Expr>,
    },
    Choice {
        test: Boxed<Expr>,
        yes: Boxed<Expr>,
        no: Boxed<Expr>,
    },
    Quantified {
        all: bool,
        bind: Boxed<Bind>,
        body: Boxed<Expr>,
        at: Span,
    },
    IsUndefined {
        place: Designator,
        at: Span,
    },
}

/// One more operand of a chain, with the operator before it.
#[cycle(expr)]
#[derive(Drop)]
pub struct Link {
    pub op: ChainOp,
    pub operand: Expr,
}

/// A variable, followed by fields and indices.
#[cycle(expr)]
#[derive(Drop)]
pub struct Designator {
    pub root: Named,
    pub selectors: Items<Selector>,
}

/// A field or an index of a designator.
#[cycle(expr)]
#[derive(Drop)]
pub enum Selector {
    Field(Named),
    Index(Expr),
}

/// A bound variable and the type of its values.
#[cycle(expr)]
#[derive(Drop)]
pub struct Bind {
    pub name: Named,
    pub over: TypeExpr,
}

/// A type as it is written.
#[cycle(expr)]
#[derive(Drop)]
pub enum TypeExpr {
    Known(Named),
    Truth(Span),
    Range {
        low: Boxed<Expr>,
        high: Boxed<Expr>,
    },
    Listed {
        names: Items<Named>,
        at: Span,
    },
    Scalarset {
        size: Boxed<Expr>,
        at: Span,
    },
    Fields {
        fields: Items<FieldDecl>,
        at: Span,
    },
    Array {
        index: Boxed<TypeExpr>,
        item: Boxed<TypeExpr>,
        at: Span,
    },
}

/// Fields of a record that share one type.
#[cycle(expr)]
#[derive(Drop)]
pub struct FieldDecl {
    pub names: Items<Named>,
    pub body: TypeExpr,
}

impl Named {
    /// A name equal to this one.
    pub fn copy(&self, alloc: Global) -> Result<Named, Memory>
        ensures { IfOk result (λ n. n ≡ self.now) }
    {
        let name = self.name.copy(alloc)?;
        Ok(Named { name, at: self.at })
    }
}

/// Names equal to these.
pub fn copy_names(alloc: Global, names: &[Named]) -> Result<Items<Named>, Memory>
    ensures { IfOk result (λ out. out ≡ names.now) }
{
    let mut out = Items::new(alloc);
    for name in names {
        let copied = name.copy(alloc)?;
        out.push(copied)?;
    }
    Ok(out)
}

fn boxed(alloc: Global, e: Expr) -> Result<Boxed<Expr>, Memory>
    ensures { IfOk result (λ b. b ≡ e) }
{
    let b = Boxed::new(alloc, e)?;
    Ok(b)
}

impl Expr {
    /// An expression equal to this one.
    #[cycle(copy_expr)]
    pub fn copy(&self, alloc: Global) -> Result<Expr, Memory>
        ensures { IfOk result (λ e. e ≡ self.now) }
    {
        match self {
            Expr::Number { value, at } => Ok(Expr::Number {
                value: *value,
                at: *at,
            }),
            Expr::Truth { value, at } => Ok(Expr::Truth {
                value: *value,
                at: *at,
            }),
            Expr::Place(place) => {
                let place = place.copy(alloc)?;
                Ok(Expr::Place(place))
            }
            Expr::Call { name, args } => {
                let name = name.copy(alloc)?;
                let args = copy_exprs(alloc, args.as_slice())?;
                Ok(Expr::Call { name, args })
            }
            Expr::Not { body, at } => {
                let body = body.get().copy(alloc)?;
                let body = boxed(alloc, body)?;
                Ok(Expr::Not { body, at: *at })
            }
            Expr::Minus { body, at } => {
                let body = body.get().copy(alloc)?;
                let body = boxed(alloc, body)?;
                Ok(Expr::Minus { body, at: *at })
            }
            Expr::Chain { first, rest } => {
                let first = first.get().copy(alloc)?;
                let first = boxed(alloc, first)?;
                let rest = copy_links(alloc, rest.as_slice())?;
                Ok(Expr::Chain { first, rest })
            }
            Expr::Compare { op, left, right } => {
                let left = left.get().copy(alloc)?;
                let left = boxed(alloc, left)?;
                let right = right.get().copy(alloc)?;
                let right = boxed(alloc, right)?;
                Ok(Expr::Compare {
                    op: *op,
                    left,
                    right,
                })
            }
            Expr::Implies { left, right } => {
                let left = left.get().copy(alloc)?;
                let left = boxed(alloc, left)?;
                let right = right.get().copy(alloc)?;
                let right = boxed(alloc, right)?;
                Ok(Expr::Implies { left, right })
            }
            Expr::Choice { test, yes, no } => {
                let test = test.get().copy(alloc)?;
                let test = boxed(alloc, test)?;
                let yes = yes.get().copy(alloc)?;
                let yes = boxed(alloc, yes)?;
                let no = no.get().copy(alloc)?;
                let no = boxed(alloc, no)?;
                Ok(Expr::Choice { test, yes, no })
            }
            Expr::Quantified {
                all,
                bind,
                body,
                at,
            } => {
                let bind = bind.get().copy(alloc)?;
                let bind = Boxed::new(alloc, bind)?;
                let body = body.get().copy(alloc)?;
                let body = boxed(alloc, body)?;
                Ok(Expr::Quantified {
                    all: *all,
                    bind,
                    body,
                    at: *at,
                })
            }
            Expr::IsUndefined { place, at } => {
                let place = place.copy(alloc)?;
                Ok(Expr::IsUndefined { place, at: *at })
            }
        }
    }
}

/// Expressions equal to these.
#[cycle(copy_expr)]
pub fn copy_exprs(alloc: Global, all: &[Expr]) -> Result<Items<Expr>, Memory>
    ensures { IfOk result (λ out. out ≡ all.now) }
{
    let mut out = Items::new(alloc);
    for one in all {
        let copied = one.copy(alloc)?;
        out.push(copied)?;
    }
    Ok(out)
}

#[cycle(copy_expr)]
fn copy_links(alloc: Global, all: &[Link]) -> Result<Items<Link>, Memory>
    ensures { IfOk result (λ out. out ≡ all.now) }
{
    let mut out = Items::new(alloc);
    for one in all {
        let operand = one.operand.copy(alloc)?;
        out.push(Link {
            op: one.op,
            operand,
        })?;
    }
    Ok(out)
}

impl Designator {
    /// A designator equal to this one.
    #[cycle(copy_expr)]
    pub fn copy(&self, alloc: Global) -> Result<Designator, Memory>
        ensures { IfOk result (λ d. d ≡ self.now) }
    {
        let root = self.root.copy(alloc)?;
        let selectors = copy_selectors(alloc, self.selectors.as_slice())?;
        Ok(Designator { root, selectors })
    }
}

#[cycle(copy_expr)]
fn copy_selectors(alloc: Global, all: &[Selector]) -> Result<Items<Selector>, Memory>
    ensures { IfOk result (λ out. out ≡ all.now) }
{
    let mut out = Items::new(alloc);
    for one in all {
        let copied = one.copy(alloc)?;
        out.push(copied)?;
    }
    Ok(out)
}

impl Selector {
    #[cycle(copy_expr)]
    fn copy(&self, alloc: Global) -> Result<Selector, Memory>
        ensures { IfOk result (λ s. s ≡ self.now) }
    {
        match self {
            Selector::Field(name) => {
                let name = name.copy(alloc)?;
                Ok(Selector::Field(name))
            }
            Selector::Index(index) => {
                let index = index.copy(alloc)?;
                Ok(Selector::Index(index))
            }
        }
    }
}

impl Bind {
    /// A bind equal to this one.
    #[cycle(copy_expr)]
    pub fn copy(&self, alloc: Global) -> Result<Bind, Memory>
        ensures { IfOk result (λ b. b ≡ self.now) }
    {
        let name = self.name.copy(alloc)?;
        let over = self.over.copy(alloc)?;
        Ok(Bind { name, over })
    }
}

impl TypeExpr {
    /// A type equal to this one.
    #[cycle(copy_expr)]
    pub fn copy(&self, alloc: Global) -> Result<TypeExpr, Memory>
        ensures { IfOk result (λ t. t ≡ self.now) }
    {
        match self {
            TypeExpr::Known(name) => {
                let name = name.copy(alloc)?;
                Ok(TypeExpr::Known(name))
            }
            TypeExpr::Truth(at) => Ok(TypeExpr::Truth(*at)),
            TypeExpr::Range { low, high } => {
                let low = low.get().copy(alloc)?;
                let low = boxed(alloc, low)?;
                let high = high.get().copy(alloc)?;
                let high = boxed(alloc, high)?;
                Ok(TypeExpr::Range { low, high })
            }
            TypeExpr::Listed { names, at } => {
                let names = copy_names(alloc, names.as_slice())?;
                Ok(TypeExpr::Listed { names, at: *at })
            }
            TypeExpr::Scalarset { size, at } => {
                let size = size.get().copy(alloc)?;
                let size = boxed(alloc, size)?;
                Ok(TypeExpr::Scalarset { size, at: *at })
            }
            TypeExpr::Fields { fields, at } => {
                let fields = copy_fields(alloc, fields.as_slice())?;
                Ok(TypeExpr::Fields { fields, at: *at })
            }
            TypeExpr::Array { index, item, at } => {
                let index = index.get().copy(alloc)?;
                let index = Boxed::new(alloc, index)?;
                let item = item.get().copy(alloc)?;
                let item = Boxed::new(alloc, item)?;
                Ok(TypeExpr::Array {
                    index,
                    item,
                    at: *at,
                })
            }
        }
    }
}

#[cycle(copy_expr)]
fn copy_fields(alloc: Global, all: &[FieldDecl]) -> Result<Items<FieldDecl>, Memory>
    ensures { IfOk result (λ out. out ≡ all.now) }
{
    let mut out = Items::new(alloc);
    for one in all {
        let names = copy_names(alloc, one.names.as_slice())?;
        let body = one.body.copy(alloc)?;
        out.push(FieldDecl { names, body })?;
    }
    Ok(out)
}
