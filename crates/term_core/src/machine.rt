//! Machines of terms: families of cells, starts and rules.
ghost use Rattle.std.specs.Prelude.{◌≡◌, IfOk};
ghost use Rattle.term_core.specs.Cells.{family_may_have, blank_value};

use crate::term::Term;
use crate::text::{Memory, Text};
use crate::value::{Sort, Value};
use sqlite_items::Items;
use std::alloc::Global;

/// Cells of one sort: one for each choice of nodes for the axes. The name has `[]` where a node
/// index stands, and `undefined` says whether the cells may be undefined.
#[derive(Drop)]
pub struct CellFamily {
    pub name: Text,
    pub sort: Sort,
    pub axes: u32,
    pub undefined: bool,
}

/// The members of a kind: the names by which they are printed, in their order.
#[derive(Drop)]
pub struct Kind {
    pub names: Items<Text>,
}

/// A term that has to be true for all nodes: its variables are the parameters of what it belongs
/// to, and then so many binders.
#[derive(Drop)]
pub struct Piece {
    pub binders: u32,
    pub body: Term,
}

/// What a rule writes into each cell of a family: the variables are the node parameters of the
/// rule, and then the node indices of the cell.
#[derive(Drop)]
pub struct Update {
    pub family: u32,
    pub body: Term,
}

/// A rule or a start. `values` has an entry for each parameter, the outermost first; that of the
/// k-th node parameter is the node k, which only marks its place. `params` has their names. The
/// pieces of `ok` are all true for all nodes where nothing faults, and `prefix` is the number of
/// nodes that this speaks of.
#[derive(Drop)]
pub struct TermRule {
    pub title: Text,
    pub values: Items<Value>,
    pub params: Items<Text>,
    pub prefix: u32,
    pub guard: Term,
    pub ok: Items<Piece>,
    pub updates: Items<Update>,
}

/// A machine, for any number of nodes.
#[derive(Drop)]
pub struct TermMachine {
    pub kinds: Items<Kind>,
    pub families: Items<CellFamily>,
    pub starts: Items<TermRule>,
    pub rules: Items<TermRule>,
}

impl Kind {
    /// A kind equal to this one.
    pub fn copy(&self, alloc: Global) -> Result<Kind, Memory>
        ensures { IfOk result (λ k. k ≡ self.now) }
    {
        let names = copy_texts(alloc, self.names.as_slice())?;
        Ok(Kind { names })
    }
}

impl Piece {
    /// A piece equal to this one.
    pub fn copy(&self, alloc: Global) -> Result<Piece, Memory>
        ensures { IfOk result (λ p. p ≡ self.now) }
    {
        let body = self.body.copy(alloc)?;
        Ok(Piece {
            binders: self.binders,
            body,
        })
    }
}

impl Update {
    /// An update equal to this one.
    pub fn copy(&self, alloc: Global) -> Result<Update, Memory>
        ensures { IfOk result (λ u. u ≡ self.now) }
    {
        let body = self.body.copy(alloc)?;
        Ok(Update {
            family: self.family,
            body,
        })
    }
}

impl TermRule {
    /// A rule or start equal to this one.
    pub fn copy(&self, alloc: Global) -> Result<TermRule, Memory>
        ensures { IfOk result (λ r. r ≡ self.now) }
    {
        let title = self.title.copy(alloc)?;
        let values = Items::from_slice(alloc, self.values.as_slice())?;
        let params = copy_texts(alloc, self.params.as_slice())?;
        let guard = self.guard.copy(alloc)?;
        let ok = copy_pieces(alloc, self.ok.as_slice())?;
        let updates = copy_updates(alloc, self.updates.as_slice())?;
        Ok(TermRule {
            title,
            values,
            params,
            prefix: self.prefix,
            guard,
            ok,
            updates,
        })
    }
}

impl TermMachine {
    /// A machine equal to this one.
    pub fn copy(&self, alloc: Global) -> Result<TermMachine, Memory>
        ensures { IfOk result (λ m. m ≡ self.now) }
    {
        let kinds = copy_kinds(alloc, self.kinds.as_slice())?;
        let families = copy_families(alloc, self.families.as_slice())?;
        let starts = copy_rules(alloc, self.starts.as_slice())?;
        let rules = copy_rules(alloc, self.rules.as_slice())?;
        Ok(TermMachine {
            kinds,
            families,
            starts,
            rules,
        })
    }
}

impl CellFamily {
    /// A family equal to this one.
    pub fn copy(&self, alloc: Global) -> Result<CellFamily, Memory>
        ensures { IfOk result (λ f. f ≡ self.now) }
    {
        let name = self.name.copy(alloc)?;
        let sort = self.sort.copy(alloc)?;
        Ok(CellFamily {
            name,
            sort,
            axes: self.axes,
            undefined: self.undefined,
        })
    }

    /// Whether a cell of the family may have this value, with so many nodes.
    pub fn may_have(&self, nodes: u32, value: Value) -> bool
        ensures { result ≡ family_may_have nodes self.now value }
    {
        match value {
            Value::Undefined => self.undefined,
            _ => self.sort.has(nodes, value),
        }
    }

    /// The value of a cell before anything is written: undefined, or 0 where it cannot be that.
    pub fn blank(&self) -> Value
        ensures { result ≡ blank_value self.now }
    {
        if self.undefined {
            Value::Undefined
        } else {
            Value::Number(0)
        }
    }
}

/// Texts equal to these.
pub fn copy_texts(alloc: Global, all: &[Text]) -> Result<Items<Text>, Memory>
    ensures { IfOk result (λ out. out ≡ all.now) }
{
    let mut out = Items::new(alloc);
    for one in all {
        let copied = one.copy(alloc)?;
        out.push(copied)?;
    }
    Ok(out)
}

/// Kinds equal to these.
pub fn copy_kinds(alloc: Global, all: &[Kind]) -> Result<Items<Kind>, Memory>
    ensures { IfOk result (λ out. out ≡ all.now) }
{
    let mut out = Items::new(alloc);
    for one in all {
        let copied = one.copy(alloc)?;
        out.push(copied)?;
    }
    Ok(out)
}

/// Families equal to these.
pub fn copy_families(alloc: Global, all: &[CellFamily]) -> Result<Items<CellFamily>, Memory>
    ensures { IfOk result (λ out. out ≡ all.now) }
{
    let mut out = Items::new(alloc);
    for one in all {
        let copied = one.copy(alloc)?;
        out.push(copied)?;
    }
    Ok(out)
}

/// Pieces equal to these.
pub fn copy_pieces(alloc: Global, all: &[Piece]) -> Result<Items<Piece>, Memory>
    ensures { IfOk result (λ out. out ≡ all.now) }
{
    let mut out = Items::new(alloc);
    for one in all {
        let copied = one.copy(alloc)?;
        out.push(copied)?;
    }
    Ok(out)
}

/// Updates equal to these.
pub fn copy_updates(alloc: Global, all: &[Update]) -> Result<Items<Update>, Memory>
    ensures { IfOk result (λ out. out ≡ all.now) }
{
    let mut out = Items::new(alloc);
    for one in all {
        let copied = one.copy(alloc)?;
        out.push(copied)?;
    }
    Ok(out)
}

/// Rules or starts equal to these.
pub fn copy_rules(alloc: Global, all: &[TermRule]) -> Result<Items<TermRule>, Memory>
    ensures { IfOk result (λ out. out ≡ all.now) }
{
    let mut out = Items::new(alloc);
    for one in all {
        let copied = one.copy(alloc)?;
        out.push(copied)?;
    }
    Ok(out)
}
