//! Making an abstract machine, and when there is none.

#![tactic(auto, using(crate::proofs::MakingLemmas::making))]

ghost use Rattle.std.specs.Prelude.{◌≡◌, ◌⊎◌, ℕ, ◌+◌, ◌≤◌, ◌^◌, max, nat_lt, Option, None, Some, length, slice_get};
ghost use Rattle.std.specs.Prelude.{IfOk, IfErr, IsTrue};
ghost use Rattle.std.specs.List.{All};
ghost use Rattle.lemma_strengthen.specs.declared.formula.Formula.{Formula};
ghost use Rattle.lemma_strengthen.specs.declared.formula.FormulaKind.TheVariants.{StartFault};
ghost use Rattle.term_core.specs.Variables.{fits};
ghost use Rattle.term_core.specs.Firing.{node_parameters, is_node_value};
ghost use Rattle.term_core.specs.Whole.{IsWhole};
ghost use Rattle.other_abstract.specs.declared.making.MakeStop.TheVariants.{Memory, Prefix};
ghost use Rattle.other_abstract.specs.Machines.{PrefixesFit};
ghost use Rattle.other_abstract.specs.Making.{long_formula, long_start, most_parameters, cell_count, counted};
ghost use Rattle.other_abstract.specs.Making.{refusal, too_many, largest_window, IsMade};
ghost use Rattle.other_abstract.specs.Laws.{CoversSteps, CoversStarts};

use crate::laws::steps_are_covered;
use crate::machine::AbstractMachine;
use lemma_strengthen::formula::{Formula, FormulaKind};
use sqlite_items::Items;
use std::alloc::Global;
use term_core::machine::{CellFamily, TermMachine, TermRule};
use term_core::value::Value;

/// Why there is no machine.
#[derive(Drop)]
pub enum MakeStop {
    /// The prefix of a formula, or of a start, is longer than the kept nodes are many.
    Prefix {
        formula: FormulaKind,
        prefix: u32,
        m: u8,
    },
    /// A window has so many cells, more than 4,000. A count past the greatest u64 is given as that.
    Cells {
        count: u64,
    },
    Memory,
}

impl AbstractMachine {
    /// The abstract machine that keeps m nodes, with these formulas. It is refused for the first formula
    /// whose prefix is longer than m, or else the first start, or else for a window of more than 4,000
    /// cells.
    pub fn make(
        alloc: Global,
        machine: TermMachine,
        phi: Vec<Formula>,
        m: u8,
    ) -> Result<AbstractMachine, MakeStop>
        requires whole { IsWhole machine }
        requires fit { All (λ (f : Formula). IsTrue (fits machine.families f.body)) phi.items }
        requires some { 1 ≤ m }
        requires few { m ≤ 4 }
        ensures machine { IfOk result (λ M. M.machine ≡ machine) }
        ensures formulas { IfOk result (λ M. M.formulas ≡ phi.items) }
        ensures kept { IfOk result (λ M. M.kept ≡ m) }
        ensures made { IfOk result (λ M. IsMade M) }
        ensures accepted { IfOk result (λ M. refusal m machine phi.items ≡ None) }
        ensures refused { IfErr result (λ stop. (stop ≡ Memory) ⊎ (refusal m machine phi.items ≡ Some stop)) }
        ensures prefixes { IfOk result (λ M. PrefixesFit M) }
        ensures steps { IfOk result (λ M. CoversSteps M) }
        ensures starts { IfOk result (λ M. CoversStarts M) }
    {
        steps_are_covered();
        match stop_of(alloc, &machine, phi.as_slice(), m)? {
            Some(stop) => Err(stop),
            None => Ok(AbstractMachine {
                machine,
                formulas: Items::from_vec(phi),
                kept: m,
                alloc,
            }),
        }
    }

    /// The machine of terms.
    pub fn machine(&self) -> &TermMachine
        ensures { result.now ≡ self.now.machine }
    {
        &self.machine
    }

    /// The formulas.
    pub fn formulas(&self) -> &[Formula]
        ensures { result.now ≡ self.now.formulas }
    {
        self.formulas.as_slice()
    }

    /// How many nodes are kept.
    pub fn kept(&self) -> u8
        ensures { result ≡ self.now.kept }
    {
        self.kept
    }

    /// How many cells a window with so many fired nodes has, or the greatest u64 where that is less.
    pub fn cells(&self, fired: u8) -> u64
        requires { fired ≤ 3 }
        ensures { result ≡ counted (cell_count (self.now.kept + fired) self.now.machine.families) }
    {
        count_cells(
            u64::from(self.kept) + u64::from(fired),
            self.machine.families.as_slice(),
        )
    }
}

/// Why there is no machine, if there is none.
fn stop_of(
    alloc: Global,
    machine: &TermMachine,
    phi: &[Formula],
    m: u8,
) -> Result<Option<MakeStop>, MakeStop>
    requires { IsWhole machine.now }
    ensures stop { IfOk result (λ stop. stop ≡ refusal m machine.now phi.now) }
    ensures memory { IfErr result (λ stop. stop ≡ Memory) }
{
    if let Some(stop) = first_long_formula(alloc, m, phi)? {
        return Ok(Some(stop));
    }
    if let Some(stop) = first_long_start(alloc, m, machine.starts.as_slice())? {
        return Ok(Some(stop));
    }
    let stop = cells_stop(machine, m);
    Ok(stop)
}

/// Whether a window has too many cells.
fn cells_stop(machine: &TermMachine, m: u8) -> Option<MakeStop>
    requires { IsWhole machine.now }
    ensures { result ≡ too_many (largest_window m machine.now) }
{
    let starts = most_parameters(machine.starts.as_slice());
    let rules = most_parameters(machine.rules.as_slice());
    let count = count_cells(
        u64::from(m) + starts.max(rules),
        machine.families.as_slice(),
    );
    if 4000 < count {
        Some(MakeStop::Cells { count })
    } else {
        None
    }
}

/// The stop of the first formula whose prefix is longer than m.
fn first_long_formula(
    alloc: Global,
    m: u8,
    formulas: &[Formula],
) -> Result<Option<MakeStop>, MakeStop>
    ensures found { IfOk result (λ found. found ≡ long_formula m formulas.now) }
    ensures memory { IfErr result (λ stop. stop ≡ Memory) }
{
    for formula in formulas {
        if u32::from(m) < formula.prefix {
            let stop = formula_stop(alloc, m, formula)?;
            return Ok(Some(stop));
        }
    }
    Ok(None)
}

/// The stop of a formula.
fn formula_stop(alloc: Global, m: u8, formula: &Formula) -> Result<MakeStop, MakeStop>
    ensures is { IfOk result (λ stop. stop ≡ Prefix formula.now.kind formula.now.prefix m) }
    ensures memory { IfErr result (λ stop. stop ≡ Memory) }
{
    match formula.kind.copy(alloc) {
        Ok(kind) => Ok(MakeStop::Prefix {
            formula: kind,
            prefix: formula.prefix,
            m,
        }),
        Err(_) => Err(MakeStop::Memory),
    }
}

/// The stop of the first start whose prefix is longer than m.
fn first_long_start(alloc: Global, m: u8, starts: &[TermRule]) -> Result<Option<MakeStop>, MakeStop>
    ensures found { IfOk result (λ found. found ≡ long_start m starts.now) }
    ensures memory { IfErr result (λ stop. stop ≡ Memory) }
{
    for start in starts {
        if u32::from(m) < start.prefix {
            let stop = start_stop(alloc, m, start)?;
            return Ok(Some(stop));
        }
    }
    Ok(None)
}

/// The stop of a start.
fn start_stop(alloc: Global, m: u8, start: &TermRule) -> Result<MakeStop, MakeStop>
    ensures is { IfOk result (λ stop. stop ≡ Prefix (StartFault start.now.title) start.now.prefix m) }
    ensures memory { IfErr result (λ stop. stop ≡ Memory) }
{
    match start.title.copy(alloc) {
        Ok(title) => Ok(MakeStop::Prefix {
            formula: FormulaKind::StartFault(title),
            prefix: start.prefix,
            m,
        }),
        Err(_) => Err(MakeStop::Memory),
    }
}

/// How many parameters of a rule are nodes, where they are at most three.
pub(crate) fn node_parameters(rule: &TermRule) -> u64
    requires { node_parameters rule.now ≤ 3 }
    ensures { result ≡ node_parameters rule.now }
{
    let mut count: u64 = 0;
    for value in rule.values.as_slice() {
        if let Value::Node(_) = value {
            count = count.saturating_add(1);
        }
    }
    count
}

/// The most node parameters that one of these has.
fn most_parameters(rules: &[TermRule]) -> u64
    requires { All (λ r. node_parameters r ≤ 3) rules.now }
    ensures most { result ≡ most_parameters rules.now }
    ensures few { result ≤ 3 }
{
    let mut most: u64 = 0;
    for rule in rules {
        most = most.max(node_parameters(rule));
    }
    most
}

/// How many cells the families have, or the greatest u64 where that is less.
fn count_cells(nodes: u64, families: &[CellFamily]) -> u64
    ensures { result ≡ counted (cell_count nodes families.now) }
{
    let mut sum: u64 = 0;
    for family in families {
        sum = sum.saturating_add(own_cells(nodes, family.axes));
    }
    sum
}

/// How many cells a family with so many axes has, or the greatest u64 where that is less.
fn own_cells(nodes: u64, axes: u32) -> u64
    ensures { result ≡ counted (nodes ^ axes) }
{
    match nodes.checked_pow(axes) {
        Some(count) => count,
        None => u64::MAX,
    }
}
