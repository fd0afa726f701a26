//! Faults of typing: what is wrong, and where.

use murphi_ast::token::Span;

/// A quantity that has a limit.
#[derive(Debug, Clone, Copy, PartialEq, Eq)]
pub enum Quantity {
    /// Values of one finite type.
    Values,
    /// Node parameters of one rule or start state.
    Parameters,
    /// Instances of all rules, of all start states, of all invariants, without node parameters.
    Instances,
    /// Cells of all globals, or of one body's locals, with one node.
    Leaves,
    /// The weight of one rule, start state, invariant or lemma.
    Weight,
    /// Cells of a window.
    Cells,
    /// Bits of a step.
    Bits,
    /// Cells of a concrete run.
    World,
}

/// What is wrong. The codes are those that the program prints.
#[derive(Debug, Clone, Copy, PartialEq, Eq)]
pub enum Cause {
    /// A name that is not declared.
    E05,
    /// A name that is declared twice in one scope.
    E06,
    /// A wrong type, or a declared name of another kind than its place takes.
    E07,
    /// Not a constant, a bad constant, low above high, a scalarset below 1.
    E08,
    /// Left out of the language.
    E10,
    /// A wrong number of arguments, a `var` argument that is no designator, a procedure as a value, a
    /// function as a statement, a misplaced `return`.
    E11,
    /// What may not be written is written.
    E14,
    /// A limit is passed.
    E16 {
        quantity: Quantity,
        count: u64,
        limit: u64,
    },
}

/// A fault: what is wrong, and the place of the first token of what is wrong.
#[derive(Debug, Clone, Copy, PartialEq, Eq)]
pub struct Fault {
    pub cause: Cause,
    pub at: Span,
}
