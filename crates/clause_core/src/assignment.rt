//! Assignments: a truth value for each variable, and which literals they make true.

ghost use Rattle.std.specs.Prelude.{◌≡◌, IfOk};

use crate::literal::Lit;
use std::alloc::Global;
use std::marker::Model;

/// The values of the variables from 0 on. A variable past the end is false. Contracts see the list.
#[derive(Debug, Drop)]
pub struct Assignment {
    values: Vec<bool>,
}

impl Model for Assignment {
    ghost use Rattle.std.specs.Prelude.{List, Bool};

    ghost Value = { List Bool };

    ghost view = { λ a. a.values.items };
}

impl Assignment {
    ghost use Rattle.clause_core.specs.Truth.{value_of, literal_true};

    /// The assignment of these values, the first for variable 0. It takes no memory.
    pub fn make(_alloc: Global, values: Vec<bool>) -> Assignment
        ensures { result ≡ values.items }
    {
        Assignment { values }
    }

    /// The values of the variables, the first for variable 0.
    pub fn items(&self) -> &[bool]
        ensures { result.now ≡ self.now }
    {
        self.values.as_slice()
    }

    /// The value of a variable: false for one past the end.
    pub fn value(&self, variable: u32) -> bool
        ensures { result ≡ value_of self.now variable }
    {
        let values = self.items();
        let at = variable as usize;
        if at < values.len() { values[at] } else { false }
    }

    /// Whether the literal is true.
    pub fn is_true(&self, literal: Lit) -> bool
        ensures { result ≡ literal_true self.now literal }
    {
        let value = self.value(literal.variable());
        if literal.is_negated() { !value } else { value }
    }
}
