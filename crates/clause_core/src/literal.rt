//! Literals: a variable, or its negation.

ghost use Rattle.std.specs.Prelude.{◌≡◌, ◌^◌, ◌<◌, Bool, List, not};

/// The most variables that literals can speak of.
pub const MOST_VARIABLES: u32 = 1 << 31;

/// A variable or its negation. Variables are numbered from 0 and stay below 2^31.
#[derive(Clone, Copy, Debug, PartialEq, Eq)]
pub struct Lit {
    /// Twice the variable, plus one where the literal is negated.
    pub code: u32,
}

impl Lit {
    ghost use Rattle.clause_core.specs.Literal.{variable_of, is_negated, positive, negative, opposite};
    ghost use Rattle.clause_core.specs.Truth.{value_of, literal_true};

    /// The literal that is true where the variable is.
    pub fn positive(variable: u32) -> Lit
        requires { variable < 2 ^ 31 }
        ensures value { result ≡ positive variable }
        ensures truth { (a : List Bool) → literal_true a result ≡ value_of a variable }
    {
        Lit { code: 2 * variable }
    }

    /// The literal that is true where the variable is false.
    pub fn negative(variable: u32) -> Lit
        requires { variable < 2 ^ 31 }
        ensures value { result ≡ negative variable }
        ensures truth { (a : List Bool) → literal_true a result ≡ not (value_of a variable) }
    {
        Lit {
            code: 2 * variable + 1,
        }
    }

    /// The variable that the literal speaks of.
    pub fn variable(self) -> u32
        ensures value { result ≡ variable_of self }
        ensures range { result < 2 ^ 31 }
    {
        self.code / 2
    }

    /// Whether the literal is the negation of its variable.
    pub fn is_negated(self) -> bool
        ensures { result ≡ is_negated self }
    {
        self.code % 2 == 1
    }

    /// The opposite literal: of the same variable, and true where this one is false.
    pub fn negated(self) -> Lit
        ensures value { result ≡ opposite self }
        ensures variable { variable_of result ≡ variable_of self }
        ensures sign { is_negated result ≡ not (is_negated self) }
        ensures turned { (a : List Bool) → literal_true a result ≡ not (literal_true a self) }
    {
        if self.code % 2 == 1 {
            Lit {
                code: self.code - 1,
            }
        } else {
            Lit {
                code: self.code + 1,
            }
        }
    }
}
