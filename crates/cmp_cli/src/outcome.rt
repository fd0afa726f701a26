//! What the program comes to: an outcome, which has a report.

ghost use Rattle.std.specs.Prelude.{◌≡◌};
ghost use Rattle.cmp_cli.specs.Report.{role_word, code_word};
ghost use Rattle.cmp_cli.specs.Run.{status_of};

use flat_check::{Finding, Formula};
use murphi_ast::rule::Protocol;
use murphi_ast::token::Span;

/// Which of the files that the words name is spoken of.
#[derive(Debug, Clone, Copy, PartialEq, Eq)]
pub enum Role {
    Protocol,
    Lemmas,
    Flows,
    Path,
    Script,
}

impl Role {
    /// How a report names the file.
    pub fn word(self) -> &'static str
        ensures { result.now ≡ role_word self }
    {
        match self {
            Role::Protocol => "protocol",
            Role::Lemmas => "lemmas",
            Role::Flows => "flows",
            Role::Path => "path",
            Role::Script => "script",
        }
    }
}

/// What is wrong at a place of a file.
#[derive(Debug, Clone, Copy, PartialEq, Eq)]
pub enum Code {
    /// The text does not follow the grammar.
    E04,
    /// What stands there is left out of the language, or not built.
    E10,
}

impl Code {
    /// How a report names it.
    pub fn word(self) -> &'static str
        ensures { result.now ≡ code_word self }
    {
        match self {
            Code::E04 => "E04",
            Code::E10 => "E10",
        }
    }
}

/// Why a request is refused.
#[derive(Debug, Clone, Copy, PartialEq, Eq)]
pub enum Refusal {
    /// The words are no request.
    E01,
    /// Something is wrong at a place of a file.
    Placed { code: Code, role: Role, at: Span },
    /// A file has more bytes than `limit`, which is how many a file may have (E16).
    Bytes { role: Role, limit: u64 },
}

/// What the program comes to where nothing fails.
#[derive(Drop)]
pub enum Outcome {
    /// The protocol is inductive.
    Proved {
        protocol: Protocol,
    },
    /// The protocol is not inductive: what was found, and the formula that is violated.
    NotInductive {
        protocol: Protocol,
        finding: Finding,
        formula: Formula,
    },
    /// There is no answer.
    Refused {
        refusal: Refusal,
    },
}

/// How the program ends.
#[derive(Debug, Clone, Copy, PartialEq, Eq)]
pub enum Ending {
    /// The protocol is inductive, and the report was written.
    Proved,
    /// The protocol is not inductive, and the report was written.
    NotInductive,
    /// There is no answer, and the report that says why was written.
    Refused,
    /// The file could not be read. Nothing was written.
    ReadFailed,
    /// The report could not be written to its end.
    WriteFailed,
    /// There was no memory. Nothing was written.
    Memory,
}

impl Ending {
    /// The status that tells this ending from the others.
    pub fn status(self) -> u8
        ensures { result ≡ status_of self }
    {
        match self {
            Ending::Proved => 0,
            Ending::NotInductive => 1,
            Ending::Refused => 3,
            Ending::ReadFailed => 4,
            Ending::WriteFailed => 5,
            Ending::Memory => 6,
        }
    }
}
