//! What formals, results and routines leave.

use murphi_typed::protocol::Formal;
use murphi_typed::types::Simple;
use murphi_types::fault::Fault;
use sqlite_items::Items;
use type_parts::context::Context;

/// What formals leave: the names in scope and what the text has declared; the typed formals so far; and the first
/// fault.
#[derive(Drop)]
pub struct JudgedFormals {
    pub context: Context,
    pub formals: Items<Formal>,
    pub fault: Option<Fault>,
}

/// The type of the result of a function, where it has one, and the first fault.
#[derive(Debug, Clone, Copy)]
pub struct JudgedResult {
    pub of: Option<Simple>,
    pub fault: Option<Fault>,
}

/// What a routine leaves: the names in scope, what the text has declared after it, and its first fault.
#[derive(Drop)]
pub struct JudgedRoutine {
    pub context: Context,
    pub fault: Option<Fault>,
}
