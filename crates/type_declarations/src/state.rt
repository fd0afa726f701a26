//! What declarations leave.

use murphi_typed::protocol::Variable;
use murphi_types::fault::Fault;
use sqlite_items::Items;
use type_parts::context::Context;

/// What declarations leave: the names in scope and what the text has declared; the locals so far; the leaves of
/// the globals, or of the locals; the first fault of typing; and the first limit that is passed.
#[derive(Drop)]
pub struct Declaring {
    pub context: Context,
    pub locals: Items<Variable>,
    pub leaves: u64,
    pub fault: Option<Fault>,
    pub limit: Option<Fault>,
}
