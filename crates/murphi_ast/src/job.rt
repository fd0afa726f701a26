//! Lemmas and flows, as their files list them.

use crate::expr::{Expr, Named};
use crate::text::Text;
use crate::token::Span;
use sqlite_items::Items;

/// A lemma: its name, and the formula that it claims.
#[derive(Drop)]
pub struct Lemma {
    pub name: Named,
    pub body: Expr,
}

/// One event of a flow: a rule by its title, and one of its node parameters by its name. `at` is the place of
/// the title.
#[derive(Drop)]
pub struct Event {
    pub rule: Text,
    pub param: Text,
    pub at: Span,
}

/// A flow of messages: its name, and its events in order.
#[derive(Drop)]
pub struct Flow {
    pub name: Named,
    pub events: Items<Event>,
}
