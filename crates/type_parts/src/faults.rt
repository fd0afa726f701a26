//! The first of several faults.

ghost use Rattle.std.specs.Prelude.{◌≡◌};
ghost use Rattle.murphi_types.specs.Faults.{code_of, is_before, sooner};
ghost use Rattle.type_parts.specs.Judging.{own};

use murphi_ast::token::Span;
use murphi_types::fault::{Cause, Fault};

/// The number of a code.
fn code_of(cause: Cause) -> u8
    ensures { result ≡ code_of cause }
{
    match cause {
        Cause::E05 => 5,
        Cause::E06 => 6,
        Cause::E07 => 7,
        Cause::E08 => 8,
        Cause::E10 => 10,
        Cause::E11 => 11,
        Cause::E14 => 14,
        Cause::E16 { .. } => 16,
    }
}

/// Whether a fault comes before another: it stands earlier in the text, or at the same place with the
/// lesser code.
fn is_before(f: Fault, g: Fault) -> bool
    ensures { result ≡ is_before f g }
{
    if f.at.line < g.at.line {
        return true;
    }
    if f.at.line != g.at.line {
        return false;
    }
    if f.at.column < g.at.column {
        return true;
    }
    if f.at.column != g.at.column {
        return false;
    }
    code_of(f.cause) < code_of(g.cause)
}

/// The first of two faults, if there is one.
pub fn sooner(a: Option<Fault>, b: Option<Fault>) -> Option<Fault>
    ensures { result ≡ sooner a b }
{
    match (a, b) {
        (Some(f), Some(g)) => { if is_before(g, f) { Some(g) } else { Some(f) } }
        (None, g) => g,
        (f, None) => f,
    }
}

/// A fault, unless a test passes.
pub fn unless(fits: bool, cause: Cause, at: Span) -> Option<Fault>
    ensures { result ≡ own fits cause at }
{
    if fits {
        None
    } else {
        Some(Fault { cause, at })
    }
}
