//! What fits where. An ill-typed part has no type and fits every place.

ghost use Rattle.std.specs.Prelude.{◌≡◌, Option};
ghost use Rattle.murphi_typed.specs.WellTyped.{numbers, widened, same_simple};
ghost use Rattle.murphi_types.specs.Fitting.{fits, is_simple, has_values_of, is_truth, is_number, is_comparable, is_equality, left_fits, right_fits, simple_part};
ghost use Rattle.murphi_types.specs.Designators.{index_fits};

use murphi_ast::expr::CompareOp;
use murphi_typed::types::{AnyType, Simple};

/// The type of all numbers.
pub fn numbers() -> Simple
    ensures { result ≡ numbers }
{
    Simple::Range {
        low: i16::MIN,
        high: i16::MAX,
    }
}

/// The type that a value of a simple type has in an expression: subranges count as one type.
pub fn widened(of: Simple) -> Simple
    ensures { result ≡ widened of }
{
    match of {
        Simple::Range { .. } => numbers(),
        _ => of,
    }
}

/// Whether two simple types are one: the same kind, or the same bounds.
pub fn same_simple(a: Simple, b: Simple) -> bool
    ensures { result ≡ same_simple a b }
{
    match (a, b) {
        (Simple::Truth, Simple::Truth) => true,
        (
            Simple::Range { low, high },
            Simple::Range {
                low: other,
                high: more,
            },
        ) => { if low == other { high == more } else { false } }
        (
            Simple::Listed { kind, count },
            Simple::Listed {
                kind: other,
                count: more,
            },
        ) => { if kind == other { count == more } else { false } }
        (
            Simple::Scalarset { kind, count },
            Simple::Scalarset {
                kind: other,
                count: more,
            },
        ) => { if kind == other { count == more } else { false } }
        (Simple::Node, Simple::Node) => true,
        _ => false,
    }
}

/// The simple type that a type is.
pub fn simple_part(of: &Option<AnyType>) -> Option<Simple>
    ensures { result ≡ simple_part of.now }
{
    match of {
        Some(AnyType::Simple(one)) => Some(*one),
        _ => None,
    }
}

/// Whether the values are of this simple type; two subranges count as one type.
pub fn has_values_of(of: Simple, found: &AnyType) -> bool
    ensures { result ≡ has_values_of of found.now }
{
    match found {
        AnyType::Simple(found) => same_simple(widened(of), widened(*found)),
        _ => false,
    }
}

/// Whether a part is simple.
pub fn fits_simple(found: &Option<AnyType>) -> bool
    ensures { result ≡ fits is_simple found.now }
{
    match found {
        None => true,
        Some(AnyType::Simple(_)) => true,
        Some(_) => false,
    }
}

/// Whether a part has values of a simple type.
pub fn fits_values_of(of: Simple, found: &Option<AnyType>) -> bool
    ensures { result ≡ fits (has_values_of of) found.now }
{
    match found {
        None => true,
        Some(found) => has_values_of(of, found),
    }
}

/// Whether a part is a truth value.
pub fn fits_truth(found: &Option<AnyType>) -> bool
    ensures { result ≡ fits is_truth found.now }
{
    fits_values_of(Simple::Truth, found)
}

/// Whether a part is a number.
pub fn fits_number(found: &Option<AnyType>) -> bool
    ensures { result ≡ fits is_number found.now }
{
    fits_values_of(numbers(), found)
}

/// Whether a comparison asks for equality, which takes all simple values; the others take numbers.
pub fn is_equality(op: CompareOp) -> bool
    ensures { result ≡ is_equality op }
{
    match op {
        CompareOp::Equal | CompareOp::NotEqual => true,
        _ => false,
    }
}

/// Whether a part may stand on the left of a comparison.
pub fn fits_left(equality: bool, found: &Option<AnyType>) -> bool
    ensures { result ≡ fits (left_fits equality) found.now }
{
    if equality {
        fits_simple(found)
    } else {
        fits_number(found)
    }
}

/// Whether a part may be compared with one of another type.
pub fn fits_beside(left: &Option<AnyType>, found: &Option<AnyType>) -> bool
    ensures { result ≡ fits (is_comparable left.now) found.now }
{
    match simple_part(left) {
        Some(left) => fits_values_of(left, found),
        None => fits_simple(found),
    }
}

/// Whether a part may stand on the right of a comparison, beside a left side of this type.
pub fn fits_right(equality: bool, left: &Option<AnyType>, found: &Option<AnyType>) -> bool
    ensures { result ≡ fits (right_fits equality left.now) found.now }
{
    if equality {
        fits_beside(left, found)
    } else {
        fits_number(found)
    }
}

/// Whether a part is an index of this type.
pub fn fits_index(over: Option<Simple>, found: &Option<AnyType>) -> bool
    ensures { result ≡ fits (index_fits over) found.now }
{
    match over {
        Some(over) => fits_values_of(over, found),
        None => true,
    }
}
