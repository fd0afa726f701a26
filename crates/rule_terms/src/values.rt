//! The values of a type that is not of nodes.

#![tactic(auto, using(crate::proofs::ValueEquations::valuing))]

ghost use Rattle.std.specs.Prelude.{◌≡◌, ◌+ℤ◌, ◌-ℤ◌, ◌≤ℤ◌, pos, map, IfOk};
ghost use Rattle.term_core.specs.declared.value.Value.TheVariants.{Number};
ghost use Rattle.murphi_typed.specs.Values.{numbers_from, numbers_within, members};
ghost use Rattle.rule_inline.specs.Parts.{fixed_values};

use murphi_typed::types::Simple;
use sqlite_items::Items;
use std::alloc::Global;
use term_core::text::Memory;
use term_core::value::Value;

/// The members of a kind in order. A number of a member past the greatest u8 is want of memory.
fn members(alloc: Global, kind: u32, count: u16) -> Result<Items<Value>, Memory>
    ensures { IfOk result (λ vs. vs ≡ members kind count) }
{
    let mut out = Items::new(alloc);
    for k in 0..count {
        match u8::try_from(k) {
            Ok(index) => out.push(Value::Member { kind, index })?,
            Err(_) => return Err(Memory),
        }
    }
    Ok(out)
}

/// How many numbers a range has that has some.
fn range_count(low: i16, high: i16) -> u32
    requires { low ≤ℤ high }
    ensures { low +ℤ pos result ≡ high +ℤ pos 1 }
{
    u32::from(high.abs_diff(low)) + 1
}

/// The number so many after the first of a range.
fn number_at(low: i16, step: u32, high: i16) -> i16
    requires { (low +ℤ pos step) ≤ℤ high }
    ensures { result ≡ low +ℤ pos step }
{
    (i32::from(low) + step as i32) as i16
}

/// The numbers from one bound to the other.
fn numbers(alloc: Global, low: i16, high: i16) -> Result<Items<Value>, Memory>
    ensures { IfOk result (λ vs. vs ≡ map Number (numbers_from low (numbers_within (high -ℤ low)))) }
{
    let mut out = Items::new(alloc);
    if low > high {
        return Ok(out);
    }
    let count = range_count(low, high);
    for step in 0..count {
        out.push(Value::Number(number_at(low, step, high)))?;
    }
    Ok(out)
}

/// The values of a type that is not of nodes, in their order.
pub fn values(alloc: Global, over: Simple) -> Result<Items<Value>, Memory>
    ensures { IfOk result (λ vs. vs ≡ fixed_values over) }
{
    match over {
        Simple::Truth => {
            let mut out = Items::new(alloc);
            out.push(Value::Truth(false))?;
            out.push(Value::Truth(true))?;
            Ok(out)
        }
        Simple::Range { low, high } => {
            let out = numbers(alloc, low, high)?;
            Ok(out)
        }
        Simple::Listed { kind, count } | Simple::Scalarset { kind, count } => {
            let out = members(alloc, kind, count)?;
            Ok(out)
        }
        Simple::Node => Ok(Items::new(alloc)),
    }
}
