//! What operators make of sets of values: each result of values that the parts may have.

#![tactic(auto, using(crate::proofs::SetLemmas::sets))]

ghost use Rattle.std.specs.Prelude.{◌≡◌, Bool, not, int_lt, true, false, ◌&&◌, ◌||◌, OnOk, IfOk};
ghost use Rattle.std.specs.List.{list_any};
ghost use Rattle.term_core.specs.Values.{arith};
ghost use Rattle.other_abstract.specs.declared.value.AbsValue.{AbsValue};
ghost use Rattle.other_abstract.specs.declared.value.AbsValue.TheVariants.{Truth, Number};
ghost use Rattle.other_abstract.specs.Windows.{truth, number};
ghost use Rattle.other_abstract.specs.Tests.{passes, same_passes, either_way};

use crate::node::AbsNode;
use crate::set::ValueSet;
use crate::value::AbsValue;
use std::alloc::Global;
use term_core::text::Memory;
use term_core::value::ArithOp;

/// One value.
pub fn single(alloc: Global, value: AbsValue) -> Result<ValueSet, Memory>
    ensures { IfOk result (λ out. (p : AbsValue → Bool) → list_any p out ≡ p value) }
{
    let mut out = ValueSet::make(alloc);
    out.add(value)?;
    Ok(out)
}

/// Adds values.
pub fn add_all(out: &mut ValueSet, more: &[AbsValue]) -> Result<(), Memory>
    ensures { OnOk result ((p : AbsValue → Bool) → list_any p out.new ≡ (list_any p out.old || list_any p more.now)) }
{
    for value in more {
        out.add(*value)?;
    }
    Ok(())
}

/// The negations of values.
pub fn negated(alloc: Global, values: &[AbsValue]) -> Result<ValueSet, Memory>
    ensures { IfOk result (λ out. (p : AbsValue → Bool) → list_any p out
        ≡ list_any (λ x. p (Truth (not (truth x)))) values.now) }
{
    let mut out = ValueSet::make(alloc);
    for value in values {
        out.add(AbsValue::Truth(!value.is_true()))?;
    }
    Ok(out)
}

/// A verdict: `all` where each part may be so, and its opposite where one part may be otherwise.
pub fn verdict(alloc: Global, all: bool, each: bool, other: bool) -> Result<ValueSet, Memory>
    ensures { IfOk result (λ out. (p : AbsValue → Bool) → list_any p out ≡ either_way p all each other) }
{
    let mut out = ValueSet::make(alloc);
    if each {
        out.add(AbsValue::Truth(all))?;
    }
    if other {
        out.add(AbsValue::Truth(!all))?;
    }
    Ok(out)
}

/// Adds what comparing two values may give: two that are Other may be one node or two.
fn compare(out: &mut ValueSet, left: AbsValue, right: AbsValue) -> Result<(), Memory>
    ensures { OnOk result ((p : AbsValue → Bool) → list_any p out.new ≡ (list_any p out.old
        || same_passes p left right)) }
{
    match (left, right) {
        (AbsValue::Node(AbsNode::Other), AbsValue::Node(AbsNode::Other)) => {
            out.add(AbsValue::Truth(true))?;
            out.add(AbsValue::Truth(false))?;
            Ok(())
        }
        _ => {
            out.add(AbsValue::Truth(left.is_same(right)))?;
            Ok(())
        }
    }
}

/// Adds what comparing a value with each of these may give.
fn compare_with(out: &mut ValueSet, left: AbsValue, rights: &[AbsValue]) -> Result<(), Memory>
    ensures { OnOk result ((p : AbsValue → Bool) → list_any p out.new
        ≡ (list_any p out.old || list_any (same_passes p left) rights.now)) }
{
    for right in rights {
        compare(out, left, *right)?;
    }
    Ok(())
}

/// What comparing values may give.
pub fn compared(alloc: Global, lefts: &[AbsValue], rights: &[AbsValue]) -> Result<ValueSet, Memory>
    ensures { IfOk result (λ out. (p : AbsValue → Bool) → list_any p out
        ≡ list_any (λ a. list_any (same_passes p a) rights.now) lefts.now) }
{
    let mut out = ValueSet::make(alloc);
    for left in lefts {
        compare_with(&mut out, *left, rights)?;
    }
    Ok(out)
}

/// Adds whether a number is less than each of these.
fn order_with(out: &mut ValueSet, left: AbsValue, rights: &[AbsValue]) -> Result<(), Memory>
    ensures { OnOk result ((p : AbsValue → Bool) → list_any p out.new
        ≡ (list_any p out.old || list_any (λ b. p (Truth (int_lt (number left) (number b)))) rights.now)) }
{
    for right in rights {
        out.add(AbsValue::Truth(left.number() < right.number()))?;
    }
    Ok(())
}

/// Whether numbers may be less than others.
pub fn ordered(alloc: Global, lefts: &[AbsValue], rights: &[AbsValue]) -> Result<ValueSet, Memory>
    ensures { IfOk result (λ out. (p : AbsValue → Bool) → list_any p out
        ≡ list_any (λ a. list_any (λ b. p (Truth (int_lt (number a) (number b)))) rights.now) lefts.now) }
{
    let mut out = ValueSet::make(alloc);
    for left in lefts {
        order_with(&mut out, *left, rights)?;
    }
    Ok(out)
}

/// The result of an operator on two numbers; one out of range is 0, as is that of a zero divisor.
fn calculate(op: ArithOp, left: AbsValue, right: AbsValue) -> AbsValue
    ensures { result ≡ Number (arith op (number left) (number right)) }
{
    AbsValue::Number(op.apply(left.number(), right.number()))
}

/// Adds the results of an operator on a number and each of these.
fn calculate_with(
    out: &mut ValueSet,
    op: ArithOp,
    left: AbsValue,
    rights: &[AbsValue],
) -> Result<(), Memory>
    ensures { OnOk result ((p : AbsValue → Bool) → list_any p out.new
        ≡ (list_any p out.old || list_any (λ b. p (Number (arith op (number left) (number b)))) rights.now)) }
{
    for right in rights {
        out.add(calculate(op, left, *right))?;
    }
    Ok(())
}

/// The results that an operator may give.
pub fn calculated(
    alloc: Global,
    op: ArithOp,
    lefts: &[AbsValue],
    rights: &[AbsValue],
) -> Result<ValueSet, Memory>
    ensures { IfOk result (λ out. (p : AbsValue → Bool) → list_any p out
        ≡ list_any (λ a. list_any (λ b. p (Number (arith op (number a) (number b)))) rights.now) lefts.now) }
{
    let mut out = ValueSet::make(alloc);
    for left in lefts {
        calculate_with(&mut out, op, *left, rights)?;
    }
    Ok(out)
}

/// The values of the first branch where the test may be true, and those of the second where it may be
/// anything else.
pub fn chosen(
    alloc: Global,
    test: &ValueSet,
    first: &[AbsValue],
    second: &[AbsValue],
) -> Result<ValueSet, Memory>
    ensures { IfOk result (λ out. (p : AbsValue → Bool) → list_any p out
        ≡ ((list_any (passes true) test.now && list_any p first.now)
        || (list_any (passes false) test.now && list_any p second.now))) }
{
    let mut out = ValueSet::make(alloc);
    if test.may_be(true) {
        add_all(&mut out, first)?;
    }
    if test.may_be(false) {
        add_all(&mut out, second)?;
    }
    Ok(out)
}
