//! The numbers of cells among those of their variable. Nothing here takes memory; a count that would pass
//! its range is answered as want of memory.

#![tactic(auto, using(crate::proofs::LayoutEquations::layouts))]

ghost use Rattle.std.specs.Prelude.{◌≡◌, ◌+◌, ◌*◌, ◌-ℤ◌, ◌<◌, drop, length, slice_get, Some, IfOk};
ghost use Rattle.std.specs.Str.{bytes_eq};
ghost use Rattle.murphi_typed.specs.Values.{numbers_within};
ghost use Rattle.murphi_run.specs.Layout.{name_before, value_count, far, rank, size, offset};
ghost use Rattle.murphi_run.specs.Lists.{list_size, list_first, list_offset};

use murphi_ast::text::{Memory, Text};
use murphi_typed::types::{AnyType, Field, Simple};
use std::cmp::Ordering;
use term_core::value::Value;

/// Whether a name stands before another in the order of names.
pub fn name_before(a: &Text, b: &Text) -> bool
    ensures { result ≡ name_before a.now b.now }
{
    match a.bytes().cmp(b.bytes()) {
        Ordering::Less => true,
        _ => false,
    }
}

pub(crate) fn is_same_name(a: &Text, b: &Text) -> bool
    ensures { result ≡ bytes_eq a.now b.now }
{
    a.bytes() == b.bytes()
}

pub(crate) fn plus(a: usize, b: usize) -> Result<usize, Memory>
    ensures { IfOk result (λ n. n ≡ a + b) }
{
    match a.checked_add(b) {
        Some(sum) => Ok(sum),
        None => Err(Memory),
    }
}

fn times(a: usize, b: usize) -> Result<usize, Memory>
    ensures { IfOk result (λ n. n ≡ a * b) }
{
    match a.checked_mul(b) {
        Some(product) => Ok(product),
        None => Err(Memory),
    }
}

fn far(low: i16, z: i16) -> usize
    ensures { result ≡ far (z -ℤ low) }
{
    if z < low {
        return 0;
    }
    let far = i32::from(z) - i32::from(low);
    far.unsigned_abs() as usize
}

fn span(low: i16, high: i16) -> usize
    ensures { result ≡ numbers_within (high -ℤ low) }
{
    if high < low {
        return 0;
    }
    let far = i32::from(high) - i32::from(low);
    far.unsigned_abs() as usize + 1
}

/// How many values a simple type has, with so many nodes.
pub fn value_count(nodes: u32, of: Simple) -> usize
    ensures { result ≡ value_count nodes of }
{
    match of {
        Simple::Truth => 2,
        Simple::Range { low, high } => span(low, high),
        Simple::Listed { count, .. } => count as usize,
        Simple::Scalarset { count, .. } => count as usize,
        Simple::Node => nodes as usize,
    }
}

/// The number of a value among those of a simple type, from 0. A value of another type counts as the
/// first.
pub fn rank(of: Simple, value: Value) -> usize
    ensures { result ≡ rank of value }
{
    match of {
        Simple::Truth => match value {
            Value::Truth(b) => { if b { 1 } else { 0 } }
            _ => 0,
        },
        Simple::Range { low, .. } => match value {
            Value::Number(z) => far(low, z),
            _ => 0,
        },
        Simple::Listed { .. } | Simple::Scalarset { .. } => match value {
            Value::Member { index, .. } => index as usize,
            _ => 0,
        },
        Simple::Node => match value {
            Value::Node(n) => { if n > 0 { n as usize - 1 } else { 0 } }
            _ => 0,
        },
    }
}

/// How many cells a variable of a type has, with so many nodes.
#[cycle(size)]
pub fn size(nodes: u32, of: &AnyType) -> Result<usize, Memory>
    ensures { IfOk result (λ n. n ≡ size nodes of.now) }
{
    match of {
        AnyType::Simple(_) => Ok(1),
        AnyType::Record { fields } => {
            let n = fields_size(nodes, fields.as_slice())?;
            Ok(n)
        }
        AnyType::Array { index, item } => {
            let inner = size(nodes, item.get())?;
            let n = times(inner, value_count(nodes, *index))?;
            Ok(n)
        }
    }
}

#[cycle(size)]
fn fields_size(nodes: u32, all: &[Field]) -> Result<usize, Memory>
    ensures { IfOk result (λ n. n ≡ list_size nodes all.now) }
{
    let mut count = 0;
    for one in all {
        let more = size(nodes, &one.of)?;
        count = plus(count, more)?;
    }
    Ok(count)
}

/// How many cells of a record with these fields stand before those under the field of a name.
pub fn field_first(nodes: u32, all: &[Field], name: &Text) -> Result<usize, Memory>
    ensures { IfOk result (λ n. n ≡ list_first nodes all.now name.now) }
{
    let mut count = 0;
    for one in all {
        if name_before(&one.name, name) {
            let more = size(nodes, &one.of)?;
            count = plus(count, more)?;
        }
    }
    Ok(count)
}

/// How many cells of an array stand before those under the index of this value, each item having so many.
pub fn item_first(index: Simple, value: Value, item: usize) -> Result<usize, Memory>
    ensures { IfOk result (λ n. n ≡ rank index value * item) }
{
    let n = times(rank(index, value), item)?;
    Ok(n)
}

fn name_at(path: &[Text], from: usize) -> &Text
    requires { from < length path.now }
    ensures { slice_get path.now from ≡ Some result.now }
{
    &path[from]
}

fn index_at(at: &[Value], next: usize) -> Value
    requires { next < length at.now }
    ensures { slice_get at.now next ≡ Some result }
{
    at[next]
}

/// The number of the first cell under the field names and the indices from these on, among the cells of a
/// variable of a type.
#[cycle(number)]
pub fn number_of(
    nodes: u32,
    of: &AnyType,
    path: &[Text],
    from: usize,
    at: &[Value],
    next: usize,
) -> Result<usize, Memory>
    ensures { IfOk result (λ n. n ≡ offset nodes of.now (drop from path.now) (drop next at.now)) }
{
    match of {
        AnyType::Simple(_) => Ok(0),
        AnyType::Record { fields } => {
            if from < path.len() {
                let name = name_at(path, from);
                let before = field_first(nodes, fields.as_slice(), name)?;
                let inner = field_number(nodes, fields.as_slice(), name, path, from + 1, at, next)?;
                let n = plus(before, inner)?;
                Ok(n)
            } else {
                Ok(0)
            }
        }
        AnyType::Array { index, item } => {
            if next < at.len() {
                let each = size(nodes, item.get())?;
                let before = item_first(*index, index_at(at, next), each)?;
                let inner = number_of(nodes, item.get(), path, from, at, next + 1)?;
                let n = plus(before, inner)?;
                Ok(n)
            } else {
                Ok(0)
            }
        }
    }
}

#[cycle(number)]
fn field_number(
    nodes: u32,
    all: &[Field],
    name: &Text,
    path: &[Text],
    from: usize,
    at: &[Value],
    next: usize,
) -> Result<usize, Memory>
    ensures { IfOk result (λ n. n ≡ list_offset nodes all.now name.now (drop from path.now) (drop next at.now)) }
{
    for one in all {
        if is_same_name(&one.name, name) {
            let n = number_of(nodes, &one.of, path, from, at, next)?;
            return Ok(n);
        }
    }
    Ok(0)
}
