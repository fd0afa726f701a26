//! The titles of start states and rules, found by hash.

ghost use Rattle.std.specs.Prelude.{◌≡◌, ◌<◌, ◌&&◌, ◌++◌, ◌∷◌, [], ℕ, List, Some, length, slice_get, IfOk, OnOk};
ghost use Rattle.run_scripts.specs.Usable.{are_writable};
ghost use Rattle.run_scripts.specs.Scripts.{first_of, params, titles};
ghost use Rattle.run_scripts.specs.Reading.{IsTable, IsTitles, IsReady, opens, is_number_of};

use crate::value::are_writable;
use indexmap::IndexMap;
use murphi_ast::text::{Memory, Text};
use murphi_typed::protocol::Typed;
use std::alloc::Global;

/// The number of the first start state or rule of each title, and whether a line can be written that names one.
#[derive(Drop)]
pub(crate) struct Titles {
    pub(crate) first: IndexMap<Vec<u8>, usize>,
    pub(crate) opens: bool,
}

/// The titles of start states, and those of rules.
#[derive(Drop)]
pub(crate) struct Table {
    pub(crate) starts: Titles,
    pub(crate) rules: Titles,
}

/// The bytes of a title.
fn bytes_of(alloc: Global, title: &Text) -> Result<Vec<u8>, Memory>
    ensures { IfOk result (λ v. v.items ≡ title.now) }
{
    let bytes = title.bytes().to_vec(alloc)?;
    Ok(bytes)
}

/// How many start states or rules there are.
fn count(typed: &Typed, firing: bool) -> usize
    ensures { result ≡ length (titles typed.now firing) }
{
    if firing {
        return typed.rules.len();
    }
    typed.starts.len()
}

/// The title of a start state or rule.
fn title_of(typed: &Typed, firing: bool, at: usize) -> &Text
    requires { at < length (titles typed.now firing) }
    ensures { Some result.now ≡ slice_get (titles typed.now firing) at }
{
    if firing {
        return &typed.rules.as_slice()[at].title;
    }
    &typed.starts.as_slice()[at].title
}

/// Keeps the number of one more title, where it is the first that has it.
fn keep(
    alloc: Global,
    first: &mut IndexMap<Vec<u8>, usize>,
    title: &Text,
    at: usize,
) -> Result<(), Memory>
    ensures { OnOk result ((names : List (List ℕ)) → at ≡ length names → IsTable names first.old.entries → IsTable
        (names ++ title.now ∷ []) first.new.entries) }
{
    if first.contains_key(title.bytes()) {
        return Ok(());
    }
    let key = bytes_of(alloc, title)?;
    match first.insert(key, at) {
        Ok(_) => return Ok(()),
        Err(_) => return Err(Memory),
    }
}

/// The first of each title.
fn firsts(alloc: Global, typed: &Typed, firing: bool) -> Result<IndexMap<Vec<u8>, usize>, Memory>
    ensures { IfOk result (λ m. IsTable (titles typed.now firing) m.entries) }
{
    let mut first: IndexMap<Vec<u8>, usize> = IndexMap::new(alloc);
    for at in 0..count(typed, firing) {
        keep(alloc, &mut first, title_of(typed, firing, at), at)?;
    }
    Ok(first)
}

/// Whether this number is that of its title, and tokens write values for its parameters.
fn is_open(
    typed: &Typed,
    nodes: u32,
    firing: bool,
    first: &IndexMap<Vec<u8>, usize>,
    at: usize,
) -> bool
    requires table { IsTable (titles typed.now firing) first.now.entries }
    requires within { at < length (titles typed.now firing) }
    ensures { (name : List ℕ) → slice_get (titles typed.now firing) at ≡ Some name → result ≡ (is_number_of (first_of
        (titles typed.now firing) name) at && are_writable nodes typed.now.kinds (params typed.now firing at)) }
{
    match first.get(title_of(typed, firing, at).bytes()) {
        None => false,
        Some(number) => {
            if *number != at {
                return false;
            }
            is_usable(typed, nodes, firing, at)
        }
    }
}

/// Whether tokens write values for the parameters of a start state or rule.
pub(crate) fn is_usable(typed: &Typed, nodes: u32, firing: bool, at: usize) -> bool
    requires { at < length (titles typed.now firing) }
    ensures { result ≡ are_writable nodes typed.now.kinds (params typed.now firing at) }
{
    let kinds = typed.kinds.as_slice();
    if firing {
        return are_writable(kinds, nodes, typed.rules.as_slice()[at].params.as_slice());
    }
    are_writable(kinds, nodes, typed.starts.as_slice()[at].params.as_slice())
}

/// Whether a line can be written that names one of the titles.
fn opened(typed: &Typed, nodes: u32, firing: bool, first: &IndexMap<Vec<u8>, usize>) -> bool
    requires { IsTable (titles typed.now firing) first.now.entries }
    ensures { result ≡ opens nodes typed.now firing }
{
    for at in 0..count(typed, firing) {
        if is_open(typed, nodes, firing, first, at) {
            return true;
        }
    }
    false
}

fn found_titles(alloc: Global, typed: &Typed, nodes: u32, firing: bool) -> Result<Titles, Memory>
    ensures { IfOk result (IsTitles nodes typed.now firing) }
{
    let first = firsts(alloc, typed, firing)?;
    let opens = opened(typed, nodes, firing, &first);
    Ok(Titles { first, opens })
}

/// What reading a script asks of titles.
pub(crate) fn found_table(alloc: Global, typed: &Typed, nodes: u32) -> Result<Table, Memory>
    ensures { IfOk result (IsReady nodes typed.now) }
{
    let starts = found_titles(alloc, typed, nodes, false)?;
    let rules = found_titles(alloc, typed, nodes, true)?;
    Ok(Table { starts, rules })
}
