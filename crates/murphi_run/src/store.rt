//! The list of the values of the cells in scope.

ghost use Rattle.std.specs.Prelude.{◌≡◌, ◌+◌, ◌<◌, ◌≤◌, ◌-◌, ◌++◌, [], length, replicate, take, drop, slice_get, slice_set, Some, IfOk, OnOk, OnErr};
ghost use Rattle.term_core.specs.declared.value.Value.{Value};
ghost use Rattle.term_core.specs.declared.value.Value.TheVariants.{Undefined};
ghost use Rattle.murphi_run.specs.Stretches.{with_stretch};

use murphi_ast::text::Memory;
use sqlite_items::Items;
use std::alloc::Global;
use std::marker::Model;
use term_core::value::Value;

/// The values of the cells of all variables in scope, each variable's together. Contracts see the list.
#[derive(Drop)]
pub struct Store {
    values: Items<Value>,
}

impl Model for Store {
    ghost use Rattle.murphi_run.specs.Holding.{Values};

    ghost Value = { Values };

    ghost view = { λ s. s.values };
}

/// Adds so many undefined values.
fn fill(values: &mut Items<Value>, count: usize) -> Result<(), Memory>
    ensures { OnOk result (values.new ≡ values.old ++ replicate count Undefined) }
{
    for _added in 0..count {
        values.push(Value::Undefined)?;
    }
    Ok(())
}

/// Takes the last value out.
#[tactic(auto, using(crate::proofs::CutLemmas::shorter))]
fn drop_last(values: &mut Items<Value>)
    ensures { values.new ≡ take (length values.old - 1) values.old }
{
    match values.pop() {
        None => {}
        Some(_) => {}
    }
}

/// Takes the last values out, down to so many.
#[tactic(auto, using(crate::proofs::CutLemmas::cut_more))]
fn cut(values: &mut Items<Value>, count: usize)
    requires { count ≤ length values.old }
    ensures { values.new ≡ take count values.old }
{
    let more = values.len() - count;
    for _taken in 0..more {
        drop_last(values);
    }
}

/// Gives the cells from a number on the values of a list.
#[tactic(auto, using(crate::proofs::PutLemmas::puts))]
fn put(values: &mut Items<Value>, number: usize, new: &[Value])
    requires { number + length new.now ≤ length values.old }
    ensures { values.new ≡ with_stretch number new.now values.old }
{
    for k in 0..new.len() {
        let value = value_at(new, k);
        let place = place_behind(values.as_slice(), number, k);
        values.set(place, value);
    }
}

/// So many places behind a number, which is within the list.
fn place_behind(values: &[Value], number: usize, more: usize) -> usize
    requires { number + more < length values.now }
    ensures { result ≡ number + more }
{
    number + more
}

fn value_at(values: &[Value], place: usize) -> Value
    requires { place < length values.now }
    ensures { slice_get values.now place ≡ Some result }
{
    values[place]
}

/// So many of a list's values, from a number on.
fn part(
    alloc: Global,
    values: &[Value],
    number: usize,
    count: usize,
) -> Result<Items<Value>, Memory>
    requires { number + count ≤ length values.now }
    ensures { IfOk result (λ out. out ≡ take count (drop number values.now)) }
{
    let stretch = &values[number..number + count];
    let out = Items::from_slice(alloc, stretch)?;
    Ok(out)
}

impl Store {
    /// No cells.
    pub fn new(alloc: Global) -> Store
        ensures { result ≡ [] }
    {
        Store {
            values: Items::new(alloc),
        }
    }

    /// A store with the same values.
    pub fn copy(&self, alloc: Global) -> Result<Store, Memory>
        ensures { IfOk result (λ s. s ≡ self.now) }
    {
        let values = Items::from_slice(alloc, self.values.as_slice())?;
        Ok(Store { values })
    }

    /// How many cells there are.
    pub fn len(&self) -> usize
        ensures { result ≡ length self.now }
    {
        self.values.len()
    }

    /// The value of the cell of a number.
    pub fn value(&self, number: usize) -> Value
        requires { number < length self.now }
        ensures { slice_get self.now number ≡ Some result }
    {
        self.values.as_slice()[number]
    }

    /// Gives the cell of a number another value. It takes no memory.
    pub fn set(&mut self, number: usize, value: Value)
        requires { number < length self.old }
        ensures { self.new ≡ slice_set self.old number value }
    {
        self.values.set(number, value);
    }

    /// Adds so many cells at the end, each undefined: those of a variable that comes into scope.
    pub fn enter(&mut self, count: usize) -> Result<(), Memory>
        ensures { OnOk result (self.new ≡ self.old ++ replicate count Undefined) }
    {
        fill(&mut self.values, count)?;
        Ok(())
    }

    /// Takes the last cells out, down to so many: those of variables that go out of scope. It takes no
    /// memory.
    pub fn leave(&mut self, count: usize)
        requires { count ≤ length self.old }
        ensures { self.new ≡ take count self.old }
    {
        cut(&mut self.values, count);
    }

    /// The values of a stretch: of so many cells from a number on.
    pub fn stretch(&self, alloc: Global, number: usize, count: usize) -> Result<Store, Memory>
        requires { number + count ≤ length self.now }
        ensures { IfOk result (λ s. s ≡ take count (drop number self.now)) }
    {
        let values = part(alloc, self.values.as_slice(), number, count)?;
        Ok(Store { values })
    }

    /// Gives the cells from a number on the values of another list. It takes no memory.
    pub fn put(&mut self, number: usize, new: &Store)
        requires { number + length new.now ≤ length self.old }
        ensures { self.new ≡ with_stretch number new.now self.old }
    {
        put(&mut self.values, number, new.values.as_slice());
    }
}
