//! Titles of items: the string that is written with an item where that is usable, else its number among its kind.

ghost use Rattle.std.specs.Prelude.{◌≡◌, ◌+◌, is_some, IfOk, OnOk};
ghost use Rattle.murphi_ast.specs.Title.{is_usable, numbered};
ghost use Rattle.murphi_types.specs.Scopes.{earliest};
ghost use Rattle.type_items.specs.Titles.{no_items_yet, is_free, titled, numbered_on};

use murphi_ast::text::{Memory, Text};
use murphi_types::names::Names;
use murphi_types::scope::{Entry, Meaning};
use std::alloc::Global;
use type_parts::weights::plus;

/// The items of one kind so far: the strings that are written with them, each found by hash; how many they are;
/// and how many instances they have, which stop at the greatest u64.
#[derive(Drop)]
pub struct Numbering {
    pub strings: Names,
    pub count: usize,
    pub instances: u64,
}

/// No items.
pub fn no_items_yet(alloc: Global) -> Numbering
    ensures { result ≡ no_items_yet }
{
    Numbering {
        strings: Names::new(alloc),
        count: 0,
        instances: 0,
    }
}

/// Whether a string may be a title: it is not empty and does not begin with `#`.
fn is_usable(string: &Text) -> bool
    ensures { result ≡ is_usable string.now }
{
    match string.bytes() {
        [first, ..] => *first != b'#',
        [] => false,
    }
}

fn is_written(strings: &Names, string: &Text) -> Result<bool, Memory>
    ensures { IfOk result (λ b. b ≡ is_some (earliest strings.now string.now)) }
{
    let found = strings.look(string)?;
    match found {
        None => Ok(false),
        Some(_) => Ok(true),
    }
}

/// Whether a string is the title of an item that comes after those with these strings.
fn is_free(strings: &Names, string: &Text) -> Result<bool, Memory>
    ensures { IfOk result (λ b. b ≡ is_free strings.now string.now) }
{
    let before = is_written(strings, string)?;
    if is_usable(string) {
        Ok(!before)
    } else {
        Ok(false)
    }
}

/// The number after this one.
fn next(number: usize) -> Result<usize, Memory>
    ensures { IfOk result (λ n. n ≡ number + 1) }
{
    match number.checked_add(1) {
        Some(next) => Ok(next),
        None => Err(Memory),
    }
}

/// The number after this one as a title.
fn numbered(alloc: Global, before: usize) -> Result<Text, Memory>
    ensures { IfOk result (λ t. t ≡ numbered (before + 1)) }
{
    let number = next(before)?;
    let title = format!(in alloc; "#{number}")?;
    let title = Text::make(alloc, title.as_bytes())?;
    Ok(title)
}

impl Numbering {
    /// The title of the next item, which is written with this string.
    pub fn title(&self, alloc: Global, written: &Option<Text>) -> Result<Text, Memory>
        ensures { IfOk result (λ t. t ≡ titled self.now written.now) }
    {
        match written {
            None => {
                let title = numbered(alloc, self.count)?;
                Ok(title)
            }
            Some(string) => {
                let free = is_free(&self.strings, string)?;
                if free {
                    let title = string.copy(alloc)?;
                    Ok(title)
                } else {
                    let title = numbered(alloc, self.count)?;
                    Ok(title)
                }
            }
        }
    }

    /// One item more, which is written with this string and has so many instances.
    pub fn add(
        &mut self,
        alloc: Global,
        written: &Option<Text>,
        instances: u64,
    ) -> Result<(), Memory>
        ensures { OnOk result (self.new ≡ numbered_on written.now instances self.old) }
    {
        let count = next(self.count)?;
        match written {
            None => {}
            Some(string) => {
                let name = string.copy(alloc)?;
                self.strings.push(
                    alloc,
                    Entry {
                        name,
                        what: Meaning::Refused,
                    },
                )?;
            }
        }
        self.count = count;
        self.instances = plus(self.instances, instances);
        Ok(())
    }
}
