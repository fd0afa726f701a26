//! What the words ask for: a command, and the values that its options are given.

ghost use Rattle.std.specs.Prelude.{◌≡◌, IfOk, MatchOption, None, Some, true};
ghost use Rattle.cmp_cli.specs.Words.{is_given, given_required, value_of};

use crate::table::{Command, OptionName};
use murphi_ast::text::Memory;
use sqlite_items::Items;
use std::alloc::Global;
use std::marker::Model;

/// A word. Contracts see its bytes.
#[derive(Drop)]
pub struct Word {
    held: String,
}

impl Model for Word {
    ghost use Rattle.std.specs.Prelude.{List, ℕ};
    ghost use Rattle.std.specs.String.{string_bytes};
    ghost use Rattle.std.specs.Coded.{coded_list, coded_ℕ};

    ghost Value = { List ℕ };

    ghost coded = { coded_list coded_ℕ };

    ghost view = { λ w. string_bytes w.held };
}

impl Word {
    /// The word of this text.
    pub fn make(alloc: Global, text: &str) -> Result<Word, Memory>
        ensures { IfOk result (λ w. w ≡ text.now) }
    {
        let held = String::from_str(alloc, text)?;
        Ok(Word { held })
    }

    /// The word as text. It takes no memory.
    pub fn as_str(&self) -> &str
        ensures { result.now ≡ self.now }
    {
        self.held.as_str()
    }
}

/// An option, with the value that it is given.
#[derive(Drop)]
pub struct Given {
    pub option: OptionName,
    pub value: Word,
}

/// What the words ask for.
#[derive(Drop)]
pub struct Request {
    pub command: Command,
    /// The options that are given, in the order of the words.
    pub given: Items<Given>,
}

/// Whether the option is given.
pub fn is_given(given: &[Given], option: OptionName) -> bool
    ensures { result ≡ is_given given.now option }
{
    for one in given {
        if one.option.is(option) {
            return true;
        }
    }
    false
}

/// The first value that an option is given. It takes no memory.
pub fn value_of(given: &[Given], option: OptionName) -> Option<&Word>
    ensures { MatchOption result (value_of option given.now ≡ None) (λ v. value_of option given.now ≡ Some v.now) }
{
    for one in given {
        if one.option.is(option) {
            return Some(&one.value);
        }
    }
    None
}

/// The file of the protocol that a request names, which each request does: each command requires the option.
#[tactic(auto, using(crate::proofs::ReadingLemmas::required_value))]
pub fn protocol_of(request: &Request) -> &Word
    requires { given_required request.now.command request.now.given ≡ true }
    ensures { value_of OptionName.Protocol request.now.given ≡ Some result.now }
{
    match value_of(request.given.as_slice(), OptionName::Protocol) {
        Some(file) => file,
        None => unreachable!(),
    }
}
