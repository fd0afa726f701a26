//! Reading the words of the command line.

ghost use Rattle.std.specs.Prelude.{◌≡◌, IfOk, MatchOption, map, None, Some, List, ℕ};
ghost use Rattle.std.specs.Bool.{Decides};
ghost use Rattle.std.specs.Fmt.{decimal};
ghost use Rattle.std.specs.String.{string_bytes};
ghost use Rattle.cmp_cli.specs.declared.request.Request.{Request};
ghost use Rattle.cmp_cli.specs.Words.{option_word, IsTaken, IsTakenBy, AreTaken, has_no_dash, given_once, given_required, IsRequest, IsNoRequest};
ghost use Rattle.cmp_cli.specs.Reading.{rest_after, command_named, opened_by, opening_among, all_options, next_reading, finished, spelled_by, IsWell};

use crate::request::{Given, Request, Word, is_given};
use crate::table::{Command, OptionName, Row, Takes};
use murphi_ast::text::Memory;
use sqlite_items::Items;
use std::alloc::Global;

/// What a word opens.
#[derive(Drop)]
pub enum Opening {
    /// No option.
    Nothing,
    /// An option, whose value is the next word.
    Name(OptionName),
    /// An option with its value.
    Whole(Given),
}

/// What the words so far are, and what may come next.
#[derive(Drop)]
pub enum Reading {
    /// They are no request, whatever follows.
    Refused,
    /// No word stood yet: the command comes.
    Start,
    /// These options were given, and another may come.
    Options(Command, Items<Given>),
    /// These options were given, and then the name of one, whose value comes.
    Value(Command, Items<Given>, OptionName),
}

/// The rest of a word that begins with this text.
fn rest_after<'a>(text: &str, word: &'a str) -> Option<&'a str>
    ensures { MatchOption result (rest_after text.now word.now ≡ None) (λ rest. rest_after text.now word.now ≡ Some rest.now) }
{
    word.strip_prefix(text)
}

/// The command that is written so.
fn command_named(word: &str) -> Option<Command>
    ensures { result ≡ command_named word.now }
{
    if word == Command::Check.word() {
        Some(Command::Check)
    } else {
        None
    }
}

/// What a word opens, held against one option.
fn opened_by(alloc: Global, option: OptionName, word: &str) -> Result<Opening, Memory>
    ensures { IfOk result (λ o. o ≡ opened_by option (rest_after (option_word option) word.now)) }
{
    match rest_after(option.word(), word) {
        None => Ok(Opening::Nothing),
        Some(rest) => {
            if rest.is_empty() {
                return Ok(Opening::Name(option));
            }
            match rest_after("=", rest) {
                None => Ok(Opening::Nothing),
                Some(value) => {
                    let value = Word::make(alloc, value)?;
                    Ok(Opening::Whole(Given { option, value }))
                }
            }
        }
    }
}

/// What a word opens, held against each option in turn.
#[tactic(auto, using(crate::proofs::ReadingLemmas::opening_last))]
fn word_opening(alloc: Global, word: &str) -> Result<Opening, Memory>
    ensures { IfOk result (λ o. o ≡ opening_among all_options word.now) }
{
    let found = opened_by(alloc, OptionName::Protocol, word)?;
    Ok(found)
}

/// Whether the word does not begin with `-`.
fn has_no_dash(word: &str) -> bool
    ensures { result ≡ has_no_dash word.now }
{
    match rest_after("-", word) {
        None => true,
        Some(_) => false,
    }
}

/// What the words are after one more.
fn next_reading(alloc: Global, reading: Reading, word: &str) -> Result<Reading, Memory>
    ensures { IfOk result (λ r. r ≡ next_reading reading word.now) }
{
    match reading {
        Reading::Refused => Ok(Reading::Refused),
        Reading::Start => match command_named(word) {
            None => Ok(Reading::Refused),
            Some(command) => Ok(Reading::Options(command, Items::new(alloc))),
        },
        Reading::Options(command, given) => {
            let mut given = given;
            match word_opening(alloc, word)? {
                Opening::Nothing => Ok(Reading::Refused),
                Opening::Name(option) => Ok(Reading::Value(command, given, option)),
                Opening::Whole(one) => {
                    given.push(one)?;
                    Ok(Reading::Options(command, given))
                }
            }
        }
        Reading::Value(command, given, option) => {
            if !has_no_dash(word) {
                return Ok(Reading::Refused);
            }
            let mut given = given;
            let value = Word::make(alloc, word)?;
            given.push(Given { option, value })?;
            Ok(Reading::Options(command, given))
        }
    }
}

/// What is given where no word is left.
fn finished(reading: Reading) -> Option<Request>
    ensures { result ≡ finished reading }
{
    match reading {
        Reading::Options(command, given) => Some(Request { command, given }),
        _ => None,
    }
}

/// The command and the options that the words spell, whatever the values are.
fn spelled_by(alloc: Global, words: &[String]) -> Result<Option<Request>, Memory>
    ensures { IfOk result (λ r. r ≡ spelled_by (map string_bytes words.now)) }
{
    let mut reading = Reading::Start;
    for word in words {
        reading = next_reading(alloc, reading, word.as_str())?;
    }
    Ok(finished(reading))
}

/// Whether a value is how a number is written in decimal, with no sign and no zero in front.
fn is_written_so(alloc: Global, number: u32, value: &str) -> Result<bool, Memory>
    ensures { IfOk result (λ b. Decides b (value.now ≡ decimal number)) }
{
    let written = format!(in alloc; "{number}")?;
    Ok(written.as_str() == value)
}

/// Whether a value is a number from `least` to `greatest`, written in decimal.
#[tactic(auto, using(crate::proofs::NumberLemmas::numbers))]
fn is_number(alloc: Global, value: &str, least: u32, greatest: u32) -> Result<bool, Memory>
    ensures { IfOk result (λ b. Decides b (IsTaken (Takes.Number least greatest) value.now)) }
{
    match value.parse::<u32>() {
        Err(_) => Ok(false),
        Ok(number) => {
            if number < least {
                return Ok(false);
            }
            if greatest < number {
                return Ok(false);
            }
            let is = is_written_so(alloc, number, value)?;
            Ok(is)
        }
    }
}

/// Whether an option with this row takes the value.
fn is_taken(alloc: Global, row: Option<Row>, value: &str) -> Result<bool, Memory>
    ensures { IfOk result (λ b. Decides b (IsTakenBy row value.now)) }
{
    match row {
        None => Ok(false),
        Some(row) => match row.takes {
            Takes::Text => Ok(!value.is_empty()),
            Takes::Number { least, greatest } => {
                let is = is_number(alloc, value, least, greatest)?;
                Ok(is)
            }
        },
    }
}

/// Whether each is an option of the command, with a value that it takes.
fn are_taken(alloc: Global, command: Command, given: &[Given]) -> Result<bool, Memory>
    ensures { IfOk result (λ b. Decides b (AreTaken command given.now)) }
{
    for one in given {
        if !is_taken(alloc, command.row(one.option), one.value.as_str())? {
            return Ok(false);
        }
    }
    Ok(true)
}

/// Whether no option is given twice. It ends at the first that is, so that it looks at few options.
fn given_once(given: &[Given]) -> bool
    ensures { result ≡ given_once given.now }
{
    for k in 0..given.len() {
        if is_given(&given[k + 1..], given[k].option) {
            return false;
        }
    }
    true
}

/// Whether each option that the command requires is given.
fn given_required(command: Command, given: &[Given]) -> bool
    ensures { result ≡ given_required command given.now }
{
    match command {
        Command::Check => is_given(given, OptionName::Protocol),
    }
}

/// Whether the values fit, no option is given twice, and the required ones are given.
fn is_well(alloc: Global, request: &Request) -> Result<bool, Memory>
    ensures { IfOk result (λ b. Decides b (IsWell request.now)) }
{
    let given = request.given.as_slice();
    if !given_once(given) {
        return Ok(false);
    }
    if !given_required(request.command, given) {
        return Ok(false);
    }
    let taken = are_taken(alloc, request.command, given)?;
    Ok(taken)
}

/// What the words ask for, or none where they ask for nothing.
#[tactic(auto, using(crate::proofs::ReadingLemmas::requests))]
pub fn requested(alloc: Global, words: &[String]) -> Result<Option<Request>, Memory>
    ensures { IfOk result (λ r. MatchOption r (IsNoRequest (map string_bytes words.now)) (λ q. IsRequest (map string_bytes words.now) q)) }
{
    match spelled_by(alloc, words)? {
        None => Ok(None),
        Some(request) => {
            if !is_well(alloc, &request)? {
                return Ok(None);
            }
            Ok(Some(request))
        }
    }
}

/// No words ask for two things.
pub fn one_request()
    ensures { (words : List (List ℕ)) (a b : Request) → IsRequest words a → IsRequest words b → a ≡ b }
{}
