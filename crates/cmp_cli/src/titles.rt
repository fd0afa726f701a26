//! Titles of items: the string that is written with an item where that is usable, or else its
//! number among its kind.

ghost use Rattle.std.specs.Prelude.{◌≡◌, ◌<◌, ◌≤◌, ◌+◌, ◌-◌, ◌^◌, IfOk, length, filter};
ghost use Rattle.std.specs.List.{list_any};
ghost use Rattle.std.specs.Option.{option_copied};
ghost use Rattle.murphi_ast.specs.Title.{is_of, string_of, has_string, is_usable, numbered, title_at};
ghost use Rattle.cmp_cli.specs.Report.{item_title};
ghost use Rattle.cmp_cli.specs.Titles.{kind_of};

use murphi_ast::rule::RuleDecl;
use murphi_ast::text::{Memory, Text};
use std::alloc::Global;

/// The kinds of items that have titles, each numbered by itself.
#[derive(Clone, Copy, Debug, PartialEq, Eq)]
enum Kind {
    Rule,
    Start,
    Invariant,
}

/// Whether an item is of a kind.
fn is_of(kind: Kind, item: &RuleDecl) -> bool
    ensures { result ≡ is_of (kind_of kind) item.now }
{
    match item {
        RuleDecl::Rule { .. } => matches!(kind, Kind::Rule),
        RuleDecl::Start { .. } => matches!(kind, Kind::Start),
        RuleDecl::Invariant { .. } => matches!(kind, Kind::Invariant),
        RuleDecl::Group { .. } => false,
    }
}

/// The string that is written with an item.
fn string_of(item: &RuleDecl) -> Option<&Text>
    ensures { option_copied result ≡ string_of item.now }
{
    match item {
        RuleDecl::Rule { title, .. } => title.as_ref(),
        RuleDecl::Start { title, .. } => title.as_ref(),
        RuleDecl::Invariant { title, .. } => title.as_ref(),
        RuleDecl::Group { .. } => None,
    }
}

/// Whether an item has this string.
fn has_string(string: &Text, item: &RuleDecl) -> bool
    ensures { result ≡ has_string string.now item.now }
{
    match string_of(item) {
        Some(own) => own.bytes() == string.bytes(),
        None => false,
    }
}

/// Whether a string may be a title: it is not empty and does not begin with `#`.
fn is_usable(string: &Text) -> bool
    ensures { result ≡ is_usable string.now }
{
    match string.bytes() {
        [first, ..] => *first != b'#',
        [] => false,
    }
}

/// How many of the items are of a kind.
fn count(kind: Kind, items: &[RuleDecl]) -> usize
    ensures is { result ≡ length (filter (is_of (kind_of kind)) items.now) }
    ensures within { result ≤ length items.now }
{
    let mut count = 0;
    for item in items {
        if is_of(kind, item) {
            count += 1;
        }
    }
    count
}

/// Whether one of the items of a kind has this string.
fn is_taken(kind: Kind, items: &[RuleDecl], string: &Text) -> bool
    ensures { result ≡ list_any (has_string string.now) (filter (is_of (kind_of kind)) items.now) }
{
    for item in items {
        if is_of(kind, item) {
            if has_string(string, item) {
                return true;
            }
        }
    }
    false
}

/// The number after this one as a title.
fn numbered(alloc: Global, before: usize) -> Result<Text, Memory>
    requires { before < 2 ^ 64 - 1 }
    ensures { IfOk result (λ t. t ≡ numbered (before + 1)) }
{
    let number = before + 1;
    let title = format!(in alloc; "#{number}")?;
    let title = Text::make(alloc, title.as_bytes())?;
    Ok(title)
}

/// The title of the item at this place, which is of this kind and is written with this string.
fn title_at(
    alloc: Global,
    items: &[RuleDecl],
    kind: Kind,
    at: usize,
    string: &Option<Text>,
) -> Result<Text, Memory>
    requires { at < length items.now }
    ensures { IfOk result (λ t. t ≡ title_at items.now (kind_of kind) at string.now) }
{
    let earlier = &items[..at];
    match string {
        Some(string) => {
            if is_usable(string) && !is_taken(kind, earlier, string) {
                let title = string.copy(alloc)?;
                Ok(title)
            } else {
                let title = numbered(alloc, count(kind, earlier))?;
                Ok(title)
            }
        }
        None => {
            let title = numbered(alloc, count(kind, earlier))?;
            Ok(title)
        }
    }
}

/// The title of the item at this place, and none where there is no such item or it has no title.
pub fn item_title(alloc: Global, items: &[RuleDecl], at: usize) -> Result<Text, Memory>
    ensures { IfOk result (λ t. t ≡ item_title items.now at) }
{
    if at >= items.len() {
        let none = Text::make(alloc, &[])?;
        return Ok(none);
    }
    match &items[at] {
        RuleDecl::Rule { title, .. } => {
            let title = title_at(alloc, items, Kind::Rule, at, title)?;
            Ok(title)
        }
        RuleDecl::Start { title, .. } => {
            let title = title_at(alloc, items, Kind::Start, at, title)?;
            Ok(title)
        }
        RuleDecl::Invariant { title, .. } => {
            let title = title_at(alloc, items, Kind::Invariant, at, title)?;
            Ok(title)
        }
        RuleDecl::Group { .. } => {
            let none = Text::make(alloc, &[])?;
            Ok(none)
        }
    }
}
