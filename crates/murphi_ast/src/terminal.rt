//! What a token is to the grammar of flat protocols: its terminal symbol.
ghost use Rattle.std.specs.Prelude.{◌≡◌};
ghost use Rattle.std.specs.List.{list_any};
ghost use Rattle.std.specs.Str.{bytes_eq};
ghost use Rattle.murphi_ast.specs.Bytes.{lowered};
ghost use Rattle.murphi_ast.specs.Terminal.{is_other_word, word_terminal, sign_terminal, terminal_of};

use crate::token::{Token, TokenKind};

/// A terminal symbol of the grammar of flat protocols.
#[derive(Debug, Clone, Copy, PartialEq, Eq)]
pub enum Terminal {
    Var,
    Boolean,
    StartState,
    EndStartState,
    Rule,
    EndRule,
    Invariant,
    End,
    True,
    False,
    /// A key word or a refused word that no flat protocol has.
    OtherWord,
    /// Any other word.
    Name,
    Quoted,
    /// `:=`
    Becomes,
    /// `==>`
    Then,
    /// `->`
    Arrow,
    /// `=`
    Equal,
    /// `!=`
    NotEqual,
    /// `|`
    Bar,
    /// `&`
    Ampersand,
    /// `!`
    Bang,
    Colon,
    Semicolon,
    Comma,
    Open,
    Close,
    /// Any other sign.
    OtherSign,
    Number,
    EndOfText,
}

/// The key words and refused words that no flat protocol has.
const OTHER_WORDS: [&[u8]; 53] = [
    b"array",
    b"assert",
    b"begin",
    b"case",
    b"clear",
    b"const",
    b"do",
    b"else",
    b"elsif",
    b"endexists",
    b"endfor",
    b"endforall",
    b"endfunction",
    b"endif",
    b"endprocedure",
    b"endrecord",
    b"endruleset",
    b"endswitch",
    b"enum",
    b"error",
    b"exists",
    b"for",
    b"forall",
    b"function",
    b"if",
    b"isundefined",
    b"of",
    b"procedure",
    b"put",
    b"record",
    b"return",
    b"ruleset",
    b"scalarset",
    b"switch",
    b"then",
    b"to",
    b"type",
    b"undefine",
    b"alias",
    b"by",
    b"choose",
    b"endalias",
    b"endchoose",
    b"endwhile",
    b"ismember",
    b"multiset",
    b"multisetadd",
    b"multisetcount",
    b"multisetremove",
    b"multisetremovepred",
    b"real",
    b"union",
    b"while",
];

/// Whether a word is this one, which is written in small letters.
fn is_word(text: &[u8], word: &[u8]) -> bool
    ensures { result ≡ bytes_eq (lowered text.now) word.now }
{
    match (text, word) {
        ([], []) => true,
        ([a, text @ ..], [b, word @ ..]) => a.to_ascii_lowercase() == *b && is_word(text, word),
        _ => false,
    }
}

/// Whether a word is one of these, which are written in small letters.
fn is_one_of(text: &[u8], words: &[&[u8]]) -> bool
    ensures { result ≡ list_any (λ w. bytes_eq (lowered text.now) w.now) words.now }
{
    for word in words {
        if is_word(text, word) {
            return true;
        }
    }
    false
}

fn is_other_word(text: &[u8]) -> bool
    ensures { result ≡ is_other_word (lowered text.now) }
{
    is_one_of(text, &OTHER_WORDS)
}

fn word_terminal(text: &[u8]) -> Terminal
    ensures { result ≡ word_terminal (lowered text.now) }
{
    if is_word(text, b"var") {
        Terminal::Var
    } else if is_word(text, b"boolean") {
        Terminal::Boolean
    } else if is_word(text, b"startstate") {
        Terminal::StartState
    } else if is_word(text, b"endstartstate") {
        Terminal::EndStartState
    } else if is_word(text, b"rule") {
        Terminal::Rule
    } else if is_word(text, b"endrule") {
        Terminal::EndRule
    } else if is_word(text, b"invariant") {
        Terminal::Invariant
    } else if is_word(text, b"end") {
        Terminal::End
    } else if is_word(text, b"true") {
        Terminal::True
    } else if is_word(text, b"false") {
        Terminal::False
    } else if is_other_word(text) {
        Terminal::OtherWord
    } else {
        Terminal::Name
    }
}

fn sign_terminal(text: &[u8]) -> Terminal
    ensures { result ≡ sign_terminal text.now }
{
    match text {
        b":=" => Terminal::Becomes,
        b"==>" => Terminal::Then,
        b"->" => Terminal::Arrow,
        b"=" => Terminal::Equal,
        b"!=" => Terminal::NotEqual,
        b"|" => Terminal::Bar,
        b"&" => Terminal::Ampersand,
        b"!" => Terminal::Bang,
        b":" => Terminal::Colon,
        b";" => Terminal::Semicolon,
        b"," => Terminal::Comma,
        b"(" => Terminal::Open,
        b")" => Terminal::Close,
        _ => Terminal::OtherSign,
    }
}

/// The terminal symbol of a token.
pub fn terminal_of(token: &Token) -> Terminal
    ensures { result ≡ terminal_of token.now }
{
    match token.kind {
        TokenKind::Word => word_terminal(token.text.bytes()),
        TokenKind::Number => Terminal::Number,
        TokenKind::Quoted => Terminal::Quoted,
        TokenKind::Sign => sign_terminal(token.text.bytes()),
        TokenKind::End => Terminal::EndOfText,
    }
}
