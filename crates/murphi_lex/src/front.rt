//! What stands at the front of the bytes that are left: a piece of a gap, a token, or a fault.

ghost use Rattle.std.specs.Prelude.{◌≡◌, ◌<◌, ◌≤◌, length, IsTrue, slice_index};
ghost use Rattle.murphi_ast.specs.Bytes.{is_letter, is_digit};
ghost use Rattle.murphi_ast.specs.Spelling.{opens_comment};
ghost use Rattle.murphi_lex.specs.Scanning.{front_of, comment_of, token_of, word_of, number_of, string_of, sign_of};
ghost use Rattle.murphi_lex.specs.Scanning.{sign_length, is_sign_byte, is_sign_pair};
ghost use Rattle.murphi_lex.specs.Seen.{seen, IsWithin};

use crate::bytes::{Run, byte_at, closing, is_allowed, is_white, number_value, run_length};
use murphi_ast::token::TokenKind;

/// A token that has no place yet: its text and number, and how many bytes it takes.
#[derive(Clone, Copy)]
pub struct Lexeme<'a> {
    pub kind: TokenKind,
    pub text: &'a [u8],
    pub number: u16,
    pub length: usize,
}

/// What stands at the front of bytes. A gap is a white byte or a comment, by its length.
#[derive(Clone, Copy)]
pub enum Front<'a> {
    Gap(usize),
    Taken(Lexeme<'a>),
    BadByte,
    NoToken,
}

/// What stands at the front of these bytes, of which there is at least one.
pub fn front_of(bytes: &[u8]) -> Front<'_>
    requires { 0 < length bytes.now }
    ensures is { seen result ≡ front_of bytes.now }
    ensures within { IsWithin bytes.now result }
{
    let b = byte_at(bytes, 0);
    if is_white(b) {
        Front::Gap(1)
    } else if !is_allowed(b) {
        Front::BadByte
    } else if opens_comment(bytes) {
        comment(bytes)
    } else {
        token(bytes)
    }
}

/// Whether `--` or `/*` stands at the front.
fn opens_comment(bytes: &[u8]) -> bool
    ensures { result ≡ opens_comment bytes.now }
{
    let (b, c) = (byte_at(bytes, 0), byte_at(bytes, 1));
    (b == b'-' && c == b'-') || (b == b'/' && c == b'*')
}

/// A comment, where one opens at the front. One that is not closed is a place without a token.
#[tactic(auto, using(crate::proofs::ByteLemmas::comments))]
fn comment(bytes: &[u8]) -> Front<'_>
    requires { IsTrue (opens_comment bytes.now) }
    ensures is { seen result ≡ comment_of bytes.now }
    ensures within { IsWithin bytes.now result }
{
    if byte_at(bytes, 0) == b'-' {
        return Front::Gap(run_length(Run::Line, bytes));
    }
    match closing(&bytes[2..]) {
        Some(length) => Front::Gap(length + 2),
        None => Front::NoToken,
    }
}

/// The longest token, where neither a gap nor a bad byte stands.
fn token(bytes: &[u8]) -> Front<'_>
    requires { 0 < length bytes.now }
    ensures is { seen result ≡ token_of bytes.now }
    ensures within { IsWithin bytes.now result }
{
    let b = byte_at(bytes, 0);
    if b.is_ascii_alphabetic() {
        word(bytes)
    } else if b.is_ascii_digit() {
        number(bytes)
    } else if b == b'"' {
        string(bytes)
    } else {
        sign(bytes)
    }
}

/// A word, where the first byte is a letter.
#[tactic(auto, using(crate::proofs::ByteLemmas::runs))]
fn word(bytes: &[u8]) -> Front<'_>
    requires { IsTrue (is_letter (slice_index bytes.now 0)) }
    ensures is { seen result ≡ word_of bytes.now }
    ensures within { IsWithin bytes.now result }
{
    let length = run_length(Run::Word, bytes);
    Front::Taken(Lexeme {
        kind: TokenKind::Word,
        text: &bytes[..length],
        number: 0,
        length,
    })
}

/// A number, where the first byte is a digit.
#[tactic(auto, using(crate::proofs::ByteLemmas::runs))]
fn number(bytes: &[u8]) -> Front<'_>
    requires { IsTrue (is_digit (slice_index bytes.now 0)) }
    ensures is { seen result ≡ number_of bytes.now }
    ensures within { IsWithin bytes.now result }
{
    let length = run_length(Run::Digits, bytes);
    let text = &bytes[..length];
    match number_value(text) {
        Some(number) => Front::Taken(Lexeme {
            kind: TokenKind::Number,
            text,
            number,
            length,
        }),
        None => Front::NoToken,
    }
}

/// A string, where the first byte is a quote.
fn string(bytes: &[u8]) -> Front<'_>
    requires { 0 < length bytes.now }
    ensures is { seen result ≡ string_of bytes.now }
    ensures within { IsWithin bytes.now result }
{
    let inner = run_length(Run::String, &bytes[1..]);
    if byte_at(bytes, inner + 1) != b'"' {
        return Front::NoToken;
    }
    Front::Taken(Lexeme {
        kind: TokenKind::Quoted,
        text: &bytes[1..inner + 1],
        number: 0,
        length: inner + 2,
    })
}

/// A sign, or no token.
fn sign(bytes: &[u8]) -> Front<'_>
    ensures is { seen result ≡ sign_of bytes.now }
    ensures within { IsWithin bytes.now result }
{
    let length = sign_length(bytes);
    if length == 0 {
        return Front::NoToken;
    }
    Front::Taken(Lexeme {
        kind: TokenKind::Sign,
        text: &bytes[..length],
        number: 0,
        length,
    })
}

/// How many bytes the longest sign at the front takes, 0 where none stands there.
#[tactic(auto, using(crate::proofs::ByteLemmas::sign_lengths))]
fn sign_length(bytes: &[u8]) -> usize
    ensures is { result ≡ sign_length bytes.now }
    ensures within { result ≤ length bytes.now }
{
    let (b, c, d) = (byte_at(bytes, 0), byte_at(bytes, 1), byte_at(bytes, 2));
    if b == b'=' && c == b'=' && d == b'>' {
        3
    } else if is_sign_pair(b, c) {
        2
    } else if is_sign_byte(b) {
        1
    } else {
        0
    }
}

fn is_sign_pair(b: u8, c: u8) -> bool
    ensures { result ≡ is_sign_pair b c }
{
    match c {
        b'=' => b == b':' || b == b'!' || b == b'<' || b == b'>',
        b'>' => b == b'-',
        b'.' => b == b'.',
        _ => false,
    }
}

fn is_sign_byte(b: u8) -> bool
    ensures { result ≡ is_sign_byte b }
{
    b"=<>+-*/%&|!?:;,.()[]{}".contains(&b)
}
