//! Texts and what they are read as, worked out by hand from the rules of the language.

use murphi_ast::text::Text;
use murphi_ast::token::TokenKind::{End, Number, Quoted, Sign, Word};
use murphi_ast::token::{Fault, Span, Token, TokenKind};
use murphi_lex::{LexRefusal, scan, tokens};
use std::test::Fail;

/// A token by its kind, bytes, value, line and column.
type Want = (TokenKind, &'static [u8], u16, u32, u32);

struct Row {
    text: &'static [u8],
    tokens: &'static [Want],
    fault: Option<Fault>,
}

fn is(token: &Token, want: &Want) -> bool {
    let (kind, text, number, line, column) = *want;
    token.kind == kind
        && token.text.bytes() == text
        && token.number == number
        && token.at == Span { line, column }
}

fn are(tokens: &[Token], wants: &[Want]) -> bool {
    tokens.len() == wants.len()
        && tokens
            .iter()
            .zip(wants)
            .all(|(token, want)| is(token, want))
}

#[rattlefmt::skip]
const ROWS: [Row; 43] = [
    Row { text: b"", tokens: &[(End, b"", 0, 1, 1)], fault: None },
    Row { text: b"-- a comment", tokens: &[(End, b"", 0, 1, 13)], fault: None },
    Row { text: b"x:=1..3", tokens: &[(Word, b"x", 0, 1, 1), (Sign, b":=", 0, 1, 2), (Number, b"1", 1, 1, 4), (Sign, b"..", 0, 1, 5), (Number, b"3", 3, 1, 7), (End, b"", 0, 1, 8)], fault: None },
    Row { text: b"a<=b==>c->d", tokens: &[(Word, b"a", 0, 1, 1), (Sign, b"<=", 0, 1, 2), (Word, b"b", 0, 1, 4), (Sign, b"==>", 0, 1, 5), (Word, b"c", 0, 1, 8), (Sign, b"->", 0, 1, 9), (Word, b"d", 0, 1, 11), (End, b"", 0, 1, 12)], fault: None },
    Row { text: b"1..32767", tokens: &[(Number, b"1", 1, 1, 1), (Sign, b"..", 0, 1, 2), (Number, b"32767", 32767, 1, 4), (End, b"", 0, 1, 9)], fault: None },
    Row { text: b"1..32768", tokens: &[(Number, b"1", 1, 1, 1), (Sign, b"..", 0, 1, 2)], fault: Some(Fault::E03(Span { line: 1, column: 4 })) },
    Row { text: b"0003", tokens: &[(Number, b"0003", 3, 1, 1), (End, b"", 0, 1, 5)], fault: None },
    Row { text: b"000032768", tokens: &[], fault: Some(Fault::E03(Span { line: 1, column: 1 })) },
    Row { text: b"9a", tokens: &[(Number, b"9", 9, 1, 1), (Word, b"a", 0, 1, 2), (End, b"", 0, 1, 3)], fault: None },
    Row { text: b"_x", tokens: &[], fault: Some(Fault::E03(Span { line: 1, column: 1 })) },
    Row { text: b"Begin a_1", tokens: &[(Word, b"Begin", 0, 1, 1), (Word, b"a_1", 0, 1, 7), (End, b"", 0, 1, 10)], fault: None },
    Row { text: b"!=", tokens: &[(Sign, b"!=", 0, 1, 1), (End, b"", 0, 1, 3)], fault: None },
    Row { text: b"! =", tokens: &[(Sign, b"!", 0, 1, 1), (Sign, b"=", 0, 1, 3), (End, b"", 0, 1, 4)], fault: None },
    Row { text: b"==", tokens: &[(Sign, b"=", 0, 1, 1), (Sign, b"=", 0, 1, 2), (End, b"", 0, 1, 3)], fault: None },
    Row { text: b"=>", tokens: &[(Sign, b"=", 0, 1, 1), (Sign, b">", 0, 1, 2), (End, b"", 0, 1, 3)], fault: None },
    Row { text: b"..", tokens: &[(Sign, b"..", 0, 1, 1), (End, b"", 0, 1, 3)], fault: None },
    Row { text: b"...", tokens: &[(Sign, b"..", 0, 1, 1), (Sign, b".", 0, 1, 3), (End, b"", 0, 1, 4)], fault: None },
    Row { text: b"?:;,()[]{}%&|*+", tokens: &[(Sign, b"?", 0, 1, 1), (Sign, b":", 0, 1, 2), (Sign, b";", 0, 1, 3), (Sign, b",", 0, 1, 4), (Sign, b"(", 0, 1, 5), (Sign, b")", 0, 1, 6), (Sign, b"[", 0, 1, 7), (Sign, b"]", 0, 1, 8), (Sign, b"{", 0, 1, 9), (Sign, b"}", 0, 1, 10), (Sign, b"%", 0, 1, 11), (Sign, b"&", 0, 1, 12), (Sign, b"|", 0, 1, 13), (Sign, b"*", 0, 1, 14), (Sign, b"+", 0, 1, 15), (End, b"", 0, 1, 16)], fault: None },
    Row { text: b">=/-", tokens: &[(Sign, b">=", 0, 1, 1), (Sign, b"/", 0, 1, 3), (Sign, b"-", 0, 1, 4), (End, b"", 0, 1, 5)], fault: None },
    Row { text: b"\"a b\" \"\"", tokens: &[(Quoted, b"a b", 0, 1, 1), (Quoted, b"", 0, 1, 7), (End, b"", 0, 1, 9)], fault: None },
    Row { text: b"x \"ab\ny\"", tokens: &[(Word, b"x", 0, 1, 1)], fault: Some(Fault::E03(Span { line: 1, column: 3 })) },
    Row { text: b"\"ab", tokens: &[], fault: Some(Fault::E03(Span { line: 1, column: 1 })) },
    Row { text: b"\"a\tb\"", tokens: &[], fault: Some(Fault::E03(Span { line: 1, column: 1 })) },
    Row { text: b"x /* a", tokens: &[(Word, b"x", 0, 1, 1)], fault: Some(Fault::E03(Span { line: 1, column: 3 })) },
    Row { text: b"/*/", tokens: &[], fault: Some(Fault::E03(Span { line: 1, column: 1 })) },
    Row { text: b"/* -- */ x", tokens: &[(Word, b"x", 0, 1, 10), (End, b"", 0, 1, 11)], fault: None },
    Row { text: b"/* * / **/q", tokens: &[(Word, b"q", 0, 1, 11), (End, b"", 0, 1, 12)], fault: None },
    Row { text: b"x/*y\n*/z", tokens: &[(Word, b"x", 0, 1, 1), (Word, b"z", 0, 2, 3), (End, b"", 0, 2, 4)], fault: None },
    Row { text: b"-- /*\ny", tokens: &[(Word, b"y", 0, 2, 1), (End, b"", 0, 2, 2)], fault: None },
    Row { text: b"a-->b", tokens: &[(Word, b"a", 0, 1, 1), (End, b"", 0, 1, 6)], fault: None },
    Row { text: b"a- ->b", tokens: &[(Word, b"a", 0, 1, 1), (Sign, b"-", 0, 1, 2), (Sign, b"->", 0, 1, 4), (Word, b"b", 0, 1, 6), (End, b"", 0, 1, 7)], fault: None },
    Row { text: b"\"--\"/*\"*/", tokens: &[(Quoted, b"--", 0, 1, 1), (End, b"", 0, 1, 10)], fault: None },
    Row { text: b"/*\x80*/z", tokens: &[(Word, b"z", 0, 1, 6), (End, b"", 0, 1, 7)], fault: None },
    Row { text: b"--\x80\nz", tokens: &[(Word, b"z", 0, 2, 1), (End, b"", 0, 2, 2)], fault: None },
    Row { text: b"a\x80\"", tokens: &[(Word, b"a", 0, 1, 1)], fault: Some(Fault::E02(Span { line: 1, column: 2 })) },
    Row { text: b"\"a\x80", tokens: &[], fault: Some(Fault::E03(Span { line: 1, column: 1 })) },
    Row { text: b"\"a\x80\"", tokens: &[], fault: Some(Fault::E03(Span { line: 1, column: 1 })) },
    Row { text: b"\x7f", tokens: &[], fault: Some(Fault::E02(Span { line: 1, column: 1 })) },
    Row { text: b"a \x00", tokens: &[(Word, b"a", 0, 1, 1)], fault: Some(Fault::E02(Span { line: 1, column: 3 })) },
    Row { text: b"a @", tokens: &[(Word, b"a", 0, 1, 1)], fault: Some(Fault::E03(Span { line: 1, column: 3 })) },
    Row { text: b"#", tokens: &[], fault: Some(Fault::E03(Span { line: 1, column: 1 })) },
    Row { text: b"a\r\nb\r\n", tokens: &[(Word, b"a", 0, 1, 1), (Word, b"b", 0, 2, 1), (End, b"", 0, 3, 1)], fault: None },
    Row { text: b"\tx\ty", tokens: &[(Word, b"x", 0, 1, 2), (Word, b"y", 0, 1, 4), (End, b"", 0, 1, 5)], fault: None },
];

#[test]
fn rows(rt: HostRuntime) -> Result<(), Fail> {
    for row in &ROWS {
        let text = row.text;
        let scanned = scan(rt.alloc(), text).ok().ok_or("memory")?;
        assert!(rt;
            are(scanned.tokens.as_slice(), row.tokens),
            "tokens of {text:?}"
        );
        assert_eq!(rt; scanned.fault, row.fault, "fault of {text:?}");
        let answer = match (tokens(rt.alloc(), text), row.fault) {
            (Ok(all), None) => are(all.as_slice(), row.tokens),
            (Err(LexRefusal::E02(at)), Some(Fault::E02(want))) => at == want,
            (Err(LexRefusal::E03(at)), Some(Fault::E03(want))) => at == want,
            _ => false,
        };
        assert!(rt; answer, "answer of {text:?}");
    }
    let begin = Text::make(rt.alloc(), b"Begin").ok().ok_or("memory")?;
    let copy = begin.copy(rt.alloc()).ok().ok_or("memory")?;
    assert_eq!(rt; copy.bytes(), b"Begin".as_slice());
    Ok(())
}
