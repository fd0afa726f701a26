//! Files of lemmas and of flows: how many items a file has and what they say, or the place where it is refused.

use job_files::read::{flows, lemmas};
use job_files::refusal::JobRefusal;
use murphi_ast::job::{Flow, Lemma};
use murphi_ast::token::Span;
use std::alloc::Global;
use std::test::Fail;

/// What is wanted: so many items, or the place where the file is refused.
#[derive(Debug, Clone, Copy, PartialEq, Eq)]
enum Want {
    Items(usize),
    E02(u32, u32),
    E03(u32, u32),
    E04(u32, u32),
    E06(u32, u32),
    E10(u32, u32),
    E15(u32, u32),
    Memory,
}

fn refused(e: JobRefusal) -> Want {
    match e {
        JobRefusal::E02(at) => Want::E02(at.line, at.column),
        JobRefusal::E03(at) => Want::E03(at.line, at.column),
        JobRefusal::E04(at) => Want::E04(at.line, at.column),
        JobRefusal::E06(at) => Want::E06(at.line, at.column),
        JobRefusal::E10(at) => Want::E10(at.line, at.column),
        JobRefusal::E15(at) => Want::E15(at.line, at.column),
        JobRefusal::Memory => Want::Memory,
    }
}

fn lemmas_of(alloc: Global, text: &[u8]) -> Want {
    match lemmas(alloc, text) {
        Ok(all) => Want::Items(all.as_slice().len()),
        Err(e) => refused(e),
    }
}

fn flows_of(alloc: Global, text: &[u8]) -> Want {
    match flows(alloc, text) {
        Ok(all) => Want::Items(all.as_slice().len()),
        Err(e) => refused(e),
    }
}

#[test]
fn files_of_lemmas(rt: HostRuntime) -> Result<(), Fail> {
    let rows: [(&[u8], Want); 24] = [
        (b"", Want::Items(0)),
        (b"-- none\n/* at all */ ", Want::Items(0)),
        (b"lemma A : true;", Want::Items(1)),
        (b"lemma A : true; lemma B : x = 1;", Want::Items(2)),
        (b"lemma lemma : lemma;", Want::Items(1)),
        (b"lemma A : true; lemma A : true;", Want::E06(1, 23)),
        (
            b"lemma A:a; lemma B:b; lemma B:c; lemma A:d;",
            Want::E06(1, 29),
        ),
        (b"lemma A : true; lemma a : true;", Want::Items(2)),
        (b"lemma A : true", Want::E04(1, 15)),
        (b"lemma A : true; lemma", Want::E04(1, 22)),
        (b"lemma A true;", Want::E04(1, 9)),
        (b"lemma : true;", Want::E04(1, 7)),
        (b"Lemma A : true;", Want::E04(1, 1)),
        (b"lemma A : true; LEMMA B : true;", Want::E04(1, 17)),
        (b"lemma A : true;;", Want::E04(1, 16)),
        (b"flow A : true;", Want::E04(1, 1)),
        (b"\"lemma\" A : true;", Want::E04(1, 1)),
        (b"lemma A : x while y;", Want::E10(1, 13)),
        (b"lemma A true; while", Want::E10(1, 15)),
        (b"lemma A : true; lemma A : ;", Want::E04(1, 27)),
        (b"lemma A : # true;", Want::E03(1, 11)),
        (b"lemma A : while # ;", Want::E03(1, 17)),
        (b"lemma A : true\n", Want::E04(2, 1)),
        (b"lemma A : \x01 true;", Want::E02(1, 11)),
    ];
    for (text, want) in rows.as_slice() {
        assert_eq!(rt; lemmas_of(rt.alloc(), text), *want);
    }
    Ok(())
}

#[test]
fn files_of_flows(rt: HostRuntime) -> Result<(), Fail> {
    let rows: [(&[u8], Want); 22] = [
        (b"", Want::Items(0)),
        (b"-- none", Want::Items(0)),
        (b"flows 1;", Want::Items(0)),
        (b"flows 01;", Want::Items(0)),
        (b"flows 2;", Want::E04(1, 7)),
        (b"flows;", Want::E04(1, 6)),
        (b"flows 1;;", Want::E04(1, 9)),
        (b"flows 1; flow A : \"while\".i, \"b\".j;", Want::Items(1)),
        (b"flows 1; flow A : \"a\".end, \"b\".j;", Want::E04(1, 23)),
        (b"flows 1", Want::E04(1, 8)),
        (b"Flows 1;", Want::E04(1, 1)),
        (b"flow A : \"a\".i, \"b\".j;", Want::E04(1, 1)),
        (b"flows 1; flow A : \"a\".i, \"b\".j;", Want::Items(1)),
        (
            b"flows 1; flow A : \"a\".i, \"b\".j, \"c\".k;",
            Want::Items(1),
        ),
        (b"flows 1; flow A : \"a\".i;", Want::E04(1, 24)),
        (b"flows 1; flow A : \"a\".i, ;", Want::E04(1, 26)),
        (b"flows 1; flow A : a.i, \"b\".j;", Want::E04(1, 19)),
        (b"flows 1; flow A : \"a\".i, \"b\";", Want::E04(1, 29)),
        (b"flows 1; flow A : \"a\".i, \"b\".j", Want::E04(1, 31)),
        (b"flows 1; FLOW A : \"a\".i, \"b\".j;", Want::E04(1, 10)),
        (
            b"flows 1; flow A:\"a\".i,\"b\".j; flow A:\"a\".i,\"b\".j;",
            Want::E06(1, 35),
        ),
        (b"flows 1; flow A : \"a\".while, \"b\".j;", Want::E10(1, 23)),
    ];
    for (text, want) in rows.as_slice() {
        assert_eq!(rt; flows_of(rt.alloc(), text), *want);
    }
    Ok(())
}

/// A lemma with so many parentheses around its formula.
fn nested(alloc: Global, most: usize) -> Result<Vec<u8>, Fail> {
    let mut text: Vec<u8> = Vec::new(alloc);
    text.extend_from_slice(b"lemma A : ")?;
    for i in 0..most {
        text.push(b'(')?;
    }
    text.push(b'x')?;
    for i in 0..most {
        text.push(b')')?;
    }
    text.push(b';')?;
    Ok(text)
}

#[test]
fn nestings_in_a_lemma(rt: HostRuntime) -> Result<(), Fail> {
    let last = nested(rt.alloc(), 100)?;
    assert_eq!(rt; lemmas_of(rt.alloc(), last.as_slice()), Want::Items(1));
    let more = nested(rt.alloc(), 101)?;
    assert_eq!(rt; lemmas_of(rt.alloc(), more.as_slice()), Want::E15(1, 111));
    Ok(())
}

/// Whether this is that word, at that line and column.
fn is_word(word: &[u8], at: Span, wanted: (&[u8], u32, u32)) -> bool {
    word == wanted.0 && at.line == wanted.1 && at.column == wanted.2
}

/// Whether the item of this number is a lemma of that name.
fn names_lemma(all: &[Lemma], i: usize, wanted: (&[u8], u32, u32)) -> bool {
    match all.get(i) {
        Some(lemma) => is_word(lemma.name.name.bytes(), lemma.name.at, wanted),
        None => false,
    }
}

/// Whether the item of this number is a flow of that name.
fn names_flow(all: &[Flow], i: usize, wanted: (&[u8], u32, u32)) -> bool {
    match all.get(i) {
        Some(flow) => is_word(flow.name.name.bytes(), flow.name.at, wanted),
        None => false,
    }
}

/// Whether the event of this number of the flow is of that rule and of that parameter.
fn has_event(all: &[Flow], i: usize, k: usize, rule: (&[u8], u32, u32), param: &[u8]) -> bool {
    match all.get(i) {
        Some(flow) => match flow.events.as_slice().get(k) {
            Some(event) => {
                is_word(event.rule.bytes(), event.at, rule) && event.param.bytes() == param
            }
            None => false,
        },
        None => false,
    }
}

#[test]
fn what_lemmas_are_listed(rt: HostRuntime) -> Result<(), Fail> {
    match lemmas(rt.alloc(), b"lemma A : x;\n-- more\n lemma Bc : true;") {
        Ok(all) => {
            let all = all.as_slice();
            assert_eq!(rt; all.len(), 2);
            assert_eq!(rt; names_lemma(all, 0, (b"A", 1, 7)), true);
            assert_eq!(rt; names_lemma(all, 1, (b"Bc", 3, 8)), true);
        }
        Err(e) => assert_eq!(rt; refused(e), Want::Items(2)),
    }
    Ok(())
}

#[test]
fn what_flows_are_listed(rt: HostRuntime) -> Result<(), Fail> {
    match flows(
        rt.alloc(),
        b"flows 1;\nflow Up : \"a b\".i,\n  \"c\".jk;\nflow D:\"e\".f,\"g\".h,\"e\".i;",
    ) {
        Ok(all) => {
            let all = all.as_slice();
            assert_eq!(rt; all.len(), 2);
            assert_eq!(rt; names_flow(all, 0, (b"Up", 2, 6)), true);
            assert_eq!(rt; has_event(all, 0, 0, (b"a b", 2, 11), b"i"), true);
            assert_eq!(rt; has_event(all, 0, 1, (b"c", 3, 3), b"jk"), true);
            assert_eq!(rt; has_event(all, 0, 2, (b"e", 4, 8), b"f"), false);
            assert_eq!(rt; names_flow(all, 1, (b"D", 4, 6)), true);
            assert_eq!(rt; has_event(all, 1, 0, (b"e", 4, 8), b"f"), true);
            assert_eq!(rt; has_event(all, 1, 1, (b"g", 4, 14), b"h"), true);
            assert_eq!(rt; has_event(all, 1, 2, (b"e", 4, 20), b"i"), true);
        }
        Err(e) => assert_eq!(rt; refused(e), Want::Items(2)),
    }
    Ok(())
}
