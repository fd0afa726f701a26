//! Tests of what no clause says, over files and a sink in memory: the words, faults, and the text of
//! reports of outcomes made by hand.

use cmp_cli::outcome::{Code, Outcome, Refusal, Role};
use cmp_cli::report::report;
use cmp_cli::run;
use cmp_outside::{MemFile, MemFiles, MemSink};
use flat_check::{Finding, Formula};
use murphi_ast::decl::Decl;
use murphi_ast::expr::{Expr, Named, TypeExpr};
use murphi_ast::rule::{Protocol, RuleDecl};
use murphi_ast::text::{Memory, Text};
use murphi_ast::token::Span;
use sqlite_items::Items;
use std::alloc::{AllocError, Global};
use std::test::Fail;

const AT: Span = Span {
    line: 12,
    column: 19,
};

/// What a call came to: its status and what was written.
#[derive(Drop)]
pub struct Seen {
    pub status: u8,
    pub written: Vec<u8>,
}

/// The words of a text, with a comma after each.
fn words_of(alloc: Global, text: &str) -> Result<Vec<String>, AllocError> {
    let mut words = Vec::new(alloc);
    for word in text.split_terminator(',') {
        words.push(String::from_str(alloc, word)?)?;
    }
    Ok(words)
}

/// One file, `flat.m`; the read of this number fails.
fn one_file(alloc: Global, text: &[u8], read: u64) -> Result<MemFiles, AllocError> {
    let name = String::from_str(alloc, "flat.m")?;
    let bytes = Vec::from_slice(alloc, text)?;
    let mut files = Vec::new(alloc);
    files.push(MemFile { name, bytes })?;
    let failing = Vec::from_slice(alloc, &[read])?;
    Ok(MemFiles::make(alloc, files, failing))
}

/// A call with these words over one file, where the read and the write of these numbers fail.
pub fn call(
    alloc: Global,
    words: &str,
    text: &[u8],
    read: u64,
    write: u64,
) -> Result<Seen, cmp_outside::Memory> {
    let words = words_of(alloc, words)?;
    let mut files = one_file(alloc, text, read)?;
    let failing = Vec::from_slice(alloc, &[write])?;
    let mut out = MemSink::make(alloc, 4096, failing)?;
    let status = run(alloc, &words, &mut files, &mut out);
    let written = Vec::from_slice(alloc, out.bytes())?;
    Ok(Seen { status, written })
}

/// Words that are no request: each row has its words with a comma after each.
#[test]
fn words_that_are_no_request(rt: HostRuntime) -> Result<(), Fail> {
    for words in [
        "",
        "check,",
        "check,--protocol,flat.m,--protocol,flat.m,",
        "check,--protocol=flat.m,--protocol=flat.m,",
        "check,--help,",
        "--help,",
        "check,-h,",
        "check,-,",
        "check,--,",
        "check,,",
        ",",
        "check,--protocol=,",
        "check,--protocol,,",
        "check,--protocol,",
        "check,--protocol,-x,",
        "check,--proto,flat.m,",
        "check,--protocol,flat.m,more,",
        "prove,--protocol,a,--protocol,b,",
    ] {
        let seen = call(rt.alloc(), words, b"", 1, 0)?;
        assert_eq!(rt; seen.status, 3, "{words}");
        assert_eq!(rt;
            seen.written.as_slice(),
            b"cmp 1\nrefused E01\nend\n".as_slice(),
            "{words}"
        );
    }
    Ok(())
}

/// Words, the read and the write that fail, the status, and how many bytes of a refusal were written.
#[test]
fn reads_and_writes_that_fail(rt: HostRuntime) -> Result<(), Fail> {
    let refusal: &[u8] = b"cmp 1\nrefused E01\nend\n";
    for (words, read, write, status, count) in [
        ("check,--protocol,flat.m,", 1, 0, 4, 0),
        ("check,--protocol,flat.m,", 1, 1, 4, 0),
        ("check,--protocol=flat.m,", 1, 0, 4, 0),
        ("check,--protocol,none.m,", 0, 0, 4, 0),
        ("check,--protocol=-x,", 0, 0, 4, 0),
        ("check,", 0, 1, 5, 0),
        ("check,", 0, 2, 5, 6),
        ("check,", 1, 3, 5, 18),
        ("check,", 0, 4, 3, 22),
    ] {
        let seen = call(rt.alloc(), words, b"", read, write)?;
        assert_eq!(rt; seen.status, status, "{words} {read} {write}");
        let want = refusal.get(..count).unwrap_or(b"?");
        assert_eq!(rt; seen.written.as_slice(), want, "{words} {read} {write}");
    }
    Ok(())
}

/// A protocol whose invariant is inductive, and what is reported of it.
const FLAT: &[u8] = b"var a, b : boolean;
startstate \"Init\" a := true; b := false; end;
rule \"Move\" a ==> a := false; b := true; end;
rule \"Back\" b ==> a := true; b := false; end;
invariant \"One\" a != b;
";

const PROVED: &[u8] = b"cmp 1
answer proved
node none
claim nofault
claim invariant \"One\"
end
";

/// The read and the write that fail, the status, and how many bytes of the report were written: each
/// line is one write, and the lines end at bytes 6, 20, 30, 44, 66 and 70.
#[test]
fn a_proof_that_is_cut_short(rt: HostRuntime) -> Result<(), Fail> {
    for (read, write, status, count) in [
        (0, 0, 0, 70),
        (1, 0, 4, 0),
        (1, 1, 4, 0),
        (0, 1, 5, 0),
        (0, 2, 5, 6),
        (0, 3, 5, 20),
        (0, 4, 5, 30),
        (0, 5, 5, 44),
        (0, 6, 5, 66),
        (0, 7, 0, 70),
    ] {
        let seen = call(rt.alloc(), "check,--protocol,flat.m,", FLAT, read, write)?;
        assert_eq!(rt; seen.status, status, "{read} {write}");
        let want = PROVED.get(..count).unwrap_or(b"?");
        assert_eq!(rt; seen.written.as_slice(), want, "{read} {write}");
    }
    Ok(())
}

/// A file of one byte too many.
#[test]
fn a_file_that_is_too_long(rt: HostRuntime) -> Result<(), Fail> {
    let mut long = Vec::new(rt.alloc());
    for _ in 0..1_048_577 {
        long.push(b' ')?;
    }
    let seen = call(
        rt.alloc(),
        "check,--protocol,flat.m,",
        long.as_slice(),
        0,
        0,
    )?;
    assert_eq!(rt; seen.status, 3);
    let want = b"cmp 1\nrefused E16 protocol bytes over 1048576\nend\n";
    assert_eq!(rt; seen.written.as_slice(), want.as_slice());
    Ok(())
}

/// An item: `R`, `S` or `I` for a rule, a start state or an invariant, and then its string; `-` for
/// none.
fn item(alloc: Global, kind: u8, title: Option<Text>) -> RuleDecl {
    let at = AT;
    match kind {
        b'R' => RuleDecl::Rule {
            title,
            guard: None,
            locals: Items::new(alloc),
            body: Items::new(alloc),
            at,
        },
        b'S' => RuleDecl::Start {
            title,
            locals: Items::new(alloc),
            body: Items::new(alloc),
            at,
        },
        _ => RuleDecl::Invariant {
            title,
            body: Expr::Truth { value: true, at },
            at,
        },
    }
}

/// The string of an item, of which `-` says that there is none.
fn title_of(alloc: Global, text: &[u8]) -> Result<Option<Text>, Memory> {
    if text == b"-".as_slice() {
        return Ok(None);
    }
    let title = Text::make(alloc, text)?;
    Ok(Some(title))
}

/// The items of a text, each with a comma after it: `R`, `S` or `I` for its kind, and then its string.
fn items_of(alloc: Global, text: &str) -> Result<Items<RuleDecl>, Memory> {
    let mut items = Items::new(alloc);
    for one in text.split_terminator(',') {
        match one.as_bytes() {
            [kind, string @ ..] => {
                let title = title_of(alloc, string)?;
                items.push(item(alloc, *kind, title))?;
            }
            [] => {}
        }
    }
    Ok(items)
}

/// The declaration of `a` and `b`.
fn two_variables(alloc: Global) -> Result<Items<Decl>, Memory> {
    let a = Text::make(alloc, b"a")?;
    let b = Text::make(alloc, b"b")?;
    let mut names = Items::new(alloc);
    names.push(Named { name: a, at: AT })?;
    names.push(Named { name: b, at: AT })?;
    let mut decls = Items::new(alloc);
    let body = TypeExpr::Truth(AT);
    decls.push(Decl::Variables { names, body })?;
    Ok(decls)
}

/// A protocol over `a` and `b` with these items.
fn protocol(alloc: Global, items: &str) -> Result<Protocol, Memory> {
    let decls = two_variables(alloc)?;
    let rules = items_of(alloc, items)?;
    Ok(Protocol { decls, rules })
}

/// A step by item 3 from `a` alone true into both true.
fn a_step(alloc: Global) -> Result<Finding, Memory> {
    let from = Items::from_slice(alloc, &[Some(true), Some(false)])?;
    let to = Items::from_slice(alloc, &[Some(true), Some(true)])?;
    Ok(Finding::BadStep { from, rule: 3, to })
}

/// A start by item 0 that leaves `a` undefined and `b` false.
fn a_start(alloc: Global) -> Result<Finding, Memory> {
    let state = Items::from_slice(alloc, &[None, Some(false)])?;
    Ok(Finding::BadStart { start: 0, state })
}

/// An outcome made by hand: of a step, of a start, or of neither.
fn outcome(alloc: Global, kind: u8, items: &str, formula: Formula) -> Result<Outcome, Memory> {
    let protocol = protocol(alloc, items)?;
    match kind {
        b'p' => Ok(Outcome::Proved { protocol }),
        b'r' => {
            let finding = a_step(alloc)?;
            Ok(Outcome::NotInductive {
                protocol,
                finding,
                formula,
            })
        }
        _ => {
            let finding = a_start(alloc)?;
            Ok(Outcome::NotInductive {
                protocol,
                finding,
                formula,
            })
        }
    }
}

/// The report of an outcome, in one piece.
fn printed(alloc: Global, outcome: &Outcome) -> Result<Vec<u8>, Memory> {
    let lines = report(alloc, outcome)?;
    let mut bytes = Vec::new(alloc);
    for line in lines.as_slice() {
        bytes.extend_from_slice(line.bytes())?;
    }
    Ok(bytes)
}

const BOTH: &str = "SInit,RMove,RBack,RBoth,IOne,";

#[test]
fn reports_by_hand(rt: HostRuntime) -> Result<(), Fail> {
    for (kind, items, formula, want) in [
        (
            b'r',
            BOTH,
            Formula::Item(4),
            "cmp 1\nanswer not inductive\nnode none\nviolates invariant \"One\"\nfrom\na = true\nb = false\nfire \"Both\"\nwide\na = true\nb = false\nstate\na = true\nb = true\nend\n",
        ),
        (
            b's',
            BOTH,
            Formula::StartFault(0),
            "cmp 1\nanswer refuted\nnode none\nviolates nofault start \"Init\"\nstart \"Init\"\nstate\na = undefined\nb = false\nend\n",
        ),
        (
            b's',
            BOTH,
            Formula::Item(2),
            "cmp 1\nanswer refuted\nnode none\nviolates nofault \"Back\"\nstart \"Init\"\nstate\na = undefined\nb = false\nend\n",
        ),
        (
            b'p',
            "IA,IA,RA,I,I#1,I-,R-,IB,",
            Formula::Item(0),
            "cmp 1\nanswer proved\nnode none\nclaim nofault\nclaim invariant \"A\"\nclaim invariant \"#2\"\nclaim invariant \"#3\"\nclaim invariant \"#4\"\nclaim invariant \"#5\"\nclaim invariant \"B\"\nend\n",
        ),
    ] {
        let outcome = outcome(rt.alloc(), kind, items, formula)?;
        let text = printed(rt.alloc(), &outcome)?;
        assert_eq!(rt; text.as_slice(), want.as_bytes(), "{want}");
    }
    Ok(())
}

#[test]
fn refusals_by_hand(rt: HostRuntime) -> Result<(), Fail> {
    for (refusal, want) in [
        (
            Refusal::Placed {
                code: Code::E10,
                role: Role::Protocol,
                at: AT,
            },
            "cmp 1\nrefused E10 protocol 12:19\nend\n",
        ),
        (
            Refusal::Placed {
                code: Code::E04,
                role: Role::Script,
                at: AT,
            },
            "cmp 1\nrefused E04 script 12:19\nend\n",
        ),
    ] {
        let text = printed(rt.alloc(), &Outcome::Refused { refusal })?;
        assert_eq!(rt; text.as_slice(), want.as_bytes(), "{want}");
    }
    Ok(())
}
