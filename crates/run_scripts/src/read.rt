//! The lines that the bytes of a script write.

ghost use Rattle.std.specs.Prelude.{◌≡◌, IsTrue, List, Result};
ghost use Rattle.murphi_ast.specs.Spelling.{ends_once};
ghost use Rattle.run_scripts.specs.declared.refusal.Line.{Line};
ghost use Rattle.run_scripts.specs.declared.refusal.ScriptRefusal.{ScriptRefusal};
ghost use Rattle.run_scripts.specs.Reading.{Finished, IsReadAs};
ghost use Rattle.run_scripts.specs.Told.{IsAnswered, TellsBytes, lexed};

use crate::phase::{Halt, Phase, Progress};
use crate::refusal::{Line, ScriptRefusal};
use crate::step::steps;
use crate::titles::found_table;
use murphi_ast::text::Memory;
use murphi_ast::token::{Span, Token};
use murphi_lex::{LexRefusal, tokens};
use murphi_typed::protocol::Typed;
use sqlite_items::Items;
use std::alloc::Global;

/// The refusal of bytes that are not those of tokens.
fn lexed(e: LexRefusal) -> ScriptRefusal
    ensures { result ≡ lexed e }
{
    match e {
        LexRefusal::E02(at) => ScriptRefusal::E02(at),
        LexRefusal::E03(at) => ScriptRefusal::E03(at),
        LexRefusal::Memory => ScriptRefusal::Memory,
    }
}

/// The lines, where reading came to the end of a text.
fn finished(p: Progress) -> Result<Items<Line>, ScriptRefusal>
    ensures { Finished p result }
{
    match p.phase {
        Phase::Done => Ok(p.lines),
        _ => Err(ScriptRefusal::E19(Span { line: 1, column: 1 })),
    }
}

/// The lines that tokens write.
#[tactic(auto, using(crate::proofs::Telling::telling))]
fn read_tokens(
    alloc: Global,
    typed: &Typed,
    nodes: u32,
    tokens: &[Token],
) -> Result<Items<Line>, ScriptRefusal>
    requires { IsTrue (ends_once tokens.now) }
    ensures { IsReadAs nodes typed.now tokens.now result }
{
    let table = match found_table(alloc, typed, nodes) {
        Ok(table) => table,
        Err(_) => return Err(ScriptRefusal::Memory),
    };
    let mut p = Progress::fresh(alloc);
    match steps(alloc, typed, nodes, &table, &mut p, tokens) {
        Ok(()) => finished(p),
        Err(Halt::Wrong(at)) => Err(ScriptRefusal::E19(at)),
        Err(Halt::Memory) => Err(ScriptRefusal::Memory),
    }
}

/// The lines that the bytes of a script write for a protocol with so many nodes, the first of which names a start
/// state and the others rules. First of all the bytes have to be those of tokens (E02, E03); then reading stops at
/// the first token with which the tokens before it begin no script (E19), where a value of two tokens counts as
/// one. Titles are those of reports, `#k` among them.
pub fn script(
    alloc: Global,
    typed: &Typed,
    nodes: u32,
    bytes: &[u8],
) -> Result<Items<Line>, ScriptRefusal>
    // What each answer tells of the bytes; want of memory tells nothing.
    ensures told { TellsBytes nodes typed.now bytes.now result }

    // What may be told is answered, unless memory runs out.
    ensures only { (answer : Result (List Line) ScriptRefusal) → TellsBytes nodes typed.now bytes.now answer →
        IsAnswered result answer }
{
    match tokens(alloc, bytes) {
        Ok(ts) => {
            let answer = read_tokens(alloc, typed, nodes, ts.as_slice());
            return answer;
        }
        Err(e) => return Err(lexed(e)),
    }
}
