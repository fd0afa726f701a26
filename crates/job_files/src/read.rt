//! The lists that files of lemmas and of flows spell.
ghost use Rattle.std.specs.Prelude.{◌≡◌, List, ℕ, Result, IsTrue};
ghost use Rattle.murphi_ast.specs.Spelling.{ends_once};
ghost use Rattle.murphi_ast.specs.declared.job.Flow.{Flow};
ghost use Rattle.murphi_ast.specs.declared.job.Lemma.{Lemma};
ghost use Rattle.job_files.specs.declared.refusal.JobRefusal.{JobRefusal};
ghost use Rattle.job_files.specs.Told.{IsAnswered, TellsBytes, TellsFlows, TellsLemmas, flow_name, lemma_name};
ghost use Rattle.job_files.specs.Uses.{IsDistinct, lexed};

use crate::refusal::JobRefusal;
use crate::text::{flow_file, lemma_items};
use crate::uses::{second_flow, second_lemma};
use murphi_ast::job::{Flow, Lemma};
use murphi_ast::text::Memory;
use murphi_ast::token::Token;
use murphi_expressions::expression::GREATEST_NESTING;
use murphi_expressions::refusal::first_refused;
use murphi_expressions::step::{Stop, place_at};
use murphi_lex::{LexRefusal, tokens};
use sqlite_items::Items;
use std::alloc::Global;

/// The refusal of bytes that are not those of tokens.
fn lexed(e: LexRefusal) -> JobRefusal
    ensures { result ≡ lexed e }
{
    match e {
        LexRefusal::E02(at) => JobRefusal::E02(at),
        LexRefusal::E03(at) => JobRefusal::E03(at),
        LexRefusal::Memory => JobRefusal::Memory,
    }
}

/// These lemmas, where no name is used twice.
fn distinct_lemmas(alloc: Global, all: Items<Lemma>) -> Result<Items<Lemma>, JobRefusal>
    ensures { IsDistinct lemma_name all result }
{
    match second_lemma(alloc, all.as_slice()) {
        Ok(None) => Ok(all),
        Ok(Some(at)) => Err(JobRefusal::E06(at)),
        Err(Memory) => Err(JobRefusal::Memory),
    }
}

/// These flows, where no name is used twice.
fn distinct_flows(alloc: Global, all: Items<Flow>) -> Result<Items<Flow>, JobRefusal>
    ensures { IsDistinct flow_name all result }
{
    match second_flow(alloc, all.as_slice()) {
        Ok(None) => Ok(all),
        Ok(Some(at)) => Err(JobRefusal::E06(at)),
        Err(Memory) => Err(JobRefusal::Memory),
    }
}

/// The lemmas that the tokens of a file spell.
#[tactic(auto, using(crate::proofs::Answering::lemmas))]
fn lemmas_told(alloc: Global, tokens: &[Token]) -> Result<Items<Lemma>, JobRefusal>
    requires { IsTrue (ends_once tokens.now) }
    ensures { TellsLemmas tokens.now result }
{
    if let Some(at) = first_refused(tokens) {
        return Err(JobRefusal::E10(at));
    }
    match lemma_items(alloc, tokens, 0, GREATEST_NESTING) {
        Ok((all, _)) => distinct_lemmas(alloc, all),
        Err(Stop::Wrong(i)) => Err(JobRefusal::E04(place_at(tokens, i))),
        Err(Stop::Deep(i)) => Err(JobRefusal::E15(place_at(tokens, i))),
        Err(Stop::Memory) => Err(JobRefusal::Memory),
    }
}

/// The flows that the tokens of a file spell.
#[tactic(auto, using(crate::proofs::Answering::flows))]
fn flows_told(alloc: Global, tokens: &[Token]) -> Result<Items<Flow>, JobRefusal>
    requires { IsTrue (ends_once tokens.now) }
    ensures { TellsFlows tokens.now result }
{
    if let Some(place) = first_refused(tokens) {
        return Err(JobRefusal::E10(place));
    }
    match flow_file(alloc, tokens, GREATEST_NESTING) {
        Ok((all, _)) => distinct_flows(alloc, all),
        Err(Stop::Wrong(i)) => Err(JobRefusal::E04(place_at(tokens, i))),
        Err(Stop::Deep(i)) => Err(JobRefusal::E15(place_at(tokens, i))),
        Err(Stop::Memory) => Err(JobRefusal::Memory),
    }
}

/// The lemmas that the bytes of a file spell: `{ lemma name : expr ; }`. First of all the bytes have to be those
/// of tokens (E02, E03); then no refused word stands among these (E10); then reading stops at the first token
/// with which the tokens before it begin no such file (E04), or before that at one that opens a nesting too many
/// (E15); then no name is used twice (E06, at its second use). A file of no bytes has no lemmas.
pub fn lemmas(alloc: Global, bytes: &[u8]) -> Result<Items<Lemma>, JobRefusal>
    // What each answer tells of the bytes; want of memory tells nothing.
    ensures told { TellsBytes TellsLemmas bytes.now result }

    // What may be told is answered, unless memory runs out.
    ensures only { (answer : Result (List Lemma) JobRefusal) → TellsBytes TellsLemmas bytes.now answer → IsAnswered
        result answer }
{
    match tokens(alloc, bytes) {
        Ok(ts) => {
            let answer = lemmas_told(alloc, ts.as_slice());
            return answer;
        }
        Err(e) => return Err(lexed(e)),
    }
}

/// The flows that the bytes of a file spell: nothing, or `flows 1 ; { flow name : event , event { , event } ; }`.
/// It is refused in the same order as a file of lemmas. A number behind `flows` other than 1 is E04.
pub fn flows(alloc: Global, bytes: &[u8]) -> Result<Items<Flow>, JobRefusal>
    // What each answer tells of the bytes; want of memory tells nothing.
    ensures told { TellsBytes TellsFlows bytes.now result }

    // What may be told is answered, unless memory runs out.
    ensures only { (answer : Result (List Flow) JobRefusal) → TellsBytes TellsFlows bytes.now answer → IsAnswered
        result answer }
{
    match tokens(alloc, bytes) {
        Ok(ts) => {
            let answer = flows_told(alloc, ts.as_slice());
            return answer;
        }
        Err(e) => return Err(lexed(e)),
    }
}
