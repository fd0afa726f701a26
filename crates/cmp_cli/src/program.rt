//! The top call: the words, the file, the answer, the report.

ghost use Rattle.std.specs.Prelude.{◌≡◌, ℕ, List, Some, None, IfOk, IfErr, map};
ghost use Rattle.std.specs.String.{string_bytes};
ghost use Rattle.murphi_ast.specs.declared.token.Span.{Span};
ghost use Rattle.murphi_ast.specs.declared.rule.Protocol.{Protocol};
ghost use Rattle.murphi_ast.specs.Flat.{IsBuilt, IsUnbuilt, IsNotFlat};
ghost use Rattle.cmp_outside.specs.Faults.{Rose};
ghost use Rattle.cmp_outside.specs.Source.{SameFiles};
ghost use Rattle.cmp_cli.specs.declared.outcome.Refusal.{Refusal};
ghost use Rattle.cmp_cli.specs.Words.{Word, AskFor, IsNoRequest};
ghost use Rattle.cmp_cli.specs.Run.{IsOutcome, IsEnding, IsAnswered, Spells, RefusesFile};
ghost use Rattle.cmp_cli.specs.Judged.{IsJudged, IsOfFile, IsVerdict, IsRefused, OnReadFailed, UnlessStopped, IsLastFailed, IsUnasked, IsTold, ending_of};

use crate::outcome::{Code, Ending, Outcome, Refusal, Role};
use crate::report::{report, write_lines};
use crate::request::protocol_of;
use crate::words::requested;
use cmp_outside::{ReadEnd, Sink, Source};
use flat_check::{Verdict, check, finding_is_no_proof};
use murphi_ast::laws::inductive_is_safe;
use murphi_ast::text::Memory;
use murphi_ast::token::Span;
use murphi_syntax::{FlatStop, flat};
use std::alloc::Global;

/// How many bytes a file may have.
const GREATEST_FILE: u64 = 1_048_576;

/// Why there is no outcome.
#[derive(Debug, Drop)]
enum Stop {
    /// The file could not be read.
    ReadFailed,
    /// There was no memory.
    Memory,
}

/// The refusal of the text of the protocol at a place.
fn placed(code: Code, at: Span) -> Refusal
    ensures { result ≡ Refusal.Placed code Role.Protocol at }
{
    let role = Role::Protocol;
    Refusal::Placed { code, role, at }
}

/// The outcome for a text that is not too long.
fn judged(alloc: Global, bytes: &[u8]) -> Result<Outcome, Memory>
    ensures is { IfOk result (λ o. IsJudged bytes.now o) }
    ensures spelled { (p : Protocol) → IsBuilt bytes.now p → IfOk result IsVerdict }
    ensures unbuilt { (at : Span) → IsUnbuilt bytes.now at → IfOk result IsRefused }
    ensures not_flat { IsNotFlat bytes.now → IfOk result IsRefused }
{
    inductive_is_safe();
    finding_is_no_proof();
    let protocol = match flat(alloc, bytes) {
        Ok(protocol) => protocol,
        Err(FlatStop::NotBuilt { at }) => {
            let refusal = placed(Code::E10, at);
            return Ok(Outcome::Refused { refusal });
        }
        Err(FlatStop::NotFlat { at }) => {
            let refusal = placed(Code::E04, at);
            return Ok(Outcome::Refused { refusal });
        }
        Err(FlatStop::Memory) => return Err(Memory),
    };
    match check(alloc, &protocol)? {
        Verdict::Inductive => Ok(Outcome::Proved { protocol }),
        Verdict::Found { finding, formula } => Ok(Outcome::NotInductive {
            protocol,
            finding,
            formula,
        }),
    }
}

/// The outcome for a file.
fn checked<S: Source>(alloc: Global, file: &str, files: &mut S) -> Result<Outcome, Stop>
    ensures is { IfOk result (λ o. IsOfFile (S.told files.old file.now) o) }
    ensures spelled { (bytes : List ℕ) (p : Protocol) → S.told files.old file.now ≡ Some bytes →
        Spells p bytes → IfOk result IsVerdict }
    ensures refused { (bytes : List ℕ) (refusal : Refusal) → S.told files.old file.now ≡ Some bytes →
        RefusesFile refusal bytes → IfOk result IsRefused }
    ensures failed { OnReadFailed result (Rose (S.faults files.old) (S.faults files.new)) }
    ensures failed_name { OnReadFailed result (S.last_failed files.new ≡ Some file.now) }
    ensures told { SameFiles (S.told files.old) (S.told files.new) }
    ensures count_stays { UnlessStopped result (S.faults files.new ≡ S.faults files.old) }
    ensures name_stays { UnlessStopped result (S.last_failed files.new ≡ S.last_failed files.old) }
{
    match files.read_file(alloc, file, GREATEST_FILE) {
        Ok(bytes) => match judged(alloc, bytes.as_slice()) {
            Ok(outcome) => Ok(outcome),
            Err(_) => Err(Stop::Memory),
        },
        Err(ReadEnd::TooLong) => {
            let role = Role::Protocol;
            let limit = GREATEST_FILE;
            let refusal = Refusal::Bytes { role, limit };
            Ok(Outcome::Refused { refusal })
        }
        Err(ReadEnd::Failed) => Err(Stop::ReadFailed),
        Err(ReadEnd::Memory) => Err(Stop::Memory),
    }
}

/// The ending that tells that an outcome was reported.
fn ending_of(outcome: &Outcome) -> Ending
    ensures { result ≡ ending_of outcome.now }
{
    match outcome {
        Outcome::Proved { .. } => Ending::Proved,
        Outcome::NotInductive { .. } => Ending::NotInductive,
        Outcome::Refused { .. } => Ending::Refused,
    }
}

/// Writes the report of an outcome.
fn tell<K: Sink>(alloc: Global, outcome: &Outcome, out: &mut K) -> Ending
    ensures { IsTold (K.written out.old) (K.written out.new) (K.faults out.old) (K.faults out.new) outcome.now result }
{
    let Ok(lines) = report(alloc, outcome) else {
        return Ending::Memory;
    };
    match write_lines(out, lines.as_slice()) {
        Ok(()) => ending_of(outcome),
        Err(_) => Ending::WriteFailed,
    }
}

/// The outcome for these words.
fn outcome<S: Source>(alloc: Global, words: &[String], files: &mut S) -> Result<Outcome, Stop>
    ensures is { IfOk result (λ o. IsOutcome (map string_bytes words.now) (S.told files.old) o) }
    ensures spelled { (file : Word) (bytes : List ℕ) (p : Protocol) → AskFor (map string_bytes words.now) file →
        S.told files.old file ≡ Some bytes → Spells p bytes → IfOk result IsVerdict }
    ensures refused { (file : Word) (bytes : List ℕ) (refusal : Refusal) → AskFor (map string_bytes words.now) file →
        S.told files.old file ≡ Some bytes → RefusesFile refusal bytes → IfOk result IsRefused }
    ensures failed { OnReadFailed result (Rose (S.faults files.old) (S.faults files.new)) }
    ensures failed_name { OnReadFailed result (IsLastFailed (map string_bytes words.now) (S.last_failed files.new)) }
    ensures told { SameFiles (S.told files.old) (S.told files.new) }
    ensures count_stays { UnlessStopped result (S.faults files.new ≡ S.faults files.old) }
    ensures name_stays { UnlessStopped result (S.last_failed files.new ≡ S.last_failed files.old) }
    ensures unasked { IsNoRequest (map string_bytes words.now) → IsUnasked result }
    ensures unread { IsNoRequest (map string_bytes words.now) → files.new ≡ files.old }
{
    match requested(alloc, words) {
        Ok(Some(request)) => {
            let file = protocol_of(&request);
            let found = checked(alloc, file.as_str(), files);
            found
        }
        Ok(None) => {
            let refusal = Refusal::E01;
            Ok(Outcome::Refused { refusal })
        }
        Err(_) => Err(Stop::Memory),
    }
}

/// Does all that the program does.
fn ending<S: Source, K: Sink>(alloc: Global, words: &[String], files: &mut S, out: &mut K) -> Ending
    ensures is { IsEnding (record {
      words = map string_bytes words.now;
      told = S.told files.old;
      told_then = S.told files.new;
      reads_failed = S.faults files.old;
      reads_failed_then = S.faults files.new;
      last_failed = S.last_failed files.old;
      last_failed_then = S.last_failed files.new;
      writes_failed = K.faults out.old;
      writes_failed_then = K.faults out.new;
      written = K.written out.old;
      written_then = K.written out.new;
    }) result }
    ensures unread { IsNoRequest (map string_bytes words.now) → files.new ≡ files.old }
{
    match outcome(alloc, words, files) {
        Ok(outcome) => tell(alloc, &outcome, out),
        Err(Stop::ReadFailed) => Ending::ReadFailed,
        Err(Stop::Memory) => Ending::Memory,
    }
}

/// Does all that the program does: it reads the words, the file that they ask for and the protocol
/// in it, decides whether the protocol is inductive, writes the report, and answers the status.
///
/// | Status | What it tells | What was written |
/// |---|---|---|
/// | 0 | the protocol is inductive, and so every state that it reaches is safe | the whole report |
/// | 1 | the protocol is not inductive | the whole report |
/// | 3 | the words or the file are refused | the whole report |
/// | 4 | the file could not be read | nothing |
/// | 5 | the report could not be written | a prefix of the report |
/// | 6 | want of memory | nothing |
pub fn run<S: Source, K: Sink>(alloc: Global, words: &Vec<String>, files: &mut S, out: &mut K) -> u8
    // The status is that of an ending of which all holds that is claimed.
    ensures answered { IsAnswered (record {
      words = map string_bytes words.now.items;
      told = S.told files.old;
      told_then = S.told files.new;
      reads_failed = S.faults files.old;
      reads_failed_then = S.faults files.new;
      last_failed = S.last_failed files.old;
      last_failed_then = S.last_failed files.new;
      writes_failed = K.faults out.old;
      writes_failed_then = K.faults out.new;
      written = K.written out.old;
      written_then = K.written out.new;
    }) result }

    // For words that are no request nothing is read.
    ensures unread { IsNoRequest (map string_bytes words.now.items) → files.new ≡ files.old }
{
    let ending = ending(alloc, words.as_slice(), files, out);
    ending.status()
}
