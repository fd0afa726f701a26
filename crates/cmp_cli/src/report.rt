//! The report of an outcome, line by line.

ghost use Rattle.std.specs.Prelude.{◌≡◌, ◌++◌, [], ◌∷◌, IfOk, OnOk, OnErr, codes};
ghost use Rattle.std.specs.List.{concat};
ghost use Rattle.cmp_outside.specs.Faults.{Rose};
ghost use Rattle.cmp_outside.specs.Sink.{Gains, GainsPrefix};
ghost use Rattle.cmp_cli.specs.Report.{line, quoted, place_text, refusal_text, item_title, formula_line, bad_start_lines, firing_lines, bad_step_lines, finding_lines, proved_lines, answer_lines, report_lines};

use crate::lines::{claims, formula_line, plain, push_state, titled};
use crate::outcome::{Code, Outcome, Refusal, Role};
use crate::titles::item_title;
use cmp_outside::{Sink, WriteFailed};
use flat_check::{Finding, Formula};
use murphi_ast::rule::Protocol;
use murphi_ast::text::{Memory, Text};
use murphi_ast::token::Span;
use sqlite_items::Items;
use std::alloc::Global;

/// Adds the line of this text.
fn push_plain(alloc: Global, lines: &mut Items<Text>, text: &[u8]) -> Result<(), Memory>
    ensures { OnOk result (lines.new ≡ lines.old ++ line text.now ∷ []) }
{
    let line = plain(alloc, text)?;
    lines.push(line)?;
    Ok(())
}

/// Adds a line that names an item.
fn push_item(
    alloc: Global,
    lines: &mut Items<Text>,
    head: &[u8],
    p: &Protocol,
    k: usize,
) -> Result<(), Memory>
    ensures { OnOk result (lines.new ≡ lines.old ++ line (head.now ++ quoted (item_title p.now.rules k)) ∷ []) }
{
    let title = item_title(alloc, p.rules.as_slice(), k)?;
    let line = titled(alloc, head, b"", &title)?;
    lines.push(line)?;
    Ok(())
}

/// Adds the line that names the violated formula.
fn push_violates(
    alloc: Global,
    lines: &mut Items<Text>,
    p: &Protocol,
    formula: Formula,
) -> Result<(), Memory>
    ensures { OnOk result (lines.new ≡ lines.old ++ formula_line (codes "violates ") p.now.rules formula ∷ []) }
{
    let line = formula_line(alloc, b"violates ", p.rules.as_slice(), formula)?;
    lines.push(line)?;
    Ok(())
}

/// Adds what is found at a bad start.
fn push_bad_start(
    alloc: Global,
    lines: &mut Items<Text>,
    p: &Protocol,
    start: usize,
    state: &Items<Option<bool>>,
    formula: Formula,
) -> Result<(), Memory>
    ensures { OnOk result (lines.new ≡ lines.old ++ bad_start_lines p.now start state.now formula) }
{
    push_plain(alloc, lines, b"answer refuted")?;
    push_plain(alloc, lines, b"node none")?;
    push_violates(alloc, lines, p, formula)?;
    push_item(alloc, lines, b"start ", p, start)?;
    push_state(alloc, lines, b"state", p, state)?;
    Ok(())
}

/// Adds a firing.
fn push_firing(
    alloc: Global,
    lines: &mut Items<Text>,
    p: &Protocol,
    from: &Items<Option<bool>>,
    rule: usize,
    to: &Items<Option<bool>>,
) -> Result<(), Memory>
    ensures { OnOk result (lines.new ≡ lines.old ++ firing_lines p.now from.now rule to.now) }
{
    push_item(alloc, lines, b"fire ", p, rule)?;
    push_state(alloc, lines, b"wide", p, from)?;
    push_state(alloc, lines, b"state", p, to)?;
    Ok(())
}

/// Adds what is found at a bad step.
fn push_bad_step(
    alloc: Global,
    lines: &mut Items<Text>,
    p: &Protocol,
    from: &Items<Option<bool>>,
    rule: usize,
    to: &Items<Option<bool>>,
    formula: Formula,
) -> Result<(), Memory>
    ensures { OnOk result (lines.new ≡ lines.old ++ bad_step_lines p.now from.now rule to.now formula) }
{
    push_plain(alloc, lines, b"answer not inductive")?;
    push_plain(alloc, lines, b"node none")?;
    push_violates(alloc, lines, p, formula)?;
    push_state(alloc, lines, b"from", p, from)?;
    push_firing(alloc, lines, p, from, rule, to)?;
    Ok(())
}

/// Adds what is found, with the formula that it violates.
fn push_finding(
    alloc: Global,
    lines: &mut Items<Text>,
    p: &Protocol,
    finding: &Finding,
    formula: Formula,
) -> Result<(), Memory>
    ensures { OnOk result (lines.new ≡ lines.old ++ finding_lines p.now finding.now formula) }
{
    match finding {
        Finding::BadStart { start, state } => {
            push_bad_start(alloc, lines, p, *start, state, formula)?;
            Ok(())
        }
        Finding::BadStep { from, rule, to } => {
            push_bad_step(alloc, lines, p, from, *rule, to, formula)?;
            Ok(())
        }
    }
}

/// Adds that a protocol is proved, and what is claimed of it.
fn push_proved(alloc: Global, lines: &mut Items<Text>, p: &Protocol) -> Result<(), Memory>
    ensures { OnOk result (lines.new ≡ lines.old ++ proved_lines p.now) }
{
    push_plain(alloc, lines, b"answer proved")?;
    push_plain(alloc, lines, b"node none")?;
    push_plain(alloc, lines, b"claim nofault")?;
    let claims = claims(alloc, p.rules.as_slice())?;
    lines.append(claims)?;
    Ok(())
}

/// The line of what is wrong at a place.
fn placed(alloc: Global, code: Code, role: Role, at: Span) -> Result<Text, Memory>
    ensures { IfOk result (λ t. t ≡ line (codes "refused " ++ refusal_text (Refusal.Placed code role at))) }
{
    let code = code.word();
    let role = role.word();
    let line = at.line;
    let column = at.column;
    let text = format!(in alloc; "refused {code} {role} {line}:{column}")?;
    let line = plain(alloc, text.as_bytes())?;
    Ok(line)
}

/// The line of a file that is too long.
fn too_long(alloc: Global, role: Role, limit: u64) -> Result<Text, Memory>
    ensures { IfOk result (λ t. t ≡ line (codes "refused " ++ refusal_text (Refusal.Bytes role limit))) }
{
    let role = role.word();
    let text = format!(in alloc; "refused E16 {role} bytes over {limit}")?;
    let line = plain(alloc, text.as_bytes())?;
    Ok(line)
}

/// The line of a refusal.
fn refused(alloc: Global, refusal: Refusal) -> Result<Text, Memory>
    ensures { IfOk result (λ t. t ≡ line (codes "refused " ++ refusal_text refusal)) }
{
    match refusal {
        Refusal::E01 => {
            let line = plain(alloc, b"refused E01")?;
            Ok(line)
        }
        Refusal::Placed { code, role, at } => {
            let line = placed(alloc, code, role, at)?;
            Ok(line)
        }
        Refusal::Bytes { role, limit } => {
            let line = too_long(alloc, role, limit)?;
            Ok(line)
        }
    }
}

/// Adds the lines between the first and the last.
fn push_answer(alloc: Global, lines: &mut Items<Text>, outcome: &Outcome) -> Result<(), Memory>
    ensures { OnOk result (lines.new ≡ lines.old ++ answer_lines outcome.now) }
{
    match outcome {
        Outcome::Proved { protocol } => {
            push_proved(alloc, lines, protocol)?;
            Ok(())
        }
        Outcome::NotInductive {
            protocol,
            finding,
            formula,
        } => {
            push_finding(alloc, lines, protocol, finding, *formula)?;
            Ok(())
        }
        Outcome::Refused { refusal } => {
            let line = refused(alloc, *refusal)?;
            lines.push(line)?;
            Ok(())
        }
    }
}

/// The lines of the report, each with its line feed.
pub fn report(alloc: Global, outcome: &Outcome) -> Result<Items<Text>, Memory>
    ensures { IfOk result (λ lines. lines ≡ report_lines outcome.now) }
{
    let mut lines = Items::new(alloc);
    push_plain(alloc, &mut lines, b"cmp 1")?;
    push_answer(alloc, &mut lines, outcome)?;
    push_plain(alloc, &mut lines, b"end")?;
    Ok(lines)
}

/// Writes the lines in turn, and nothing after a write that failed.
#[tactic(auto, using(cmp_outside::specs::Sink::gains, crate::proofs::LineLemmas::lines))]
pub fn write_lines<K: Sink>(out: &mut K, lines: &[Text]) -> Result<(), WriteFailed>
    ensures ok { OnOk result (Gains (K.written out.old) (K.written out.new) (concat lines.now)) }
    ensures count_stays { OnOk result (K.faults out.new ≡ K.faults out.old) }
    ensures failed { OnErr result (Rose (K.faults out.old) (K.faults out.new)) }
    ensures prefix { OnErr result (GainsPrefix (K.written out.old) (K.written out.new) (concat lines.now)) }
{
    for line in lines {
        match out.write(line.bytes()) {
            Ok(()) => {}
            Err(_) => return Err(WriteFailed),
        }
    }
    Ok(())
}
