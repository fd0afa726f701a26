//! Branches of an `if` or a `switch`, from the last to the first, and the labels of a case.

#![tactic(auto, using(crate::proofs::BranchEquations::branches))]

ghost use Rattle.std.specs.Prelude.{◌≡◌, ◌++◌, map, IfOk};
ghost use Rattle.term_core.specs.declared.term.Term.{Not, Same};
ghost use Rattle.rule_inline.specs.Demands.{under_test};
ghost use Rattle.rule_inline.specs.Bodies.{among, one_of_labels};
ghost use Rattle.rule_terms.specs.Gathered.{seen_demands};
ghost use Rattle.rule_forms.specs.Seen.{seen_site, seen_valued, seen_done, seen_chain, seen_worked, terms_in, families_in};
ghost use Rattle.rule_parts.specs.Layers.{seen_layer, chosen_change};
ghost use Rattle.rule_forms.specs.Words.{last_link, one_link, links_over, of_chain, labels_over, label_tests, label_demands};

use crate::site::{Done, Site, Valued};
use crate::statement::{reached, shared};
use rule_parts::layer::Layer;
use rule_terms::build::{not, same};
use rule_terms::demand::{Demands, both, under};
use sqlite_items::Items;
use std::alloc::Global;
use std::rc::Rc;
use term_core::term::Term;
use term_core::text::Memory;

/// A chain of branches, with what they demand.
#[derive(Drop)]
pub struct Chain {
    pub change: Rc<Layer>,
    pub demands: Demands,
}

/// The last branch, which has no test.
pub fn last_branch(site: &Site<'_>, body: Done) -> Chain
    ensures { seen_chain site.now result ≡ last_link (seen_done site.now body) }
{
    Chain {
        change: body.change,
        demands: body.demands,
    }
}

/// A branch before others.
fn one_branch(
    alloc: Global,
    site: &Site<'_>,
    terms: &Layer,
    test: Valued,
    body: Done,
    rest: Chain,
) -> Result<Chain, Memory>
    ensures { IfOk result (λ c. seen_chain site.now c ≡ one_link (seen_site site.now) (terms_in site.now terms.now) (seen_valued test) (seen_done site.now body) (seen_chain site.now rest)) }
{
    let asked = reached(alloc, site, terms, test.demands)?;
    let holds = test.term.copy(alloc)?;
    let copied = test.term.copy(alloc)?;
    let fails = not(alloc, copied)?;
    let first = under(alloc, site.frame, holds, body.demands)?;
    let second = under(alloc, site.frame, fails, rest.demands)?;
    let inner = both(alloc, first, second)?;
    let demands = both(alloc, asked, inner)?;
    let layer = Layer::Branch {
        frame: site.frame,
        test: test.term,
        taken: body.change,
        other: rest.change,
    };
    let change = shared(alloc, layer)?;
    Ok(Chain { change, demands })
}

/// A branch with its test.
#[derive(Drop)]
pub struct Worked {
    pub test: Valued,
    pub body: Done,
}

/// Branches with their tests, before a last one.
pub fn linked(
    alloc: Global,
    site: &Site<'_>,
    terms: &Layer,
    all: Items<Worked>,
    last: Chain,
) -> Result<Chain, Memory>
    ensures { IfOk result (λ c. seen_chain site.now c ≡ links_over (seen_site site.now) (terms_in site.now terms.now) (map (seen_worked site.now) all) (seen_chain site.now last)) }
{
    let mut left = all;
    let mut out = last;
    while let Some(one) = left.pop() {
        out = one_branch(alloc, site, terms, one.test, one.body, out)?;
    }
    Ok(out)
}

/// A layer in which what no branch changes is left.
fn chosen_layer(
    alloc: Global,
    site: &Site<'_>,
    terms: &Rc<Layer>,
    chain: Rc<Layer>,
) -> Result<Rc<Layer>, Memory>
    ensures { IfOk result (λ r. seen_layer r.value (families_in site.now) ≡ chosen_change (terms_in site.now terms.now.value) (seen_layer chain.value (families_in site.now))) }
{
    let before = terms.clone()?;
    let r = shared(alloc, Layer::Chosen { before, chain })?;
    Ok(r)
}

/// All branches, which leave what none of them changes.
pub fn branched(
    alloc: Global,
    site: &Site<'_>,
    terms: &Rc<Layer>,
    first: Demands,
    all: Chain,
) -> Result<Done, Memory>
    ensures { IfOk result (λ d. seen_done site.now d ≡ of_chain (terms_in site.now terms.now.value) (seen_demands first) (seen_chain site.now all)) }
{
    let change = chosen_layer(alloc, site, terms, all.change)?;
    let demands = both(alloc, first, all.demands)?;
    Ok(Done { change, demands })
}

fn label_test(alloc: Global, on: &Term, label: &Term) -> Result<Term, Memory>
    ensures { IfOk result (λ t. t ≡ Same on.now label.now) }
{
    let on = on.copy(alloc)?;
    let label = label.copy(alloc)?;
    let t = same(alloc, on, label)?;
    Ok(t)
}

fn label_tests(alloc: Global, on: &Term, all: &[Valued]) -> Result<Items<Term>, Memory>
    ensures { IfOk result (λ ts. ts ≡ label_tests on.now (map seen_valued all.now)) }
{
    let mut out = Items::new(alloc);
    for label in all {
        let test = label_test(alloc, on, &label.term)?;
        out.push(test)?;
    }
    Ok(out)
}

/// That a value is not a label.
fn label_fails(alloc: Global, on: &Term, label: &Term) -> Result<Term, Memory>
    ensures { IfOk result (λ t. t ≡ Not (Same on.now label.now)) }
{
    let test = label_test(alloc, on, label)?;
    let fails = not(alloc, test)?;
    Ok(fails)
}

/// What is demanded where a value is not a label.
fn past_label(
    alloc: Global,
    frame: u32,
    on: &Term,
    label: &Term,
    rest: Demands,
) -> Result<Demands, Memory>
    ensures { IfOk result (λ d. seen_demands d ≡ under_test frame (Not (Same on.now label.now)) (seen_demands rest)) }
{
    let fails = label_fails(alloc, on, label)?;
    let d = under(alloc, frame, fails, rest)?;
    Ok(d)
}

fn label_demanded(
    alloc: Global,
    frame: u32,
    on: &Term,
    label: Valued,
    rest: Demands,
) -> Result<Demands, Memory>
    ensures { IfOk result (λ d. seen_demands d ≡ (seen_valued label).demands ++ under_test frame (Not (Same on.now label.term)) (seen_demands rest)) }
{
    let rest = past_label(alloc, frame, on, &label.term, rest)?;
    let d = both(alloc, label.demands, rest)?;
    Ok(d)
}

fn label_demands(
    alloc: Global,
    frame: u32,
    on: &Term,
    all: Items<Valued>,
) -> Result<Demands, Memory>
    ensures { IfOk result (λ d. seen_demands d ≡ label_demands frame on.now (map seen_valued all)) }
{
    let mut left = all;
    let mut out = Demands::Nothing;
    while let Some(label) = left.pop() {
        out = label_demanded(alloc, frame, on, label, out)?;
    }
    Ok(out)
}

fn one_of(tests: Items<Term>) -> Term
    ensures { result ≡ one_of_labels tests }
{
    let mut tests = tests;
    if tests.len() == 1 {
        match tests.pop() {
            Some(test) => test,
            None => Term::Or(tests),
        }
    } else {
        Term::Or(tests)
    }
}

/// Whether a value is one of the labels, of which several are one test.
pub fn among(
    alloc: Global,
    site: &Site<'_>,
    on: &Term,
    labels: Items<Valued>,
) -> Result<Valued, Memory>
    ensures { IfOk result (λ v. seen_valued v ≡ among (labels_over (seen_site site.now) on.now (map seen_valued labels))) }
{
    let tests = label_tests(alloc, on, labels.as_slice())?;
    let demands = label_demands(alloc, site.frame, on, labels)?;
    Ok(Valued {
        term: one_of(tests),
        demands,
    })
}
