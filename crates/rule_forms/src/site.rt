//! The body that is taken, and what its parts come to. Contracts see these by `specs/Seen`.

#![tactic(auto, using(crate::proofs::SiteEquations::sites))]

ghost use Rattle.std.specs.Prelude.{◌≡◌, ◌++◌, ◌∷◌, [], map, slice_get, IfOk};
ghost use Rattle.rule_inline.specs.Demands.{demand};
ghost use Rattle.rule_inline.specs.Parts.{index_fits, with_value, with_variable, bound_term, formal_mark, root_mark, place_mark, mark_of, stood_for, root_spot, placed_under, no_indices, variable_of};
ghost use Rattle.rule_parts.specs.Seen.{seen_spot, seen_index};
ghost use Rattle.rule_parts.specs.Layers.{seen_given};
ghost use Rattle.rule_forms.specs.Words.{formal_spot, index_on, lifted_in, list_path, selectors_of, spot_under};
ghost use Rattle.rule_terms.specs.Gathered.{seen_demands};
ghost use Rattle.rule_forms.specs.Seen.{seen_site, seen_placed, seen_indexed, seen_valued};
ghost use Rattle.murphi_typed.specs.WellTyped.{root_of};

use murphi_ast::text::Text;
use murphi_typed::expr::{Designator, Expr, Root, Selector};
use murphi_typed::protocol::Routine;
use murphi_typed::shared::Shared;
use murphi_typed::types::Simple;
use rule_parts::family::Family;
use rule_parts::layer::{Given, Layer};
use rule_parts::place::{Index, Owner, Spot, copy_spot, copy_text, index_over, lift_spot};
use rule_terms::build::{added, undefined};
use rule_terms::condition::index_fits;
use rule_terms::demand::{Demands, and_one, both};
use sqlite_items::{Items, at};
use std::alloc::Global;
use std::rc::Rc;
use term_core::term::{Term, copy_terms};
use term_core::text::Memory;
use term_core::value::Value;

/// The body that is taken: the families of the globals and the routines that it may call; how many variables
/// are bound, its depth in calls, its result type where it is that of a function, the terms of its parameters
/// and bound variables from the outermost, and what its formals were given.
#[derive(Drop)]
pub struct Site<'a> {
    pub families: &'a [Family],
    pub routines: &'a [Shared<Routine>],
    pub frame: u32,
    pub depth: u32,
    pub result: Option<Simple>,
    pub bound: Items<Term>,
    pub formals: Items<Given>,
}

/// The term of an expression, with what it demands.
#[derive(Drop)]
pub struct Valued {
    pub term: Term,
    pub demands: Demands,
}

/// The place of a designator.
#[derive(Drop)]
pub struct Placed {
    pub spot: Spot,
    pub demands: Demands,
}

/// The indices of a designator.
#[derive(Drop)]
pub struct Indexed {
    pub indices: Items<Index>,
    pub demands: Demands,
}

/// What arguments give.
#[derive(Drop)]
pub struct Argued {
    pub given: Items<Given>,
    pub demands: Demands,
}

/// What a part of a body does.
#[derive(Drop)]
pub struct Done {
    pub change: Rc<Layer>,
    pub demands: Demands,
}

fn copy_given(alloc: Global, g: &Given) -> Result<Given, Memory>
    ensures { IfOk result (λ out. seen_given out ≡ seen_given g.now) }
{
    match g {
        Given::Filled { mark, plain, shown } => {
            let shown = shown.clone()?;
            Ok(Given::Filled {
                mark: *mark,
                plain: *plain,
                shown,
            })
        }
        Given::Standing(spot) => {
            let spot = copy_spot(alloc, spot)?;
            Ok(Given::Standing(spot))
        }
    }
}

pub fn copy_givens(alloc: Global, all: &[Given]) -> Result<Items<Given>, Memory>
    ensures { IfOk result (λ out. map seen_given out ≡ map seen_given all.now) }
{
    let mut out = Items::new(alloc);
    for one in all {
        let copied = copy_given(alloc, one)?;
        out.push(copied)?;
    }
    Ok(out)
}

fn lift_given(alloc: Global, g: &Given, frame: u32) -> Result<Given, Memory>
    ensures { IfOk result (λ out. seen_given out ≡ lifted_in frame (seen_given g.now)) }
{
    match g {
        Given::Filled { mark, plain, shown } => {
            let shown = shown.clone()?;
            Ok(Given::Filled {
                mark: *mark,
                plain: *plain,
                shown,
            })
        }
        Given::Standing(spot) => {
            let spot = lift_spot(alloc, spot, frame)?;
            Ok(Given::Standing(spot))
        }
    }
}

fn lift_givens(alloc: Global, all: &[Given], frame: u32) -> Result<Items<Given>, Memory>
    ensures { IfOk result (λ out. map seen_given out ≡ map (lifted_in frame) (map seen_given all.now)) }
{
    let mut out = Items::new(alloc);
    for one in all {
        let lifted = lift_given(alloc, one, frame)?;
        out.push(lifted)?;
    }
    Ok(out)
}

impl<'a> Site<'a> {
    /// Inside a quantifier or a `for` over another type, for one of its values.
    pub fn with_value(&self, alloc: Global, v: Value) -> Result<Site<'a>, Memory>
        ensures site { IfOk result (λ s. seen_site s ≡ with_value (seen_site self.now) v) }
        ensures families { IfOk result (λ s. s.families.now ≡ self.now.families.now) }
        ensures routines { IfOk result (λ s. s.routines.now ≡ self.now.routines.now) }
    {
        let mut bound = copy_terms(alloc, self.bound.as_slice())?;
        bound.push(Term::Known(v))?;
        let formals = copy_givens(alloc, self.formals.as_slice())?;
        Ok(Site {
            families: self.families,
            routines: self.routines,
            frame: self.frame,
            depth: self.depth,
            result: self.result,
            bound,
            formals,
        })
    }

    /// Inside a quantifier or a `for` over all nodes.
    pub fn with_variable(&self, alloc: Global) -> Result<Site<'a>, Memory>
        ensures site { IfOk result (λ s. seen_site s ≡ with_variable (seen_site self.now)) }
        ensures families { IfOk result (λ s. s.families.now ≡ self.now.families.now) }
        ensures routines { IfOk result (λ s. s.routines.now ≡ self.now.routines.now) }
    {
        let mut bound = copy_terms(alloc, self.bound.as_slice())?;
        bound.push(Term::Var(self.frame))?;
        let formals = lift_givens(alloc, self.formals.as_slice(), self.frame)?;
        let frame = added(self.frame, 1)?;
        Ok(Site {
            families: self.families,
            routines: self.routines,
            frame,
            depth: self.depth,
            result: self.result,
            bound,
            formals,
        })
    }

    /// The term of a parameter or bound variable.
    pub fn bound_term(&self, alloc: Global, k: u32) -> Result<Term, Memory>
        ensures { IfOk result (λ t. t ≡ bound_term (seen_site self.now) k) }
    {
        match at(self.bound.as_slice(), k as usize) {
            None => Ok(undefined()),
            Some(t) => {
                let t = t.copy(alloc)?;
                Ok(t)
            }
        }
    }

    fn formal_mark(&self, k: u32) -> Option<u32>
        ensures { result ≡ formal_mark (slice_get (seen_site self.now).formals k) }
    {
        match at(self.formals.as_slice(), k as usize) {
            Some(Given::Filled { mark, .. }) => *mark,
            Some(Given::Standing(_)) => None,
            None => None,
        }
    }

    fn root_mark(&self, root: Root) -> Option<u32>
        ensures { result ≡ root_mark (seen_site self.now) root }
    {
        match root {
            Root::Formal(k) => self.formal_mark(k),
            Root::Global(_) => None,
            Root::Local(_) => None,
            Root::Place(_) => None,
        }
    }

    /// The bound variable that a designator is itself, as it is a formal whose argument was one.
    pub fn place_mark(&self, place: &Designator) -> Option<u32>
        ensures { result ≡ place_mark (seen_site self.now) place.now }
    {
        let m = self.root_mark(root_of(place));
        match at(selectors_of(place), 0) {
            None => m,
            Some(_) => None,
        }
    }

    fn bound_mark(&self, k: u32) -> Option<u32>
        ensures { result ≡ variable_of (bound_term (seen_site self.now) k) }
    {
        match at(self.bound.as_slice(), k as usize) {
            None => None,
            Some(t) => variable_of(t),
        }
    }

    /// The bound variable that an expression is itself.
    pub fn mark_of(&self, e: &Expr) -> Option<u32>
        ensures { result ≡ mark_of (seen_site self.now) e.now }
    {
        match e {
            Expr::Bound(k) => self.bound_mark(*k),
            Expr::Read(place) => self.place_mark(place),
            Expr::Known(_)
            | Expr::Call { .. }
            | Expr::Not(_)
            | Expr::Minus(_)
            | Expr::Chain { .. }
            | Expr::Compare { .. }
            | Expr::Implies { .. }
            | Expr::Choice { .. }
            | Expr::Quantified { .. }
            | Expr::IsUndefined(_) => None,
        }
    }

    /// The place of a whole variable.
    fn root_spot(&self, alloc: Global, root: Root) -> Result<Spot, Memory>
        ensures { IfOk result (λ s. seen_spot s ≡ root_spot (seen_site self.now) root) }
    {
        match root {
            Root::Global(k) => Ok(whole(alloc, Owner::Global(k))),
            Root::Local(k) => Ok(whole(
                alloc,
                Owner::Local {
                    depth: self.depth,
                    number: k,
                },
            )),
            Root::Formal(k) => Ok(whole(
                alloc,
                Owner::Formal {
                    depth: self.depth,
                    number: k,
                },
            )),
            Root::Place(k) => {
                let s = self.standing(alloc, k)?;
                Ok(s)
            }
        }
    }

    fn standing(&self, alloc: Global, k: u32) -> Result<Spot, Memory>
        ensures { IfOk result (λ s. seen_spot s ≡ stood_for (formal_spot (seen_site self.now) k) (slice_get (seen_site self.now).formals k)) }
    {
        match at(self.formals.as_slice(), k as usize) {
            Some(Given::Standing(spot)) => {
                let s = copy_spot(alloc, spot)?;
                Ok(s)
            }
            Some(Given::Filled { .. }) => Ok(whole(
                alloc,
                Owner::Formal {
                    depth: self.depth,
                    number: k,
                },
            )),
            None => Ok(whole(
                alloc,
                Owner::Formal {
                    depth: self.depth,
                    number: k,
                },
            )),
        }
    }

    /// The place of a designator, from its indices.
    pub fn placed(
        &self,
        alloc: Global,
        place: &Designator,
        indices: Indexed,
    ) -> Result<Placed, Memory>
        ensures { IfOk result (λ p. seen_placed p ≡ placed_under (root_spot (seen_site self.now) (root_of place.now)) (list_path (selectors_of place.now)) (seen_indexed indices)) }
    {
        let root = self.root_spot(alloc, root_of(place))?;
        let spot = spot_under(alloc, root, selectors_of(place), indices.indices)?;
        Ok(Placed {
            spot,
            demands: indices.demands,
        })
    }
}

fn whole(alloc: Global, owner: Owner) -> Spot
    ensures owner { result.owner ≡ owner }
    ensures path { result.path ≡ [] }
    ensures at { result.at ≡ [] }
{
    Spot {
        owner,
        path: Items::new(alloc),
        at: Items::new(alloc),
    }
}

fn variable_of(t: &Term) -> Option<u32>
    ensures { result ≡ variable_of t.now }
{
    match t {
        Term::Var(k) => Some(*k),
        Term::Known(_)
        | Term::Read { .. }
        | Term::Not(_)
        | Term::And(_)
        | Term::Or(_)
        | Term::If { .. }
        | Term::Same { .. }
        | Term::Less { .. }
        | Term::Arith { .. }
        | Term::Quantified { .. } => None,
    }
}

/// The variable of a designator.
fn root_of(place: &Designator) -> Root
    ensures { result ≡ root_of place.now }
{
    match place {
        Designator::Of { root, .. } => *root,
    }
}

/// The fields and indices of a designator.
pub fn selectors_of(place: &Designator) -> &[Selector]
    ensures { result.now ≡ selectors_of place.now }
{
    match place {
        Designator::Of { selectors, .. } => selectors.as_slice(),
    }
}

/// The place under these fields and indices of another.
fn spot_under(
    alloc: Global,
    root: Spot,
    selectors: &[Selector],
    indices: Items<Index>,
) -> Result<Spot, Memory>
    ensures { IfOk result (λ s. seen_spot s ≡ spot_under (seen_spot root) (list_path selectors.now) (map seen_index indices)) }
{
    let path = add_path(alloc, root.path, selectors)?;
    let mut at = root.at;
    at.append(indices)?;
    Ok(Spot {
        owner: root.owner,
        path,
        at,
    })
}

/// The fields of a designator, after others.
fn add_path(
    alloc: Global,
    front: Items<Text>,
    selectors: &[Selector],
) -> Result<Items<Text>, Memory>
    ensures { IfOk result (λ out. out ≡ front ++ list_path selectors.now) }
{
    let mut out = front;
    for selector in selectors {
        match selector {
            Selector::Index { .. } => {}
            Selector::Field(name) => {
                let name = copy_text(alloc, name)?;
                out.push(name)?;
            }
        }
    }
    Ok(out)
}

#[tactic(auto, using(crate::proofs::IndexEquations::indexing))]
pub fn no_indices(alloc: Global) -> Indexed
    ensures { seen_indexed result ≡ no_indices }
{
    Indexed {
        indices: Items::new(alloc),
        demands: Demands::Nothing,
    }
}

/// What indices demand, and one more of them.
fn index_demands(
    alloc: Global,
    front: Demands,
    over: Simple,
    e: Demands,
    term: &Term,
) -> Result<Demands, Memory>
    ensures { IfOk result (λ d. seen_demands d ≡ (seen_demands front ++ seen_demands e) ++ demand (index_fits over term.now) ∷ []) }
{
    let demands = both(alloc, front, e)?;
    let fits = index_fits(alloc, over, term)?;
    let d = and_one(alloc, demands, fits)?;
    Ok(d)
}

/// Indices, and one more.
pub fn with_index(
    alloc: Global,
    front: Indexed,
    over: Simple,
    mark: Option<u32>,
    e: Valued,
) -> Result<Indexed, Memory>
    ensures { IfOk result (λ i. seen_indexed i ≡ index_on (seen_indexed front) over mark (seen_valued e)) }
{
    let term = e.term;
    let demands = index_demands(alloc, front.demands, over, e.demands, &term)?;
    let mut indices = front.indices;
    indices.push(index_over(over, mark, term))?;
    Ok(Indexed { indices, demands })
}
