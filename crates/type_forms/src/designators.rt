//! Designators: what a name starts, and what fields and indices lead to.
#![tactic(auto, using(crate::proofs::DesignatorEquations::designators))]

ghost use Rattle.std.specs.Prelude.{◌≡◌, ◌&&◌, Option, Some, is_some, option_map, IfOk, OnOk};
ghost use Rattle.std.specs.Option.{option_copied};
ghost use Rattle.murphi_types.specs.Faults.{first_fault};
ghost use Rattle.murphi_types.specs.Fitting.{as_value};
ghost use Rattle.murphi_types.specs.Designators.{index_type, index_tree, field_or, field_chosen, item_chosen};
ghost use Rattle.type_parts.specs.TypeLists.{list_field};
ghost use Rattle.murphi_typed.specs.declared.expr.Designator.{Of};
ghost use Rattle.type_forms.specs.Designating.{begun, fixed_begun, nothing_begun, field_walked, index_kept, item_after, index_walked, selectors_judged, placed_judged, read_judged, read_of, undefined_judged, undefined_of};

use murphi_ast::expr::Named;
use murphi_ast::text::Memory;
use murphi_ast::token::Span;
use murphi_typed::expr::{Designator, Expr, Root, Selector};
use murphi_typed::shared::Shared;
use murphi_typed::types::{AnyType, Field, Simple};
use murphi_types::fault::{Cause, Fault};
use murphi_types::scope::Meaning;
use sqlite_items::Items;
use std::alloc::Global;
use term_core::value::Value;
use type_parts::expressions::{kept, whole};
use type_parts::faults::{sooner, unless};
use type_parts::fitting::{fits_index, fits_simple, numbers, widened};
use type_parts::judged::{Judged, JudgedPlace, JudgedSelectors, Start};
use type_parts::types::{copy_type, field_type};
use type_parts::weights::{one_more, plus};

/// What a name starts, the type of that, and the fault where it starts nothing that has a value.
#[derive(Drop)]
pub struct Begun {
    pub start: Start,
    pub of: Option<Shared<AnyType>>,
    pub fault: Option<Fault>,
}

/// What is done of the fields and indices after a name.
#[derive(Drop)]
pub struct Walked {
    pub trees: Items<Selector>,
    pub weight: u64,
    pub fault: Option<Fault>,
}

fn simple_start(alloc: Global, start: Expr, of: Simple) -> Result<Begun, Memory>
    ensures { IfOk result (λ b. b ≡ fixed_begun start of) }
{
    let of = Shared::new(alloc, AnyType::Simple(of))?;
    Ok(Begun {
        start: Start::Fixed(start),
        of: Some(of),
        fault: None,
    })
}

fn no_start(fault: Option<Fault>) -> Begun
    ensures { result ≡ nothing_begun fault }
{
    Begun {
        start: Start::Nowhere,
        of: None,
        fault,
    }
}

/// What a name starts at a place: a variable, or a value.
pub fn begin(alloc: Global, at: Span, what: Option<Meaning>) -> Result<Begun, Memory>
    ensures { IfOk result (λ b. b ≡ begun at what) }
{
    match what {
        None => Ok(no_start(Some(Fault {
            cause: Cause::E05,
            at,
        }))),
        Some(Meaning::Variable { root, of }) => Ok(Begun {
            start: Start::Rooted(root),
            of: Some(of),
            fault: None,
        }),
        Some(Meaning::Constant(number)) => {
            let b = simple_start(alloc, Expr::Known(Value::Number(number)), numbers())?;
            Ok(b)
        }
        Some(Meaning::Member { kind, index, count }) => {
            let tree = Expr::Known(Value::Member { kind, index });
            let b = simple_start(alloc, tree, Simple::Listed { kind, count })?;
            Ok(b)
        }
        Some(Meaning::Bound { number, over }) => {
            let b = simple_start(alloc, Expr::Bound(number), over)?;
            Ok(b)
        }
        Some(Meaning::TypeName(_)) => Ok(no_start(Some(Fault {
            cause: Cause::E07,
            at,
        }))),
        Some(Meaning::Routine(_)) => Ok(no_start(Some(Fault {
            cause: Cause::E07,
            at,
        }))),
        Some(Meaning::Refused) => Ok(no_start(None)),
    }
}

/// What a field of a record leads to.
fn field_among<'a>(fields: &'a [Field], name: &Named) -> (Option<&'a AnyType>, Option<Fault>)
    ensures of { option_copied result.0 ≡ (field_or name.now.at (list_field fields.now name.now.name)).type }
    ensures fault { result.1 ≡ first_fault (field_or name.now.at (list_field fields.now name.now.name)).faults }
{
    match field_type(fields, &name.name) {
        Some(found) => (Some(found), None),
        None => (
            None,
            Some(Fault {
                cause: Cause::E05,
                at: name.at,
            }),
        ),
    }
}

/// What a field of a type leads to.
fn field_of<'a>(at: Span, name: &Named, of: &'a AnyType) -> (Option<&'a AnyType>, Option<Fault>)
    ensures of { option_copied result.0 ≡ (field_chosen at name.now (Some of.now)).type }
    ensures fault { result.1 ≡ first_fault (field_chosen at name.now (Some of.now)).faults }
{
    match of {
        AnyType::Record { fields } => field_among(fields.as_slice(), name),
        AnyType::Simple(_) => (
            None,
            Some(Fault {
                cause: Cause::E07,
                at,
            }),
        ),
        AnyType::Array { .. } => (
            None,
            Some(Fault {
                cause: Cause::E07,
                at,
            }),
        ),
    }
}

/// What a field leads to, in the designator at this place, and the fault where it leads nowhere.
pub fn field_chosen<'a>(
    at: Span,
    name: &Named,
    of: Option<&'a AnyType>,
) -> (Option<&'a AnyType>, Option<Fault>)
    ensures of { option_copied result.0 ≡ (field_chosen at name.now (option_copied of.entry)).type }
    ensures fault { result.1 ≡ first_fault (field_chosen at name.now (option_copied of.entry)).faults }
{
    match of {
        None => (None, None),
        Some(of) => field_of(at, name, of),
    }
}

/// The index type of an array.
fn index_type(of: Option<&AnyType>) -> Option<Simple>
    ensures { result ≡ index_type (option_copied of.entry) }
{
    match of {
        None => None,
        Some(AnyType::Simple(_)) => None,
        Some(AnyType::Record { .. }) => None,
        Some(AnyType::Array { index, .. }) => Some(*index),
    }
}

/// What an index leads to, in the designator at this place: nowhere where the index is ill-typed.
fn item_chosen<'a>(
    at: Span,
    typed: bool,
    of: Option<&'a AnyType>,
) -> (Option<&'a AnyType>, Option<Fault>)
    ensures of { option_copied result.0 ≡ (item_chosen at typed (option_copied of.entry)).type }
    ensures fault { result.1 ≡ first_fault (item_chosen at typed (option_copied of.entry)).faults }
{
    match of {
        None => (None, None),
        Some(AnyType::Array { item, .. }) => {
            if typed {
                (Some(item.get()), None)
            } else {
                (None, None)
            }
        }
        Some(AnyType::Simple(_)) => (
            None,
            Some(Fault {
                cause: Cause::E07,
                at,
            }),
        ),
        Some(AnyType::Record { .. }) => (
            None,
            Some(Fault {
                cause: Cause::E07,
                at,
            }),
        ),
    }
}

fn index_tree(over: Option<Simple>, index: Expr) -> Selector
    ensures { result ≡ index_tree over index }
{
    match over {
        Some(over) => Selector::Index { over, index },
        None => Selector::Index {
            over: Simple::Truth,
            index,
        },
    }
}

/// One field more.
pub fn walk_field(
    alloc: Global,
    name: &Named,
    fault: Option<Fault>,
    done: &mut Walked,
) -> Result<(), Memory>
    ensures { OnOk result (done.new ≡ field_walked name.now fault done.old) }
{
    let field = name.name.copy(alloc)?;
    done.trees.push(Selector::Field(field))?;
    done.fault = sooner(done.fault, fault);
    Ok(())
}

/// One index more, which stands at `place`, in the designator at `at`; and what it leads to.
pub fn walk_index<'a>(
    at: Span,
    place: Span,
    part: Judged,
    of: Option<&'a AnyType>,
    done: &mut Walked,
) -> Result<Option<&'a AnyType>, Memory>
    ensures of { IfOk result (λ r. option_copied r ≡ (item_after at place part (option_copied of.entry)).type) }
    ensures done { OnOk result (done.new ≡ index_walked at place part (option_copied of.entry) done.old) }
{
    let over = index_type(of);
    let fits = fits_index(over, &part.of);
    let part = kept(part, fits, place);
    let (item, fault) = item_chosen(at, part.of.is_some(), of);
    done.trees.push(index_tree(over, part.tree))?;
    done.weight = plus(done.weight, part.weight);
    done.fault = sooner(done.fault, sooner(part.fault, fault));
    Ok(item)
}

fn copy_option(alloc: Global, of: Option<&AnyType>) -> Result<Option<AnyType>, Memory>
    ensures { IfOk result (λ t. t ≡ option_copied of.entry) }
{
    match of {
        Some(of) => {
            let of = copy_type(alloc, of)?;
            Ok(Some(of))
        }
        None => Ok(None),
    }
}

/// The fields and indices of a designator, from what is done of them and what they lead to.
pub fn selectors_made(
    alloc: Global,
    of: Option<&AnyType>,
    done: Walked,
) -> Result<JudgedSelectors, Memory>
    ensures { IfOk result (λ p. p ≡ selectors_judged (option_copied of.entry) done) }
{
    let of = copy_option(alloc, of)?;
    Ok(JudgedSelectors {
        of,
        trees: done.trees,
        weight: done.weight,
        fault: done.fault,
    })
}

/// The type of what a name starts.
pub fn start_type<'a>(of: &'a Option<Shared<AnyType>>) -> Option<&'a AnyType>
    ensures { option_copied result ≡ of.now }
{
    match of {
        Some(of) => Some(of.get()),
        None => None,
    }
}

/// A whole designator at a place, from what its name starts and what its fields and indices lead to.
pub fn place_made(
    at: Span,
    start: Start,
    fault: Option<Fault>,
    rest: JudgedSelectors,
) -> JudgedPlace
    ensures { result ≡ placed_judged at start fault rest }
{
    JudgedPlace {
        start,
        at,
        of: rest.of,
        selectors: rest.trees,
        weight: one_more(rest.weight),
        fault: sooner(fault, rest.fault),
    }
}

fn as_value(of: Option<AnyType>) -> Option<AnyType>
    ensures { result ≡ option_map as_value of }
{
    match of {
        Some(AnyType::Simple(of)) => Some(AnyType::Simple(widened(of))),
        other => other,
    }
}

/// The designator of a variable.
pub fn designator(root: Root, selectors: Items<Selector>, at: Span) -> Designator
    ensures { result ≡ Of root selectors at }
{
    Designator::Of {
        root,
        selectors,
        at,
    }
}

fn read_tree(start: Start, selectors: Items<Selector>, at: Span) -> Expr
    ensures { result ≡ read_of start selectors at }
{
    match start {
        Start::Rooted(root) => Expr::Read(designator(root, selectors, at)),
        Start::Fixed(tree) => tree,
        Start::Nowhere => Expr::Known(Value::Undefined),
    }
}

/// A designator as an expression: the value that it is, or a read of its cell.
pub fn read(part: JudgedPlace) -> Judged
    ensures { result ≡ read_judged part }
{
    Judged {
        of: as_value(part.of),
        tree: read_tree(part.start, part.selectors, part.at),
        weight: part.weight,
        fault: part.fault,
    }
}

fn undefined_tree(start: Start, selectors: Items<Selector>, at: Span) -> Expr
    ensures { result ≡ undefined_of start selectors at }
{
    match start {
        Start::Rooted(root) => Expr::IsUndefined(designator(root, selectors, at)),
        Start::Fixed(_) => Expr::Known(Value::Truth(false)),
        Start::Nowhere => Expr::Known(Value::Truth(false)),
    }
}

/// `isundefined` of a designator, which has a simple type.
pub fn undefined_made(part: JudgedPlace) -> Judged
    ensures { result ≡ undefined_judged part }
{
    let fits = fits_simple(&part.of);
    let typed = if part.of.is_some() { fits } else { false };
    let fault = sooner(part.fault, unless(fits, Cause::E07, part.at));
    let tree = undefined_tree(part.start, part.selectors, part.at);
    whole(typed, Simple::Truth, tree, one_more(part.weight), fault)
}
