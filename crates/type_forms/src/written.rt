//! Types as they are written, and quantifiers over them.

ghost use Rattle.std.specs.Prelude.{◌≡◌, ◌++◌, ◌-ℤ◌, ◌&&◌, ◌||◌, not, is_some, map, length, Option, IfOk, OnOk};
ghost use Rattle.murphi_typed.specs.Values.{numbers_within};
ghost use Rattle.murphi_types.specs.Faults.{first_fault};
ghost use Rattle.murphi_types.specs.Weights.{turns, turns_of};
ghost use Rattle.murphi_types.specs.Types.{named_type, limited, range_type, with_kind, with_members, enum_entries, member, enum_found, naming_text, sized, scalarset_type, array_type, fields_named, record_type};
ghost use Rattle.murphi_typed.specs.declared.types.Simple.TheVariants.{Scalarset as SizedSimple};
ghost use Rattle.murphi_typed.specs.declared.types.Kind.TheVariants.{Scalarset as SizedKind};
ghost use Rattle.type_forms.specs.Writing.{small_count, too_many, with_enum, nothing_typed, judged_type, judged_chosen, after, number_of, number_judged, range_judged, simply, array_judged, named_as, scalarset_judged, joined_fields, fields_of, fielded_by, record_judged, quantified_judged};

use murphi_ast::expr::Named;
use murphi_ast::text::{Memory, Text};
use murphi_ast::token::Span;
use murphi_typed::expr::Expr;
use murphi_typed::types::{AnyType, Field, Kind, Simple};
use murphi_types::fault::{Cause, Fault, Quantity};
use murphi_types::names::Names;
use murphi_types::scope::{Entry, Known, Meaning};
use sqlite_items::{Boxed, Items};
use std::alloc::Global;
use type_parts::constant::folded_number;
use type_parts::expressions::whole;
use type_parts::faults::{sooner, unless};
use type_parts::fitting::{fits_simple, simple_part};
use type_parts::judged::{Judged, JudgedFields, JudgedNumber, JudgedType};
use type_parts::types::copy_type;
use type_parts::weights::{one_more, times};

/// A finite type has at most so many values.
const MOST_VALUES: u64 = 256;

/// How a scalarset is declared: on its own, directly behind a name, or as the node type.
#[derive(Drop)]
pub enum Naming {
    Unnamed,
    As(Text),
    AsNodes,
}

fn no_type(fault: Option<Fault>) -> JudgedType
    ensures { result ≡ nothing_typed fault }
{
    JudgedType { of: None, fault }
}

/// The type that a name stands for.
pub fn named_type(alloc: Global, at: Span, what: Option<Meaning>) -> Result<JudgedType, Memory>
    ensures { IfOk result (λ r. r ≡ judged_chosen (named_type at what)) }
{
    match what {
        Some(Meaning::TypeName(of)) => {
            let of = copy_type(alloc, of.get())?;
            Ok(JudgedType {
                of: Some(of),
                fault: None,
            })
        }
        Some(Meaning::Refused) => Ok(no_type(None)),
        Some(_) => Ok(no_type(Some(Fault {
            cause: Cause::E07,
            at,
        }))),
        None => Ok(no_type(Some(Fault {
            cause: Cause::E05,
            at,
        }))),
    }
}

/// A finite type of so many values, unless these are too many.
fn limited(at: Span, count: u64, of: Simple) -> JudgedType
    ensures { result ≡ judged_chosen (limited at count of) }
{
    if count <= MOST_VALUES {
        return JudgedType {
            of: Some(AnyType::Simple(of)),
            fault: None,
        };
    }
    too_many(at, count)
}

/// No type, since it would have so many values.
fn too_many(at: Span, count: u64) -> JudgedType
    ensures { result ≡ too_many at count }
{
    no_type(Some(Fault {
        cause: Cause::E16 {
            quantity: Quantity::Values,
            count,
            limit: MOST_VALUES,
        },
        at,
    }))
}

/// How many numbers a range has.
fn spanned(low: i16, high: i16) -> u64
    ensures { result ≡ numbers_within (high -ℤ low) }
{
    if high < low {
        return 0;
    }
    let far = i32::from(high) - i32::from(low);
    far.unsigned_abs() as u64 + 1
}

fn range_type(at: Span, low: Option<i16>, high: Option<i16>) -> JudgedType
    ensures { result ≡ judged_chosen (range_type at low high) }
{
    match (low, high) {
        (Some(low), Some(high)) => {
            if high < low {
                return no_type(Some(Fault {
                    cause: Cause::E08,
                    at,
                }));
            }
            limited(at, spanned(low, high), Simple::Range { low, high })
        }
        _ => no_type(None),
    }
}

/// `low .. high`, at this place.
pub fn range_made(at: Span, low: JudgedNumber, high: JudgedNumber) -> JudgedType
    ensures { result ≡ range_judged at low high }
{
    let chosen = range_type(at, low.number, high.number);
    let fault = sooner(sooner(low.fault, high.fault), chosen.fault);
    JudgedType {
        of: chosen.of,
        fault,
    }
}

/// The number of a part that is written as a constant is.
fn number_of(written: bool, part: &Judged) -> Option<i16>
    ensures { result ≡ number_of written part.now }
{
    if !written {
        return None;
    }
    if part.of.is_some() {
        folded_number(&part.tree)
    } else {
        None
    }
}

/// Where a constant has to stand.
pub fn number_made(written: bool, at: Span, part: &Judged) -> JudgedNumber
    ensures { result ≡ number_judged written at part.now }
{
    let number = number_of(written, part);
    let fits = if part.of.is_some() {
        number.is_some()
    } else {
        true
    };
    JudgedNumber {
        number,
        fault: sooner(part.fault, unless(fits, Cause::E08, at)),
    }
}

/// A type that has to be simple.
pub fn simple_wanted(part: JudgedType, at: Span) -> JudgedType
    ensures { result ≡ simply at part }
{
    let fits = fits_simple(&part.of);
    let fault = sooner(part.fault, unless(fits, Cause::E07, at));
    if fits {
        JudgedType { of: part.of, fault }
    } else {
        no_type(fault)
    }
}

fn array_type(
    alloc: Global,
    index: Option<Simple>,
    item: Option<AnyType>,
) -> Result<Option<AnyType>, Memory>
    ensures { IfOk result (λ t. t ≡ array_type index item) }
{
    match (index, item) {
        (Some(index), Some(item)) => {
            let item = Boxed::new(alloc, item)?;
            Ok(Some(AnyType::Array { index, item }))
        }
        _ => Ok(None),
    }
}

/// `array [index] of item`.
pub fn array_made(alloc: Global, index: JudgedType, item: JudgedType) -> Result<JudgedType, Memory>
    ensures { IfOk result (λ r. r ≡ array_judged index item) }
{
    let fault = sooner(index.fault, item.fault);
    let of = array_type(alloc, simple_part(&index.of), item.of)?;
    Ok(JudgedType { of, fault })
}

fn copy_texts(alloc: Global, names: &[Named]) -> Result<Items<Text>, Memory>
    ensures { IfOk result (λ out. out ≡ map (λ n. n.name) names.now) }
{
    let mut out = Items::new(alloc);
    for one in names {
        let name = one.name.copy(alloc)?;
        out.push(name)?;
    }
    Ok(out)
}

/// A number of a kind, of a family or of a variable.
pub fn number_from(count: usize) -> Result<u32, Memory>
    ensures { IfOk result (λ n. n ≡ count) }
{
    match u32::try_from(count) {
        Ok(number) => Ok(number),
        Err(_) => Err(Memory),
    }
}

/// What the name of this index stands for in an enum of so many.
fn member(fits: bool, kind: u32, count: u16, index: usize) -> Result<Meaning, Memory>
    ensures { IfOk result (λ m. m ≡ member fits kind count index) }
{
    if !fits {
        return Ok(Meaning::Refused);
    }
    match u8::try_from(index) {
        Ok(index) => Ok(Meaning::Member { kind, index, count }),
        Err(_) => Err(Memory),
    }
}

/// Declares the names of an enum.
fn declare_members(
    alloc: Global,
    names: &mut Names,
    fits: bool,
    kind: u32,
    count: u16,
    members: &[Named],
) -> Result<(), Memory>
    ensures { OnOk result (names.new ≡ names.old ++ enum_entries (member fits kind count) 0 members.now) }
{
    let mut index: usize = 0;
    for one in members {
        let name = one.name.copy(alloc)?;
        let what = member(fits, kind, count, index)?;
        names.push(alloc, Entry { name, what })?;
        index = index.checked_add(1).ok_or(Memory)?;
    }
    Ok(())
}

/// The number of values of an enum, unless these are too many.
fn small_count(count: usize) -> Option<u16>
    ensures { result ≡ small_count count }
{
    if count <= 256 {
        return Some(count as u16);
    }
    None
}

/// Declares the names of an enum of this number of values, and its kind.
fn declare_enum(
    alloc: Global,
    known: &mut Known,
    fits: bool,
    kind: u32,
    count: u16,
    names: &[Named],
) -> Result<(), Memory>
    ensures { OnOk result (known.new ≡ with_enum fits kind count names.now known.old) }
{
    declare_members(alloc, &mut known.names, fits, kind, count, names)?;
    let names = copy_texts(alloc, names)?;
    known.kinds.push(Kind::Listed { names })?;
    Ok(())
}

/// `enum { names }`, at this place: its names are declared for the whole text.
pub fn enum_made(
    alloc: Global,
    known: &mut Known,
    at: Span,
    names: &[Named],
) -> Result<JudgedType, Memory>
    ensures part { IfOk result (λ r. r ≡ judged_type (enum_found at names.now known.old)) }
    ensures known { OnOk result (known.new ≡ (enum_found at names.now known.old).known) }
{
    let kinds = known.kinds.len();
    let kind = number_from(kinds)?;
    let counted = names.len();
    match small_count(counted) {
        Some(count) => {
            declare_enum(alloc, known, true, kind, count, names)?;
            Ok(JudgedType {
                of: Some(AnyType::Simple(Simple::Listed { kind, count })),
                fault: None,
            })
        }
        None => {
            declare_enum(alloc, known, false, kind, 0, names)?;
            Ok(too_many(at, counted as u64))
        }
    }
}

fn naming_text(naming: Naming) -> Option<Text>
    ensures { result ≡ naming_text (named_as naming) }
{
    match naming {
        Naming::As(name) => Some(name),
        Naming::Unnamed => None,
        Naming::AsNodes => None,
    }
}

/// A scalarset of its written size, which is one kind more.
fn sized_kind(
    known: &mut Known,
    name: Option<Text>,
    at: Span,
    count: u16,
) -> Result<JudgedType, Memory>
    ensures part { IfOk result (λ r. r ≡ judged_chosen (limited at count (SizedSimple (length known.old.kinds) count))) }
    ensures known { OnOk result (known.new ≡ with_kind known.old (SizedKind name count)) }
{
    let kind = number_from(known.kinds.len())?;
    known.kinds.push(Kind::Scalarset { name, count })?;
    Ok(limited(at, count as u64, Simple::Scalarset { kind, count }))
}

/// A scalarset of its written size; of the node type the size is left open, and it is no kind.
fn sized(known: &mut Known, naming: Naming, at: Span, count: u16) -> Result<JudgedType, Memory>
    ensures part { IfOk result (λ r. r ≡ judged_type (sized (named_as naming) at known.old count)) }
    ensures known { OnOk result (known.new ≡ (sized (named_as naming) at known.old count).known) }
{
    match naming {
        Naming::AsNodes => Ok(JudgedType {
            of: Some(AnyType::Simple(Simple::Node)),
            fault: None,
        }),
        Naming::Unnamed => {
            let made = sized_kind(known, None, at, count)?;
            Ok(made)
        }
        Naming::As(name) => {
            let made = sized_kind(known, Some(name), at, count)?;
            Ok(made)
        }
    }
}

/// `scalarset(size)`, at this place.
pub fn scalarset_made(
    known: &mut Known,
    naming: Naming,
    at: Span,
    size: JudgedNumber,
) -> Result<JudgedType, Memory>
    ensures part { IfOk result (λ r. r ≡ scalarset_judged naming at known.old size) }
    ensures known { OnOk result (known.new ≡ (scalarset_type (named_as naming) at known.old size.number).known) }
{
    match size.number {
        None => Ok(no_type(size.fault)),
        Some(number) => {
            if number < 1 {
                let own = Fault {
                    cause: Cause::E08,
                    at,
                };
                return Ok(no_type(sooner(size.fault, Some(own))));
            }
            let made = sized(known, naming, at, number as u16)?;
            Ok(JudgedType {
                of: made.of,
                fault: sooner(size.fault, made.fault),
            })
        }
    }
}

/// One field of this type for each name, after others.
fn named_fields(
    alloc: Global,
    names: &[Named],
    of: &AnyType,
    fields: Items<Field>,
) -> Result<Items<Field>, Memory>
    ensures { IfOk result (λ r. r ≡ fields ++ fields_named names.now of.now) }
{
    let mut all = fields;
    for one in names {
        let name = one.name.copy(alloc)?;
        let of = copy_type(alloc, of)?;
        all.push(Field { name, of })?;
    }
    Ok(all)
}

/// Fields of one type after others, unless it or one of them is ill-typed.
fn joined_fields(
    alloc: Global,
    names: &[Named],
    of: &Option<AnyType>,
    fields: Option<Items<Field>>,
) -> Result<Option<Items<Field>>, Memory>
    ensures { IfOk result (λ r. r ≡ joined_fields fields (fields_of names.now of.now)) }
{
    match fields {
        None => Ok(None),
        Some(fields) => match of {
            None => Ok(None),
            Some(of) => {
                let all = named_fields(alloc, names, of, fields)?;
                Ok(Some(all))
            }
        },
    }
}

/// Fields of one type after others.
pub fn more_fields(
    alloc: Global,
    names: &[Named],
    part: JudgedType,
    done: JudgedFields,
) -> Result<JudgedFields, Memory>
    ensures { IfOk result (λ r. r ≡ fielded_by names.now part done) }
{
    let fields = joined_fields(alloc, names, &part.of, done.fields)?;
    Ok(JudgedFields {
        fields,
        fault: sooner(done.fault, part.fault),
    })
}

fn record_type(fields: Option<Items<Field>>) -> Option<AnyType>
    ensures { result ≡ record_type fields }
{
    match fields {
        Some(fields) => Some(AnyType::Record { fields }),
        None => None,
    }
}

/// A record of these fields.
pub fn record_made(done: JudgedFields) -> JudgedType
    ensures { result ≡ record_judged done }
{
    JudgedType {
        of: record_type(done.fields),
        fault: done.fault,
    }
}

/// How often the body of a quantifier counts.
pub fn turns(over: Option<Simple>) -> u64
    ensures { result ≡ turns_of over }
{
    match over {
        None => 0,
        Some(Simple::Truth) => 2,
        Some(Simple::Range { low, high }) => spanned(low, high),
        Some(Simple::Listed { count, .. }) => count as u64,
        Some(Simple::Scalarset { count, .. }) => count as u64,
        Some(Simple::Node) => 1,
    }
}

/// A quantifier over a simple type, with its body.
pub fn quantified_made(
    alloc: Global,
    all: bool,
    over: JudgedType,
    body: Judged,
) -> Result<Judged, Memory>
    ensures { IfOk result (λ r. r ≡ quantified_judged all over body) }
{
    let simple = simple_part(&over.of);
    let typed = if over.of.is_some() {
        body.of.is_some()
    } else {
        false
    };
    let weight = one_more(times(turns(simple), body.weight));
    let fault = sooner(over.fault, body.fault);
    let tree = Boxed::new(alloc, body.tree)?;
    let tree = Expr::Quantified {
        all,
        over: simple.unwrap_or(Simple::Truth),
        body: tree,
    };
    Ok(whole(typed, Simple::Truth, tree, weight, fault))
}
