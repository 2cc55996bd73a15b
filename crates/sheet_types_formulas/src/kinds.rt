// Types of values: which parts agree, and how types are told in refusals.
ghost use Rattle.std.specs.Prelude.{◌≡◌, ◌<◌, IfOk, IfSome, codes, option_and_then, length, slice_index_or};
ghost use Rattle.sheet_values.specs.declared.value.Kind.TheVariants.{Unknown};
ghost use Rattle.sheet_columns.specs.Tree.{above_of, IsTree};
ghost use Rattle.sheet_types_formulas.specs.Answers.{Answers};
ghost use Rattle.sheet_types_rules.specs.Kinds.{common, has_order as has_order_of, objects_in};
ghost use Rattle.sheet_types_formulas.specs.Kinds.{kind_text as text_of_kind, mismatch as mismatch_of, agreed, ordered as ordered_part, object_column, column_above};

use crate::{TypeRefusal, Typed};
use sheet_columns::Columns;
use sheet_values::{Kind, Name, NoMemory};
use std::alloc::Global;

/// The type of two parts that must agree: both have it, or one has it and the other's isn't known. None where they
/// disagree.
pub fn common_kind(left: Kind, right: Kind) -> Option<Kind>
    ensures { result ≡ common left right }
{
    match (left, right) {
        (Kind::Unknown, _) => Some(right),
        (_, Kind::Unknown) => Some(left),
        _ => { if left == right { Some(left) } else { None } }
    }
}

/// The type of the column of that number among these types, as far as it is known.
pub fn kind_at(kinds: &[Kind], column: u32) -> Kind
    ensures { result ≡ slice_index_or kinds.now column Unknown }
{
    match kinds.get(column as usize) {
        Some(kind) => *kind,
        None => Kind::Unknown,
    }
}

// Whether values of the type may be compared by size.
fn has_order(kind: Kind) -> bool
    ensures { result ≡ has_order_of kind }
{
    match kind {
        Kind::Unknown | Kind::Number | Kind::Text => true,
        Kind::Truth | Kind::Object(_) => false,
    }
}

/// How a type is told: `unknown`, `truth`, `number`, `text`, or the path of its object column.
pub fn kind_text(alloc: Global, columns: &Columns, kind: Kind) -> Result<Name, NoMemory>
    ensures { IfOk result (λ text. text ≡ text_of_kind columns.now kind) }
{
    match kind {
        Kind::Unknown => Name::of(alloc, "unknown"),
        Kind::Truth => Name::of(alloc, "truth"),
        Kind::Number => Name::of(alloc, "number"),
        Kind::Text => Name::of(alloc, "text"),
        Kind::Object(column) => path_text(alloc, columns, column),
    }
}

// The path of a column; nothing where there is none of that number.
fn path_text(alloc: Global, columns: &Columns, column: u32) -> Result<Name, NoMemory>
    ensures { IfOk result (λ text. text ≡ text_of_kind columns.now (Kind.Object column)) }
{
    if column < columns.count() {
        columns.path_text(column)
    } else {
        Name::of(alloc, "")
    }
}

// A part of another type than the one of this text.
fn mismatch(
    alloc: Global,
    columns: &Columns,
    wanted: Name,
    part: &Typed,
) -> Result<TypeRefusal, NoMemory>
    ensures { IfOk result (λ refusal. refusal ≡ mismatch_of columns.now wanted part.now) }
{
    let found = kind_text(alloc, columns, part.kind)?;
    Ok(TypeRefusal::Mismatch(part.line, wanted, found))
}

/// The type of a part that must agree with the wanted type: the known one of both. Else the mismatch of both.
#[tactic(auto, unfolding(crate::specs::Kinds::agreed))]
pub fn agree(
    alloc: Global,
    columns: &Columns,
    wanted: Kind,
    part: &Typed,
) -> Result<Kind, TypeRefusal>
    ensures { Answers result (agreed columns.now wanted part.now) }
{
    match common_kind(wanted, part.kind) {
        Some(kind) => Ok(kind),
        None => {
            let wanted = kind_text(alloc, columns, wanted)?;
            Err(mismatch(alloc, columns, wanted, part)?)
        }
    }
}

/// The type of a part whose values are compared by size: numbers, texts, or values of a type that isn't known. Else the
/// mismatch with `number or text`.
#[tactic(auto, unfolding(crate::specs::Kinds::ordered))]
pub fn ordered(alloc: Global, columns: &Columns, part: &Typed) -> Result<Kind, TypeRefusal>
    ensures { Answers result (ordered_part columns.now part.now) }
{
    if has_order(part.kind) {
        return Ok(part.kind);
    }
    let wanted = Name::of(alloc, "number or text")?;
    Err(mismatch(alloc, columns, wanted, part)?)
}

// The column of a type of objects.
fn objects_of(kind: Kind) -> Option<u32>
    ensures { result ≡ objects_in kind }
{
    match kind {
        Kind::Object(column) => Some(column),
        _ => None,
    }
}

// The column above that of a type of objects, where there is one.
fn above_objects_of(columns: &Columns, kind: Kind) -> Option<u32>
    ensures { result ≡ option_and_then (above_of columns.now) (objects_in kind) }
{
    let column = objects_of(kind)?;
    above(columns, column)
}

/// The column that a column stands directly under; none for the root, and where there is no column of that number.
pub(crate) fn above(columns: &Columns, column: u32) -> Option<u32>
    ensures above { result ≡ above_of columns.now column }
    ensures smaller { IfSome result (λ above. above < column) }
    ensures tree { IsTree columns.now }
{
    let count = columns.count();
    if column == 0 || count <= column {
        return None;
    }
    Some(columns.above(column))
}

/// The column of a part that must be of objects. Else the mismatch with `object`.
#[tactic(auto, unfolding(crate::specs::Kinds::object_column))]
pub fn object_column_of(alloc: Global, columns: &Columns, part: &Typed) -> Result<u32, TypeRefusal>
    ensures { Answers result (object_column columns.now part.now) }
{
    match objects_of(part.kind) {
        Some(column) => Ok(column),
        None => {
            let wanted = Name::of(alloc, "object")?;
            Err(mismatch(alloc, columns, wanted, part)?)
        }
    }
}

/// The column above that of a part that must be of objects below the root. Else the mismatch with
/// `object below the root`.
#[tactic(auto, unfolding(crate::specs::Kinds::column_above))]
pub fn column_above_of(alloc: Global, columns: &Columns, part: &Typed) -> Result<u32, TypeRefusal>
    ensures { Answers result (column_above columns.now part.now) }
{
    match above_objects_of(columns, part.kind) {
        Some(column) => Ok(column),
        None => {
            let wanted = Name::of(alloc, "object below the root")?;
            Err(mismatch(alloc, columns, wanted, part)?)
        }
    }
}
