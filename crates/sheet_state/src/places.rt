// Where the rows stand that may change when objects go.
ghost use Rattle.std.specs.Prelude.{◌≡◌, ℕ, ◌+◌, ◌<◌, ◌^◌, List, [], length, true, position, Some, OnOk, IfOk};
ghost use Rattle.sheet_values.specs.Sorted.{IsRising};
ghost use Rattle.sheet_values.specs.Sets.{contains};
ghost use Rattle.sheet_values.specs.declared.value.Value.TheVariants.{Object};
ghost use Rattle.sheet_columns.specs.declared.tree.Node.{Node};
ghost use Rattle.sheet_state_references.specs.Below.{has, NeverFalls};
ghost use Rattle.sheet_state.specs.Deaths.{buried, swept};
ghost use Rattle.sheet_state.specs.Stored.{IsMoment};
ghost use Rattle.sheet_state.specs.Places.{Adds, OfAny, IsRowOf, IsOwnRow, RefersTo, IsHomeOf, Covers, IsListed, AreSmall, AreObjects};
ghost use Rattle.sheet_state.specs.Rows.{object_cmp, row_cmp, is_set, moment, IsSound};

use crate::lookup::{object_place, set_place};
use sheet_state_references::{References, own_places};
use sheet_state_rows::{ObjectRow, SetRow, Tables};
use sheet_values::{NoMemory, Set, Value};
use std::alloc::Global;
use std::collections::BTreeSet;

/// The places of the rows that may change. All other rows stay as they are.
#[derive(Debug, Drop)]
pub struct Places {
    pub objects: BTreeSet<usize>,
    pub cells: BTreeSet<usize>,
    pub extents: BTreeSet<usize>,
}

/// The places of the rows that may change when these objects go.
pub fn places_of(
    alloc: Global,
    tables: &Tables,
    references: &References,
    doomed: &Set,
) -> Result<Places, NoMemory>
    requires sound { IsSound tables.now.present }
    requires kept { (nodes : List Node) × IsMoment nodes (moment tables.now.present) }
    requires listed { IsListed references.now tables.now.present }
    requires only { AreObjects doomed.now }
    requires small { AreSmall doomed.now }
    ensures objects { IfOk result (λ places. Covers (buried doomed.now) tables.now.present.objects places.objects.keys) }
    ensures cells { IfOk result (λ places. Covers (swept doomed.now) tables.now.present.cells places.cells.keys) }
    ensures extents { IfOk result (λ places. Covers (swept doomed.now) tables.now.present.extents places.extents.keys) }
{
    let objects = object_places(alloc, tables.objects(), doomed)?;
    let mut cells = own_rows(alloc, tables.cells(), doomed)?;
    add_referring(alloc, tables.cells(), references, doomed, &mut cells)?;
    let mut extents = own_rows(alloc, tables.extents(), doomed)?;
    add_homes(tables.objects(), tables.extents(), doomed, &mut extents)?;
    Ok(Places {
        objects,
        cells,
        extents,
    })
}

// The places of the rows of these objects.
fn object_places(
    alloc: Global,
    rows: &[ObjectRow],
    doomed: &Set,
) -> Result<BTreeSet<usize>, NoMemory>
    requires { IsRising object_cmp rows.now }
    ensures { IfOk result (λ places. Adds (OfAny doomed.now (IsRowOf rows.now)) (length rows.now) [] places.keys) }
{
    let mut places = BTreeSet::new(alloc);
    for value in doomed.as_slice() {
        if let Value::Object(number) = value {
            add_object(rows, *number, &mut places)?;
        }
    }
    Ok(places)
}

// Adds the place of an object's row.
fn add_object(rows: &[ObjectRow], object: u64, places: &mut BTreeSet<usize>) -> Result<(), NoMemory>
    requires { IsRising object_cmp rows.now }
    ensures { OnOk result (Adds (IsRowOf rows.now object) (length rows.now) places.old.keys places.new.keys) }
{
    if let Some(place) = object_place(rows, object) {
        places.insert(place)?;
    }
    Ok(())
}

// The places of the rows of these objects' own sets.
fn own_rows(alloc: Global, rows: &[SetRow], doomed: &Set) -> Result<BTreeSet<usize>, NoMemory>
    requires { NeverFalls rows.now }
    ensures { IfOk result (λ places. Adds (OfAny doomed.now (IsOwnRow rows.now)) (length rows.now) [] places.keys) }
{
    let mut places = BTreeSet::new(alloc);
    for value in doomed.as_slice() {
        if let Value::Object(number) = value {
            add_own(rows, *number, &mut places)?;
        }
    }
    Ok(places)
}

// Adds the places of the rows of an object's own sets.
fn add_own(rows: &[SetRow], object: u64, places: &mut BTreeSet<usize>) -> Result<(), NoMemory>
    requires { NeverFalls rows.now }
    ensures { OnOk result (Adds (IsOwnRow rows.now object) (length rows.now) places.old.keys places.new.keys) }
{
    let (from, end) = own_places(rows, object);
    for place in from..end {
        places.insert(place)?;
    }
    Ok(())
}

// Adds the places of the cells that may refer to one of these objects.
fn add_referring(
    alloc: Global,
    rows: &[SetRow],
    references: &References,
    doomed: &Set,
    places: &mut BTreeSet<usize>,
) -> Result<(), NoMemory>
    requires rising { IsRising row_cmp rows.now }
    requires small { AreSmall doomed.now }
    ensures { OnOk result (Adds (OfAny doomed.now (RefersTo rows.now references.now)) (length rows.now) places.old.keys places.new.keys) }
{
    for value in doomed.as_slice() {
        if let Value::Object(number) = value {
            add_cells_to(alloc, rows, references, *number, places)?;
        }
    }
    Ok(())
}

// Adds the places of the cells that may refer to an object.
fn add_cells_to(
    alloc: Global,
    rows: &[SetRow],
    references: &References,
    object: u64,
    places: &mut BTreeSet<usize>,
) -> Result<(), NoMemory>
    requires rising { IsRising row_cmp rows.now }
    requires small { object + 1 < 2 ^ 64 }
    ensures { OnOk result (Adds (RefersTo rows.now references.now object) (length rows.now) places.old.keys places.new.keys) }
{
    for reference in references.to(alloc, object)?.as_slice() {
        add_set(rows, reference.object, reference.column, places)?;
    }
    Ok(())
}

// Adds the place of the row of an object's set in a column.
fn add_set(
    rows: &[SetRow],
    object: u64,
    column: u32,
    places: &mut BTreeSet<usize>,
) -> Result<(), NoMemory>
    requires { IsRising row_cmp rows.now }
    ensures { OnOk result (Adds (λ k. position (is_set object column) rows.now ≡ Some k) (length rows.now) places.old.keys places.new.keys) }
{
    if let Some(place) = set_place(rows, object, column) {
        places.insert(place)?;
    }
    Ok(())
}

// Adds the places of the extents that these objects stand in.
fn add_homes(
    objects: &[ObjectRow],
    extents: &[SetRow],
    doomed: &Set,
    places: &mut BTreeSet<usize>,
) -> Result<(), NoMemory>
    requires objects { IsRising object_cmp objects.now }
    requires extents { IsRising row_cmp extents.now }
    ensures { OnOk result (Adds (OfAny doomed.now (IsHomeOf objects.now extents.now)) (length extents.now) places.old.keys places.new.keys) }
{
    for value in doomed.as_slice() {
        if let Value::Object(number) = value {
            add_home(objects, extents, *number, places)?;
        }
    }
    Ok(())
}

// Adds the place of the extent that an object stands in.
fn add_home(
    objects: &[ObjectRow],
    extents: &[SetRow],
    object: u64,
    places: &mut BTreeSet<usize>,
) -> Result<(), NoMemory>
    requires objects { IsRising object_cmp objects.now }
    requires extents { IsRising row_cmp extents.now }
    ensures { OnOk result (Adds (IsHomeOf objects.now extents.now object) (length extents.now) places.old.keys places.new.keys) }
{
    let Some(place) = object_place(objects, object) else {
        return Ok(());
    };
    let row = objects[place];
    match row.parent {
        Some(parent) => add_set(extents, parent, row.column, places),
        None => Ok(()),
    }
}
