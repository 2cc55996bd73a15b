// The rows after objects are gone.
ghost use Rattle.std.specs.Prelude.{◌≡◌, ◌+◌, ◌-◌, ◌<◌, ◌≤◌, [], ◌∷◌, map, length, sum_by, OnOk, IfOk, if◌then◌else◌, slice_set, unwrap_or, false};
ghost use Rattle.std.specs.List.{flat_map};
ghost use Rattle.sheet_values.specs.Sets.{minus};
ghost use Rattle.sheet_values.specs.Sorted.{IsRising};
ghost use Rattle.sheet_columns.specs.declared.item.Item.TheVariants.{Extent, Stored};
ghost use Rattle.sheet_state_rows.specs.Rows.{with_objects, with_cells, with_extents};
ghost use Rattle.sheet_state.specs.Births.{with_items};
ghost use Rattle.sheet_state.specs.Rows.{object_cmp, objects_in};
ghost use Rattle.sheet_state.specs.Places.{Covers};
ghost use Rattle.sheet_state.specs.Deaths.{object_row, set_row, buried, swept, lost, live_items, up_items, swept_items, lost_cells, lost_objects, rid_of, rid_items};

use crate::birth::weight_of;
use crate::lookup::{is_live, parent_of};
use crate::places::Places;
use sheet_columns::{Columns, Item, Items};
use sheet_state_rows::{Counters, ObjectRow, SetRow, Tables};
use sheet_values::{NoMemory, Set, Value};
use std::alloc::Global;
use std::collections::BTreeSet;

/// Takes these objects out of all rows; the items that this changes.
pub fn be_rid_of(
    alloc: Global,
    tables: &mut Tables,
    columns: &Columns,
    doomed: &Set,
    places: &mut Places,
) -> Result<Items, NoMemory>
    requires rising { IsRising object_cmp tables.old.present.objects }
    requires objects { Covers (buried doomed.now) tables.old.present.objects places.old.objects.keys }
    requires cells { Covers (swept doomed.now) tables.old.present.cells places.old.cells.keys }
    requires extents { Covers (swept doomed.now) tables.old.present.extents places.old.extents.keys }
    ensures present { OnOk result (tables.new.present ≡ rid_of columns.now doomed.now tables.old.present) }
    ensures items { IfOk result (λ items. items ≡ rid_items doomed.now tables.old.present) }
    ensures earlier { tables.new.earlier ≡ tables.old.earlier }
{
    let counters = tables.counters();
    let mut items = Items::new(alloc);
    add_lives(tables.objects(), doomed, &mut items)?;
    add_ups(tables.objects(), doomed, &mut items)?;
    let (objects, cells) = bury_all(tables, columns, doomed, &mut places.objects, counters)?;
    sweep_extents(alloc, tables, doomed, &mut places.extents, &mut items)?;
    let values = sweep_cells(
        alloc,
        tables,
        doomed,
        &mut places.cells,
        &mut items,
        counters.values,
    )?;
    tables.count(Counters {
        next: counters.next,
        objects,
        cells,
        values,
    });
    Ok(items)
}

// Adds the items of these objects. Items come in rising order here, so that each is put at the end.
fn add_lives(rows: &[ObjectRow], doomed: &Set, items: &mut Items) -> Result<(), NoMemory>
    requires { IsRising object_cmp rows.now }
    ensures { OnOk result (items.new ≡ with_items items.old (flat_map (live_items (objects_in rows.now)) doomed.now)) }
{
    for value in doomed.as_slice() {
        add_live_item(rows, value, items)?;
    }
    Ok(())
}

// Adds the item of an object, for a value that is a live one.
fn add_live_item(rows: &[ObjectRow], value: &Value, items: &mut Items) -> Result<(), NoMemory>
    requires { IsRising object_cmp rows.now }
    ensures { OnOk result (items.new ≡ with_items items.old (live_items (objects_in rows.now) value.now)) }
{
    match value {
        Value::Object(number) => add_if(items, Item::Live(*number), is_live(rows, *number)),
        _ => Ok(()),
    }
}

// Adds the items of the objects above these objects.
fn add_ups(rows: &[ObjectRow], doomed: &Set, items: &mut Items) -> Result<(), NoMemory>
    requires { IsRising object_cmp rows.now }
    ensures { OnOk result (items.new ≡ with_items items.old (flat_map (up_items (objects_in rows.now)) doomed.now)) }
{
    for value in doomed.as_slice() {
        add_up_item(rows, value, items)?;
    }
    Ok(())
}

// Adds the item of the object above, for a value that is a live object under another.
fn add_up_item(rows: &[ObjectRow], value: &Value, items: &mut Items) -> Result<(), NoMemory>
    requires { IsRising object_cmp rows.now }
    ensures { OnOk result (items.new ≡ with_items items.old (up_items (objects_in rows.now) value.now)) }
{
    match value {
        Value::Object(number) => add_if(
            items,
            Item::Up(*number),
            parent_of(rows, *number).is_some(),
        ),
        _ => Ok(()),
    }
}

// Adds an item where it is wanted.
fn add_if(items: &mut Items, item: Item, wanted: bool) -> Result<(), NoMemory>
    ensures { OnOk result (items.new ≡ with_items items.old (if wanted then item ∷ [] else [])) }
{
    if wanted {
        items.insert(item)?;
    }
    Ok(())
}

// Marks the rows of these objects as gone; how many objects and cells are left.
fn bury_all(
    tables: &mut Tables,
    columns: &Columns,
    doomed: &Set,
    places: &mut BTreeSet<usize>,
    counters: Counters,
) -> Result<(u64, u64), NoMemory>
    requires { Covers (buried doomed.now) tables.old.present.objects places.old.keys }
    ensures present { OnOk result (tables.new.present ≡ with_objects tables.old.present (map (buried doomed.now) tables.old.present.objects)) }
    ensures objects { IfOk result (λ left. left.0 ≡ counters.objects - sum_by (lost_objects doomed.now) tables.old.present.objects) }
    ensures cells { IfOk result (λ left. left.1 ≡ counters.cells - sum_by (lost_cells columns.now doomed.now) tables.old.present.objects) }
    ensures earlier { tables.new.earlier ≡ tables.old.earlier }
{
    let mut objects = counters.objects;
    let mut cells = counters.cells;
    while let Some(place) = places.pop_first() {
        let gone = bury(tables, columns, doomed, place)?;
        objects = objects.saturating_sub(gone.0);
        cells = cells.saturating_sub(gone.1);
    }
    Ok((objects, cells))
}

// Marks the row at a place as gone, where its object is one of these; how many objects and cells go.
fn bury(
    tables: &mut Tables,
    columns: &Columns,
    doomed: &Set,
    place: usize,
) -> Result<(u64, u64), NoMemory>
    requires { place < length tables.old.present.objects }
    ensures present { OnOk result (tables.new.present ≡ with_objects tables.old.present (slice_set tables.old.present.objects place (buried doomed.now (object_row tables.old.present.objects place)))) }
    ensures objects { IfOk result (λ gone. gone.0 ≡ lost_objects doomed.now (object_row tables.old.present.objects place)) }
    ensures cells { IfOk result (λ gone. gone.1 ≡ lost_cells columns.now doomed.now (object_row tables.old.present.objects place)) }
    ensures earlier { tables.new.earlier ≡ tables.old.earlier }
{
    let row = tables.objects()[place];
    if !(row.live && doomed.contains(&Value::Object(row.number))) {
        return Ok((0, 0));
    }
    tables.replace_object(place, ObjectRow { live: false, ..row })?;
    let weight = weight_of(columns, row.column);
    Ok((1, weight.0))
}

// Takes these objects out of the state cells; how many values are left.
fn sweep_cells(
    alloc: Global,
    tables: &mut Tables,
    doomed: &Set,
    places: &mut BTreeSet<usize>,
    items: &mut Items,
    values: u64,
) -> Result<u64, NoMemory>
    requires { Covers (swept doomed.now) tables.old.present.cells places.old.keys }
    ensures present { OnOk result (tables.new.present ≡ with_cells tables.old.present (map (swept doomed.now) tables.old.present.cells)) }
    ensures items { OnOk result (items.new ≡ with_items items.old (flat_map (swept_items Stored doomed.now) tables.old.present.cells)) }
    ensures values { IfOk result (λ left. left ≡ values - sum_by (lost doomed.now) tables.old.present.cells) }
    ensures earlier { tables.new.earlier ≡ tables.old.earlier }
{
    let mut left = values;
    while let Some(place) = places.pop_first() {
        let gone = sweep_cell(alloc, tables, doomed, items, place)?;
        left = left.saturating_sub(gone);
    }
    Ok(left)
}

// Takes these objects out of the state cell at a place; how many values go.
fn sweep_cell(
    alloc: Global,
    tables: &mut Tables,
    doomed: &Set,
    items: &mut Items,
    place: usize,
) -> Result<u64, NoMemory>
    requires { place < length tables.old.present.cells }
    ensures present { OnOk result (tables.new.present ≡ with_cells tables.old.present (slice_set tables.old.present.cells place (swept doomed.now (set_row tables.old.present.cells place)))) }
    ensures items { OnOk result (items.new ≡ with_items items.old (swept_items Stored doomed.now (set_row tables.old.present.cells place))) }
    ensures gone { IfOk result (λ gone. gone ≡ lost doomed.now (set_row tables.old.present.cells place)) }
    ensures earlier { tables.new.earlier ≡ tables.old.earlier }
{
    let row = &tables.cells()[place];
    let object = row.object;
    let column = row.column;
    let length = row.set.len();
    let rest = match remainder(alloc, row, doomed)? {
        Some(rest) => rest,
        None => return Ok(0),
    };
    let gone = length.saturating_sub(rest.set.len()) as u64;
    if gone > 0 {
        items.insert(Item::Stored(object, column))?;
    }
    tables.replace_cell(place, rest)?;
    Ok(gone)
}

// Takes these objects out of the extents.
fn sweep_extents(
    alloc: Global,
    tables: &mut Tables,
    doomed: &Set,
    places: &mut BTreeSet<usize>,
    items: &mut Items,
) -> Result<(), NoMemory>
    requires { Covers (swept doomed.now) tables.old.present.extents places.old.keys }
    ensures present { OnOk result (tables.new.present ≡ with_extents tables.old.present (map (swept doomed.now) tables.old.present.extents)) }
    ensures items { OnOk result (items.new ≡ with_items items.old (flat_map (swept_items Extent doomed.now) tables.old.present.extents)) }
    ensures earlier { tables.new.earlier ≡ tables.old.earlier }
{
    while let Some(place) = places.pop_first() {
        sweep_extent(alloc, tables, doomed, items, place)?;
    }
    Ok(())
}

// Takes these objects out of the extent at a place.
fn sweep_extent(
    alloc: Global,
    tables: &mut Tables,
    doomed: &Set,
    items: &mut Items,
    place: usize,
) -> Result<(), NoMemory>
    requires { place < length tables.old.present.extents }
    ensures present { OnOk result (tables.new.present ≡ with_extents tables.old.present (slice_set tables.old.present.extents place (swept doomed.now (set_row tables.old.present.extents place)))) }
    ensures items { OnOk result (items.new ≡ with_items items.old (swept_items Extent doomed.now (set_row tables.old.present.extents place))) }
    ensures earlier { tables.new.earlier ≡ tables.old.earlier }
{
    let row = &tables.extents()[place];
    let object = row.object;
    let column = row.column;
    let length = row.set.len();
    let rest = match remainder(alloc, row, doomed)? {
        Some(rest) => rest,
        None => return Ok(()),
    };
    if length.saturating_sub(rest.set.len()) > 0 {
        items.insert(Item::Extent(object, column))?;
    }
    tables.replace_extent(place, rest)
}

// What is left of a row, where it changes.
fn remainder(alloc: Global, row: &SetRow, doomed: &Set) -> Result<Option<SetRow>, NoMemory>
    ensures { IfOk result (λ rest. unwrap_or rest row.now ≡ swept doomed.now row.now) }
{
    if !row.live {
        return Ok(None);
    }
    let object = row.object;
    let column = row.column;
    if doomed.contains(&Value::Object(object)) {
        let set = Set::empty(alloc);
        let live = false;
        return Ok(Some(SetRow {
            object,
            column,
            live,
            set,
        }));
    }
    if !touches(&row.set, doomed) {
        return Ok(None);
    }
    let set = row.set.minus(doomed)?;
    let live = true;
    Ok(Some(SetRow {
        object,
        column,
        live,
        set,
    }))
}

// Whether a set holds one of these objects.
fn touches(set: &Set, doomed: &Set) -> bool
    ensures { result ≡ false → minus set.now doomed.now ≡ set.now }
{
    for value in set.as_slice() {
        if doomed.contains(value) {
            return true;
        }
    }
    false
}
