// The rows of a new object's cells and extents.
ghost use Rattle.std.specs.Prelude.{◌≡◌, ◌+◌, ◌<◌, ◌≤◌, length, OnOk, IfOk, option_map};
ghost use Rattle.std.specs.List.{filter_map};
ghost use Rattle.std.specs.Option.{option_to_list};
ghost use Rattle.sheet_columns.specs.Tree.{IsTree};
ghost use Rattle.sheet_meaning.specs.Changes.{first_set};
ghost use Rattle.sheet_meaning.specs.WellFormed.{state_columns};
ghost use Rattle.sheet_state.specs.Births.{child_at, state_at, extent_at, formula_at, formula_columns, item_of, with_items, with_rows, firsts};
ghost use Rattle.sheet_state.specs.Stored.{schema_of, object_columns};

use sheet_columns::{Column, Columns, Item, Items};
use sheet_state_rows::{SetRow, Tables};
use sheet_values::{NoMemory, Set, Value};
use std::alloc::Global;

/// Column `k`, where it stands directly under `above`.
fn child_of(columns: &Columns, above: u32, k: u32) -> Option<&Column>
    requires counted { k < length columns.now }
    requires not_root { 0 < k }
    ensures { option_map (λ c. c.now) result ≡ child_at columns.now above k }
{
    if columns.above(k) == above {
        Some(columns.get(k))
    } else {
        None
    }
}

/// The set of the value, or of nothing.
fn first_set_of(alloc: Global, first: &Option<Value>) -> Result<Set, NoMemory>
    ensures { IfOk result (λ set. set ≡ first_set first.now) }
{
    match first {
        Some(value) => {
            let copy = value.copy()?;
            Set::one(alloc, copy)
        }
        None => Ok(Set::empty(alloc)),
    }
}

/// Adds the row of a new object's set in a column, where it has one there, and the item that this changes.
fn add_row(
    alloc: Global,
    tables: &mut Tables,
    columns: &Columns,
    above: u32,
    k: u32,
    object: u64,
    items: &mut Items,
) -> Result<(), NoMemory>
    requires counted { k < length columns.now }
    requires not_root { 0 < k }
    ensures rows { OnOk result (tables.new.present ≡ with_rows tables.old.present object (option_to_list (state_at columns.now above k)) (option_to_list (extent_at columns.now above k))) }
    ensures earlier { tables.new.earlier ≡ tables.old.earlier }
    ensures items { OnOk result (items.new ≡ with_items items.old (filter_map (item_of object) (option_to_list (state_at columns.now above k)))) }
{
    match child_of(columns, above, k) {
        Some(
            Column::State {
                kind: _,
                one: _,
                first,
            },
        ) => {
            let set = first_set_of(alloc, first)?;
            if first.is_some() {
                items.insert(Item::Stored(object, k))?;
            }
            let row = SetRow {
                object,
                column: k,
                live: true,
                set,
            };
            tables.add_cell(row)
        }
        Some(Column::Object) => {
            let row = SetRow {
                object,
                column: k,
                live: true,
                set: Set::empty(alloc),
            };
            tables.add_extent(row)
        }
        _ => Ok(()),
    }
}

/// Adds the rows of a new object's cells and extents, and the items that these change.
pub fn add_rows(
    alloc: Global,
    tables: &mut Tables,
    columns: &Columns,
    above: u32,
    object: u64,
    items: &mut Items,
) -> Result<(), NoMemory>
    ensures rows { OnOk result (tables.new.present ≡ with_rows tables.old.present object (state_columns (schema_of columns.now) above) (object_columns columns.now above)) }
    ensures earlier { tables.new.earlier ≡ tables.old.earlier }
    ensures items { OnOk result (items.new ≡ with_items items.old (filter_map (item_of object) (state_columns (schema_of columns.now) above))) }
{
    for k in 1..columns.count() {
        add_row(alloc, tables, columns, above, k, object, items)?;
    }
    Ok(())
}

/// How many state and formula cells an object of this column has, and how many values its state cells start with.
pub fn weight_of(columns: &Columns, above: u32) -> (u64, u64)
    ensures cells { result.0 ≡ length (state_columns (schema_of columns.now) above) + length (formula_columns columns.now above) }
    ensures values { result.1 ≡ length (firsts (state_columns (schema_of columns.now) above)) }
    ensures few_cells { result.0 ≤ 1000 }
    ensures few_values { result.1 ≤ 1000 }
    ensures tree { IsTree columns.now }
{
    let mut cells: u64 = 0;
    let mut values: u64 = 0;
    for k in 1..columns.count() {
        let weight = weight_at(columns, above, k);
        cells += weight.0;
        values += weight.1;
    }
    (cells, values)
}

/// The same of one column.
fn weight_at(columns: &Columns, above: u32, k: u32) -> (u64, u64)
    requires counted { k < length columns.now }
    requires not_root { 0 < k }
    ensures cells { result.0 ≡ length (option_to_list (state_at columns.now above k)) + length (option_to_list (formula_at columns.now above k)) }
    ensures values { result.1 ≡ length (firsts (option_to_list (state_at columns.now above k))) }
    ensures few_cells { result.0 ≤ 1 }
    ensures few_values { result.1 ≤ 1 }
{
    match child_of(columns, above, k) {
        Some(
            Column::State {
                kind: _,
                one: _,
                first,
            },
        ) => (1, first.is_some() as u64),
        Some(Column::Formula { kind: _ }) => (1, 0),
        _ => (0, 0),
    }
}
