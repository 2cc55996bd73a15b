// The formula cells whose results are kept.
ghost use Rattle.std.specs.Prelude.{◌≡◌, ◌∷◌, [], not, IfOk, filter};
ghost use Rattle.std.specs.List.{list_any};
ghost use Rattle.sheet_meaning.specs.Workbook.{object_at, column_in};
ghost use Rattle.sheet_meaning.specs.Items.{numbers_equal, is_changed};
ghost use Rattle.sheet_meaning.specs.Statements.{workbook};
ghost use Rattle.sheet_meaning.specs.Support.{support_of_cell};
ghost use Rattle.sheet_meaning.specs.Kept.{kept_with, kept_after};

use crate::reaching::{Cell, reached, support, with_cells};
use plain_lists::{children, compare, object_at, parent, set_in};
use sheet_columns::{Item, SetTest};
use sheet_meaning::{Schema, State, Use};
use sheet_values::NoMemory;
use std::alloc::Global;

fn numbers_equal(left: Option<u64>, right: Option<u64>) -> bool
    ensures { result ≡ numbers_equal left right }
{
    match left {
        None => right.is_none(),
        Some(a) => match right {
            None => false,
            Some(b) => a == b,
        },
    }
}

// The column of an object, and nothing where it isn't live.
fn column(state: &State, object: u64) -> Option<u64>
    ensures { result ≡ column_in (object_at state.now.objects object) }
{
    match object_at(state.objects.as_slice(), object) {
        Some(found) => Some(u64::from(found.column)),
        None => None,
    }
}

// Whether the content of an item differs between two states.
fn is_changed(alloc: Global, before: &State, after: &State, item: Item) -> Result<bool, NoMemory>
    ensures { IfOk result (λ b. b ≡ is_changed before.now after.now item) }
{
    match item {
        Item::Live(object) => Ok(!numbers_equal(column(before, object), column(after, object))),
        Item::Up(object) => Ok(!numbers_equal(parent(before, object), parent(after, object))),
        Item::Extent(object, column) => {
            let old = children(alloc, before.objects.as_slice(), object, column)?;
            let new = children(alloc, after.objects.as_slice(), object, column)?;
            Ok(!compare(SetTest::Equal, old.as_slice(), new.as_slice()))
        }
        Item::Stored(object, column) => {
            let old = set_in(alloc, before.cells.as_slice(), object, column)?;
            let new = set_in(alloc, after.cells.as_slice(), object, column)?;
            Ok(!compare(SetTest::Equal, old.as_slice(), new.as_slice()))
        }
    }
}

// Whether the content of some item differs.
fn some_changed(
    alloc: Global,
    before: &State,
    after: &State,
    items: &[Item],
) -> Result<bool, NoMemory>
    ensures { IfOk result (λ b. b ≡ list_any (is_changed before.now after.now) items.now) }
{
    let Some((first, more)) = items.split_first() else {
        return Ok(false);
    };
    if is_changed(alloc, before, after, *first)? {
        return Ok(true);
    }
    some_changed(alloc, before, after, more)
}

/// After an evaluation: the cells that are reached from what it used are kept too.
pub fn kept_with(
    alloc: Global,
    schema: &Schema,
    state: &State,
    uses: &[Use],
    kept: Vec<Cell>,
) -> Result<Vec<Cell>, NoMemory>
    ensures { IfOk result (λ list. list.items ≡ kept_with (workbook schema.now state.now) uses.now kept.items) }
{
    let more = reached(alloc, schema, state, uses)?;
    with_cells(kept, more.as_slice())
}

// Whether a change reaches a cell.
fn is_reached(
    alloc: Global,
    schema: &Schema,
    before: &State,
    after: &State,
    cell: Cell,
) -> Result<bool, NoMemory>
    ensures { IfOk result (λ b. b ≡ list_any (is_changed before.now after.now) (support_of_cell (workbook schema.now before.now) cell)) }
{
    let items = support(alloc, schema, before, &[Use::Cell(cell.0, cell.1)])?;
    some_changed(alloc, before, after, items.as_slice())
}

/// After a change: every cell is dropped whose support before it holds a changed item, and no other.
pub fn kept_after(
    alloc: Global,
    schema: &Schema,
    before: &State,
    after: &State,
    kept: &[Cell],
) -> Result<Vec<Cell>, NoMemory>
    ensures { IfOk result (λ list. list.items ≡ kept_after (workbook schema.now before.now) (workbook schema.now after.now) kept.now) }
{
    let mut list = Vec::new(alloc);
    let mut rest = kept;
    while let Some((cell, more)) = rest.split_first() {
        if !is_reached(alloc, schema, before, after, *cell)? {
            list.push(*cell)?;
        }
        rest = more;
    }
    Ok(list)
}
