// Where the row of an object, a cell or an extent stands. Rows stand in the order of their keys, so they are found by halving.
ghost use Rattle.std.specs.Prelude.{◌≡◌, position, is_some, option_map};
ghost use Rattle.sheet_values.specs.Sorted.{IsRising};
ghost use Rattle.sheet_meaning.specs.Workbook.{object_at, column_in, parent_in};
ghost use Rattle.sheet_state.specs.Rows.{is_object, is_set, object_of, objects_in, object_cmp, row_cmp};

use sheet_state_rows::{ObjectRow, SetRow};

/// The place of the row of a live object.
pub fn object_place(rows: &[ObjectRow], object: u64) -> Option<usize>
    requires { IsRising object_cmp rows.now }
    ensures { result ≡ position (is_object object) rows.now }
{
    match rows.binary_search_by_key(&object, |row| row.number) {
        Ok(place) => { if rows[place].live { Some(place) } else { None } }
        Err(_) => None,
    }
}

/// The place of the row of a live object's set in a column.
pub fn set_place(rows: &[SetRow], object: u64, column: u32) -> Option<usize>
    requires { IsRising row_cmp rows.now }
    ensures { result ≡ position (is_set object column) rows.now }
{
    match rows.binary_search_by_key(&(object, column), |row| (row.object, row.column)) {
        Ok(place) => { if rows[place].live { Some(place) } else { None } }
        Err(_) => None,
    }
}

/// The row of a live object.
pub fn row_of(rows: &[ObjectRow], object: u64) -> Option<ObjectRow>
    requires { IsRising object_cmp rows.now }
    ensures { option_map object_of result ≡ object_at (objects_in rows.now) object }
{
    match object_place(rows, object) {
        Some(place) => Some(rows[place]),
        None => None,
    }
}

/// Whether an object is live.
pub fn is_live(rows: &[ObjectRow], object: u64) -> bool
    requires { IsRising object_cmp rows.now }
    ensures { result ≡ is_some (column_in (object_at (objects_in rows.now) object)) }
{
    row_of(rows, object).is_some()
}

/// The object above a live one.
pub fn parent_of(rows: &[ObjectRow], object: u64) -> Option<u64>
    requires { IsRising object_cmp rows.now }
    ensures { result ≡ parent_in (object_at (objects_in rows.now) object) }
{
    match row_of(rows, object) {
        Some(row) => row.parent,
        None => None,
    }
}
