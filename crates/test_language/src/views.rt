// What views show.
use crate::cycles::made;
use crate::sheet::{
    OPERATOR, View, add_line, no_parts, no_slots, opened, rested_on, scope, seen, show, showing,
    slot, table, with_part, with_slot,
};
use crate::steps::counting;
use sheet_columns::Core;
use sheet_meaning::Schema;
use sheet_values::Value;
use std::alloc::Global;
use test_language_words::{Trouble, formula};

// A table whose source has a fault, beside a slot.
fn faulty_table(alloc: Global, schema: &Schema) -> Result<View, Trouble> {
    let at = scope(schema, "caller operator x");
    let inner = with_slot(no_slots(alloc), slot(alloc, at, 2, "one", "1"));
    let rows = table(alloc, at, 1, "rows", "1 / 0", inner);
    let one = show(alloc, at, 3, "one", "1");
    let parts = with_part(with_part(no_parts(alloc), rows), one);
    showing(Ok(Core::Truth(true)), parts)
}

// A table in which a slot of one row has a fault.
fn faulty_row(alloc: Global, schema: &Schema) -> Result<View, Trouble> {
    let at = scope(schema, "caller operator x");
    let inner = with_slot(no_slots(alloc), slot(alloc, at, 2, "part", "4 / x"));
    let rows = table(alloc, at, 1, "rows", "{0, 2}", inner);
    showing(Ok(Core::Truth(true)), with_part(no_parts(alloc), rows))
}

// A view that shows 1.
fn plain_one(alloc: Global, schema: &Schema) -> Result<View, Trouble> {
    let part = show(alloc, scope(schema, "caller operator o"), 1, "one", "1");
    showing(Ok(Core::Truth(true)), with_part(no_parts(alloc), part))
}

// An empty view that a formula with a fault allows.
fn doubtful(alloc: Global, schema: &Schema) -> Result<View, Trouble> {
    let allow = formula(alloc, scope(schema, "caller operator"), "1 / 0 = 1");
    showing(allow, no_parts(alloc))
}

fn add_views(alloc: Global, schema: &Schema, out: &mut String) -> Result<(), Trouble> {
    let mut sheet = opened(alloc, schema)?;
    add_line(out, "a T of 1", made(alloc, &mut sheet, 1))?;
    let view = faulty_table(alloc, schema);
    let told = seen(alloc, &mut sheet, view, OPERATOR, &[]);
    add_line(out, "a table over 1 / 0", told)?;
    let view = faulty_row(alloc, schema);
    let told = seen(alloc, &mut sheet, view, OPERATOR, &[]);
    add_line(out, "a table with 4 / x for x in {0, 2}", told)?;
    let view = plain_one(alloc, schema);
    let told = rested_on(alloc, &sheet, view, OPERATOR, &[Value::Object(1)]);
    add_line(out, "reads of a view with the argument object 1", told)?;
    let view = doubtful(alloc, schema);
    let told = seen(alloc, &mut sheet, view, OPERATOR, &[]);
    add_line(out, "a view that allows 1 / 0 = 1", told)
}

/// The lines of views.
pub fn add_lines(alloc: Global, out: &mut String) -> Result<(), Trouble> {
    let schema = counting(alloc)?;
    add_views(alloc, &schema, out)
}
