// A club's courses and members.
use crate::sheet::{
    OPERATOR, Procedure, Sheet, Told, View, add_line, allowing, called, counts, member, no_parts,
    no_slots, open, opened, rested_on, schema, scope, seen, show, showing, slot, table, with_part,
    with_slot,
};
use sheet_columns::Core;
use sheet_meaning::{Caller, Schema};
use sheet_values::{Kind, Name, Value};
use std::alloc::Global;
use test_language_words::{
    Built, Scope, Tree, Trouble, check, delete, formula, new, no_statements, repeat, reply,
    root_column, set, then, with_formula, with_objects, with_state,
};

const COURSE: u32 = 1;

const MEMBER: u32 = 8;

fn columns(alloc: Global) -> Tree {
    let tree = with_objects(alloc, root_column(alloc), "$", "Course");
    let tree = with_state(alloc, tree, "Course", "title", Kind::Text, true);
    let tree = with_state(alloc, tree, "Course", "capacity", Kind::Number, true);
    let tree = with_objects(alloc, tree, "Course", "Seat");
    let tree = with_state(alloc, tree, "Seat", "member", Kind::Object(MEMBER), true);
    let tree = with_formula(alloc, tree, "Course", "taken", Kind::Object(MEMBER));
    let tree = with_formula(alloc, tree, "Course", "free", Kind::Number);
    let tree = with_objects(alloc, tree, "$", "Member");
    let tree = with_state(alloc, tree, "Member", "name", Kind::Text, true);
    with_formula(alloc, tree, "Member", "courses", Kind::Object(COURSE))
}

fn club(alloc: Global) -> Result<Schema, Trouble> {
    let texts = [
        ("taken", "Seat.member"),
        ("free", "capacity - count(Seat)"),
        ("courses", "{c : c in Course | this in c.taken}"),
    ];
    schema(alloc, columns(alloc), &texts)
}

// `allow operator`
fn operator(alloc: Global, at: Scope) -> Built {
    formula(alloc, at, "operator")
}

fn add_course(alloc: Global, schema: &Schema) -> Result<Procedure, Trouble> {
    let at = scope(schema, "caller operator title capacity c");
    let fits = check(alloc, at, 1, "capacity >= 0", "capacity is below zero");
    let body = then(no_statements(alloc), fits);
    let body = then(body, new(alloc, at, 2, "Course"));
    let body = then(body, set(alloc, at, 3, "c.title", "title"));
    let body = then(body, set(alloc, at, 4, "c.capacity", "capacity"));
    let body = then(body, reply(alloc, at, 5, "c"));
    allowing(operator(alloc, at), body)
}

fn add_member(alloc: Global, schema: &Schema) -> Result<Procedure, Trouble> {
    let at = scope(schema, "caller operator name m");
    let body = then(no_statements(alloc), new(alloc, at, 1, "Member"));
    let body = then(body, set(alloc, at, 2, "m.name", "name"));
    let body = then(body, reply(alloc, at, 3, "m"));
    allowing(operator(alloc, at), body)
}

fn set_name(alloc: Global, schema: &Schema) -> Result<Procedure, Trouble> {
    let at = scope(schema, "caller operator m name");
    let body = then(no_statements(alloc), set(alloc, at, 1, "m.name", "name"));
    allowing(operator(alloc, at), body)
}

fn join(alloc: Global, schema: &Schema) -> Result<Procedure, Trouble> {
    let at = scope(schema, "caller operator c s");
    let is_one = check(alloc, at, 1, "count(caller) = 1", "no member");
    let is_out = check(alloc, at, 2, "not caller in c.taken", "already joined");
    let has_room = check(alloc, at, 3, "c.free > 0", "the course is full");
    let body = then(then(no_statements(alloc), is_one), is_out);
    let body = then(then(body, has_room), new(alloc, at, 4, "c.Seat"));
    let body = then(body, set(alloc, at, 5, "s.member", "caller"));
    open(then(body, reply(alloc, at, 6, "s")))
}

fn leave(alloc: Global, schema: &Schema) -> Result<Procedure, Trouble> {
    let at = scope(schema, "caller operator c");
    let gone = delete(alloc, at, 1, "{s : s in c.Seat | s.member = caller}");
    open(then(no_statements(alloc), gone))
}

fn drop_member(alloc: Global, schema: &Schema) -> Result<Procedure, Trouble> {
    let at = scope(schema, "caller operator m");
    let body = then(no_statements(alloc), delete(alloc, at, 1, "m"));
    allowing(operator(alloc, at), body)
}

fn wipe(alloc: Global, schema: &Schema) -> Result<Procedure, Trouble> {
    let at = scope(schema, "caller operator c");
    let turn = then(no_statements(alloc), delete(alloc, at, 2, "c"));
    let seats = repeat(alloc, at, 1, "c.Seat", turn);
    let body = then(no_statements(alloc), seats);
    let body = then(body, check(alloc, at, 3, "false", "kept"));
    allowing(operator(alloc, at), body)
}

fn mine(alloc: Global, schema: &Schema) -> Result<View, Trouble> {
    let at = scope(schema, "caller operator c");
    let title = slot(alloc, at, 3, "title", "c.title");
    let free = slot(alloc, at, 4, "free", "c.free");
    let slots = with_slot(with_slot(no_slots(alloc), title), free);
    let name = show(alloc, at, 1, "name", "caller.name");
    let courses = table(alloc, at, 2, "courses", "caller.courses", slots);
    let parts = with_part(with_part(no_parts(alloc), name), courses);
    showing(Ok(Core::Truth(true)), parts)
}

fn overview(alloc: Global, schema: &Schema) -> Result<View, Trouble> {
    let at = scope(schema, "caller operator c");
    let title = slot(alloc, at, 2, "title", "c.title");
    let free = slot(alloc, at, 3, "free", "c.free");
    let slots = with_slot(with_slot(no_slots(alloc), title), free);
    let courses = table(alloc, at, 1, "courses", "Course", slots);
    let count = show(alloc, at, 4, "seats", "count(Course.Seat)");
    let parts = with_part(with_part(no_parts(alloc), courses), count);
    showing(operator(alloc, at), parts)
}

// A text of at most 1,000 bytes.
fn text(alloc: Global, text: &str) -> Result<Value, Trouble> {
    if text.len() > 1000 {
        return Err(Trouble::Unreadable);
    }
    Ok(Value::Text(Name::of(alloc, text)?))
}

fn with_member(alloc: Global, sheet: &mut Sheet, name: &str) -> Told {
    let arguments = [text(alloc, name)?];
    let procedure = add_member(alloc, sheet.schema);
    called(alloc, sheet, procedure, OPERATOR, &arguments)
}

fn with_course(alloc: Global, sheet: &mut Sheet, title: &str, capacity: i64) -> Told {
    let arguments = [text(alloc, title)?, Value::Number(capacity)];
    let procedure = add_course(alloc, sheet.schema);
    called(alloc, sheet, procedure, OPERATOR, &arguments)
}

fn with_name(alloc: Global, sheet: &mut Sheet, object: u64, name: &str) -> Told {
    let arguments = [Value::Object(object), text(alloc, name)?];
    let procedure = set_name(alloc, sheet.schema);
    called(alloc, sheet, procedure, OPERATOR, &arguments)
}

fn joined(alloc: Global, sheet: &mut Sheet, caller: Caller) -> Told {
    let procedure = join(alloc, sheet.schema);
    called(alloc, sheet, procedure, caller, &[Value::Object(1)])
}

fn left(alloc: Global, sheet: &mut Sheet, caller: Caller) -> Told {
    let procedure = leave(alloc, sheet.schema);
    called(alloc, sheet, procedure, caller, &[Value::Object(1)])
}

fn wiped(alloc: Global, sheet: &mut Sheet) -> Told {
    let procedure = wipe(alloc, sheet.schema);
    called(alloc, sheet, procedure, OPERATOR, &[Value::Object(1)])
}

fn dropped(alloc: Global, sheet: &mut Sheet, caller: Caller) -> Told {
    let procedure = drop_member(alloc, sheet.schema);
    called(alloc, sheet, procedure, caller, &[Value::Object(2)])
}

fn seen_by(alloc: Global, sheet: &mut Sheet, caller: Caller) -> Told {
    let view = mine(alloc, sheet.schema);
    seen(alloc, sheet, view, caller, &[])
}

fn all_by(alloc: Global, sheet: &mut Sheet, caller: Caller) -> Told {
    let view = overview(alloc, sheet.schema);
    seen(alloc, sheet, view, caller, &[])
}

fn add_counts(alloc: Global, sheet: &Sheet, out: &mut String) -> Result<(), Trouble> {
    add_line(out, "kept results and live objects", counts(alloc, sheet))
}

// The members and the courses come.
fn add_start(alloc: Global, sheet: &mut Sheet, out: &mut String) -> Result<(), Trouble> {
    let told = with_course(alloc, sheet, "None", -1);
    add_line(out, "add_course, capacity -1", told)?;
    let told = with_course(alloc, sheet, "Chess", 1);
    add_line(out, "add_course Chess 1", told)?;
    let told = with_member(alloc, sheet, "Ann");
    add_line(out, "add_member Ann", told)?;
    let told = with_member(alloc, sheet, "Bo");
    add_line(out, "add_member Bo", told)
}

// A member joins, and another finds the course full.
fn add_joins(alloc: Global, sheet: &mut Sheet, out: &mut String) -> Result<(), Trouble> {
    add_line(out, "join 1, by Ann", joined(alloc, sheet, member(2)))?;
    add_line(out, "mine, by Ann", seen_by(alloc, sheet, member(2)))?;
    add_counts(alloc, sheet, out)?;
    add_line(out, "join 1, by Bo", joined(alloc, sheet, member(3)))?;
    add_counts(alloc, sheet, out)?;
    let told = joined(alloc, sheet, member(2));
    add_line(out, "join 1, by Ann again", told)?;
    let told = joined(alloc, sheet, OPERATOR);
    add_line(out, "join 1, by the operator", told)
}

// What a view rests on, and a change elsewhere.
fn add_reads(alloc: Global, sheet: &mut Sheet, out: &mut String) -> Result<(), Trouble> {
    let view = mine(alloc, sheet.schema);
    let told = rested_on(alloc, sheet, view, member(2), &[]);
    add_line(out, "reads of mine, by Ann", told)?;
    let told = with_name(alloc, sheet, 3, "Bob");
    add_line(out, "set_name 3 Bob", told)?;
    add_counts(alloc, sheet, out)?;
    add_line(out, "mine, by Ann", seen_by(alloc, sheet, member(2)))
}

// Refusals that undo deletions.
fn add_refusals(alloc: Global, sheet: &mut Sheet, out: &mut String) -> Result<(), Trouble> {
    add_line(out, "wipe 1", wiped(alloc, sheet))?;
    add_counts(alloc, sheet, out)?;
    add_line(out, "mine, by Ann", seen_by(alloc, sheet, member(2)))?;
    add_line(out, "drop_member 2", dropped(alloc, sheet, OPERATOR))?;
    let told = dropped(alloc, sheet, member(2));
    add_line(out, "drop_member 2, by Ann", told)?;
    add_counts(alloc, sheet, out)
}

// The member leaves, and the number of the refused request's object is drawn.
fn add_end(alloc: Global, sheet: &mut Sheet, out: &mut String) -> Result<(), Trouble> {
    add_line(out, "leave 1, by Ann", left(alloc, sheet, member(2)))?;
    add_counts(alloc, sheet, out)?;
    add_line(out, "join 1, by Bo", joined(alloc, sheet, member(3)))?;
    add_line(out, "drop_member 2", dropped(alloc, sheet, OPERATOR))?;
    let told = seen_by(alloc, sheet, member(2));
    add_line(out, "mine, by Ann, who is gone", told)?;
    add_line(out, "overview", all_by(alloc, sheet, OPERATOR))?;
    add_line(out, "overview, by Bo", all_by(alloc, sheet, member(3)))
}

fn add_all(alloc: Global, schema: &Schema, out: &mut String) -> Result<(), Trouble> {
    let mut sheet = opened(alloc, schema)?;
    add_start(alloc, &mut sheet, out)?;
    add_joins(alloc, &mut sheet, out)?;
    add_reads(alloc, &mut sheet, out)?;
    add_refusals(alloc, &mut sheet, out)?;
    add_end(alloc, &mut sheet, out)
}

/// The club's lines.
pub fn add_lines(alloc: Global, out: &mut String) -> Result<(), Trouble> {
    let schema = club(alloc)?;
    add_all(alloc, &schema, out)
}
