// Bodies and status codes of replies that aren't refusals.
ghost use Rattle.std.specs.Prelude.{length, ◌≤◌};

use crate::printed::add;
use sheet_columns::{Columns, Fault, Item, Items, Page, Part, Place, Row, Rows, Sequence};
use sheet_requests::{Answer, Reply};
use sheet_values::{Name, NoMemory, NotOne, Set, Value};
use std::alloc::Global;

/// A set with a value of each type, at once and again.
pub fn add_values(alloc: Global, columns: &Columns, out: &mut String) -> Result<(), NoMemory> {
    let answer = Answer::Values(four_values(alloc)?);
    add(alloc, columns, Reply::Accepted { number: 1, answer }, out)?;
    let answer = Answer::Values(Set::empty(alloc));
    add(alloc, columns, Reply::Kept { number: 17, answer }, out)
}

// A value of each type.
fn four_values(alloc: Global) -> Result<Set, NoMemory> {
    let mut set = Set::one(alloc, Value::Object(7))?;
    set.insert(Value::Text(Name::of(alloc, "a\"b")?))?;
    set.insert(Value::Number(-42))?;
    set.insert(Value::Truth(true))?;
    Ok(set)
}

/// A caller that was admitted, at once and again.
pub fn add_callers(alloc: Global, columns: &Columns, out: &mut String) -> Result<(), NoMemory> {
    let answer = Answer::Caller(2);
    add(alloc, columns, Reply::Accepted { number: 4, answer }, out)?;
    let answer = Answer::Caller(4000);
    add(alloc, columns, Reply::Kept { number: 9, answer }, out)
}

// One more slot of a page.
fn show(
    alloc: Global,
    name: &str,
    shown: Result<Set, Fault>,
    page: &mut Page,
) -> Result<(), NoMemory>
    requires { length name.now ≤ 1000 }
{
    let name = Name::of(alloc, name)?;
    page.push(Part::Show { name, shown })
}

/// A page with a set, and one with each fault; the last is at a column that isn't there.
pub fn add_shows(alloc: Global, columns: &Columns, out: &mut String) -> Result<(), NoMemory> {
    let mut page = Sequence::new(alloc);
    show(
        alloc,
        "seats",
        Ok(Set::one(alloc, Value::Number(8))?),
        &mut page,
    )?;
    show(alloc, "a", Err(Fault::Cycle), &mut page)?;
    let many = Fault::NotOne(NotOne::Many, Place::Cell(4, 2));
    show(alloc, "b", Err(many), &mut page)?;
    let overflow = Fault::Overflow(Place::Cell(0, 0));
    show(alloc, "c", Err(overflow), &mut page)?;
    let divisor = Fault::ZeroDivisor(Place::Statement(3));
    show(alloc, "d", Err(divisor), &mut page)?;
    let long = Fault::TextTooLong(Place::Cell(7, 3));
    show(alloc, "e", Err(long), &mut page)?;
    add(alloc, columns, Reply::Page(page), out)
}

// A row with a fault in its first slot.
fn rows(alloc: Global) -> Result<Rows, NoMemory> {
    let mut shows = Sequence::new(alloc);
    shows.push(Err(Fault::NotOne(NotOne::Zero, Place::Slot(2))))?;
    shows.push(Ok(four_values(alloc)?))?;
    let mut rows = Sequence::new(alloc);
    rows.push(Row {
        of: Value::Object(1),
        shows,
    })?;
    Ok(rows)
}

// One more table of a page, whose rows show the slot `free`.
fn table(
    alloc: Global,
    name: &str,
    rows: Result<Rows, Fault>,
    page: &mut Page,
) -> Result<(), NoMemory>
    requires { length name.now ≤ 1000 }
{
    let mut names = Sequence::new(alloc);
    names.push(Name::of(alloc, "free")?)?;
    names.push(Name::of(alloc, "all")?)?;
    let name = Name::of(alloc, name)?;
    page.push(Part::Table { name, names, rows })
}

/// A page with a table, and with a fault in the place of a table's rows.
pub fn add_tables(alloc: Global, columns: &Columns, out: &mut String) -> Result<(), NoMemory> {
    let mut page = Sequence::new(alloc);
    table(alloc, "courses", Ok(rows(alloc)?), &mut page)?;
    table(
        alloc,
        "others",
        Err(Fault::Overflow(Place::Slot(3))),
        &mut page,
    )?;
    add(alloc, columns, Reply::Page(page), out)
}

/// The items that a view rests on, the last of a column that isn't there.
pub fn add_items(alloc: Global, columns: &Columns, out: &mut String) -> Result<(), NoMemory> {
    let mut items = Items::new(alloc);
    items.insert(Item::Live(1))?;
    items.insert(Item::Up(2))?;
    items.insert(Item::Extent(0, 1))?;
    items.insert(Item::Stored(4, 2))?;
    items.insert(Item::Stored(4, 1000))?;
    add(alloc, columns, Reply::Reads(items), out)
}

/// An empty page, and the four counts.
pub fn add_counts(alloc: Global, columns: &Columns, out: &mut String) -> Result<(), NoMemory> {
    add(alloc, columns, Reply::Page(Sequence::new(alloc)), out)?;
    let counts = Reply::Stats {
        accepted: 6,
        callers: 3,
        kept: 0,
        objects: 5,
    };
    add(alloc, columns, counts, out)
}
