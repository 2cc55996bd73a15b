use sheet_columns::{
    Cells, Column, ColumnRefusal, Columns, Core, CoreStatement, Item, Items, Names, Reads,
    Sequence, Statements, Variables,
};
use sheet_values::{Kind, Name, Set, Value};
use std::test::Fail;

#[test]
fn columns_have_paths(rt: HostRuntime) -> Result<(), Fail> {
    let alloc = rt.alloc();
    let mut columns = Columns::new(alloc)?;
    let course = columns.add(0, Name::of(alloc, "Course")?, Column::Object)?;
    let seat = columns.add(course, Name::of(alloc, "Seat")?, Column::Object)?;
    assert_eq!(rt; columns.count(), 3);
    assert_eq!(rt; columns.child_named(course, b"Seat"), Some(seat));
    let path = columns.path_text(seat)?;
    assert_eq!(rt; path.text(), "Course.Seat");
    Ok(())
}

#[test]
fn names_are_found_under_their_own_column(rt: HostRuntime) -> Result<(), Fail> {
    let alloc = rt.alloc();
    let mut columns = Columns::new(alloc)?;
    let course = columns.add(0, Name::of(alloc, "Course")?, Column::Object)?;
    let seat = columns.add(course, Name::of(alloc, "Course")?, Column::Object)?;
    assert_eq!(rt; columns.child_named(0, b"Course"), Some(course));
    assert_eq!(rt; columns.child_named(course, b"Course"), Some(seat));
    assert_eq!(rt; columns.child_named(seat, b"Course"), None);
    assert_eq!(rt; columns.child_named(7, b"Course"), None);
    assert_eq!(rt; columns.child_named(0, b"course"), None);
    Ok(())
}

#[test]
fn a_taken_name_is_refused(rt: HostRuntime) -> Result<(), Fail> {
    let alloc = rt.alloc();
    let mut columns = Columns::new(alloc)?;
    let course = columns.add(0, Name::of(alloc, "Course")?, Column::Object)?;
    let again = columns.add(0, Name::of(alloc, "Course")?, Column::Object);
    assert!(rt; again == Err(ColumnRefusal::NameTaken(course)));
    assert_eq!(rt; columns.count(), 2);
    Ok(())
}

#[test]
fn a_column_holds_something_else(rt: HostRuntime) -> Result<(), Fail> {
    let alloc = rt.alloc();
    let mut columns = Columns::new(alloc)?;
    let number = columns.add(
        0,
        Name::of(alloc, "free")?,
        Column::Formula { kind: Kind::Truth },
    )?;
    columns.set(number, Column::Formula { kind: Kind::Number });
    let is_number = matches!(columns.get(number), Column::Formula { kind: Kind::Number });
    assert!(rt; is_number);
    assert_eq!(rt; columns.child_named(0, b"free"), Some(number));
    Ok(())
}

#[test]
fn cells_stand_in_the_order_of_first_use(rt: HostRuntime) -> Result<(), Fail> {
    let alloc = rt.alloc();
    let mut reads = Reads::new(alloc);
    reads.cells.push((4, 1))?;
    reads.cells.push((2, 9))?;
    reads.cells.push((4, 1))?;
    assert_eq!(rt; reads.cells.len(), 2);
    assert!(rt; reads.cells.at(0) == (4, 1));
    assert!(rt; reads.cells.at(1) == (2, 9));
    let none = Cells::new(alloc);
    assert_eq!(rt; none.len(), 0);
    assert_eq!(rt; reads.items.len(), 0);
    Ok(())
}

#[test]
fn variables_are_cut(rt: HostRuntime) -> Result<(), Fail> {
    let alloc = rt.alloc();
    let mut variables = Variables::new(alloc);
    variables.push(Set::empty(alloc))?;
    variables.push(Set::one(alloc, Value::Number(7))?)?;
    assert_eq!(rt; variables.len(), 2);
    assert_eq!(rt; variables.at(1).len(), 1);
    variables.cut(1);
    assert_eq!(rt; variables.len(), 1);
    assert_eq!(rt; variables.at(0).len(), 0);
    Ok(())
}

#[test]
fn columns_are_told(rt: HostRuntime) -> Result<(), Fail> {
    let alloc = rt.alloc();
    let mut columns = Columns::new(alloc)?;
    let free = Column::Formula { kind: Kind::Number };
    let number = columns.add(0, Name::of(alloc, "free")?, free)?;
    let is_formula = matches!(columns.get(number), Column::Formula { .. });
    assert!(rt; is_formula);
    assert_eq!(rt; columns.name(number).text(), "free");
    assert_eq!(rt; columns.above(number), 0);
    Ok(())
}

#[test]
fn lists_grow(rt: HostRuntime) -> Result<(), Fail> {
    let alloc = rt.alloc();
    let mut names: Names = Sequence::new(alloc);
    names.push(Name::of(alloc, "title")?)?;
    names.push(Name::of(alloc, "free")?)?;
    assert_eq!(rt; names.len(), 2);
    assert_eq!(rt; names.at(1).text(), "free");
    assert_eq!(rt; names.as_slice().len(), 2);
    Ok(())
}

#[test]
fn items_stand_in_order(rt: HostRuntime) -> Result<(), Fail> {
    let alloc = rt.alloc();
    let mut items = Items::new(alloc);
    let first = items.insert(Item::Stored(1, 2))?;
    assert!(rt; first);
    let second = items.insert(Item::Live(4))?;
    assert!(rt; second);
    let again = items.insert(Item::Stored(1, 2))?;
    assert!(rt; !again);
    let found = items.contains(&Item::Live(4));
    assert!(rt; found);
    assert_eq!(rt;
        items.as_slice(),
        [Item::Live(4), Item::Stored(1, 2)].as_slice()
    );
    Ok(())
}

#[test]
fn statements_stand_in_order(rt: HostRuntime) -> Result<(), Fail> {
    let alloc = rt.alloc();
    let mut statements = Statements::new(alloc);
    statements.push(CoreStatement::Reply {
        number: 1,
        value: Core::Root,
    })?;
    assert_eq!(rt; statements.len(), 1);
    let is_reply = matches!(statements.at(0), CoreStatement::Reply { number: 1, .. });
    assert!(rt; is_reply);
    assert_eq!(rt; statements.as_slice().len(), 1);
    Ok(())
}
