// The columns, the content and the variables that formulas are evaluated over: three lines of a shop, and some cells of the root.
use crate::content::Content;
use crate::rows::Row;
use sheet_columns::{Columns, Fault, Place, Variables};
use sheet_values::{Kind, Name, NoMemory, Set, Value};
use std::alloc::Global;
use test_language_words::{Tree, root_column, with_formula, with_objects, with_state};

/// What formulas are evaluated over.
#[derive(Drop)]
pub struct Shop {
    pub columns: Columns,
    pub content: Content,
    pub variables: Variables,
}

const LINE: u32 = 1;

const PRICE: u32 = 2;

const TAG: u32 = 3;

const KIN: u32 = 4;

const COST: u32 = 5;

const LATE: u32 = 6;

const DUE: u32 = 7;

const PART: u32 = 8;

const XS: u32 = 9;

const TOTAL: u32 = 11;

const LOOP: u32 = 12;

const BAD: u32 = 13;

// The state cells that hold numbers, texts and objects. The price of line 1 is that of line 2.
const NUMBERS: &[(u64, u32, &[i64])] = &[
    (1, PRICE, &[5]),
    (2, PRICE, &[5]),
    (3, PRICE, &[2]),
    (0, XS, &[1, 2]),
];

const TEXTS: &[(u64, u32, &[&str])] = &[(1, TAG, &["a", "b"]), (3, TAG, &["b"])];

const OBJECTS: &[(u64, u32, &[u64])] = &[(1, KIN, &[2, 3]), (3, KIN, &[3])];

const EXTENTS: &[(u64, u32, &[u64])] = &[(0, LINE, &[1, 2, 3]), (1, PART, &[4])];

const PARENTS: &[(u64, u64)] = &[(1, 0), (2, 0), (3, 0), (4, 1)];

// The results that are numbers, and those that are faults. Of `due` of 2 and 3, of `Open` and of `Other` there is none.
const RESULTS: &[(u64, u32, i64)] = &[
    (0, TOTAL, 12),
    (1, COST, 10),
    (2, COST, 10),
    (3, COST, 4),
    (1, LATE, 1),
];

const FAULTS: &[(u64, u32, Fault)] = &[
    (2, LATE, Fault::Overflow(Place::Cell(2, LATE))),
    (3, LATE, Fault::Cycle),
    (1, DUE, Fault::Overflow(Place::Cell(1, DUE))),
    (0, LOOP, Fault::Cycle),
    (0, BAD, Fault::ZeroDivisor(Place::Cell(0, BAD))),
];

fn line_columns(alloc: Global) -> Tree {
    let tree = with_objects(alloc, root_column(alloc), "$", "Line");
    let tree = with_state(alloc, tree, "Line", "price", Kind::Number, false);
    let tree = with_state(alloc, tree, "Line", "tag", Kind::Text, false);
    let tree = with_state(alloc, tree, "Line", "kin", Kind::Object(LINE), false);
    let tree = with_formula(alloc, tree, "Line", "cost", Kind::Number);
    let tree = with_formula(alloc, tree, "Line", "late", Kind::Number);
    with_formula(alloc, tree, "Line", "due", Kind::Number)
}

fn columns(alloc: Global) -> Result<Columns, NoMemory> {
    let tree = with_objects(alloc, line_columns(alloc), "Line", "Part");
    let tree = with_state(alloc, tree, "$", "xs", Kind::Number, false);
    let tree = with_state(alloc, tree, "$", "bare", Kind::Number, false);
    let tree = with_formula(alloc, tree, "$", "total", Kind::Number);
    let tree = with_formula(alloc, tree, "$", "Loop", Kind::Number);
    let tree = with_formula(alloc, tree, "$", "Bad", Kind::Number);
    let tree = with_formula(alloc, tree, "$", "Open", Kind::Number);
    match with_formula(alloc, tree, "$", "Other", Kind::Number) {
        Ok(columns) => Ok(columns),
        Err(_) => Err(NoMemory),
    }
}

fn numbers(alloc: Global, numbers: &[i64]) -> Result<Set, NoMemory> {
    let mut set = Set::empty(alloc);
    for number in numbers {
        set.insert(Value::Number(*number))?;
    }
    Ok(set)
}

fn objects(alloc: Global, numbers: &[u64]) -> Result<Set, NoMemory> {
    let mut set = Set::empty(alloc);
    for number in numbers {
        set.insert(Value::Object(*number))?;
    }
    Ok(set)
}

fn texts(alloc: Global, words: &[&str]) -> Result<Set, NoMemory> {
    let mut set = Set::empty(alloc);
    for word in words {
        if word.len() <= 1000 {
            set.insert(Value::Text(Name::of(alloc, word)?))?;
        }
    }
    Ok(set)
}

fn cells(alloc: Global) -> Result<Vec<Row<Set>>, NoMemory> {
    let mut rows = Vec::new(alloc);
    for (object, column, held) in NUMBERS {
        push(&mut rows, *object, *column, numbers(alloc, held))?;
    }
    for (object, column, held) in TEXTS {
        push(&mut rows, *object, *column, texts(alloc, held))?;
    }
    for (object, column, held) in OBJECTS {
        push(&mut rows, *object, *column, objects(alloc, held))?;
    }
    Ok(rows)
}

fn push(
    rows: &mut Vec<Row<Set>>,
    object: u64,
    column: u32,
    held: Result<Set, NoMemory>,
) -> Result<(), NoMemory> {
    let held = held?;
    rows.push(Row {
        object,
        column,
        held,
    })?;
    Ok(())
}

fn children(alloc: Global) -> Result<Vec<Row<Set>>, NoMemory> {
    let mut rows = Vec::new(alloc);
    for (object, column, held) in EXTENTS {
        push(&mut rows, *object, *column, objects(alloc, held))?;
    }
    Ok(rows)
}

fn parents(alloc: Global) -> Result<Vec<Row<u64>>, NoMemory> {
    let mut rows = Vec::new(alloc);
    for (object, parent) in PARENTS {
        rows.push(Row {
            object: *object,
            column: 0,
            held: *parent,
        })?;
    }
    Ok(rows)
}

fn push_result(
    rows: &mut Vec<Row<Result<Set, Fault>>>,
    object: u64,
    column: u32,
    held: Result<Set, Fault>,
) -> Result<(), NoMemory> {
    rows.push(Row {
        object,
        column,
        held,
    })?;
    Ok(())
}

fn worked(alloc: Global) -> Result<Vec<Row<Result<Set, Fault>>>, NoMemory> {
    let mut rows = Vec::new(alloc);
    for (object, column, number) in RESULTS {
        let set = Set::one(alloc, Value::Number(*number))?;
        push_result(&mut rows, *object, *column, Ok(set))?;
    }
    for (object, column, fault) in FAULTS {
        push_result(&mut rows, *object, *column, Err(*fault))?;
    }
    Ok(rows)
}

fn content(alloc: Global) -> Result<Content, NoMemory> {
    let cells = cells(alloc)?;
    let children = children(alloc)?;
    let parents = parents(alloc)?;
    Ok(Content {
        empty: Set::empty(alloc),
        cells,
        children,
        parents,
        worked: worked(alloc)?,
    })
}

// `it` is line 1, `pair` that and an object that isn't live, and `words` two texts.
fn variables(alloc: Global) -> Result<Variables, NoMemory> {
    let mut variables = Variables::new(alloc);
    variables.push(objects(alloc, &[1])?)?;
    variables.push(objects(alloc, &[1, 9])?)?;
    variables.push(texts(alloc, &["v", "w"])?)?;
    Ok(variables)
}

/// The shop.
pub fn make_shop(alloc: Global) -> Result<Shop, NoMemory> {
    let variables = variables(alloc)?;
    let content = content(alloc)?;
    Ok(Shop {
        columns: columns(alloc)?,
        content,
        variables,
    })
}
