// The schema of the plain program, made of the same formulas by another reader of names.
use sheet_columns::{Columns, Sequence};
use sheet_meaning::{ColumnFormula, Schema};
use sheet_values::Kind;
use std::alloc::Global;
use test_language_words::{
    Built, Scope, Tree, Trouble, formula, root_column, with_formula, with_objects, with_state,
};

// The column `T`, and its column `U`.
const T: Kind = Kind::Object(1);

const U: Kind = Kind::Object(4);

// The columns of `T` and below.
fn lower_columns(alloc: Global) -> Tree {
    let tree = with_objects(alloc, root_column(alloc), "$", "T");
    let tree = with_state(alloc, tree, "T", "k", Kind::Number, true);
    let tree = with_state(alloc, tree, "T", "r", T, false);
    let tree = with_objects(alloc, tree, "T", "U");
    let tree = with_state(alloc, tree, "U", "m", Kind::Number, false);
    let tree = with_state(alloc, tree, "U", "q", T, false);
    let tree = with_formula(alloc, tree, "U", "un", Kind::Number);
    let tree = with_formula(alloc, tree, "U", "ut", T);
    let tree = with_formula(alloc, tree, "T", "tn", Kind::Number);
    let tree = with_formula(alloc, tree, "T", "tb", Kind::Truth);
    let tree = with_formula(alloc, tree, "T", "ts", Kind::Text);
    let tree = with_formula(alloc, tree, "T", "tt", T);
    with_formula(alloc, tree, "T", "tu", U)
}

// All columns.
fn columns(alloc: Global) -> Tree {
    let tree = with_state(alloc, lower_columns(alloc), "$", "n", Kind::Number, false);
    let tree = with_formula(alloc, tree, "$", "rn", Kind::Number);
    let tree = with_formula(alloc, tree, "$", "rb", Kind::Truth);
    let tree = with_formula(alloc, tree, "$", "rs", Kind::Text);
    let tree = with_formula(alloc, tree, "$", "rt", T);
    with_formula(alloc, tree, "$", "ru", U)
}

// The formula columns, each with the column above it.
const FORMULAS: [(u32, u32); 12] = [
    (7, 4),
    (8, 4),
    (9, 1),
    (10, 1),
    (11, 1),
    (12, 1),
    (13, 1),
    (15, 0),
    (16, 0),
    (17, 0),
    (18, 0),
    (19, 0),
];

// A formula by the names that its cells see.
fn formula_of(alloc: Global, columns: &Columns, home: u32, text: &[u8]) -> Built {
    let at = Scope {
        columns,
        home: Some(home),
        names: "this",
    };
    formula(alloc, at, str::from_utf8(text).unwrap_or("?"))
}

type Formulas = Result<Sequence<ColumnFormula>, Trouble>;

// One formula more.
fn with(formulas: Formulas, column: u32, core: Built) -> Formulas {
    let mut formulas = formulas?;
    let core = core?;
    formulas.push(ColumnFormula { column, core })?;
    Ok(formulas)
}

// The formulas of all formula columns.
fn formulas_of(alloc: Global, columns: &Columns, texts: &[Vec<u8>]) -> Formulas {
    let mut formulas = Ok(Sequence::new(alloc));
    for ((column, home), text) in FORMULAS.iter().zip(texts) {
        let core = formula_of(alloc, columns, *home, text.as_slice());
        formulas = with(formulas, *column, core);
    }
    formulas
}

/// The schema with these formulas.
pub fn schema(alloc: Global, texts: &[Vec<u8>]) -> Result<Schema, Trouble> {
    let columns = columns(alloc)?;
    let formulas = formulas_of(alloc, &columns, texts)?;
    Ok(Schema { columns, formulas })
}
