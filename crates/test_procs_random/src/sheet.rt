// Workbooks of the plain program.
use plain_procedures::{PlainBook, started};
use sheet_columns::{Column, Columns, Sequence};
use sheet_define::read_definition;
use sheet_define_data::{Column as Declared, Content, Declaration};
use sheet_meaning::{ColumnFormula, Schema};
use sheet_syntax::Tree;
use sheet_values::{NoMemory, Value};
use std::alloc::Global;
use test_language_words::{
    Built, Scope, Tree as Columned, Trouble, built, root_column, with_column,
};

/// The formulas of the formula columns.
type Formulas = Result<Sequence<ColumnFormula>, Trouble>;

/// A workbook of the plain program.
#[derive(Drop)]
pub struct Sheet {
    pub schema: Schema,
    pub book: PlainBook,
}

fn copied_first(first: &Option<Value>) -> Result<Option<Value>, NoMemory> {
    match first {
        Some(value) => Ok(Some(value.copy()?)),
        None => Ok(None),
    }
}

fn copied(column: &Column) -> Result<Column, NoMemory> {
    match column {
        Column::Object => Ok(Column::Object),
        Column::State { kind, one, first } => Ok(Column::State {
            kind: *kind,
            one: *one,
            first: copied_first(first)?,
        }),
        Column::Formula { kind } => Ok(Column::Formula { kind: *kind }),
    }
}

// With a copy of a column that isn't the root.
fn with_copy(alloc: Global, tree: Columned, columns: &Columns, column: u32) -> Columned {
    if column == 0 || column >= columns.count() {
        return tree;
    }
    let above = columns.above(column);
    let title = columns.name(column).text();
    match copied(columns.get(column)) {
        Ok(copy) => with_column(alloc, tree, columns.name(above).text(), title, copy),
        Err(NoMemory) => Err(Trouble::NoMemory),
    }
}

// A copy of columns no two of which share a name.
fn copied_columns(alloc: Global, columns: &Columns) -> Columned {
    let mut tree = root_column(alloc);
    for column in 1..columns.count() {
        tree = with_copy(alloc, tree, columns, column);
    }
    tree
}

// The formula of a column.
fn of_column(alloc: Global, columns: &Columns, column: u32, formula: &Tree) -> Built {
    if column == 0 || column >= columns.count() {
        return Err(Trouble::UnknownName);
    }
    let at = Scope {
        columns,
        home: Some(columns.above(column)),
        names: "this",
    };
    built(alloc, at, formula)
}

fn with(formulas: Formulas, column: u32, core: Built) -> Formulas {
    let mut formulas = formulas?;
    let core = core?;
    formulas.push(ColumnFormula { column, core })?;
    Ok(formulas)
}

// With the formula of a declared column, where it has one.
fn with_declared(
    alloc: Global,
    formulas: Formulas,
    columns: &Columns,
    column: u32,
    declared: &Declared,
) -> Formulas {
    match &declared.content {
        Content::Formula { values: _, formula } => {
            with(formulas, column, of_column(alloc, columns, column, formula))
        }
        _ => formulas,
    }
}

// The formulas of declarations, in the order of their columns.
fn formulas_of(alloc: Global, columns: &Columns, declarations: &[Declaration]) -> Formulas {
    let mut formulas = Ok(Sequence::new(alloc));
    let mut column: u32 = 0;
    for declaration in declarations {
        if let Declaration::Column(declared) = declaration {
            column = column.saturating_add(1);
            formulas = with_declared(alloc, formulas, columns, column, declared);
        }
    }
    formulas
}

// The formulas of the definition that a text stands for.
fn formulas(alloc: Global, columns: &Columns, text: &[u8]) -> Formulas {
    match read_definition(alloc, text) {
        Ok(definition) => formulas_of(alloc, columns, definition.declarations.as_slice()),
        Err(_) => Err(Trouble::Unreadable),
    }
}

fn schema_of(columns: Columned, formulas: Formulas) -> Result<Schema, Trouble> {
    let columns = columns?;
    Ok(Schema {
        columns,
        formulas: formulas?,
    })
}

fn opened(alloc: Global, schema: Schema) -> Result<Sheet, Trouble> {
    let state = started(alloc, &schema)?;
    let kept = Vec::new(alloc);
    Ok(Sheet {
        schema,
        book: PlainBook { state, kept },
    })
}

/// The workbook of a definition at its start. Its columns are given, and no two of them share a name.
pub fn start_sheet(alloc: Global, columns: &Columns, text: &[u8]) -> Result<Sheet, Trouble> {
    let schema = schema_of(
        copied_columns(alloc, columns),
        formulas(alloc, columns, text),
    )?;
    opened(alloc, schema)
}
