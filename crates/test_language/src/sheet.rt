// Sheets, with what is asked of them and done to them.
use plain_meaning::{Stop, kept_by_view, page, view_support};
use plain_procedures::{PlainBook, act, started};
use sheet_columns::{Columns, Core, CoreParts, CoreSlot, CoreSlots, CoreView, Sequence};
use sheet_meaning::{Caller, ColumnFormula, Schema};
use sheet_values::{Name, Value};
use std::alloc::Global;
use test_language_replies::{items_text, page_text, refusal_text, set_text};
use test_language_words::{Body, Built, Scope, Tree, Trouble, column_named, formula};

/// The formulas of the formula columns.
type Formulas = Result<Sequence<ColumnFormula>, Trouble>;

/// A text, or why there is none.
pub type Told = Result<String, Trouble>;

// The formula of a column, by the names that its cells see.
fn of_column(alloc: Global, columns: &Columns, column: u32, text: &str) -> Built {
    if column == 0 || column >= columns.count() {
        return Err(Trouble::UnknownName);
    }
    let at = Scope {
        columns,
        home: Some(columns.above(column)),
        names: "this",
    };
    formula(alloc, at, text)
}

fn with(formulas: Formulas, column: u32, core: Built) -> Formulas {
    let mut formulas = formulas?;
    let core = core?;
    formulas.push(ColumnFormula { column, core })?;
    Ok(formulas)
}

fn formulas_of(alloc: Global, columns: &Columns, texts: &[(&str, &str)]) -> Formulas {
    let mut formulas = Ok(Sequence::new(alloc));
    for (title, text) in texts {
        let Some(column) = column_named(columns, title.as_bytes()) else {
            return Err(Trouble::UnknownName);
        };
        formulas = with(formulas, column, of_column(alloc, columns, column, text));
    }
    formulas
}

/// A schema of these columns, with the names and the texts of the formula columns in order.
pub fn schema(alloc: Global, tree: Tree, texts: &[(&str, &str)]) -> Result<Schema, Trouble> {
    let columns = tree?;
    let formulas = formulas_of(alloc, &columns, texts)?;
    Ok(Schema { columns, formulas })
}

/// A workbook of a schema.
#[derive(Drop)]
pub struct Sheet<'a> {
    pub schema: &'a Schema,
    pub book: PlainBook,
}

/// A workbook with the root alone.
pub fn opened(alloc: Global, schema: &Schema) -> Result<Sheet<'_>, Trouble> {
    let state = started(alloc, schema)?;
    let kept = Vec::new(alloc);
    let book = PlainBook { state, kept };
    Ok(Sheet { schema, book })
}

/// What names stand for in a procedure or a view with these variables behind `caller operator`.
pub fn scope<'a>(schema: &'a Schema, names: &'a str) -> Scope<'a> {
    Scope {
        columns: &schema.columns,
        home: None,
        names,
    }
}

/// A procedure.
#[derive(Drop)]
pub struct Procedure {
    pub allow: Core,
    pub body: Body,
}

pub fn allowing(allow: Built, body: Body) -> Result<Procedure, Trouble> {
    let allow = allow?;
    Ok(Procedure { allow, body })
}

/// A procedure without `allow`.
pub fn open(body: Body) -> Result<Procedure, Trouble> {
    allowing(Ok(Core::Truth(true)), body)
}

/// A view.
#[derive(Drop)]
pub struct View {
    pub allow: Core,
    pub parts: CoreParts,
}

pub fn showing(allow: Built, parts: Result<CoreParts, Trouble>) -> Result<View, Trouble> {
    let parts = parts?;
    let allow = allow?;
    Ok(View { allow, parts })
}

/// No parts.
pub fn no_parts(alloc: Global) -> Result<CoreParts, Trouble> {
    Ok(Sequence::new(alloc))
}

/// A part more.
pub fn with_part(
    parts: Result<CoreParts, Trouble>,
    part: Result<CoreView, Trouble>,
) -> Result<CoreParts, Trouble> {
    let mut parts = parts?;
    parts.push(part?)?;
    Ok(parts)
}

// A name of at most 1,000 bytes.
fn name(alloc: Global, text: &str) -> Result<Name, Trouble> {
    if text.len() > 1000 {
        return Err(Trouble::Unreadable);
    }
    Ok(Name::of(alloc, text)?)
}

/// A slot: its number, its name and the text of its formula.
pub fn slot(
    alloc: Global,
    at: Scope,
    number: u32,
    title: &str,
    text: &str,
) -> Result<CoreSlot, Trouble> {
    let name = name(alloc, title)?;
    Ok(CoreSlot {
        number,
        name,
        shown: formula(alloc, at, text)?,
    })
}

/// `show n = e`
pub fn show(
    alloc: Global,
    at: Scope,
    number: u32,
    title: &str,
    text: &str,
) -> Result<CoreView, Trouble> {
    Ok(CoreView::Show(slot(alloc, at, number, title, text)?))
}

/// `table n = x in e { .. }`, with its slots.
pub fn table(
    alloc: Global,
    at: Scope,
    number: u32,
    title: &str,
    source: &str,
    slots: Result<CoreSlots, Trouble>,
) -> Result<CoreView, Trouble> {
    let name = name(alloc, title)?;
    let source = formula(alloc, at, source)?;
    Ok(CoreView::Table {
        number,
        name,
        source,
        slots: slots?,
    })
}

pub fn no_slots(alloc: Global) -> Result<CoreSlots, Trouble> {
    Ok(Sequence::new(alloc))
}

/// A slot more.
pub fn with_slot(
    slots: Result<CoreSlots, Trouble>,
    slot: Result<CoreSlot, Trouble>,
) -> Result<CoreSlots, Trouble> {
    let mut slots = slots?;
    slots.push(slot?)?;
    Ok(slots)
}

/// The operator.
pub const OPERATOR: Caller = Caller {
    object: None,
    operator: true,
};

/// A caller with an object.
pub fn member(object: u64) -> Caller {
    Caller {
        object: Some(object),
        operator: false,
    }
}

/// Calls a procedure, and tells its reply or its refusal.
pub fn called(
    alloc: Global,
    sheet: &mut Sheet,
    procedure: Result<Procedure, Trouble>,
    caller: Caller,
    arguments: &[Value],
) -> Told {
    let procedure = procedure?;
    done(alloc, sheet, &procedure, caller, arguments)
}

fn done(
    alloc: Global,
    sheet: &mut Sheet,
    procedure: &Procedure,
    caller: Caller,
    arguments: &[Value],
) -> Told {
    let schema = sheet.schema;
    let allow = &procedure.allow;
    let body = procedure.body.statements()?;
    match act(
        alloc,
        schema,
        allow,
        body,
        caller,
        arguments,
        &mut sheet.book,
    ) {
        Ok(reply) => Ok(set_text(alloc, reply.as_slice())?),
        Err(Stop::Refused(refusal)) => Ok(refusal_text(alloc, &schema.columns, &refusal)?),
        Err(Stop::NoMemory) => Err(Trouble::NoMemory),
    }
}

/// Calls statements as a procedure that all may call, for the operator and without arguments.
pub fn run(alloc: Global, sheet: &mut Sheet, body: Body) -> Told {
    called(alloc, sheet, open(body), OPERATOR, &[])
}

/// Sees a view, and tells its page or its refusal.
pub fn seen(
    alloc: Global,
    sheet: &mut Sheet,
    view: Result<View, Trouble>,
    caller: Caller,
    arguments: &[Value],
) -> Told {
    let view = view?;
    let (allow, parts) = (&view.allow, view.parts.as_slice());
    shown(alloc, sheet, allow, parts, caller, arguments)
}

fn shown(
    alloc: Global,
    sheet: &mut Sheet,
    allow: &Core,
    views: &[CoreView],
    caller: Caller,
    arguments: &[Value],
) -> Told {
    let (schema, state) = (sheet.schema, &sheet.book.state);
    let told = match page(alloc, schema, state, allow, views, caller, arguments) {
        Ok(parts) => page_text(alloc, &schema.columns, parts.as_slice())?,
        Err(Stop::Refused(refusal)) => {
            return Ok(refusal_text(alloc, &schema.columns, &refusal)?);
        }
        Err(Stop::NoMemory) => return Err(Trouble::NoMemory),
    };
    let kept = sheet.book.kept.clone()?;
    let kept = kept_by_view(alloc, schema, state, allow, views, caller, arguments, kept)?;
    sheet.book.kept = kept;
    Ok(told)
}

/// What a view rests on.
pub fn rested_on(
    alloc: Global,
    sheet: &Sheet,
    view: Result<View, Trouble>,
    caller: Caller,
    arguments: &[Value],
) -> Told {
    let view = view?;
    let (allow, parts) = (&view.allow, view.parts.as_slice());
    items_of(alloc, sheet, allow, parts, caller, arguments)
}

fn items_of(
    alloc: Global,
    sheet: &Sheet,
    allow: &Core,
    views: &[CoreView],
    caller: Caller,
    arguments: &[Value],
) -> Told {
    let (schema, state) = (sheet.schema, &sheet.book.state);
    let items = view_support(alloc, schema, state, allow, views, caller, arguments)?;
    Ok(items_text(alloc, &schema.columns, items.as_slice())?)
}

/// How many results are kept, and how many objects are live.
pub fn counts(alloc: Global, sheet: &Sheet) -> Told {
    let kept = sheet.book.kept.as_slice().len();
    let objects = sheet.book.state.objects.len();
    Ok(format!(in alloc; "kept {kept}, objects {objects}")?)
}

/// Adds a line: the example's text or name, and what it comes to.
pub fn add_line(out: &mut String, title: &str, told: Told) -> Result<(), Trouble> {
    let told = told?;
    out.push_str(title)?;
    out.push_str(": ")?;
    out.push_str(told.as_str())?;
    out.push_str("\n")?;
    Ok(())
}
