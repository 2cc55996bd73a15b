// The types that stand in a definition, and first values.
ghost use Rattle.std.specs.Prelude.{◌≡◌, ◌<◌, length, IfOk};
ghost use Rattle.sheet_types_formulas.specs.Answers.{Answers};
ghost use Rattle.sheet_types_outline.specs.Orderly.{IsUnsigned, IsUnsignedIfAny, IsUnsignedFirst};
ghost use Rattle.sheet_types_outline.specs.Types.{follow, is_object_column, if_object_column, object_column_at, kind_of, declared_kind, literal_line, literal_kind, literal_value, first_value, state_column, column_content};

use sheet_columns::{Column, Columns};
use sheet_define_data::{Content, Literal, Path, TypeName};
use sheet_types_formulas::{TypeRefusal, kind_text};
use sheet_values::{Kind, Name, NoMemory, Value};
use std::alloc::Global;

// The column that names lead to, from the root down.
fn follow(columns: &Columns, names: &[Name]) -> Option<u32>
    ensures { result ≡ follow columns.now 0 names.now }
{
    let mut column = 0;
    for name in names {
        column = columns.child_named(column, name.bytes())?;
    }
    Some(column)
}

fn is_object_column(columns: &Columns, column: u32) -> bool
    ensures { result ≡ is_object_column columns.now column }
{
    column < columns.count() && matches!(columns.get(column), Column::Object)
}

/// The object column at a path, which goes from the root down. `UnknownName` with the path's line where there is none.
pub(crate) fn object_column_at(columns: &Columns, path: &Path) -> Result<u32, TypeRefusal>
    ensures { result ≡ object_column_at columns.now path.now }
{
    match follow(columns, path.names.as_slice()) {
        Some(column) => {
            if is_object_column(columns, column) {
                Ok(column)
            } else {
                Err(TypeRefusal::UnknownName(path.line))
            }
        }
        None => Err(TypeRefusal::UnknownName(path.line)),
    }
}

/// The type that stands there. `UnknownName` with the line of a path that leads to no object column.
pub(crate) fn kind_of(columns: &Columns, values: &TypeName) -> Result<Kind, TypeRefusal>
    ensures { result ≡ kind_of columns.now values.now }
{
    match values {
        TypeName::Number => Ok(Kind::Number),
        TypeName::Text => Ok(Kind::Text),
        TypeName::Truth => Ok(Kind::Truth),
        TypeName::Object(path) => match object_column_at(columns, path) {
            Ok(column) => Ok(Kind::Object(column)),
            Err(refusal) => Err(refusal),
        },
    }
}

// The type of a formula column, which is unknown where none is declared.
fn declared_kind(columns: &Columns, values: &Option<TypeName>) -> Result<Kind, TypeRefusal>
    ensures { result ≡ declared_kind columns.now values.now }
{
    match values {
        Some(values) => kind_of(columns, values),
        None => Ok(Kind::Unknown),
    }
}

fn literal_line(literal: &Literal) -> u32
    ensures { result ≡ literal_line literal.now }
{
    match literal {
        Literal::Number(line, _)
        | Literal::Negative(line, _)
        | Literal::Text(line, _)
        | Literal::Truth(line, _) => *line,
    }
}

fn literal_kind(literal: &Literal) -> Kind
    ensures { result ≡ literal_kind literal.now }
{
    match literal {
        Literal::Number(_, _) | Literal::Negative(_, _) => Kind::Number,
        Literal::Text(_, _) => Kind::Text,
        Literal::Truth(_, _) => Kind::Truth,
    }
}

fn literal_value(literal: &Literal) -> Result<Value, NoMemory>
    requires { IsUnsigned literal.now }
    ensures { IfOk result (λ value. value ≡ literal_value literal.now) }
{
    match literal {
        Literal::Number(_, number) => Ok(Value::Number(*number)),
        Literal::Negative(_, number) => Ok(Value::Number(-*number)),
        Literal::Text(_, text) => Ok(Value::Text(text.copy()?)),
        Literal::Truth(_, truth) => Ok(Value::Truth(*truth)),
    }
}

// The first value of a state column of that type. `Mismatch` where it has another type.
fn first_value(
    alloc: Global,
    columns: &Columns,
    kind: Kind,
    literal: &Literal,
) -> Result<Value, TypeRefusal>
    requires { IsUnsigned literal.now }
    ensures { Answers result (first_value columns.now kind literal.now) }
{
    let found = literal_kind(literal);
    if kind == found {
        return Ok(literal_value(literal)?);
    }
    let wanted = kind_text(alloc, columns, kind)?;
    let found = kind_text(alloc, columns, found)?;
    Err(TypeRefusal::Mismatch(literal_line(literal), wanted, found))
}

// A state column of that type. `NeedsFirst` where it is of one value, stands directly under the root and has no first value;
// `Mismatch` where the first value has another type.
fn state_column(
    alloc: Global,
    columns: &Columns,
    number: u32,
    depth: u32,
    one: bool,
    first: &Option<Literal>,
    kind: Kind,
) -> Result<Column, TypeRefusal>
    requires counted { number < length columns.now }
    requires unsigned { IsUnsignedIfAny first.now }
    ensures { Answers result (state_column columns.now number depth one first.now kind) }
{
    let first = match first {
        Some(literal) => Some(first_value(alloc, columns, kind, literal)?),
        None if one && depth == 0 => {
            return Err(TypeRefusal::NeedsFirst(columns.path_text(number)?));
        }
        None => None,
    };
    Ok(Column::State { kind, one, first })
}

/// What the column of that number and depth holds. The refusals of a state column are, in this order, `UnknownName` for its
/// type, `Mismatch` for its first value, and `NeedsFirst`; a formula column has `UnknownName` for its declared type.
pub(crate) fn column_content(
    alloc: Global,
    columns: &Columns,
    number: u32,
    depth: u32,
    content: &Content,
) -> Result<Column, TypeRefusal>
    requires counted { number < length columns.now }
    requires unsigned { IsUnsignedFirst content.now }
    ensures { Answers result (column_content columns.now number depth content.now) }
{
    match content {
        Content::Object => Ok(Column::Object),
        Content::State { values, one, first } => {
            let kind = kind_of(columns, values)?;
            state_column(alloc, columns, number, depth, *one, first, kind)
        }
        Content::Formula { values, .. } => Ok(Column::Formula {
            kind: declared_kind(columns, values)?,
        }),
    }
}
