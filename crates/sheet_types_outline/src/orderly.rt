// Whether a text may stand for a definition, as far as names, numbers and depths go.
ghost use Rattle.std.specs.Prelude.{◌≡◌, ◌↔◌, IsTrue};
ghost use Rattle.sheet_types_outline.specs.Orderly.{IsUnsigned, IsUnsignedFirst, IsOrderlyColumn, IsOrderlyAt, IsOrderly, count_behind as open_behind};

use sheet_define_data::{Column, Content, Declaration, Definition, Literal};

/// The greatest length of a column's name, in bytes.
const LONGEST_NAME: usize = 63;

/// The greatest number of parameters of a procedure or a view.
const MOST_PARAMETERS: usize = 16;

// Whether a number behind a minus sign has no sign of its own.
fn is_unsigned(literal: &Literal) -> bool
    ensures { IsTrue result ↔ IsUnsigned literal.now }
{
    match literal {
        Literal::Negative(_, number) => *number >= 0,
        Literal::Number(_, _) | Literal::Text(_, _) | Literal::Truth(_, _) => true,
    }
}

fn is_unsigned_first(content: &Content) -> bool
    ensures { IsTrue result ↔ IsUnsignedFirst content.now }
{
    match content {
        Content::State {
            first: Some(literal),
            ..
        } => is_unsigned(literal),
        Content::Object | Content::State { first: None, .. } | Content::Formula { .. } => true,
    }
}

fn is_orderly_column(count: usize, column: &Column) -> bool
    ensures { IsTrue result ↔ IsOrderlyColumn count column.now }
{
    column.name.bytes().len() <= LONGEST_NAME
        && (column.depth as usize) < count
        && is_unsigned_first(&column.content)
}

fn is_orderly_at(count: usize, declaration: &Declaration) -> bool
    ensures { IsTrue result ↔ IsOrderlyAt count declaration.now }
{
    match declaration {
        Declaration::Column(column) => is_orderly_column(count, column),
        Declaration::Procedure(procedure) => procedure.parameters.len() <= MOST_PARAMETERS,
        Declaration::View(view) => view.parameters.len() <= MOST_PARAMETERS,
        Declaration::Callers { .. } => true,
    }
}

// How many object columns are open behind a declaration.
fn count_behind(count: usize, declaration: &Declaration) -> usize
    ensures { result ≡ open_behind count declaration.now }
{
    match declaration {
        Declaration::Column(column) => match column.content {
            Content::Object => column.depth as usize + 2,
            Content::State { .. } | Content::Formula { .. } => column.depth as usize + 1,
        },
        Declaration::Callers { .. } | Declaration::Procedure(_) | Declaration::View(_) => count,
    }
}

/// Whether a definition is one that an outline is made of: names of columns have at most 63 bytes, each column stands in object
/// columns that are open before it, a number behind a minus sign has no sign of its own, and procedures and views have at most 16
/// parameters. So is every definition that a text stands for.
pub fn is_orderly(definition: &Definition) -> bool
    ensures { IsTrue result ↔ IsOrderly definition.now.declarations }
{
    let mut count = 1;
    for declaration in definition.declarations.as_slice() {
        if !is_orderly_at(count, declaration) {
            return false;
        }
        count = count_behind(count, declaration);
    }
    true
}
