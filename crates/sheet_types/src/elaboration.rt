// Definitions elaborated.
ghost use Rattle.std.specs.Prelude.{◌≡◌, ◌≤◌, length, OnOk};
ghost use Rattle.sheet_columns.specs.Tree.{IsTree};
ghost use Rattle.sheet_types_formulas.specs.Answers.{Answers};
ghost use Rattle.sheet_types_outline.specs.Orderly.{IsOrderly};
ghost use Rattle.sheet_types_rounds.specs.Rounds.{formulas_of, final_kinds as final_kinds_of};
ghost use Rattle.sheet_types.specs.Elaboration.{elaborated, with_kinds as columns_with_kinds};

use crate::bodies::judge_all;
use crate::law::books_are_well_typed;
use sheet_books::{Book, Contents};
use sheet_columns::{Column, Columns};
use sheet_define_data::Definition;
use sheet_types_formulas::{TypeRefusal, kind_at};
use sheet_types_outline::{outline_definition, outlines_are_within};
use sheet_types_rounds::{column_kinds, final_kinds};
use sheet_values::{Kind, NoMemory};
use std::alloc::Global;

// Gives formula columns these types.
fn fill(columns: &mut Columns, kinds: &[Kind])
    ensures filled { columns.new ≡ columns_with_kinds kinds.now 0 columns.old }
    ensures tree { IsTree columns.old }
{
    for number in 0..columns.count() {
        if matches!(columns.get(number), Column::Formula { .. }) {
            let kind = kind_at(kinds, number);
            columns.set(number, Column::Formula { kind });
        }
    }
}

// Gives formula columns the types that the rounds find.
fn settle(alloc: Global, columns: &mut Columns, definition: &Definition) -> Result<(), NoMemory>
    requires { length (formulas_of definition.now.declarations) ≤ length columns.old }
    ensures settled { OnOk result (columns.new ≡ columns_with_kinds (final_kinds_of columns.old (formulas_of definition.now.declarations)) 0 columns.old) }
    ensures tree { OnOk result (IsTree columns.old) }
{
    let kinds = final_kinds(alloc, columns, definition)?;
    fill(columns, kinds.as_slice());
    Ok(())
}

/// The book of a definition.
///
/// The first refusal of three passes, each in the order of the text, comes. The first two are those of `outline_definition`: names,
/// then types and first values. The third goes over formulas, under the types that the rounds give: `UnknownName` with the line of
/// a name that means nothing; `Mismatch` with the line of the part at fault, the wanted type or kind of column, and the one found;
/// and behind the formula of a column `NeedsType` with its path where its type isn't known, or `DeclaredOther` with its path, its
/// declared type and its formula's.
pub fn elaborate(alloc: Global, definition: &Definition) -> Result<Book, TypeRefusal>
    requires { IsOrderly definition.now.declarations }
    ensures { Answers result (elaborated definition.now) }
{
    outlines_are_within();
    books_are_well_typed();
    let mut outline = outline_definition(alloc, definition)?;
    settle(alloc, &mut outline.columns, definition)?;
    let kinds = column_kinds(alloc, &outline.columns)?;
    let declarations = definition.declarations.as_slice();
    let bodies = judge_all(alloc, &outline, kinds.as_slice(), declarations)?;
    let book = Book::new(Contents {
        columns: outline.columns,
        callers: outline.callers,
        formulas: bodies.formulas,
        procedures: bodies.procedures,
        views: bodies.views,
    })?;
    Ok(book)
}
