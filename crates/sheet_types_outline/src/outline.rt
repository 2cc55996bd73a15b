// The outline of a definition.
ghost use Rattle.sheet_types_formulas.specs.Answers.{Answers};
ghost use Rattle.sheet_types_outline.specs.Orderly.{IsOrderly};
ghost use Rattle.sheet_types_outline.specs.Outlines.{outlined};

use crate::naming::name_all;
use crate::resolving::resolve_all;
use sheet_columns::{Columns, Parameters, Sequence};
use sheet_define_data::Definition;
use sheet_types_formulas::TypeRefusal;
use std::alloc::Global;

/// All that a definition tells without a look at its formulas.
#[derive(Debug, Drop)]
pub struct Outline {
    /// The columns. The number of a column is its place among the columns of the text, from 1; the root is 0. A formula column has
    /// its declared kind, or none is known.
    pub columns: Columns,
    /// The object column of the callers; 0 where none is named.
    pub callers: u32,
    /// The parameters of each procedure, in the order of the text.
    pub procedures: Sequence<Parameters>,
    /// The parameters of each view, in the order of the text.
    pub views: Sequence<Parameters>,
}

/// The outline of a definition.
///
/// First all names are judged, and the first refusal in the text comes: `Doubled` with the line of a name that stands in its place
/// already, or of a second `callers`; `TooDeep` with the line of a column nine below the root; `TooMany` with that of the 1,001st
/// column, the root counted; of one column in this order. The line is that of the word that begins the production, and of a
/// parameter that of its name.
///
/// Then types and first values are judged, and again the first refusal in the text comes: `UnknownName` with the line of a path
/// that leads to no object column; `Mismatch` with the line of a first value of another type than its column's, that type and
/// the value's; `NeedsFirst` with the path of a column of one value that stands directly under the root and has no first value;
/// of one column in this order.
pub fn outline_definition(alloc: Global, definition: &Definition) -> Result<Outline, TypeRefusal>
    requires { IsOrderly definition.now.declarations }
    ensures { Answers result (outlined definition.now) }
{
    let declarations = definition.declarations.as_slice();
    let mut columns = name_all(alloc, declarations)?.into_columns();
    let resolved = resolve_all(alloc, &columns, declarations)?;
    resolved.contents.fill(&mut columns);
    Ok(Outline {
        columns,
        callers: resolved.callers,
        procedures: resolved.procedures,
        views: resolved.views,
    })
}
