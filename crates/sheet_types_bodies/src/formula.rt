// Formulas in statements and views.
ghost use Rattle.sheet_types_formulas.specs.Answers.{Answers};
ghost use Rattle.sheet_types_formulas.specs.Typing.{typed};
ghost use Rattle.sheet_types_bodies.specs.Calls.{here};
ghost use Rattle.sheet_types_bodies.specs.Statements.{formula_of as formula_that_agrees, deletable as what_is_deleted};

use sheet_columns::{Columns, Core};
use sheet_syntax_trees::Tree;
use sheet_types_formulas::{
    Scope, TypeRefusal, Typed, Variable, agree, column_above_of, type_formula,
};
use sheet_values::Kind;
use std::alloc::Global;

/// The tree of columns, and the types of state and formula columns by number.
#[derive(Clone, Copy)]
pub(crate) struct Sheet<'a> {
    pub columns: &'a Columns,
    pub kinds: &'a [Kind],
}

/// A formula with its type.
pub(crate) fn formula(
    alloc: Global,
    sheet: &Sheet<'_>,
    variables: &[Variable],
    written: &Tree,
) -> Result<Typed, TypeRefusal>
    ensures { Answers result (typed written.now (here sheet.now variables.now)) }
{
    let scope = Scope {
        columns: sheet.columns,
        kinds: sheet.kinds,
        variables,
    };
    type_formula(alloc, &scope, written)
}

/// A formula that must agree with the type.
#[tactic(auto, unfolding(crate::specs::Statements::formula_of))]
pub(crate) fn formula_of(
    alloc: Global,
    sheet: &Sheet<'_>,
    variables: &[Variable],
    wanted: Kind,
    written: &Tree,
) -> Result<Core, TypeRefusal>
    ensures { Answers result (formula_that_agrees wanted written.now (here sheet.now variables.now)) }
{
    let found = formula(alloc, sheet, variables, written)?;
    agree(alloc, sheet.columns, wanted, &found)?;
    Ok(found.core)
}

/// What is deleted: objects below the root, or a set whose type isn't known.
#[tactic(auto, unfolding(crate::specs::Statements::deletable))]
pub(crate) fn deletable(alloc: Global, sheet: &Sheet<'_>, found: Typed) -> Result<Core, TypeRefusal>
    ensures { Answers result (what_is_deleted sheet.now.columns.now found) }
{
    if let Kind::Unknown = found.kind {
        return Ok(found.core);
    }
    column_above_of(alloc, sheet.columns, &found)?;
    Ok(found.core)
}
