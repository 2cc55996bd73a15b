// What holds of all resolved statements, procedures and views.
ghost use Rattle.sheet_types_bodies.specs.Rules.{StatementsAreTyped, ProceduresAreTyped, ViewsAreTyped};

use sheet_types_formulas::typed_formulas_have_their_kinds;

/// Resolved statements are well typed, where the variables before them have their types, and are numbered in order.
pub fn resolved_statements_are_well_typed()
    ensures { StatementsAreTyped }
{
    typed_formulas_have_their_kinds();
}

/// Resolved procedures are well typed, where the types of the columns are those that the columns say.
pub fn resolved_procedures_are_well_typed()
    ensures { ProceduresAreTyped }
{
    typed_formulas_have_their_kinds();
}

/// Resolved views are well typed, where the types of the columns are those that the columns say.
pub fn resolved_views_are_well_typed()
    ensures { ViewsAreTyped }
{
    typed_formulas_have_their_kinds();
}
