// The formulas of columns, and the columns with their last types.
ghost use Rattle.std.specs.Prelude.{◌≡◌, ◌<◌, length, option_map, IfOk};
ghost use Rattle.sheet_columns.specs.Tree.{path};
ghost use Rattle.sheet_types_formulas.specs.Answers.{Answers};
ghost use Rattle.sheet_types_formulas.specs.Kinds.{kind_text as text_of};
ghost use Rattle.sheet_types.specs.Elaboration.{judged as judged_column, column_formula as formula_of_column, column_body as body_of_column};

use sheet_columns::{Columns, Core};
use sheet_syntax_trees::Tree;
use sheet_types_formulas::{
    Scope, TypeRefusal, Variable, common_kind, kind_at, kind_text, type_formula,
};
use sheet_values::{Kind, Name, NoMemory};
use std::alloc::Global;

// The refusal of a column of the first type whose formula has the second.
fn declared_other(
    alloc: Global,
    columns: &Columns,
    column: u32,
    kind: Kind,
    found: Kind,
) -> Result<TypeRefusal, NoMemory>
    requires { column < length columns.now }
    ensures { IfOk result (λ refusal. refusal ≡ TypeRefusal.DeclaredOther (path columns.now column) (text_of columns.now kind) (text_of columns.now found)) }
{
    let path = columns.path_text(column)?;
    let declared = kind_text(alloc, columns, kind)?;
    let found = kind_text(alloc, columns, found)?;
    Ok(TypeRefusal::DeclaredOther(path, declared, found))
}

// Whether a column of that type may have a formula of the other: `NeedsType` where its type isn't known, `DeclaredOther` where the
// formula's is known and another.
fn check_declared(
    alloc: Global,
    columns: &Columns,
    column: u32,
    kind: Kind,
    found: Kind,
) -> Result<(), TypeRefusal>
    requires { column < length columns.now }
    ensures { Answers result (judged_column columns.now column kind found) }
{
    if matches!(kind, Kind::Unknown) {
        return Err(TypeRefusal::NeedsType(columns.path_text(column)?));
    }
    if common_kind(kind, found).is_some() {
        return Ok(());
    }
    Err(declared_other(alloc, columns, column, kind, found)?)
}

// The formula of a column.
fn column_formula(
    alloc: Global,
    columns: &Columns,
    kinds: &[Kind],
    column: u32,
    tree: &Tree,
) -> Result<Core, TypeRefusal>
    requires not_root { 0 < column }
    requires counted { column < length columns.now }
    ensures { Answers result (formula_of_column columns.now kinds.now column tree.now) }
{
    let this = Variable {
        name: Name::of(alloc, "this")?,
        kind: Kind::Object(columns.above(column)),
    };
    let variables = [this];
    let scope = Scope {
        columns,
        kinds,
        variables: &variables,
    };
    let typed = type_formula(alloc, &scope, tree)?;
    check_declared(alloc, columns, column, kind_at(kinds, column), typed.kind)?;
    Ok(typed.core)
}

/// The formula of a column, where it is written with one.
pub(crate) fn column_body(
    alloc: Global,
    columns: &Columns,
    kinds: &[Kind],
    column: u32,
    formula: Option<&Tree>,
) -> Result<Option<Core>, TypeRefusal>
    requires not_root { 0 < column }
    requires counted { column < length columns.now }
    ensures { Answers result (body_of_column columns.now kinds.now column (option_map (λ tree. tree.now) formula.entry)) }
{
    match formula {
        None => Ok(None),
        Some(tree) => {
            let core = column_formula(alloc, columns, kinds, column, tree)?;
            Ok(Some(core))
        }
    }
}
