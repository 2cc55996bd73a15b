// Targets of statements.
ghost use Rattle.std.specs.Prelude.{◌≡◌, ◌<◌, ◌≤◌, [], length, Err, IfOk};
ghost use Rattle.sheet_columns.specs.Tree.{column_of};
ghost use Rattle.sheet_types_formulas.specs.Answers.{Answers};
ghost use Rattle.sheet_types_bodies.specs.Calls.{here};
ghost use Rattle.sheet_types_bodies.specs.Targets.{holder as holder_of, column_under as column_under_it, target as target_of, on_state, on_objects, state_target as state_target_of, objects_target as objects_target_of, other_column as other_column_of};

use crate::formula::{Sheet, formula};
use sheet_columns::{Column, Core, Target as CoreTarget};
use sheet_define_data::Target;
use sheet_syntax_trees::Tree;
use sheet_types_formulas::{TypeRefusal, Variable, object_column_of};
use sheet_values::Name;
use std::alloc::Global;

// What stands before the last dot, and the column of its objects; where nothing stands there, the root.
#[tactic(auto, unfolding(crate::specs::Targets::holder))]
fn holder(
    alloc: Global,
    sheet: &Sheet<'_>,
    variables: &[Variable],
    object: &Option<Tree>,
) -> Result<(Core, u32), TypeRefusal>
    ensures { Answers result (holder_of object.now (here sheet.now variables.now)) }
{
    let Some(written) = object else {
        return Ok((Core::Root, 0));
    };
    let found = formula(alloc, sheet, variables, written)?;
    let above = object_column_of(alloc, sheet.columns, &found)?;
    Ok((found.core, above))
}

// The column of that name directly under the one of these objects.
#[tactic(auto, unfolding(crate::specs::Targets::column_under))]
fn column_under(
    sheet: &Sheet<'_>,
    line: u32,
    name: &Name,
    object: Core,
    above: u32,
) -> Result<CoreTarget, TypeRefusal>
    ensures told { Answers result (column_under_it name.now line (here sheet.now []) (object, above)) }
    ensures within { IfOk result (λ target. target.column < length sheet.now.columns.now) }
{
    match sheet.columns.child_named(above, name.bytes()) {
        Some(column) => Ok(CoreTarget { object, column }),
        None => Err(TypeRefusal::UnknownName(line)),
    }
}

// A target, `e.c` or `c` alone.
#[tactic(auto, unfolding(crate::specs::Targets::target, crate::specs::Targets::column_under))]
fn target(
    alloc: Global,
    sheet: &Sheet<'_>,
    variables: &[Variable],
    written: &Target,
) -> Result<CoreTarget, TypeRefusal>
    ensures told { Answers result (target_of written.now (here sheet.now variables.now)) }
    ensures within { IfOk result (λ target. target.column < length sheet.now.columns.now) }
{
    let (object, above) = holder(alloc, sheet, variables, &written.object)?;
    column_under(sheet, written.line, &written.column, object, above)
}

// The refusal of a target of another kind of column.
fn other_column(
    alloc: Global,
    line: u32,
    wanted: &str,
    found: &str,
) -> Result<CoreTarget, TypeRefusal>
    requires wanted { length wanted.now ≤ 1000 }
    requires found { length found.now ≤ 1000 }
    ensures { Answers result (Err (other_column_of line wanted.now found.now)) }
{
    let wanted = Name::of(alloc, wanted)?;
    let found = Name::of(alloc, found)?;
    Err(TypeRefusal::Mismatch(line, wanted, found))
}

// The test that a target is a state column.
#[tactic(auto, unfolding(crate::specs::Targets::on_state))]
fn require_state(
    alloc: Global,
    line: u32,
    found: CoreTarget,
    column: &Column,
) -> Result<CoreTarget, TypeRefusal>
    ensures { Answers result (on_state line found (Some column.now)) }
{
    match column {
        Column::State { .. } => Ok(found),
        Column::Object => other_column(alloc, line, "state column", "object column"),
        Column::Formula { .. } => other_column(alloc, line, "state column", "formula column"),
    }
}

/// A target that must be a state column.
pub(crate) fn state_target(
    alloc: Global,
    sheet: &Sheet<'_>,
    variables: &[Variable],
    written: &Target,
) -> Result<CoreTarget, TypeRefusal>
    ensures { Answers result (state_target_of written.now (here sheet.now variables.now)) }
{
    let found = target(alloc, sheet, variables, written)?;
    let column = sheet.columns.get(found.column);
    require_state(alloc, written.line, found, column)
}

// The test that a target is an object column.
#[tactic(auto, unfolding(crate::specs::Targets::on_objects))]
fn require_objects(
    alloc: Global,
    line: u32,
    found: CoreTarget,
    column: &Column,
) -> Result<CoreTarget, TypeRefusal>
    ensures { Answers result (on_objects line found (Some column.now)) }
{
    match column {
        Column::Object => Ok(found),
        Column::State { .. } => other_column(alloc, line, "object column", "state column"),
        Column::Formula { .. } => other_column(alloc, line, "object column", "formula column"),
    }
}

/// A target that must be an object column.
pub(crate) fn objects_target(
    alloc: Global,
    sheet: &Sheet<'_>,
    variables: &[Variable],
    written: &Target,
) -> Result<CoreTarget, TypeRefusal>
    ensures { Answers result (objects_target_of written.now (here sheet.now variables.now)) }
{
    let found = target(alloc, sheet, variables, written)?;
    let column = sheet.columns.get(found.column);
    require_objects(alloc, written.line, found, column)
}
