// What a view rests on.
ghost use Rattle.std.specs.Prelude.{◌≡◌, ◌++◌, IfOk, OnOk};
ghost use Rattle.std.specs.List.{flat_map};
ghost use Rattle.sheet_meaning.specs.Statements.{workbook};
ghost use Rattle.sheet_meaning.specs.Page.{row_uses, part_uses, argument_uses, view_uses, view_support, kept_by_view};
ghost use Rattle.plain_meaning.specs.Tables.{settled_cells};
ghost use Rattle.plain_meaning.specs.Pages.{slots_used};

use crate::kept::kept_with;
use crate::reaching::{Cell, support};
use crate::rounds::{settled, value_of};
use crate::showing::{bound, first_variables, slot_run};
use plain_formulas::appended;
use plain_lists::{WorkedCell, objects};
use sheet_columns::{Core, CoreSlot, CoreView, Item, Items, Place, Sequence};
use sheet_meaning::{Caller, Schema, State, Use};
use sheet_values::{NoMemory, Value, Values};
use std::alloc::Global;

// Uses, and those of several lists after them.
fn push_uses(uses: &mut Sequence<Use>, more: &[Use]) -> Result<(), NoMemory>
    ensures { OnOk result (uses.new ≡ uses.old ++ more.now) }
{
    for one in more {
        uses.push(*one)?;
    }
    Ok(())
}

// What a row uses.
fn push_row_uses(
    alloc: Global,
    schema: &Schema,
    state: &State,
    cells: &[WorkedCell],
    bound: &[Values],
    slots: &[CoreSlot],
    uses: &mut Sequence<Use>,
) -> Result<(), NoMemory>
    requires { cells.now ≡ settled_cells (workbook schema.now state.now) }
    ensures { OnOk result (uses.new ≡ uses.old ++ slots_used (workbook schema.now state.now) bound.now slots.now) }
{
    let mut rest = slots;
    while let Some((slot, more)) = rest.split_first() {
        let run = slot_run(alloc, schema, state, cells, bound, slot)?;
        push_uses(uses, run.uses.as_slice())?;
        rest = more;
    }
    Ok(())
}

// What the rows of a table use.
fn push_rows_uses(
    alloc: Global,
    schema: &Schema,
    state: &State,
    cells: &[WorkedCell],
    variables: &[Values],
    slots: &[CoreSlot],
    values: &[Value],
    uses: &mut Sequence<Use>,
) -> Result<(), NoMemory>
    requires { cells.now ≡ settled_cells (workbook schema.now state.now) }
    ensures { OnOk result (uses.new ≡ uses.old ++ flat_map (row_uses (workbook schema.now state.now) variables.now slots.now) values.now) }
{
    let mut rest = values;
    while let Some((value, more)) = rest.split_first() {
        let bound = bound(alloc, variables, value)?;
        push_row_uses(alloc, schema, state, cells, bound.as_slice(), slots, uses)?;
        rest = more;
    }
    Ok(())
}

// What a part uses: a table its source, and the slots of each row.
fn push_part_uses(
    alloc: Global,
    schema: &Schema,
    state: &State,
    cells: &[WorkedCell],
    variables: &[Values],
    view: &CoreView,
    uses: &mut Sequence<Use>,
) -> Result<(), NoMemory>
    requires { cells.now ≡ settled_cells (workbook schema.now state.now) }
    ensures { OnOk result (uses.new ≡ uses.old ++ part_uses (workbook schema.now state.now) variables.now view.now) }
{
    match view {
        CoreView::Show(slot) => {
            let run = slot_run(alloc, schema, state, cells, variables, slot)?;
            push_uses(uses, run.uses.as_slice())
        }
        CoreView::Table {
            number,
            name: _,
            source,
            slots,
        } => {
            let place = Place::Slot(*number);
            let run = value_of(alloc, schema, state, cells, source, place, variables)?;
            push_uses(uses, run.uses.as_slice())?;
            match &run.outcome {
                Ok(values) => {
                    let (slots, values) = (slots.as_slice(), values.as_slice());
                    push_rows_uses(alloc, schema, state, cells, variables, slots, values, uses)
                }
                Err(_) => Ok(()),
            }
        }
    }
}

// What the parts use.
fn push_parts_uses(
    alloc: Global,
    schema: &Schema,
    state: &State,
    cells: &[WorkedCell],
    variables: &[Values],
    views: &[CoreView],
    uses: &mut Sequence<Use>,
) -> Result<(), NoMemory>
    requires { cells.now ≡ settled_cells (workbook schema.now state.now) }
    ensures { OnOk result (uses.new ≡ uses.old ++ flat_map (part_uses (workbook schema.now state.now) variables.now) views.now) }
{
    let mut rest = views;
    while let Some((view, more)) = rest.split_first() {
        push_part_uses(alloc, schema, state, cells, variables, view, uses)?;
        rest = more;
    }
    Ok(())
}

// Whether each object among the arguments is live.
fn push_argument_uses(
    alloc: Global,
    arguments: &[Value],
    uses: &mut Sequence<Use>,
) -> Result<(), NoMemory>
    ensures { OnOk result (uses.new ≡ uses.old ++ argument_uses arguments.now) }
{
    let these = objects(alloc, arguments)?;
    let mut rest = these.as_slice();
    while let Some((object, more)) = rest.split_first() {
        uses.push(Use::Read(Item::Live(*object)))?;
        rest = more;
    }
    Ok(())
}

// What a view uses: its `allow` formula, its parts, and whether the objects among the arguments are live.
fn view_uses(
    alloc: Global,
    schema: &Schema,
    state: &State,
    allow: &Core,
    views: &[CoreView],
    caller: Caller,
    arguments: &[Value],
) -> Result<Sequence<Use>, NoMemory>
    ensures { IfOk result (λ uses. uses ≡ view_uses (workbook schema.now state.now) allow.now views.now caller arguments.now) }
{
    let variables = first_variables(alloc, caller, arguments)?;
    let cells = settled(alloc, schema, state)?;
    let place = Place::Slot(0);
    let (known, bound) = (cells.as_slice(), variables.as_slice());
    let run = value_of(alloc, schema, state, known, allow, place, bound)?;
    let mut rest = Sequence::new(alloc);
    push_parts_uses(alloc, schema, state, known, bound, views, &mut rest)?;
    push_argument_uses(alloc, arguments, &mut rest)?;
    appended(run.uses, rest.as_slice())
}

/// The support of a view: the items that its page rests on, in order.
pub fn view_support(
    alloc: Global,
    schema: &Schema,
    state: &State,
    allow: &Core,
    views: &[CoreView],
    caller: Caller,
    arguments: &[Value],
) -> Result<Items, NoMemory>
    ensures { IfOk result (λ items. items ≡ view_support (workbook schema.now state.now) allow.now views.now caller arguments.now) }
{
    let uses = view_uses(alloc, schema, state, allow, views, caller, arguments)?;
    support(alloc, schema, state, uses.as_slice())
}

/// The formula cells whose results are kept after a view: the cells that are reached from it, beside those that were kept.
pub fn kept_by_view(
    alloc: Global,
    schema: &Schema,
    state: &State,
    allow: &Core,
    views: &[CoreView],
    caller: Caller,
    arguments: &[Value],
    kept: Vec<Cell>,
) -> Result<Vec<Cell>, NoMemory>
    ensures { IfOk result (λ list. list.items ≡ kept_by_view (workbook schema.now state.now) allow.now views.now caller arguments.now kept.items) }
{
    let uses = view_uses(alloc, schema, state, allow, views, caller, arguments)?;
    kept_with(alloc, schema, state, uses.as_slice(), kept)
}
