// The run of a procedure.
ghost use Rattle.std.specs.Prelude.{◌≡◌, IfOk};
ghost use Rattle.sheet_meaning.specs.Procedure.{admit, test_filled, run_procedure};
ghost use Rattle.plain_procedures.specs.Points.{as_point, Ends};
ghost use Rattle.plain_procedures.specs.Acts.{Acts};

use crate::changes::copied_state;
use crate::filled::unfilled;
use crate::point::PlainPoint;
use crate::statements::{run_statements, truth_of};
use plain_lists::set_in;
use plain_meaning::{Cell, Stop, first_variables};
use sheet_columns::{Core, CoreStatement};
use sheet_meaning::{Caller, Refusal, Schema, State};
use sheet_values::{NoMemory, Value, Values};
use std::alloc::Global;

/// What a procedure changes.
#[derive(Debug, Drop)]
pub struct PlainBook {
    pub state: State,
    /// The formula cells whose results are kept.
    pub kept: Vec<Cell>,
}

// Formula cells once more.
fn copied_kept(alloc: Global, cells: &[Cell]) -> Result<Vec<Cell>, NoMemory>
    ensures { IfOk result (λ list. list.items ≡ cells.now) }
{
    let mut list = Vec::new(alloc);
    for cell in cells {
        list.push(*cell)?;
    }
    Ok(list)
}

// The `allow` formula, which must be one. False refuses.
fn admit(
    alloc: Global,
    schema: &Schema,
    point: PlainPoint,
    allow: &Core,
) -> Result<PlainPoint, Stop>
    ensures { Ends result (admit schema.now allow.now (as_point point)) }
{
    let (holds, point) = truth_of(alloc, schema, point, 0, allow)?;
    if !holds {
        return Err(Stop::Refused(Refusal::Denied));
    }
    Ok(point)
}

// The test that every cell that must hold exactly one value does.
fn test_filled(alloc: Global, schema: &Schema, point: PlainPoint) -> Result<PlainPoint, Stop>
    ensures { Ends result (test_filled schema.now (as_point point)) }
{
    match unfilled(alloc, schema, &point.state)? {
        None => Ok(point),
        Some(cell) => {
            let set = set_in(alloc, point.state.cells.as_slice(), cell.0, cell.1)?;
            Err(Stop::Refused(Refusal::NotOneCell(cell.0, cell.1, set.len())))
        }
    }
}

/// Runs a procedure, whose `allow` formula and statements are given, for a caller and arguments, from a
/// state and kept cells. It ends in a point, or in the first refusal: `Denied` where the `allow` formula
/// is false, what a statement refuses, or `NotOneCell` with the least cell that must hold one value after
/// the last statement and doesn't.
pub fn run_procedure(
    alloc: Global,
    schema: &Schema,
    allow: &Core,
    body: &[CoreStatement],
    caller: Caller,
    arguments: &[Value],
    state: &State,
    kept: &[Cell],
) -> Result<PlainPoint, Stop>
    ensures { Ends result (run_procedure schema.now allow.now body.now caller arguments.now state.now kept.now) }
{
    let variables = first_variables(alloc, caller, arguments)?;
    let start = PlainPoint {
        state: copied_state(alloc, state)?,
        variables,
        reply: Values::new(alloc),
        kept: copied_kept(alloc, kept)?,
    };
    let admitted = admit(alloc, schema, start, allow)?;
    let last = run_statements(alloc, schema, admitted, body)?;
    test_filled(alloc, schema, last)
}

/// Runs a procedure on a book, and gives its reply. After a refusal the book is as before.
pub fn act(
    alloc: Global,
    schema: &Schema,
    allow: &Core,
    body: &[CoreStatement],
    caller: Caller,
    arguments: &[Value],
    book: &mut PlainBook,
) -> Result<Values, Stop>
    ensures { Acts schema.now allow.now body.now caller arguments.now book.old book.new result }
{
    let last = run_procedure(
        alloc,
        schema,
        allow,
        body,
        caller,
        arguments,
        &book.state,
        book.kept.as_slice(),
    )?;
    let PlainPoint {
        state,
        variables: _,
        reply,
        kept,
    } = last;
    book.state = state;
    book.kept = kept;
    Ok(reply)
}
