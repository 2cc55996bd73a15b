// How far the run of a procedure has come, and what single statements do.
ghost use Rattle.std.specs.Prelude.{◌≡◌, ◌++◌, ◌∷◌, [], ◌≤◌, IfOk, fold, sum_by, Ok};
ghost use Rattle.sheet_meaning.specs.Statements.{workbook, formula, target_object, with_variable, with_state, store, make, remove, answer, is_present, value_weight};
ghost use Rattle.plain_procedures.specs.Points.{as_point, stored_in, Ends, GoesOn};

use crate::changes::{changed_set, with_object, with_set, without_object};
use crate::filled::{cell_count, stored_values};
use plain_formulas::object;
use plain_lists::{alone, object_at, set_in};
use plain_meaning::{Cell, Stop, kept_after, kept_with, settled, value_of};
use sheet_columns::{Change, Core, Place, Target};
use sheet_meaning::{Refusal, Run, Schema, State, Which};
use sheet_values::{NoMemory, Value, Values};
use std::alloc::Global;

/// How far the run of a procedure has come.
#[derive(Debug, Drop)]
pub struct PlainPoint {
    pub state: State,
    /// The sets of the variables, by position.
    pub variables: Vec<Values>,
    /// The reply so far.
    pub reply: Values,
    /// The formula cells whose results are kept.
    pub kept: Vec<Cell>,
}

/// A formula of the statement with this number.
pub fn formula(
    alloc: Global,
    schema: &Schema,
    point: &PlainPoint,
    number: u32,
    core: &Core,
) -> Result<Run<Values>, NoMemory>
    ensures { IfOk result (λ r. r ≡ formula schema.now (as_point point.now) number core.now) }
{
    let cells = settled(alloc, schema, &point.state)?;
    value_of(
        alloc,
        schema,
        &point.state,
        cells.as_slice(),
        core,
        Place::Statement(number),
        point.variables.as_slice(),
    )
}

/// The object that a target is under, which must be one.
pub fn target_object(
    alloc: Global,
    schema: &Schema,
    point: &PlainPoint,
    number: u32,
    target: &Target,
) -> Result<Run<u64>, NoMemory>
    ensures { IfOk result (λ r. r ≡ target_object schema.now (as_point point.now) number target.now) }
{
    let run = formula(alloc, schema, point, number, &target.object)?;
    object(alloc, Place::Statement(number), run)
}

/// Goes on from what the formulas of a statement come to: a fault is a refusal, and the cells that are reached are kept.
pub fn go_on<A: Drop>(
    alloc: Global,
    schema: &Schema,
    point: PlainPoint,
    run: Run<A>,
) -> Result<(A, PlainPoint), Stop>
    ensures { GoesOn schema.now run (as_point point) result }
{
    let Run { outcome, uses } = run;
    match outcome {
        Ok(value) => {
            let PlainPoint {
                state,
                variables,
                reply,
                kept,
            } = point;
            let kept = kept_with(alloc, schema, &state, uses.as_slice(), kept)?;
            Ok((
                value,
                PlainPoint {
                    state,
                    variables,
                    reply,
                    kept,
                },
            ))
        }
        Err(fault) => Err(Stop::Refused(Refusal::FormulaFault(fault))),
    }
}

/// `let`: one more variable.
pub fn with_variable(point: PlainPoint, set: Values) -> Result<PlainPoint, Stop>
    ensures { Ends result (Ok (with_variable (as_point point) set)) }
{
    let PlainPoint {
        state,
        mut variables,
        reply,
        kept,
    } = point;
    variables.push(set)?;
    Ok(PlainPoint {
        state,
        variables,
        reply,
        kept,
    })
}

// The state has changed: the cells that the change reaches aren't kept.
fn with_state(
    alloc: Global,
    schema: &Schema,
    point: PlainPoint,
    next: State,
) -> Result<PlainPoint, NoMemory>
    ensures { IfOk result (λ p. as_point p ≡ with_state schema.now (as_point point) next) }
{
    let PlainPoint {
        state,
        variables,
        reply,
        kept,
    } = point;
    let kept = kept_after(alloc, schema, &state, &next, kept.as_slice())?;
    Ok(PlainPoint {
        state: next,
        variables,
        reply,
        kept,
    })
}

const MAX_OBJECTS: usize = 100_000;

const MAX_CELLS: u128 = 1_000_000;

const MAX_VALUES: u128 = 1_000_000;

const MAX_NUMBER: u64 = 1_000_000_000_000;

const MAX_REPLY: u128 = 4096;

fn full(which: Which, limit: u64) -> Stop
    ensures { result ≡ Stop.Refused (Refusal.Full which limit) }
{
    Stop::Refused(Refusal::Full(which, limit))
}

// The state after `set`, `add` or `remove`.
fn stored_in(
    alloc: Global,
    state: &State,
    change: Change,
    object: u64,
    column: u32,
    set: &[Value],
) -> Result<State, NoMemory>
    ensures { IfOk result (λ next. next ≡ stored_in state.now change object column set.now) }
{
    let old = set_in(alloc, state.cells.as_slice(), object, column)?;
    let new = changed_set(alloc, change, old.as_slice(), set)?;
    with_set(alloc, state, object, column, new.as_slice())
}

/// `set`, `add` and `remove`.
pub fn store(
    alloc: Global,
    schema: &Schema,
    point: PlainPoint,
    change: Change,
    object: u64,
    column: u32,
    set: Values,
) -> Result<PlainPoint, Stop>
    ensures { Ends result (store schema.now change object column set (as_point point)) }
{
    let next = stored_in(alloc, &point.state, change, object, column, set.as_slice())?;
    if stored_values(next.cells.as_slice()) > MAX_VALUES {
        return Err(full(Which::Values, 1_000_000));
    }
    let point = with_state(alloc, schema, point, next)?;
    Ok(point)
}

/// `new`: the variable is the new object.
pub fn make(
    alloc: Global,
    schema: &Schema,
    point: PlainPoint,
    column: u32,
    parent: u64,
) -> Result<PlainPoint, Stop>
    ensures { Ends result (make schema.now column parent (as_point point)) }
{
    let number = point.state.next;
    let after = number.saturating_add(1);
    let next = with_object(alloc, schema, &point.state, column, parent, after)?;
    if next.objects.len() > MAX_OBJECTS {
        return Err(full(Which::Objects, 100_000));
    }
    if cell_count(alloc, schema, &next)? > MAX_CELLS {
        return Err(full(Which::Cells, 1_000_000));
    }
    if stored_values(next.cells.as_slice()) > MAX_VALUES {
        return Err(full(Which::Values, 1_000_000));
    }
    if number > MAX_NUMBER {
        return Err(full(Which::Numbers, MAX_NUMBER));
    }
    let point = with_state(alloc, schema, point, next)?;
    let made = alone(alloc, Value::Object(number))?;
    with_variable(point, made)
}

// `delete`, for one object, where it is still live.
fn remove(
    alloc: Global,
    schema: &Schema,
    point: PlainPoint,
    object: u64,
) -> Result<PlainPoint, NoMemory>
    ensures { IfOk result (λ p. as_point p ≡ remove schema.now (as_point point) object) }
{
    if !is_present(&point.state, &Value::Object(object)) {
        return Ok(point);
    }
    let next = without_object(alloc, &point.state, object)?;
    let point = with_state(alloc, schema, point, next)?;
    Ok(point)
}

/// `delete`, for some objects in order.
pub fn remove_all(
    alloc: Global,
    schema: &Schema,
    point: PlainPoint,
    objects: &[u64],
) -> Result<PlainPoint, NoMemory>
    ensures { IfOk result (λ p. as_point p ≡ fold (remove schema.now) (as_point point) objects.now) }
{
    let Some((first, more)) = objects.split_first() else {
        return Ok(point);
    };
    let point = remove(alloc, schema, point, *first)?;
    remove_all(alloc, schema, point, more)
}

fn value_weight(value: &Value) -> u128
    ensures weight { result ≡ value_weight value.now }
    ensures few { result ≤ 1016 }
{
    match value {
        Value::Text(text) => 16 + text.bytes().len() as u128,
        Value::Truth(_) | Value::Number(_) | Value::Object(_) => 16,
    }
}

fn weight(values: &[Value]) -> u128
    ensures { result ≡ sum_by value_weight values.now }
{
    let mut total: u128 = 0;
    for value in values {
        total += value_weight(value);
    }
    total
}

/// `reply`
pub fn answer(point: PlainPoint, set: Values) -> Result<PlainPoint, Stop>
    ensures { Ends result (answer set (as_point point)) }
{
    if weight(set.as_slice()) > MAX_REPLY {
        return Err(full(Which::Reply, 4096));
    }
    let PlainPoint {
        state,
        variables,
        reply: _,
        kept,
    } = point;
    Ok(PlainPoint {
        state,
        variables,
        reply: set,
        kept,
    })
}

/// Whether a value is no object, or a live one.
pub fn is_present(state: &State, value: &Value) -> bool
    ensures { result ≡ is_present state.now value.now }
{
    match value {
        Value::Object(object) => object_at(state.objects.as_slice(), *object).is_some(),
        Value::Truth(_) | Value::Number(_) | Value::Text(_) => true,
    }
}
