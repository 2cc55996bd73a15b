// What statements do, one after another.
ghost use Rattle.std.specs.Prelude.{◌≡◌, ◌++◌, ◌∷◌, [], IfOk, Ok, Err, fold, if◌then◌else◌};
ghost use Rattle.std.specs.List.{filter_map};
ghost use Rattle.sheet_columns.specs.declared.fault.Place.TheVariants as place;
ghost use Rattle.sheet_meaning.specs.declared.refusal.Refusal.TheVariants.{CheckFailed};
ghost use Rattle.sheet_meaning.specs.Run.{both};
ghost use Rattle.sheet_meaning.specs.Formula.{object_in, truth};
ghost use Rattle.sheet_meaning.specs.Statements.{formula, target_object, ended, from_run, with_variable, store, make, remove, answer, run_statement, run_statements};
ghost use Rattle.plain_procedures.specs.Points.{as_point, Ends, GoesOn};
ghost use Rattle.plain_procedures.specs.Blocks.{bind, change, create, delete, check, reply, turn, turns};

use crate::point::{
    PlainPoint, answer, formula, go_on, is_present, make, remove_all, store, target_object,
    with_variable,
};
use plain_formulas::{both, truth};
use plain_lists::{alone, copied, objects};
use plain_meaning::Stop;
use sheet_columns::{Change, Core, CoreStatement, Place, Target};
use sheet_meaning::{Refusal, Schema};
use sheet_values::{Name, NoMemory, Value, Values};
use std::alloc::Global;

// The set that a statement's formula comes to.
fn set_of(
    alloc: Global,
    schema: &Schema,
    point: PlainPoint,
    number: u32,
    core: &Core,
) -> Result<(Values, PlainPoint), Stop>
    ensures { GoesOn schema.now (formula schema.now (as_point point) number core.now) (as_point point) result }
{
    let run = formula(alloc, schema, &point, number, core)?;
    go_on(alloc, schema, point, run)
}

/// The truth that a statement's formula comes to, which must be one.
pub fn truth_of(
    alloc: Global,
    schema: &Schema,
    point: PlainPoint,
    number: u32,
    core: &Core,
) -> Result<(bool, PlainPoint), Stop>
    ensures { GoesOn schema.now (truth (place.Statement number) (formula schema.now (as_point point) number core.now)) (as_point point) result }
{
    let run = formula(alloc, schema, &point, number, core)?;
    let truth = truth(alloc, Place::Statement(number), run)?;
    go_on(alloc, schema, point, truth)
}

// The object that a statement's target is under.
fn object_of(
    alloc: Global,
    schema: &Schema,
    point: PlainPoint,
    number: u32,
    target: &Target,
) -> Result<(u64, PlainPoint), Stop>
    ensures { GoesOn schema.now (target_object schema.now (as_point point) number target.now) (as_point point) result }
{
    let run = target_object(alloc, schema, &point, number, target)?;
    go_on(alloc, schema, point, run)
}

// The object that a statement's target is under, and the set that its other formula comes to: both are parts.
fn object_and_set(
    alloc: Global,
    schema: &Schema,
    point: PlainPoint,
    number: u32,
    target: &Target,
    core: &Core,
) -> Result<((u64, Values), PlainPoint), Stop>
    ensures { GoesOn schema.now (both (target_object schema.now (as_point point) number target.now) (formula schema.now (as_point point) number core.now)) (as_point point) result }
{
    let object = target_object(alloc, schema, &point, number, target)?;
    let set = formula(alloc, schema, &point, number, core)?;
    let run = both(object, set)?;
    go_on(alloc, schema, point, run)
}

// `let x = e`
fn bind(
    alloc: Global,
    schema: &Schema,
    point: PlainPoint,
    number: u32,
    value: &Core,
) -> Result<PlainPoint, Stop>
    ensures { Ends result (bind schema.now number value.now (as_point point)) }
{
    let (set, point) = set_of(alloc, schema, point, number, value)?;
    with_variable(point, set)
}

// `set t = e`, `add e to t` and `remove e from t`
fn change(
    alloc: Global,
    schema: &Schema,
    point: PlainPoint,
    number: u32,
    how: Change,
    target: &Target,
    value: &Core,
) -> Result<PlainPoint, Stop>
    ensures { Ends result (change schema.now number how target.now value.now (as_point point)) }
{
    let ((object, set), point) = object_and_set(alloc, schema, point, number, target, value)?;
    store(alloc, schema, point, how, object, target.column, set)
}

// `new x = t`
fn create(
    alloc: Global,
    schema: &Schema,
    point: PlainPoint,
    number: u32,
    target: &Target,
) -> Result<PlainPoint, Stop>
    ensures { Ends result (create schema.now number target.now (as_point point)) }
{
    let (object, point) = object_of(alloc, schema, point, number, target)?;
    make(alloc, schema, point, target.column, object)
}

// `delete e`
fn delete(
    alloc: Global,
    schema: &Schema,
    point: PlainPoint,
    number: u32,
    these: &Core,
) -> Result<PlainPoint, Stop>
    ensures { Ends result (delete schema.now number these.now (as_point point)) }
{
    let (set, point) = set_of(alloc, schema, point, number, these)?;
    let numbers = objects(alloc, set.as_slice())?;
    let point = remove_all(alloc, schema, point, numbers.as_slice())?;
    Ok(point)
}

// `check e else "m"`
fn check(
    alloc: Global,
    schema: &Schema,
    point: PlainPoint,
    number: u32,
    condition: &Core,
    message: &Name,
) -> Result<PlainPoint, Stop>
    ensures { Ends result (check schema.now number condition.now message.now (as_point point)) }
{
    let (holds, point) = truth_of(alloc, schema, point, number, condition)?;
    if !holds {
        return Err(Stop::Refused(Refusal::CheckFailed(number, message.copy()?)));
    }
    Ok(point)
}

// `reply e`
fn reply(
    alloc: Global,
    schema: &Schema,
    point: PlainPoint,
    number: u32,
    value: &Core,
) -> Result<PlainPoint, Stop>
    ensures { Ends result (reply schema.now number value.now (as_point point)) }
{
    let (set, point) = set_of(alloc, schema, point, number, value)?;
    answer(point, set)
}

// The sets of variables once more.
fn copied_sets(alloc: Global, sets: &[Values]) -> Result<Vec<Values>, NoMemory>
    ensures { IfOk result (λ list. list.items ≡ sets.now) }
{
    let mut list = Vec::new(alloc);
    for set in sets {
        list.push(copied(alloc, set.as_slice())?)?;
    }
    Ok(list)
}

// A point with other variables.
fn with_variables(point: PlainPoint, variables: Vec<Values>) -> PlainPoint
    ensures { as_point result ≡ record (as_point point) { variables = variables.items } }
{
    let PlainPoint {
        state,
        variables: _,
        reply,
        kept,
    } = point;
    PlainPoint {
        state,
        variables,
        reply,
        kept,
    }
}

/// Does what a statement does, or gives the refusal that ends the run.
#[cycle(run)]
pub fn run_statement(
    alloc: Global,
    schema: &Schema,
    point: PlainPoint,
    statement: &CoreStatement,
) -> Result<PlainPoint, Stop>
    ensures { Ends result (run_statement statement.now schema.now (as_point point)) }
{
    match statement {
        CoreStatement::Let { number, value } => bind(alloc, schema, point, *number, value),
        CoreStatement::Change {
            number,
            change: how,
            target,
            value,
        } => change(alloc, schema, point, *number, *how, target, value),
        CoreStatement::New { number, target } => create(alloc, schema, point, *number, target),
        CoreStatement::Delete { number, objects } => {
            delete(alloc, schema, point, *number, objects)
        }
        CoreStatement::Check {
            number,
            condition,
            message,
        } => check(alloc, schema, point, *number, condition, message),
        CoreStatement::If {
            number,
            condition,
            body,
            otherwise,
        } => {
            let (holds, point) = truth_of(alloc, schema, point, *number, condition)?;
            if holds {
                run_block(alloc, schema, point, body.list.as_slice())
            } else {
                run_block(alloc, schema, point, otherwise.list.as_slice())
            }
        }
        CoreStatement::For {
            number,
            source,
            body,
        } => {
            let (set, point) = set_of(alloc, schema, point, *number, source)?;
            run_turns(alloc, schema, point, body.list.as_slice(), set.as_slice())
        }
        CoreStatement::Reply { number, value } => reply(alloc, schema, point, *number, value),
    }
}

/// Runs statements in order. The first refusal ends the run.
#[cycle(run)]
pub fn run_statements(
    alloc: Global,
    schema: &Schema,
    point: PlainPoint,
    statements: &[CoreStatement],
) -> Result<PlainPoint, Stop>
    ensures { Ends result (run_statements statements.now schema.now (as_point point)) }
{
    let mut point = point;
    for statement in statements {
        match run_statement(alloc, schema, point, statement) {
            Ok(next) => point = next,
            Err(stop) => return Err(stop),
        }
    }
    Ok(point)
}

// A block: at its end its variables are gone.
#[cycle(run)]
fn run_block(
    alloc: Global,
    schema: &Schema,
    point: PlainPoint,
    body: &[CoreStatement],
) -> Result<PlainPoint, Stop>
    ensures { Ends result (ended (as_point point) (run_statements body.now schema.now (as_point point))) }
{
    let before = copied_sets(alloc, point.variables.as_slice())?;
    let point = run_statements(alloc, schema, point, body)?;
    Ok(with_variables(point, before))
}

// A turn of `for`: one over an object that is no longer live is skipped.
#[cycle(run)]
fn run_turn(
    alloc: Global,
    schema: &Schema,
    point: PlainPoint,
    body: &[CoreStatement],
    value: &Value,
) -> Result<PlainPoint, Stop>
    ensures { Ends result (turn (run_statements body.now schema.now) value.now (as_point point)) }
{
    if !is_present(&point.state, value) {
        return Ok(point);
    }
    let outer = copied_sets(alloc, point.variables.as_slice())?;
    let set = alone(alloc, value.copy()?)?;
    let point = with_variable(point, set)?;
    let point = run_statements(alloc, schema, point, body)?;
    Ok(with_variables(point, outer))
}

// `for`: a turn for each value in order.
#[cycle(run)]
fn run_turns(
    alloc: Global,
    schema: &Schema,
    point: PlainPoint,
    body: &[CoreStatement],
    values: &[Value],
) -> Result<PlainPoint, Stop>
    ensures { Ends result (turns (run_statements body.now schema.now) values.now (as_point point)) }
{
    let mut point = point;
    for value in values {
        match run_turn(alloc, schema, point, body, value) {
            Ok(next) => point = next,
            Err(stop) => return Err(stop),
        }
    }
    Ok(point)
}
