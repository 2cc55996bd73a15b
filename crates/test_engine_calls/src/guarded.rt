// Calls of an engine where their conditions hold.
ghost use Rattle.std.specs.Prelude.{◌≡◌, ◌≤◌, length, IsTrue, IsSome, true};
ghost use Rattle.std.specs.List.{AllByRecursion};
ghost use Rattle.sheet_columns.specs.Tree.{column_of, above_of};
ghost use Rattle.sheet_meaning.specs.WellFormed.{HasKind, HoldsKind};
ghost use Rattle.sheet_meaning.specs.Workbook.{object_at, column_in};
ghost use Rattle.sheet_types_rules.specs.Formulas.{is_formula};

use sheet_columns::{Column, Fault};
use sheet_engine::Engine;
use sheet_state::{State, StateRefusal};
use sheet_values::{Kind, NoMemory, Set, Steps, Value};
use std::sync::ledger::Ledger;

/// Makes an object where that may be; its number.
pub fn make(engine: &mut Engine, column: u32, above: u64) -> Result<Option<u64>, StateRefusal>
    ensures longer { length engine.old.state.earlier ≤ length engine.new.state.earlier }
{
    let columns = engine.book().columns();
    if column == 0 || column >= columns.count() {
        return Ok(None);
    }
    if !matches!(columns.get(column), Column::Object)
        || engine.state().column_of(above) != Some(columns.above(column))
    {
        return Ok(None);
    }
    let number = engine.new_object(column, above)?;
    Ok(Some(number))
}

// Whether a value is of a kind, and of objects a live one.
fn is_of_kind(state: &State, kind: Kind, value: &Value) -> bool
    ensures { IsTrue result → HasKind state.now.present.state kind value.now }
{
    match (value, kind) {
        (Value::Truth(_), Kind::Truth) => true,
        (Value::Number(_), Kind::Number) => true,
        (Value::Text(_), Kind::Text) => true,
        (Value::Object(object), Kind::Object(column)) => state.column_of(*object) == Some(column),
        _ => false,
    }
}

// Whether all values are of a kind.
fn are_of_kind(state: &State, kind: Kind, values: &[Value]) -> bool
    ensures { IsTrue result → AllByRecursion (HasKind state.now.present.state kind) values.now }
{
    match values.split_first() {
        Some((value, more)) => is_of_kind(state, kind, value) && are_of_kind(state, kind, more),
        None => true,
    }
}

/// Lets a state cell hold a set where that may be; whether it does.
pub fn put(engine: &mut Engine, object: u64, column: u32, set: Set) -> Result<bool, StateRefusal>
    ensures longer { length engine.old.state.earlier ≤ length engine.new.state.earlier }
{
    let columns = engine.book().columns();
    if column == 0
        || column >= columns.count()
        || engine.state().column_of(object) != Some(columns.above(column))
    {
        return Ok(false);
    }
    match columns.get(column) {
        Column::State {
            kind,
            one: _,
            first: _,
        } => {
            if !are_of_kind(engine.state(), *kind, set.as_slice()) {
                return Ok(false);
            }
            engine.set_cell(object, column, set)?;
            Ok(true)
        }
        _ => Ok(false),
    }
}

/// Takes an object away where that may be; whether it is gone.
pub fn delete(engine: &mut Engine, object: u64) -> Result<bool, NoMemory>
    ensures longer { length engine.old.state.earlier ≤ length engine.new.state.earlier }
{
    if object == 0 || !engine.state().is_live(object) {
        return Ok(false);
    }
    engine.delete(object)?;
    Ok(true)
}

/// The result of a formula cell; none where there is no such cell.
pub fn result_of<G: Ledger>(
    engine: &mut Engine,
    object: u64,
    column: u32,
    steps: &mut Steps<G>,
) -> Result<Option<Result<Set, Fault>>, NoMemory>
    ensures same { engine.new.state ≡ engine.old.state }
{
    let columns = engine.book().columns();
    if column == 0 || column >= columns.count() {
        return Ok(None);
    }
    if !matches!(columns.get(column), Column::Formula { kind: _ })
        || engine.state().column_of(object) != Some(columns.above(column))
    {
        return Ok(None);
    }
    match engine.value(object, column, steps) {
        Ok(result) => Ok(Some(result)),
        Err(_) => Err(NoMemory),
    }
}
