// What each statement without a block does.
ghost use Rattle.std.specs.Prelude.{◌≡◌, ◌∷◌, ◌++◌, [], ◌≤◌, IfOk, OnOk, sum_by};
ghost use Rattle.std.specs.List.{filter_map};
ghost use Rattle.sheet_columns.specs.Cells.{is_cell};
ghost use Rattle.sheet_columns.specs.declared.statement.CoreStatement.{Let, Change as Changing, New, Delete, Check, Reply};
ghost use Rattle.sheet_books.specs.Schemas.{schema_of};
ghost use Rattle.sheet_meaning.specs.Changes.{changed_set};
ghost use Rattle.sheet_meaning.specs.Formula.{object_in};
ghost use Rattle.sheet_meaning.specs.Statements.{run_statement, store, make, remove_all, value_weight};
ghost use Rattle.sheet_types_rules.specs.Statements.{behind};
ghost use Rattle.sheet_values.specs.declared.value.Value.TheVariants.{Object};
ghost use Rattle.sheet_procs_touched.specs.Touched.{Adds, is_new, is_named};
ghost use Rattle.sheet_procs.specs.Refused.{IsOf, IsNoted};
ghost use Rattle.sheet_procs.specs.Runs.{Runs};
ghost use Rattle.sheet_procs.specs.Typed.{MayRun, MayStore, MayMake, MayDelete};

use crate::ProcedureRefusal;
use crate::formulas::{object_and_set, object_of, set_of, truth_of};
use crate::progress::Progress;
use sheet_columns::{Change, Columns, Core, Items, Target};
use sheet_engine::Engine;
use sheet_state::{StateRefusal, Which};
use sheet_values::{Name, NoMemory, Set, Steps, Value};
use std::alloc::Global;
use std::sync::ledger::Ledger;

const MAX_REPLY: u128 = 4096;

/// `let x = e`
pub(crate) fn bind<G: Ledger>(
    engine: &mut Engine,
    progress: &mut Progress,
    number: u32,
    value: &Core,
    steps: &mut Steps<G>,
) -> Result<(), ProcedureRefusal>
    ensures runs { Runs engine.old.book engine.old.state engine.new.state progress.old progress.new result (run_statement (Let number value.now) (schema_of engine.old.book)) }
    ensures book { engine.new.book ≡ engine.old.book }
{
    let set = set_of(engine, &progress.variables, number, value, steps)?;
    progress.variables.push(set)?;
    Ok(())
}

/// `set t = e`, `add e to t` and `remove e from t`
pub(crate) fn change<G: Ledger>(
    engine: &mut Engine,
    progress: &mut Progress,
    number: u32,
    how: Change,
    target: &Target,
    value: &Core,
    steps: &mut Steps<G>,
) -> Result<(), ProcedureRefusal>
    requires { MayRun (behind (Changing number how target.now value.now)) engine.old.book engine.old.state progress.old }
    ensures runs { Runs engine.old.book engine.old.state engine.new.state progress.old progress.new result (run_statement (Changing number how target.now value.now) (schema_of engine.old.book)) }
    ensures book { engine.new.book ≡ engine.old.book }
{
    let (object, set) = object_and_set(engine, &progress.variables, number, target, value, steps)?;
    put(engine, progress, how, object, target.column, set)
}

// Changes a state cell by a set.
fn put(
    engine: &mut Engine,
    progress: &mut Progress,
    how: Change,
    object: u64,
    column: u32,
    set: Set,
) -> Result<(), ProcedureRefusal>
    requires { MayStore engine.old.book engine.old.state how object column set }
    ensures runs { Runs engine.old.book engine.old.state engine.new.state progress.old progress.new result (store (schema_of engine.old.book) how object column set) }
    ensures book { engine.new.book ≡ engine.old.book }
{
    let new = changed(how, engine.state().cell(object, column), set)?;
    match engine.set_cell(object, column, new) {
        Ok(()) => note_cell(progress, object, column),
        Err(refusal) => Err(refused(refusal)),
    }
}

// Notes a cell that is changed.
fn note_cell(progress: &mut Progress, object: u64, column: u32) -> Result<(), ProcedureRefusal>
    ensures noted { IsNoted result (Adds (is_cell (object, column)) progress.old.touched progress.new.touched) }
    ensures variables { progress.new.variables ≡ progress.old.variables }
    ensures reply { progress.new.reply ≡ progress.old.reply }
{
    match progress.touched.add(object, column) {
        Ok(()) => Ok(()),
        Err(_) => Err(ProcedureRefusal::NoMemory),
    }
}

// The refusal for that of a change.
fn refused(refusal: StateRefusal) -> ProcedureRefusal
    ensures { IsOf refusal result }
{
    match refusal {
        StateRefusal::Full(which, limit) => ProcedureRefusal::Full(which, limit),
        StateRefusal::NoMemory => ProcedureRefusal::NoMemory,
    }
}

// What a state cell holds after `set`, `add` or `remove`.
fn changed(how: Change, old: &Set, set: Set) -> Result<Set, NoMemory>
    ensures { IfOk result (λ new. new ≡ changed_set how old.now set) }
{
    match how {
        Change::Set => Ok(set),
        Change::Add => old.union(&set),
        Change::Remove => old.minus(&set),
    }
}

/// `new x = t`
pub(crate) fn create<G: Ledger>(
    alloc: Global,
    engine: &mut Engine,
    progress: &mut Progress,
    number: u32,
    target: &Target,
    steps: &mut Steps<G>,
) -> Result<(), ProcedureRefusal>
    requires { MayRun (behind (New number target.now)) engine.old.book engine.old.state progress.old }
    ensures runs { Runs engine.old.book engine.old.state engine.new.state progress.old progress.new result (run_statement (New number target.now) (schema_of engine.old.book)) }
    ensures book { engine.new.book ≡ engine.old.book }
{
    let object = object_of(engine, &progress.variables, number, target, steps)?;
    add_object(alloc, engine, progress, target.column, object)
}

// Makes an object, which the new variable holds.
fn add_object(
    alloc: Global,
    engine: &mut Engine,
    progress: &mut Progress,
    column: u32,
    parent: u64,
) -> Result<(), ProcedureRefusal>
    requires { MayMake engine.old.book engine.old.state parent column }
    ensures runs { Runs engine.old.book engine.old.state engine.new.state progress.old progress.new result (make (schema_of engine.old.book) column parent) }
    ensures book { engine.new.book ≡ engine.old.book }
{
    match engine.new_object(column, parent) {
        Ok(made) => note_object(alloc, progress, engine.book().columns(), made, column),
        Err(refusal) => Err(refused(refusal)),
    }
}

// Notes the cells of a new object, which the new variable holds.
fn note_object(
    alloc: Global,
    progress: &mut Progress,
    columns: &Columns,
    object: u64,
    column: u32,
) -> Result<(), ProcedureRefusal>
    ensures noted { IsNoted result (Adds (is_new columns.now object column) progress.old.touched progress.new.touched) }
    ensures variables { OnOk result (progress.new.variables ≡ progress.old.variables ++ (Object object ∷ []) ∷ []) }
    ensures reply { progress.new.reply ≡ progress.old.reply }
{
    progress.touched.add_new(columns, object, column)?;
    let set = Set::one(alloc, Value::Object(object))?;
    progress.variables.push(set)?;
    Ok(())
}

/// `delete e`
pub(crate) fn delete<G: Ledger>(
    engine: &mut Engine,
    progress: &mut Progress,
    number: u32,
    objects: &Core,
    steps: &mut Steps<G>,
) -> Result<(), ProcedureRefusal>
    requires { MayRun (behind (Delete number objects.now)) engine.old.book engine.old.state progress.old }
    ensures runs { Runs engine.old.book engine.old.state engine.new.state progress.old progress.new result (run_statement (Delete number objects.now) (schema_of engine.old.book)) }
    ensures book { engine.new.book ≡ engine.old.book }
{
    let set = set_of(engine, &progress.variables, number, objects, steps)?;
    take_away(engine, progress, &set)
}

// Takes objects away.
fn take_away(
    engine: &mut Engine,
    progress: &mut Progress,
    set: &Set,
) -> Result<(), ProcedureRefusal>
    requires { MayDelete engine.old.book engine.old.state set.now }
    ensures runs { Runs engine.old.book engine.old.state engine.new.state progress.old progress.new result (λ p. (remove_all (schema_of engine.old.book) p (filter_map object_in set.now)).end) }
    ensures book { engine.new.book ≡ engine.old.book }
{
    match engine.delete_all(set) {
        Ok(items) => note_named(progress, &items),
        Err(_) => Err(ProcedureRefusal::NoMemory),
    }
}

// Notes the cells that a deletion changed.
fn note_named(progress: &mut Progress, items: &Items) -> Result<(), ProcedureRefusal>
    ensures noted { IsNoted result (Adds (is_named items.now) progress.old.touched progress.new.touched) }
    ensures variables { progress.new.variables ≡ progress.old.variables }
    ensures reply { progress.new.reply ≡ progress.old.reply }
{
    match progress.touched.add_named(items) {
        Ok(()) => Ok(()),
        Err(_) => Err(ProcedureRefusal::NoMemory),
    }
}

/// `check e else "m"`
pub(crate) fn check<G: Ledger>(
    engine: &mut Engine,
    progress: &mut Progress,
    number: u32,
    condition: &Core,
    message: &Name,
    steps: &mut Steps<G>,
) -> Result<(), ProcedureRefusal>
    ensures runs { Runs engine.old.book engine.old.state engine.new.state progress.old progress.new result (run_statement (Check number condition.now message.now) (schema_of engine.old.book)) }
    ensures book { engine.new.book ≡ engine.old.book }
    ensures progress { progress.new ≡ progress.old }
{
    let holds = truth_of(engine, &progress.variables, number, condition, steps)?;
    if holds {
        return Ok(());
    }
    let message = message.copy()?;
    Err(ProcedureRefusal::CheckFailed(number, message))
}

/// `reply e`
pub(crate) fn reply<G: Ledger>(
    engine: &mut Engine,
    progress: &mut Progress,
    number: u32,
    value: &Core,
    steps: &mut Steps<G>,
) -> Result<(), ProcedureRefusal>
    ensures runs { Runs engine.old.book engine.old.state engine.new.state progress.old progress.new result (run_statement (Reply number value.now) (schema_of engine.old.book)) }
    ensures book { engine.new.book ≡ engine.old.book }
{
    let set = set_of(engine, &progress.variables, number, value, steps)?;
    if weight(set.as_slice()) > MAX_REPLY {
        return Err(ProcedureRefusal::Full(Which::Reply, 4096));
    }
    progress.reply = set;
    Ok(())
}

fn value_weight(value: &Value) -> u128
    ensures weight { result ≡ value_weight value.now }
    ensures few { result ≤ 1016 }
{
    match value {
        Value::Text(text) => 16 + text.bytes().len() as u128,
        Value::Truth(_) | Value::Number(_) | Value::Object(_) => 16,
    }
}

// The weight of a reply: 16 for each value, and the bytes of texts.
fn weight(values: &[Value]) -> u128
    ensures { result ≡ sum_by value_weight values.now }
{
    let mut total: u128 = 0;
    for value in values {
        total += value_weight(value);
    }
    total
}
