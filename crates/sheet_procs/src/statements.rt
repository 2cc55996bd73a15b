// Statements, one after another.
ghost use Rattle.std.specs.Prelude.{◌≡◌, ◌∷◌, [], ◌≤◌, length, take};
ghost use Rattle.sheet_books.specs.Schemas.{schema_of};
ghost use Rattle.sheet_columns.specs.declared.statement.CoreStatement.{If, For};
ghost use Rattle.sheet_meaning.specs.Statements.{is_present, run_statement, run_statements, course_statements, course_turn, course_turns, ended};
ghost use Rattle.sheet_types_rules.specs.Statements.{behind, behind_list};
ghost use Rattle.sheet_procs.specs.Resting.{MayRunKeeping};
ghost use Rattle.sheet_procs.specs.Runs.{Runs};
ghost use Rattle.sheet_procs.specs.Typed.{MayRun, MayTurn};

use crate::ProcedureRefusal;
use crate::changes::{bind, change, check, create, delete, reply};
use crate::formulas::{set_of, truth_of};
use crate::progress::Progress;
use sheet_columns::{Core, CoreStatement};
use sheet_engine::Engine;
use sheet_state::State;
use sheet_values::{Set, Steps, Value};
use std::alloc::Global;
use std::sync::ledger::Ledger;

/// Does what a statement does, or gives the refusal that ends the run.
#[cycle(run)]
pub(crate) fn run_statement<G: Ledger>(
    alloc: Global,
    engine: &mut Engine,
    progress: &mut Progress,
    statement: &CoreStatement,
    steps: &mut Steps<G>,
) -> Result<(), ProcedureRefusal>
    requires { MayRunKeeping (behind statement.now) engine.old.book engine.old.state progress.old }
    ensures runs { Runs engine.old.book engine.old.state engine.new.state progress.old progress.new result (run_statement statement.now (schema_of engine.old.book)) }
    ensures book { engine.new.book ≡ engine.old.book }
{
    match statement {
        CoreStatement::Let { number, value } => bind(engine, progress, *number, value, steps),
        CoreStatement::Change {
            number,
            change: how,
            target,
            value,
        } => change(engine, progress, *number, *how, target, value, steps),
        CoreStatement::New { number, target } => {
            create(alloc, engine, progress, *number, target, steps)
        }
        CoreStatement::Delete { number, objects } => {
            delete(engine, progress, *number, objects, steps)
        }
        CoreStatement::Check {
            number,
            condition,
            message,
        } => check(engine, progress, *number, condition, message, steps),
        CoreStatement::If {
            number,
            condition,
            body,
            otherwise,
        } => run_choice(
            alloc,
            engine,
            progress,
            *number,
            condition,
            body.list.as_slice(),
            otherwise.list.as_slice(),
            steps,
        ),
        CoreStatement::For {
            number,
            source,
            body,
        } => run_loop(
            alloc,
            engine,
            progress,
            *number,
            source,
            body.list.as_slice(),
            steps,
        ),
        CoreStatement::Reply { number, value } => reply(engine, progress, *number, value, steps),
    }
}

// `if e { } else { }`
#[cycle(run)]
fn run_choice<G: Ledger>(
    alloc: Global,
    engine: &mut Engine,
    progress: &mut Progress,
    number: u32,
    condition: &Core,
    body: &[CoreStatement],
    otherwise: &[CoreStatement],
    steps: &mut Steps<G>,
) -> Result<(), ProcedureRefusal>
    requires { MayRunKeeping (behind (If number condition.now (record { list = body.now }) (record { list = otherwise.now }))) engine.old.book engine.old.state progress.old }
    ensures runs { Runs engine.old.book engine.old.state engine.new.state progress.old progress.new result (run_statement (If number condition.now (record { list = body.now }) (record { list = otherwise.now })) (schema_of engine.old.book)) }
    ensures book { engine.new.book ≡ engine.old.book }
{
    let holds = truth_of(engine, &progress.variables, number, condition, steps)?;
    if holds {
        run_block(alloc, engine, progress, body, steps)
    } else {
        run_block(alloc, engine, progress, otherwise, steps)
    }
}

// `for x in e { }`
#[cycle(run)]
fn run_loop<G: Ledger>(
    alloc: Global,
    engine: &mut Engine,
    progress: &mut Progress,
    number: u32,
    source: &Core,
    body: &[CoreStatement],
    steps: &mut Steps<G>,
) -> Result<(), ProcedureRefusal>
    requires { MayRunKeeping (behind (For number source.now (record { list = body.now }))) engine.old.book engine.old.state progress.old }
    ensures runs { Runs engine.old.book engine.old.state engine.new.state progress.old progress.new result (run_statement (For number source.now (record { list = body.now })) (schema_of engine.old.book)) }
    ensures book { engine.new.book ≡ engine.old.book }
{
    let set = set_of(engine, &progress.variables, number, source, steps)?;
    run_turns(alloc, engine, progress, body, set.as_slice(), steps)
}

/// Runs statements in order. The first refusal ends the run.
#[cycle(run)]
pub(crate) fn run_statements<G: Ledger>(
    alloc: Global,
    engine: &mut Engine,
    progress: &mut Progress,
    statements: &[CoreStatement],
    steps: &mut Steps<G>,
) -> Result<(), ProcedureRefusal>
    requires { MayRun (behind_list statements.now) engine.old.book engine.old.state progress.old }
    ensures runs { Runs engine.old.book engine.old.state engine.new.state progress.old progress.new result (run_statements statements.now (schema_of engine.old.book)) }
    ensures book { engine.new.book ≡ engine.old.book }
{
    for statement in statements {
        match run_statement(alloc, engine, progress, statement, steps) {
            Ok(()) => {}
            Err(refusal) => return Err(refusal),
        }
    }
    Ok(())
}

// A block: at its end its variables are gone.
#[cycle(run)]
fn run_block<G: Ledger>(
    alloc: Global,
    engine: &mut Engine,
    progress: &mut Progress,
    body: &[CoreStatement],
    steps: &mut Steps<G>,
) -> Result<(), ProcedureRefusal>
    requires { MayRun (behind_list body.now) engine.old.book engine.old.state progress.old }
    ensures runs { Runs engine.old.book engine.old.state engine.new.state progress.old progress.new result (λ p. ended p (run_statements body.now (schema_of engine.old.book) p)) }
    ensures book { engine.new.book ≡ engine.old.book }
{
    let outer = progress.variables.len();
    match run_statements(alloc, engine, progress, body, steps) {
        Ok(()) => {
            progress.variables.cut(outer);
            Ok(())
        }
        Err(refusal) => Err(refusal),
    }
}

// A turn of `for`: one over an object that is no longer live is skipped.
#[cycle(run)]
fn run_turn<G: Ledger>(
    alloc: Global,
    engine: &mut Engine,
    progress: &mut Progress,
    body: &[CoreStatement],
    value: &Value,
    steps: &mut Steps<G>,
) -> Result<(), ProcedureRefusal>
    requires { MayTurn body.now (value.now ∷ []) engine.old.book engine.old.state progress.old }
    ensures runs { Runs engine.old.book engine.old.state engine.new.state progress.old progress.new result (λ p. (course_turn (course_statements body.now (schema_of engine.old.book)) value.now p).end) }
    ensures book { engine.new.book ≡ engine.old.book }
{
    if !is_present(engine.state(), value) {
        return Ok(());
    }
    let outer = progress.variables.len();
    let copy = value.copy()?;
    let set = Set::one(alloc, copy)?;
    progress.variables.push(set)?;
    match run_statements(alloc, engine, progress, body, steps) {
        Ok(()) => {
            progress.variables.cut(outer);
            Ok(())
        }
        Err(refusal) => Err(refusal),
    }
}

// `for`: a turn for each value in order.
#[cycle(run)]
fn run_turns<G: Ledger>(
    alloc: Global,
    engine: &mut Engine,
    progress: &mut Progress,
    body: &[CoreStatement],
    values: &[Value],
    steps: &mut Steps<G>,
) -> Result<(), ProcedureRefusal>
    requires { MayTurn body.now values.now engine.old.book engine.old.state progress.old }
    ensures runs { Runs engine.old.book engine.old.state engine.new.state progress.old progress.new result (λ p. (course_turns (course_statements body.now (schema_of engine.old.book)) values.now p).end) }
    ensures book { engine.new.book ≡ engine.old.book }
{
    for value in values {
        match run_turn(alloc, engine, progress, body, value, steps) {
            Ok(()) => {}
            Err(refusal) => return Err(refusal),
        }
    }
    Ok(())
}

// Whether a value is no object, or a live one.
fn is_present(state: &State, value: &Value) -> bool
    ensures { result ≡ is_present state.now.present.state value.now }
{
    match value {
        Value::Object(object) => state.is_live(*object),
        Value::Truth(_) | Value::Number(_) | Value::Text(_) => true,
    }
}
