// The run of a procedure.
ghost use Rattle.std.specs.Prelude.{◌≡◌, ◌<◌, length, IfOk};
ghost use Rattle.sheet_books.specs.declared.body.Procedure.{Procedure as TheProcedure};
ghost use Rattle.sheet_books.specs.Books.{IsWellTypedProcedure};
ghost use Rattle.sheet_books.specs.Schemas.{schema_of};
ghost use Rattle.sheet_columns.specs.Statements.{statements_in};
ghost use Rattle.sheet_engine.specs.Seen.{workbook_in};
ghost use Rattle.sheet_meaning.specs.Arguments.{AreArguments};
ghost use Rattle.sheet_meaning.specs.Procedure.{admit};
ghost use Rattle.sheet_meaning.specs.WellFormed.{IsFilled};
ghost use Rattle.sheet_procs_laws.specs.Keeping.{IsCallerIn};
ghost use Rattle.sheet_procs_touched.specs.Touched.{Covers};
ghost use Rattle.sheet_types_rules.specs.Statements.{behind_list};
ghost use Rattle.sheet_procs.specs.Acts.{ActsAs, AreGood};
ghost use Rattle.sheet_procs.specs.Performing.{first_progress, parts, behind_allow, Performed, Closes};
ghost use Rattle.sheet_procs.specs.Runs.{Runs};
ghost use Rattle.sheet_procs.specs.Typed.{MayRun};

use crate::ProcedureRefusal;
use crate::formulas::truth_of;
use crate::progress::Progress;
use crate::statements::run_statements;
use sheet_books::Procedure;
use sheet_columns::Core;
use sheet_engine::Engine;
use sheet_meaning::Caller;
use sheet_procs_touched::Touched;
use sheet_state_arguments::first_variables;
use sheet_values::{NoMemory, Set, Steps, Values};
use std::alloc::Global;
use std::sync::ledger::Ledger;

/// Runs the procedure with a number of the engine's book, for a caller and arguments, over a filled workbook. `object` is the
/// caller's object, live or not, which the operator lacks.
///
/// The reply is that of the procedure's last `reply`, and the state is the one that its statements leave. What was undone to
/// before the call may be undone to after it. The first refusal ends the run, and then the state is as before: `Denied` where
/// the `allow` formula is false, `FormulaFault` where a formula has a fault, `CheckFailed` where a check is false, `Full` where
/// a count would pass its limit, the weight of a reply too, and after the last statement `NotOneCell` with the least cell that
/// must hold exactly one value and doesn't. Its test takes time by the cells that the statements touched.
pub fn run_procedure<G: Ledger>(
    alloc: Global,
    engine: &mut Engine,
    procedure: u32,
    object: Option<u64>,
    operator: bool,
    arguments: &Values,
    steps: &mut Steps<G>,
) -> Result<Set, ProcedureRefusal>
    requires number { procedure < length engine.old.book.procedures }
    requires arguments { AreGood engine.old procedure arguments.now }
    requires object { IsCallerIn engine.old.state.present.state engine.old.book.callers object }
    requires filled { IsFilled (workbook_in engine.old) }
    ensures acts { ActsAs procedure (record { object = object; operator = operator }) arguments.now result engine.old engine.new }
    ensures book { engine.new.book ≡ engine.old.book }
{
    let book = engine.shared_book()?;
    let mark = engine.mark();
    let caller = Caller { object, operator };
    match act(
        alloc,
        engine,
        book.procedure(procedure),
        caller,
        arguments,
        steps,
    ) {
        Ok(reply) => Ok(reply),
        Err(refusal) => {
            engine.undo_to(mark);
            Err(refusal)
        }
    }
}

// Runs a procedure; after a refusal the state is to be undone.
fn act<G: Ledger>(
    alloc: Global,
    engine: &mut Engine,
    procedure: &Procedure,
    caller: Caller,
    arguments: &Values,
    steps: &mut Steps<G>,
) -> Result<Set, ProcedureRefusal>
    requires typed { IsWellTypedProcedure engine.old.book.columns engine.old.book.callers procedure.now }
    requires arguments { AreArguments engine.old.state.present.state procedure.now.parameters arguments.now }
    requires object { IsCallerIn engine.old.state.present.state engine.old.book.callers caller.object }
    requires filled { IsFilled (workbook_in engine.old) }
    ensures performed { Performed engine.old.book engine.old.state engine.new.state (parts engine.old.book procedure.now) (first_progress caller arguments.now) result }
    ensures book { engine.new.book ≡ engine.old.book }
{
    let progress = start(alloc, engine, caller, arguments)?;
    match admit(engine, &progress, &procedure.allow, steps) {
        Ok(()) => perform(alloc, engine, procedure, progress, steps),
        Err(refusal) => Err(refusal),
    }
}

// Where a run begins: the statements of a procedure whose arguments and caller fit may run there.
fn start(
    alloc: Global,
    engine: &Engine,
    caller: Caller,
    arguments: &Values,
) -> Result<Progress, NoMemory>
    ensures progress { IfOk result (λ progress. progress ≡ first_progress caller arguments.now) }
    ensures may { (p : TheProcedure) → IsWellTypedProcedure engine.now.book.columns engine.now.book.callers p → AreArguments engine.now.state.present.state p.parameters arguments.now → IsCallerIn engine.now.state.present.state engine.now.book.callers caller.object → MayRun (behind_list (statements_in p.body)) engine.now.book engine.now.state (first_progress caller arguments.now) }
{
    let _ = engine.state();
    let _ = engine.book().columns().count();
    let variables = first_variables(alloc, caller, arguments)?;
    Ok(Progress {
        variables,
        reply: Set::empty(alloc),
        touched: Touched::new(alloc),
    })
}

// The `allow` formula, which must be one. False refuses.
fn admit<G: Ledger>(
    engine: &mut Engine,
    progress: &Progress,
    allow: &Core,
    steps: &mut Steps<G>,
) -> Result<(), ProcedureRefusal>
    ensures runs { Runs engine.old.book engine.old.state engine.new.state progress.now progress.now result (admit (schema_of engine.old.book) allow.now) }
    ensures book { engine.new.book ≡ engine.old.book }
    ensures state { engine.new.state ≡ engine.old.state }
{
    let holds = truth_of(engine, &progress.variables, 0, allow, steps)?;
    if holds {
        Ok(())
    } else {
        Err(ProcedureRefusal::Denied)
    }
}

// The statements of a procedure, and the end of its run.
fn perform<G: Ledger>(
    alloc: Global,
    engine: &mut Engine,
    procedure: &Procedure,
    progress: Progress,
    steps: &mut Steps<G>,
) -> Result<Set, ProcedureRefusal>
    requires may { MayRun (behind_list (statements_in procedure.now.body)) engine.old.book engine.old.state progress }
    requires covered { Covers (workbook_in engine.old) progress.touched }
    ensures performed { Performed engine.old.book engine.old.state engine.new.state (behind_allow engine.old.book procedure.now) progress result }
    ensures book { engine.new.book ≡ engine.old.book }
{
    let mut progress = progress;
    match run_statements(
        alloc,
        engine,
        &mut progress,
        procedure.body.as_slice(),
        steps,
    ) {
        Ok(()) => finish(engine, progress),
        Err(refusal) => Err(refusal),
    }
}

// The end of a run: the test of the cells that must hold exactly one value, and the reply.
fn finish(engine: &Engine, progress: Progress) -> Result<Set, ProcedureRefusal>
    requires { Covers (workbook_in engine.now) progress.touched }
    ensures { Closes result engine.now.book engine.now.state progress }
{
    let Progress {
        variables: _,
        reply,
        touched,
    } = progress;
    let state = engine.state();
    match touched.first_unfilled(engine.book().columns(), state) {
        None => Ok(reply),
        Some((object, column)) => {
            let count = state.cell(object, column).len();
            Err(ProcedureRefusal::NotOneCell(object, column, count))
        }
    }
}
