// Calls of procedures.
ghost use Rattle.std.specs.Prelude.{◌≡◌, ◌<◌, [], ℕ, List, Result, length, slice_get, Some, None};
ghost use Rattle.sheet_books.specs.declared.body.Procedure.{Procedure as TheProcedure};
ghost use Rattle.sheet_callers.specs.Callers.{Caller as TheCaller, caller_at, IsWithin};
ghost use Rattle.sheet_callers.specs.Judging.{IsNext};
ghost use Rattle.sheet_machine_laws.specs.Act.{by_run, run_of, who as who_is, call as the_call};
ghost use Rattle.sheet_machine_laws.specs.Judging.{for_caller, where_fresh, with_arguments};
ghost use Rattle.sheet_machine.specs.Gives.{Gives, HasLine, HasLineOf};
ghost use Rattle.sheet_machine.specs.Held.{holding, IsReady};
ghost use Rattle.sheet_meaning.specs.Statements.{Point};
ghost use Rattle.sheet_meaning.specs.declared.refusal.Refusal.{Refusal as Stop};
ghost use Rattle.sheet_procs.specs.Acts.{AreGood};
ghost use Rattle.sheet_procs.specs.Runs.{IsRefusal};
ghost use Rattle.sheet_requests.specs.Lines.{request_line};

use crate::accepting::accept_run;
use crate::answered::{Answered, refuse, tell};
use crate::held::Held;
use crate::judging::{judge, who};
use sheet_procs::{ProcedureRefusal, bad_argument, run_procedure};
use sheet_requests::{Refusal, Request};
use sheet_values::{Name, NoMemory, Steps, Values};
use sheet_wire::print_request;
use std::sync::ledger::Ledger;

// The refusal of a run, after which all is as before.
fn refuse_run(held: &Held, refusal: ProcedureRefusal) -> Result<Answered, NoMemory>
    requires settled { held.now.engine.state.earlier ≡ [] }
    requires none { held.now.pending ≡ None }
    ensures { (k n : ℕ) (line : List ℕ) (r : Result Point Stop) → IsRefusal refusal r → Gives (by_run (holding held.now) k n line r) (holding held.now) held.now result }
{
    match refusal {
        ProcedureRefusal::Denied => refuse(held, Refusal::Denied),
        ProcedureRefusal::CheckFailed(number, message) => {
            refuse(held, Refusal::CheckFailed(number, message))
        }
        ProcedureRefusal::FormulaFault(fault) => refuse(held, Refusal::FormulaFault(fault)),
        ProcedureRefusal::NotOneCell(object, column, count) => {
            refuse(held, Refusal::NotOneCell(object, column, count))
        }
        ProcedureRefusal::Full(which, limit) => refuse(held, Refusal::Full(which, limit)),
        ProcedureRefusal::NoMemory => Err(NoMemory),
    }
}

// The run of a procedure whose arguments fit, by a caller whose number is fresh.
fn run<G: Ledger>(
    held: &mut Held,
    procedure: u32,
    caller: u32,
    number: u64,
    line: Vec<u8>,
    with: &Values,
    steps: &mut Steps<G>,
) -> Result<Answered, NoMemory>
    requires ready { IsReady held.old }
    requires next { IsNext (caller_at held.old.callers caller) number }
    requires counted { procedure < length held.old.engine.book.procedures }
    requires good { AreGood held.old.engine procedure with.now }
    ensures gives { (c : TheCaller) (p : TheProcedure) → caller_at held.old.callers caller ≡ Some c → slice_get held.old.engine.book.procedures procedure ≡ Some p → Gives (by_run (holding held.old) caller number line.items (run_of (holding held.old) p (who_is caller c) with.now)) (holding held.old) held.new result }
    ensures line { HasLine held.new line.items }
{
    let mark = held.engine.mark();
    let who = who(&held.callers, caller);
    match run_procedure(
        held.alloc,
        &mut held.engine,
        procedure,
        who.object,
        who.operator,
        with,
        steps,
    ) {
        Ok(set) => accept_run(held, mark, caller, number, line, set),
        Err(refusal) => refuse_run(held, refusal),
    }
}

// A call of the procedure of that number, where its arguments fit.
fn call_found<G: Ledger>(
    held: &mut Held,
    procedure: u32,
    caller: u32,
    number: u64,
    line: Vec<u8>,
    with: &Values,
    steps: &mut Steps<G>,
) -> Result<Answered, NoMemory>
    requires ready { IsReady held.old }
    requires next { IsNext (caller_at held.old.callers caller) number }
    requires counted { procedure < length held.old.engine.book.procedures }
    ensures gives { (c : TheCaller) (p : TheProcedure) → caller_at held.old.callers caller ≡ Some c → slice_get held.old.engine.book.procedures procedure ≡ Some p → Gives (with_arguments (holding held.old) p.parameters with.now (by_run (holding held.old) caller number line.items (run_of (holding held.old) p (who_is caller c) with.now))) (holding held.old) held.new result }
    ensures line { HasLine held.new line.items }
{
    let parameters = &held.engine.book().procedure(procedure).parameters;
    match bad_argument(&held.engine, parameters, with) {
        Some(bad) => refuse(held, Refusal::BadArgument(bad)),
        None => run(held, procedure, caller, number, line, with, steps),
    }
}

// A call of the procedure of that name.
fn call_named<G: Ledger>(
    held: &mut Held,
    name: &Name,
    caller: u32,
    number: u64,
    line: Vec<u8>,
    with: &Values,
    steps: &mut Steps<G>,
) -> Result<Answered, NoMemory>
    requires ready { IsReady held.old }
    requires next { IsNext (caller_at held.old.callers caller) number }
    ensures gives { (c : TheCaller) → caller_at held.old.callers caller ≡ Some c → Gives (the_call (holding held.old) caller c name.now number line.items with.now) (holding held.old) held.new result }
    ensures line { HasLine held.new line.items }
{
    match held.engine.book().procedure_named(name.bytes()) {
        Some(procedure) => call_found(held, procedure, caller, number, line, with, steps),
        None => refuse(held, Refusal::UnknownName),
    }
}

// A call by a caller, with the request's line.
fn call_numbered<G: Ledger>(
    held: &mut Held,
    name: &Name,
    caller: u32,
    number: u64,
    line: Vec<u8>,
    with: &Values,
    steps: &mut Steps<G>,
) -> Result<Answered, NoMemory>
    requires ready { IsReady held.old }
    requires within { IsWithin held.old.callers caller }
    ensures gives { (c : TheCaller) → caller_at held.old.callers caller ≡ Some c → Gives (where_fresh (holding held.old) c number line.items (the_call (holding held.old) caller c name.now number line.items with.now)) (holding held.old) held.new result }
    ensures line { HasLine held.new line.items }
{
    match judge(&held.callers, caller, number, line.as_slice())? {
        Some(reply) => tell(held, reply),
        None => call_named(held, name, caller, number, line, with, steps),
    }
}

/// A call of a procedure, whose request has that key, name, number and arguments.
pub(crate) fn call<G: Ledger>(
    held: &mut Held,
    request: &Request,
    key: &Name,
    name: &Name,
    number: u64,
    with: &Values,
    steps: &mut Steps<G>,
) -> Result<Answered, NoMemory>
    requires ready { IsReady held.old }
    ensures gives { Gives (for_caller (holding held.old) key.now (λ k c. where_fresh (holding held.old) c number (request_line request.now) (the_call (holding held.old) k c name.now number (request_line request.now) with.now))) (holding held.old) held.new result }
    ensures line { HasLineOf held.new request.now }
{
    match held.callers.find_key(key.bytes()) {
        Some(caller) => {
            let line = print_request(held.alloc, request)?;
            call_numbered(held, name, caller, number, line, with, steps)
        }
        None => refuse(held, Refusal::UnknownKey),
    }
}
