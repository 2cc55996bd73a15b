// A filled workbook, and calls of its procedures.
ghost use Rattle.std.specs.Prelude.{◌≡◌, ◌<◌, length, true};
ghost use Rattle.sheet_engine.specs.Seen.{workbook_in};
ghost use Rattle.sheet_meaning.specs.WellFormed.{IsFilled};
ghost use Rattle.sheet_procs_laws.specs.Keeping.{IsCallerIn};

use sheet_books::{Book, books_start_well};
use sheet_engine::Engine;
use sheet_procs::{ProcedureRefusal, bad_argument, run_procedure};
use sheet_state::State;
use sheet_values::{NoMemory, Set, Steps, Values};
use std::alloc::Global;
use std::marker::Model;
use std::rc::Rc;
use std::sync::ledger::Ledger;

/// A workbook in which each cell that must hold exactly one value does.
#[derive(Drop)]
pub struct Filled {
    engine: Engine,
    alloc: Global,
}

impl Model for Filled {
    ghost use Rattle.sheet_engine.specs.Seen.{Seen, workbook_in};
    ghost use Rattle.sheet_meaning.specs.WellFormed.{IsFilled};
    ghost use Rattle.sheet_columns.specs.contracts.formula.Core as core;
    ghost use Rattle.sheet_columns.specs.contracts.statement.CoreStatement as statement;
    ghost use Rattle.sheet_columns.specs.contracts.statement.Statements as statements;
    ghost use Rattle.std.specs.Coded.{codes};

    ghost Value = { Seen };

    ghost coded = { Prim.hlevel (codes, core.the_row.coded, statement.the_row.coded, statements.the_row.coded) };

    ghost view = { λ f. f.engine };

    ghost invariant = { λ f. IsFilled (workbook_in f.engine) };
}

/// What a call comes to.
#[derive(Debug, Drop)]
pub enum Called {
    /// There is no procedure of the name.
    NoProcedure,
    /// The caller's object isn't a live one of the callers' column.
    NoCaller,
    /// The argument with this number doesn't fit; 0 where there are too many or too few.
    BadArgument(u32),
    /// The procedure ran.
    Ran(Result<Set, ProcedureRefusal>),
}

impl Filled {
    /// The workbook of a book at its start.
    pub fn new(alloc: Global, book: Book) -> Result<Filled, NoMemory> {
        books_start_well();
        let _ = book.columns();
        let engine = Engine::new(alloc, book)?;
        Ok(Filled { engine, alloc })
    }

    /// The book.
    pub fn book(&self) -> &Book {
        self.engine.book()
    }

    /// The same book, to be held while procedures are called.
    pub fn shared_book(&self) -> Result<Rc<Book>, NoMemory> {
        self.engine.shared_book()
    }

    /// The state.
    pub fn state(&self) -> &State {
        self.engine.state()
    }

    /// Drops what would take the workbook back.
    pub fn forget(&mut self) {
        self.engine.forget();
    }

    /// Calls the procedure of a name, for the operator or the caller with an object.
    pub fn call<G: Ledger>(
        &mut self,
        name: &[u8],
        caller: Option<u64>,
        arguments: &Values,
        steps: &mut Steps<G>,
    ) -> Called {
        call_named(self.alloc, &mut self.engine, name, caller, arguments, steps)
    }
}

// Calls the procedure of a name, where there is one and the caller is one.
fn call_named<G: Ledger>(
    alloc: Global,
    engine: &mut Engine,
    name: &[u8],
    caller: Option<u64>,
    arguments: &Values,
    steps: &mut Steps<G>,
) -> Called
    requires { IsFilled (workbook_in engine.old) }
    ensures { IsFilled (workbook_in engine.new) }
{
    if !is_caller(engine, caller) {
        return Called::NoCaller;
    }
    match engine.book().procedure_named(name) {
        Some(procedure) => run(alloc, engine, procedure, caller, arguments, steps),
        None => Called::NoProcedure,
    }
}

// Whether it is the operator, or a live object of the callers' column.
fn is_caller(engine: &Engine, caller: Option<u64>) -> bool
    ensures { result ≡ true → IsCallerIn engine.now.state.present.state engine.now.book.callers caller }
{
    match caller {
        None => true,
        Some(object) => match engine.state().column_of(object) {
            Some(column) => column == engine.book().callers_column(),
            None => false,
        },
    }
}

// Runs a procedure where its arguments fit.
fn run<G: Ledger>(
    alloc: Global,
    engine: &mut Engine,
    procedure: u32,
    caller: Option<u64>,
    arguments: &Values,
    steps: &mut Steps<G>,
) -> Called
    requires number { procedure < length engine.old.book.procedures }
    requires object { IsCallerIn engine.old.state.present.state engine.old.book.callers caller }
    requires filled { IsFilled (workbook_in engine.old) }
    ensures { IsFilled (workbook_in engine.new) }
{
    let parameters = &engine.book().procedure(procedure).parameters;
    match bad_argument(engine, parameters, arguments) {
        Some(bad) => Called::BadArgument(bad),
        None => Called::Ran(run_procedure(
            alloc,
            engine,
            procedure,
            caller,
            caller.is_none(),
            arguments,
            steps,
        )),
    }
}
