// The state of a workbook with the results that are found.
ghost use Rattle.std.specs.Prelude.{◌≡◌, ◌+◌, [], ◌∷◌, IfOk, true};
ghost use Rattle.sheet_values.specs.declared.value.Value.TheVariants.{Object};
ghost use Rattle.sheet_meaning.specs.Told.{is_lacking};
ghost use Rattle.sheet_engine.specs.Standings.{is_there};
ghost use Rattle.sheet_engine.specs.Started.{IsServed, ResultsHold, CellComesTo, ExpressionComesTo, IsFoundAnswer, found_of};

use crate::standings::{Standing, Standings};
use sheet_books::Book;
use sheet_columns::{Column, Core, Fault, Place, Variables};
use sheet_eval::{Lookup, Outcome, evaluate_unread};
use sheet_state::State;
use sheet_values::{NoMemory, Set, Steps, Value};
use std::alloc::Global;
use std::sync::ledger::Ledger;

// What evaluations are worked out from. What is no formula cell has the result `cycle`.
#[derive(Clone, Copy)]
struct Scene<'a> {
    book: &'a Book,
    state: &'a State,
    standings: &'a Standings,
    cycle: &'a Result<Set, Fault>,
}

impl<'a> Lookup for Scene<'a> {
    ghost use Rattle.sheet_engine.specs.Standings.{told_of, found_in};

    ghost told = { λ s. told_of s.state.now.present.state (found_in s.book.now s.state.now.present.state s.cycle.now s.standings.now) };

    fn cell(&self, object: u64, column: u32) -> &Set {
        self.state.cell(object, column)
    }

    fn children(&self, object: u64, column: u32) -> &Set {
        self.state.children(object, column)
    }

    fn parent(&self, object: u64) -> Option<u64> {
        self.state.parent(object)
    }

    fn is_live(&self, object: u64) -> bool {
        self.state.is_live(object)
    }

    fn worked(&self, object: u64, column: u32) -> Option<&Result<Set, Fault>> {
        if let Some(Standing::Settled(result)) = self.standings.find(object, column) {
            return Some(result);
        }
        if is_formula_cell(self.book, self.state, object, column) {
            None
        } else {
            Some(self.cycle)
        }
    }
}

// Whether there is such a formula cell.
#[tactic(auto, using(crate::proofs::BookCells::no_root, crate::proofs::BookCells::no_column))]
fn is_formula_cell(book: &Book, state: &State, object: u64, column: u32) -> bool
    ensures { result ≡ is_there book.now state.now.present.state object column }
{
    let columns = book.columns();
    if column >= columns.count() {
        return false;
    }
    if column == 0 {
        return false;
    }
    match columns.get(column) {
        Column::Formula { kind: _ } => state.column_of(object) == Some(columns.above(column)),
        _ => false,
    }
}

/// Whether a formula cell has no result yet.
pub(crate) fn is_lacking(
    book: &Book,
    state: &State,
    standings: &Standings,
    object: u64,
    column: u32,
) -> bool
    ensures { result ≡ is_lacking (found_of book.now state.now standings.now object column) }
{
    if let Some(Standing::Settled(_)) = standings.find(object, column) {
        return false;
    }
    is_formula_cell(book, state, object, column)
}

// Works out an expression over the results that are found.
fn evaluated<G: Ledger>(
    alloc: Global,
    book: &Book,
    state: &State,
    standings: &Standings,
    core: &Core,
    place: Place,
    variables: &Variables,
    steps: &mut Steps<G>,
) -> Result<Outcome, NoMemory>
    ensures answer { IfOk result (IsFoundAnswer book.now state.now standings.now core.now place variables.now) }
    ensures ticks { steps.new ≡ steps.old + 1 }
{
    let cycle: Result<Set, Fault> = Err(Fault::Cycle);
    let scene = Scene {
        book,
        state,
        standings,
        cycle: &cycle,
    };
    evaluate_unread(alloc, core, place, variables, &scene, steps)
}

/// Works out an expression: its value, or the cells that it needs before.
pub(crate) fn work_expression<G: Ledger>(
    alloc: Global,
    book: &Book,
    state: &State,
    standings: &Standings,
    core: &Core,
    place: Place,
    variables: &Variables,
    steps: &mut Steps<G>,
) -> Result<Outcome, NoMemory>
    requires served { IsServed book.now state.now }
    requires results { ResultsHold book.now state.now standings.now }
    ensures comes { IfOk result (ExpressionComesTo book.now state.now standings.now core.now place variables.now) }
    ensures ticks { steps.new ≡ steps.old + 1 }
{
    evaluated(alloc, book, state, standings, core, place, variables, steps)
}

/// Works out a formula cell: its result, or the cells that it needs before.
pub(crate) fn work_cell<G: Ledger>(
    alloc: Global,
    book: &Book,
    state: &State,
    standings: &Standings,
    object: u64,
    column: u32,
    steps: &mut Steps<G>,
) -> Result<Outcome, NoMemory>
    requires served { IsServed book.now state.now }
    requires results { ResultsHold book.now state.now standings.now }
    requires there { is_there book.now state.now.present.state object column ≡ true }
    ensures comes { IfOk result (CellComesTo book.now state.now standings.now (object, column)) }
{
    let this = this_object(alloc, object)?;
    let place = Place::Cell(object, column);
    evaluated(
        alloc,
        book,
        state,
        standings,
        book.formula(column),
        place,
        &this,
        steps,
    )
}

// The variables of a formula cell: its object.
fn this_object(alloc: Global, object: u64) -> Result<Variables, NoMemory>
    ensures { IfOk result (λ v. v ≡ (Object object ∷ []) ∷ []) }
{
    let mut this = Variables::new(alloc);
    this.push(Set::one(alloc, Value::Object(object))?)?;
    Ok(this)
}
