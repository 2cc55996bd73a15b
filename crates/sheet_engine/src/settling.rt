// The settling of formula cells, by a list of started cells.
ghost use Rattle.std.specs.Prelude.{◌≡◌, ◌++◌, [], ◌∷◌, None, IsSome, true, false, IfOk, OnOk, IfSome};
ghost use Rattle.sheet_meaning.specs.Rounds.{value_of};
ghost use Rattle.sheet_meaning.specs.Support.{Cell, has_cell};
ghost use Rattle.sheet_meaning.specs.Told.{is_lacking};
ghost use Rattle.sheet_engine_laws.specs.Chains.{LastReads};
ghost use Rattle.sheet_engine.specs.Seen.{workbook_of};
ghost use Rattle.sheet_engine.specs.Standings.{stands, is_there, Grows};
ghost use Rattle.sheet_engine.specs.Started.{IsServed, IsUnderWay, AreLacking, Lacks, MayStart, Advances, cells_started, closing, found_of};

use crate::scene::{is_lacking, work_cell, work_expression};
use crate::standings::{Standing, Standings};
use sheet_books::Book;
use sheet_columns::{Cells, Core, Fault, Place, Variables};
use sheet_eval::Outcome;
use sheet_state::State;
use sheet_values::{NoMemory, Set, Steps};
use std::alloc::Global;
use std::sync::ledger::Ledger;

// A started cell: the cells that its formula needs, of which those before `next` have results.
#[derive(Drop)]
struct Frame {
    object: u64,
    column: u32,
    needs: Cells,
    next: usize,
}

/// The value of an expression, with the results of all cells that it reaches. Where memory is refused, some cells may be left that wait.
pub(crate) fn value_of<G: Ledger>(
    alloc: Global,
    book: &Book,
    state: &State,
    standings: &mut Standings,
    core: &Core,
    place: Place,
    variables: &Variables,
    steps: &mut Steps<G>,
) -> Result<Result<Set, Fault>, NoMemory>
    requires served { IsServed book.now state.now }
    requires under_way { IsUnderWay book.now state.now standings.old [] }
    ensures value { IfOk result (λ v. v ≡ value_of (workbook_of book.now state.now) core.now place variables.now) }
    ensures under_way { OnOk result (IsUnderWay book.now state.now standings.new []) }
{
    'turns: loop {
        match work_expression(alloc, book, state, standings, core, place, variables, steps)? {
            Outcome::Known(set) => return Ok(Ok(set)),
            Outcome::Fault(fault) => return Ok(Err(fault)),
            Outcome::Need(cells) => settle_all(alloc, book, state, standings, &cells, steps)?,
        }
    }
}

// Finds the results of cells, none of which has one, and of all cells that they reach.
fn settle_all<G: Ledger>(
    alloc: Global,
    book: &Book,
    state: &State,
    standings: &mut Standings,
    cells: &Cells,
    steps: &mut Steps<G>,
) -> Result<(), NoMemory>
    requires served { IsServed book.now state.now }
    requires under_way { IsUnderWay book.now state.now standings.old [] }
    requires lacking { AreLacking book.now state.now standings.old cells.now }
    ensures { OnOk result (Advances book.now state.now standings.old standings.new []) }
{
    let first = first_of(cells);
    settle(alloc, book, state, standings, first.0, first.1, steps)?;
    for k in 1..cells.len() {
        let cell = cells.at(k);
        settle(alloc, book, state, standings, cell.0, cell.1, steps)?;
    }
    Ok(())
}

// The first of some cells.
fn first_of(cells: &Cells) -> (u64, u32)
    requires { cells.now ≡ [] → ⊥ }
    ensures { has_cell cells.now result ≡ true }
{
    cells.at(0)
}

/// Finds the result of a cell, and of all cells that it reaches.
pub(crate) fn settle<G: Ledger>(
    alloc: Global,
    book: &Book,
    state: &State,
    standings: &mut Standings,
    object: u64,
    column: u32,
    steps: &mut Steps<G>,
) -> Result<(), NoMemory>
    requires served { IsServed book.now state.now }
    requires under_way { IsUnderWay book.now state.now standings.old [] }
    ensures under_way { OnOk result (IsUnderWay book.now state.now standings.new []) }
    ensures grows { OnOk result (Grows standings.old standings.new) }
    ensures found { OnOk result (is_lacking (found_of book.now state.now standings.new object column) ≡ false) }
{
    if !is_lacking(book, state, standings, object, column) {
        return Ok(());
    }
    let mut frames = Vec::new(alloc);
    start(
        alloc,
        book,
        state,
        standings,
        &mut frames,
        object,
        column,
        steps,
    )?;
    while let Some(frame) = frames.pop() {
        turn(alloc, book, state, standings, &mut frames, frame, steps)?;
    }
    Ok(())
}

// Takes the last started cell a step on: to the next cell that it needs, or to its own result.
fn turn<G: Ledger>(
    alloc: Global,
    book: &Book,
    state: &State,
    standings: &mut Standings,
    frames: &mut Vec<Frame>,
    frame: Frame,
    steps: &mut Steps<G>,
) -> Result<(), NoMemory>
    requires served { IsServed book.now state.now }
    requires under_way { IsUnderWay book.now state.now standings.old (frames.old.items ++ frame ∷ []) }
    ensures { OnOk result (Advances book.now state.now standings.old standings.new frames.new.items) }
{
    match next_need(book, state, standings, &frame.needs, frame.next) {
        Some((cell, next)) => {
            let mut frame = frame;
            frame.next = next;
            frames.push(frame)?;
            visit(alloc, book, state, standings, frames, cell.0, cell.1, steps)
        }
        None => work_again(alloc, book, state, standings, frames, frame, steps),
    }
}

// The first need from that place on that has no result, with the place behind it.
fn next_need(
    book: &Book,
    state: &State,
    standings: &Standings,
    needs: &Cells,
    from: usize,
) -> Option<((u64, u32), usize)>
    ensures needed { IfSome result (λ need. has_cell needs.now need.0 ≡ true) }
    ensures lacking { IfSome result (λ need. Lacks book.now state.now standings.now need.0) }
{
    for place in from..needs.len() {
        let cell = needs.at(place);
        if is_lacking(book, state, standings, cell.0, cell.1) {
            return Some((cell, place + 1));
        }
    }
    None
}

// Works out the last started cell, whose needs have results: it gets its own, or what it still needs is next.
fn work_again<G: Ledger>(
    alloc: Global,
    book: &Book,
    state: &State,
    standings: &mut Standings,
    frames: &mut Vec<Frame>,
    frame: Frame,
    steps: &mut Steps<G>,
) -> Result<(), NoMemory>
    requires served { IsServed book.now state.now }
    requires under_way { IsUnderWay book.now state.now standings.old (frames.old.items ++ frame ∷ []) }
    ensures { OnOk result (Advances book.now state.now standings.old standings.new frames.new.items) }
{
    let object = frame.object;
    let column = frame.column;
    match work_cell(alloc, book, state, standings, object, column, steps)? {
        Outcome::Known(set) => standings.put(object, column, Standing::Settled(Ok(set))),
        Outcome::Fault(fault) => standings.put(object, column, Standing::Settled(Err(fault))),
        Outcome::Need(needs) => {
            let first = first_of(&needs);
            frames.push(Frame {
                object,
                column,
                needs,
                next: 1,
            })?;
            visit(
                alloc, book, state, standings, frames, first.0, first.1, steps,
            )
        }
    }
}

// Goes to a cell without a result that the last started cell reads: it is started, unless it is so already. Then all started cells wait
// for one another.
fn visit<G: Ledger>(
    alloc: Global,
    book: &Book,
    state: &State,
    standings: &mut Standings,
    frames: &mut Vec<Frame>,
    object: u64,
    column: u32,
    steps: &mut Steps<G>,
) -> Result<(), NoMemory>
    requires served { IsServed book.now state.now }
    requires under_way { IsUnderWay book.now state.now standings.old frames.old.items }
    requires read { LastReads (workbook_of book.now state.now) (cells_started frames.old.items) (object, column) }
    requires lacking { Lacks book.now state.now standings.old (object, column) }
    ensures { OnOk result (Advances book.now state.now standings.old standings.new frames.new.items) }
{
    if standings.is_started(object, column) {
        close_all(standings, frames)
    } else {
        start(alloc, book, state, standings, frames, object, column, steps)
    }
}

// Works out a cell that isn't started: it gets its result, or is the last started cell.
fn start<G: Ledger>(
    alloc: Global,
    book: &Book,
    state: &State,
    standings: &mut Standings,
    frames: &mut Vec<Frame>,
    object: u64,
    column: u32,
    steps: &mut Steps<G>,
) -> Result<(), NoMemory>
    requires served { IsServed book.now state.now }
    requires under_way { IsUnderWay book.now state.now standings.old frames.old.items }
    requires next { MayStart book.now state.now frames.old.items (object, column) }
    requires there { is_there book.now state.now.present.state object column ≡ true }
    requires fresh { stands standings.old (object, column) ≡ None }
    ensures advances { OnOk result (Advances book.now state.now standings.old standings.new frames.new.items) }
    ensures begun { OnOk result (IsSome (stands standings.new (object, column))) }
{
    match work_cell(alloc, book, state, standings, object, column, steps)? {
        Outcome::Known(set) => standings.put(object, column, Standing::Settled(Ok(set))),
        Outcome::Fault(fault) => standings.put(object, column, Standing::Settled(Err(fault))),
        Outcome::Need(needs) => {
            standings.put(object, column, Standing::Started)?;
            frames.push(Frame {
                object,
                column,
                needs,
                next: 0,
            })?;
            Ok(())
        }
    }
}

// All started cells wait for one another: each is a cycle.
fn close_all(standings: &mut Standings, frames: &mut Vec<Frame>) -> Result<(), NoMemory>
    ensures empty { OnOk result (frames.new.items ≡ []) }
    ensures closed { OnOk result ((x : Cell) → stands standings.new x ≡ closing standings.old (cells_started frames.old.items) x) }
{
    while let Some(frame) = frames.pop() {
        standings.put(
            frame.object,
            frame.column,
            Standing::Settled(Err(Fault::Cycle)),
        )?;
    }
    Ok(())
}
