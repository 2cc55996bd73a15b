// One evaluation, and its answer.
ghost use Rattle.std.specs.Prelude.{◌≡◌, ◌+◌, [], ◌∷◌, IfOk, OnOk, filter};
ghost use Rattle.sheet_meaning.specs.Formula.{run};
ghost use Rattle.sheet_meaning.specs.Support.{with_cells};
ghost use Rattle.sheet_eval.specs.Answer.{IsAnswer, Answers};
ghost use Rattle.sheet_eval.specs.Told.{world_told, noted, Came, lacks, used_cells, used_items, with_items};

use crate::lookup::Lookup;
use crate::scene::Scene;
use crate::working::work;
use sheet_columns::{Cells, Core, Fault, Place, Reads, Variables};
use sheet_eval_sets::{Part, Uses};
use sheet_values::{NoMemory, Set, Steps};
use std::alloc::Global;
use std::sync::ledger::Ledger;

/// What an evaluation comes to.
#[derive(Drop)]
pub enum Outcome {
    /// The set of the formula.
    Known(Set),
    /// The formula has a fault; `cycle` stands for no result.
    Fault(Fault),
    /// These formula cells are used, and aren't worked out.
    Need(Cells),
}

/// Works out a formula over what a lookup tells. A looked-up `cycle` is no result. `Need` holds exactly the formula cells that are used
/// and that the lookup lacks, in the order of first use; it comes exactly where there is one. What is read is added to `reads`.
pub fn evaluate<L: Lookup, G: Ledger>(
    alloc: Global,
    core: &Core,
    place: Place,
    variables: &Variables,
    lookup: &L,
    reads: &mut Reads,
    steps: &mut Steps<G>,
) -> Result<Outcome, NoMemory>
    ensures answer { IfOk result (λ a. IsAnswer (L.told lookup.now) (run core.now (world_told (L.told lookup.now)) place variables.now) a) }
    ensures items { OnOk result (reads.new.items ≡ with_items reads.old.items (used_items (run core.now (world_told (L.told lookup.now)) place variables.now).uses)) }
    ensures cells { OnOk result (reads.new.cells ≡ with_cells reads.old.cells (used_cells (run core.now (world_told (L.told lookup.now)) place variables.now).uses)) }
    ensures ticks { steps.new ≡ steps.old + 1 }
{
    steps.tick();
    let mut uses = Uses::new(alloc);
    let answer = answered(alloc, core, place, variables, lookup, &mut uses)?;
    uses.tell(reads)?;
    Ok(answer)
}

/// As `evaluate`, for who doesn't want to know what is read.
pub fn evaluate_unread<L: Lookup, G: Ledger>(
    alloc: Global,
    core: &Core,
    place: Place,
    variables: &Variables,
    lookup: &L,
    steps: &mut Steps<G>,
) -> Result<Outcome, NoMemory>
    ensures answer { IfOk result (λ a. IsAnswer (L.told lookup.now) (run core.now (world_told (L.told lookup.now)) place variables.now) a) }
    ensures ticks { steps.new ≡ steps.old + 1 }
{
    steps.tick();
    let mut uses = Uses::of_cells(alloc);
    answered(alloc, core, place, variables, lookup, &mut uses)
}

// The answer, where nothing was used before.
fn answered<L: Lookup>(
    alloc: Global,
    core: &Core,
    place: Place,
    variables: &Variables,
    lookup: &L,
    uses: &mut Uses,
) -> Result<Outcome, NoMemory>
    requires { uses.old.cells ≡ [] }
    ensures answer { IfOk result (λ a. IsAnswer (L.told lookup.now) (run core.now (world_told (L.told lookup.now)) place variables.now) a) }
    ensures uses { OnOk result (uses.new ≡ noted uses.old (run core.now (world_told (L.told lookup.now)) place variables.now).uses) }
{
    let outcome = outcome_of(alloc, core, place, variables, lookup, uses)?;
    let need = lacking(alloc, uses, lookup)?;
    answer(outcome, need)
}

// What the formula comes to, where none of its comprehensions has bound a variable yet.
fn outcome_of<'a, L: Lookup>(
    alloc: Global,
    core: &Core,
    place: Place,
    variables: &'a Variables,
    lookup: &'a L,
    uses: &mut Uses,
) -> Result<Result<Part<'a>, Fault>, NoMemory>
    ensures { IfOk result (λ o. Came (run core.now (world_told (L.told lookup.now)) place variables.now) uses.old o uses.new) }
{
    let scene = Scene {
        alloc,
        place,
        lookup,
        variables,
    };
    let mut bound = Variables::new(alloc);
    work(&scene, core, &mut bound, uses)
}

// The cells that the lookup lacks.
fn lacking<L: Lookup>(alloc: Global, uses: &Uses, lookup: &L) -> Result<Cells, NoMemory>
    ensures { IfOk result (λ need. need ≡ with_cells [] (filter (lacks (L.told lookup.now)) uses.now.cells)) }
{
    let mut need = Cells::new(alloc);
    match uses.first_cell() {
        None => Ok(need),
        Some(cell) => {
            note_lacking(cell, lookup, &mut need)?;
            note_others(uses.other_cells(), lookup, &mut need)?;
            Ok(need)
        }
    }
}

fn note_others<L: Lookup>(cells: &Cells, lookup: &L, need: &mut Cells) -> Result<(), NoMemory>
    ensures { OnOk result (need.new ≡ with_cells need.old (filter (lacks (L.told lookup.now)) cells.now)) }
{
    for k in 0..cells.len() {
        note_lacking(cells.at(k), lookup, need)?;
    }
    Ok(())
}

fn note_lacking<L: Lookup>(cell: (u64, u32), lookup: &L, need: &mut Cells) -> Result<(), NoMemory>
    ensures { OnOk result (need.new ≡ with_cells need.old (filter (lacks (L.told lookup.now)) (cell ∷ []))) }
{
    if lookup.worked(cell.0, cell.1).is_none() {
        need.push(cell)?;
    }
    Ok(())
}

fn answer(outcome: Result<Part<'_>, Fault>, need: Cells) -> Result<Outcome, NoMemory>
    ensures { IfOk result (λ a. Answers need outcome.entry a) }
{
    if need.len() > 0 {
        return Ok(Outcome::Need(need));
    }
    match outcome {
        Ok(part) => {
            let set = part.into_set()?;
            Ok(Outcome::Known(set))
        }
        Err(fault) => Ok(Outcome::Fault(fault)),
    }
}
