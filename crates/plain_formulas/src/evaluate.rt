// The working out of a formula.
ghost use Rattle.std.specs.Prelude.{◌≡◌, ◌++◌, ◌∷◌, [], IfOk, map};
ghost use Rattle.sheet_meaning.specs.Formula.{run, bind};
ghost use Rattle.plain_lists.specs.Told.{scene};

use crate::forms::{
    calculated, chosen, combined, compared, comprehended, connected, counted, denied, extreme_of,
    in_order, joined_texts, known, negated, only, quantified, set_of, stepped, summed, values_of,
};
use plain_lists::{Way, WorkedCell, alone, copied, variable};
use sheet_columns::{Core, Place};
use sheet_meaning::{Run, State};
use sheet_values::{NoMemory, Value, Values};
use std::alloc::Global;

// The variables with one more, which holds the value.
fn bound(alloc: Global, variables: &[Values], value: &Value) -> Result<Vec<Values>, NoMemory>
    ensures { IfOk result (λ list. list.items ≡ bind variables.now value.now) }
{
    let mut list = Vec::new(alloc);
    for set in variables {
        list.push(copied(alloc, set.as_slice())?)?;
    }
    list.push(alone(alloc, value.copy()?)?)?;
    Ok(list)
}

/// Works out a formula where the workbook has this state, and some formula cells are worked out. The
/// place is that of the faults that arise in the formula, and the variables go by position.
///
/// All parts are worked out, also those that are skipped: of these the outcomes and uses are dropped.
#[cycle(work)]
pub fn work_out(
    alloc: Global,
    core: &Core,
    state: &State,
    worked: &[WorkedCell],
    place: Place,
    variables: &[Values],
) -> Result<Run<Values>, NoMemory>
    ensures { IfOk result (λ r. r ≡ run core.now (scene state.now worked.now) place variables.now) }
{
    match core {
        Core::Truth(truth) => known(alloc, Value::Truth(*truth)),
        Core::Number(number) => known(alloc, Value::Number(*number)),
        Core::Text(text) => {
            let text = text.copy()?;
            known(alloc, Value::Text(text))
        }
        Core::Root => known(alloc, Value::Object(0)),
        Core::Variable(position) => variable(alloc, state, variables, *position),
        Core::ObjectStep(objects, column) => {
            let objects = work_out(alloc, objects.get(), state, worked, place, variables)?;
            stepped(alloc, state, worked, Way::Children(*column), objects)
        }
        Core::StateStep(objects, column) => {
            let objects = work_out(alloc, objects.get(), state, worked, place, variables)?;
            stepped(alloc, state, worked, Way::OfState(*column), objects)
        }
        Core::FormulaStep(objects, column) => {
            let objects = work_out(alloc, objects.get(), state, worked, place, variables)?;
            stepped(alloc, state, worked, Way::OfFormula(*column), objects)
        }
        Core::Up(objects) => {
            let objects = work_out(alloc, objects.get(), state, worked, place, variables)?;
            stepped(alloc, state, worked, Way::Parent, objects)
        }
        Core::Set(parts) => {
            let parts = each_part(alloc, parts.as_slice(), state, worked, place, variables)?;
            set_of(alloc, parts)
        }
        Core::Combine(operator, left, right) => {
            let left = work_out(alloc, left.get(), state, worked, place, variables)?;
            let right = work_out(alloc, right.get(), state, worked, place, variables)?;
            combined(alloc, *operator, left, right)
        }
        Core::Compare(test, left, right) => {
            let left = work_out(alloc, left.get(), state, worked, place, variables)?;
            let right = work_out(alloc, right.get(), state, worked, place, variables)?;
            compared(alloc, *test, left, right)
        }
        Core::Order(test, left, right) => {
            let left = work_out(alloc, left.get(), state, worked, place, variables)?;
            let right = work_out(alloc, right.get(), state, worked, place, variables)?;
            in_order(alloc, *test, place, left, right)
        }
        Core::Arithmetic(operator, left, right) => {
            let left = work_out(alloc, left.get(), state, worked, place, variables)?;
            let right = work_out(alloc, right.get(), state, worked, place, variables)?;
            calculated(alloc, *operator, place, left, right)
        }
        Core::Negate(part) => {
            let part = work_out(alloc, part.get(), state, worked, place, variables)?;
            negated(alloc, place, part)
        }
        Core::Join(left, right) => {
            let left = work_out(alloc, left.get(), state, worked, place, variables)?;
            let right = work_out(alloc, right.get(), state, worked, place, variables)?;
            joined_texts(alloc, place, left, right)
        }
        Core::Not(part) => {
            let part = work_out(alloc, part.get(), state, worked, place, variables)?;
            denied(alloc, place, part)
        }
        Core::Connect(connective, left, right) => {
            let left = work_out(alloc, left.get(), state, worked, place, variables)?;
            let right = work_out(alloc, right.get(), state, worked, place, variables)?;
            connected(alloc, *connective, place, left, right)
        }
        Core::If(condition, left, right) => {
            let condition = work_out(alloc, condition.get(), state, worked, place, variables)?;
            let left = work_out(alloc, left.get(), state, worked, place, variables)?;
            let right = work_out(alloc, right.get(), state, worked, place, variables)?;
            chosen(alloc, place, condition, left, right)
        }
        Core::Count(set) => {
            let set = work_out(alloc, set.get(), state, worked, place, variables)?;
            counted(alloc, set)
        }
        Core::Only(set) => {
            let set = work_out(alloc, set.get(), state, worked, place, variables)?;
            only(alloc, place, set)
        }
        Core::Extreme(extremum, set) => {
            let set = work_out(alloc, set.get(), state, worked, place, variables)?;
            extreme_of(alloc, *extremum, place, set)
        }
        Core::Comprehension(body, source, condition) => {
            let source = work_out(alloc, source.get(), state, worked, place, variables)?;
            let pairs = each_pair(
                alloc,
                condition.get(),
                body.get(),
                values_of(&source),
                state,
                worked,
                place,
                variables,
            )?;
            comprehended(alloc, place, source, pairs)
        }
        Core::Sum(body, source, condition) => {
            let source = work_out(alloc, source.get(), state, worked, place, variables)?;
            let pairs = each_pair(
                alloc,
                condition.get(),
                body.get(),
                values_of(&source),
                state,
                worked,
                place,
                variables,
            )?;
            summed(alloc, place, source, pairs)
        }
        Core::Quantify(quantifier, source, condition) => {
            let source = work_out(alloc, source.get(), state, worked, place, variables)?;
            let conditions = each(
                alloc,
                condition.get(),
                values_of(&source),
                state,
                worked,
                place,
                variables,
            )?;
            quantified(alloc, *quantifier, place, source, conditions)
        }
    }
}

// Each part of a set, in order.
#[cycle(work)]
fn each_part(
    alloc: Global,
    parts: &[Core],
    state: &State,
    worked: &[WorkedCell],
    place: Place,
    variables: &[Values],
) -> Result<Vec<Run<Values>>, NoMemory>
    ensures { IfOk result (λ list. list.items ≡ map (λ e. run e (scene state.now worked.now) place variables.now) parts.now) }
{
    let mut list = Vec::new(alloc);
    for part in parts {
        list.push(work_out(alloc, part, state, worked, place, variables)?)?;
    }
    Ok(list)
}

// A formula for each of some values, bound as one more variable.
#[cycle(work)]
fn each(
    alloc: Global,
    core: &Core,
    values: &[Value],
    state: &State,
    worked: &[WorkedCell],
    place: Place,
    variables: &[Values],
) -> Result<Vec<Run<Values>>, NoMemory>
    ensures { IfOk result (λ list. list.items ≡ map (λ x. run core.now (scene state.now worked.now) place (bind variables.now x)) values.now) }
{
    let mut list = Vec::new(alloc);
    for value in values {
        let bound = bound(alloc, variables, value)?;
        list.push(work_out(alloc, core, state, worked, place, bound.as_slice())?)?;
    }
    Ok(list)
}

// A condition and a body for each of some values, bound as one more variable.
#[cycle(work)]
fn each_pair(
    alloc: Global,
    condition: &Core,
    body: &Core,
    values: &[Value],
    state: &State,
    worked: &[WorkedCell],
    place: Place,
    variables: &[Values],
) -> Result<Vec<(Run<Values>, Run<Values>)>, NoMemory>
    ensures { IfOk result (λ list. list.items ≡ map (λ x. (run condition.now (scene state.now worked.now) place (bind variables.now x), run body.now (scene state.now worked.now) place (bind variables.now x))) values.now) }
{
    let mut list = Vec::new(alloc);
    for value in values {
        let bound = bound(alloc, variables, value)?;
        let holds = work_out(alloc, condition, state, worked, place, bound.as_slice())?;
        let given = work_out(alloc, body, state, worked, place, bound.as_slice())?;
        list.push((holds, given))?;
    }
    Ok(list)
}
