// What the formulas of a statement come to.
ghost use Rattle.std.specs.Prelude.{◌≡◌, IfOk};
ghost use Rattle.std.specs.List.{filter_map};
ghost use Rattle.sheet_columns.specs.declared.fault.Place.TheVariants as place_of;
ghost use Rattle.sheet_engine.specs.Seen.{workbook_in};
ghost use Rattle.sheet_meaning.specs.Formula.{object_in, truth_in};
ghost use Rattle.sheet_meaning.specs.Rounds.{value_of};
ghost use Rattle.sheet_meaning.specs.Run.{after, both_outcomes, the_one};
ghost use Rattle.sheet_procs.specs.Runs.{Comes};

use crate::ProcedureRefusal;
use sheet_columns::{Core, Fault, Place, Target, Variables};
use sheet_engine::Engine;
use sheet_values::{NoMemory, NotOne, Set, Steps, Value};
use std::sync::ledger::Ledger;

/// The set that a formula of the statement with that number comes to, or the refusal for its fault. The book and the state stay.
pub(crate) fn set_of<G: Ledger>(
    engine: &mut Engine,
    variables: &Variables,
    number: u32,
    core: &Core,
    steps: &mut Steps<G>,
) -> Result<Set, ProcedureRefusal>
    ensures comes { Comes result (value_of (workbook_in engine.old) core.now (place_of.Statement number) variables.now) }
    ensures book { engine.new.book ≡ engine.old.book }
    ensures state { engine.new.state ≡ engine.old.state }
{
    match engine.work_out(core, Place::Statement(number), variables, steps)? {
        Ok(set) => Ok(set),
        Err(fault) => Err(ProcedureRefusal::FormulaFault(fault)),
    }
}

/// The truth that a formula comes to, which must be one.
pub(crate) fn truth_of<G: Ledger>(
    engine: &mut Engine,
    variables: &Variables,
    number: u32,
    core: &Core,
    steps: &mut Steps<G>,
) -> Result<bool, ProcedureRefusal>
    ensures comes { Comes result (after (value_of (workbook_in engine.old) core.now (place_of.Statement number) variables.now) (λ s. the_one (place_of.Statement number) (filter_map truth_in s))) }
    ensures book { engine.new.book ≡ engine.old.book }
    ensures state { engine.new.state ≡ engine.old.state }
{
    let set = set_of(engine, variables, number, core, steps)?;
    match one_truth(Place::Statement(number), &set) {
        Ok(holds) => Ok(holds),
        Err(fault) => Err(ProcedureRefusal::FormulaFault(fault)),
    }
}

/// The object that a target is under, which must be one.
pub(crate) fn object_of<G: Ledger>(
    engine: &mut Engine,
    variables: &Variables,
    number: u32,
    target: &Target,
    steps: &mut Steps<G>,
) -> Result<u64, ProcedureRefusal>
    ensures comes { Comes result (after (value_of (workbook_in engine.old) target.now.object (place_of.Statement number) variables.now) (λ s. the_one (place_of.Statement number) (filter_map object_in s))) }
    ensures book { engine.new.book ≡ engine.old.book }
    ensures state { engine.new.state ≡ engine.old.state }
{
    match target_outcome(engine, variables, number, target, steps)? {
        Ok(object) => Ok(object),
        Err(fault) => Err(ProcedureRefusal::FormulaFault(fault)),
    }
}

/// The object that a target is under, and the set that the other formula comes to: both are parts, and the target is the first.
pub(crate) fn object_and_set<G: Ledger>(
    engine: &mut Engine,
    variables: &Variables,
    number: u32,
    target: &Target,
    core: &Core,
    steps: &mut Steps<G>,
) -> Result<(u64, Set), ProcedureRefusal>
    ensures comes { Comes result (both_outcomes (after (value_of (workbook_in engine.old) target.now.object (place_of.Statement number) variables.now) (λ s. the_one (place_of.Statement number) (filter_map object_in s))) (value_of (workbook_in engine.old) core.now (place_of.Statement number) variables.now)) }
    ensures book { engine.new.book ≡ engine.old.book }
    ensures state { engine.new.state ≡ engine.old.state }
{
    let object = target_outcome(engine, variables, number, target, steps)?;
    let set = engine.work_out(core, Place::Statement(number), variables, steps)?;
    match both(object, set) {
        Ok(parts) => Ok(parts),
        Err(fault) => Err(ProcedureRefusal::FormulaFault(fault)),
    }
}

// What a target's formula comes to, which must be one object.
fn target_outcome<G: Ledger>(
    engine: &mut Engine,
    variables: &Variables,
    number: u32,
    target: &Target,
    steps: &mut Steps<G>,
) -> Result<Result<u64, Fault>, NoMemory>
    ensures outcome { IfOk result (λ o. o ≡ after (value_of (workbook_in engine.old) target.now.object (place_of.Statement number) variables.now) (λ s. the_one (place_of.Statement number) (filter_map object_in s))) }
    ensures book { engine.new.book ≡ engine.old.book }
    ensures state { engine.new.state ≡ engine.old.state }
{
    let place = Place::Statement(number);
    match engine.work_out(&target.object, place, variables, steps)? {
        Ok(set) => Ok(one_object(place, &set)),
        Err(fault) => Ok(Err(fault)),
    }
}

// Both parts, by the rule of parts: no outcome where one has none, else the fault of the first part with a fault.
fn both(object: Result<u64, Fault>, set: Result<Set, Fault>) -> Result<(u64, Set), Fault>
    ensures { result ≡ both_outcomes object set }
{
    match object {
        Ok(object) => match set {
            Ok(set) => Ok((object, set)),
            Err(fault) => Err(fault),
        },
        Err(fault) => match set {
            Err(Fault::Cycle) => Err(Fault::Cycle),
            _ => Err(fault),
        },
    }
}

// The truth that a value is.
fn truth_in(value: &Value) -> Option<bool>
    ensures { result ≡ truth_in value.now }
{
    match value {
        Value::Truth(truth) => Some(*truth),
        Value::Number(_) | Value::Text(_) | Value::Object(_) => None,
    }
}

// The object that a value is.
fn object_in(value: &Value) -> Option<u64>
    ensures { result ≡ object_in value.now }
{
    match value {
        Value::Object(object) => Some(*object),
        Value::Truth(_) | Value::Number(_) | Value::Text(_) => None,
    }
}

// The one truth of a set.
fn one_truth(place: Place, set: &Set) -> Result<bool, Fault>
    ensures { result ≡ the_one place (filter_map truth_in set.now) }
{
    let mut found: Option<bool> = None;
    for k in 0..set.len() {
        match truth_in(set.at(k)) {
            None => {}
            Some(held) => {
                if found.is_some() {
                    return Err(Fault::NotOne(NotOne::Many, place));
                }
                found = Some(held);
            }
        }
    }
    match found {
        None => Err(Fault::NotOne(NotOne::Zero, place)),
        Some(held) => Ok(held),
    }
}

// The one object of a set.
fn one_object(place: Place, set: &Set) -> Result<u64, Fault>
    ensures { result ≡ the_one place (filter_map object_in set.now) }
{
    let mut found: Option<u64> = None;
    for k in 0..set.len() {
        match object_in(set.at(k)) {
            None => {}
            Some(held) => {
                if found.is_some() {
                    return Err(Fault::NotOne(NotOne::Many, place));
                }
                found = Some(held);
            }
        }
    }
    match found {
        None => Err(Fault::NotOne(NotOne::Zero, place)),
        Some(held) => Ok(held),
    }
}
