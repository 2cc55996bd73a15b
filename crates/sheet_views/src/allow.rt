// The `allow` formula of a view.
ghost use Rattle.std.specs.Prelude.{◌≡◌, [], IfOk, OnOk};
ghost use Rattle.std.specs.List.{filter_map};
ghost use Rattle.sheet_columns.specs.declared.fault.Place.TheVariants as place_of;
ghost use Rattle.sheet_meaning.specs.Formula.{truth, truth_in};
ghost use Rattle.sheet_meaning.specs.Page.{allow_run};
ghost use Rattle.sheet_meaning.specs.Run.{after, the_one};
ghost use Rattle.sheet_engine.specs.Seen.{workbook_in, keeps};
ghost use Rattle.sheet_views.specs.Pages.{is_any};

use sheet_columns::{Core, Fault, Place, Variables};
use sheet_engine::Engine;
use sheet_values::{NoMemory, NotOne, Set, Steps, Value};
use std::sync::ledger::Ledger;

/// Whether the `allow` formula is true, which must be one truth.
pub(crate) fn is_allowed<G: Ledger>(
    engine: &mut Engine,
    allow: &Core,
    variables: &Variables,
    steps: &mut Steps<G>,
) -> Result<Result<bool, Fault>, NoMemory>
    ensures truth { IfOk result (λ r. r ≡ (truth (place_of.Slot 0) (allow_run (workbook_in engine.old) allow.now variables.now)).outcome) }
    ensures kept { OnOk result (engine.new.kept ≡ keeps (workbook_in engine.old) (allow_run (workbook_in engine.old) allow.now variables.now).uses engine.old.kept) }
    ensures book { engine.new.book ≡ engine.old.book }
    ensures state { engine.new.state ≡ engine.old.state }
{
    let place = Place::Slot(0);
    let value = engine.work_out(allow, place, variables, steps)?;
    Ok(one_truth(place, &value))
}

// A value that must be one truth.
fn one_truth(place: Place, value: &Result<Set, Fault>) -> Result<bool, Fault>
    ensures { result ≡ after value.now (λ set. the_one place (filter_map truth_in set)) }
{
    match value {
        Ok(set) => truth_among(place, set.as_slice()),
        Err(fault) => Err(*fault),
    }
}

// The one truth among some values.
fn truth_among(place: Place, values: &[Value]) -> Result<bool, Fault>
    ensures { result ≡ the_one place (filter_map truth_in values.now) }
{
    let Some((first, more)) = values.split_first() else {
        return Err(Fault::NotOne(NotOne::Zero, place));
    };
    match first {
        Value::Truth(truth) => {
            if has_truth(more) {
                Err(Fault::NotOne(NotOne::Many, place))
            } else {
                Ok(*truth)
            }
        }
        Value::Number(_) | Value::Text(_) | Value::Object(_) => truth_among(place, more),
    }
}

// Whether one of the values is a truth.
fn has_truth(values: &[Value]) -> bool
    ensures { result ≡ is_any (filter_map truth_in values.now) }
{
    let Some((first, more)) = values.split_first() else {
        return false;
    };
    match first {
        Value::Truth(_) => true,
        Value::Number(_) | Value::Text(_) | Value::Object(_) => has_truth(more),
    }
}
