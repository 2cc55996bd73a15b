// The rule of parts, and parts that must be one.
ghost use Rattle.std.specs.Prelude.{◌≡◌, [], MatchResult, Ok, Err};
ghost use Rattle.std.specs.List.{filter_map};
ghost use Rattle.sheet_meaning.specs.Run.{is_none as stands_for_none, outranked, both_outcomes, the_one};
ghost use Rattle.sheet_meaning.specs.Formula.{text_in};
ghost use Rattle.sheet_eval.specs.Parts.{number_of, truth_of, is_one_text, is_one, not_nothing};

use sheet_columns::{Fault, Place};
use sheet_eval_sets::Part;
use sheet_values::{Name, NotOne, Set, Value};

/// Whether a fault stands for no outcome.
pub fn is_none(fault: Fault) -> bool
    ensures { result ≡ stands_for_none fault }
{
    match fault {
        Fault::Cycle => true,
        Fault::NotOne(_, _) | Fault::Overflow(_) | Fault::ZeroDivisor(_) | Fault::TextTooLong(_) =>
            { false }
    }
}

/// The fault of the left part, unless the right part has no outcome.
pub fn outranked(first: Fault, second: Fault) -> Fault
    ensures { result ≡ outranked first second }
{
    if is_none(second) { second } else { first }
}

/// Both, by the rule of parts.
pub fn both<A: Drop, B: Drop>(
    left: Result<A, Fault>,
    right: Result<B, Fault>,
) -> Result<(A, B), Fault>
    ensures { result ≡ both_outcomes left right }
{
    match left {
        Ok(a) => match right {
            Ok(b) => Ok((a, b)),
            Err(fault) => Err(fault),
        },
        Err(fault) => match right {
            Ok(_) => Err(fault),
            Err(other) => Err(outranked(fault, other)),
        },
    }
}

/// A kind of values that a form takes.
pub trait Kind: Copy {
    ghost use Rattle.sheet_values.specs.declared.value.Value.{Value as TheValue};
    ghost use Rattle.std.specs.Prelude.{Option};

    ghost inside: { TheValue → Option Self };

    /// What a value of this kind holds.
    fn inside(value: &Value) -> Option<Self>
        ensures { result ≡ inside value.now };
}

impl Kind for i64 {
    ghost use Rattle.sheet_meaning.specs.Formula.{number_in};

    ghost inside = { number_in };

    fn inside(value: &Value) -> Option<i64> {
        match value {
            Value::Number(n) => Some(*n),
            Value::Truth(_) => None,
            Value::Text(_) => None,
            Value::Object(_) => None,
        }
    }
}

impl Kind for bool {
    ghost use Rattle.sheet_meaning.specs.Formula.{truth_in};

    ghost inside = { truth_in };

    fn inside(value: &Value) -> Option<bool> {
        match value {
            Value::Truth(b) => Some(*b),
            Value::Number(_) => None,
            Value::Text(_) => None,
            Value::Object(_) => None,
        }
    }
}

/// The one value of a kind.
fn one_in<K: Kind>(place: Place, set: &Set) -> Result<K, Fault>
    ensures { result ≡ the_one place (filter_map K.inside set.now) }
{
    let mut found: Option<K> = None;
    for k in 0..set.len() {
        match K::inside(set.at(k)) {
            None => {}
            Some(held) => {
                if found.is_some() {
                    return Err(Fault::NotOne(NotOne::Many, place));
                }
                found = Some(held);
            }
        }
    }
    match found {
        None => Err(Fault::NotOne(NotOne::Zero, place)),
        Some(held) => Ok(held),
    }
}

/// A part that must be one number.
pub fn number(place: Place, part: Result<Part<'_>, Fault>) -> Result<i64, Fault>
    ensures { result ≡ number_of place part.entry }
{
    match part {
        Ok(part) => one_in(place, part.set()),
        Err(fault) => Err(fault),
    }
}

/// A part that must be one truth.
pub fn truth(place: Place, part: Result<Part<'_>, Fault>) -> Result<bool, Fault>
    ensures { result ≡ truth_of place part.entry }
{
    match part {
        Ok(part) => one_in(place, part.set()),
        Err(fault) => Err(fault),
    }
}

/// The one value of a part that must be one.
pub fn one<'a>(place: Place, part: &'a Result<Part<'_>, Fault>) -> Result<&'a Value, Fault>
    ensures { is_one place part.now result }
{
    match part {
        Ok(part) => match part.set().as_slice() {
            [] => Err(Fault::NotOne(NotOne::Zero, place)),
            [value] => Ok(value),
            _ => Err(Fault::NotOne(NotOne::Many, place)),
        },
        Err(fault) => Err(*fault),
    }
}

// The text among some values, where there is one.
fn text_among<'a>(place: Place, values: &'a [Value]) -> Result<&'a Name, Fault>
    ensures { MatchResult result (λ name. the_one place (filter_map text_in values.now) ≡ Ok name.now) (λ fault. the_one place (filter_map text_in values.now) ≡ Err fault) }
{
    let Some((first, more)) = values.split_first() else {
        return Err(Fault::NotOne(NotOne::Zero, place));
    };
    match first {
        Value::Text(name) => {
            if has_text(more) {
                Err(Fault::NotOne(NotOne::Many, place))
            } else {
                Ok(name)
            }
        }
        Value::Truth(_) | Value::Number(_) | Value::Object(_) => text_among(place, more),
    }
}

fn has_text(values: &[Value]) -> bool
    ensures { result ≡ not_nothing (filter_map text_in values.now) }
{
    let Some((first, more)) = values.split_first() else {
        return false;
    };
    match first {
        Value::Text(_) => true,
        Value::Truth(_) | Value::Number(_) | Value::Object(_) => has_text(more),
    }
}

/// The one text of a part that must be one.
pub fn text<'a>(place: Place, part: &'a Result<Part<'_>, Fault>) -> Result<&'a Name, Fault>
    ensures { is_one_text place part.now result }
{
    match part {
        Ok(part) => text_among(place, part.set().as_slice()),
        Err(fault) => Err(*fault),
    }
}
