// Random arguments and callers.
use sheet_columns::Parameters;
use sheet_state::State;
use sheet_values::{Kind, Name, NoMemory, Value, Values};
use std::alloc::Global;
use test_state::Random;

/// The least number that no object is looked for at.
const MOST_NUMBERS: u64 = 64;

// A random live object of a column; the root where there is none.
fn some_object(state: &State, column: u32, random: &mut Random) -> u64 {
    let from = random.below(MOST_NUMBERS);
    for step in 0..MOST_NUMBERS {
        let object = (from + step) % MOST_NUMBERS;
        if state.column_of(object) == Some(column) {
            return object;
        }
    }
    0
}

fn some_number(random: &mut Random) -> i64 {
    match random.below(12) {
        0 => i64::MAX,
        1 => i64::MIN,
        other => other as i64 - 4,
    }
}

// A random value of a type.
fn value(alloc: Global, state: &State, kind: Kind, random: &mut Random) -> Result<Value, NoMemory> {
    match kind {
        Kind::Truth => Ok(Value::Truth(random.below(2) == 0)),
        Kind::Number => Ok(Value::Number(some_number(random))),
        Kind::Text => Ok(Value::Text(Name::of(alloc, "c")?)),
        Kind::Object(column) => Ok(Value::Object(some_object(state, column, random))),
        Kind::Unknown => Ok(Value::Truth(true)),
    }
}

/// Random values for parameters.
pub fn arguments(
    alloc: Global,
    state: &State,
    parameters: &Parameters,
    random: &mut Random,
) -> Result<Values, NoMemory> {
    let mut values = Values::new(alloc);
    for k in 0..parameters.len() {
        let (_, kind) = parameters.at(k);
        values.push(value(alloc, state, *kind, random)?)?;
    }
    Ok(values)
}

/// The operator, or a random caller where there is one.
pub fn caller(state: &State, column: u32, random: &mut Random) -> Option<u64> {
    if random.below(3) == 0 {
        return None;
    }
    match some_object(state, column, random) {
        0 => None,
        object => Some(object),
    }
}
