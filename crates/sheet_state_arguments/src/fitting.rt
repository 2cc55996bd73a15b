// Arguments that don't fit their parameters.
ghost use Rattle.std.specs.Prelude.{◌≡◌, ◌≤◌, length};
ghost use Rattle.sheet_columns.specs.Tree.{is_number};
ghost use Rattle.sheet_meaning.specs.Arguments.{bad_argument, is_live};
ghost use Rattle.sheet_meaning.specs.Workbook.{object_at, column_in};

use sheet_columns::Parameters;
use sheet_state::State;
use sheet_values::{Kind, Value, Values};

/// Which of the arguments doesn't fit these parameters, of which there are 16 at most: 0 where the counts differ; else the first
/// argument, from 1, that isn't a live value of its parameter's type; none where all fit. It takes no memory.
pub fn bad_argument(state: &State, parameters: &Parameters, arguments: &Values) -> Option<u32>
    requires few { length parameters.now ≤ 16 }
    ensures { result ≡ bad_argument state.now.present.state parameters.now arguments.now }
{
    if parameters.len() != arguments.len() {
        return Some(0);
    }
    let mut number = 1;
    let mut wanted = parameters.as_slice();
    let mut given = arguments.as_slice();
    while let (Some((parameter, parameters)), Some((argument, arguments))) = (
        wanted.split_first(),
        given.split_first(),
    ) {
        if !is_live(state, parameter.1, argument) {
            return Some(number);
        }
        number += 1;
        wanted = parameters;
        given = arguments;
    }
    None
}

// Whether a value is one of that type, and of objects a live one.
fn is_live(state: &State, kind: Kind, value: &Value) -> bool
    ensures { result ≡ is_live state.now.present.state kind value.now }
{
    match kind {
        Kind::Unknown => false,
        Kind::Truth => matches!(value, Value::Truth(_)),
        Kind::Number => matches!(value, Value::Number(_)),
        Kind::Text => matches!(value, Value::Text(_)),
        Kind::Object(column) => match value {
            Value::Object(object) => is_in(state, column, *object),
            _ => false,
        },
    }
}

// Whether an object is a live one of that column.
fn is_in(state: &State, column: u32, object: u64) -> bool
    ensures { result ≡ is_number column (column_in (object_at state.now.present.state.objects object)) }
{
    match state.column_of(object) {
        Some(found) => found == column,
        None => false,
    }
}
