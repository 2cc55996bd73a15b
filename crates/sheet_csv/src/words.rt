// The words of a page's records.
ghost use Rattle.std.specs.Prelude.{◌≡◌};
ghost use Rattle.sheet_csv.specs.Pages.{fault_text, kind_text, truth_text};

use sheet_columns::Fault;
use sheet_values::Value;

pub fn truth_word(truth: bool) -> &'static [u8]
    ensures { result.now ≡ truth_text truth }
{
    if truth { b"true" } else { b"false" }
}

/// The word of a value's type.
pub fn kind_word(value: &Value) -> &'static [u8]
    ensures { result.now ≡ kind_text value.now }
{
    match value {
        Value::Truth(_) => b"truth",
        Value::Number(_) => b"number",
        Value::Text(_) => b"text",
        Value::Object(_) => b"object",
    }
}

/// The word of a fault.
pub fn fault_word(fault: &Fault) -> &'static [u8]
    ensures { result.now ≡ fault_text fault.now }
{
    match fault {
        Fault::Cycle => b"cycle",
        Fault::NotOne(_, _) => b"not one",
        Fault::Overflow(_) => b"overflow",
        Fault::ZeroDivisor(_) => b"zero divisor",
        Fault::TextTooLong(_) => b"text too long",
    }
}
