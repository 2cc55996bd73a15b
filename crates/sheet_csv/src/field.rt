// The value of a field, by the type of its parameter.
ghost use Rattle.std.specs.Prelude.{◌≡◌, ◌≤◌, length, codes, pos, neg_ℤ, IfOk, IfSome, option_map};
ghost use Rattle.std.specs.Char.{is_ascii_digit};
ghost use Rattle.std.specs.List.{list_all};
ghost use Rattle.std.specs.Str.{str_eq_ignore_ascii_case};
ghost use Rattle.sheet_csv.specs.Fields.{below_zero as below_zero_of, is_numeral as is_numeral_of, value_up_to as value_up_to_of, number_up_to as number_up_to_of, read_number as number_of, read_truth as truth_of, is_text, read_field as field_of};

use sheet_values::{Kind, Name, NameRefusal, NoMemory, Value};
use std::alloc::Global;

/// The most digits of a number.
const MOST_DIGITS: usize = 19;

const GREATEST: u64 = 9_223_372_036_854_775_807;

fn are_digits(digits: &[u8]) -> bool
    ensures { result ≡ list_all is_ascii_digit digits.now }
{
    digits.iter().all(u8::is_ascii_digit)
}

fn is_numeral(digits: &[u8]) -> bool
    ensures { result ≡ is_numeral_of digits.now }
{
    !digits.is_empty() && digits.len() <= MOST_DIGITS && are_digits(digits)
}

// The number that digits write, where it is at most that.
fn value_up_to(most: u64, digits: &[u8]) -> Option<u64>
    ensures { result ≡ value_up_to_of most digits.now }
{
    let mut value = 0u64;
    for digit in digits {
        let next = value as u128 * 10 + digit.saturating_sub(b'0') as u128;
        if next > most as u128 {
            return None;
        }
        value = next as u64;
    }
    Some(value)
}

fn number_up_to(most: u64, digits: &[u8]) -> Option<u64>
    ensures { result ≡ number_up_to_of most digits.now }
{
    if is_numeral(digits) {
        value_up_to(most, digits)
    } else {
        None
    }
}

fn below_zero(number: u64) -> i64
    requires { number ≤ 9223372036854775808 }
    ensures { result ≡ below_zero_of number }
{
    if number > GREATEST {
        i64::MIN
    } else {
        -(number as i64)
    }
}

fn read_number(field: &[u8]) -> Option<i64>
    ensures { result ≡ number_of field.now }
{
    match field.split_first() {
        None => None,
        Some((first, digits)) => {
            if *first == b'-' {
                let number = number_up_to(GREATEST + 1, digits)?;
                Some(below_zero(number))
            } else {
                let number = number_up_to(GREATEST, field)?;
                Some(number as i64)
            }
        }
    }
}

fn read_truth(field: &[u8]) -> Option<bool>
    ensures { result ≡ truth_of field.now }
{
    if field.eq_ignore_ascii_case(b"true") {
        Some(true)
    } else if field.eq_ignore_ascii_case(b"false") {
        Some(false)
    } else {
        None
    }
}

fn read_text(alloc: Global, field: &[u8]) -> Result<Option<Value>, NoMemory>
    ensures { IfOk result (λ value. value ≡ field_of Kind.Text field.now) }
{
    match Name::read(alloc, field) {
        Ok(text) => Ok(Some(Value::Text(text))),
        Err(NameRefusal::NoMemory) => Err(NoMemory),
        Err(NameRefusal::TooLong(_)) => Ok(None),
        Err(NameRefusal::NotUtf8(_)) => Ok(None),
    }
}

/// The value of the field. None where it isn't read.
pub fn read_field(alloc: Global, kind: Kind, field: &[u8]) -> Result<Option<Value>, NoMemory>
    ensures { IfOk result (λ value. value ≡ field_of kind field.now) }
{
    match kind {
        Kind::Unknown => Ok(None),
        Kind::Truth => Ok(read_truth(field).map(Value::Truth)),
        Kind::Number => Ok(read_number(field).map(Value::Number)),
        Kind::Text => read_text(alloc, field),
        Kind::Object(_) => Ok(number_up_to(GREATEST, field).map(Value::Object)),
    }
}
