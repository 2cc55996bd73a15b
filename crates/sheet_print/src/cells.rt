// The texts of cells.
ghost use Rattle.std.specs.Prelude.{◌≡◌, ◌<◌, ◌++◌, flat_map, IfOk, OnOk};
ghost use Rattle.sheet_print.specs.Cells.{cell_text, escape, fault_cell, fault_text, hex_digit as hex_digit_of, hex_text, next_text, quoted, set_text, truth_text, value_text};

use crate::field::Field;
use itoa::Buffer;
use sheet_columns::Fault;
use sheet_values::{NoMemory, Set, Value};
use std::alloc::Global;

fn truth_word(truth: bool) -> &'static [u8]
    ensures { result.now ≡ truth_text truth }
{
    if truth { b"true" } else { b"false" }
}

// The word of a fault.
fn fault_word(fault: &Fault) -> &'static [u8]
    ensures { result.now ≡ fault_text fault.now }
{
    match fault {
        Fault::Cycle => b"cycle",
        Fault::NotOne(_, _) => b"not one",
        Fault::Overflow(_) => b"overflow",
        Fault::ZeroDivisor(_) => b"zero divisor",
        Fault::TextTooLong(_) => b"text too long",
    }
}

// A digit of base 16, in small letters.
fn hex_digit(digit: u8) -> u8
    requires { digit < 16 }
    ensures { result ≡ hex_digit_of digit }
{
    if digit < 10 {
        b'0' + digit
    } else {
        b'W' + digit
    }
}

// A control byte by its number.
fn add_hex(out: &mut Vec<u8>, byte: u8) -> Result<(), NoMemory>
    ensures { OnOk result (out.new.items ≡ out.old.items ++ hex_text byte) }
{
    out.extend_from_slice(&[b'\\', b'x', hex_digit(byte / 16), hex_digit(byte % 16)])?;
    Ok(())
}

// A byte of a text.
fn add_byte(out: &mut Vec<u8>, byte: u8) -> Result<(), NoMemory>
    ensures { OnOk result (out.new.items ≡ out.old.items ++ escape byte) }
{
    if byte == b'"' {
        out.extend_from_slice(b"\\\"")?;
    } else if byte == b'\\' {
        out.extend_from_slice(b"\\\\")?;
    } else if byte == b'\n' {
        out.extend_from_slice(b"\\n")?;
    } else if byte < b' ' || byte == 127 {
        add_hex(out, byte)?;
    } else {
        out.push(byte)?;
    }
    Ok(())
}

// A text in quotes.
fn add_quoted(out: &mut Vec<u8>, text: &[u8]) -> Result<(), NoMemory>
    ensures { OnOk result (out.new.items ≡ out.old.items ++ quoted text.now) }
{
    out.push(b'"')?;
    for byte in text {
        add_byte(out, *byte)?;
    }
    out.push(b'"')?;
    Ok(())
}

// The text of a value.
fn add_value(out: &mut Vec<u8>, value: &Value) -> Result<(), NoMemory>
    ensures { OnOk result (out.new.items ≡ out.old.items ++ value_text value.now) }
{
    let mut buffer = Buffer::new();
    match value {
        Value::Truth(truth) => out.extend_from_slice(truth_word(*truth))?,
        Value::Number(number) => out.extend_from_slice(buffer.format(*number).as_bytes())?,
        Value::Text(text) => add_quoted(out, text.bytes())?,
        Value::Object(object) => {
            out.push(b'#')?;
            out.extend_from_slice(buffer.format(*object).as_bytes())?;
        }
    }
    Ok(())
}

// The text of a value behind another.
fn add_next(out: &mut Vec<u8>, value: &Value) -> Result<(), NoMemory>
    ensures { OnOk result (out.new.items ≡ out.old.items ++ next_text value.now) }
{
    out.extend_from_slice(b", ")?;
    add_value(out, value)
}

fn add_all_next(out: &mut Vec<u8>, values: &[Value]) -> Result<(), NoMemory>
    ensures { OnOk result (out.new.items ≡ out.old.items ++ flat_map next_text values.now) }
{
    for value in values {
        add_next(out, value)?;
    }
    Ok(())
}

// The text of a set.
fn add_set(out: &mut Vec<u8>, values: &[Value]) -> Result<(), NoMemory>
    ensures { OnOk result (out.new.items ≡ out.old.items ++ set_text values.now) }
{
    match values.split_first() {
        Some((value, more)) => {
            add_value(out, value)?;
            add_all_next(out, more)
        }
        None => {
            out.push(b'-')?;
            Ok(())
        }
    }
}

/// The field of a cell with this set.
pub(crate) fn set_field(alloc: Global, set: &Set) -> Result<Field, NoMemory>
    ensures { IfOk result (λ field. field ≡ set_text set.now) }
{
    let mut text = Vec::new(alloc);
    add_set(&mut text, set.as_slice())?;
    Ok(Field::new(text))
}

// The field of a cell with this fault.
fn fault_field(alloc: Global, fault: &Fault) -> Result<Field, NoMemory>
    ensures { IfOk result (λ field. field ≡ fault_cell fault.now) }
{
    let mut text = Vec::new(alloc);
    text.push(b'!')?;
    text.extend_from_slice(fault_word(fault))?;
    Ok(Field::new(text))
}

/// The field of a cell with this result.
pub(crate) fn result_field(alloc: Global, outcome: &Result<Set, Fault>) -> Result<Field, NoMemory>
    ensures { IfOk result (λ field. field ≡ cell_text outcome.now) }
{
    match outcome {
        Ok(set) => set_field(alloc, set),
        Err(fault) => fault_field(alloc, fault),
    }
}
