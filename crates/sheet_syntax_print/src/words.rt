// The words of printed formulas.
ghost use Rattle.std.specs.Prelude.{◌≡◌, ◌++◌, map, flat_map, OnOk};
ghost use Rattle.std.specs.Fmt.{signed_decimal};
ghost use Rattle.sheet_syntax_trees.specs.Printing.{escape as escape_of, quoted, truth_text, operator_text, function_text, quantifier_text};

use itoa::Buffer;
use sheet_syntax_trees::{Function, Operator, Quantifier};
use sheet_values::NoMemory;

/// Adds bytes at the end of a text.
pub fn append(out: &mut Vec<u8>, bytes: &[u8]) -> Result<(), NoMemory>
    ensures { OnOk result (out.new.items ≡ out.old.items ++ bytes.now) }
{
    out.extend_from_slice(bytes)?;
    Ok(())
}

/// Adds a number in decimal digits.
pub fn append_number(out: &mut Vec<u8>, number: i64) -> Result<(), NoMemory>
    ensures { OnOk result (out.new.items ≡ out.old.items ++ signed_decimal number) }
{
    let mut buffer = Buffer::new();
    append(out, buffer.format(number).as_bytes())
}

// Adds a byte of a text, behind a backslash where it needs one.
fn append_escaped(out: &mut Vec<u8>, byte: u8) -> Result<(), NoMemory>
    ensures { OnOk result (out.new.items ≡ out.old.items ++ escape_of byte) }
{
    if byte == 34 {
        append(out, b"\\\"")
    } else if byte == 92 {
        append(out, b"\\\\")
    } else if byte == 10 {
        append(out, b"\\n")
    } else {
        append(out, &[byte])
    }
}

// Adds the bytes of a text.
fn append_content(out: &mut Vec<u8>, content: &[u8]) -> Result<(), NoMemory>
    ensures { OnOk result (out.new.items ≡ out.old.items ++ flat_map escape_of content.now) }
{
    for byte in content {
        append_escaped(out, *byte)?;
    }
    Ok(())
}

/// Adds a text in quotes.
pub fn append_quoted(out: &mut Vec<u8>, content: &[u8]) -> Result<(), NoMemory>
    ensures { OnOk result (out.new.items ≡ out.old.items ++ quoted content.now) }
{
    append(out, b"\"")?;
    append_content(out, content)?;
    append(out, b"\"")
}

pub(crate) fn truth_word(truth: bool) -> &'static [u8]
    ensures { result.now ≡ truth_text truth }
{
    if truth { b"true" } else { b"false" }
}

pub(crate) fn operator_word(operator: Operator) -> &'static [u8]
    ensures { result.now ≡ operator_text operator }
{
    match operator {
        Operator::Or => b"or",
        Operator::And => b"and",
        Operator::Equals => b"=",
        Operator::NotEquals => b"!=",
        Operator::Less => b"<",
        Operator::AtMost => b"<=",
        Operator::Greater => b">",
        Operator::AtLeast => b">=",
        Operator::In => b"in",
        Operator::Union => b"union",
        Operator::Intersect => b"intersect",
        Operator::Except => b"except",
        Operator::Plus => b"+",
        Operator::Minus => b"-",
        Operator::Join => b"&",
        Operator::Times => b"*",
        Operator::Divide => b"/",
        Operator::Remainder => b"%",
    }
}

pub(crate) fn function_word(function: Function) -> &'static [u8]
    ensures { result.now ≡ function_text function }
{
    match function {
        Function::Count => b"count",
        Function::Only => b"only",
        Function::Min => b"min",
        Function::Max => b"max",
    }
}

pub(crate) fn quantifier_word(quantifier: Quantifier) -> &'static [u8]
    ensures { result.now ≡ quantifier_text quantifier }
{
    match quantifier {
        Quantifier::Any => b"any",
        Quantifier::All => b"all",
    }
}
