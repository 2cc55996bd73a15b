// The words of printed formulas.
ghost use Rattle.std.specs.Prelude.{◌≡◌, ◌++◌, map, flat_map, codes};
ghost use Rattle.std.specs.Fmt.{signed_decimal};
ghost use Rattle.sheet_syntax_trees.specs.Printing.{escape as escape_of, quoted, truth_text, operator_text, function_text, quantifier_text};
ghost use Rattle.sheet_define_length.specs.Counting.{Counts};

use itoa::Buffer;
use sheet_syntax_trees::{Function, Operator, Quantifier};

// Counts bytes.
pub(crate) fn count(total: usize, bytes: &[u8]) -> usize
    ensures { Counts total result bytes.now }
{
    total.saturating_add(bytes.len())
}

// Counts the decimal digits of a number.
pub(crate) fn count_number(total: usize, number: i64) -> usize
    ensures { Counts total result (signed_decimal number) }
{
    let mut buffer = Buffer::new();
    count(total, buffer.format(number).as_bytes())
}

// Counts a byte of a text, with a backslash where it needs one.
fn count_escaped(total: usize, byte: u8) -> usize
    ensures { Counts total result (escape_of byte) }
{
    if byte == 34 {
        count(total, b"\\\"")
    } else if byte == 92 {
        count(total, b"\\\\")
    } else if byte == 10 {
        count(total, b"\\n")
    } else {
        count(total, &[byte])
    }
}

// Counts the bytes of a text.
fn count_content(total: usize, content: &[u8]) -> usize
    ensures { Counts total result (flat_map escape_of content.now) }
{
    let mut sum = total;
    for byte in content {
        sum = count_escaped(sum, *byte);
    }
    sum
}

// Counts a text in quotes.
pub(crate) fn count_quoted(total: usize, content: &[u8]) -> usize
    ensures { Counts total result (quoted content.now) }
{
    let total = count(total, b"\"");
    let total = count_content(total, content);
    count(total, b"\"")
}

pub(crate) fn truth_word(truth: bool) -> &'static [u8]
    ensures { result.now ≡ truth_text truth }
{
    if truth { b"true" } else { b"false" }
}

pub(crate) fn operator_word(operator: Operator) -> &'static [u8]
    ensures { result.now ≡ operator_text operator }
{
    match operator {
        Operator::Or => b"or",
        Operator::And => b"and",
        Operator::Equals => b"=",
        Operator::NotEquals => b"!=",
        Operator::Less => b"<",
        Operator::AtMost => b"<=",
        Operator::Greater => b">",
        Operator::AtLeast => b">=",
        Operator::In => b"in",
        Operator::Union => b"union",
        Operator::Intersect => b"intersect",
        Operator::Except => b"except",
        Operator::Plus => b"+",
        Operator::Minus => b"-",
        Operator::Join => b"&",
        Operator::Times => b"*",
        Operator::Divide => b"/",
        Operator::Remainder => b"%",
    }
}

pub(crate) fn function_word(function: Function) -> &'static [u8]
    ensures { result.now ≡ function_text function }
{
    match function {
        Function::Count => b"count",
        Function::Only => b"only",
        Function::Min => b"min",
        Function::Max => b"max",
    }
}

pub(crate) fn quantifier_word(quantifier: Quantifier) -> &'static [u8]
    ensures { result.now ≡ quantifier_text quantifier }
{
    match quantifier {
        Quantifier::Any => b"any",
        Quantifier::All => b"all",
    }
}
