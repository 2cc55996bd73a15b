// The definition that an input begins with.
ghost use Rattle.std.specs.Prelude.{◌≡◌, ◌≢◌, ◌+◌, ◌-◌, ◌<◌, ◌≤◌, ◌^◌, [], ℕ, List, codes, length, take, drop, vec_len, IfOk, IfErr, IfSome, IfNone, OnErr, IsErrOf, IsTrue, ◌↔◌, Err, Ok};
ghost use Rattle.std.specs.Str.{bytes_eq};
ghost use Rattle.std.specs.Str.Lines.{strip_carriage_return};
ghost use Rattle.sheet_outside.specs.Causes.{Rose};
ghost use Rattle.sheet_outside.specs.Told.{WhereTold};
ghost use Rattle.sheet_lines.specs.Unread.{rest};
ghost use Rattle.sheet_lines.specs.Dividing.{Divides, IsPastLongest, StopsDividing, DividesOn, AddsLine, AddsLast};

use crate::line::without_return;
use crate::reader::{LineReader, Part};
use crate::stop::ReadStop;
use sheet_outside::Source;
use sheet_values::LONGEST_DEFINITION;
use std::alloc::Global;

const DIVIDER: &[u8] = b"%%";

/// As much of a definition as is kept: once more bytes than a divider has stand past the greatest length, it is too long.
const MOST: usize = LONGEST_DEFINITION + 4;

/// The definition: the bytes before the first line `%%` as they stand, or all bytes where there is none. None where it
/// is longer than `LONGEST_DEFINITION`; then no more of it is used than shows it.
///
/// Behind it the reader goes on with the line after `%%`. A carriage return before the line feed of `%%` is passed over.
pub fn read_to_divider<S: Source>(
    alloc: Global,
    reader: &mut LineReader,
    input: &mut S,
) -> Result<Option<Vec<u8>>, ReadStop>
    ensures text { IfOk result (λ found. IfSome found (λ text. WhereTold (Divides text.items) (rest reader.old (S.left input.old)) (rest reader.new (S.left input.new)))) }
    ensures within { IfOk result (λ found. IfSome found (λ text. vec_len text ≤ LONGEST_DEFINITION)) }
    ensures longer { IfOk result (λ found. IfNone found (WhereTold (λ old new. IsPastLongest old) (rest reader.old (S.left input.old)) (rest reader.new (S.left input.new)))) }
    ensures stopped { OnErr result (WhereTold StopsDividing (rest reader.old (S.left input.old)) (rest reader.new (S.left input.new))) }
    ensures counts { WhereTold (λ old new. reader.new.used + length new ≡ reader.old.used + length old) (rest reader.old (S.left input.old)) (rest reader.new (S.left input.new)) }
    ensures limit { reader.new.used ≤ 2 ^ 40 }
    ensures too_long { IsErrOf result ReadStop.TooLong → 2 ^ 40 ≤ reader.old.used + LONGEST_DEFINITION + 5 }
    ensures dry { IsErrOf result ReadStop.Source → reader.new.ahead ≡ [] }
    ensures source { IsErrOf result ReadStop.Source → Rose (S.faults input.old) (S.faults input.new) }
    ensures later { S.faults input.old ≤ S.faults input.new }
{
    let mut text = Vec::new(alloc);
    'lines: loop {
        match definition_line(reader, input, &mut text)? {
            Growth::Line => {}
            Growth::Divided => return Ok(Some(text)),
            Growth::Longer => return Ok(None),
        }
    }
}

/// What one more line did to a definition.
#[derive(Clone, Copy, Debug, PartialEq, Eq)]
pub enum Growth {
    /// It belongs to the definition.
    Line,
    /// The definition ends.
    Divided,
    /// The definition is too long.
    Longer,
}

// One more line of the definition.
fn definition_line<S: Source>(
    reader: &mut LineReader,
    input: &mut S,
    text: &mut Vec<u8>,
) -> Result<Growth, ReadStop>
    requires { vec_len text.old ≤ LONGEST_DEFINITION }
    ensures growth { WhereTold (DividesOn result text.old.items text.new.items) (rest reader.old (S.left input.old)) (rest reader.new (S.left input.new)) }
    ensures counts { WhereTold (λ old new. reader.new.used + length new ≡ reader.old.used + length old) (rest reader.old (S.left input.old)) (rest reader.new (S.left input.new)) }
    ensures within { IfOk result (λ growth. growth ≢ Growth.Longer → vec_len text.new ≤ LONGEST_DEFINITION) }
    ensures uses { IfOk result (λ growth. growth ≡ Growth.Line → reader.old.used < reader.new.used) }
    ensures line { IfOk result (λ growth. growth ≡ Growth.Line → reader.new.used + vec_len text.old ≡ reader.old.used + vec_len text.new) }
    ensures limit { reader.new.used ≤ 2 ^ 40 }
    ensures too_long { IsErrOf result ReadStop.TooLong → 2 ^ 40 + vec_len text.old ≤ reader.old.used + LONGEST_DEFINITION + 5 }
    ensures dry { IsErrOf result ReadStop.Source → reader.new.ahead ≡ [] }
    ensures source { IsErrOf result ReadStop.Source → Rose (S.faults input.old) (S.faults input.new) }
    ensures later { S.faults input.old ≤ S.faults input.new }
{
    let start = text.len();
    let part = match reader.take_line(input, text, MOST) {
        Ok(part) => part,
        Err(stop) => return Err(stop),
    };
    match part {
        Part::Feed => add_line(text, start),
        Part::Full => Ok(Growth::Longer),
        _ => Ok(add_last(text, start)),
    }
}

// The line from there on, which a line feed ended, belongs to the definition, or ends it.
fn add_line(text: &mut Vec<u8>, start: usize) -> Result<Growth, ReadStop>
    requires { start ≤ vec_len text.old }
    ensures adds { AddsLine LONGEST_DEFINITION result start text.old.items text.new.items }
    ensures memory { IfErr result (λ stop. stop ≡ ReadStop.NoMemory) }
{
    if is_divider(text.as_slice(), start) {
        text.truncate(start);
        return Ok(Growth::Divided);
    }
    if text.len() >= LONGEST_DEFINITION {
        return Ok(Growth::Longer);
    }
    text.push(b'\n')?;
    Ok(Growth::Line)
}

// Whether the line from there on, which a line feed ended, is the divider.
fn is_divider(text: &[u8], start: usize) -> bool
    requires { start ≤ length text.now }
    ensures { result ≡ bytes_eq (strip_carriage_return (drop start text.now)) (codes "%%") }
{
    let (_, line) = text.split_at(start);
    without_return(line) == DIVIDER
}

// The line from there on, which the input's end ended, belongs to the definition, or is the divider.
fn add_last(text: &mut Vec<u8>, start: usize) -> Growth
    requires { start ≤ vec_len text.old }
    ensures { AddsLast LONGEST_DEFINITION result start text.old.items text.new.items }
{
    let (_, line) = text.as_slice().split_at(start);
    if line == DIVIDER {
        text.truncate(start);
        return Growth::Divided;
    }
    if text.len() > LONGEST_DEFINITION {
        return Growth::Longer;
    }
    Growth::Divided
}
