// How wide texts are.
ghost use Rattle.std.specs.Prelude.{◌≡◌, IfOk};
ghost use Rattle.sheet_print.specs.Widths.{begins_character as begins_one, places as places_of, widest as widest_of, width as width_of, width_at as width_at_of, widths as widths_of};

use crate::field::{Field, Fields};
use sheet_values::NoMemory;
use std::alloc::Global;

// Whether a byte of UTF-8 begins a character.
fn begins_character(byte: u8) -> bool
    ensures { result ≡ begins_one byte }
{
    byte < 128 || 192 <= byte
}

/// How many characters a text has.
pub(crate) fn width(text: &[u8]) -> usize
    ensures { result ≡ width_of text.now }
{
    text.iter().filter(|byte| begins_character(**byte)).count()
}

// How wide a line's field at this place is.
fn width_at(place: usize, fields: &[Field]) -> usize
    ensures { result ≡ width_at_of place fields.now }
{
    match fields.get(place) {
        Some(field) => width(field.bytes()),
        None => 0,
    }
}

// How wide the widest field at this place of any line is.
fn widest(lines: &[Fields], place: usize) -> usize
    ensures { result ≡ widest_of lines.now place }
{
    let mut most = 0;
    for fields in lines {
        most = most.max(width_at(place, fields.as_slice()));
    }
    most
}

// How many fields the first line has.
fn places(lines: &[Fields]) -> usize
    ensures { result ≡ places_of lines.now }
{
    match lines.split_first() {
        Some((fields, _)) => fields.len(),
        None => 0,
    }
}

/// The widest at each place.
pub(crate) fn widths(alloc: Global, lines: &[Fields]) -> Result<Vec<usize>, NoMemory>
    ensures { IfOk result (λ widths. widths.items ≡ widths_of lines.now) }
{
    let mut widths = Vec::new(alloc);
    for place in 0..places(lines) {
        widths.push(widest(lines, place))?;
    }
    Ok(widths)
}
