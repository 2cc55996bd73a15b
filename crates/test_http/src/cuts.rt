// The same bytes in other pieces.
use crate::steps::{Cut, steps_of};
use sheet_values::NoMemory;
use std::alloc::Global;

/// Whether the bytes come to these steps in pieces of each size and of what is lacking, cut at each place where they are few, and where it is wanted
/// at each pair of places.
pub fn agrees_in_pieces(
    alloc: Global,
    bytes: &[u8],
    steps: &str,
    pairs: bool,
) -> Result<bool, NoMemory> {
    for size in [1usize, 2, 3, 7, 64, 1000, 8191, 8192, 65_536] {
        if !agrees(alloc, bytes, steps, Cut::Pieces(size))? {
            return Ok(false);
        }
    }
    if bytes.len() < 250 && !agrees_in_pairs(alloc, bytes, steps, pairs)? {
        return Ok(false);
    }
    agrees(alloc, bytes, steps, Cut::Awaited)
}

// Whether the steps are the same with this cut.
fn agrees(alloc: Global, bytes: &[u8], steps: &str, cut: Cut) -> Result<bool, NoMemory> {
    let others = steps_of(alloc, bytes, cut)?;
    Ok(others.as_str() == steps)
}

// Whether they are with each cut, at one place or at two.
fn agrees_in_pairs(
    alloc: Global,
    bytes: &[u8],
    steps: &str,
    pairs: bool,
) -> Result<bool, NoMemory> {
    for first in 0..bytes.len() {
        let last = if pairs { bytes.len() } else { first + 1 };
        for second in first..last {
            if !agrees(alloc, bytes, steps, Cut::At(first, second))? {
                return Ok(false);
            }
        }
    }
    Ok(true)
}

/// From what length on the front of the bytes has one line of steps more.
pub fn count_per_length(alloc: Global, bytes: &[u8]) -> Result<String, NoMemory> {
    let mut text = String::new(alloc);
    let mut lines = 0usize;
    for length in 0..=bytes.len() {
        let (front, _) = bytes.split_at(length);
        let steps = steps_of(alloc, front, Cut::Whole)?;
        let count = steps.as_str().lines().count();
        if count != lines {
            write!(text, ", {count} from {length} bytes on").map_err(|_| NoMemory)?;
            lines = count;
        }
    }
    Ok(text)
}
