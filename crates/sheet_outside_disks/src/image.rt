// Images that a crash may leave.
ghost use Rattle.std.specs.Prelude.{List, ℕ, ◌≡◌, ◌+◌, ◌≤◌, ◌++◌, IfOk, OnOk, map, option_map, length, take, drop, replicate};
ghost use Rattle.sheet_outside.specs.Crash.{settled_bytes};
ghost use Rattle.sheet_outside_disks.specs.Drive.{Named, State, call_of, range, step, state, IsLastOpen};
ghost use Rattle.sheet_outside_disks.specs.Image.{IsCovered, IsFilled, IsImageOf};

use crate::event::Event;
use crate::replay::{Range, Replayed, grow};
use std::alloc::{AllocError, Global};

// The name of the last `open`, where it answered true, after one event more.
fn last_after<'a>(event: &'a Event, last: Option<&'a [u8]>) -> Option<&'a [u8]>
    ensures { (state : State) → IsLastOpen state (option_map (λ n. n.now) last.entry) → IsLastOpen (step state (call_of event.now)) (option_map (λ n. n.now) result) }
{
    match event {
        Event::Opened(name, true) => Some(name.as_slice()),
        Event::Opened(_, false) => None,
        _ => last,
    }
}

/// The name of the last `open`, where it answered true.
pub(crate) fn last_open(log: &[Event]) -> Option<&[u8]>
    ensures { (start : List Named) → IsLastOpen (state start (map call_of log.now)) (option_map (λ n. n.now) result) }
{
    let mut last = None;
    for event in log {
        last = last_after(event, last);
    }
    last
}

// The bytes at the last sync.
fn settled_copy(alloc: Global, file: &Replayed) -> Result<Vec<u8>, AllocError>
    ensures { IfOk result (λ v. v.items ≡ settled_bytes file.now.settled) }
{
    match &file.settled {
        Some(bytes) => bytes.as_slice().to_vec(alloc),
        None => Ok(Vec::new(alloc)),
    }
}

/// The file as long as a crash may leave it, with this byte wherever any byte may stand.
pub(crate) fn fill_image(alloc: Global, file: &Replayed, fill: u8) -> Result<Vec<u8>, AllocError>
    ensures { IfOk result (λ image. IsImageOf file.now fill image.items) }
{
    let mut image = settled_copy(alloc, file)?;
    cover_all(&mut image, &file.written, fill)?;
    Ok(image)
}

// Fills these ranges of an image, and what lies between its end and them.
fn cover_all(image: &mut Vec<u8>, ranges: &[Range], fill: u8) -> Result<(), AllocError>
    ensures { OnOk result (IsFilled image.old.items (map range ranges.now) fill image.new.items) }
{
    for range in ranges {
        cover(image, range.place, range.count, fill)?;
    }
    Ok(())
}

// Fills a range of bytes that go on behind it.
fn fill_range(bytes: &mut [u8], place: usize, count: usize, fill: u8)
    requires { place + count ≤ length bytes.old }
    ensures { bytes.new ≡ take place bytes.old ++ (replicate count fill ++ drop (place + count) bytes.old) }
{
    bytes[place..place + count].fill(fill);
}

// Fills a range of an image, and what lies between its end and the range.
fn cover(image: &mut Vec<u8>, place: u64, count: usize, fill: u8) -> Result<(), AllocError>
    ensures { OnOk result (IsCovered image.old.items place count fill image.new.items) }
{
    let Some(end) = (place as usize).checked_add(count) else {
        return Err(AllocError);
    };
    grow(image, end, fill)?;
    fill_range(image, place as usize, count, fill);
    Ok(())
}
