// What a disk in memory holds of one file, worked out from its calls.
ghost use Rattle.std.specs.Prelude.{◌≡◌, ◌+◌, ◌≤◌, ◌<◌, ◌^◌, [], ◌∷◌, ◌++◌, IsTrue, IfOk, OnOk, None, Some, option_map, map, length, take, drop, replicate, ◌-◌, bytes_eq, if◌then◌else◌};
ghost use Rattle.sheet_outside.specs.Crash.{made, at_rest, put, range_of, wrote, synced};
ghost use Rattle.sheet_outside_disks.specs.Drive.{call_of, changed, found, here_after, range, spoilt, state};

use crate::event::Event;
use crate::files::Files;
use std::alloc::{AllocError, Global};
use std::marker::Model;

/// So many bytes from a place on.
#[derive(Clone, Copy)]
pub(crate) struct Range {
    pub(crate) place: u64,
    pub(crate) count: usize,
}

/// What a read gives of a file, its bytes at the last sync, and the ranges that were written since.
#[derive(Drop)]
pub(crate) struct Replayed {
    pub(crate) seen: Vec<u8>,
    pub(crate) settled: Option<Vec<u8>>,
    pub(crate) written: Vec<Range>,
}

impl Model for Replayed {
    ghost use Rattle.std.specs.Prelude.{option_map, map};
    ghost use Rattle.sheet_outside.specs.Crash.{File};
    ghost use Rattle.sheet_outside_disks.specs.Drive.{range};

    ghost Value = { File };

    ghost view = { λ f. record { seen = f.seen.items; settled = option_map (λ v. v.items) f.settled; written = map range f.written.items } };
}

impl Replayed {
    // A file that was just made.
    fn made(alloc: Global) -> Replayed
        ensures { result ≡ made }
    {
        Replayed {
            seen: Vec::new(alloc),
            settled: None,
            written: Vec::new(alloc),
        }
    }

    // A file of these bytes, all of them on the disk.
    fn at_rest(alloc: Global, bytes: &[u8]) -> Result<Replayed, AllocError>
        ensures { IfOk result (λ f. f ≡ at_rest bytes.now) }
    {
        let seen = bytes.to_vec(alloc)?;
        let settled = bytes.to_vec(alloc)?;
        Ok(Replayed {
            seen,
            settled: Some(settled),
            written: Vec::new(alloc),
        })
    }

    fn write(&mut self, place: u64, piece: &[u8]) -> Result<(), AllocError>
        ensures { OnOk result (self.new ≡ wrote place piece.now self.old) }
    {
        put(&mut self.seen, place, piece)?;
        push_range(&mut self.written, place, piece)
    }

    fn spoil(&mut self, place: u64, piece: &[u8]) -> Result<(), AllocError>
        ensures { OnOk result (self.new ≡ spoilt place piece.now self.old) }
    {
        push_range(&mut self.written, place, piece)
    }

    fn sync(&mut self, alloc: Global) -> Result<(), AllocError>
        ensures { OnOk result (self.new ≡ synced self.old) }
    {
        let settled = self.seen.to_vec(alloc)?;
        self.settled = Some(settled);
        self.written.clear();
        Ok(())
    }
}

// Adds the range of a piece, where the piece isn't empty.
fn push_range(ranges: &mut Vec<Range>, place: u64, piece: &[u8]) -> Result<(), AllocError>
    ensures { OnOk result (map range ranges.new.items ≡ map range ranges.old.items ++ range_of place piece.now) }
{
    if piece.is_empty() {
        return Ok(());
    }
    match ranges.push(Range {
        place,
        count: piece.len(),
    }) {
        Ok(()) => Ok(()),
        Err(_) => Err(AllocError),
    }
}

/// Adds this byte at the end, up to this length.
pub(crate) fn grow(bytes: &mut Vec<u8>, end: usize, fill: u8) -> Result<(), AllocError>
    ensures { OnOk result (bytes.new.items ≡ bytes.old.items ++ replicate (end - length bytes.old.items) fill) }
{
    if bytes.len() < end {
        bytes.resize(end, fill)?;
    }
    Ok(())
}

// Writes a piece over bytes that go on behind it.
fn overwrite(bytes: &mut [u8], place: usize, piece: &[u8])
    requires { place + length piece.now ≤ length bytes.old }
    ensures { bytes.new ≡ take place bytes.old ++ (piece.now ++ drop (place + length piece.now) bytes.old) }
{
    bytes[place..place + piece.len()].copy_from_slice(piece);
}

/// Writes a piece over bytes, with zeros between their end and the place.
pub(crate) fn put(bytes: &mut Vec<u8>, place: u64, piece: &[u8]) -> Result<(), AllocError>
    ensures { OnOk result (bytes.new.items ≡ put bytes.old.items place piece.now) }
{
    if piece.is_empty() {
        return Ok(());
    }
    let Some(end) = (place as usize).checked_add(piece.len()) else {
        return Err(AllocError);
    };
    grow(bytes, end, 0)?;
    overwrite(bytes, place as usize, piece);
    Ok(())
}

// What an event makes of the file of this name. Tells whether the file that is open now is this one.
fn turn(
    alloc: Global,
    event: &Event,
    name: &[u8],
    here: bool,
    file: &mut Option<Replayed>,
) -> Result<bool, AllocError>
    ensures here { IfOk result (λ now. now ≡ here_after (call_of event.now) name.now here) }
    ensures file { IfOk result (λ now. file.new ≡ (if now then changed (call_of event.now) file.old else file.old)) }
{
    match event {
        Event::Opened(opened, found) => {
            let now = name == opened.as_slice();
            if now && *found && file.is_none() {
                *file = Some(Replayed::made(alloc));
            }
            Ok(now)
        }
        Event::Wrote(place, piece) => {
            if here {
                write_there(file, *place, piece)?;
            }
            Ok(here)
        }
        Event::Spoilt(place, piece) => {
            if here {
                spoil_there(file, *place, piece)?;
            }
            Ok(here)
        }
        Event::Synced => {
            if here {
                sync_there(alloc, file)?;
            }
            Ok(here)
        }
        Event::Looked => Ok(here),
    }
}

fn write_there(file: &mut Option<Replayed>, place: u64, piece: &[u8]) -> Result<(), AllocError>
    ensures { OnOk result (file.new ≡ option_map (wrote place piece.now) file.old) }
{
    match file {
        Some(file) => file.write(place, piece),
        None => Ok(()),
    }
}

fn spoil_there(file: &mut Option<Replayed>, place: u64, piece: &[u8]) -> Result<(), AllocError>
    ensures { OnOk result (file.new ≡ option_map (spoilt place piece.now) file.old) }
{
    match file {
        Some(file) => file.spoil(place, piece),
        None => Ok(()),
    }
}

fn sync_there(alloc: Global, file: &mut Option<Replayed>) -> Result<(), AllocError>
    ensures { OnOk result (file.new ≡ option_map synced file.old) }
{
    match file {
        Some(file) => file.sync(alloc),
        None => Ok(()),
    }
}

// The file of this name before any call.
fn first(alloc: Global, start: &Files, name: &[u8]) -> Result<Option<Replayed>, AllocError>
    ensures { IfOk result (λ file. file ≡ option_map at_rest (found start.now name.now)) }
{
    match start.find(name) {
        Some(bytes) => Ok(Some(Replayed::at_rest(alloc, bytes)?)),
        None => Ok(None),
    }
}

/// The file of this name after these calls, where there is one.
pub(crate) fn replay(
    alloc: Global,
    start: &Files,
    log: &[Event],
    name: &[u8],
) -> Result<Option<Replayed>, AllocError>
    ensures { IfOk result (λ file. file ≡ (state start.now (map call_of log.now)).disk.now name.now) }
{
    let mut file = first(alloc, start, name)?;
    let mut here = name.is_empty();
    for event in log {
        here = turn(alloc, event, name, here, &mut file)?;
    }
    Ok(file)
}
