// A disk in memory without failing calls: what it started with, its calls, and the bytes of the file that is open.
ghost use Rattle.std.specs.Prelude.{◌≡◌, ◌↔◌, ◌<◌, ◌≤◌, ◌^◌, Bool, List, ℕ, Ok, Err, IsTrue, IfOk, None, [], false, length, ⊤};
ghost use Rattle.std.specs.Io.{ReadsAtMost};
ghost use Rattle.sheet_outside.specs.declared.Failed.{Failed as TheFailed};
ghost use Rattle.sheet_outside.specs.Crash.{put};
ghost use Rattle.sheet_outside.specs.Told.{WhereTold};
ghost use Rattle.sheet_outside.specs.DiskCalls.{Opens, Looks, TellsLength, GivesBytes, IsRead, Writes, Syncs};
ghost use Rattle.sheet_outside_disks.specs.Drive.{new_drive, told, ReadsSame};
ghost use Rattle.sheet_outside_disks.specs.Image.{open_at, IsImageAt};

use crate::event::{Event, note, note_open, note_spoilt, note_write};
use crate::files::Files;
use crate::image::{fill_image, last_open};
use crate::replay::{put, replay};
use std::alloc::{AllocError, Global};
use std::marker::Model;

/// A disk in memory.
#[derive(Drop)]
pub(crate) struct Drive {
    alloc: Global,
    start: Files,
    log: Vec<Event>,
    current: Vec<u8>,
    is_open: bool,
    tells: bool,
}

impl Model for Drive {
    ghost use Rattle.std.specs.Prelude.{map, IsTrue};
    ghost use Rattle.sheet_outside_disks.specs.Drive.{Drive as TheDrive, IsCurrent, call_of};

    ghost Value = { TheDrive };

    ghost view = { λ d. record { start = d.start; calls = map call_of d.log.items; is_open = d.is_open; tells = d.tells } };

    ghost invariant = { λ d. IsTrue d.tells → IsCurrent (record { start = d.start; calls = map call_of d.log.items; is_open = d.is_open; tells = d.tells }) d.current.items };
}

impl Drive {
    pub(crate) fn new(alloc: Global, start: Files) -> Drive
        ensures { result ≡ new_drive start }
    {
        Drive {
            alloc,
            start,
            log: Vec::new(alloc),
            current: Vec::new(alloc),
            is_open: false,
            tells: true,
        }
    }

    /// From now on it tells nothing.
    pub(crate) fn fall_silent(&mut self)
        ensures start { self.new.start ≡ self.old.start }
        ensures calls { self.new.calls ≡ self.old.calls }
        ensures open { self.new.is_open ≡ self.old.is_open }
        ensures tells { self.new.tells ≡ false }
    {
        self.tells = false;
    }

    pub(crate) fn open(&mut self, name: &[u8], make: bool) -> bool
        ensures open { self.new.is_open ≡ result }
        ensures made { IsTrue make → IsTrue result }
        ensures files { WhereTold (Opens {E = TheFailed} name.now make (Ok result)) (told self.old) (told self.new) }
    {
        match replay(self.alloc, &self.start, &self.log, name) {
            Ok(Some(file)) => {
                self.current = file.seen;
                self.is_open = true;
                self.tells = note_open(self.alloc, &mut self.log, self.tells, name, true);
                true
            }
            Ok(None) => {
                self.current = Vec::new(self.alloc);
                self.is_open = make;
                self.tells = note_open(self.alloc, &mut self.log, self.tells, name, make);
                make
            }
            Err(AllocError) => {
                self.is_open = make;
                self.tells = false;
                make
            }
        }
    }

    /// An `open` that fails.
    pub(crate) fn miss(&mut self, name: &[u8], make: bool)
        ensures open { self.new.is_open ≡ false }
        ensures files { (failed : TheFailed) → WhereTold (Opens name.now make (Err failed)) (told self.old) (told self.new) }
        ensures same { WhereTold ReadsSame (told self.old) (told self.new) }
    {
        self.is_open = false;
        self.tells = note_open(self.alloc, &mut self.log, self.tells, name, false);
    }

    /// A call that changes nothing.
    pub(crate) fn look(&mut self)
        ensures open { self.new.is_open ≡ self.old.is_open }
        ensures files { WhereTold (Looks (λ file. ⊤)) (told self.old) (told self.new) }
    {
        self.tells = note(&mut self.log, self.tells, Event::Looked);
    }

    pub(crate) fn length(&mut self) -> u64
        requires { IsTrue self.old.is_open }
        ensures bound { result < 2 ^ 63 }
        ensures open { self.new.is_open ≡ self.old.is_open }
        ensures files { WhereTold (Looks (TellsLength {E = TheFailed} (Ok result))) (told self.old) (told self.new) }
    {
        self.tells = note(&mut self.log, self.tells, Event::Looked);
        self.current.len() as u64
    }

    pub(crate) fn read(&mut self, place: u64, piece: &mut [u8]) -> usize
        requires { IsTrue self.old.is_open }
        ensures bound { ReadsAtMost {E = TheFailed} (Ok result) piece.new }
        ensures open { self.new.is_open ≡ self.old.is_open }
        ensures files { WhereTold (Looks (GivesBytes {E = TheFailed} place (Ok result) piece.new)) (told self.old) (told self.new) }
    {
        self.tells = note(&mut self.log, self.tells, Event::Looked);
        read_from(&self.current, place, piece)
    }

    pub(crate) fn write(&mut self, place: u64, piece: &[u8])
        ensures open { self.new.is_open ≡ self.old.is_open }
        ensures files { WhereTold (Writes {E = TheFailed} place piece.now (Ok tt)) (told self.old) (told self.new) }
    {
        let tells = write_current(&mut self.current, self.tells, place, piece);
        self.tells = note_write(self.alloc, &mut self.log, tells, place, piece);
    }

    /// A write that fails.
    pub(crate) fn spoil(&mut self, place: u64, piece: &[u8])
        ensures open { self.new.is_open ≡ self.old.is_open }
        ensures files { (failed : TheFailed) → WhereTold (Writes place piece.now (Err failed)) (told self.old) (told self.new) }
        ensures same { WhereTold ReadsSame (told self.old) (told self.new) }
    {
        self.tells = note_spoilt(self.alloc, &mut self.log, self.tells, place, piece);
    }

    pub(crate) fn sync(&mut self)
        ensures open { self.new.is_open ≡ self.old.is_open }
        ensures files { WhereTold (Syncs {E = TheFailed} (Ok tt)) (told self.old) (told self.new) }
    {
        self.tells = note(&mut self.log, self.tells, Event::Synced);
    }

    /// An image that a crash right after this call may leave of the file that was open then.
    pub(crate) fn image(&self, call: u64, fill: u8) -> Result<Vec<u8>, AllocError>
        ensures { IfOk result (λ image. IsImageAt self.now call fill (open_at self.now call) image.items) }
    {
        if !self.tells || call > self.log.len() as u64 {
            return Ok(Vec::new(self.alloc));
        }
        let (log, _) = self.log.split_at(call as usize);
        match last_open(log) {
            Some(name) => match replay(self.alloc, &self.start, log, name)? {
                Some(file) => fill_image(self.alloc, &file, fill),
                None => Ok(Vec::new(self.alloc)),
            },
            None => Ok(Vec::new(self.alloc)),
        }
    }
}

// Writes a piece over the bytes of the open file. True where the disk has told so far and there is memory for it.
fn write_current(current: &mut Vec<u8>, tells: bool, place: u64, piece: &[u8]) -> bool
    ensures { IsTrue result → IsTrue tells × (current.new.items ≡ put current.old.items place piece.now) }
{
    match put(current, place, piece) {
        Ok(()) => tells,
        Err(AllocError) => false,
    }
}

// Some bytes from a place on.
fn read_from(bytes: &[u8], place: u64, piece: &mut [u8]) -> usize
    ensures bound { result ≤ length piece.new }
    ensures bytes { IsRead place result piece.new (record { seen = bytes.now; settled = None; written = [] }) }
{
    if place >= bytes.len() as u64 {
        return 0;
    }
    let (_, rest) = bytes.split_at(place as usize);
    let count = piece.len().min(rest.len());
    let (front, _) = rest.split_at(count);
    piece[..count].copy_from_slice(front);
    count
}
