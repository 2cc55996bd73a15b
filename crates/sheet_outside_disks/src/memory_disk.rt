// Disks in memory.
ghost use Rattle.std.specs.Prelude.{◌≡◌, ◌↔◌, ◌-◌, ◌<◌, ◌^◌, ℕ, Bool, false, true, None, OnErr, IsOkAnd, IfOk, IsTrue};
ghost use Rattle.std.specs.Io.{ReadsAtMost};
ghost use Rattle.sheet_outside.specs.Causes.{HasCause};
ghost use Rattle.sheet_outside.specs.Memory.{uncalled, IsNextCall};
ghost use Rattle.sheet_outside.specs.Told.{WhereTold};
ghost use Rattle.sheet_outside.specs.DiskCalls.{Opens, Looks, TellsLength, GivesBytes, Writes, Syncs};
ghost use Rattle.sheet_outside_disks.specs.Drive.{Drive as TheDrive, new_drive, told, IsSameOrSilent, ReadsSame};
ghost use Rattle.sheet_outside_disks.specs.Image.{Memory, open_at, IsImageAt};

use crate::drive::Drive;
use crate::files::Files;
use sheet_outside::{Calls, Disk, Failed};
use sheet_values::NoMemory;
use std::alloc::Global;
use std::marker::Model;

/// Files in memory, which never fail. It tells them until there is no memory. Seen as what it started with and the calls since.
#[derive(Drop)]
pub struct SureDisk {
    drive: Drive,
}

impl Model for SureDisk {
    ghost Value = { TheDrive };

    ghost view = { λ s. s.drive };
}

impl SureDisk {
    /// A disk of these files, all of them on it.
    pub fn new(alloc: Global, content: Files) -> SureDisk
        ensures { result ≡ new_drive content }
    {
        SureDisk {
            drive: Drive::new(alloc, content),
        }
    }
}

impl Disk for SureDisk {
    ghost told = { λ s. told s };

    ghost is_open = { λ s. s.is_open };

    ghost faults = { λ _. 0 };

    fn open(&mut self, name: &[u8], make: bool) -> Result<bool, Failed> {
        Ok(self.drive.open(name, make))
    }

    fn length(&mut self) -> Result<u64, Failed> {
        Ok(self.drive.length())
    }

    fn read_at(&mut self, place: u64, piece: &mut [u8]) -> Result<usize, Failed> {
        Ok(self.drive.read(place, piece))
    }

    fn write_at(&mut self, place: u64, piece: &[u8]) -> Result<(), Failed> {
        self.drive.write(place, piece);
        Ok(())
    }

    fn sync(&mut self) -> Result<(), Failed> {
        self.drive.sync();
        Ok(())
    }
}

/// Files in memory, of which some calls fail. It tells them until there is no memory, or until the number of a call can't be stored.
#[derive(Drop)]
pub struct MemoryDisk {
    drive: Drive,
    calls: Calls,
}

impl Model for MemoryDisk {
    ghost Value = { Memory };

    ghost view = { λ s. record { drive = s.drive; calls = s.calls } };
}

impl MemoryDisk {
    /// A disk of these files, all of them on it. Calls are counted from 1, and those in `fails` fail.
    pub fn new(alloc: Global, content: Files, fails: Vec<u64>) -> MemoryDisk
        ensures drive { result.drive ≡ new_drive content }
        ensures calls { result.calls ≡ uncalled fails.items }
    {
        MemoryDisk {
            drive: Drive::new(alloc, content),
            calls: Calls::new(fails),
        }
    }

    /// An image that a crash right after this call may leave of the file that was open then: as long as it may be, and with the byte
    /// `fill` wherever any byte may stand. Nothing where no such file was open, or where it isn't told.
    pub fn image(&self, call: u64, fill: u8) -> Result<Vec<u8>, NoMemory>
        ensures { IfOk result (λ image. IsImageAt self.now.drive call fill (open_at self.now.drive call) image.items) }
    {
        Ok(self.drive.image(call, fill)?)
    }

    // One call more.
    fn count(&mut self) -> Result<(), Failed>
        ensures call { IsNextCall self.old.calls self.new.calls result }
        ensures cause { HasCause self.old.calls.faults self.new.calls.faults result }
        ensures drive { IsSameOrSilent self.old.drive self.new.drive }
        ensures failed { OnErr result (self.new.drive ≡ self.old.drive) }
        ensures silent { self.old.calls.made ≡ 2 ^ 64 - 1 → self.new.drive.tells ≡ false }
    {
        if !self.calls.count()? {
            self.drive.fall_silent();
        }
        Ok(())
    }
}

impl Disk for MemoryDisk {
    ghost told = { λ s. told s.drive };

    ghost is_open = { λ s. s.drive.is_open };

    ghost faults = { λ s. s.calls.faults };

    fn open(&mut self, name: &[u8], make: bool) -> Result<bool, Failed>
        ensures call { IsNextCall self.old.calls self.new.calls result }
        ensures silent { self.old.calls.made ≡ 2 ^ 64 - 1 → self.new.drive.tells ≡ false }
        ensures cause { HasCause self.old.calls.faults self.new.calls.faults result }
        ensures open { IsTrue self.new.drive.is_open ↔ IsOkAnd result (λ found. IsTrue found) }
        ensures made { IsTrue make → IfOk result (λ found. IsTrue found) }
        ensures files { WhereTold (Opens name.now make result) (told self.old.drive) (told self.new.drive) }
        ensures same { OnErr result (WhereTold ReadsSame (told self.old.drive) (told self.new.drive)) }
    {
        match self.count() {
            Ok(()) => Ok(self.drive.open(name, make)),
            Err(failed) => {
                self.drive.miss(name, make);
                Err(failed)
            }
        }
    }

    fn length(&mut self) -> Result<u64, Failed>
        requires { IsTrue self.old.drive.is_open }
        ensures call { IsNextCall self.old.calls self.new.calls result }
        ensures silent { self.old.calls.made ≡ 2 ^ 64 - 1 → self.new.drive.tells ≡ false }
        ensures cause { HasCause self.old.calls.faults self.new.calls.faults result }
        ensures bound { IfOk result (λ count. count < 2 ^ 63) }
        ensures open { IsTrue self.new.drive.is_open }
        ensures files { WhereTold (Looks (TellsLength result)) (told self.old.drive) (told self.new.drive) }
    {
        match self.count() {
            Ok(()) => Ok(self.drive.length()),
            Err(failed) => {
                self.drive.look();
                Err(failed)
            }
        }
    }

    fn read_at(&mut self, place: u64, piece: &mut [u8]) -> Result<usize, Failed>
        requires { IsTrue self.old.drive.is_open }
        ensures call { IsNextCall self.old.calls self.new.calls result }
        ensures silent { self.old.calls.made ≡ 2 ^ 64 - 1 → self.new.drive.tells ≡ false }
        ensures cause { HasCause self.old.calls.faults self.new.calls.faults result }
        ensures bound { ReadsAtMost result piece.new }
        ensures open { IsTrue self.new.drive.is_open }
        ensures files { WhereTold (Looks (GivesBytes place result piece.new)) (told self.old.drive) (told self.new.drive) }
    {
        match self.count() {
            Ok(()) => Ok(self.drive.read(place, piece)),
            Err(failed) => {
                self.drive.look();
                Err(failed)
            }
        }
    }

    fn write_at(&mut self, place: u64, piece: &[u8]) -> Result<(), Failed>
        requires { IsTrue self.old.drive.is_open }
        ensures call { IsNextCall self.old.calls self.new.calls result }
        ensures silent { self.old.calls.made ≡ 2 ^ 64 - 1 → self.new.drive.tells ≡ false }
        ensures cause { HasCause self.old.calls.faults self.new.calls.faults result }
        ensures open { IsTrue self.new.drive.is_open }
        ensures files { WhereTold (Writes place piece.now result) (told self.old.drive) (told self.new.drive) }
        ensures same { OnErr result (WhereTold ReadsSame (told self.old.drive) (told self.new.drive)) }
    {
        match self.count() {
            Ok(()) => {
                self.drive.write(place, piece);
                Ok(())
            }
            Err(failed) => {
                self.drive.spoil(place, piece);
                Err(failed)
            }
        }
    }

    fn sync(&mut self) -> Result<(), Failed>
        requires { IsTrue self.old.drive.is_open }
        ensures call { IsNextCall self.old.calls self.new.calls result }
        ensures silent { self.old.calls.made ≡ 2 ^ 64 - 1 → self.new.drive.tells ≡ false }
        ensures cause { HasCause self.old.calls.faults self.new.calls.faults result }
        ensures open { IsTrue self.new.drive.is_open }
        ensures files { WhereTold (Syncs result) (told self.old.drive) (told self.new.drive) }
    {
        match self.count() {
            Ok(()) => {
                self.drive.sync();
                Ok(())
            }
            Err(failed) => {
                self.drive.look();
                Err(failed)
            }
        }
    }
}
