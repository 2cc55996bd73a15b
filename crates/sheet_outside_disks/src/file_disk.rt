// Files of the operating system.
ghost use Rattle.std.specs.Prelude.{◌≡◌, ◌↔◌, ◌<◌, ◌^◌, None, Ok, is_some, IfOk, IsErr, IsOkAnd, IsTrue, OnErr};
ghost use Rattle.sheet_outside.specs.Causes.{HasCause};

use sheet_outside::{Disk, Failed};
use std::fs::{File, Files, OpenOptions};
use std::io;
use std::io::ErrorKind;
use std::os::unix::fs::FileExt;
use std::str::from_utf8;

/// Files of the operating system. It tells nothing of them.
///
/// A sync also waits for the folder, once after each `open`: also a file that was there may have been made by a run that was stopped
/// before its first sync.
#[derive(Drop)]
pub struct FileDisk<R: Files<File = File> + Drop> {
    files: R,
    file: Option<File>,
    // the folder of that file, until it is on the disk that the file is there
    folder: Option<File>,
    faults: u64,
}

impl<R: Files<File = File> + Drop> FileDisk<R> {
    /// The files that `files` leads to.
    pub fn new(files: R) -> FileDisk<R>
        ensures faults { result.faults ≡ 0 }
        ensures open { result.file ≡ None }
    {
        FileDisk {
            files,
            file: None,
            folder: None,
            faults: 0,
        }
    }

    // Opens a file that is there, or makes it. False where there is none.
    fn find(&mut self, name: &str, make: bool) -> io::Result<bool>
        ensures open { IsTrue (is_some self.new.file) ↔ IsOkAnd result (λ found. IsTrue found) }
        ensures made { IsTrue make → IfOk result (λ found. IsTrue found) }
        ensures faults { self.new.faults ≡ self.old.faults }
    {
        self.file = None;
        self.folder = None;
        match OpenOptions::new()
            .read(true)
            .write(true)
            .open(&self.files, name)
        {
            Ok(file) => {
                self.folder = Some(File::open(&self.files, folder_of(name))?);
                self.file = Some(file);
                Ok(true)
            }
            Err(e) => {
                if e.kind() != ErrorKind::NotFound {
                    return Err(e);
                }
                if make { self.make(name) } else { Ok(false) }
            }
        }
    }

    // Makes a file.
    fn make(&mut self, name: &str) -> io::Result<bool>
        ensures open { IfOk result (λ found. IsTrue found × IsTrue (is_some self.new.file)) }
        ensures failed { OnErr result (self.new.file ≡ self.old.file) }
        ensures faults { self.new.faults ≡ self.old.faults }
    {
        let folder = File::open(&self.files, folder_of(name))?;
        let file = OpenOptions::new()
            .read(true)
            .write(true)
            .create(true)
            .open(&self.files, name)?;
        self.folder = Some(folder);
        self.file = Some(file);
        Ok(true)
    }

    fn settle(&mut self) -> io::Result<()>
        ensures open { is_some self.new.file ≡ is_some self.old.file }
        ensures faults { self.new.faults ≡ self.old.faults }
    {
        if let Some(file) = &self.file {
            file.sync_all()?;
        }
        if let Some(folder) = &self.folder {
            folder.sync_all()?;
        }
        self.folder = None;
        Ok(())
    }

    // Counts a failure.
    fn counted<T: Drop>(&mut self, outcome: io::Result<T>) -> Result<T, Failed>
        ensures open { self.new.file ≡ self.old.file }
        ensures ok { IfOk result (λ value. outcome ≡ Ok value) }
        ensures err { OnErr result (IsErr outcome) }
        ensures cause { HasCause self.old.faults self.new.faults result }
    {
        match outcome {
            Ok(value) => Ok(value),
            Err(_) => {
                self.faults = self.faults.saturating_add(1);
                Err(Failed)
            }
        }
    }
}

// The folder that a file of this name stands in.
fn folder_of(name: &str) -> &str {
    match name.rsplit_once('/') {
        Some(("", _)) => "/",
        Some((folder, _)) => folder,
        None => ".",
    }
}

fn none<T>() -> io::Result<T>
    ensures { IsErr result }
{
    Err(io::Error::from(ErrorKind::NotFound))
}

// The length of a file, where the greatest that a disk may answer isn't exceeded.
fn length_of(file: &File) -> io::Result<u64>
    ensures { IfOk result (λ count. count < 2 ^ 63) }
{
    let count = file.metadata()?.len();
    if count >> 63 == 0 { Ok(count) } else { none() }
}

impl<R: Files<File = File> + Drop> Disk for FileDisk<R> {
    ghost told = { λ _. None };

    ghost is_open = { λ d. is_some d.file };

    ghost faults = { λ d. d.faults };

    fn open(&mut self, name: &[u8], make: bool) -> Result<bool, Failed> {
        let found = match from_utf8(name) {
            Ok(text) => self.find(text, make),
            Err(_) => {
                self.file = None;
                none()
            }
        };
        self.counted(found)
    }

    fn length(&mut self) -> Result<u64, Failed> {
        let length = match &self.file {
            Some(file) => length_of(file),
            None => none(),
        };
        self.counted(length)
    }

    fn read_at(&mut self, place: u64, piece: &mut [u8]) -> Result<usize, Failed> {
        let read = match &self.file {
            Some(file) => file.read_at(piece, place),
            None => none(),
        };
        self.counted(read)
    }

    fn write_at(&mut self, place: u64, piece: &[u8]) -> Result<(), Failed> {
        let written = match &self.file {
            Some(file) => file.write_all_at(piece, place),
            None => none(),
        };
        self.counted(written)
    }

    fn sync(&mut self) -> Result<(), Failed> {
        let synced = self.settle();
        self.counted(synced)
    }
}
