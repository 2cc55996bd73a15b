// Bytes of a journal's file that are read ahead, in large pieces.
ghost use Rattle.std.specs.Prelude.{◌≡◌, ◌+◌, ◌<◌, ◌≤◌, ◌^◌, [], ◌-◌, min, length, drop, false, IfOk, IsTrue};
ghost use Rattle.sheet_outside.specs.Told.{WhereTold};
ghost use Rattle.sheet_journal.specs.JournalCalls.{Observes, GivesPiece, HasDiskCause, IsEnough, IsReadRefusal, piece};

use crate::device::read_whole;
use crate::head::{Head, judge_ahead};
use crate::journal::JournalRefusal;
use sheet_outside::{Disk, Failed};
use std::alloc::Global;
use std::marker::Model;

/// How many bytes are read at once: the longest record with its gate and the one behind it.
const PIECE: u64 = 1_048_583;

/// Bytes that were read and not yet used. Seen as a list.
#[derive(Drop)]
pub(crate) struct Ahead {
    bytes: Vec<u8>,
    from: usize,
}

impl Model for Ahead {
    ghost use Rattle.std.specs.Prelude.{List, ℕ, ◌≤◌, drop, vec_len};

    ghost Value = { List ℕ };

    ghost view = { λ a. drop a.from a.bytes.items };

    ghost invariant = { λ a. a.from ≤ vec_len a.bytes };
}

impl Ahead {
    /// No bytes.
    pub(crate) fn none(alloc: Global) -> Ahead
        ensures { result ≡ [] }
    {
        Ahead {
            bytes: Vec::new(alloc),
            from: 0,
        }
    }

    pub(crate) fn of(bytes: Vec<u8>) -> Ahead
        ensures { result ≡ bytes.items }
    {
        Ahead { bytes, from: 0 }
    }

    pub(crate) fn as_slice(&self) -> &[u8]
        ensures { result.now ≡ self.now }
    {
        let (_, rest) = self.bytes.split_at(self.from);
        rest
    }

    /// Passes over some bytes.
    pub(crate) fn pass(&mut self, count: usize)
        requires { count ≤ length self.old }
        ensures { self.new ≡ drop count self.old }
    {
        self.from += count;
    }
}

/// Whether more must be read to tell what stands in front of these bytes.
pub(crate) fn needs_more(ahead: &[u8]) -> bool
    ensures { result ≡ false → IsEnough ahead.now }
{
    if ahead.is_empty() {
        return true;
    }
    match judge_ahead(ahead) {
        Head::Torn => true,
        _ => false,
    }
}

/// Reads a piece from this place on, or what is there.
pub(crate) fn read_piece<D: Disk>(
    alloc: Global,
    disk: &mut D,
    place: u64,
) -> Result<Vec<u8>, JournalRefusal>
    requires { IsTrue (D.is_open disk.old) }
    ensures open { IsTrue (D.is_open disk.new) }
    ensures room { IfOk result (λ v. 0 < length v.items → place + length v.items < 2 ^ 63) }
    ensures refusal { IsReadRefusal result }
    ensures file { WhereTold (Observes (GivesPiece place piece result)) (D.told disk.old) (D.told disk.new) }
    ensures cause { HasDiskCause (D.faults disk.old) (D.faults disk.new) result }
{
    match disk.length() {
        Ok(size) => read_up_to(alloc, disk, place, count_ahead(place, size)),
        Err(Failed) => Err(JournalRefusal::DiskFault),
    }
}

// How many bytes are read from this place on of a file of this length.
fn count_ahead(place: u64, size: u64) -> u64
    ensures { result ≡ min (size - place) piece }
{
    size.saturating_sub(place).min(PIECE)
}

// Reads so many bytes from this place on, or what is there.
fn read_up_to<D: Disk>(
    alloc: Global,
    disk: &mut D,
    place: u64,
    count: u64,
) -> Result<Vec<u8>, JournalRefusal>
    requires open { IsTrue (D.is_open disk.old) }
    requires room { place + count < 2 ^ 64 }
    ensures open { IsTrue (D.is_open disk.new) }
    ensures bound { IfOk result (λ v. length v.items ≤ count) }
    ensures refusal { IsReadRefusal result }
    ensures file { WhereTold (Observes (GivesPiece place count result)) (D.told disk.old) (D.told disk.new) }
    ensures cause { HasDiskCause (D.faults disk.old) (D.faults disk.new) result }
{
    let mut bytes = match vec![in alloc; 0; count as usize] {
        Ok(bytes) => bytes,
        Err(_) => return Err(JournalRefusal::NoMemory),
    };
    match read_whole(disk, place, &mut bytes) {
        Ok(read) => {
            bytes.truncate(read);
            Ok(bytes)
        }
        Err(Failed) => Err(JournalRefusal::DiskFault),
    }
}
