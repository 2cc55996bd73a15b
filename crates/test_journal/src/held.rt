// A journal in hand, whose calls are made only where they may be.
ghost use Rattle.std.specs.Prelude.{◌≡◌, ◌+◌, ◌*◌, ◌≤◌, IsTrue, IfSome, OnOk};
ghost use Rattle.test_journal.specs.Held.{reached};

use sheet_journal::{Journal, JournalRefusal, Record, Settled};
use sheet_outside::{Disk, Failed};
use std::alloc::Global;

/// The greatest length of a payload.
const LIMIT: usize = 1 << 20;

/// A journal, how many records were written to it, and whether it has come to its end.
#[derive(Drop)]
pub(crate) struct Held {
    journal: Journal,
    at_end: bool,
    written: u32,
    ghost room: { reached journal ≤ 9223372036854775807 + 1048582 * written },
}

impl Held {
    /// Begins a journal. None where the payload is too long.
    pub(crate) fn begin<D: Disk>(
        alloc: Global,
        disk: &mut D,
        payload: &[u8],
    ) -> Option<Result<Held, JournalRefusal>>
        ensures { IfSome result (λ begun. OnOk begun (IsTrue (D.is_open disk.new))) }
    {
        if payload.len() > LIMIT {
            return None;
        }
        match Journal::init(alloc, disk, b"J", payload) {
            Ok(journal) => Some(Ok(Held {
                journal,
                at_end: true,
                written: 0,
            })),
            Err(refusal) => Some(Err(refusal)),
        }
    }

    /// Opens the journal.
    pub(crate) fn find<D: Disk>(alloc: Global, disk: &mut D) -> Result<Held, JournalRefusal>
        ensures { OnOk result (IsTrue (D.is_open disk.new)) }
    {
        let journal = Journal::open(alloc, disk, b"J")?;
        Ok(Held {
            journal,
            at_end: false,
            written: 0,
        })
    }

    /// The next record. None where one is in doubt.
    pub(crate) fn next<D: Disk>(
        &mut self,
        disk: &mut D,
    ) -> Option<Result<Option<Record>, JournalRefusal>>
        requires { IsTrue (D.is_open disk.old) }
        ensures { IsTrue (D.is_open disk.new) }
    {
        if self.journal.in_doubt() {
            return None;
        }
        let read = self.journal.next_record(disk);
        self.at_end = matches!(read, Ok(None));
        Some(read)
    }

    /// Appends a record. None where one is in doubt, not all records were read, or the payload is too long.
    pub(crate) fn append<D: Disk>(
        &mut self,
        disk: &mut D,
        kind: u8,
        payload: &[u8],
    ) -> Option<Result<(), Failed>>
        requires { IsTrue (D.is_open disk.old) }
        ensures { IsTrue (D.is_open disk.new) }
    {
        if self.journal.in_doubt() || !self.at_end {
            return None;
        }
        if payload.len() > LIMIT || self.written == u32::MAX {
            return None;
        }
        if self.journal.prepare(kind, payload).is_err() {
            return None;
        }
        self.written += 1;
        Some(self.journal.append(disk))
    }

    /// Settles what is in doubt. None where nothing is.
    pub(crate) fn settle<D: Disk>(&mut self, disk: &mut D) -> Option<Result<Settled, Failed>>
        requires { IsTrue (D.is_open disk.old) }
        ensures { IsTrue (D.is_open disk.new) }
    {
        if !self.journal.in_doubt() {
            return None;
        }
        Some(self.journal.settle(disk))
    }
}
