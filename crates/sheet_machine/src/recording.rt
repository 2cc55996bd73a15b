// Requests of an App with a journal.
ghost use Rattle.std.specs.Prelude.{◌≡◌, ◌≤◌, length, Some, None, IsSome, IsTrue, IfSome, IfOk, OnOk};
ghost use Rattle.sheet_outside.specs.Causes.{Rose, HasCause};
ghost use Rattle.sheet_journal.specs.Journal.{staged_of};
ghost use Rattle.sheet_requests.specs.declared.reply.Refusal.TheVariants.{DiskFault};
ghost use Rattle.sheet_requests.specs.declared.reply.Reply.TheVariants as replies;
ghost use Rattle.sheet_machine_laws.specs.Ranges.{IsInRange};
ghost use Rattle.sheet_machine.specs.Held.{holding, machine_of};
ghost use Rattle.sheet_machine.specs.Told.{told, AsksNoReads};
ghost use Rattle.sheet_machine.specs.Recovering.{entry_of};
ghost use Rattle.sheet_machine.specs.Recording.{IsAnswered};
ghost use Rattle.sheet_machine.specs.Becoming.{IsBetween, IsSure, IsInDoubt, CanRecord, Becomes, SettlesAs, IsActed, IsChosen};
ghost use Rattle.sheet_machine.specs.declared.recording.Recorded.TheVariants as recorded;

use crate::acting::act;
use crate::answered::{Answered, printed, starved};
use crate::held::Held;
use sheet_journal::{Journal, Settled};
use sheet_machine_laws::{only_accepted_change, only_disks_fault, sound_stays};
use sheet_outside::{Disk, Failed};
use sheet_requests::{Refusal, Reply, Request};
use sheet_values::{NoMemory, Steps};
use std::alloc::Global;
use std::sync::ledger::Ledger;

/// The kind of the record of a request.
pub(crate) const REQUEST: u8 = 1;

/// What became of a pending request.
#[derive(Clone, Copy, Debug, PartialEq, Eq)]
pub(crate) enum Recorded {
    /// Its record is on the disk, and it is taken in.
    TakenIn,
    /// Its record may be on the disk. It is pending, and in doubt.
    InDoubt,
    /// There was no memory for its record. The disk wasn't called, and it is left out.
    LeftOut,
}

// The answer where the disk fails.
fn disk_fault(held: &Held) -> Result<Answered, NoMemory>
    ensures reply { IfOk result (λ a. a.reply ≡ replies.Refused DiskFault) }
    ensures body { IfOk result (λ a. a.body.items ≡ told held.now.engine.book.columns (replies.Refused DiskFault)) }
{
    printed(
        held.alloc,
        held.engine.book().columns(),
        Reply::Refused(Refusal::DiskFault),
    )
}

// Builds the record of the request that is pending.
fn prepare(held: &Held, journal: &mut Journal) -> Result<(), NoMemory>
    requires short { IfSome held.now.pending (λ p. length p.line.items ≤ 1000000) }
    requires some { IsSome held.now.pending }
    requires room { journal.old.place ≤ 10000000000000000000 }
    ensures place { journal.new.place ≡ journal.old.place }
    ensures doubt { journal.new.doubt ≡ journal.old.doubt }
    ensures staged { OnOk result (IfSome held.now.pending (λ p. journal.new.staged ≡ staged_of (entry_of p.line.items))) }
{
    match &held.pending {
        Some(pending) => journal.prepare(REQUEST, pending.line.as_slice()),
        None => unreachable!(),
    }
}

// Writes the record of the request that is pending.
fn record<D: Disk>(held: &mut Held, journal: &mut Journal, disk: &mut D) -> Recorded
    requires open { IsTrue (D.is_open disk.old) }
    requires some { IsSome held.old.pending }
    requires can { IfSome held.old.pending (λ p. CanRecord held.old p journal.old) }
    ensures open { IsTrue (D.is_open disk.new) }
    ensures becomes { IfSome held.old.pending (λ p. Becomes result p held.old journal.old held.new journal.new (D.told disk.old) (D.told disk.new)) }
    ensures later { D.faults disk.old ≤ D.faults disk.new }
    ensures failed { result ≡ recorded.InDoubt → Rose (D.faults disk.old) (D.faults disk.new) }
{
    match prepare(held, journal) {
        Ok(()) => {}
        Err(NoMemory) => {
            held.leave_out();
            return Recorded::LeftOut;
        }
    }
    match journal.append(disk) {
        Ok(()) => {
            held.take_in();
            Recorded::TakenIn
        }
        Err(Failed) => Recorded::InDoubt,
    }
}

// What is answered: the reply to the request itself only where its record is on the disk.
fn choose(recorded: Recorded, answered: Answered, fault: Answered, alloc: Global) -> Answered
    ensures { IsChosen recorded answered fault result }
{
    match recorded {
        Recorded::TakenIn => answered,
        Recorded::InDoubt => fault,
        Recorded::LeftOut => starved(alloc),
    }
}

// The answer to a request where nothing is in doubt, with the one that is given where the disk fails.
fn answer_sure<D: Disk, G: Ledger>(
    held: &mut Held,
    journal: &mut Journal,
    disk: &mut D,
    request: &Request,
    steps: &mut Steps<G>,
    fault: Answered,
) -> Answered
    requires sure { IsSure held.old journal.old }
    requires range { IsInRange request.now }
    requires served { AsksNoReads request.now }
    requires open { IsTrue (D.is_open disk.old) }
    requires fault { fault.reply ≡ replies.Refused DiskFault }
    requires fault_body { fault.body.items ≡ told held.old.engine.book.columns (replies.Refused DiskFault) }
    ensures acted { IsActed (holding held.old) journal.old request.now result.reply held.new journal.new (D.told disk.old) (D.told disk.new) }
    ensures body { result.body.items ≡ told held.old.engine.book.columns result.reply }
    ensures open { IsTrue (D.is_open disk.new) }
    ensures later { D.faults disk.old ≤ D.faults disk.new }
    ensures failed { result.reply ≡ replies.Refused DiskFault → Rose (D.faults disk.old) (D.faults disk.new) }
{
    sound_stays();
    only_accepted_change();
    only_disks_fault();
    let answered = match act(held, request, steps) {
        Ok(answered) => answered,
        Err(NoMemory) => return starved(held.alloc),
    };
    if held.pending.is_none() {
        return answered;
    }
    let recorded = record(held, journal, disk);
    choose(recorded, answered, fault, held.alloc)
}

// Settles the request that is in doubt.
fn settle_doubt<D: Disk>(held: &mut Held, journal: &mut Journal, disk: &mut D) -> Result<(), Failed>
    requires in_doubt { IsInDoubt held.old journal.old }
    requires open { IsTrue (D.is_open disk.old) }
    ensures settles { SettlesAs result held.old journal.old held.new journal.new (D.told disk.old) (D.told disk.new) }
    ensures open { IsTrue (D.is_open disk.new) }
    ensures cause { HasCause (D.faults disk.old) (D.faults disk.new) result }
{
    match journal.settle(disk) {
        Ok(Settled::In) => {
            held.take_in();
            Ok(())
        }
        Ok(Settled::Out) => {
            held.leave_out();
            Ok(())
        }
        Err(failed) => Err(failed),
    }
}

// Settles what is in doubt, where anything is.
fn settle<D: Disk>(held: &mut Held, journal: &mut Journal, disk: &mut D) -> Result<(), Failed>
    requires between { IsBetween held.old journal.old }
    requires open { IsTrue (D.is_open disk.old) }
    ensures settles { SettlesAs result held.old journal.old held.new journal.new (D.told disk.old) (D.told disk.new) }
    ensures open { IsTrue (D.is_open disk.new) }
    ensures cause { HasCause (D.faults disk.old) (D.faults disk.new) result }
{
    if held.pending.is_some() {
        settle_doubt(held, journal, disk)
    } else {
        Ok(())
    }
}

/// The answer to a request, with a journal. What is in doubt is settled first. The bytes of the answer where the disk fails are made
/// before the disk is called.
pub(crate) fn answer_recorded<D: Disk, G: Ledger>(
    held: &mut Held,
    journal: &mut Journal,
    disk: &mut D,
    request: &Request,
    steps: &mut Steps<G>,
) -> Answered
    requires between { IsBetween held.old journal.old }
    requires range { IsInRange request.now }
    requires served { AsksNoReads request.now }
    requires open { IsTrue (D.is_open disk.old) }
    ensures answered { IsAnswered (machine_of held.old) journal.old request.now result.reply (machine_of held.new) journal.new (D.told disk.old) (D.told disk.new) }
    ensures between { IsBetween held.new journal.new }
    ensures body { result.body.items ≡ told held.old.engine.book.columns result.reply }
    ensures open { IsTrue (D.is_open disk.new) }
    ensures later { D.faults disk.old ≤ D.faults disk.new }
    ensures failed { result.reply ≡ replies.Refused DiskFault → Rose (D.faults disk.old) (D.faults disk.new) }
{
    let fault = match disk_fault(held) {
        Ok(fault) => fault,
        Err(NoMemory) => return starved(held.alloc),
    };
    match settle(held, journal, disk) {
        Ok(()) => answer_sure(held, journal, disk, request, steps, fault),
        Err(Failed) => fault,
    }
}
