// Opening a journal.
ghost use Rattle.std.specs.Prelude.{◌≡◌, ◌<◌, ◌≤◌, IsTrue, OnOk, IfOk};
ghost use Rattle.std.specs.List.{list_all};
ghost use Rattle.sheet_outside.specs.Told.{WhereTold};
ghost use Rattle.sheet_journal.specs.JournalCalls.{entry_of as entry_read};
ghost use Rattle.sheet_requests.specs.Reading.{is_key as is_key_text, is_key_byte as is_byte_of_key};
ghost use Rattle.sheet_machine_laws.specs.Ranges.{IsInRange};
ghost use Rattle.sheet_machine.specs.Held.{holding, IsReady};
ghost use Rattle.sheet_machine.specs.Told.{AsksNoReads};
ghost use Rattle.sheet_machine.specs.Opening.{Reopens, IsOpenRefusal, HasOpenCause};
ghost use Rattle.sheet_machine.specs.OpeningSteps.{open_refusal, start_refusal, line_refusal, ReadsKey, BeginsWith, BeginsAs, AcceptsAs, GoesOnAs, IsGoing, IsUnderWay, IsAtEnd, Turns, Ends};

use crate::acting::act;
use crate::held::Held;
use crate::recording::REQUEST;
use crate::starting::{StartRefusal, started};
use sheet_define_reading::texts_stand_for_one_definition;
use sheet_journal::{Journal, JournalRefusal, Record};
use sheet_machine_laws::{only_accepted_change, sound_stays};
use sheet_machine_records::first_parts;
use sheet_outside::Disk;
use sheet_requests::{Request, Route, WireRefusal};
use sheet_values::{Name, NameRefusal, NoMemory, Steps};
use sheet_wire::read_request;
use std::alloc::Global;
use std::sync::ledger::Ledger;

// The kind of a journal's first record.
const FIRST: u8 = 0;

/// Why a journal isn't opened.
#[derive(Clone, Copy, Debug, PartialEq, Eq)]
pub enum OpenRefusal {
    /// The disk failed, there is no journal of this name, or a record isn't whole.
    Journal(JournalRefusal),
    /// The record with this number, from 1, can't be read or isn't accepted at its place.
    Damaged(u64),
    /// There was no memory.
    NoMemory,
}

/// What was opened: a workbook, and the journal from which it was recovered.
#[derive(Drop)]
pub(crate) struct Opened {
    pub(crate) held: Held,
    pub(crate) journal: Journal,
}

// A refusal of a journal as one of opening.
fn refused(refusal: JournalRefusal) -> OpenRefusal
    ensures { result ≡ open_refusal refusal }
{
    match refusal {
        JournalRefusal::NoMemory => OpenRefusal::NoMemory,
        other => OpenRefusal::Journal(other),
    }
}

// Why nothing begins with a first record whose definition is refused.
fn not_started(refusal: StartRefusal) -> OpenRefusal
    ensures { result ≡ start_refusal refusal }
{
    match refusal {
        StartRefusal::Definition(_) => OpenRefusal::Damaged(1),
        StartRefusal::Types(_) => OpenRefusal::Damaged(1),
        StartRefusal::NoMemory => OpenRefusal::NoMemory,
    }
}

// Why it doesn't go on with the record of that number, whose line is refused.
fn not_read(refusal: WireRefusal, number: u64) -> OpenRefusal
    ensures { result ≡ line_refusal refusal number }
{
    match refusal {
        WireRefusal::NotJson => OpenRefusal::Damaged(number),
        WireRefusal::BadShape(_) => OpenRefusal::Damaged(number),
        WireRefusal::NumberOutside(_) => OpenRefusal::Damaged(number),
        WireRefusal::TextTooLong(_) => OpenRefusal::Damaged(number),
        WireRefusal::LaterForm => OpenRefusal::Damaged(number),
        WireRefusal::NoMemory => OpenRefusal::NoMemory,
    }
}

fn is_key(key: &[u8]) -> bool
    ensures { result ≡ is_key_text key.now }
{
    !key.is_empty() && key.len() <= 64 && are_key_bytes(key)
}

fn are_key_bytes(bytes: &[u8]) -> bool
    ensures { result ≡ list_all is_byte_of_key bytes.now }
{
    bytes.iter().all(|byte| is_key_byte(*byte))
}

fn is_key_byte(byte: u8) -> bool
    ensures { result ≡ is_byte_of_key byte }
{
    byte.is_ascii_graphic()
}

// The operator's key of these bytes.
fn read_key(alloc: Global, bytes: &[u8]) -> Result<Name, OpenRefusal>
    ensures { ReadsKey bytes.now result }
{
    if !is_key(bytes) {
        return Err(OpenRefusal::Damaged(1));
    }
    match Name::read(alloc, bytes) {
        Ok(key) => Ok(key),
        Err(NameRefusal::NoMemory) => Err(OpenRefusal::NoMemory),
        Err(NameRefusal::TooLong(_)) => unreachable!(),
        Err(NameRefusal::NotUtf8(_)) => unreachable!(),
    }
}

// The workbook of a definition at its start, with the operator's key.
fn begun_with(alloc: Global, key: &[u8], definition: &[u8]) -> Result<Held, OpenRefusal>
    ensures { BeginsWith key.now definition.now result }
{
    texts_stand_for_one_definition();
    let key = match read_key(alloc, key) {
        Ok(key) => key,
        Err(refusal) => return Err(refusal),
    };
    match started(alloc, key, definition) {
        Ok(held) => Ok(held),
        Err(refusal) => Err(not_started(refusal)),
    }
}

// The workbook that a journal's first record begins with.
fn begun(alloc: Global, first: &Record) -> Result<Held, OpenRefusal>
    ensures { BeginsAs (entry_read first.now) result }
{
    if first.kind != FIRST {
        return Err(OpenRefusal::Damaged(1));
    }
    match first_parts(first.payload.as_slice()) {
        Some((key, definition)) => begun_with(alloc, key, definition),
        None => Err(OpenRefusal::Damaged(1)),
    }
}

// Opens the journal of this name, and reads its first record.
fn begin<D: Disk>(alloc: Global, disk: &mut D, name: &[u8]) -> Result<Opened, OpenRefusal>
    ensures going { IfOk result IsGoing }
    ensures open { OnOk result (IsTrue (D.is_open disk.new)) }
    ensures file { WhereTold (Reopens IsUnderWay name.now result) (D.told disk.old) (D.told disk.new) }
    ensures refusal { IsOpenRefusal result }
    ensures cause { HasOpenCause (D.faults disk.old) (D.faults disk.new) result }
{
    let mut journal = match Journal::open(alloc, disk, name) {
        Ok(journal) => journal,
        Err(refusal) => return Err(refused(refusal)),
    };
    let first = match journal.next_record(disk) {
        Ok(Some(first)) => first,
        Ok(None) => return Err(OpenRefusal::Damaged(1)),
        Err(refusal) => return Err(refused(refusal)),
    };
    match begun(alloc, &first) {
        Ok(held) => Ok(Opened { held, journal }),
        Err(refusal) => Err(refusal),
    }
}

// Acts on a request of the journal, which was accepted once, and takes it in.
fn accept<G: Ledger>(
    held: &mut Held,
    request: &Request,
    steps: &mut Steps<G>,
) -> Result<(), OpenRefusal>
    requires ready { IsReady held.old }
    requires range { IsInRange request.now }
    requires served { AsksNoReads request.now }
    ensures ready { OnOk result (IsReady held.new) }
    ensures accepts { AcceptsAs (holding held.old) request.now (holding held.new) result }
{
    sound_stays();
    let place = held.accepted + 2;
    match act(held, request, steps) {
        Ok(_) => {}
        Err(NoMemory) => return Err(OpenRefusal::NoMemory),
    }
    if held.pending.is_none() {
        return Err(OpenRefusal::Damaged(place));
    }
    held.take_in();
    Ok(())
}

// Goes on with a further record of the journal.
fn take<G: Ledger>(
    held: &mut Held,
    further: &Record,
    steps: &mut Steps<G>,
) -> Result<(), OpenRefusal>
    requires ready { IsReady held.old }
    ensures ready { OnOk result (IsReady held.new) }
    ensures goes_on { GoesOnAs (holding held.old) (entry_read further.now) (holding held.new) result }
{
    let place = held.accepted + 2;
    if further.kind != REQUEST {
        return Err(OpenRefusal::Damaged(place));
    }
    match read_request(held.alloc, &Route::Line, further.payload.as_slice()) {
        Ok(request) => accept(held, &request, steps),
        Err(refusal) => Err(not_read(refusal, place)),
    }
}

// Goes on with the next record, where there is one.
fn go_on<D: Disk, G: Ledger>(
    opened: &mut Opened,
    disk: &mut D,
    steps: &mut Steps<G>,
) -> Result<bool, OpenRefusal>
    requires going { IsGoing opened.old }
    requires open { IsTrue (D.is_open disk.old) }
    ensures going { OnOk result (IsGoing opened.new) }
    ensures moves { IfOk result (λ more. IsTrue more → opened.old.journal.place < opened.new.journal.place) }
    ensures open { IsTrue (D.is_open disk.new) }
    ensures file { WhereTold (Turns opened.old opened.new result) (D.told disk.old) (D.told disk.new) }
    ensures refusal { IsOpenRefusal result }
    ensures cause { HasOpenCause (D.faults disk.old) (D.faults disk.new) result }
{
    texts_stand_for_one_definition();
    match opened.journal.next_record(disk) {
        Ok(Some(further)) => match take(&mut opened.held, &further, steps) {
            Ok(()) => Ok(true),
            Err(refusal) => Err(refusal),
        },
        Ok(None) => Ok(false),
        Err(refusal) => Err(refused(refusal)),
    }
}

// Goes on with all records that are left.
fn go_to_end<D: Disk, G: Ledger>(
    opened: &mut Opened,
    disk: &mut D,
    steps: &mut Steps<G>,
) -> Result<(), OpenRefusal>
    requires going { IsGoing opened.old }
    requires open { IsTrue (D.is_open disk.old) }
    ensures going { OnOk result (IsGoing opened.new) }
    ensures open { IsTrue (D.is_open disk.new) }
    ensures file { WhereTold (Ends opened.old opened.new result) (D.told disk.old) (D.told disk.new) }
    ensures refusal { IsOpenRefusal result }
    ensures cause { HasOpenCause (D.faults disk.old) (D.faults disk.new) result }
{
    'records: while go_on(opened, disk, steps)? {}
    Ok(())
}

/// Opens the journal of this name, and recovers the workbook from its records.
pub(crate) fn recover<D: Disk, G: Ledger>(
    alloc: Global,
    disk: &mut D,
    name: &[u8],
    steps: &mut Steps<G>,
) -> Result<Opened, OpenRefusal>
    ensures going { IfOk result IsGoing }
    ensures open { OnOk result (IsTrue (D.is_open disk.new)) }
    ensures file { WhereTold (Reopens IsAtEnd name.now result) (D.told disk.old) (D.told disk.new) }
    ensures refusal { IsOpenRefusal result }
    ensures cause { HasOpenCause (D.faults disk.old) (D.faults disk.new) result }
{
    let mut opened = match begin(alloc, disk, name) {
        Ok(opened) => opened,
        Err(refusal) => return Err(refusal),
    };
    match go_to_end(&mut opened, disk, steps) {
        Ok(()) => Ok(opened),
        Err(refusal) => Err(refusal),
    }
}
