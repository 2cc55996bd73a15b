// What a disk in memory notes of its calls.
ghost use Rattle.std.specs.Prelude.{◌≡◌, [], ◌∷◌, ◌++◌, IsTrue, map};
ghost use Rattle.sheet_outside_disks.specs.Drive.{call_of, opens, writes, spoils};

use std::alloc::Global;

/// A call, as it is noted.
#[derive(Drop)]
pub(crate) enum Event {
    /// An `open` of this name, and whether it answered true.
    Opened(Vec<u8>, bool),
    /// A write.
    Wrote(u64, Vec<u8>),
    /// A write that failed.
    Spoilt(u64, Vec<u8>),
    /// A sync.
    Synced,
    /// A call that changed nothing.
    Looked,
}

/// Notes an event. True where the disk has told so far and there is memory for it.
pub(crate) fn note(log: &mut Vec<Event>, tells: bool, event: Event) -> bool
    ensures { IsTrue result → IsTrue tells × (map call_of log.new.items ≡ map call_of log.old.items ++ call_of event ∷ []) }
{
    match log.push(event) {
        Ok(()) => tells,
        Err(_) => false,
    }
}

/// Notes an `open`.
pub(crate) fn note_open(
    alloc: Global,
    log: &mut Vec<Event>,
    tells: bool,
    name: &[u8],
    found: bool,
) -> bool
    ensures { IsTrue result → IsTrue tells × (map call_of log.new.items ≡ map call_of log.old.items ++ opens name.now found ∷ []) }
{
    match name.to_vec(alloc) {
        Ok(name) => note(log, tells, Event::Opened(name, found)),
        Err(_) => false,
    }
}

/// Notes a write.
pub(crate) fn note_write(
    alloc: Global,
    log: &mut Vec<Event>,
    tells: bool,
    place: u64,
    piece: &[u8],
) -> bool
    ensures { IsTrue result → IsTrue tells × (map call_of log.new.items ≡ map call_of log.old.items ++ writes place piece.now ∷ []) }
{
    match piece.to_vec(alloc) {
        Ok(piece) => note(log, tells, Event::Wrote(place, piece)),
        Err(_) => false,
    }
}

/// Notes a write that failed.
pub(crate) fn note_spoilt(
    alloc: Global,
    log: &mut Vec<Event>,
    tells: bool,
    place: u64,
    piece: &[u8],
) -> bool
    ensures { IsTrue result → IsTrue tells × (map call_of log.new.items ≡ map call_of log.old.items ++ spoils place piece.now ∷ []) }
{
    match piece.to_vec(alloc) {
        Ok(piece) => note(log, tells, Event::Spoilt(place, piece)),
        Err(_) => false,
    }
}
