// The bytes that are held.
ghost use Rattle.std.specs.Prelude.{◌≡◌, ◌≤◌, ◌<◌, ◌-◌, ◌+◌, ◌++◌, [], ◌∷◌, length, take, drop, min, IfOk};
ghost use Rattle.std.specs.Vec.{vec_capacity};
ghost use Rattle.sheet_http.specs.Steps.{room};
ghost use Rattle.sheet_http.specs.Stream.{longest_head};

use crate::search::LONGEST_HEAD;
use sheet_values::NoMemory;
use std::alloc::Global;
use std::marker::Model;

/// How many bytes are held at most: a head and a body.
pub const ROOM: usize = 73_728;

/// Bytes in order, added behind and dropped in front, and how many there are to be. What was dropped is moved away only where
/// the room is wanted, or where there were none for a whole head.
#[derive(Drop)]
pub struct Buffer {
    bytes: Vec<u8>,
    start: usize,
    // Where the bytes are to end. There is room up to there.
    end: usize,
}

impl Model for Buffer {
    ghost use Rattle.std.specs.Prelude.{◌≤◌, ◌+◌, ◌-◌, List, ℕ, drop, length};
    ghost use Rattle.std.specs.Vec.{vec_capacity};
    ghost use Rattle.sheet_http.specs.Stream.{longest_head};
    ghost use Rattle.sheet_http.specs.Steps.{room};
    ghost use Rattle.sheet_http.specs.Waiting.{Awaiting};

    ghost Value = { Awaiting };

    ghost view = { λ b. record { bytes = drop b.start b.bytes.items; wanted = b.end - b.start } };

    ghost invariant = { λ b. (b.start ≤ length b.bytes.items) × (length b.bytes.items ≤ room) × (room ≤ vec_capacity b.bytes) × (b.end ≤ room)
        × (b.start + longest_head ≤ room) };
}

// Moves the bytes that are held to the front.
fn move_to_front(bytes: &mut Vec<u8>, start: usize)
    requires { start ≤ length bytes.old.items }
    ensures items { bytes.new.items ≡ drop start bytes.old.items }
    ensures capacity { vec_capacity bytes.new ≡ vec_capacity bytes.old }
{
    let _ = bytes.drain(..start);
}

impl Buffer {
    /// No byte yet. All the memory is taken here.
    pub fn new(alloc: Global) -> Result<Buffer, NoMemory>
        ensures { IfOk result (λ b. b.bytes ≡ []) }
    {
        let bytes = Vec::with_capacity(alloc, ROOM)?;
        Ok(Buffer {
            bytes,
            start: 0,
            end: 0,
        })
    }

    /// The bytes that are held.
    #[inline]
    pub fn bytes(&self) -> &[u8]
        ensures bytes { result.now ≡ self.now.bytes }
        ensures room { length result.now ≤ room }
    {
        &self.bytes[self.start..]
    }

    /// How many bytes are held.
    #[inline]
    pub fn len(&self) -> usize
        ensures count { result ≡ length self.now.bytes }
        ensures room { result ≤ room }
    {
        self.bytes.len() - self.start
    }

    /// How many bytes are lacking. There is room for them.
    #[inline]
    pub fn lacking(&self) -> usize
        ensures count { result ≡ self.now.wanted - length self.now.bytes }
        ensures room { length self.now.bytes + result ≤ room }
    {
        self.end.saturating_sub(self.bytes.len())
    }

    /// How many more bytes there is room for.
    #[inline]
    fn left(&self) -> usize
        ensures { result ≡ room - length self.now.bytes }
    {
        ROOM - self.len()
    }

    /// Adds a piece that is shorter than what is lacking.
    #[inline]
    pub fn push_short(&mut self, piece: &[u8])
        requires { length piece.now < self.old.wanted - length self.old.bytes }
        ensures bytes { self.new.bytes ≡ self.old.bytes ++ piece.now }
        ensures wanted { self.new.wanted ≡ self.old.wanted }
    {
        match piece {
            [byte] => self.bytes.push_reserved(*byte),
            _ => self.copy_short(piece),
        }
    }

    // The same, by a copy.
    #[inline(never)]
    fn copy_short(&mut self, piece: &[u8])
        requires { length piece.now < self.old.wanted - length self.old.bytes }
        ensures bytes { self.new.bytes ≡ self.old.bytes ++ piece.now }
        ensures wanted { self.new.wanted ≡ self.old.wanted }
    {
        match self.bytes.extend_from_slice(piece) {
            Ok(()) => {}
            Err(_) => unreachable!(),
        }
    }

    /// Adds the byte that is lacking inside a head, and waits for one more.
    #[inline]
    pub fn push_next(&mut self, byte: u8)
        requires { (self.old.wanted ≡ length self.old.bytes + 1) × (length self.old.bytes + 1 < longest_head) }
        ensures bytes { self.new.bytes ≡ self.old.bytes ++ byte ∷ [] }
        ensures wanted { self.new.wanted ≡ length self.new.bytes + 1 }
    {
        self.bytes.push_reserved(byte);
        self.end += 1;
    }

    /// Adds as much of the piece as there is room for, and answers how much.
    pub fn push(&mut self, piece: &[u8]) -> usize
        ensures count { result ≡ min (length piece.now) (room - length self.old.bytes) }
        ensures bytes { self.new.bytes ≡ self.old.bytes ++ take result piece.now }
    {
        match piece {
            [byte] if self.bytes.len() < ROOM => {
                self.bytes.push_reserved(*byte);
                1
            }
            _ => self.push_several(piece),
        }
    }

    // The same, by a copy.
    #[inline(never)]
    fn push_several(&mut self, piece: &[u8]) -> usize
        ensures count { result ≡ min (length piece.now) (room - length self.old.bytes) }
        ensures bytes { self.new.bytes ≡ self.old.bytes ++ take result piece.now }
    {
        let count = piece.len().min(self.left());
        let (front, _) = piece.split_at(count);
        if count > ROOM - self.bytes.len() {
            move_to_front(&mut self.bytes, self.start);
            self.start = 0;
        }
        match self.bytes.extend_from_slice(front) {
            Ok(()) => count,
            Err(_) => unreachable!(),
        }
    }

    /// Says how many bytes there are to be, and makes room for them.
    pub fn want(&mut self, count: usize)
        requires { count ≤ room }
        ensures bytes { self.new.bytes ≡ self.old.bytes }
        ensures wanted { self.new.wanted ≡ count }
    {
        if count > ROOM - self.start {
            move_to_front(&mut self.bytes, self.start);
            self.start = 0;
        }
        self.end = self.start + count;
    }

    /// Drops so many bytes in front.
    pub fn pass(&mut self, count: usize)
        requires { count ≤ length self.old.bytes }
        ensures { self.new.bytes ≡ drop count self.old.bytes }
    {
        self.start += count;
        if self.start == self.bytes.len() {
            self.bytes.clear();
            self.start = 0;
        } else if self.start > ROOM - LONGEST_HEAD {
            move_to_front(&mut self.bytes, self.start);
            self.start = 0;
        }
    }
}
