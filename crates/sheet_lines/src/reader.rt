// A reader of lines over a source that is read in pieces.
ghost use Rattle.std.specs.Prelude.{◌≡◌, ◌≢◌, ◌+◌, ◌-◌, ◌<◌, ◌≤◌, ◌^◌, ◌==◌, ◌⊎◌, min, position, [], ℕ, length, take, drop, vec_len, IfOk, IfErr, OnOk, IsErrOf, Err, Ok};
ghost use Rattle.sheet_outside.specs.Causes.{Rose};
ghost use Rattle.sheet_outside.specs.Told.{WhereTold};
ghost use Rattle.sheet_lines.specs.Unread.{rest};
ghost use Rattle.sheet_lines.specs.Reading.{Fills, ReadsPart, PassesPart, TakesLine, PassesLine, ReadsLine};

use crate::stop::ReadStop;
use sheet_outside::Source;
use sheet_values::NoMemory;
use std::alloc::Global;
use std::marker::Model;

/// The greatest length of an input in bytes.
pub const LONGEST_INPUT: u64 = 1_099_511_627_776;

const PIECE: usize = 16_384;

/// How a line ended.
#[derive(Clone, Copy, Debug, PartialEq, Eq)]
pub enum LineEnd {
    /// By a line feed.
    Feed,
    /// By the end of the input, after at least one byte.
    Input,
    /// There was no line: the input is at its end.
    Nothing,
}

/// How a part of a line ended.
#[derive(Clone, Copy, Debug, PartialEq, Eq)]
pub enum Part {
    /// By a line feed.
    Feed,
    /// More of the line may follow.
    More,
    /// No more of the line is kept.
    Full,
    /// The input is at its end.
    End,
}

/// Reads lines from a source, in pieces.
#[derive(Drop)]
pub struct LineReader {
    piece: Vec<u8>,
    at: usize,
    end: usize,
    used: u64,
}

impl Model for LineReader {
    ghost use Rattle.std.specs.Prelude.{◌-◌, ◌≤◌, ◌^◌, ◌<◌, take, drop, vec_len};
    ghost use Rattle.sheet_lines.specs.Unread.{Unread};

    ghost Value = { Unread };

    ghost view = { λ r. record { ahead = take (r.end - r.at) (drop r.at r.piece.items); used = r.used } };

    ghost invariant = { λ r. (0 < vec_len r.piece) × (r.at ≤ r.end) × (r.end ≤ vec_len r.piece) × (r.used ≤ 2 ^ 40) };
}

impl LineReader {
    /// Nothing was read yet.
    pub fn new(alloc: Global) -> Result<LineReader, NoMemory>
        ensures { IfOk result (λ reader. (reader.ahead ≡ []) × (reader.used ≡ 0)) }
    {
        Ok(LineReader {
            piece: vec![in alloc; 0; PIECE]?,
            at: 0,
            end: 0,
            used: 0,
        })
    }

    // What was read and isn't used yet.
    fn ahead(&self) -> &[u8]
        ensures bytes { result.now ≡ self.now.ahead }
        ensures limit { self.now.used ≤ 2 ^ 40 }
    {
        let (front, _) = self.piece.split_at(self.end);
        let (_, ahead) = front.split_at(self.at);
        ahead
    }

    // The front of what is ahead, within the room and within what an input may have.
    fn window(&self, room: usize) -> &[u8]
        ensures { result.now ≡ take (min room (2 ^ 40 - self.now.used)) self.now.ahead }
    {
        let ahead = self.ahead();
        let most = (room as u64).min(LONGEST_INPUT - self.used);
        let count = (ahead.len() as u64).min(most) as usize;
        let (front, _) = ahead.split_at(count);
        front
    }

    // Whether one more byte may be used.
    fn check_limit(&self) -> Result<(), ReadStop>
        ensures ok { OnOk result (self.now.used < 2 ^ 40) }
        ensures err { IfErr result (λ stop. (stop ≡ ReadStop.TooLong) × (self.now.used ≡ 2 ^ 40)) }
    {
        if self.used == LONGEST_INPUT {
            return Err(ReadStop::TooLong);
        }
        Ok(())
    }

    // Uses the front of what is ahead.
    fn advance(&mut self, count: usize)
        requires ahead { count ≤ length self.old.ahead }
        requires within { self.old.used + count ≤ 2 ^ 40 }
        ensures bytes { self.new.ahead ≡ drop count self.old.ahead }
        ensures used { self.new.used ≡ self.old.used + count }
    {
        self.at += count;
        self.used += count as u64;
    }

    // Reads a piece, where nothing is ahead.
    fn fill<S: Source>(&mut self, input: &mut S) -> Result<(), ReadStop>
        ensures bytes { Fills result self.new.ahead (rest self.old (S.left input.old)) (S.left input.new) }
        ensures used { self.new.used ≡ self.old.used }
        ensures limit { self.new.used ≤ 2 ^ 40 }
        ensures stop { IfErr result (λ stop. stop ≡ ReadStop.Source) }
        ensures source { IsErrOf result ReadStop.Source → Rose (S.faults input.old) (S.faults input.new) }
        ensures later { S.faults input.old ≤ S.faults input.new }
    {
        if self.at < self.end {
            return Ok(());
        }
        match input.read(self.piece.as_mut_slice()) {
            Ok(count) => {
                self.at = 0;
                self.end = count;
                Ok(())
            }
            Err(_) => {
                self.at = 0;
                self.end = 0;
                Err(ReadStop::Source)
            }
        }
    }

    // The next part of a line out of what is ahead, which is kept. At most so many bytes of the line are kept.
    fn part(&mut self, line: &mut Vec<u8>, most: usize) -> Result<Part, ReadStop>
        requires { vec_len line.old ≤ most }
        ensures part { ReadsPart result line.old.items line.new.items self.old.ahead self.new.ahead }
        ensures counts { self.new.used + length self.new.ahead ≡ self.old.used + length self.old.ahead }
        ensures more { result ≡ Ok Part.More → self.old.used < self.new.used }
        ensures feed { result ≡ Ok Part.Feed → self.new.used + vec_len line.old ≡ self.old.used + vec_len line.new + 1 }
        ensures exact { result ≢ Ok Part.Feed → self.new.used + vec_len line.old ≡ self.old.used + vec_len line.new }
        ensures limit { self.new.used ≤ 2 ^ 40 }
        ensures kept { vec_len line.new ≤ most }
        ensures grows { vec_len line.old ≤ vec_len line.new }
        ensures full { result ≡ Ok Part.Full → vec_len line.new ≡ most }
        ensures too_long { IsErrOf result ReadStop.TooLong → (self.new.used ≡ 2 ^ 40) × (self.new.ahead ≢ []) }
        ensures source { IsErrOf result ReadStop.Source → ⊥ }
        ensures later_use { self.old.used ≤ self.new.used }
    {
        if self.ahead().is_empty() {
            return Ok(Part::End);
        }
        if line.len() == most {
            return Ok(Part::Full);
        }
        self.check_limit()?;
        self.keep(line, most)
    }

    // Uses the next part of a line, where there are bytes of it, and room for some.
    fn keep(&mut self, line: &mut Vec<u8>, most: usize) -> Result<Part, ReadStop>
        requires room { vec_len line.old < most }
        requires more { 0 < length self.old.ahead }
        requires within { self.old.used < 2 ^ 40 }
        ensures part { ReadsPart result line.old.items line.new.items self.old.ahead self.new.ahead }
        ensures counts { self.new.used + length self.new.ahead ≡ self.old.used + length self.old.ahead }
        ensures uses { IfOk result (λ _. self.old.used < self.new.used) }
        ensures limit { self.new.used ≤ 2 ^ 40 }
        ensures kept { vec_len line.new ≤ most }
        ensures grows { vec_len line.old ≤ vec_len line.new }
        ensures goes_on { IfOk result (λ part. (part ≡ Part.More) ⊎ (part ≡ Part.Feed)) }
        ensures feed { result ≡ Ok Part.Feed → self.new.used + vec_len line.old ≡ self.old.used + vec_len line.new + 1 }
        ensures exact { result ≢ Ok Part.Feed → self.new.used + vec_len line.old ≡ self.old.used + vec_len line.new }
        ensures stop { IfErr result (λ stop. stop ≡ ReadStop.NoMemory) }
    {
        let front = self.window(most - line.len());
        match first_feed(front) {
            Some(at) => {
                let (text, _) = front.split_at(at);
                line.extend_from_slice(text)?;
                self.advance(at + 1);
                Ok(Part::Feed)
            }
            None => {
                let count = front.len();
                line.extend_from_slice(front)?;
                self.advance(count);
                Ok(Part::More)
            }
        }
    }

    // The next part of a line, which is kept. At most so many bytes of the line are kept.
    fn take_part<S: Source>(
        &mut self,
        input: &mut S,
        line: &mut Vec<u8>,
        most: usize,
    ) -> Result<Part, ReadStop>
        requires { vec_len line.old ≤ most }
        ensures part { WhereTold (ReadsPart result line.old.items line.new.items) (rest self.old (S.left input.old)) (rest self.new (S.left input.new)) }
        ensures counts { WhereTold (λ old new. self.new.used + length new ≡ self.old.used + length old) (rest self.old (S.left input.old)) (rest self.new (S.left input.new)) }
        ensures more { result ≡ Ok Part.More → self.old.used < self.new.used }
        ensures feed { result ≡ Ok Part.Feed → self.new.used + vec_len line.old ≡ self.old.used + vec_len line.new + 1 }
        ensures exact { result ≢ Ok Part.Feed → self.new.used + vec_len line.old ≡ self.old.used + vec_len line.new }
        ensures limit { self.new.used ≤ 2 ^ 40 }
        ensures later_use { self.old.used ≤ self.new.used }
        ensures kept { vec_len line.new ≤ most }
        ensures grows { vec_len line.old ≤ vec_len line.new }
        ensures full { result ≡ Ok Part.Full → vec_len line.new ≡ most }
        ensures too_long { IsErrOf result ReadStop.TooLong → (self.new.used ≡ 2 ^ 40) × (self.new.ahead ≢ []) }
        ensures dry { IsErrOf result ReadStop.Source → self.new.ahead ≡ [] }
        ensures source { IsErrOf result ReadStop.Source → Rose (S.faults input.old) (S.faults input.new) }
        ensures later { S.faults input.old ≤ S.faults input.new }
    {
        self.fill(input)?;
        self.part(line, most)
    }

    // The next line behind what is kept already, up to its line feed, or as much of it as is kept.
    pub(crate) fn take_line<S: Source>(
        &mut self,
        input: &mut S,
        line: &mut Vec<u8>,
        most: usize,
    ) -> Result<Part, ReadStop>
        requires { vec_len line.old ≤ most }
        ensures line { WhereTold (TakesLine result line.old.items line.new.items) (rest self.old (S.left input.old)) (rest self.new (S.left input.new)) }
        ensures counts { WhereTold (λ old new. self.new.used + length new ≡ self.old.used + length old) (rest self.old (S.left input.old)) (rest self.new (S.left input.new)) }
        ensures ends { result ≢ Ok Part.More }
        ensures feed { result ≡ Ok Part.Feed → self.new.used + vec_len line.old ≡ self.old.used + vec_len line.new + 1 }
        ensures exact { result ≢ Ok Part.Feed → self.new.used + vec_len line.old ≡ self.old.used + vec_len line.new }
        ensures kept { vec_len line.new ≤ most }
        ensures grows { vec_len line.old ≤ vec_len line.new }
        ensures full { result ≡ Ok Part.Full → vec_len line.new ≡ most }
        ensures limit { self.new.used ≤ 2 ^ 40 }
        ensures later_use { self.old.used ≤ self.new.used }
        ensures too_long { IsErrOf result ReadStop.TooLong → (self.new.used ≡ 2 ^ 40) × (self.new.ahead ≢ []) }
        ensures dry { IsErrOf result ReadStop.Source → self.new.ahead ≡ [] }
        ensures source { IsErrOf result ReadStop.Source → Rose (S.faults input.old) (S.faults input.new) }
        ensures later { S.faults input.old ≤ S.faults input.new }
    {
        'parts: loop {
            match self.take_part(input, line, most)? {
                Part::More => {}
                part => return Ok(part),
            }
        }
    }

    // The next part of a line, which is passed over.
    fn pass_part<S: Source>(&mut self, input: &mut S) -> Result<Part, ReadStop>
        ensures part { WhereTold (PassesPart result) (rest self.old (S.left input.old)) (rest self.new (S.left input.new)) }
        ensures counts { WhereTold (λ old new. self.new.used + length new ≡ self.old.used + length old) (rest self.old (S.left input.old)) (rest self.new (S.left input.new)) }
        ensures more { result ≡ Ok Part.More → self.old.used < self.new.used }
        ensures full { result ≢ Ok Part.Full }
        ensures limit { self.new.used ≤ 2 ^ 40 }
        ensures later_use { self.old.used ≤ self.new.used }
        ensures too_long { IsErrOf result ReadStop.TooLong → (self.new.used ≡ 2 ^ 40) × (self.new.ahead ≢ []) }
        ensures dry { IsErrOf result ReadStop.Source → self.new.ahead ≡ [] }
        ensures source { IsErrOf result ReadStop.Source → Rose (S.faults input.old) (S.faults input.new) }
        ensures later { S.faults input.old ≤ S.faults input.new }
    {
        self.fill(input)?;
        if self.ahead().is_empty() {
            return Ok(Part::End);
        }
        self.check_limit()?;
        Ok(self.skip())
    }

    // Uses the next part of a line, where there are bytes of it.
    fn skip(&mut self) -> Part
        requires more { 0 < length self.old.ahead }
        requires within { self.old.used < 2 ^ 40 }
        ensures part { PassesPart {E = ReadStop} (Ok result) self.old.ahead self.new.ahead }
        ensures counts { self.new.used + length self.new.ahead ≡ self.old.used + length self.old.ahead }
        ensures uses { self.old.used < self.new.used }
        ensures limit { self.new.used ≤ 2 ^ 40 }
        ensures goes_on { (result ≡ Part.More) ⊎ (result ≡ Part.Feed) }
    {
        let front = self.window(usize::MAX);
        match first_feed(front) {
            Some(at) => {
                self.advance(at + 1);
                Part::Feed
            }
            None => {
                let count = front.len();
                self.advance(count);
                Part::More
            }
        }
    }

    // Passes over the rest of a line, of which there were bytes.
    fn pass_line<S: Source>(&mut self, input: &mut S) -> Result<LineEnd, ReadStop>
        ensures line { WhereTold (PassesLine result) (rest self.old (S.left input.old)) (rest self.new (S.left input.new)) }
        ensures counts { WhereTold (λ old new. self.new.used + length new ≡ self.old.used + length old) (rest self.old (S.left input.old)) (rest self.new (S.left input.new)) }
        ensures ends { result ≢ Ok LineEnd.Nothing }
        ensures limit { self.new.used ≤ 2 ^ 40 }
        ensures later_use { self.old.used ≤ self.new.used }
        ensures too_long { IsErrOf result ReadStop.TooLong → (self.new.used ≡ 2 ^ 40) × (self.new.ahead ≢ []) }
        ensures dry { IsErrOf result ReadStop.Source → self.new.ahead ≡ [] }
        ensures source { IsErrOf result ReadStop.Source → Rose (S.faults input.old) (S.faults input.new) }
        ensures later { S.faults input.old ≤ S.faults input.new }
    {
        'parts: loop {
            match self.pass_part(input)? {
                Part::More => {}
                Part::Feed => return Ok(LineEnd::Feed),
                _ => return Ok(LineEnd::Input),
            }
        }
    }

    /// The next line without its line feed: its first bytes, at most `most` of them, are kept in `line`.
    ///
    /// The whole line is used, however long it is. `TooLong` comes where `LONGEST_INPUT` bytes were used and more are
    /// there, and `Source` only where a call of the source failed.
    pub fn next_line<S: Source>(
        &mut self,
        input: &mut S,
        line: &mut Vec<u8>,
        most: usize,
    ) -> Result<LineEnd, ReadStop>
        requires { 0 < most }
        ensures line { WhereTold (ReadsLine most result line.new.items) (rest self.old (S.left input.old)) (rest self.new (S.left input.new)) }
        ensures counts { WhereTold (λ old new. self.new.used + length new ≡ self.old.used + length old) (rest self.old (S.left input.old)) (rest self.new (S.left input.new)) }
        ensures uses { IfOk result (λ end. end ≢ LineEnd.Nothing → self.old.used < self.new.used) }
        ensures kept { vec_len line.new ≤ most }
        ensures limit { self.new.used ≤ 2 ^ 40 }
        ensures too_long { IsErrOf result ReadStop.TooLong → (self.new.used ≡ 2 ^ 40) × (self.new.ahead ≢ []) }
        ensures dry { IsErrOf result ReadStop.Source → self.new.ahead ≡ [] }
        ensures source { IsErrOf result ReadStop.Source → Rose (S.faults input.old) (S.faults input.new) }
        ensures later { S.faults input.old ≤ S.faults input.new }
    {
        line.clear();
        match self.take_line(input, line, most)? {
            Part::Feed => Ok(LineEnd::Feed),
            Part::Full => self.pass_line(input),
            _ => {
                if line.is_empty() {
                    return Ok(LineEnd::Nothing);
                }
                Ok(LineEnd::Input)
            }
        }
    }
}

// The place of the first line feed.
fn first_feed(bytes: &[u8]) -> Option<usize>
    ensures { result ≡ position (λ byte. byte == 10) bytes.now }
{
    bytes.iter().position(|byte| *byte == b'\n')
}
