// The front of a head: a start line and whole fields, which aren't read again at each line feed behind them.
ghost use Rattle.std.specs.Prelude.{◌≡◌, ◌≢◌, ◌≤◌, ◌<◌, ◌++◌, ◌∷◌, [], List, ℕ, length, true, slice_index};
ghost use Rattle.sheet_http.specs.Fronts.{AreFields, IsKnownFront};
ghost use Rattle.sheet_http.specs.Lines.{JudgesLine};

use crate::line::{Judged, judge_line};
use httparse::Status;
use httparse::spans::{HeaderSpan, parse_headers};

// Whether lines are fields alone. Others end a head, or are of none.
fn are_fields(lines: &[u8], fields: &mut [HeaderSpan]) -> bool
    requires { (front : List ℕ) × (lines.now ≡ front ++ 10 ∷ []) }
    ensures { result ≡ true → AreFields lines.now }
{
    match parse_headers(lines, fields) {
        Ok(Status::Partial) => true,
        Ok(Status::Complete(_)) | Err(_) => false,
    }
}

// Whether an empty line stands at the end, as where a head ends. Then lines aren't fields alone.
fn ends_empty(line: &[u8]) -> bool {
    matches!(line, [.., b'\n', b'\n'] | [.., b'\n', b'\r', b'\n'])
}

// Whether no empty line stands in front.
fn begins(line: &[u8]) -> bool
    ensures { result ≡ true → (0 < length line.now) × (slice_index line.now 0 ≢ 13) × (slice_index line.now 0 ≢ 10) }
{
    match line {
        [byte, ..] => *byte != b'\r' && *byte != b'\n',
        [] => false,
    }
}

/// What the bytes up to and with a line feed are, where their front up to a place is known, or 0 is. That place goes on where the
/// bytes are a longer front.
pub fn judge_behind(line: &[u8], front: &mut usize, fields: &mut [HeaderSpan]) -> Judged
    requires ends { (before : List ℕ) × (line.now ≡ before ++ 10 ∷ []) }
    requires short { length line.now ≤ 8192 }
    requires room { length fields.old ≡ 2731 }
    requires place { front.old < length line.now }
    requires front { IsKnownFront line.now front.old }
    ensures judges { JudgesLine line.now fields.new result }
    ensures front { IsKnownFront line.now front.new }
{
    let place = *front;
    if place > 0 && !ends_empty(line) && are_fields(&line[place..], fields) {
        *front = line.len();
        return Judged::Open;
    }
    match judge_line(line, fields) {
        Judged::Open => {
            if begins(line) {
                *front = line.len();
            }
            Judged::Open
        }
        other => other,
    }
}
