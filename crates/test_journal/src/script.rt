// What is done with a journal: `init PAYLOAD`, `open`, `next`, `rest` for all records that are left, `append KIND PAYLOAD`, `settle`,
// and `show` for the bytes of the file. What comes of each is told behind a semicolon, and `-` where the call may not be made.
ghost use Rattle.std.specs.Prelude.{IsTrue, IsSome, IfOk, OnOk};

use crate::held::Held;
use sheet_journal::{JournalRefusal, Record, Settled};
use sheet_outside::{Disk, Failed};
use sheet_values::NoMemory;
use std::alloc::Global;
use test_cases::{text_of, word_and_text};

/// What the lines of a case come to on a disk.
pub(crate) fn run<D: Disk>(alloc: Global, disk: &mut D, case: &str) -> Result<String, NoMemory> {
    let mut text = String::new(alloc);
    let mut held = None;
    for line in case.lines() {
        let (word, written) = word_and_text(line.as_bytes());
        held = step(alloc, disk, held, word, written, &mut text)?;
    }
    Ok(text)
}

// One line more.
fn step<D: Disk>(
    alloc: Global,
    disk: &mut D,
    held: Option<Held>,
    word: &[u8],
    written: &[u8],
    text: &mut String,
) -> Result<Option<Held>, NoMemory>
    requires { IsSome held → IsTrue (D.is_open disk.old) }
    ensures { IfOk result (λ now. IsSome now → IsTrue (D.is_open disk.new)) }
{
    match word {
        b"init" => begin(alloc, disk, written, text),
        b"open" => find(alloc, disk, text),
        b"show" => {
            let found = add_file(disk, text)?;
            Ok(if found { held } else { None })
        }
        b"next" | b"rest" | b"append" | b"settle" => match held {
            Some(held) => go_on(alloc, disk, held, word, written, text),
            None => {
                text.push_str("-; ")?;
                Ok(None)
            }
        },
        _ => Ok(held),
    }
}

fn begin<D: Disk>(
    alloc: Global,
    disk: &mut D,
    written: &[u8],
    text: &mut String,
) -> Result<Option<Held>, NoMemory>
    ensures { IfOk result (λ now. IsSome now → IsTrue (D.is_open disk.new)) }
{
    let payload = text_of(alloc, written)?;
    match Held::begin(alloc, disk, &payload) {
        Some(Ok(held)) => {
            text.push_str("made; ")?;
            Ok(Some(held))
        }
        Some(Err(refusal)) => {
            add_refusal(text, refusal)?;
            Ok(None)
        }
        None => {
            text.push_str("-; ")?;
            Ok(None)
        }
    }
}

fn find<D: Disk>(alloc: Global, disk: &mut D, text: &mut String) -> Result<Option<Held>, NoMemory>
    ensures { IfOk result (λ now. IsSome now → IsTrue (D.is_open disk.new)) }
{
    match Held::find(alloc, disk) {
        Ok(held) => {
            text.push_str("opened; ")?;
            Ok(Some(held))
        }
        Err(refusal) => {
            add_refusal(text, refusal)?;
            Ok(None)
        }
    }
}

fn add_refusal(text: &mut String, refusal: JournalRefusal) -> Result<(), NoMemory> {
    write!(text, "{refusal:?}; ").map_err(|_| NoMemory)
}

// The calls of a journal that was begun or opened.
fn go_on<D: Disk>(
    alloc: Global,
    disk: &mut D,
    mut held: Held,
    word: &[u8],
    written: &[u8],
    text: &mut String,
) -> Result<Option<Held>, NoMemory>
    requires { IsTrue (D.is_open disk.old) }
    ensures { IsTrue (D.is_open disk.new) }
{
    match word {
        b"next" => {
            add_next(text, held.next(disk))?;
        }
        b"rest" => add_rest(disk, &mut held, text)?,
        b"append" => append(alloc, disk, &mut held, written, text)?,
        _ => add_settled(text, held.settle(disk))?,
    }
    Ok(Some(held))
}

// Tells what was read. True where there was a record.
fn add_next(
    text: &mut String,
    read: Option<Result<Option<Record>, JournalRefusal>>,
) -> Result<bool, NoMemory> {
    match read {
        Some(Ok(Some(record))) => {
            add_record(text, &record)?;
            text.push_str("; ")?;
            return Ok(true);
        }
        Some(Ok(None)) => text.push_str("end; ")?,
        Some(Err(refusal)) => add_refusal(text, refusal)?,
        None => text.push_str("-; ")?,
    }
    Ok(false)
}

// Tells all records that are left.
fn add_rest<D: Disk>(disk: &mut D, held: &mut Held, text: &mut String) -> Result<(), NoMemory>
    requires { IsTrue (D.is_open disk.old) }
    ensures { IsTrue (D.is_open disk.new) }
{
    for _ in 0..1000u32 {
        if !add_next(text, held.next(disk))? {
            return Ok(());
        }
    }
    Ok(())
}

/// Tells a record: its kind, and its payload or how long that is.
pub(crate) fn add_record(text: &mut String, record: &Record) -> Result<(), NoMemory> {
    let kind = record.kind;
    let count = record.payload.len();
    if count <= 8 {
        write!(text, "{kind}").map_err(|_| NoMemory)?;
        add_bytes(text, &record.payload)?;
    } else {
        write!(text, "{kind}({count})").map_err(|_| NoMemory)?;
    }
    Ok(())
}

// Appends the record of a kind and a payload.
fn append<D: Disk>(
    alloc: Global,
    disk: &mut D,
    held: &mut Held,
    written: &[u8],
    text: &mut String,
) -> Result<(), NoMemory>
    requires { IsTrue (D.is_open disk.old) }
    ensures { IsTrue (D.is_open disk.new) }
{
    let (kind, written) = word_and_text(written);
    let kind = u8::from(kind != b"0".as_slice());
    let payload = text_of(alloc, written)?;
    let told = match held.append(disk, kind, &payload) {
        Some(Ok(())) => "appended; ",
        Some(Err(Failed)) => "in doubt; ",
        None => "-; ",
    };
    text.push_str(told)?;
    Ok(())
}

fn add_settled(
    text: &mut String,
    settled: Option<Result<Settled, Failed>>,
) -> Result<(), NoMemory> {
    let told = match settled {
        Some(Ok(Settled::In)) => "in; ",
        Some(Ok(Settled::Out)) => "out; ",
        Some(Err(Failed)) => "in doubt; ",
        None => "-; ",
    };
    text.push_str(told)?;
    Ok(())
}

// Tells the bytes of the file, where they are few. True where there is a file.
fn add_file<D: Disk>(disk: &mut D, text: &mut String) -> Result<bool, NoMemory>
    ensures { IfOk result (λ found. IsTrue found → IsTrue (D.is_open disk.new)) }
{
    if !disk.open(b"J", false).is_ok_and(|found| found) {
        text.push_str("no file; ")?;
        return Ok(false);
    }
    let mut piece = [0u8; 200];
    match (disk.length(), disk.read_at(0, &mut piece)) {
        (Ok(length), Ok(count)) => {
            write!(text, "{length} bytes ").map_err(|_| NoMemory)?;
            if length == count as u64 {
                add_bytes(text, &piece[..count])?;
            }
            text.push_str("; ")?;
        }
        _ => text.push_str("not read; ")?,
    }
    Ok(true)
}

/// Tells bytes as a case writes them.
pub(crate) fn add_bytes(text: &mut String, bytes: &[u8]) -> Result<(), NoMemory> {
    for byte in bytes {
        match *byte {
            b'~' | b';' | b'@' => write!(text, "~{byte:02X}").map_err(|_| NoMemory)?,
            32..=126 => text.push(char::from(*byte))?,
            other => write!(text, "~{other:02X}").map_err(|_| NoMemory)?,
        }
    }
    Ok(())
}
