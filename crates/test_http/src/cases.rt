// Cases: a line `== NAME`, then lines of bytes. `|TEXT` is the text, and `*N TEXT` the text N times; `\r`, `\n`, `\t` and `\xHH`
// stand for bytes.
ghost use Rattle.std.specs.Prelude.{◌≤◌};

use sheet_values::NoMemory;
use std::alloc::Global;

/// A connection: a name and its bytes.
#[derive(Drop)]
pub struct Case {
    pub name: String,
    pub bytes: Vec<u8>,
}

// The first line, and what stands behind it.
fn next_line(table: &[u8]) -> (&[u8], &[u8]) {
    match table.iter().position(|byte| *byte == b'\n') {
        Some(end) => {
            let (line, rest) = table.split_at(end);
            (line, &rest[1..])
        }
        None => table.split_at(table.len()),
    }
}

/// The first case of a table, and what stands behind it.
pub fn next_case(alloc: Global, table: &[u8]) -> Result<Option<(Case, &[u8])>, NoMemory> {
    let (line, mut rest) = next_line(table);
    let Some(name) = line.strip_prefix(b"== ") else {
        return Ok(None);
    };
    let name = String::from_utf8_lossy(alloc, name)?;
    let mut bytes = Vec::new(alloc);
    for _ in 0..table.len() {
        let (line, behind) = next_line(rest);
        if !line.starts_with(b"|") && !line.starts_with(b"*") {
            break;
        }
        add_line(&mut bytes, line)?;
        rest = behind;
    }
    Ok(Some((Case { name, bytes }, rest)))
}

// Adds what a line stands for.
fn add_line(bytes: &mut Vec<u8>, line: &[u8]) -> Result<(), NoMemory> {
    let Some((kind, text)) = line.split_first() else {
        return Ok(());
    };
    if *kind != b'*' {
        return add_text(bytes, text);
    }
    let Some(space) = text.iter().position(|byte| *byte == b' ') else {
        return Ok(());
    };
    let (count, text) = text.split_at(space);
    for _ in 0..number(count) {
        add_text(bytes, &text[1..])?;
    }
    Ok(())
}

// The number of digits, or 100,000 where it is greater.
fn number(digits: &[u8]) -> u32 {
    let mut n: u32 = 0;
    for digit in digits {
        let next = u32::from(digit.wrapping_sub(b'0') % 10);
        n = n.saturating_mul(10).saturating_add(next).min(100_000);
    }
    n
}

// Adds a text with its marks.
fn add_text(bytes: &mut Vec<u8>, text: &[u8]) -> Result<(), NoMemory> {
    let mut rest = text;
    for _ in 0..text.len() {
        match rest {
            [b'\\', b'r', more @ ..] => {
                bytes.push(b'\r')?;
                rest = more;
            }
            [b'\\', b'n', more @ ..] => {
                bytes.push(b'\n')?;
                rest = more;
            }
            [b'\\', b't', more @ ..] => {
                bytes.push(b'\t')?;
                rest = more;
            }
            [b'\\', b'x', high, low, more @ ..] => {
                bytes.push(hex(*high) * 16 + hex(*low))?;
                rest = more;
            }
            [byte, more @ ..] => {
                bytes.push(*byte)?;
                rest = more;
            }
            [] => return Ok(()),
        }
    }
    Ok(())
}

// The value of a hexadecimal digit in small letters.
fn hex(digit: u8) -> u8
    ensures { result ≤ 15 }
{
    match digit {
        b'0'..=b'9' => digit - b'0',
        b'a'..=b'f' => digit - b'a' + 10,
        _ => 0,
    }
}
