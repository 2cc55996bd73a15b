// Texts that are made, and sources and sinks that fail.
use crate::checked;
use objsheet_check::check;
use objsheet_status::{DONE, REFUSED, SINK_FAILED, SOURCE_FAILED};
use sheet_outside::{MemorySink, MemorySource};
use sheet_values::LONGEST_DEFINITION;
use std::alloc::Global;
use std::test::Fail;

// Whether `check` of a text prints that line, with the status that goes with it.
fn prints(alloc: Global, text: &[u8], line: &str) -> Result<bool, Fail> {
    let (status, printed) = checked(alloc, text)?;
    let wanted = if line.starts_with("ok ") {
        DONE
    } else {
        REFUSED
    };
    Ok(status == wanted && printed.strip_suffix("\n") == Some(line))
}

// A text with a byte behind it, so many times.
fn followed(alloc: Global, text: &[u8], byte: u8, times: usize) -> Result<Vec<u8>, Fail> {
    let mut bytes = text.to_vec(alloc)?;
    for _ in 0..times {
        bytes.push(byte)?;
    }
    Ok(bytes)
}

// A text with so many state columns, each on its own line, and that line behind them.
fn many(alloc: Global, count: usize, last: &str) -> Result<Vec<u8>, Fail> {
    let mut text = Vec::new(alloc);
    for number in 0..count {
        let line = format!(in alloc; "state s{number} : number\n")?;
        text.extend_from_slice(line.as_bytes())?;
    }
    text.extend_from_slice(last.as_bytes())?;
    Ok(text)
}

#[test]
fn the_greatest_length(rt: HostRuntime) -> Result<(), Fail> {
    let alloc = rt.alloc();
    let view = b"view v() { }".as_slice();
    let blanks = LONGEST_DEFINITION - 12;
    let longest = followed(alloc, view, b' ', blanks)?;
    assert!(rt;
        prints(
            alloc,
            longest.as_slice(),
            "ok columns=1 procedures=0 views=1"
        )?
    );
    let longer = followed(alloc, view, b' ', blanks + 1)?;
    assert!(rt; prints(alloc, longer.as_slice(), "refused: too long, limit 262144")?);
    let bytes = followed(alloc, b"", b'\xFF', 300_000)?;
    assert!(rt; prints(alloc, bytes.as_slice(), "refused: too long, limit 262144")?);
    Ok(())
}

#[test]
fn too_many_columns(rt: HostRuntime) -> Result<(), Fail> {
    let alloc = rt.alloc();
    let most = many(alloc, 999, "")?;
    assert!(rt;
        prints(
            alloc,
            most.as_slice(),
            "ok columns=1000 procedures=0 views=0"
        )?
    );
    let more = many(alloc, 999, "object T { }")?;
    assert!(rt;
        prints(
            alloc,
            more.as_slice(),
            "refused: too many columns, line 1000"
        )?
    );
    let doubled = many(alloc, 999, "state s0 : number")?;
    assert!(rt;
        prints(
            alloc,
            doubled.as_slice(),
            "refused: doubled name, line 1000"
        )?
    );
    Ok(())
}

// Whether `check` of a text, where a read and a write of those numbers fail, ends with that status and writes that.
fn fails(
    alloc: Global,
    text: &[u8],
    read: u64,
    write: u64,
    status: u8,
    output: &[u8],
) -> Result<bool, Fail> {
    let mut source = MemorySource::new(text.to_vec(alloc)?, [read].to_vec(alloc)?);
    let mut sink = MemorySink::new(Vec::new(alloc), [write].to_vec(alloc)?);
    let ended = check(alloc, &mut source, &mut sink);
    Ok(ended == status && sink.bytes().is_some_and(|b| b == output))
}

#[test]
fn each_read_fails(rt: HostRuntime) -> Result<(), Fail> {
    let alloc = rt.alloc();
    let line = b"refused: expected other, line 1, offset 4\n";
    assert!(rt; fails(alloc, b"view", 1, 0, SOURCE_FAILED, b"")?);
    assert!(rt; fails(alloc, b"view", 2, 0, SOURCE_FAILED, b"")?);
    assert!(rt; fails(alloc, b"view", 3, 0, REFUSED, line)?);
    Ok(())
}

#[test]
fn each_read_of_a_long_text_fails(rt: HostRuntime) -> Result<(), Fail> {
    let alloc = rt.alloc();
    let text = followed(alloc, b"view", b'\n', 20_000)?;
    let line = b"refused: expected other, line 20001, offset 20004\n";
    assert!(rt; fails(alloc, text.as_slice(), 1, 0, SOURCE_FAILED, b"")?);
    assert!(rt; fails(alloc, text.as_slice(), 2, 0, SOURCE_FAILED, b"")?);
    assert!(rt; fails(alloc, text.as_slice(), 3, 0, SOURCE_FAILED, b"")?);
    assert!(rt; fails(alloc, text.as_slice(), 4, 0, REFUSED, line)?);
    Ok(())
}

#[test]
fn each_write_fails(rt: HostRuntime) -> Result<(), Fail> {
    let alloc = rt.alloc();
    let line = b"ok columns=1 procedures=0 views=1\n";
    assert!(rt; fails(alloc, b"view v() { }", 0, 1, SINK_FAILED, b"")?);
    assert!(rt; fails(alloc, b"view", 0, 1, SINK_FAILED, b"")?);
    assert!(rt; fails(alloc, b"view v() { }", 0, 2, DONE, line)?);
    assert!(rt; fails(alloc, b"view", 1, 1, SOURCE_FAILED, b"")?);
    Ok(())
}
