// Pages as CSV, over sinks that hold all and over some that don't.
use sheet_columns::Page;
use sheet_csv::export_page;
use sheet_outside::{StdSink, SureSink, WriteRefusal};
use std::alloc::Global;
use std::test::Fail;

// The room of the sinks that don't hold all is less.
const ROOM: usize = 4096;

/// The page as CSV, and over how many sinks without room for it the call failed with what there is room for written.
pub fn exported(alloc: Global, page: &Page) -> Result<String, Fail> {
    let mut sink = SureSink::new(Vec::new(alloc));
    export_page(alloc, page, &mut sink)?;
    let text = sink.bytes().unwrap_or(b"?");
    let count = count_failures(alloc, page, text);
    let (length, text) = (text.len(), str::from_utf8(text).unwrap_or("?"));
    Ok(format!(in alloc; "{text}{length} bytes; fails with less room: {count}\n")?)
}

fn count_failures(alloc: Global, page: &Page, text: &[u8]) -> usize {
    let mut count = 0usize;
    for k in 0..text.len() {
        if fails_after(alloc, page, text, k) {
            count = count.saturating_add(1);
        }
    }
    count
}

// Whether a sink with room for so many bytes fails when they are written.
fn fails_after(alloc: Global, page: &Page, text: &[u8], k: usize) -> bool {
    let mut room = [0u8; ROOM];
    if k > ROOM || k > text.len() {
        return false;
    }
    let refusal = refusal_within(alloc, page, &mut room[..k]);
    refusal == Some(WriteRefusal::WriteFault) && room[..k] == text[..k]
}

// Why a page isn't written to a sink with that room.
fn refusal_within(alloc: Global, page: &Page, room: &mut [u8]) -> Option<WriteRefusal> {
    let mut sink = StdSink::new(room);
    export_page(alloc, page, &mut sink).err()
}
