// The text of a workbook.
ghost use Rattle.std.specs.Prelude.{◌≡◌, ◌≤◌, ◌<◌, length, IsErrOf, OnOk, OnErr};
ghost use Rattle.sheet_columns.specs.Tree.{IsTree};
ghost use Rattle.sheet_lines.specs.Told.{GainsFront};
ghost use Rattle.sheet_outside.specs.Causes.{Rose};
ghost use Rattle.sheet_outside.specs.Told.{Gains, WhereTold};
ghost use Rattle.sheet_engine.specs.Seen.{workbook_in};
ghost use Rattle.sheet_print.specs.Books.{book_text, table_of};

use crate::tables::table;
use sheet_columns::Columns;
use sheet_engine::Engine;
use sheet_lines::write_all;
use sheet_outside::{Sink, WriteRefusal};
use sheet_values::Steps;
use std::alloc::Global;
use std::sync::ledger::Ledger;

// Writes the table of a column.
fn print_table<K: Sink, G: Ledger>(
    alloc: Global,
    engine: &mut Engine,
    columns: &Columns,
    column: u32,
    sink: &mut K,
    steps: &mut Steps<G>,
) -> Result<(), WriteRefusal>
    requires columns { columns.now ≡ engine.old.book.columns }
    requires tree { IsTree columns.now }
    requires counted { column < length columns.now }
    ensures ok { OnOk result (Gains (K.written sink.old) (K.written sink.new) (table_of (workbook_in engine.old) column)) }
    ensures err { OnErr result (WhereTold (GainsFront (table_of (workbook_in engine.old) column)) (K.written sink.old) (K.written sink.new)) }
    ensures fault { IsErrOf result WriteRefusal.WriteFault → Rose (K.faults sink.old) (K.faults sink.new) }
    ensures later { K.faults sink.old ≤ K.faults sink.new }
    ensures book { engine.new.book ≡ engine.old.book }
    ensures state { engine.new.state ≡ engine.old.state }
{
    let text = match table(alloc, engine, columns, column, steps) {
        Ok(text) => text,
        Err(_) => return Err(WriteRefusal::NoMemory),
    };
    match write_all(sink, text.as_slice()) {
        Ok(()) => Ok(()),
        Err(_) => Err(WriteRefusal::WriteFault),
    }
}

// Writes the tables of all columns.
fn print_tables<K: Sink, G: Ledger>(
    alloc: Global,
    engine: &mut Engine,
    columns: &Columns,
    sink: &mut K,
    steps: &mut Steps<G>,
) -> Result<(), WriteRefusal>
    requires columns { columns.now ≡ engine.old.book.columns }
    ensures ok { OnOk result (Gains (K.written sink.old) (K.written sink.new) (book_text (workbook_in engine.old))) }
    ensures err { OnErr result (WhereTold (GainsFront (book_text (workbook_in engine.old))) (K.written sink.old) (K.written sink.new)) }
    ensures fault { IsErrOf result WriteRefusal.WriteFault → Rose (K.faults sink.old) (K.faults sink.new) }
    ensures later { K.faults sink.old ≤ K.faults sink.new }
    ensures book { engine.new.book ≡ engine.old.book }
    ensures state { engine.new.state ≡ engine.old.state }
{
    for column in 0..columns.count() {
        match print_table(alloc, engine, columns, column, sink, steps) {
            Ok(()) => {}
            Err(refusal) => return Err(refusal),
        }
    }
    Ok(())
}

/// Writes the workbook: for each object column, in the order of their numbers, a line `== PATH (N)` with its count of objects, and
/// where it has some a header and a line for each, by number. Such a line has the object's number, its parent's or `-`, and its
/// state and formula cells. Fields stand under one another, by their characters.
///
/// `WriteFault` comes only where the sink failed. After a refusal a front of the text is written. Book and state stay as they are in
/// any case; nothing is said of which results are kept.
pub fn print_book<K: Sink, G: Ledger>(
    alloc: Global,
    engine: &mut Engine,
    sink: &mut K,
    steps: &mut Steps<G>,
) -> Result<(), WriteRefusal>
    ensures ok { OnOk result (Gains (K.written sink.old) (K.written sink.new) (book_text (workbook_in engine.old))) }
    ensures err { OnErr result (WhereTold (GainsFront (book_text (workbook_in engine.old))) (K.written sink.old) (K.written sink.new)) }
    ensures fault { IsErrOf result WriteRefusal.WriteFault → Rose (K.faults sink.old) (K.faults sink.new) }
    ensures later { K.faults sink.old ≤ K.faults sink.new }
    ensures book { engine.new.book ≡ engine.old.book }
    ensures state { engine.new.state ≡ engine.old.state }
{
    let book = match engine.shared_book() {
        Ok(book) => book,
        Err(_) => return Err(WriteRefusal::NoMemory),
    };
    print_tables(alloc, engine, book.columns(), sink, steps)
}
