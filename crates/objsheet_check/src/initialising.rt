// The command `init`.
ghost use Rattle.std.specs.Prelude.{◌≡◌, ◌⊎◌, ◌≤◌, length, IfOk, IsErrOf};
ghost use Rattle.sheet_outside.specs.Causes.{Rose};
ghost use Rattle.sheet_outside.specs.Told.{WhereTold};
ghost use Rattle.objsheet_status.specs.Outside.{outside, seen};
ghost use Rattle.objsheet_check.specs.Checking.{Takes};
ghost use Rattle.objsheet_check.specs.Initialising.{HasItsBook, IsFoundIn, Inits};

use crate::checking::{ReadFailure, Verdict, check_text, read_text};
use objsheet_init::begin_journal;
use objsheet_status::{OUT_OF_MEMORY, REFUSED, SOURCE_FAILED, write_last_line};
use sheet_define_reading::texts_stand_for_one_definition;
use sheet_outside::{Disk, Sink, Source};
use std::alloc::Global;

/// What an input is found to be.
#[derive(Drop)]
pub enum Found {
    /// The text of a definition that has a book.
    Definition(Vec<u8>),
    /// It is refused, and this line says why.
    Refused(Vec<u8>),
}

/// Reads a definition, which is the whole input, begins its journal in the file of this name, whose operator has this key, of at most
/// 64 bytes, and writes one line: `ok`, or why the definition or the file is refused.
///
/// The definition is judged before the disk is called: where it is refused, no file is made and none changes.
pub fn init<S: Source, K: Sink, D: Disk>(
    alloc: Global,
    name: &[u8],
    key: &[u8],
    input: &mut S,
    output: &mut K,
    disk: &mut D,
) -> u8
    requires { length key.now ≤ 64 }
    ensures statuses { (result ≡ 0) ⊎ ((result ≡ 1) ⊎ ((result ≡ 3) ⊎ ((result ≡ 4) ⊎ ((result ≡ 5) ⊎ (result ≡ 7))))) }
    ensures inits { Inits name.now key.now result (outside (seen (S.left input.old) (S.faults input.old)) (seen (K.written output.old) (K.faults output.old)) (seen (D.told disk.old) (D.faults disk.old))) (outside (seen (S.left input.new) (S.faults input.new)) (seen (K.written output.new) (K.faults output.new)) (seen (D.told disk.new) (D.faults disk.new))) }
    ensures source { result ≡ 3 → Rose (S.faults input.old) (S.faults input.new) }
    ensures sink { result ≡ 4 → Rose (K.faults output.old) (K.faults output.new) }
    ensures disk { result ≡ 5 → Rose (D.faults disk.old) (D.faults disk.new) }
{
    match find_definition(alloc, input) {
        Ok(Found::Definition(text)) => {
            begin_journal(alloc, name, key, text.as_slice(), output, disk)
        }
        Ok(Found::Refused(line)) => write_last_line(output, line.as_slice(), REFUSED),
        Err(ReadFailure::Source) => SOURCE_FAILED,
        Err(ReadFailure::NoMemory) => OUT_OF_MEMORY,
    }
}

// Reads the input, and finds what it is.
fn find_definition<S: Source>(alloc: Global, input: &mut S) -> Result<Found, ReadFailure>
    ensures book { IfOk result HasItsBook }
    ensures found { IfOk result (λ found. WhereTold (IsFoundIn found) (S.left input.old) (S.left input.new)) }
    ensures stopped { IsErrOf result ReadFailure.Source → WhereTold Takes (S.left input.old) (S.left input.new) }
    ensures source { IsErrOf result ReadFailure.Source → Rose (S.faults input.old) (S.faults input.new) }
{
    texts_stand_for_one_definition();
    let text = read_text(alloc, input)?;
    match check_text(alloc, text.as_slice())? {
        Verdict::Good(_) => Ok(Found::Definition(text)),
        Verdict::Refused(line) => Ok(Found::Refused(line)),
    }
}
