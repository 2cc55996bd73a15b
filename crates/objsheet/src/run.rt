// The top call.
ghost use Rattle.std.specs.Prelude.{◌≡◌, ◌⊎◌};
ghost use Rattle.sheet_outside.specs.Causes.{Rose};
ghost use Rattle.objsheet_status.specs.Outside.{outside, seen};
ghost use Rattle.objsheet.specs.Commands.{IsCommand, IsOther};
ghost use Rattle.objsheet.specs.Ran.{Ran};

use crate::command::{Command, command_of};
use crate::trying::try_lines;
use objsheet_check::{check, init};
use objsheet_status::{USAGE, write_last_line};
use sheet_outside::{Disk, Sink, Source};
use std::alloc::Global;

/// Does all that the program does, and answers its status: one of the seven of `objsheet_status`.
///
/// The commands are `check`, `try` and `init J KEY`. `check` reads a definition, which is the whole input, and writes one line: what
/// its book holds, or why it is refused. `try` reads a definition, a line `%%` and request lines, and answers each request line that
/// isn't empty with one line. `init J KEY` reads a definition as `check` does, begins its journal in the file J, whose operator has the
/// key KEY, and writes one line: `ok`, or why the definition or the file is refused. J is UTF-8 of 1 to 255 bytes, and KEY is 1 to 64
/// bytes from 0x21 to 0x7E.
///
/// `Ran` says what each command comes to with each status, in `Checks`, `Tries` and `Inits`, and what other words come to, in
/// `Misuses`. What is said of bytes is said where the source and the sink tell theirs, and of files where the disk tells them.
pub fn run<S: Source, K: Sink, D: Disk>(
    alloc: Global,
    words: &[Vec<u8>],
    input: &mut S,
    output: &mut K,
    disk: &mut D,
) -> u8
    ensures statuses { (result ≡ 0) ⊎ ((result ≡ 1) ⊎ ((result ≡ 2) ⊎ ((result ≡ 3) ⊎ ((result ≡ 4) ⊎ ((result ≡ 5) ⊎ (result ≡ 7)))))) }
    // What was read, what was written and what the disk holds, by the command and the status.
    ensures ran { Ran words.now result (outside (seen (S.left input.old) (S.faults input.old)) (seen (K.written output.old) (K.faults output.old)) (seen (D.told disk.old) (D.faults disk.old))) (outside (seen (S.left input.new) (S.faults input.new)) (seen (K.written output.new) (K.faults output.new)) (seen (D.told disk.new) (D.faults disk.new))) }
    // Status 3: only where a call of the source failed. Status 4: only where a call of the sink failed. Status 5: only where a call
    // of the disk failed.
    ensures source { result ≡ 3 → Rose (S.faults input.old) (S.faults input.new) }
    ensures sink { result ≡ 4 → Rose (K.faults output.old) (K.faults output.new) }
    ensures disk { result ≡ 5 → Rose (D.faults disk.old) (D.faults disk.new) }
    // Where no call failed, a command comes to 0, 1 or 7, and other words to 2.
    ensures complete { IsCommand words.now → (Rose (S.faults input.old) (S.faults input.new) → ⊥) → (Rose (K.faults output.old) (K.faults output.new) → ⊥) → (Rose (D.faults disk.old) (D.faults disk.new) → ⊥) → (result ≡ 0) ⊎ ((result ≡ 1) ⊎ (result ≡ 7)) }
    ensures other_words { IsOther words.now → (result ≡ 2) ⊎ (result ≡ 4) }
{
    match command_of(words) {
        Some(Command::Check) => check(alloc, input, output),
        Some(Command::Try) => try_lines(alloc, input, output, disk),
        Some(Command::Init { name, key }) => init(alloc, name, key, input, output, disk),
        None => write_last_line(output, b"usage\n", USAGE),
    }
}
