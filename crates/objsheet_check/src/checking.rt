// The command `check`.
ghost use Rattle.std.specs.Prelude.{◌≡◌, ◌⊎◌, ◌<◌, ◌≤◌, [], vec_len, IfOk, OnErr, IsErrOf, IsTrue, IsFalse};
ghost use Rattle.sheet_outside.specs.Causes.{Rose};
ghost use Rattle.sheet_outside.specs.Told.{WhereTold};
ghost use Rattle.sheet_lines.specs.Told.{both};
ghost use Rattle.sheet_types_outline.specs.Orderly.{IsOrderly};
ghost use Rattle.objsheet_check.specs.Checking.{FindsInText, FindsInDefinition, FindsInInput, ReadsText, Takes, Adds, IsChecked, IsCheckedInput, IsUnfit, HasNoBook, IsCutOff};

use crate::phrase::{book_line, definition_line, type_line};
use objsheet_status::{DONE, OUT_OF_MEMORY, REFUSED, SOURCE_FAILED, write_last_line};
use sheet_define::{Definition, read_definition};
use sheet_define_reading::texts_stand_for_one_definition;
use sheet_outside::{Failed, Sink, Source};
use sheet_types::elaborate;
use sheet_types_outline::texts_are_orderly;
use sheet_values::{LONGEST_DEFINITION, NoMemory};
use std::alloc::{AllocError, Global};

const PIECE: usize = 16_384;

/// What is found of a definition, with the line that says so.
#[derive(Drop)]
pub enum Verdict {
    /// It has a book.
    Good(Vec<u8>),
    /// It is refused.
    Refused(Vec<u8>),
}

/// Why an input could not be read.
#[derive(Clone, Copy, Debug, PartialEq, Eq)]
pub enum ReadFailure {
    /// The source failed.
    Source,
    /// There was no memory.
    NoMemory,
}

impl From<Failed> for ReadFailure {
    ghost use Rattle.std.specs.Prelude.{◌≡◌};
    ghost use Rattle.objsheet_check.specs.declared.checking.ReadFailure.TheVariants.{Source};

    ghost from_gives = { λ _ e. e ≡ Source };

    fn from(_: Failed) -> Self {
        ReadFailure::Source
    }
}

impl From<NoMemory> for ReadFailure {
    ghost use Rattle.std.specs.Prelude.{◌≡◌};
    ghost use Rattle.objsheet_check.specs.declared.checking.ReadFailure.TheVariants.{NoMemory as no_memory};

    ghost from_gives = { λ _ e. e ≡ no_memory };

    fn from(_: NoMemory) -> Self {
        ReadFailure::NoMemory
    }
}

impl From<AllocError> for ReadFailure {
    ghost use Rattle.std.specs.Prelude.{◌≡◌};
    ghost use Rattle.objsheet_check.specs.declared.checking.ReadFailure.TheVariants.{NoMemory};

    ghost from_gives = { λ _ e. e ≡ NoMemory };

    fn from(_: AllocError) -> Self {
        ReadFailure::NoMemory
    }
}

/// Reads a definition, which is the whole input, and writes one line: what its book holds, or why it is refused.
pub fn check<S: Source, K: Sink>(alloc: Global, input: &mut S, output: &mut K) -> u8
    ensures statuses { (result ≡ 0) ⊎ ((result ≡ 1) ⊎ ((result ≡ 3) ⊎ ((result ≡ 4) ⊎ (result ≡ 7)))) }
    ensures good { result ≡ 0 → WhereTold IsChecked (both (S.left input.old) (K.written output.old)) (both (S.left input.new) (K.written output.new)) }
    ensures good_input { result ≡ 0 → WhereTold IsCheckedInput (S.left input.old) (S.left input.new) }
    ensures refused { result ≡ 1 → WhereTold IsUnfit (both (S.left input.old) (K.written output.old)) (both (S.left input.new) (K.written output.new)) }
    ensures refused_input { result ≡ 1 → WhereTold (λ input left. HasNoBook input) (S.left input.old) (S.left input.new) }
    ensures source { result ≡ 3 → Rose (S.faults input.old) (S.faults input.new) }
    ensures stopped { result ≡ 3 → WhereTold Takes (S.left input.old) (S.left input.new) }
    ensures unsaid { (result ≡ 3) ⊎ (result ≡ 7) → K.written output.new ≡ K.written output.old }
    ensures sink { result ≡ 4 → Rose (K.faults output.old) (K.faults output.new) }
    ensures sink_broken { result ≡ 4 → WhereTold IsCutOff (both (S.left input.old) (K.written output.old)) (both (S.left input.new) (K.written output.new)) }
{
    match check_input(alloc, input) {
        Ok(Verdict::Good(line)) => write_last_line(output, line.as_slice(), DONE),
        Ok(Verdict::Refused(line)) => write_last_line(output, line.as_slice(), REFUSED),
        Err(ReadFailure::Source) => SOURCE_FAILED,
        Err(ReadFailure::NoMemory) => OUT_OF_MEMORY,
    }
}

// Reads the input, and finds what it holds.
fn check_input<S: Source>(alloc: Global, input: &mut S) -> Result<Verdict, ReadFailure>
    ensures found { IfOk result (λ verdict. WhereTold (FindsInInput verdict) (S.left input.old) (S.left input.new)) }
    ensures stopped { IsErrOf result ReadFailure.Source → WhereTold Takes (S.left input.old) (S.left input.new) }
    ensures source { IsErrOf result ReadFailure.Source → Rose (S.faults input.old) (S.faults input.new) }
{
    texts_stand_for_one_definition();
    let text = read_text(alloc, input)?;
    let verdict = check_text(alloc, text.as_slice())?;
    Ok(verdict)
}

/// Finds what a text holds.
pub(crate) fn check_text(alloc: Global, text: &[u8]) -> Result<Verdict, NoMemory>
    ensures { IfOk result (FindsInText text.now) }
{
    match read_definition(alloc, text) {
        Ok(definition) => {
            texts_are_orderly();
            check_definition(alloc, &definition)
        }
        Err(refusal) => {
            let line = definition_line(alloc, refusal)?;
            Ok(Verdict::Refused(line))
        }
    }
}

// Finds what a definition holds.
fn check_definition(alloc: Global, definition: &Definition) -> Result<Verdict, NoMemory>
    requires { IsOrderly definition.now.declarations }
    ensures { IfOk result (FindsInDefinition definition.now) }
{
    match elaborate(alloc, definition) {
        Ok(book) => {
            let line = book_line(alloc, &book)?;
            Ok(Verdict::Good(line))
        }
        Err(refusal) => {
            let line = type_line(alloc, &refusal)?;
            Ok(Verdict::Refused(line))
        }
    }
}

/// All of the input; or, where it is longer than a definition may be, as much of it as shows that.
pub(crate) fn read_text<S: Source>(alloc: Global, input: &mut S) -> Result<Vec<u8>, ReadFailure>
    ensures read { IfOk result (λ text. WhereTold (ReadsText text.items) (S.left input.old) (S.left input.new)) }
    ensures stopped { OnErr result (WhereTold Takes (S.left input.old) (S.left input.new)) }
    ensures source { IsErrOf result ReadFailure.Source → Rose (S.faults input.old) (S.faults input.new) }
    ensures later { S.faults input.old ≤ S.faults input.new }
{
    let mut text = Vec::new(alloc);
    let mut piece = new_piece(alloc)?;
    'pieces: while text.len() <= LONGEST_DEFINITION {
        if !read_piece(input, &mut piece, &mut text)? {
            return Ok(text);
        }
    }
    Ok(text)
}

// Room for a piece.
fn new_piece(alloc: Global) -> Result<Vec<u8>, AllocError>
    ensures { IfOk result (λ piece. 0 < vec_len piece) }
{
    vec![in alloc; 0; PIECE]
}

// One more piece of the input behind the text so far; false at its end.
fn read_piece<S: Source>(
    input: &mut S,
    piece: &mut Vec<u8>,
    text: &mut Vec<u8>,
) -> Result<bool, ReadFailure>
    requires { 0 < vec_len piece.old }
    ensures piece { vec_len piece.new ≡ vec_len piece.old }
    ensures adds { IfOk result (λ more. WhereTold (Adds text.old.items text.new.items) (S.left input.old) (S.left input.new)) }
    ensures stopped { OnErr result (WhereTold Takes (S.left input.old) (S.left input.new)) }
    ensures end { IfOk result (λ more. IsFalse more → WhereTold (λ old left. left ≡ []) (S.left input.old) (S.left input.new)) }
    ensures grows { IfOk result (λ more. IsTrue more → vec_len text.old < vec_len text.new) }
    ensures source { IsErrOf result ReadFailure.Source → Rose (S.faults input.old) (S.faults input.new) }
    ensures later { S.faults input.old ≤ S.faults input.new }
{
    let count = input.read(piece.as_mut_slice())?;
    let (front, _) = piece.split_at(count);
    text.extend_from_slice(front)?;
    Ok(count > 0)
}
