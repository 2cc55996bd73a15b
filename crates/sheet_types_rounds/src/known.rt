// The names of columns whose types are known.
ghost use Rattle.std.specs.Prelude.{◌≡◌, ◌+◌, ◌<◌, [], false, length, IfOk, OnOk};
ghost use Rattle.sheet_types_rounds.specs.Mentions.{is_among};
ghost use Rattle.sheet_types_rounds.specs.Waiting.{with_name, IsOpen, HoldKnown, HoldKnownBelow};

use crate::first::is_unknown;
use indexmap::IndexSet;
use sheet_columns::{Column, Columns};
use sheet_types_formulas::kind_at;
use sheet_values::{Kind, Name, NoMemory};
use std::alloc::Global;
use std::marker::Model;

/// Names that differ.
#[derive(Drop)]
pub(crate) struct KnownNames {
    names: IndexSet<Vec<u8>>,
    alloc: Global,
}

impl Model for KnownNames {
    ghost use Rattle.std.specs.Prelude.{ℕ, List, map};
    ghost use Rattle.indexmap.specs.IndexSet.{keys};

    ghost Value = { List (List ℕ) };

    ghost view = { λ t. map (λ k. k.items) (keys t.names) };
}

impl KnownNames {
    fn new(alloc: Global) -> KnownNames
        ensures { result ≡ [] }
    {
        KnownNames {
            names: IndexSet::new(alloc),
            alloc,
        }
    }

    /// Whether that name is one of them.
    pub(crate) fn contains(&self, name: &[u8]) -> bool
        ensures { result ≡ is_among self.now name.now }
    {
        self.names.contains(name)
    }

    fn add(&mut self, name: &Name) -> Result<(), NoMemory>
        ensures { OnOk result (self.new ≡ with_name self.old name.now) }
    {
        let name = Vec::from_slice(self.alloc, name.bytes())?;
        self.names.insert(name)?;
        Ok(())
    }
}

// Whether a column has a type that doesn't change: it holds objects, or its type is known.
fn has_type(columns: &Columns, kinds: &[Kind], number: u32) -> bool
    requires { number < length columns.now }
    ensures { result ≡ false → IsOpen columns.now kinds.now number }
{
    match columns.get(number) {
        Column::Object => true,
        _ => !is_unknown(kind_at(kinds, number)),
    }
}

// Notes the name of a column whose type is known.
fn note_known(
    columns: &Columns,
    kinds: &[Kind],
    number: u32,
    known: &mut KnownNames,
) -> Result<(), NoMemory>
    requires counted { number < length columns.now }
    requires before { HoldKnownBelow number known.old columns.now kinds.now }
    ensures { OnOk result (HoldKnownBelow (number + 1) known.new columns.now kinds.now) }
{
    if has_type(columns, kinds, number) {
        known.add(columns.name(number))?;
    }
    Ok(())
}

/// The names of all columns that hold objects or whose types are known.
pub(crate) fn known_names(
    alloc: Global,
    columns: &Columns,
    kinds: &[Kind],
) -> Result<KnownNames, NoMemory>
    ensures { IfOk result (λ known. HoldKnown known columns.now kinds.now) }
{
    let mut known = KnownNames::new(alloc);
    for number in 0..columns.count() {
        note_known(columns, kinds, number, &mut known)?;
    }
    Ok(known)
}
