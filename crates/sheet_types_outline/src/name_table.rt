// Names that differ in their place.
ghost use Rattle.std.specs.Prelude.{◌≡◌, ◌++◌, ◌∷◌, [], false, OnOk};
ghost use Rattle.sheet_types_outline.specs.Names.{is_among, one_more};
ghost use Rattle.sheet_types_outline.specs.Steps.{Leaves};

use indexmap::IndexSet;
use sheet_types_formulas::TypeRefusal;
use sheet_values::{Name, NoMemory};
use std::alloc::Global;
use std::marker::Model;

/// Names that differ, in the order in which they came.
#[derive(Drop)]
pub(crate) struct NameTable {
    names: IndexSet<Vec<u8>>,
    alloc: Global,
}

impl Model for NameTable {
    ghost use Rattle.std.specs.Prelude.{ℕ, List, map};
    ghost use Rattle.indexmap.specs.IndexSet.{keys};

    ghost Value = { List (List ℕ) };

    ghost view = { λ t. map (λ k. k.items) (keys t.names) };
}

impl NameTable {
    /// No names.
    pub(crate) fn new(alloc: Global) -> NameTable
        ensures { result ≡ [] }
    {
        NameTable {
            names: IndexSet::new(alloc),
            alloc,
        }
    }

    // Whether that name is one of them.
    fn contains(&self, name: &Name) -> bool
        ensures { result ≡ is_among self.now name.now }
    {
        self.names.contains(name.bytes())
    }

    // Adds a name that isn't there at the end.
    fn push(&mut self, name: &Name) -> Result<(), NoMemory>
        requires { is_among self.old name.now ≡ false }
        ensures { OnOk result (self.new ≡ self.old ++ name.now ∷ []) }
    {
        let name = Vec::from_slice(self.alloc, name.bytes())?;
        self.names.insert(name)?;
        Ok(())
    }

    /// Adds the name that stands on that line. `Doubled` with the line where the name is there.
    pub(crate) fn add(&mut self, line: u32, name: &Name) -> Result<(), TypeRefusal>
        ensures { Leaves result self.new (one_more self.old line name.now) }
    {
        if self.contains(name) {
            return Err(TypeRefusal::Doubled(line));
        }
        self.push(name)?;
        Ok(())
    }
}
