// How far formula cells are.
ghost use Rattle.std.specs.Prelude.{◌≡◌, [], OnOk, OnErr};
ghost use Rattle.std.specs.Option.{option_copied};
ghost use Rattle.sheet_engine.specs.Standings.{stands, is_started, Puts};

use indexmap::IndexMap;
use sheet_columns::Fault;
use sheet_values::{NoMemory, Set};
use std::alloc::Global;
use std::marker::Model;

/// How far a formula cell is.
#[derive(Drop)]
pub(crate) enum Standing {
    /// It waits for cells that it needs.
    Started,
    /// It has this result.
    Settled(Result<Set, Fault>),
}

/// The cells that are started or have a result. A look-up takes the same time however many there are.
#[derive(Drop)]
pub(crate) struct Standings {
    cells: IndexMap<(u64, u32), Standing>,
}

impl Model for Standings {
    ghost use Rattle.sheet_engine.specs.Standings.{Entries};

    ghost Value = { Entries };

    ghost view = { λ s. s.cells.entries };
}

impl Standings {
    /// No cell is started. It takes no memory.
    pub(crate) fn new(alloc: Global) -> Standings
        ensures { result ≡ [] }
    {
        Standings {
            cells: IndexMap::new(alloc),
        }
    }

    /// How far a cell is; none where it isn't started.
    pub(crate) fn find(&self, object: u64, column: u32) -> Option<&Standing>
        ensures { option_copied result ≡ stands self.now (object, column) }
    {
        self.cells.get(&(object, column))
    }

    /// Whether a cell waits.
    pub(crate) fn is_started(&self, object: u64, column: u32) -> bool
        ensures { result ≡ is_started (stands self.now (object, column)) }
    {
        matches!(self.find(object, column), Some(Standing::Started))
    }

    /// Puts in how far a cell is. Nothing changes where memory is refused.
    pub(crate) fn put(
        &mut self,
        object: u64,
        column: u32,
        standing: Standing,
    ) -> Result<(), NoMemory>
        ensures ok { OnOk result (Puts self.old self.new (object, column) standing) }
        ensures err { OnErr result (self.new ≡ self.old) }
    {
        match self.cells.insert((object, column), standing) {
            Ok(_) => Ok(()),
            Err(_) => Err(NoMemory),
        }
    }
}
