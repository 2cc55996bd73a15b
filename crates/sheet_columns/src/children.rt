// The columns directly under each column, found by their names.
ghost use Rattle.std.specs.Prelude.{◌≡◌, ◌∷◌, ◌++◌, ◌<◌, [], length, None, IfOk, OnOk, OnErr};
ghost use Rattle.sheet_columns.specs.Children.{number_of, found_under, with_child};

use indexmap::IndexMap;
use sheet_values::NoMemory;
use std::alloc::Global;
use std::marker::Model;

// The numbers of the columns directly under one column, by name.
#[derive(Debug, Drop)]
struct Siblings {
    numbers: IndexMap<Vec<u8>, u32>,
}

impl Model for Siblings {
    ghost use Rattle.std.specs.Prelude.{map};
    ghost use Rattle.sheet_columns.specs.Children.{Numbered};

    ghost Value = { Numbered };

    ghost view = { λ s. map (λ e. (e.0.items, e.1)) s.numbers.entries };
}

impl Siblings {
    fn new(alloc: Global) -> Siblings
        ensures { result ≡ [] }
    {
        Siblings {
            numbers: IndexMap::new(alloc),
        }
    }

    fn find(&self, name: &[u8]) -> Option<u32>
        ensures { result ≡ number_of self.now name.now }
    {
        self.numbers.get(name).copied()
    }

    fn add(&mut self, name: Vec<u8>, number: u32) -> Result<(), NoMemory>
        requires { number_of self.old name.items ≡ None }
        ensures ok { OnOk result (self.new ≡ self.old ++ (name.items, number) ∷ []) }
        ensures err { OnErr result (self.new ≡ self.old) }
    {
        self.numbers.insert(name, number)?;
        Ok(())
    }
}

/// For each column the names and numbers of those directly under it.
#[derive(Debug, Drop)]
pub(crate) struct Children {
    under: Vec<Siblings>,
}

impl Model for Children {
    ghost use Rattle.std.specs.Prelude.{List};
    ghost use Rattle.sheet_columns.specs.Children.{Numbered};

    ghost Value = { List Numbered };

    ghost view = { λ c. c.under.items };
}

impl Children {
    /// One column with nothing under it.
    pub(crate) fn new(alloc: Global) -> Result<Children, NoMemory>
        ensures { IfOk result (λ children. children ≡ [] ∷ []) }
    {
        let mut under = Vec::new(alloc);
        under.push(Siblings::new(alloc))?;
        Ok(Children { under })
    }

    /// The number of the column with that name under that one. It takes no memory.
    pub(crate) fn find(&self, above: u32, name: &[u8]) -> Option<u32>
        ensures { result ≡ found_under self.now above name.now }
    {
        match self.under.get(above as usize) {
            Some(siblings) => siblings.find(name),
            None => None,
        }
    }

    /// One column more, under that one. Nothing changes where memory is refused.
    pub(crate) fn add(&mut self, above: u32, name: Vec<u8>, number: u32) -> Result<(), NoMemory>
        requires counted { above < length self.old }
        requires free { found_under self.old above name.items ≡ None }
        ensures ok { OnOk result (self.new ≡ with_child self.old above name.items number ++ [] ∷ []) }
        ensures err { OnErr result (self.new ≡ self.old) }
    {
        let alloc = *self.under.allocator();
        self.under.reserve(1)?;
        self.under[above as usize].add(name, number)?;
        self.under.push_reserved(Siblings::new(alloc));
        Ok(())
    }
}
