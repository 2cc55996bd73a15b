// Texts that differ, in the order of their coming, each found by a look-up.
ghost use Rattle.std.specs.Prelude.{take, ◌-◌, ◌≡◌, ◌∷◌, ◌++◌, [], length, position, bytes_eq, None, OnOk, OnErr};
ghost use Rattle.std.specs.List.{IsDistinct};

use indexmap::IndexSet;
use sheet_values::NoMemory;
use std::alloc::Global;
use std::marker::Model;

/// Texts that differ, seen as their list.
#[derive(Drop)]
pub struct Index {
    texts: IndexSet<Vec<u8>>,
}

impl Model for Index {
    ghost use Rattle.std.specs.Prelude.{ℕ, List, map};

    ghost Value = { List (List ℕ) };

    ghost view = { λ n. map (λ t. t.items) n.texts.keys };
}

impl Index {
    /// No text. It takes no memory.
    pub fn new(alloc: Global) -> Index
        ensures { result ≡ [] }
    {
        Index {
            texts: IndexSet::new(alloc),
        }
    }

    /// How many there are; they differ.
    pub fn len(&self) -> usize
        ensures len { result ≡ length self.now }
        ensures differ { IsDistinct bytes_eq self.now }
    {
        self.texts.len()
    }

    /// The place of a text; none exactly where it isn't there.
    pub fn find(&self, text: &[u8]) -> Option<usize>
        ensures { result ≡ position (bytes_eq text.now) self.now }
    {
        self.texts.get_index_of(text)
    }

    /// One more, at the end. Nothing changes where there is no memory.
    pub fn add(&mut self, text: Vec<u8>) -> Result<(), NoMemory>
        requires { position (bytes_eq text.items) self.old ≡ None }
        ensures ok { OnOk result (self.new ≡ self.old ++ text.items ∷ []) }
        ensures err { OnErr result (self.new ≡ self.old) }
    {
        self.texts.insert(text)?;
        Ok(())
    }

    /// The last one goes.
    pub fn take_back(&mut self)
        ensures { self.new ≡ take (length self.old - 1) self.old }
    {
        let _ = self.texts.pop();
    }
}
