// Names with bytes, which a disk in memory starts with.
ghost use Rattle.std.specs.Prelude.{◌≡◌, [], ◌∷◌, ◌++◌, OnOk, OnErr, None, option_map};
ghost use Rattle.sheet_outside_disks.specs.Drive.{found};

use sheet_values::NoMemory;
use std::alloc::Global;
use std::marker::Model;

/// A name and bytes.
#[derive(Drop)]
struct Named {
    name: Vec<u8>,
    bytes: Vec<u8>,
}

/// Names with bytes. Seen as a list of both.
#[derive(Drop)]
pub struct Files {
    alloc: Global,
    list: Vec<Named>,
}

impl Model for Files {
    ghost use Rattle.std.specs.Prelude.{List, map};
    ghost use Rattle.sheet_outside_disks.specs.Drive.{Named as TheNamed, named};

    ghost Value = { List TheNamed };

    ghost view = { λ f. map named f.list.items };
}

impl Files {
    /// No files.
    pub fn new(alloc: Global) -> Files
        ensures { result ≡ [] }
    {
        Files {
            alloc,
            list: Vec::new(alloc),
        }
    }

    /// One file more, whose name isn't among them yet. After `NoMemory` they are as before.
    pub fn push(&mut self, name: &[u8], bytes: &[u8]) -> Result<(), NoMemory>
        requires { found self.old name.now ≡ None }
        ensures ok { OnOk result (self.new ≡ self.old ++ record { name = name.now; bytes = bytes.now } ∷ []) }
        ensures err { OnErr result (self.new ≡ self.old) }
    {
        let name = name.to_vec(self.alloc)?;
        let bytes = bytes.to_vec(self.alloc)?;
        self.list.push(Named { name, bytes })?;
        Ok(())
    }

    /// The bytes of this name, where it is among them.
    pub(crate) fn find(&self, name: &[u8]) -> Option<&[u8]>
        ensures { option_map (λ b. b.now) result ≡ found self.now name.now }
    {
        let mut rest = self.list.as_slice();
        while let Some((named, more)) = rest.split_first() {
            if named.name.as_slice() == name {
                return Some(named.bytes.as_slice());
            }
            rest = more;
        }
        None
    }
}
