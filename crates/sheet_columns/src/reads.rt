// What an evaluation read.
ghost use Rattle.std.specs.Prelude.{◌≡◌, []};

use crate::{Cells, Items};
use std::alloc::Global;

/// Items, and formula cells in the order of first use.
#[derive(Drop)]
pub struct Reads {
    pub items: Items,
    pub cells: Cells,
}

impl Reads {
    /// Nothing read. It takes no memory.
    pub fn new(alloc: Global) -> Reads
        ensures items { result.items ≡ [] }
        ensures cells { result.cells ≡ [] }
    {
        Reads {
            items: Items::new(alloc),
            cells: Cells::new(alloc),
        }
    }
}
