// Edits of rows, each with what takes it back.
ghost use Rattle.std.specs.Prelude.{◌≡◌};
ghost use Rattle.sheet_state_rows.specs.Undoing.{begins};

use crate::{Counters, ObjectRow, SetRow};

/// What was done to the rows.
#[derive(Debug, Drop)]
pub enum Edit {
    /// A change began; the counters at that time.
    Begun(Counters),
    /// An object's row came at the end.
    ObjectAdded,
    /// At this place stood that row.
    ObjectReplaced(usize, ObjectRow),
    /// A state cell's row came at the end.
    CellAdded,
    /// At this place stood that row.
    CellReplaced(usize, SetRow),
    /// An extent's row came at the end.
    ExtentAdded,
    /// At this place stood that row.
    ExtentReplaced(usize, SetRow),
    /// That object, which it lacked, came into the extent at this place.
    ExtentJoined(usize, u64),
}

impl Edit {
    /// How many changes begin with it: 1 or 0.
    pub fn begins(&self) -> usize
        ensures { result ≡ begins self.now }
    {
        match self {
            Edit::Begun(_) => 1,
            _ => 0,
        }
    }
}
