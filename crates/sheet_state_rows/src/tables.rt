// Rows that can be taken back to what they were when a change began.
ghost use Rattle.std.specs.Prelude.{◌≡◌, ◌<◌, ◌≤◌, ◌++◌, [], ◌∷◌, length, take, slice_get, slice_set, slice_index_or, Some, OnOk, OnErr, IfOk};
ghost use Rattle.sheet_state_rows.specs.Rows.{with_objects, with_cells, with_extents, with_counters, set_row, joined, only_live};

use crate::edit::Edit;
use crate::rows::{Rows, join, keep_live_objects, keep_live_sets};
use crate::{Counters, ObjectRow, SetRow};
use sheet_values::NoMemory;
use std::alloc::Global;
use std::marker::Model;
use std::mem;

/// The rows of a workbook's objects, state cells and extents, with its counters. They are seen as they are, and as they were
/// when each change began that can still be undone. What an edit needs to be taken back is taken beforehand, so that nothing
/// can fail on the way back.
#[derive(Debug, Drop)]
pub struct Tables {
    rows: Rows,
    edits: Vec<Edit>,
    begun: usize,
}

impl Model for Tables {
    ghost use Rattle.std.specs.Prelude.{◌≡◌, length, reverse};
    ghost use Rattle.sheet_state_rows.specs.Rows.{Versions};
    ghost use Rattle.sheet_state_rows.specs.Seen.{seen};
    ghost use Rattle.sheet_state_rows.specs.Undoing.{CanUndoAll, past};

    ghost Value = { Versions };

    ghost view = { λ t. record { present = seen t.rows; earlier = past (reverse t.edits.items) (seen t.rows) } };

    ghost invariant = { λ t. CanUndoAll (reverse t.edits.items) (seen t.rows) × (t.begun ≡ length (past (reverse t.edits.items) (seen t.rows))) };
}

impl Tables {
    /// No rows. It takes no memory.
    pub fn new(alloc: Global, counters: Counters) -> Tables
        ensures { result ≡ record { present = record { objects = []; cells = []; extents = []; counters = counters }; earlier = [] } }
    {
        Tables {
            rows: Rows {
                objects: Vec::new(alloc),
                cells: Vec::new(alloc),
                extents: Vec::new(alloc),
                counters,
            },
            edits: Vec::new(alloc),
            begun: 0,
        }
    }

    /// The rows of the objects, in the order of their coming.
    pub fn objects(&self) -> &[ObjectRow]
        ensures { result.now ≡ self.now.present.objects }
    {
        self.rows.objects.as_slice()
    }

    /// The rows of the state cells, in the order of their coming.
    pub fn cells(&self) -> &[SetRow]
        ensures { result.now ≡ self.now.present.cells }
    {
        self.rows.cells.as_slice()
    }

    /// The rows of the extents, in the order of their coming.
    pub fn extents(&self) -> &[SetRow]
        ensures { result.now ≡ self.now.present.extents }
    {
        self.rows.extents.as_slice()
    }

    /// The counters.
    pub fn counters(&self) -> Counters
        ensures { result ≡ self.now.present.counters }
    {
        self.rows.counters
    }

    /// How many changes can be undone: the mark of this time.
    pub fn mark(&self) -> usize
        ensures { result ≡ length self.now.earlier }
    {
        self.begun
    }

    /// Begins a change. Nothing changes after the refusal.
    pub fn begin(&mut self) -> Result<(), NoMemory>
        ensures present { self.new.present ≡ self.old.present }
        ensures ok { OnOk result (self.new.earlier ≡ self.old.earlier ++ self.old.present ∷ []) }
        ensures err { OnErr result (self.new.earlier ≡ self.old.earlier) }
    {
        self.edits.push(Edit::Begun(self.rows.counters))?;
        let edits = self.edits.as_slice().len();
        let is_counted = self.begun < edits;
        prove!(is_counted);
        self.begun += 1;
        Ok(())
    }

    /// Puts an object's row at the end. Nothing changes after the refusal.
    pub fn add_object(&mut self, row: ObjectRow) -> Result<(), NoMemory>
        ensures ok { OnOk result (self.new.present ≡ with_objects self.old.present (self.old.present.objects ++ row ∷ [])) }
        ensures err { OnErr result (self.new.present ≡ self.old.present) }
        ensures earlier { self.new.earlier ≡ self.old.earlier }
    {
        self.edits.reserve(1)?;
        self.rows.objects.push(row)?;
        self.edits.push_reserved(Edit::ObjectAdded);
        Ok(())
    }

    /// Puts a state cell's row at the end. Nothing changes after the refusal.
    pub fn add_cell(&mut self, row: SetRow) -> Result<(), NoMemory>
        ensures ok { OnOk result (self.new.present ≡ with_cells self.old.present (self.old.present.cells ++ row ∷ [])) }
        ensures err { OnErr result (self.new.present ≡ self.old.present) }
        ensures earlier { self.new.earlier ≡ self.old.earlier }
    {
        self.edits.reserve(1)?;
        self.rows.cells.push(row)?;
        self.edits.push_reserved(Edit::CellAdded);
        Ok(())
    }

    /// Puts an extent's row at the end. Nothing changes after the refusal.
    pub fn add_extent(&mut self, row: SetRow) -> Result<(), NoMemory>
        ensures ok { OnOk result (self.new.present ≡ with_extents self.old.present (self.old.present.extents ++ row ∷ [])) }
        ensures err { OnErr result (self.new.present ≡ self.old.present) }
        ensures earlier { self.new.earlier ≡ self.old.earlier }
    {
        self.edits.reserve(1)?;
        self.rows.extents.push(row)?;
        self.edits.push_reserved(Edit::ExtentAdded);
        Ok(())
    }

    /// Puts another row in the place of an object's. Nothing changes after the refusal.
    pub fn replace_object(&mut self, place: usize, row: ObjectRow) -> Result<(), NoMemory>
        requires { place < length self.old.present.objects }
        ensures ok { OnOk result (self.new.present ≡ with_objects self.old.present (slice_set self.old.present.objects place row)) }
        ensures err { OnErr result (self.new.present ≡ self.old.present) }
        ensures earlier { self.new.earlier ≡ self.old.earlier }
    {
        self.edits.reserve(1)?;
        let old = exchange(&mut self.rows.objects, place, row);
        self.edits.push_reserved(Edit::ObjectReplaced(place, old));
        Ok(())
    }

    /// Puts another row in the place of a state cell's. Nothing changes after the refusal.
    pub fn replace_cell(&mut self, place: usize, row: SetRow) -> Result<(), NoMemory>
        requires { place < length self.old.present.cells }
        ensures ok { OnOk result (self.new.present ≡ with_cells self.old.present (slice_set self.old.present.cells place row)) }
        ensures err { OnErr result (self.new.present ≡ self.old.present) }
        ensures earlier { self.new.earlier ≡ self.old.earlier }
    {
        self.edits.reserve(1)?;
        let old = exchange(&mut self.rows.cells, place, row);
        self.edits.push_reserved(Edit::CellReplaced(place, old));
        Ok(())
    }

    /// Puts another row in the place of an extent's. Nothing changes after the refusal.
    pub fn replace_extent(&mut self, place: usize, row: SetRow) -> Result<(), NoMemory>
        requires { place < length self.old.present.extents }
        ensures ok { OnOk result (self.new.present ≡ with_extents self.old.present (slice_set self.old.present.extents place row)) }
        ensures err { OnErr result (self.new.present ≡ self.old.present) }
        ensures earlier { self.new.earlier ≡ self.old.earlier }
    {
        self.edits.reserve(1)?;
        let old = exchange(&mut self.rows.extents, place, row);
        self.edits.push_reserved(Edit::ExtentReplaced(place, old));
        Ok(())
    }

    /// Puts an object into the set of the extent at a place. Nothing changes after the refusal.
    pub fn join_extent(&mut self, place: usize, object: u64) -> Result<(), NoMemory>
        requires { place < length self.old.present.extents }
        ensures ok { OnOk result (self.new.present ≡ with_extents self.old.present (slice_set self.old.present.extents place (joined object (set_row self.old.present.extents place)))) }
        ensures err { OnErr result (self.new.present ≡ self.old.present) }
        ensures earlier { self.new.earlier ≡ self.old.earlier }
    {
        self.edits.reserve(1)?;
        if join(&mut self.rows.extents, place, object)? {
            self.edits.push_reserved(Edit::ExtentJoined(place, object));
            Ok(())
        } else {
            Ok(())
        }
    }

    /// Sets the counters. It takes no memory.
    pub fn count(&mut self, counters: Counters)
        ensures present { self.new.present ≡ with_counters self.old.present counters }
        ensures earlier { self.new.earlier ≡ self.old.earlier }
    {
        self.rows.counters = counters;
    }

    /// Takes the rows and counters back to what they were at the mark. It takes no memory.
    pub fn undo_to(&mut self, mark: usize)
        requires { mark ≤ length self.old.earlier }
        ensures present { slice_get (self.old.earlier ++ self.old.present ∷ []) mark ≡ Some self.new.present }
        ensures earlier { self.new.earlier ≡ take mark self.old.earlier }
    {
        while self.begun > mark {
            match self.edits.pop() {
                Some(edit) => {
                    self.begun -= edit.begins();
                    self.rows.take_back(edit);
                }
                None => unreachable!(),
            }
        }
    }

    /// Drops what the way back needs. Nothing can be undone any more. It takes no memory.
    pub fn forget(&mut self)
        ensures present { self.new.present ≡ self.old.present }
        ensures earlier { self.new.earlier ≡ [] }
    {
        self.edits.clear();
        self.begun = 0;
    }

    /// Drops what the way back needs, and all rows of what is gone. Nothing can be undone any more. It takes no memory.
    pub fn compact(&mut self)
        ensures present { self.new.present ≡ only_live self.old.present }
        ensures earlier { self.new.earlier ≡ [] }
    {
        keep_live_objects(&mut self.rows.objects);
        keep_live_sets(&mut self.rows.cells);
        keep_live_sets(&mut self.rows.extents);
        self.edits.clear();
        self.begun = 0;
    }
}

// Puts another row in a place, and gives the one that stood there.
fn exchange<T>(rows: &mut Vec<T>, place: usize, row: T) -> T
    requires { place < length rows.old.items }
    ensures rows { rows.new.items ≡ slice_set rows.old.items place row }
    ensures old { result ≡ slice_index_or rows.old.items place result }
{
    mem::replace(&mut rows[place], row)
}
