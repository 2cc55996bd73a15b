// All rows, and the way back from an edit.
ghost use Rattle.std.specs.Prelude.{◌≡◌, ◌<◌, length, not, slice_set, OnOk, OnErr, IfOk, false, filter};
ghost use Rattle.sheet_values.specs.Sets.{contains};
ghost use Rattle.sheet_values.specs.declared.value.Value.TheVariants.{Object};
ghost use Rattle.sheet_state_rows.specs.declared.row.ObjectRow.{ObjectRow as AnObject};
ghost use Rattle.sheet_state_rows.specs.declared.row.SetRow.{SetRow as ASet};
ghost use Rattle.sheet_state_rows.specs.Rows.{set_row, joined, parted};
ghost use Rattle.sheet_state_rows.specs.Seen.{seen};
ghost use Rattle.sheet_state_rows.specs.Undoing.{undone, CanUndo};

use crate::edit::Edit;
use crate::{Counters, ObjectRow, SetRow};
use sheet_values::{NoMemory, Value};

/// All rows and counters at one time.
#[derive(Debug, Drop)]
pub struct Rows {
    pub objects: Vec<ObjectRow>,
    pub cells: Vec<SetRow>,
    pub extents: Vec<SetRow>,
    pub counters: Counters,
}

impl Rows {
    /// Takes an edit back. It takes no memory.
    pub fn take_back(&mut self, edit: Edit)
        requires { CanUndo edit (seen self.old) }
        ensures { seen self.new ≡ undone edit (seen self.old) }
    {
        match edit {
            Edit::Begun(counters) => self.counters = counters,
            Edit::ObjectAdded => {
                self.objects.pop();
            }
            Edit::ObjectReplaced(place, row) => self.objects[place] = row,
            Edit::CellAdded => {
                self.cells.pop();
            }
            Edit::CellReplaced(place, row) => self.cells[place] = row,
            Edit::ExtentAdded => {
                self.extents.pop();
            }
            Edit::ExtentReplaced(place, row) => self.extents[place] = row,
            Edit::ExtentJoined(place, object) => part(&mut self.extents, place, object),
        }
    }
}

/// Puts an object into the set of the row at a place; true where it is new. Nothing changes after the refusal.
pub fn join(rows: &mut Vec<SetRow>, place: usize, object: u64) -> Result<bool, NoMemory>
    requires { place < length rows.old.items }
    ensures rows { OnOk result (rows.new.items ≡ slice_set rows.old.items place (joined object (set_row rows.old.items place))) }
    ensures is_new { IfOk result (λ new. new ≡ not (contains (Object object) (set_row rows.old.items place).set)) }
    ensures unchanged { IfOk result (λ new. new ≡ false → rows.new.items ≡ rows.old.items) }
    ensures err { OnErr result (rows.new.items ≡ rows.old.items) }
{
    rows[place].set.insert(Value::Object(object))
}

// Takes an object out of the set of the row at a place.
fn part(rows: &mut Vec<SetRow>, place: usize, object: u64)
    requires { place < length rows.old.items }
    ensures { rows.new.items ≡ slice_set rows.old.items place (parted object (set_row rows.old.items place)) }
{
    rows[place].set.remove(&Value::Object(object));
}

/// Drops the rows of the objects that are gone. It takes no memory.
pub fn keep_live_objects(rows: &mut Vec<ObjectRow>)
    ensures { rows.new.items ≡ filter (λ (r : AnObject). r.live) rows.old.items }
{
    rows.retain(|row| row.live);
}

/// Drops the rows of sets whose objects are gone. It takes no memory.
pub fn keep_live_sets(rows: &mut Vec<SetRow>)
    ensures { rows.new.items ≡ filter (λ (r : ASet). r.live) rows.old.items }
{
    rows.retain(|row| row.live);
}
