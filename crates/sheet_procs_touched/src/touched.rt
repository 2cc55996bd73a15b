// Sets of state cells.
ghost use Rattle.std.specs.Prelude.{◌≡◌, ◌<◌, ◌&&◌, [], ◌∷◌, OnOk, OnErr, length};
ghost use Rattle.sheet_columns.specs.Cells.{is_cell};
ghost use Rattle.sheet_columns.specs.Tree.{column_of, above_of, is_number};
ghost use Rattle.sheet_meaning.specs.WellFormed.{IsWellFormed, unfilled};
ghost use Rattle.sheet_state.specs.Stored.{book};
ghost use Rattle.sheet_procs_touched.specs.Touched.{Adds, Covers, is_new, is_named, holds_one, is_open};

use sheet_columns::{Column, Columns, Item, Items};
use sheet_state::State;
use sheet_values::NoMemory;
use std::alloc::Global;
use std::collections::BTreeSet;
use std::marker::Model;

/// State cells, each an object and a column, in order by object, then by column.
#[derive(Drop)]
pub struct Touched {
    cells: BTreeSet<(u64, u32)>,
}

impl Model for Touched {
    ghost use Rattle.std.specs.Prelude.{List};
    ghost use Rattle.sheet_columns.specs.Cells.{Cell};
    ghost use Rattle.sheet_values.specs.Sorted.{IsRising};
    ghost use Rattle.sheet_procs_touched.specs.Touched.{cell_cmp};

    ghost Value = { List Cell };

    ghost view = { λ t. t.cells.keys };

    ghost invariant = { λ t. IsRising cell_cmp t.cells.keys };
}

impl Touched {
    /// No cells. It takes no memory.
    pub fn new(alloc: Global) -> Touched
        ensures { result ≡ [] }
    {
        Touched {
            cells: BTreeSet::new(alloc),
        }
    }

    /// Adds a cell. Where memory is refused, nothing changes.
    pub fn add(&mut self, object: u64, column: u32) -> Result<(), NoMemory>
        ensures ok { OnOk result (Adds (is_cell (object, column)) self.old self.new) }
        ensures err { OnErr result (self.new ≡ self.old) }
    {
        match self.cells.insert((object, column)) {
            Ok(_) => Ok(()),
            Err(_) => Err(NoMemory),
        }
    }

    /// Adds the cells of a new object of a column that must hold exactly one value. Where memory is refused, some may be added.
    pub fn add_new(&mut self, columns: &Columns, object: u64, column: u32) -> Result<(), NoMemory>
        ensures { OnOk result (Adds (is_new columns.now object column) self.old self.new) }
    {
        for number in 0..columns.count() {
            if must_hold_one(columns, column, number) {
                self.add(object, number)?;
            }
        }
        Ok(())
    }

    /// Adds the state cells that are among items. Where memory is refused, some may be added.
    pub fn add_named(&mut self, items: &Items) -> Result<(), NoMemory>
        ensures { OnOk result (Adds (is_named items.now) self.old self.new) }
    {
        for item in items.as_slice() {
            self.add_item(item)?;
        }
        Ok(())
    }

    // Adds the cell of an item, where it is one of a state cell.
    fn add_item(&mut self, item: &Item) -> Result<(), NoMemory>
        ensures { OnOk result (Adds (is_named (item.now ∷ [])) self.old self.new) }
    {
        match item {
            Item::Stored(object, column) => self.add(*object, *column),
            _ => Ok(()),
        }
    }

    /// The first of these cells, by object, then by column, that must hold exactly one value and doesn't, which is the first of
    /// all cells that do so; none where there is none. It takes no memory.
    pub fn first_unfilled(self, columns: &Columns, state: &State) -> Option<(u64, u32)>
        requires formed { IsWellFormed (book columns.now state.now.present.state) }
        requires covered { Covers (book columns.now state.now.present.state) self }
        ensures { result ≡ unfilled (book columns.now state.now.present.state) }
    {
        let mut cells = self.cells;
        while let Some(cell) = cells.pop_first() {
            if is_unfilled(columns, state, cell.0, cell.1) {
                return Some(cell);
            }
        }
        None
    }
}

// Whether the cells of a column must hold exactly one value, and it stands directly under that other one.
fn must_hold_one(columns: &Columns, above: u32, column: u32) -> bool
    ensures { result ≡ (holds_one (column_of columns.now column) && is_number above (above_of columns.now column)) }
{
    if column >= columns.count() {
        return false;
    }
    if column == 0 {
        return false;
    }
    match columns.get(column) {
        Column::State {
            kind: _,
            one,
            first: _,
        } => *one && above == columns.above(column),
        _ => false,
    }
}

// Whether a cell must hold exactly one value, and doesn't.
fn is_unfilled(columns: &Columns, state: &State, object: u64, column: u32) -> bool
    requires formed { IsWellFormed (book columns.now state.now.present.state) }
    ensures { result ≡ is_open (book columns.now state.now.present.state) (object, column) }
{
    match state.column_of(object) {
        Some(above) => {
            must_hold_one(columns, above, column) && state.cell(object, column).len() != 1
        }
        None => false,
    }
}
