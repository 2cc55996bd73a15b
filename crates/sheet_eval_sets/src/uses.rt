// What an evaluation used so far.
ghost use Rattle.std.specs.Prelude.{◌≡◌, [], ◌∷◌, map, true, false, OnOk};
ghost use Rattle.std.specs.List.{AllByRecursion};
ghost use Rattle.sheet_columns.specs.Cells.{has_cell, with_cell, with_cells};
ghost use Rattle.sheet_values.specs.Sorted.{insert};
ghost use Rattle.sheet_columns.specs.ItemOrder.{item_cmp};
ghost use Rattle.sheet_eval_sets.specs.Keys.{key_of as the_key_of, item_of as the_item_of, IsKey};
ghost use Rattle.sheet_eval_sets.specs.Noted.{note_item, note_cell, with_items, first_of, others_of};

use sheet_columns::{Cells, Item, Items, Reads};
use sheet_values::NoMemory;
use std::alloc::Global;
use std::collections::BTreeSet;
use std::marker::Model;

/// The formula cells that were used, in the order of first use, and the items, where these are noted. The first cell stands apart: most
/// evaluations use none or one, and then nothing is made for them.
#[derive(Drop)]
pub struct Uses {
    items: Option<BTreeSet<(u8, u64, u32)>>,
    first: Option<(u64, u32)>,
    others: Cells,
}

impl Model for Uses {
    ghost use Rattle.sheet_eval_sets.specs.Keys.{keys_noted, AreKeys, items_noted};
    ghost use Rattle.sheet_eval_sets.specs.Noted.{Noted, cells_of, AreOthers};

    ghost Value = { Noted };

    ghost view = { λ u. record { heeds_items = keys_noted u.items; items = items_noted u.items; cells = cells_of u.first u.others } };

    ghost invariant = { λ u. AreKeys u.items × AreOthers u.first u.others };
}

impl Uses {
    /// Nothing used. It takes no memory.
    pub fn new(alloc: Global) -> Uses
        ensures { result ≡ record { heeds_items = true; items = []; cells = [] } }
    {
        Uses {
            items: Some(BTreeSet::new(alloc)),
            first: None,
            others: Cells::new(alloc),
        }
    }

    /// Nothing used, for the formula cells alone: items aren't noted. It takes no memory.
    pub fn of_cells(alloc: Global) -> Uses
        ensures { result ≡ record { heeds_items = false; items = []; cells = [] } }
    {
        Uses {
            items: None,
            first: None,
            others: Cells::new(alloc),
        }
    }

    /// Notes that the content of an item is used, where items are noted.
    pub fn add_item(&mut self, item: Item) -> Result<(), NoMemory>
        ensures { OnOk result (self.new ≡ note_item self.old item) }
    {
        match &mut self.items {
            Some(keys) => add_key(keys, item),
            None => Ok(()),
        }
    }

    /// Notes that the result of a formula cell is used.
    pub fn add_cell(&mut self, object: u64, column: u32) -> Result<(), NoMemory>
        ensures { OnOk result (self.new ≡ note_cell self.old (object, column)) }
    {
        match self.first {
            None => {
                self.first = Some((object, column));
                Ok(())
            }
            Some(first) => add_other(first, &mut self.others, (object, column)),
        }
    }

    /// The formula cell that was used first.
    pub fn first_cell(&self) -> Option<(u64, u32)>
        ensures { result ≡ first_of self.now.cells }
    {
        self.first
    }

    /// The formula cells that were used, behind the first.
    pub fn other_cells(&self) -> &Cells
        ensures { result.now ≡ others_of self.now.cells }
    {
        &self.others
    }

    /// Adds all that was used to what was read, of items those that were noted. Where memory is refused, what was read may have gained a
    /// part of it.
    pub fn tell(self, reads: &mut Reads) -> Result<(), NoMemory>
        ensures items { OnOk result (reads.new.items ≡ with_items reads.old.items self.items) }
        ensures cells { OnOk result (reads.new.cells ≡ with_cells reads.old.cells self.cells) }
    {
        let Uses {
            items,
            first,
            others,
        } = self;
        if let Some(keys) = items {
            tell_items(keys, &mut reads.items)?;
        }
        if let Some(cell) = first {
            reads.cells.push(cell)?;
        }
        tell_cells(&others, &mut reads.cells)?;
        Ok(())
    }
}

fn key_of(item: Item) -> (u8, u64, u32)
    ensures { result ≡ the_key_of item }
{
    match item {
        Item::Live(object) => (0, object, 0),
        Item::Up(object) => (1, object, 0),
        Item::Extent(object, column) => (2, object, column),
        Item::Stored(object, column) => (3, object, column),
    }
}

fn item_of(key: (u8, u64, u32)) -> Item
    ensures { result ≡ the_item_of key }
{
    let (kind, object, column) = key;
    if kind == 0 {
        Item::Live(object)
    } else if kind == 1 {
        Item::Up(object)
    } else if kind == 2 {
        Item::Extent(object, column)
    } else {
        Item::Stored(object, column)
    }
}

fn add_key(keys: &mut BTreeSet<(u8, u64, u32)>, item: Item) -> Result<(), NoMemory>
    requires { AllByRecursion IsKey keys.old.keys }
    ensures items { OnOk result (map the_item_of keys.new.keys ≡ insert item_cmp item (map the_item_of keys.old.keys)) }
    ensures keys { AllByRecursion IsKey keys.new.keys }
{
    let key = key_of(item);
    match keys.insert(key) {
        Ok(_) => Ok(()),
        Err(_) => Err(NoMemory),
    }
}

// One cell more behind the first, unless it is among them.
fn add_other(first: (u64, u32), others: &mut Cells, cell: (u64, u32)) -> Result<(), NoMemory>
    requires { has_cell others.old first ≡ false }
    ensures cells { OnOk result (first ∷ others.new ≡ with_cell (first ∷ others.old) cell) }
    ensures apart { has_cell others.new first ≡ false }
{
    if first == cell {
        return Ok(());
    }
    others.push(cell)
}

fn tell_items(keys: BTreeSet<(u8, u64, u32)>, items: &mut Items) -> Result<(), NoMemory>
    ensures { OnOk result (items.new ≡ with_items items.old (map the_item_of keys.keys)) }
{
    let mut keys = keys;
    while let Some(key) = keys.pop_first() {
        items.insert(item_of(key))?;
    }
    Ok(())
}

fn tell_cells(cells: &Cells, all: &mut Cells) -> Result<(), NoMemory>
    ensures { OnOk result (all.new ≡ with_cells all.old cells.now) }
{
    for k in 0..cells.len() {
        all.push(cells.at(k))?;
    }
    Ok(())
}
