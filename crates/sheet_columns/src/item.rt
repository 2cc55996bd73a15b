// The items that a workbook's content is read through, and sets of them.
ghost use Rattle.std.specs.Prelude.{◌≡◌, ◌<◌, [], length, IfOk, OnErr, not, slice_get, Some};
ghost use Rattle.sheet_values.specs.Sorted.{IsRising, contains, insert};
ghost use Rattle.sheet_columns.specs.ItemOrder.{kind_rank as kind_rank_of, object_of, column_of, item_cmp, item_total, item_same};

use sheet_values::{NoMemory, Ordered, Spot, find_spot};
use std::alloc::Global;
use std::cmp::Ordering;
use std::marker::Model;

/// What a workbook's content is read through. Items are ordered by kind as here, then by object, then by column.
#[derive(Clone, Copy, Debug, PartialEq, Eq)]
pub enum Item {
    /// The column of an object, or nothing where it isn't live.
    Live(u64),
    /// The parent of an object, or nothing for the root and where it isn't live.
    Up(u64),
    /// The objects of a column whose parent is the object.
    Extent(u64, u32),
    /// The set in a state cell.
    Stored(u64, u32),
}

impl Item {
    fn kind_rank(&self) -> u8
        ensures { result ≡ kind_rank_of self.now }
    {
        match self {
            Item::Live(_) => 0,
            Item::Up(_) => 1,
            Item::Extent(_, _) => 2,
            Item::Stored(_, _) => 3,
        }
    }

    fn object(&self) -> u64
        ensures { result ≡ object_of self.now }
    {
        match self {
            Item::Live(object) | Item::Up(object) => *object,
            Item::Extent(object, _) | Item::Stored(object, _) => *object,
        }
    }

    fn column(&self) -> u32
        ensures { result ≡ column_of self.now }
    {
        match self {
            Item::Live(_) | Item::Up(_) => 0,
            Item::Extent(_, column) | Item::Stored(_, column) => *column,
        }
    }
}

impl Ordered for Item {
    ghost order = { item_cmp };

    /// Where this stands against `other`.
    fn compare(&self, other: &Item) -> Ordering {
        let by_object = self.object().cmp(&other.object());
        let by_column = self.column().cmp(&other.column());
        self.kind_rank()
            .cmp(&other.kind_rank())
            .then(by_object.then(by_column))
    }

    ghost total = { item_total };

    ghost same = { item_same };
}

/// A set of items, seen as a list in rising order without doubles.
#[derive(Debug, Drop)]
pub struct Items {
    items: Vec<Item>,
}

impl Model for Items {
    ghost use Rattle.std.specs.Prelude.{List};
    ghost use Rattle.sheet_values.specs.Sorted.{IsRising};
    ghost use Rattle.sheet_columns.specs.declared.item.Item.{Item as TheItem};
    ghost use Rattle.sheet_columns.specs.ItemOrder.{item_cmp};

    ghost Value = { List TheItem };

    ghost view = { λ s. s.items.items };

    ghost invariant = { λ s. IsRising item_cmp s.items.items };
}

impl Items {
    /// The set of nothing, which grows by that allocator. It takes no memory.
    pub fn new(alloc: Global) -> Items
        ensures { result ≡ [] }
    {
        Items {
            items: Vec::new(alloc),
        }
    }

    /// Puts an item in its place; true where it is new. Nothing changes after the refusal.
    pub fn insert(&mut self, item: Item) -> Result<bool, NoMemory>
        ensures set { IfOk result (λ _. self.new ≡ insert item_cmp item self.old) }
        ensures is_new { IfOk result (λ new. new ≡ not (contains item_cmp item self.old)) }
        ensures err { OnErr result (self.new ≡ self.old) }
    {
        match find_spot(self.items.as_slice(), &item) {
            Spot::Here(_) => Ok(false),
            Spot::Before(k) => {
                self.items.insert(k, item)?;
                Ok(true)
            }
        }
    }

    /// Whether the item is one of the set's.
    pub fn contains(&self, item: &Item) -> bool
        ensures { result ≡ contains item_cmp item.now self.now }
    {
        match find_spot(self.items.as_slice(), item) {
            Spot::Here(_) => true,
            Spot::Before(_) => false,
        }
    }

    /// How many items there are.
    pub fn len(&self) -> usize
        ensures len { result ≡ length self.now }
        ensures rising { IsRising item_cmp self.now }
    {
        self.items.len()
    }

    /// The item at that index.
    pub fn at(&self, k: usize) -> &Item
        requires { k < length self.now }
        ensures { slice_get self.now k ≡ Some result.now }
    {
        &self.items[k]
    }

    /// All of them, in order.
    pub fn as_slice(&self) -> &[Item]
        ensures items { result.now ≡ self.now }
        ensures rising { IsRising item_cmp result.now }
    {
        self.items.as_slice()
    }
}
