// The state of a workbook.
ghost use Rattle.std.specs.Prelude.{◌≡◌, ℕ, List, ◌<◌, ◌≤◌, ◌+◌, ◌++◌, [], ◌∷◌, length, take, slice_get, slice_set, Some, None, IsSome, is_some, false, OnOk, OnErr, IfOk, IfErr, IfSome, MatchOption};
ghost use Rattle.sheet_columns.specs.Tree.{column_of, above_of};
ghost use Rattle.sheet_columns.specs.declared.tree.Node.{Node};
ghost use Rattle.sheet_columns.specs.declared.tree.Column.TheVariants.{Object as object_column};
ghost use Rattle.sheet_columns.specs.declared.item.Item.TheVariants.{Stored};
ghost use Rattle.sheet_state_rows.specs.Rows.{with_cells, with_counters, set_row};
ghost use Rattle.sheet_values.specs.Sets.{contains};
ghost use Rattle.sheet_values.specs.declared.value.Value.TheVariants.{Object};
ghost use Rattle.sheet_state.specs.Removals.{without_all, AreLive, AddsLive};
ghost use Rattle.sheet_values.specs.Sorted.{IsRising};
ghost use Rattle.sheet_meaning.specs.Start.{start_state};
ghost use Rattle.sheet_meaning.specs.Changes.{with_set, with_object, without_object};
ghost use Rattle.sheet_meaning.specs.Workbook.{object_at, column_in, parent_in, children_in, set_in};
ghost use Rattle.sheet_meaning.specs.WellFormed.{HoldsKind};
ghost use Rattle.sheet_state.specs.Births.{born, born_items, live_row, set_at};
ghost use Rattle.sheet_state.specs.Deaths.{buried, swept, rid_of, rid_items};
ghost use Rattle.sheet_state.specs.Stored.{IsStored, AreChanged, schema_of, book};
ghost use Rattle.sheet_state.specs.Places.{Covers, IsListed};
ghost use Rattle.sheet_state_references.specs.declared.references.Reference.{Reference};
ghost use Rattle.sheet_state.specs.Rows.{IsSound, moment, objects_in, cells_in, object_cmp, row_cmp};
ghost use Rattle.sheet_state.specs.Limits.{full_of, first_full, Refuses};

use crate::StateRefusal;
use crate::birth::{add_rows, weight_of};
use crate::death::be_rid_of;
use crate::lookup::{is_live, parent_of, row_of, set_place};
use crate::places::{Places, places_of};
use sheet_columns::{Columns, Item, Items};
use sheet_meaning::Which;
use sheet_state_references::{References, families_of};
use sheet_state_rows::{Counters, ObjectRow, SetRow, Tables};
use sheet_values::{NoMemory, Set, Value};
use std::alloc::Global;
use std::collections::BTreeSet;
use std::marker::Model;

const MAX_OBJECTS: u64 = 100_000;

const MAX_CELLS: u64 = 1_000_000;

const MAX_VALUES: u64 = 1_000_000;

const MAX_NUMBER: u64 = 1_000_000_000_000;

/// A time that a state can be taken back to.
#[derive(Clone, Copy, Debug, PartialEq, Eq)]
pub struct Mark {
    place: usize,
}

/// The objects and stored sets of a workbook.
#[derive(Debug, Drop)]
pub struct State {
    tables: Tables,
    references: References,
    nothing: Set,
    alloc: Global,
}

impl Model for State {
    ghost use Rattle.std.specs.Prelude.{◌≡◌, [], map};
    ghost use Rattle.std.specs.List.{AllByRecursion};
    ghost use Rattle.sheet_state.specs.Stored.{Stored};
    ghost use Rattle.sheet_state.specs.Places.{IsListed};
    ghost use Rattle.sheet_state.specs.Rows.{moment, IsSound};

    ghost Value = { Stored };

    ghost view = { λ s. record { present = moment s.tables.present; earlier = map moment s.tables.earlier } };

    ghost invariant = { λ s. IsSound s.tables.present × AllByRecursion IsSound s.tables.earlier × (s.nothing ≡ []) × IsListed s.references s.tables.present × AllByRecursion (IsListed s.references) s.tables.earlier };
}

impl State {
    /// The root alone, with the first values of its state cells. Every later call takes the same columns.
    pub fn new(alloc: Global, columns: &Columns) -> Result<State, NoMemory>
        ensures state { IfOk result (λ s. s.present.state ≡ start_state (schema_of columns.now)) }
        ensures earlier { IfOk result (λ s. s.earlier ≡ []) }
        ensures kept { IfOk result (λ s. IsStored columns.now s) }
    {
        let weight = weight_of(columns, 0);
        let counters = Counters {
            next: 1,
            objects: 1,
            cells: weight.0,
            values: weight.1,
        };
        let mut tables = Tables::new(alloc, counters);
        let mut items = Items::new(alloc);
        tables.add_object(ObjectRow {
            number: 0,
            column: 0,
            parent: None,
            live: true,
        })?;
        add_rows(alloc, &mut tables, columns, 0, 0, &mut items)?;
        tables.forget();
        Ok(State {
            tables,
            references: References::new(alloc),
            nothing: Set::empty(alloc),
            alloc,
        })
    }

    /// Puts a set into a state cell of a live object.
    pub fn set_cell(
        &mut self,
        columns: &Columns,
        object: u64,
        column: u32,
        set: Set,
    ) -> Result<Items, StateRefusal>
        requires kept { IsStored columns.now self.old }
        requires live { IsSome (object_at self.old.present.state.objects object) }
        requires under { column_in (object_at self.old.present.state.objects object) ≡ above_of columns.now column }
        requires typed { HoldsKind self.old.present.state (record { object = object; column = column; set = set }) (column_of columns.now column) }
        ensures state { OnOk result (self.new.present.state ≡ with_set self.old.present.state object column set) }
        ensures changed { IfOk result (λ items. AreChanged self.old.present.state self.new.present.state items) }
        ensures room { OnOk result (first_full (book columns.now (with_set self.old.present.state object column set)) ≡ None) }
        ensures full { IfErr result (Refuses (first_full (book columns.now (with_set self.old.present.state object column set)))) }
        ensures earlier { OnOk result (self.new.earlier ≡ self.old.earlier ++ self.old.present ∷ []) }
        ensures unchanged { OnErr result (self.new ≡ self.old) }
        ensures kept { IsStored columns.now self.new }
    {
        let counters = self.tables.counters();
        let place = match set_place(self.tables.cells(), object, column) {
            Some(place) => place,
            None => unreachable!(),
        };
        let old = &self.tables.cells()[place].set;
        let others = counters.values - old.len() as u64;
        if set.len() as u64 > MAX_VALUES - others {
            return Err(StateRefusal::Full(Which::Values, MAX_VALUES));
        }
        let values = others + set.len() as u64;
        let items = changed_item(self.alloc, old, &set, object, column)?;
        self.references.note_all(&set, object, column)?;
        let row = SetRow {
            object,
            column,
            live: true,
            set,
        };
        put_row(
            &mut self.tables,
            place,
            row,
            Counters { values, ..counters },
        )?;
        Ok(items)
    }

    /// Makes an object of a column under a live object of the column above.
    pub fn new_object(
        &mut self,
        columns: &Columns,
        column: u32,
        parent: u64,
    ) -> Result<(u64, Items), StateRefusal>
        requires kept { IsStored columns.now self.old }
        requires live { IsSome (object_at self.old.present.state.objects parent) }
        requires under { column_in (object_at self.old.present.state.objects parent) ≡ above_of columns.now column }
        requires object_column { column_of columns.now column ≡ Some object_column }
        ensures number { IfOk result (λ made. made.0 ≡ self.old.present.state.next) }
        ensures state { OnOk result (self.new.present.state ≡ with_object (schema_of columns.now) self.old.present.state column parent) }
        ensures changed { IfOk result (λ made. AreChanged self.old.present.state self.new.present.state made.1) }
        ensures room { OnOk result (first_full (book columns.now (with_object (schema_of columns.now) self.old.present.state column parent)) ≡ None) }
        ensures full { IfErr result (Refuses (first_full (book columns.now (with_object (schema_of columns.now) self.old.present.state column parent)))) }
        ensures earlier { OnOk result (self.new.earlier ≡ self.old.earlier ++ self.old.present ∷ []) }
        ensures unchanged { OnErr result (self.new ≡ self.old) }
        ensures kept { IsStored columns.now self.new }
    {
        let counters = self.tables.counters();
        let weight = weight_of(columns, column);
        let after = Counters {
            next: counters.next + 1,
            objects: counters.objects + 1,
            cells: counters.cells + weight.0,
            values: counters.values + weight.1,
        };
        if let Some(refusal) = over(&after) {
            return Err(refusal);
        }
        let place = match set_place(self.tables.extents(), parent, column) {
            Some(place) => place,
            None => unreachable!(),
        };
        let items = create(
            self.alloc,
            &mut self.tables,
            columns,
            column,
            parent,
            place,
            after,
        )?;
        Ok((counters.next, items))
    }

    /// Takes a live object other than the root away, with every object below it, and every reference to them out of all state
    /// cells; the items whose content this changed. Nothing changes after the refusal.
    pub fn delete(&mut self, columns: &Columns, object: u64) -> Result<Items, NoMemory>
        requires kept { IsStored columns.now self.old }
        requires live { IsSome (object_at self.old.present.state.objects object) }
        requires not_root { 0 < object }
        ensures state { OnOk result (self.new.present.state ≡ without_object self.old.present.state object) }
        ensures changed { IfOk result (λ items. AreChanged self.old.present.state self.new.present.state items) }
        ensures earlier { OnOk result (self.new.earlier ≡ self.old.earlier ++ self.old.present ∷ []) }
        ensures unchanged { OnErr result (self.new ≡ self.old) }
        ensures kept { IsStored columns.now self.new }
    {
        let objects = Set::one(self.alloc, Value::Object(object))?;
        self.delete_all(columns, &objects)
    }

    /// Takes the objects of a set away one after another, each with all below it, where it is still live; the items whose content
    /// this changed. It is one change. Each set of rows that it changes is written once, so it takes time by what goes, what refers
    /// to it, and the lists that it stands in. Nothing changes after the refusal.
    pub fn delete_all(&mut self, columns: &Columns, objects: &Set) -> Result<Items, NoMemory>
        requires kept { IsStored columns.now self.old }
        requires not_root { contains (Object 0) objects.now ≡ false }
        ensures state { OnOk result (self.new.present.state ≡ without_all self.old.present.state objects.now) }
        ensures changed { IfOk result (λ items. AreChanged self.old.present.state self.new.present.state items) }
        ensures earlier { OnOk result (self.new.earlier ≡ self.old.earlier ++ self.old.present ∷ []) }
        ensures unchanged { OnErr result (self.new ≡ self.old) }
        ensures kept { IsStored columns.now self.new }
    {
        let starts = live_of(self.alloc, self.tables.objects(), objects)?;
        let doomed = families_of(self.alloc, self.tables.extents(), starts)?;
        let mut places = places_of(self.alloc, &self.tables, &self.references, &doomed)?;
        let items = take_away(self.alloc, &mut self.tables, columns, &doomed, &mut places)?;
        Ok(items)
    }

    /// The mark of this time. It is good until the state is undone to before it, or forgets.
    pub fn mark(&self) -> Mark
        ensures { result.place ≡ length self.now.earlier }
    {
        Mark {
            place: self.tables.mark(),
        }
    }

    /// Takes the state back to a mark. It takes no memory.
    pub fn undo_to(&mut self, mark: Mark)
        requires good { mark.place ≤ length self.old.earlier }
        ensures state { slice_get (self.old.earlier ++ self.old.present ∷ []) mark.place ≡ Some self.new.present }
        ensures earlier { self.new.earlier ≡ take mark.place self.old.earlier }
        ensures kept { (nodes : List Node) → IsStored nodes self.old → IsStored nodes self.new }
    {
        self.tables.undo_to(mark.place);
    }

    /// Drops what undo keeps, and the rows of gone objects where they are more than half of all. No earlier mark is good any
    /// more. It takes no memory.
    pub fn forget(&mut self)
        ensures state { self.new.present ≡ self.old.present }
        ensures earlier { self.new.earlier ≡ [] }
        ensures kept { (nodes : List Node) → IsStored nodes self.old → IsStored nodes self.new }
    {
        settle(&mut self.tables);
        purge(&mut self.references, &self.tables);
    }

    /// What a state cell holds: nothing where the object isn't live or has no such cell. It takes no memory.
    pub fn cell(&self, object: u64, column: u32) -> &Set
        ensures { result.now ≡ set_in self.now.present.state.cells object column }
    {
        set_or(self.tables.cells(), object, column, &self.nothing)
    }

    /// The objects of a column under an object: none where the object isn't live or has no such column. It takes no memory.
    pub fn children(&self, object: u64, column: u32) -> &Set
        ensures { result.now ≡ children_in self.now.present.state.objects object column }
    {
        set_or(self.tables.extents(), object, column, &self.nothing)
    }

    /// The object above: none for the root and where the object isn't live. It takes no memory.
    pub fn parent(&self, object: u64) -> Option<u64>
        ensures { result ≡ parent_in (object_at self.now.present.state.objects object) }
    {
        parent_of(self.tables.objects(), object)
    }

    /// Whether the object is live. It takes no memory.
    pub fn is_live(&self, object: u64) -> bool
        ensures { result ≡ is_some (column_in (object_at self.now.present.state.objects object)) }
    {
        is_live(self.tables.objects(), object)
    }

    /// The column of an object: none where it isn't live. It takes no memory.
    pub fn column_of(&self, object: u64) -> Option<u32>
        ensures { result ≡ column_in (object_at self.now.present.state.objects object) }
    {
        match row_of(self.tables.objects(), object) {
            Some(row) => Some(row.column),
            None => None,
        }
    }

    /// How many live objects there are, with the root. It takes no memory.
    pub fn objects(&self) -> u64
        ensures { result ≡ length self.now.present.state.objects }
    {
        self.tables.counters().objects
    }
}

// The live objects of a set.
fn live_of(alloc: Global, rows: &[ObjectRow], objects: &Set) -> Result<BTreeSet<u64>, NoMemory>
    requires { IsRising object_cmp rows.now }
    ensures { IfOk result (λ live. AreLive (objects_in rows.now) objects.now live.keys) }
{
    let mut live = BTreeSet::new(alloc);
    for value in objects.as_slice() {
        add_live(rows, value, &mut live)?;
    }
    Ok(live)
}

// Adds a value that is a live object.
fn add_live(rows: &[ObjectRow], value: &Value, live: &mut BTreeSet<u64>) -> Result<(), NoMemory>
    requires { IsRising object_cmp rows.now }
    ensures { OnOk result (AddsLive (objects_in rows.now) value.now live.old.keys live.new.keys) }
{
    match value {
        Value::Object(number) => add_live_object(rows, *number, live),
        _ => Ok(()),
    }
}

// Adds an object that is live.
fn add_live_object(
    rows: &[ObjectRow],
    object: u64,
    live: &mut BTreeSet<u64>,
) -> Result<(), NoMemory>
    requires { IsRising object_cmp rows.now }
    ensures { OnOk result (AddsLive (objects_in rows.now) (Object object) live.old.keys live.new.keys) }
{
    match row_of(rows, object) {
        Some(_) => {
            live.insert(object)?;
            Ok(())
        }
        None => Ok(()),
    }
}

// The set of a live object in a column, and nothing where there is none.
fn set_or<'a>(rows: &'a [SetRow], object: u64, column: u32, nothing: &'a Set) -> &'a Set
    requires nothing { nothing.now ≡ [] }
    requires rising { IsRising row_cmp rows.now }
    ensures { result.now ≡ set_in (cells_in rows.now) object column }
{
    match set_place(rows, object, column) {
        Some(place) => &rows[place].set,
        None => nothing,
    }
}

// The first limit that counts pass.
fn over(counters: &Counters) -> Option<StateRefusal>
    ensures cases { MatchOption result (full_of counters.now.objects counters.now.cells counters.now.values counters.now.next ≡ None) (Refuses (full_of counters.now.objects counters.now.cells counters.now.values counters.now.next)) }
    ensures named { IfSome result (λ refusal. ¬ (refusal ≡ StateRefusal.NoMemory)) }
{
    if counters.objects > MAX_OBJECTS {
        return Some(StateRefusal::Full(Which::Objects, MAX_OBJECTS));
    }
    if counters.cells > MAX_CELLS {
        return Some(StateRefusal::Full(Which::Cells, MAX_CELLS));
    }
    if counters.values > MAX_VALUES {
        return Some(StateRefusal::Full(Which::Values, MAX_VALUES));
    }
    if counters.next > MAX_NUMBER + 1 {
        return Some(StateRefusal::Full(Which::Numbers, MAX_NUMBER));
    }
    None
}

// Makes an object under a parent whose extent's row stands at that place, as a change of its own; the items that this changes.
// Nothing changes after the refusal.
fn create(
    alloc: Global,
    tables: &mut Tables,
    columns: &Columns,
    column: u32,
    parent: u64,
    place: usize,
    after: Counters,
) -> Result<Items, NoMemory>
    requires place { place < length tables.old.present.extents }
    requires row { set_row tables.old.present.extents place ≡ live_row parent column (set_at tables.old.present.extents place) }
    ensures present { OnOk result (tables.new.present ≡ born columns.now tables.old.present place column parent after) }
    ensures items { IfOk result (λ items. items ≡ born_items columns.now tables.old.present.counters.next column parent) }
    ensures earlier { OnOk result (tables.new.earlier ≡ tables.old.earlier ++ tables.old.present ∷ []) }
    ensures err { OnErr result (tables.new ≡ tables.old) }
{
    let mark = tables.mark();
    tables.begin()?;
    match make(alloc, tables, columns, column, parent, place, after) {
        Ok(items) => Ok(items),
        Err(refusal) => {
            tables.undo_to(mark);
            Err(refusal)
        }
    }
}

// Adds the rows of a new object, and itself to its parent's extent, whose row stands at that place.
fn make(
    alloc: Global,
    tables: &mut Tables,
    columns: &Columns,
    column: u32,
    parent: u64,
    place: usize,
    after: Counters,
) -> Result<Items, NoMemory>
    requires place { place < length tables.old.present.extents }
    requires row { set_row tables.old.present.extents place ≡ live_row parent column (set_at tables.old.present.extents place) }
    ensures present { OnOk result (tables.new.present ≡ born columns.now tables.old.present place column parent after) }
    ensures items { IfOk result (λ items. items ≡ born_items columns.now tables.old.present.counters.next column parent) }
    ensures earlier { tables.new.earlier ≡ tables.old.earlier }
{
    let number = tables.counters().next;
    let mut items = Items::new(alloc);
    items.insert(Item::Live(number))?;
    items.insert(Item::Up(number))?;
    items.insert(Item::Extent(parent, column))?;
    tables.join_extent(place, number)?;
    tables.add_object(ObjectRow {
        number,
        column,
        parent: Some(parent),
        live: true,
    })?;
    add_rows(alloc, tables, columns, column, number, &mut items)?;
    tables.count(after);
    Ok(items)
}

// The item of a state cell, where its set changes.
fn changed_item(
    alloc: Global,
    old: &Set,
    set: &Set,
    object: u64,
    column: u32,
) -> Result<Items, NoMemory>
    ensures same { IfOk result (λ items. old.now ≡ set.now → items ≡ []) }
    ensures differs { IfOk result (λ items. (old.now ≡ set.now → ⊥) → items ≡ Stored object column ∷ []) }
{
    let mut items = Items::new(alloc);
    if !old.equals(set) {
        items.insert(Item::Stored(object, column))?;
    }
    Ok(items)
}

// Puts a row in the place of a state cell's, as a change of its own. Nothing changes after the refusal.
fn put_row(
    tables: &mut Tables,
    place: usize,
    row: SetRow,
    counters: Counters,
) -> Result<(), NoMemory>
    requires { place < length tables.old.present.cells }
    ensures present { OnOk result (tables.new.present ≡ with_counters (with_cells tables.old.present (slice_set tables.old.present.cells place row)) counters) }
    ensures earlier { OnOk result (tables.new.earlier ≡ tables.old.earlier ++ tables.old.present ∷ []) }
    ensures err { OnErr result (tables.new ≡ tables.old) }
{
    let mark = tables.mark();
    tables.begin()?;
    match tables.replace_cell(place, row) {
        Ok(()) => {
            tables.count(counters);
            Ok(())
        }
        Err(refusal) => {
            tables.undo_to(mark);
            Err(refusal)
        }
    }
}

// Takes these objects out of all rows, as a change of its own; the items that this changes. Nothing changes after the refusal.
fn take_away(
    alloc: Global,
    tables: &mut Tables,
    columns: &Columns,
    doomed: &Set,
    places: &mut Places,
) -> Result<Items, NoMemory>
    requires rising { IsRising object_cmp tables.old.present.objects }
    requires objects { Covers (buried doomed.now) tables.old.present.objects places.old.objects.keys }
    requires cells { Covers (swept doomed.now) tables.old.present.cells places.old.cells.keys }
    requires extents { Covers (swept doomed.now) tables.old.present.extents places.old.extents.keys }
    ensures present { OnOk result (tables.new.present ≡ rid_of columns.now doomed.now tables.old.present) }
    ensures items { IfOk result (λ items. items ≡ rid_items doomed.now tables.old.present) }
    ensures earlier { OnOk result (tables.new.earlier ≡ tables.old.earlier ++ tables.old.present ∷ []) }
    ensures err { OnErr result (tables.new ≡ tables.old) }
{
    let mark = tables.mark();
    tables.begin()?;
    match be_rid_of(alloc, tables, columns, doomed, places) {
        Ok(items) => Ok(items),
        Err(refusal) => {
            tables.undo_to(mark);
            Err(refusal)
        }
    }
}

// Drops what undo keeps, and the rows of gone objects where they are more than half of all.
fn settle(tables: &mut Tables)
    requires { IsSound tables.old.present }
    ensures present { moment tables.new.present ≡ moment tables.old.present }
    ensures earlier { tables.new.earlier ≡ [] }
    ensures sound { IsSound tables.new.present }
    ensures listed { (references : List Reference) → IsListed references tables.old.present → IsListed references tables.new.present }
{
    let rows = tables.objects().len() as u64;
    if rows / 2 > tables.counters().objects {
        tables.compact();
    } else {
        tables.forget();
    }
}

// Drops the references that no state cell holds, where they are more than half of all.
fn purge(references: &mut References, tables: &Tables)
    requires sound { IsSound tables.now.present }
    requires listed { IsListed references.old tables.now.present }
    ensures { IsListed references.new tables.now.present }
{
    if references.len() as u64 / 2 > tables.counters().values {
        references.keep_held(tables.cells());
    }
}
