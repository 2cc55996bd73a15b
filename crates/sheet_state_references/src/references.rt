// References, in rising order.
ghost use Rattle.std.specs.Prelude.{◌≡◌, ◌<◌, ◌+◌, ◌^◌, ℕ, [], true, false, filter, length, OnOk, OnErr, IfOk};
ghost use Rattle.std.specs.Ordering.{is_gt};
ghost use Rattle.std.specs.BTreeMap.Range.{range_contains};
ghost use Rattle.sheet_values.specs.Sorted.{contains};
ghost use Rattle.sheet_values.specs.Sets.{contains as has_value};
ghost use Rattle.sheet_values.specs.declared.value.Value.TheVariants.{Object};
ghost use Rattle.sheet_state_references.specs.Below.{NeverFalls};
ghost use Rattle.sheet_state_references.specs.Order.{reference_cmp, is_to, holds_reference, is_held};
ghost use Rattle.sheet_state_references.specs.declared.references.Reference.{Reference as AReference};

use crate::own_places;
use sheet_state_rows::SetRow;
use sheet_values::{NoMemory, Set, Value};
use std::alloc::Global;
use std::collections::BTreeSet;
use std::marker::Model;
use std::ops::Bound;

/// That a state cell may refer to an object.
#[derive(Clone, Copy, Debug, PartialEq, Eq, PartialOrd, Ord)]
pub struct Reference {
    /// The object that it may refer to.
    pub to: u64,
    /// The cell's object.
    pub object: u64,
    /// The cell's column.
    pub column: u32,
}

/// References, seen as a list without doubles.
#[derive(Debug, Drop)]
pub struct References {
    entries: BTreeSet<Reference>,
}

impl Model for References {
    ghost use Rattle.std.specs.Prelude.{List};
    ghost use Rattle.sheet_state_references.specs.declared.references.Reference.{Reference as AReference};

    ghost Value = { List AReference };

    ghost view = { λ s. s.entries.keys };
}

impl References {
    /// None. It takes no memory.
    pub fn new(alloc: Global) -> References
        ensures { result ≡ [] }
    {
        References {
            entries: BTreeSet::new(alloc),
        }
    }

    /// Notes a reference. Nothing changes after the refusal.
    pub fn note(&mut self, reference: Reference) -> Result<(), NoMemory>
        ensures noted { OnOk result (contains reference_cmp reference self.new ≡ true) }
        ensures others { (r : AReference) → contains reference_cmp r self.old ≡ true → contains reference_cmp r self.new ≡ true }
        ensures err { OnErr result (self.new ≡ self.old) }
    {
        self.entries.insert(reference)?;
        Ok(())
    }

    /// Notes that a state cell refers to each object of a set. Nothing is taken out after the refusal.
    pub fn note_all(&mut self, set: &Set, object: u64, column: u32) -> Result<(), NoMemory>
        ensures noted { OnOk result ((n : ℕ) → has_value (Object n) set.now ≡ true → contains reference_cmp (record { to = n; object = object; column = column }) self.new ≡ true) }
        ensures others { (r : AReference) → contains reference_cmp r self.old ≡ true → contains reference_cmp r self.new ≡ true }
    {
        for value in set.as_slice() {
            if let Value::Object(to) = value {
                let to = *to;
                self.note(Reference { to, object, column })?;
            }
        }
        Ok(())
    }

    /// Drops the references that none of these state cells holds. It takes no memory.
    pub fn keep_held(&mut self, cells: &[SetRow])
        requires { NeverFalls cells.now }
        ensures { self.new ≡ filter (is_held cells.now) self.old }
    {
        self.entries.retain(|reference| is_held(cells, reference));
    }

    /// The references to an object.
    pub fn to(&self, alloc: Global, object: u64) -> Result<Vec<Reference>, NoMemory>
        requires { object + 1 < 2 ^ 64 }
        ensures { IfOk result (λ found. found.items ≡ filter (is_to object) self.now) }
    {
        let from = Reference {
            to: object,
            object: 0,
            column: 0,
        };
        let end = Reference {
            to: object + 1,
            object: 0,
            column: 0,
        };
        self.between(alloc, from, end)
    }

    // The references from one on, up to another.
    fn between(
        &self,
        alloc: Global,
        from: Reference,
        end: Reference,
    ) -> Result<Vec<Reference>, NoMemory>
        requires { is_gt (reference_cmp from end) ≡ false }
        ensures { IfOk result (λ found. found.items ≡ filter (range_contains reference_cmp (Bound.Included from) (Bound.Excluded end)) self.now) }
    {
        let found = self.entries.range(from..end).copied().collect(alloc)?;
        Ok(found)
    }

    /// How many there are. It takes no memory.
    pub fn len(&self) -> usize
        ensures { result ≡ length self.now }
    {
        self.entries.len()
    }
}

// Whether one of the state cells refers so.
fn is_held(cells: &[SetRow], reference: &Reference) -> bool
    requires { NeverFalls cells.now }
    ensures { result ≡ is_held cells.now reference.now }
{
    let (from, end) = own_places(cells, reference.object);
    for place in from..end {
        if holds(&cells[place], reference) {
            return true;
        }
    }
    false
}

// Whether a row is that of a state cell that is there and refers so.
fn holds(row: &SetRow, reference: &Reference) -> bool
    ensures { result ≡ holds_reference reference.now row.now }
{
    row.live
        && row.object == reference.object
        && row.column == reference.column
        && row.set.contains(&Value::Object(reference.to))
}
