// Objects and all below them, by the rows of the extents.
ghost use Rattle.std.specs.Prelude.{◌≡◌, ℕ, ◌<◌, ◌≤◌, ◌^◌, ◌||◌, length, true, take, OnOk, IfOk};
ghost use Rattle.sheet_values.specs.Sets.{contains};
ghost use Rattle.sheet_values.specs.declared.value.Value.TheVariants.{Object};
ghost use Rattle.sheet_state_rows.specs.Rows.{set_row};
ghost use Rattle.sheet_state_references.specs.Below.{NeverFalls, stands_under, Descends, has, AreFamilies};

use sheet_state_rows::SetRow;
use sheet_values::{NoMemory, Set, Value};
use std::alloc::Global;
use std::collections::BTreeSet;

/// Where the rows of an object stand, and no others: from the first place on, and before the second.
pub fn own_places(rows: &[SetRow], object: u64) -> (usize, usize)
    requires { NeverFalls rows.now }
    ensures within { result.1 ≤ length rows.now }
    ensures all { (k : ℕ) → k < length rows.now → (set_row rows.now k).object ≡ object → (result.0 ≤ k) × (k < result.1) }
    ensures own { (k : ℕ) → result.0 ≤ k → k < result.1 → (set_row rows.now k).object ≡ object }
{
    let number = u128::from(object);
    let from = start_of(rows, number);
    let end = start_of(rows, number + 1);
    (from, end)
}

// The place of the first row whose object has this number or a greater one, by halving.
fn start_of(rows: &[SetRow], number: u128) -> usize
    requires { NeverFalls rows.now }
    ensures within { result ≤ length rows.now }
    ensures before { (k : ℕ) → k < result → (set_row rows.now k).object < number }
    ensures behind { (k : ℕ) → result ≤ k → k < length rows.now → number ≤ (set_row rows.now k).object }
{
    let mut low = 0;
    let mut high = rows.len();
    while low < high {
        let middle = low + (high - low) / 2;
        if u128::from(rows[middle].object) < number {
            low = middle + 1;
        } else {
            high = middle;
        }
    }
    low
}

/// Some objects and all below them. What stands under an object has a greater number, so the least waiting number is always next.
pub fn families_of(
    alloc: Global,
    extents: &[SetRow],
    starts: BTreeSet<u64>,
) -> Result<Set, NoMemory>
    requires order { NeverFalls extents.now }
    requires descends { Descends extents.now }
    ensures { IfOk result (λ families. AreFamilies extents.now (λ (n : ℕ). has n starts.keys) families) }
{
    let mut waiting = starts;
    let mut families = Set::empty(alloc);
    while let Some(number) = waiting.pop_first() {
        families.insert(Value::Object(number))?;
        add_children(extents, number, &mut waiting)?;
    }
    Ok(families)
}

// Lets the objects directly below an object wait.
fn add_children(
    extents: &[SetRow],
    object: u64,
    waiting: &mut BTreeSet<u64>,
) -> Result<(), NoMemory>
    requires { NeverFalls extents.now }
    ensures fits { object < 2 ^ 64 }
    ensures added { OnOk result ((n : ℕ) → has n waiting.new.keys ≡ (has n waiting.old.keys || stands_under extents.now object n)) }
{
    let (from, end) = own_places(extents, object);
    for place in from..end {
        let row = &extents[place];
        if row.live && row.object == object {
            add_objects(&row.set, waiting)?;
        }
    }
    Ok(())
}

// Lets the objects of a set wait.
fn add_objects(set: &Set, waiting: &mut BTreeSet<u64>) -> Result<(), NoMemory>
    ensures { OnOk result ((n : ℕ) → has n waiting.new.keys ≡ (has n waiting.old.keys || contains (Object n) set.now)) }
{
    for value in set.as_slice() {
        if let Value::Object(number) = value {
            waiting.insert(*number)?;
        }
    }
    Ok(())
}
