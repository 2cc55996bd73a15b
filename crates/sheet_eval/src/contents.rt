// What a formula reads of the content of a workbook: steps from objects, and variables.
ghost use Rattle.std.specs.Prelude.{◌≡◌, ◌++◌, [], ◌∷◌, IfOk, OnOk, Ok, filter, if◌then◌else◌, slice_index_or};
ghost use Rattle.std.specs.List.{list_all};
ghost use Rattle.sheet_values.specs.declared.value.Value.TheVariants.{Text};
ghost use Rattle.sheet_values.specs.Sets.{union, insert};
ghost use Rattle.sheet_meaning.specs.Run.{run_after};
ghost use Rattle.sheet_meaning.specs.Formula.{step, on_object, is_read as value_is_read, live_reads, variable_read, objects_of};
ghost use Rattle.sheet_eval.specs.Told.{world_told, noted, Came, Folds};
ghost use Rattle.sheet_eval.specs.Turns.{way_of};

use crate::forms::{joined, united};
use crate::lookup::Lookup;
use crate::scene::Scene;
use sheet_columns::{Fault, Item, Variables};
use sheet_eval_sets::{Gathering, Part, Uses, alone};
use sheet_values::{Name, NoMemory, Set, Value};
use std::alloc::Global;

/// How a step goes on from an object.
#[derive(Clone, Copy, Debug, PartialEq, Eq)]
pub enum Way {
    /// To its objects in an object column.
    Children(u32),
    /// To the values of its cell in a state column.
    OfState(u32),
    /// To the values of its cell in a formula column.
    OfFormula(u32),
    /// To the object above it.
    Parent,
}

/// A value of which nothing is used.
pub fn known<'a>(alloc: Global, value: Value) -> Result<Result<Part<'a>, Fault>, NoMemory>
    ensures { IfOk result (λ o. o ≡ Ok (value ∷ [])) }
{
    let set = alone(alloc, value)?;
    Ok(Ok(set))
}

/// A text of which nothing is used.
pub fn known_text<'a>(alloc: Global, text: &Name) -> Result<Result<Part<'a>, Fault>, NoMemory>
    ensures { IfOk result (λ o. o ≡ Ok (Text text.now ∷ [])) }
{
    let text = text.copy()?;
    known(alloc, Value::Text(text))
}

// The result of a formula cell, as far as it is worked out.
fn result_of<'a, L: Lookup>(lookup: &'a L, object: u64, column: u32) -> Result<Part<'a>, Fault>
    ensures { result ≡ (world_told (L.told lookup.now)).worked object column }
{
    match lookup.worked(object, column) {
        None => Err(Fault::Cycle),
        Some(Ok(set)) => Ok(Part::lent(set)),
        Some(Err(fault)) => Err(*fault),
    }
}

// The object above, as a set.
fn parent_set<'a>(alloc: Global, parent: Option<u64>) -> Result<Part<'a>, NoMemory>
    ensures { IfOk result (λ set. set ≡ objects_of parent) }
{
    match parent {
        Some(object) => alone(alloc, Value::Object(object)),
        None => Ok(Part::own(Set::empty(alloc))),
    }
}

// What a step from one object gives.
fn way_from<'a, L: Lookup>(
    scene: &Scene<'a, L>,
    object: u64,
    way: Way,
    uses: &mut Uses,
) -> Result<Result<Part<'a>, Fault>, NoMemory>
    ensures { IfOk result (λ o. Came (way_of (world_told (L.told scene.now.lookup.now)) way object) uses.old o uses.new) }
{
    match way {
        Way::Children(column) => {
            uses.add_item(Item::Extent(object, column))?;
            Ok(Ok(Part::lent(scene.lookup.children(object, column))))
        }
        Way::OfState(column) => {
            uses.add_item(Item::Stored(object, column))?;
            Ok(Ok(Part::lent(scene.lookup.cell(object, column))))
        }
        Way::OfFormula(column) => {
            uses.add_cell(object, column)?;
            Ok(result_of(scene.lookup, object, column))
        }
        Way::Parent => {
            uses.add_item(Item::Up(object))?;
            let set = parent_set(scene.alloc, scene.lookup.parent(object))?;
            Ok(Ok(set))
        }
    }
}

// The union so far, with what a step from a value gives.
fn next_step<'a, L: Lookup>(
    scene: &Scene<'a, L>,
    value: &Value,
    way: Way,
    uses: &mut Uses,
    so_far: Result<Gathering<'a>, Fault>,
) -> Result<Result<Gathering<'a>, Fault>, NoMemory>
    ensures { IfOk result (λ next. Folds union (on_object (way_of (world_told (L.told scene.now.lookup.now)) way) value.now) so_far.entry uses.old next uses.new) }
{
    match value {
        Value::Object(object) => {
            let part = way_from(scene, *object, way, uses)?;
            joined(so_far, part)
        }
        Value::Truth(_) => Ok(so_far),
        Value::Number(_) => Ok(so_far),
        Value::Text(_) => Ok(so_far),
    }
}

// What a step from a single value gives.
fn step_from_one<'a, L: Lookup>(
    scene: &Scene<'a, L>,
    value: &Value,
    way: Way,
    uses: &mut Uses,
) -> Result<Result<Part<'a>, Fault>, NoMemory>
    ensures { IfOk result (λ o. Came (step (way_of (world_told (L.told scene.now.lookup.now)) way) (value.now ∷ [])) uses.old o uses.new) }
{
    match value {
        Value::Object(object) => way_from(scene, *object, way, uses),
        Value::Truth(_) => Ok(Ok(Part::own(Set::empty(scene.alloc)))),
        Value::Number(_) => Ok(Ok(Part::own(Set::empty(scene.alloc)))),
        Value::Text(_) => Ok(Ok(Part::own(Set::empty(scene.alloc)))),
    }
}

// The union of what a step from each object gives.
fn step_from_each<'a, L: Lookup>(
    scene: &Scene<'a, L>,
    set: &Set,
    way: Way,
    uses: &mut Uses,
) -> Result<Result<Part<'a>, Fault>, NoMemory>
    ensures { IfOk result (λ o. Came (step (way_of (world_told (L.told scene.now.lookup.now)) way) set.now) uses.old o uses.new) }
{
    let mut so_far = Ok(Gathering::new(scene.alloc));
    for k in 0..set.len() {
        so_far = next_step(scene, set.at(k), way, uses, so_far)?;
    }
    united(scene.alloc, so_far)
}

// What a step from a set gives: most sets have one value, and then nothing is gathered.
fn step_from<'a, L: Lookup>(
    scene: &Scene<'a, L>,
    set: &Set,
    way: Way,
    uses: &mut Uses,
) -> Result<Result<Part<'a>, Fault>, NoMemory>
    ensures { IfOk result (λ o. Came (step (way_of (world_told (L.told scene.now.lookup.now)) way) set.now) uses.old o uses.new) }
{
    if set.len() == 1 {
        step_from_one(scene, set.at(0), way, uses)
    } else {
        step_from_each(scene, set, way, uses)
    }
}

/// A step from what is known.
pub fn step_on<'a, L: Lookup>(
    scene: &Scene<'a, L>,
    objects: Result<Part<'a>, Fault>,
    way: Way,
    uses: &mut Uses,
) -> Result<Result<Part<'a>, Fault>, NoMemory>
    ensures { IfOk result (λ o. Came (run_after objects.entry (step (way_of (world_told (L.told scene.now.lookup.now)) way))) uses.old o uses.new) }
{
    match objects {
        Err(fault) => Ok(Err(fault)),
        Ok(set) => step_from(scene, set.set(), way, uses),
    }
}

// Notes that it is used whether the objects of a set are live.
fn note_live(set: &Set, uses: &mut Uses) -> Result<(), NoMemory>
    ensures { OnOk result (uses.new ≡ noted uses.old (live_reads set.now)) }
{
    let mut rest = set.as_slice();
    while let Some((value, more)) = rest.split_first() {
        note_value(value, uses)?;
        rest = more;
    }
    Ok(())
}

fn note_value(value: &Value, uses: &mut Uses) -> Result<(), NoMemory>
    ensures { OnOk result (uses.new ≡ noted uses.old (live_reads (value.now ∷ []))) }
{
    if let Value::Object(object) = value {
        uses.add_item(Item::Live(*object))?;
    }
    Ok(())
}

// Whether a value is read: an object only where it is live.
fn is_read<L: Lookup>(value: &Value, lookup: &L) -> bool
    ensures { result ≡ value_is_read (world_told (L.told lookup.now)) value.now }
{
    match value {
        Value::Object(object) => lookup.is_live(*object),
        Value::Truth(_) | Value::Number(_) | Value::Text(_) => true,
    }
}

// Whether all values of a set are read.
fn all_read<L: Lookup>(set: &Set, lookup: &L) -> bool
    ensures { result ≡ list_all (value_is_read (world_told (L.told lookup.now))) set.now }
{
    let mut rest = set.as_slice();
    while let Some((value, more)) = rest.split_first() {
        if !is_read(value, lookup) {
            return false;
        }
        rest = more;
    }
    true
}

// The values of a set that are read.
fn read_values<L: Lookup>(alloc: Global, set: &Set, lookup: &L) -> Result<Set, NoMemory>
    ensures { IfOk result (λ read. read ≡ filter (value_is_read (world_told (L.told lookup.now))) set.now) }
{
    let mut read = Set::empty(alloc);
    let mut rest = set.as_slice();
    while let Some((value, more)) = rest.split_first() {
        add_read(value, lookup, &mut read)?;
        rest = more;
    }
    Ok(read)
}

fn add_read<L: Lookup>(value: &Value, lookup: &L, read: &mut Set) -> Result<(), NoMemory>
    ensures { OnOk result (read.new ≡ (if value_is_read (world_told (L.told lookup.now)) value.now then insert value.now read.old else read.old)) }
{
    if is_read(value, lookup) {
        let value = value.copy()?;
        read.insert(value)?;
    }
    Ok(())
}

// The values of a variable, of objects only the live ones.
fn read_copied<'a, L: Lookup>(
    scene: &Scene<'a, L>,
    set: &Set,
    uses: &mut Uses,
) -> Result<Result<Part<'a>, Fault>, NoMemory>
    ensures { IfOk result (λ o. Came (variable_read (world_told (L.told scene.now.lookup.now)) set.now) uses.old o uses.new) }
{
    note_live(set, uses)?;
    let read = read_values(scene.alloc, set, scene.lookup)?;
    Ok(Ok(Part::own(read)))
}

// The same, without a copy where all values are read.
fn read_lent<'a, L: Lookup>(
    scene: &Scene<'a, L>,
    set: &'a Set,
    uses: &mut Uses,
) -> Result<Result<Part<'a>, Fault>, NoMemory>
    ensures { IfOk result (λ o. Came (variable_read (world_told (L.told scene.now.lookup.now)) set.now) uses.old o uses.new) }
{
    if !all_read(set, scene.lookup) {
        return read_copied(scene, set, uses);
    }
    note_live(set, uses)?;
    Ok(Ok(Part::lent(set)))
}

/// The values of the variable at a position. Those that comprehensions bind stand behind the others.
pub fn variable<'a, L: Lookup>(
    scene: &Scene<'a, L>,
    position: u32,
    bound: &Variables,
    uses: &mut Uses,
) -> Result<Result<Part<'a>, Fault>, NoMemory>
    ensures { IfOk result (λ o. Came (variable_read (world_told (L.told scene.now.lookup.now)) (slice_index_or (scene.now.variables.now ++ bound.now) position [])) uses.old o uses.new) }
{
    let position = position as usize;
    if position < scene.variables.len() {
        return read_lent(scene, scene.variables.at(position), uses);
    }
    let position = position - scene.variables.len();
    if position < bound.len() {
        return read_copied(scene, bound.at(position), uses);
    }
    Ok(Ok(Part::own(Set::empty(scene.alloc))))
}
