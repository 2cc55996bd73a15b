// A state as plain lists. Each change goes over all of them.
use sheet_state::State;
use sheet_values::{NoMemory, Set, Value};
use std::alloc::Global;

/// An object and its column; the object above it is 0 for those under the root.
#[derive(Clone, Copy, Debug, PartialEq, Eq)]
struct PlainObject {
    number: u64,
    column: u32,
    above: u64,
}

/// That a state cell holds an object.
#[derive(Clone, Copy, Debug, PartialEq, Eq)]
struct Held {
    object: u64,
    column: u32,
    held: u64,
}

/// Objects other than the root, and what their state cells hold.
#[derive(Debug, Drop)]
pub struct Model {
    objects: Vec<PlainObject>,
    held: Vec<Held>,
    next: u64,
}

impl Model {
    /// No objects.
    pub fn new(alloc: Global) -> Model {
        Model {
            objects: Vec::new(alloc),
            held: Vec::new(alloc),
            next: 1,
        }
    }

    /// An equal model.
    pub fn copy(&self) -> Result<Model, NoMemory> {
        Ok(Model {
            objects: self.objects.clone()?,
            held: self.held.clone()?,
            next: self.next,
        })
    }

    /// The number of the next object.
    pub fn next(&self) -> u64 {
        self.next
    }

    /// A new object.
    pub fn make(&mut self, column: u32, above: u64) -> Result<(), NoMemory> {
        self.objects.push(PlainObject {
            number: self.next,
            column,
            above,
        })?;
        self.next = self.next.saturating_add(1);
        Ok(())
    }

    /// The cell holds that object alone.
    pub fn refer(&mut self, object: u64, column: u32, held: u64) -> Result<(), NoMemory> {
        self.held
            .retain(|one| one.object != object || one.column != column);
        self.held.push(Held {
            object,
            column,
            held,
        })?;
        Ok(())
    }

    /// The object is gone, with all below it and what refers to them.
    pub fn delete(&mut self, alloc: Global, object: u64) -> Result<(), NoMemory> {
        let mut gone = Vec::new(alloc);
        for one in &self.objects {
            if one.number == object || gone.contains(&one.above) {
                gone.push(one.number)?;
            }
        }
        self.objects.retain(|one| !gone.contains(&one.number));
        self.held.retain(|one| !gone.contains(&one.object) && !gone.contains(&one.held));
        Ok(())
    }

    /// The objects of a set are gone, each with all below it and what refers to them.
    pub fn delete_all(&mut self, alloc: Global, objects: &Set) -> Result<(), NoMemory> {
        for value in objects.as_slice() {
            if let Value::Object(object) = value {
                self.delete(alloc, *object)?;
            }
        }
        Ok(())
    }

    /// Whether a state tells the same of all objects up to the next, with these object and state columns.
    pub fn agrees(&self, state: &State, object_columns: &[u32], state_columns: &[u32]) -> bool {
        for number in 1..self.next {
            if !self.agrees_at(state, number) {
                return false;
            }
            for column in object_columns {
                if !self.agrees_below(state.children(number, *column), number, *column) {
                    return false;
                }
            }
            for column in state_columns {
                if !self.agrees_in(state.cell(number, *column), number, *column) {
                    return false;
                }
            }
        }
        self.agrees_below(state.children(0, 1), 0, 1)
            && state.objects() == self.objects.len() as u64 + 1
    }

    fn agrees_at(&self, state: &State, number: u64) -> bool {
        match self.objects.iter().find(|one| one.number == number) {
            Some(one) => {
                state.column_of(number) == Some(one.column)
                    && state.parent(number) == Some(one.above)
            }
            None => !state.is_live(number) && state.parent(number).is_none(),
        }
    }

    // Whether a set holds the objects of a column under an object.
    fn agrees_below(&self, set: &Set, above: u64, column: u32) -> bool {
        let mut count: usize = 0;
        for one in &self.objects {
            if one.above == above && one.column == column {
                if !set.contains(&Value::Object(one.number)) {
                    return false;
                }
                count = count.saturating_add(1);
            }
        }
        count == set.len()
    }

    // Whether a set is what a state cell holds.
    fn agrees_in(&self, set: &Set, object: u64, column: u32) -> bool {
        let mut count: usize = 0;
        for one in &self.held {
            if one.object == object && one.column == column {
                if !set.contains(&Value::Object(one.held)) {
                    return false;
                }
                count = count.saturating_add(1);
            }
        }
        count == set.len()
    }
}
