// Sets that are made, or only lent by who tells them.
ghost use Rattle.std.specs.Prelude.{◌≡◌, ◌∷◌, [], IfOk};

use sheet_values::{NoMemory, Set, Value};
use std::alloc::Global;
use std::marker::Model;

#[derive(Drop)]
enum Held<'a> {
    Lent(&'a Set),
    Own(Set),
}

/// The set that a part of a formula comes to. What is told of a workbook isn't copied.
#[derive(Drop)]
pub struct Part<'a> {
    held: Held<'a>,
}

impl<'a> Model for Part<'a> {
    ghost use Rattle.std.specs.Prelude.{List};
    ghost use Rattle.sheet_values.specs.declared.value.Value.{Value as TheValue};
    ghost use Rattle.sheet_eval_sets.specs.Held.{values};

    ghost Value = { List TheValue };

    ghost view = { λ p. values p.held };
}

impl<'a> Part<'a> {
    /// A set that somebody else keeps.
    pub fn lent(set: &'a Set) -> Part<'a>
        ensures { result ≡ set.now }
    {
        Part {
            held: Held::Lent(set),
        }
    }

    /// A set of its own.
    pub fn own(set: Set) -> Part<'a>
        ensures { result ≡ set }
    {
        Part {
            held: Held::Own(set),
        }
    }

    /// The set.
    pub fn set(&self) -> &Set
        ensures { result.now ≡ self.now }
    {
        match &self.held {
            Held::Lent(set) => set,
            Held::Own(set) => set,
        }
    }

    /// The set, copied only where it was lent.
    pub fn into_set(self) -> Result<Set, NoMemory>
        ensures { IfOk result (λ set. set ≡ self.entry) }
    {
        match self.held {
            Held::Lent(set) => set.copy(),
            Held::Own(set) => Ok(set),
        }
    }
}

/// The set of one value.
pub fn alone<'a>(alloc: Global, value: Value) -> Result<Part<'a>, NoMemory>
    ensures { IfOk result (λ part. part ≡ value ∷ []) }
{
    let set = Set::one(alloc, value)?;
    Ok(Part::own(set))
}
