// Lists that grow at their end.
ghost use Rattle.std.specs.Prelude.{◌≡◌, ◌<◌, ◌++◌, [], ◌∷◌, length, OnOk, OnErr, slice_get, Some};

use sheet_values::NoMemory;
use std::alloc::Global;
use std::marker::Model;

/// A list that grows at its end, seen as the list of its elements.
#[derive(Debug, Drop)]
pub struct Sequence<T> {
    elements: Vec<T>,
}

impl<T> Model for Sequence<T> {
    ghost use Rattle.std.specs.Prelude.{List};

    ghost Value = { List T };

    ghost view = { λ s. s.elements.items };
}

impl<T> Sequence<T> {
    /// The empty list. It takes no memory.
    pub fn new(alloc: Global) -> Self
        ensures { result ≡ [] }
    {
        Sequence {
            elements: Vec::new(alloc),
        }
    }

    /// How many elements there are.
    pub fn len(&self) -> usize
        ensures { result ≡ length self.now }
    {
        self.elements.len()
    }

    /// The element at `k`, from 0.
    pub fn at(&self, k: usize) -> &T
        requires { k < length self.now }
        ensures { slice_get self.now k ≡ Some result.now }
    {
        &self.elements[k]
    }

    /// The elements in order.
    pub fn as_slice(&self) -> &[T]
        ensures { result.now ≡ self.now }
    {
        self.elements.as_slice()
    }
}

impl<T: Drop> Sequence<T> {
    /// Adds an element at the end. Nothing changes where memory is refused.
    pub fn push(&mut self, element: T) -> Result<(), NoMemory>
        ensures ok { OnOk result (self.new ≡ self.old ++ element ∷ []) }
        ensures err { OnErr result (self.new ≡ self.old) }
    {
        self.elements.push(element)?;
        Ok(())
    }
}
