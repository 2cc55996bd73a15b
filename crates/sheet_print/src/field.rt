// Fields of lines.
ghost use Rattle.std.specs.Prelude.{◌≡◌, IfOk};

use sheet_columns::Sequence;
use sheet_values::NoMemory;
use std::alloc::Global;
use std::marker::Model;

/// A field of a line, seen as its bytes.
#[derive(Drop)]
pub(crate) struct Field {
    text: Vec<u8>,
}

/// The fields of a line.
pub(crate) type Fields = Sequence<Field>;

impl Model for Field {
    ghost use Rattle.std.specs.Prelude.{List, ℕ};

    ghost Value = { List ℕ };

    ghost view = { λ f. f.text.items };
}

impl Field {
    /// The field with this text.
    pub(crate) fn new(text: Vec<u8>) -> Field
        ensures { result ≡ text.items }
    {
        Field { text }
    }

    /// The field with a copy of this text.
    pub(crate) fn of(alloc: Global, text: &[u8]) -> Result<Field, NoMemory>
        ensures { IfOk result (λ field. field ≡ text.now) }
    {
        let text = Vec::from_slice(alloc, text)?;
        Ok(Field { text })
    }

    /// Its bytes.
    pub(crate) fn bytes(&self) -> &[u8]
        ensures { result.now ≡ self.now }
    {
        self.text.as_slice()
    }
}
