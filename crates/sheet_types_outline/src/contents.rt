// What columns hold.
ghost use Rattle.std.specs.Prelude.{◌≡◌, ◌++◌, ◌∷◌, [], length, IfOk, OnOk};
ghost use Rattle.sheet_types_outline.specs.Columns.{AreAlike, AreFitting};
ghost use Rattle.sheet_types_outline.specs.Outlines.{filled};

use sheet_columns::{Column, Columns};
use sheet_values::NoMemory;
use std::alloc::Global;
use std::marker::Model;

/// What the first columns hold, from the root on.
#[derive(Drop)]
pub(crate) struct Contents {
    columns: Vec<Column>,
}

impl Model for Contents {
    ghost use Rattle.std.specs.Prelude.{List};
    ghost use Rattle.sheet_columns.specs.declared.tree.Column.{Column as TheColumn};

    ghost Value = { List TheColumn };

    ghost view = { λ c. c.columns.items };
}

impl Contents {
    /// What the root holds.
    pub(crate) fn new(alloc: Global) -> Result<Contents, NoMemory>
        ensures { IfOk result (λ contents. contents ≡ Column.Object ∷ []) }
    {
        let mut columns = Vec::new(alloc);
        columns.push(Column::Object)?;
        Ok(Contents { columns })
    }

    /// How many columns there are.
    pub(crate) fn len(&self) -> usize
        ensures { result ≡ length self.now }
    {
        self.columns.len()
    }

    /// Adds what the next column holds.
    pub(crate) fn push(&mut self, column: Column) -> Result<(), NoMemory>
        ensures { OnOk result (self.new ≡ self.old ++ column ∷ []) }
    {
        self.columns.push(column)?;
        Ok(())
    }

    /// Lets these columns hold it.
    pub(crate) fn fill(self, columns: &mut Columns)
        requires alike { AreAlike columns.old self }
        requires fitting { AreFitting self }
        ensures { columns.new ≡ filled columns.old self }
    {
        fill(columns, self.columns);
    }
}

// Lets the first columns hold this, from the last one on.
fn fill(columns: &mut Columns, mut contents: Vec<Column>)
    requires alike { AreAlike columns.old contents.items }
    requires fitting { AreFitting contents.items }
    ensures { columns.new ≡ filled columns.old contents.items }
{
    while let Some(content) = contents.pop() {
        let counted = contents.len() < columns.count() as usize;
        prove!(counted);
        columns.set(contents.len() as u32, content);
    }
}
