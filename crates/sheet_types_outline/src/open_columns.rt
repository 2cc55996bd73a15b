// The object columns that are open.
ghost use Rattle.std.specs.Prelude.{◌≡◌, ◌+◌, ◌<◌, ◌++◌, ◌∷◌, [], length, take, slice_index_or, IfOk, OnOk};
ghost use Rattle.sheet_types_outline.specs.Naming.{open_behind};

use sheet_define_data::Content;
use sheet_values::NoMemory;
use std::alloc::Global;
use std::marker::Model;

/// The numbers of the object columns in whose braces a definition stands, the root first.
#[derive(Drop)]
pub(crate) struct OpenColumns {
    numbers: Vec<u32>,
}

impl Model for OpenColumns {
    ghost use Rattle.std.specs.Prelude.{ℕ, List};

    ghost Value = { List ℕ };

    ghost view = { λ o. o.numbers.items };
}

impl OpenColumns {
    /// The root alone.
    pub(crate) fn new(alloc: Global) -> Result<OpenColumns, NoMemory>
        ensures { IfOk result (λ opened. opened ≡ 0 ∷ []) }
    {
        let mut numbers = Vec::new(alloc);
        numbers.push(0)?;
        Ok(OpenColumns { numbers })
    }

    /// The column that a column of that depth stands directly under.
    pub(crate) fn above(&self, depth: u32) -> u32
        requires { depth < length self.now }
        ensures { result ≡ slice_index_or self.now depth 0 }
    {
        self.numbers[depth as usize]
    }

    /// Goes on behind the line of a column of that depth and number: closes all that it doesn't stand in, and opens it where
    /// it is an object column.
    pub(crate) fn go_on(
        &mut self,
        depth: u32,
        number: u32,
        content: &Content,
    ) -> Result<(), NoMemory>
        requires { depth < length self.old }
        ensures { OnOk result (self.new ≡ open_behind self.old depth number content.now) }
    {
        self.numbers.truncate(depth as usize + 1);
        match content {
            Content::Object => self.numbers.push(number)?,
            Content::State { .. } | Content::Formula { .. } => {}
        }
        Ok(())
    }
}
