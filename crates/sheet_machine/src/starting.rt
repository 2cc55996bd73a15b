// The start of an App.
ghost use Rattle.std.specs.Prelude.{◌≡◌, IfOk};
ghost use Rattle.sheet_types_outline.specs.Orderly.{IsOrderly};
ghost use Rattle.sheet_machine_laws.specs.Machine.{start as the_start};
ghost use Rattle.sheet_machine.specs.Held.{holding, IsReady};
ghost use Rattle.sheet_machine.specs.Starts.{Opens, OpensDefinition};

use crate::held::Held;
use sheet_books::Book;
use sheet_callers::Callers;
use sheet_define::{Definition, DefinitionRefusal, read_definition};
use sheet_engine::Engine;
use sheet_machine_laws::starts_are_sound;
use sheet_types::elaborate;
use sheet_types_formulas::TypeRefusal;
use sheet_types_outline::texts_are_orderly;
use sheet_values::{Name, NoMemory};
use std::alloc::Global;

/// Why no App starts.
#[derive(Debug, Drop)]
pub enum StartRefusal {
    /// The text stands for no definition.
    Definition(DefinitionRefusal),
    /// The definition has no book.
    Types(TypeRefusal),
    /// There was no memory.
    NoMemory,
}

impl From<NoMemory> for StartRefusal {
    ghost use Rattle.std.specs.Prelude.{◌≡◌};
    ghost use Rattle.sheet_machine.specs.declared.starting.StartRefusal.TheVariants.{NoMemory as no_memory};

    ghost from_gives = { λ _ refusal. refusal ≡ no_memory };

    fn from(_: NoMemory) -> Self {
        StartRefusal::NoMemory
    }
}

// The workbook of a book at its start, and the operator.
fn begin(alloc: Global, operator_key: Name, book: Book) -> Result<Held, NoMemory>
    ensures held { IfOk result (λ h. holding h ≡ the_start book operator_key) }
    ensures ready { IfOk result (λ h. IsReady h) }
{
    starts_are_sound();
    book.columns().count();
    let engine = Engine::new(alloc, book)?;
    let callers = Callers::new(alloc, operator_key)?;
    Ok(Held {
        engine,
        callers,
        accepted: 0,
        pending: None,
        alloc,
    })
}

// The start of a definition's book.
fn elaborated(
    alloc: Global,
    operator_key: Name,
    definition: &Definition,
) -> Result<Held, StartRefusal>
    requires { IsOrderly definition.now.declarations }
    ensures { OpensDefinition definition.now operator_key result }
{
    match elaborate(alloc, definition) {
        Ok(book) => {
            let held = begin(alloc, operator_key, book)?;
            Ok(held)
        }
        Err(TypeRefusal::NoMemory) => Err(StartRefusal::NoMemory),
        Err(refusal) => Err(StartRefusal::Types(refusal)),
    }
}

/// The start of the book of the definition that a text stands for.
pub(crate) fn started(alloc: Global, operator_key: Name, text: &[u8]) -> Result<Held, StartRefusal>
    ensures { Opens text.now operator_key result }
{
    match read_definition(alloc, text) {
        Ok(definition) => {
            texts_are_orderly();
            elaborated(alloc, operator_key, &definition)
        }
        Err(DefinitionRefusal::NoMemory) => Err(StartRefusal::NoMemory),
        Err(refusal) => Err(StartRefusal::Definition(refusal)),
    }
}
