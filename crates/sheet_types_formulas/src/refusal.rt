// Why a definition has no types.
use sheet_values::{Name, NoMemory};
use std::alloc::{AllocError, AllocFailed};

/// Why a definition has no types. The numbers are lines, from 1; the names are paths of columns and texts of types.
#[derive(Debug, Drop)]
pub enum TypeRefusal {
    /// On this line stands a name that has another meaning in its place already.
    Doubled(u32),
    /// On this line stands a column nine below the root.
    TooDeep(u32),
    /// On this line stands the 1,001st column.
    TooMany(u32),
    /// On this line stands a name that means nothing there.
    UnknownName(u32),
    /// On this line stands a part of another type: the wanted one, and the one found.
    Mismatch(u32, Name, Name),
    /// This column, of one value, stands under the root and has no first value.
    NeedsFirst(Name),
    /// This formula column has no known type.
    NeedsType(Name),
    /// This formula column is declared of the first type, and its formula has the second.
    DeclaredOther(Name, Name, Name),
    /// There was no memory.
    NoMemory,
}

impl From<NoMemory> for TypeRefusal {
    ghost use Rattle.std.specs.Prelude.{◌≡◌};
    ghost use Rattle.sheet_types_formulas.specs.declared.refusal.TypeRefusal.TheVariants.{NoMemory};

    ghost from_gives = { λ _ e. e ≡ NoMemory };

    fn from(_: NoMemory) -> Self {
        TypeRefusal::NoMemory
    }
}

impl From<AllocError> for TypeRefusal {
    ghost use Rattle.std.specs.Prelude.{◌≡◌};
    ghost use Rattle.sheet_types_formulas.specs.declared.refusal.TypeRefusal.TheVariants.{NoMemory};

    ghost from_gives = { λ _ e. e ≡ NoMemory };

    fn from(_: AllocError) -> Self {
        TypeRefusal::NoMemory
    }
}

impl<T: Drop> From<AllocFailed<T>> for TypeRefusal {
    ghost use Rattle.std.specs.Prelude.{◌≡◌};
    ghost use Rattle.sheet_types_formulas.specs.declared.refusal.TypeRefusal.TheVariants.{NoMemory};

    ghost from_gives = { λ _ e. e ≡ NoMemory };

    fn from(_: AllocFailed<T>) -> Self {
        TypeRefusal::NoMemory
    }
}
