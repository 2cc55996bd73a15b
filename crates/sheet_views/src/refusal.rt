// Why a view isn't shown.
use sheet_columns::Fault;
use sheet_values::NoMemory;

/// Why a view isn't shown.
#[derive(Clone, Copy, Debug, PartialEq, Eq)]
pub enum ViewRefusal {
    /// The `allow` formula is false.
    Denied,
    /// The `allow` formula has this fault.
    FormulaFault(Fault),
    /// There was no memory.
    NoMemory,
}

impl From<NoMemory> for ViewRefusal {
    ghost use Rattle.std.specs.Prelude.{◌≡◌};
    ghost use Rattle.sheet_views.specs.declared.refusal.ViewRefusal.TheVariants as refused;

    ghost from_gives = { λ _ refusal. refusal ≡ refused.NoMemory };

    fn from(_: NoMemory) -> ViewRefusal {
        ViewRefusal::NoMemory
    }
}
