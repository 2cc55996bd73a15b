// Why a change is refused.
use sheet_meaning::Which;
use sheet_values::NoMemory;

/// Why a change is refused.
#[derive(Clone, Copy, Debug, PartialEq, Eq)]
pub enum StateRefusal {
    /// This count would pass its limit.
    Full(Which, u64),
    /// There was no memory.
    NoMemory,
}

impl From<NoMemory> for StateRefusal {
    ghost use Rattle.std.specs.Prelude.{◌≡◌};
    ghost use Rattle.sheet_state.specs.declared.refusal.StateRefusal.TheVariants as refused;

    ghost from_gives = { λ _ refusal. refusal ≡ refused.NoMemory };

    fn from(_: NoMemory) -> StateRefusal {
        StateRefusal::NoMemory
    }
}
