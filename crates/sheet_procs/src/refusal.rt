// Why a procedure is refused.
use sheet_columns::Fault;
use sheet_state::Which;
use sheet_values::{Name, NoMemory};

/// Why a procedure is refused, in the order of its run: `Denied` before the statements, then what a statement refuses, and
/// `NotOneCell` after the last one.
#[derive(Debug, Drop)]
pub enum ProcedureRefusal {
    /// The `allow` formula is false.
    Denied,
    /// The check with this number is false; its message.
    CheckFailed(u32, Name),
    /// A formula has this fault.
    FormulaFault(Fault),
    /// After the last statement this cell, which is the least by object, then by column, holds so many values and not one.
    NotOneCell(u64, u32, usize),
    /// This count would pass its limit.
    Full(Which, u64),
    /// There was no memory.
    NoMemory,
}

impl From<NoMemory> for ProcedureRefusal {
    ghost use Rattle.std.specs.Prelude.{◌≡◌};
    ghost use Rattle.sheet_procs.specs.declared.refusal.ProcedureRefusal.TheVariants as refused;

    ghost from_gives = { λ _ refusal. refusal ≡ refused.NoMemory };

    fn from(_: NoMemory) -> ProcedureRefusal {
        ProcedureRefusal::NoMemory
    }
}
