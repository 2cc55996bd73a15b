// Refusals as they are defined.
use sheet_meaning::Refusal;
use sheet_procs::ProcedureRefusal;
use sheet_values::NoMemory;

/// The defined refusal that a refusal is; want of memory is none.
pub fn refusal_of(refusal: ProcedureRefusal) -> Result<Refusal, NoMemory> {
    match refusal {
        ProcedureRefusal::Denied => Ok(Refusal::Denied),
        ProcedureRefusal::CheckFailed(number, message) => Ok(Refusal::CheckFailed(number, message)),
        ProcedureRefusal::FormulaFault(fault) => Ok(Refusal::FormulaFault(fault)),
        ProcedureRefusal::NotOneCell(object, column, count) => {
            Ok(Refusal::NotOneCell(object, column, count))
        }
        ProcedureRefusal::Full(which, limit) => Ok(Refusal::Full(which, limit)),
        ProcedureRefusal::NoMemory => Err(NoMemory),
    }
}
