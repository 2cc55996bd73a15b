// What calls come to, in the form of replies.
use sheet_columns::Columns;
use sheet_procs::ProcedureRefusal;
use sheet_values::{NoMemory, Set};
use std::alloc::Global;
use test_language_replies::{refusal_text, set_text};
use test_procs_calls::{Called, refusal_of};

/// A reply is written out where its text has no more bytes than this.
const LONGEST_REPLY: usize = 200;

// A reply; of a long one, how many values it has.
fn reply_text(alloc: Global, reply: &Set) -> Result<String, NoMemory> {
    let told = set_text(alloc, reply.as_slice())?;
    if told.as_str().len() > LONGEST_REPLY {
        let count = reply.len();
        return Ok(format!(in alloc; "{count} values")?);
    }
    Ok(told)
}

// Why a procedure was refused.
fn refused_text(
    alloc: Global,
    columns: &Columns,
    refusal: ProcedureRefusal,
) -> Result<String, NoMemory> {
    let refusal = refusal_of(refusal)?;
    refusal_text(alloc, columns, &refusal)
}

/// What a call comes to.
pub fn called_text(alloc: Global, columns: &Columns, called: Called) -> Result<String, NoMemory> {
    match called {
        Called::NoProcedure => Ok(String::from_str(alloc, "no procedure")?),
        Called::NoCaller => Ok(String::from_str(alloc, "no caller")?),
        Called::BadArgument(number) => Ok(format!(in alloc; "bad argument {number}")?),
        Called::Ran(Ok(reply)) => reply_text(alloc, &reply),
        Called::Ran(Err(refusal)) => refused_text(alloc, columns, refusal),
    }
}
