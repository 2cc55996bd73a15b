// The variables that the formulas of a procedure or a view begin with.
ghost use Rattle.std.specs.Prelude.{◌≡◌, IfOk};
ghost use Rattle.sheet_meaning.specs.Formula.{objects_of};
ghost use Rattle.sheet_meaning.specs.Procedure.{first_variables};

use sheet_columns::Variables;
use sheet_meaning::Caller;
use sheet_values::{NoMemory, Set, Value, Values};
use std::alloc::Global;

/// The variables at the start: `caller`, `operator`, and the arguments.
pub fn first_variables(
    alloc: Global,
    caller: Caller,
    arguments: &Values,
) -> Result<Variables, NoMemory>
    ensures { IfOk result (λ variables. variables ≡ first_variables caller arguments.now) }
{
    let mut variables = Variables::new(alloc);
    variables.push(caller_set(alloc, caller.object)?)?;
    variables.push(Set::one(alloc, Value::Truth(caller.operator))?)?;
    let mut rest = arguments.as_slice();
    while let Some((argument, more)) = rest.split_first() {
        variables.push(Set::one(alloc, argument.copy()?)?)?;
        rest = more;
    }
    Ok(variables)
}

// The caller's object, where it has one.
fn caller_set(alloc: Global, object: Option<u64>) -> Result<Set, NoMemory>
    ensures { IfOk result (λ set. set ≡ objects_of object) }
{
    match object {
        Some(number) => Set::one(alloc, Value::Object(number)),
        None => Ok(Set::empty(alloc)),
    }
}
