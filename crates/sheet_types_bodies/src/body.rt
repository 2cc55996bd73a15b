// The bodies of procedures and views.
ghost use Rattle.std.specs.Prelude.{◌≡◌, IfOk};
ghost use Rattle.sheet_types_formulas.specs.Answers.{Answers};
ghost use Rattle.sheet_types_bodies.specs.Calls.{here};
ghost use Rattle.sheet_types_bodies.specs.Bodies.{first_variables as variables_at_start, start, allow_of as allowed, procedure_of, view_of};

use crate::block::in_order;
use crate::formula::{Sheet, formula_of};
use crate::part::parts;
use sheet_books::{Procedure, View};
use sheet_columns::{Columns, Core, Parameters};
use sheet_syntax_trees::Tree;
use sheet_types_formulas::{TypeRefusal, Variable};
use sheet_values::{Kind, Name, NoMemory};
use std::alloc::Global;

// The variables at the start: `caller`, an object of the callers' column, `operator`, a truth, then the parameters.
fn first_variables(
    alloc: Global,
    callers: u32,
    parameters: &[(Name, Kind)],
) -> Result<Vec<Variable>, NoMemory>
    ensures { IfOk result (λ list. list.items ≡ variables_at_start callers parameters.now) }
{
    let mut list = Vec::new(alloc);
    list.push(Variable {
        name: Name::of(alloc, "caller")?,
        kind: Kind::Object(callers),
    })?;
    list.push(Variable {
        name: Name::of(alloc, "operator")?,
        kind: Kind::Truth,
    })?;
    for parameter in parameters {
        list.push(Variable {
            name: parameter.0.copy()?,
            kind: parameter.1,
        })?;
    }
    Ok(list)
}

// The `allow` formula; where it was left out, `true`.
#[tactic(auto, unfolding(crate::specs::Bodies::allow_of))]
fn allow_of(
    alloc: Global,
    sheet: &Sheet<'_>,
    variables: &[Variable],
    written: &Option<Tree>,
) -> Result<Core, TypeRefusal>
    ensures { Answers result (allowed written.now (here sheet.now variables.now)) }
{
    match written {
        None => Ok(Core::Truth(true)),
        Some(formula) => formula_of(alloc, sheet, variables, Kind::Truth, formula),
    }
}

/// A procedure with its names resolved: its `allow` formula, then its statements in the order of the text.
///
/// The kinds are those of the columns by number, as far as they are known, `callers` is the object column of the callers, and the
/// parameters are those of the procedure with their types. In the body place 0 is `caller`, 1 is `operator`, and the parameters
/// follow.
///
/// The first refusal is `UnknownName` with the line of a name that means nothing there, or `Mismatch` with the line of the part at
/// fault, the wanted type or kind of column, and the one found. A statement's target comes before its other formula, with the test
/// of its kind of column. No other refusal comes but `NoMemory`.
#[tactic(auto, unfolding(crate::specs::Bodies::procedure_of))]
pub fn resolve_procedure(
    alloc: Global,
    columns: &Columns,
    kinds: &[Kind],
    callers: u32,
    parameters: Parameters,
    written: &sheet_define_data::Procedure,
) -> Result<Procedure, TypeRefusal>
    ensures { Answers result (procedure_of written.now parameters (start columns.now kinds.now callers parameters)) }
{
    let sheet = Sheet { columns, kinds };
    let name = written.name.copy()?;
    let mut variables = first_variables(alloc, callers, parameters.as_slice())?;
    let allow = allow_of(alloc, &sheet, variables.as_slice(), &written.allow)?;
    let block = in_order(alloc, &sheet, &mut variables, 1, written.body.as_slice())?;
    Ok(Procedure {
        name,
        parameters,
        allow,
        body: block.statements,
    })
}

/// A view with its names resolved: its `allow` formula, then its parts in the order of the text.
///
/// The kinds, `callers` and the parameters are those of `resolve_procedure`, and so are the refusals. A table's source comes before
/// its slots, which find its variable behind the parameters.
#[tactic(auto, unfolding(crate::specs::Bodies::view_of))]
pub fn resolve_view(
    alloc: Global,
    columns: &Columns,
    kinds: &[Kind],
    callers: u32,
    parameters: Parameters,
    written: &sheet_define_data::View,
) -> Result<View, TypeRefusal>
    ensures { Answers result (view_of written.now parameters (start columns.now kinds.now callers parameters)) }
{
    let sheet = Sheet { columns, kinds };
    let name = written.name.copy()?;
    let mut variables = first_variables(alloc, callers, parameters.as_slice())?;
    let allow = allow_of(alloc, &sheet, variables.as_slice(), &written.allow)?;
    let parts = parts(alloc, &sheet, &mut variables, written.parts.as_slice())?;
    Ok(View {
        name,
        parameters,
        allow,
        parts,
    })
}
