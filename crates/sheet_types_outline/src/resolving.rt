// The second pass: types, `callers` and first values.
ghost use Rattle.std.specs.Prelude.{◌≡◌, ◌<◌, ◌∷◌, [], length, map, true, IfOk};
ghost use Rattle.sheet_columns.specs.Contents.{holds_objects};
ghost use Rattle.sheet_types_formulas.specs.Answers.{Answers};
ghost use Rattle.sheet_types_outline.specs.Columns.{AreFitting, IsCounted, is_object_node, objects_in};
ghost use Rattle.sheet_types_outline.specs.Orderly.{IsOrderly, IsUnsignedAt, IsUnsignedFirst};
ghost use Rattle.sheet_types_outline.specs.Resolving.{resolve_parameter, parameters_of as typed_parameters, resolve_column, resolve as resolved_with, nothing_resolved, all_resolved};
ghost use Rattle.sheet_types_outline.specs.Steps.{Leaves};

use crate::contents::Contents;
use crate::types::{column_content, kind_of, object_column_at};
use sheet_columns::{Columns, Parameters, Sequence};
use sheet_define_data::{Column, Declaration, Parameter};
use sheet_types_formulas::TypeRefusal;
use sheet_values::NoMemory;
use std::alloc::Global;

/// What is known of types so far.
#[derive(Drop)]
pub(crate) struct Resolved {
    /// What the columns hold.
    pub(crate) contents: Contents,
    /// The object column of the callers, the root where none is named.
    pub(crate) callers: u32,
    /// The parameters of the procedures.
    pub(crate) procedures: Sequence<Parameters>,
    /// The parameters of the views.
    pub(crate) views: Sequence<Parameters>,
}

// The parameters with their types. `UnknownName` with the line of the first type that is no object column.
fn parameters_of(
    alloc: Global,
    columns: &Columns,
    parameters: &[Parameter],
) -> Result<Parameters, TypeRefusal>
    ensures { Answers result (typed_parameters columns.now parameters.now) }
{
    let mut typed = Parameters::new(alloc);
    for parameter in parameters {
        let kind = kind_of(columns, &parameter.values)?;
        typed.push((parameter.name.copy()?, kind))?;
    }
    Ok(typed)
}

impl Resolved {
    // What the root holds, which is the column of the callers where none is named.
    fn new(alloc: Global) -> Result<Resolved, NoMemory>
        ensures { IfOk result (λ resolved. resolved ≡ nothing_resolved) }
    {
        Ok(Resolved {
            contents: Contents::new(alloc)?,
            callers: 0,
            procedures: Sequence::new(alloc),
            views: Sequence::new(alloc),
        })
    }

    // Adds what the next column holds.
    fn resolve_column(
        &mut self,
        alloc: Global,
        columns: &Columns,
        column: &Column,
    ) -> Result<(), TypeRefusal>
        requires counted { length self.old.contents < length columns.now }
        requires unsigned { IsUnsignedFirst column.now.content }
        ensures { Leaves result self.new (resolve_column columns.now self.old column.now) }
    {
        let counted = self.contents.len() < columns.count() as usize;
        prove!(counted);
        let number = self.contents.len() as u32;
        let content = column_content(alloc, columns, number, column.depth, &column.content)?;
        self.contents.push(content)?;
        Ok(())
    }

    // Adds what is told of types in a declaration.
    fn resolve(
        &mut self,
        alloc: Global,
        columns: &Columns,
        declaration: &Declaration,
    ) -> Result<(), TypeRefusal>
        requires counted { IsCounted columns.now self.old.contents declaration.now }
        requires unsigned { IsUnsignedAt declaration.now }
        ensures { Leaves result self.new (resolved_with columns.now self.old declaration.now) }
    {
        match declaration {
            Declaration::Callers { path, .. } => {
                self.callers = object_column_at(columns, path)?;
                Ok(())
            }
            Declaration::Column(column) => self.resolve_column(alloc, columns, column),
            Declaration::Procedure(procedure) => {
                let parameters = parameters_of(alloc, columns, procedure.parameters.as_slice())?;
                self.procedures.push(parameters)?;
                Ok(())
            }
            Declaration::View(view) => {
                let parameters = parameters_of(alloc, columns, view.parameters.as_slice())?;
                self.views.push(parameters)?;
                Ok(())
            }
        }
    }
}

/// All that a definition tells of types, among its columns. The refusals, of which the first in the text comes: `UnknownName` with
/// the line of a path that leads to no object column; `Mismatch` with the line of a first value of another type than its column's,
/// that type and its own; `NeedsFirst` with the path of a column of one value that stands directly under the root and has no
/// first value. Of one column they come in this order.
pub(crate) fn resolve_all(
    alloc: Global,
    columns: &Columns,
    declarations: &[Declaration],
) -> Result<Resolved, TypeRefusal>
    requires orderly { IsOrderly declarations.now }
    requires sorts { map is_object_node columns.now ≡ true ∷ objects_in declarations.now }
    ensures resolved { Answers result (all_resolved columns.now declarations.now) }
    ensures sorts { IfOk result (λ r. map holds_objects r.contents ≡ map is_object_node columns.now) }
    ensures fitting { IfOk result (λ r. AreFitting r.contents) }
{
    let mut known = Resolved::new(alloc)?;
    for declaration in declarations {
        match known.resolve(alloc, columns, declaration) {
            Ok(()) => {}
            Err(refusal) => return Err(refusal),
        }
    }
    Ok(known)
}
