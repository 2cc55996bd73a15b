// The third pass.
ghost use Rattle.std.specs.Prelude.{◌≡◌, ◌<◌, ◌≤◌, ◌+◌, ◌∷◌, [], length, IfOk, slice_index_or};
ghost use Rattle.sheet_types_formulas.specs.Answers.{Answers};
ghost use Rattle.sheet_types_outline.specs.Columns.{objects_at, objects_in};
ghost use Rattle.sheet_types_outline.specs.Steps.{Leaves};
ghost use Rattle.sheet_types.specs.Elaboration.{add_column as with_column_body, with_procedure, with_view, judge as judge_declaration, no_bodies, all_judged};

use crate::columns::column_body;
use sheet_books::{Procedure, View};
use sheet_columns::{Core, Parameters, Sequence};
use sheet_define_data::{Column, Declaration};
use sheet_types_bodies::{resolve_procedure, resolve_view};
use sheet_types_formulas::TypeRefusal;
use sheet_types_outline::Outline;
use sheet_types_rounds::formula_in;
use sheet_values::{Kind, Name, NoMemory};
use std::alloc::Global;

/// What the third pass gives.
#[derive(Drop)]
pub(crate) struct Bodies {
    /// The formulas of the columns by number.
    pub formulas: Sequence<Option<Core>>,
    pub procedures: Sequence<Procedure>,
    pub views: Sequence<View>,
}

// The parameters at a place; none past the end.
fn parameters_at(alloc: Global, lists: &[Parameters], place: usize) -> Result<Parameters, NoMemory>
    ensures { IfOk result (λ list. list ≡ slice_index_or lists.now place []) }
{
    match lists.get(place) {
        Some(list) => copied(alloc, list.as_slice()),
        None => Ok(Parameters::new(alloc)),
    }
}

// A copy of these parameters.
fn copied(alloc: Global, parameters: &[(Name, Kind)]) -> Result<Parameters, NoMemory>
    ensures { IfOk result (λ list. list ≡ parameters.now) }
{
    let mut list = Parameters::new(alloc);
    for parameter in parameters {
        list.push((parameter.0.copy()?, parameter.1))?;
    }
    Ok(list)
}

impl Bodies {
    // What there is of the root alone.
    fn new(alloc: Global) -> Result<Bodies, NoMemory>
        ensures { IfOk result (λ bodies. bodies ≡ no_bodies) }
    {
        let mut formulas = Sequence::new(alloc);
        formulas.push(None)?;
        Ok(Bodies {
            formulas,
            procedures: Sequence::new(alloc),
            views: Sequence::new(alloc),
        })
    }

    // Adds the formula of the next column, or none.
    fn add_column(
        &mut self,
        alloc: Global,
        outline: &Outline,
        kinds: &[Kind],
        column: &Column,
    ) -> Result<(), TypeRefusal>
        requires not_root { 0 < length self.old.formulas }
        requires counted { length self.old.formulas < length outline.now.columns }
        requires few { length outline.now.columns ≤ 1000 }
        ensures { Leaves result self.new (with_column_body outline.now kinds.now self.old column.now) }
    {
        let number = self.formulas.len() as u32;
        let formula = formula_in(&column.content);
        let body = column_body(alloc, &outline.columns, kinds, number, formula)?;
        self.formulas.push(body)?;
        Ok(())
    }

    // Adds the next procedure, with the outline's parameters for it.
    fn add_procedure(
        &mut self,
        alloc: Global,
        outline: &Outline,
        kinds: &[Kind],
        written: &sheet_define_data::Procedure,
    ) -> Result<(), TypeRefusal>
        ensures { Leaves result self.new (with_procedure outline.now kinds.now self.old written.now (slice_index_or outline.now.procedures (length self.old.procedures) [])) }
    {
        let lists = outline.procedures.as_slice();
        let parameters = parameters_at(alloc, lists, self.procedures.len())?;
        let (columns, callers) = (&outline.columns, outline.callers);
        let procedure = resolve_procedure(alloc, columns, kinds, callers, parameters, written)?;
        self.procedures.push(procedure)?;
        Ok(())
    }

    // Adds the next view, with the outline's parameters for it.
    fn add_view(
        &mut self,
        alloc: Global,
        outline: &Outline,
        kinds: &[Kind],
        written: &sheet_define_data::View,
    ) -> Result<(), TypeRefusal>
        ensures { Leaves result self.new (with_view outline.now kinds.now self.old written.now (slice_index_or outline.now.views (length self.old.views) [])) }
    {
        let lists = outline.views.as_slice();
        let parameters = parameters_at(alloc, lists, self.views.len())?;
        let (columns, callers) = (&outline.columns, outline.callers);
        let view = resolve_view(alloc, columns, kinds, callers, parameters, written)?;
        self.views.push(view)?;
        Ok(())
    }

    // Judges a declaration, and adds what it gives.
    fn judge(
        &mut self,
        alloc: Global,
        outline: &Outline,
        kinds: &[Kind],
        declaration: &Declaration,
    ) -> Result<(), TypeRefusal>
        requires not_root { 0 < length self.old.formulas }
        requires counted { length self.old.formulas + length (objects_at declaration.now) ≤ length outline.now.columns }
        requires few { length outline.now.columns ≤ 1000 }
        ensures { Leaves result self.new (judge_declaration outline.now kinds.now self.old declaration.now) }
    {
        match declaration {
            Declaration::Callers { .. } => Ok(()),
            Declaration::Column(column) => self.add_column(alloc, outline, kinds, column),
            Declaration::Procedure(written) => self.add_procedure(alloc, outline, kinds, written),
            Declaration::View(written) => self.add_view(alloc, outline, kinds, written),
        }
    }
}

/// All formulas, procedures and views with their names resolved, or the first refusal in the order of the text: of a formula,
/// a procedure or a view, or of a formula column behind its formula.
pub(crate) fn judge_all(
    alloc: Global,
    outline: &Outline,
    kinds: &[Kind],
    declarations: &[Declaration],
) -> Result<Bodies, TypeRefusal>
    requires counted { length (objects_in declarations.now) < length outline.now.columns }
    requires few { length outline.now.columns ≤ 1000 }
    ensures { Answers result (all_judged outline.now kinds.now declarations.now) }
{
    let mut bodies = Bodies::new(alloc)?;
    for declaration in declarations {
        match bodies.judge(alloc, outline, kinds, declaration) {
            Ok(()) => {}
            Err(refusal) => return Err(refusal),
        }
    }
    Ok(bodies)
}
