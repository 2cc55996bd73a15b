// The first pass: all that has a name gets its place.
ghost use Rattle.std.specs.Prelude.{◌≡◌, ◌<◌, ◌≤◌, ◌∷◌, [], length, map, true, slice_index_or, Some, IfOk};
ghost use Rattle.sheet_columns.specs.Tree.{column_of};
ghost use Rattle.sheet_types_formulas.specs.Answers.{Answers};
ghost use Rattle.sheet_types_outline.specs.Orderly.{IsOrderlyColumn, IsOrderlyAt, IsOrderly};
ghost use Rattle.sheet_types_outline.specs.Columns.{AreObjects, is_object_node, objects_in};
ghost use Rattle.sheet_types_outline.specs.Naming.{untyped, refusal_on, name_callers, name_under, name_column, name_parameter, name_show, name_part, name_procedure, name_view, name_declaration, nothing_named, parameter_names as names_of_parameters, slot_names as names_of_slots, part_names as names_of_parts, all_named};
ghost use Rattle.sheet_types_outline.specs.Steps.{Leaves};

use crate::name_table::NameTable;
use crate::open_columns::OpenColumns;
use sheet_columns::{Column, ColumnRefusal, Columns};
use sheet_define_data::{
    Column as WrittenColumn, Content, Declaration, Parameter, Part, Procedure, Show, View,
};
use sheet_types_formulas::TypeRefusal;
use sheet_values::{Kind, NoMemory};
use std::alloc::Global;

/// What is named so far.
#[derive(Drop)]
pub(crate) struct Named {
    /// The columns, whose values have no types yet.
    pub(crate) columns: Columns,
    /// The object columns that are open.
    pub(crate) opened: OpenColumns,
    /// Whether `callers` stood.
    pub(crate) has_callers: bool,
    pub(crate) procedures: NameTable,
    pub(crate) views: NameTable,
}

// A column whose values have no type yet.
fn untyped(content: &Content) -> Column
    ensures { result ≡ untyped content.now }
{
    match content {
        Content::Object => Column::Object,
        Content::State { one, .. } => Column::State {
            kind: Kind::Unknown,
            one: *one,
            first: None,
        },
        Content::Formula { .. } => Column::Formula {
            kind: Kind::Unknown,
        },
    }
}

// The refusal of a column that stands on that line.
fn refusal_on(line: u32, refusal: ColumnRefusal) -> TypeRefusal
    ensures { result ≡ refusal_on line refusal }
{
    match refusal {
        ColumnRefusal::NameTaken(_) => TypeRefusal::Doubled(line),
        ColumnRefusal::TooDeep => TypeRefusal::TooDeep(line),
        ColumnRefusal::TooMany => TypeRefusal::TooMany(line),
        ColumnRefusal::NoMemory => TypeRefusal::NoMemory,
    }
}

// The names of parameters, which differ.
fn parameter_names(alloc: Global, parameters: &[Parameter]) -> Result<NameTable, TypeRefusal>
    ensures { Answers result (names_of_parameters parameters.now) }
{
    let mut names = NameTable::new(alloc);
    for parameter in parameters {
        names.add(parameter.line, &parameter.name)?;
    }
    Ok(names)
}

// The names of a table's slots, which differ.
fn slot_names(alloc: Global, shows: &[Show]) -> Result<NameTable, TypeRefusal>
    ensures { Answers result (names_of_slots shows.now) }
{
    let mut names = NameTable::new(alloc);
    for show in shows {
        names.add(show.line, &show.name)?;
    }
    Ok(names)
}

// Adds the name of a part. The names of a table's slots differ.
fn name_part(alloc: Global, names: &mut NameTable, part: &Part) -> Result<(), TypeRefusal>
    ensures { Leaves result names.new (name_part names.old part.now) }
{
    match part {
        Part::Show(show) => names.add(show.line, &show.name),
        Part::Table {
            line,
            name,
            shows,
            ..
        } => {
            names.add(*line, name)?;
            slot_names(alloc, shows.as_slice())?;
            Ok(())
        }
    }
}

// The names of a view's parts, which differ.
fn part_names(alloc: Global, parts: &[Part]) -> Result<NameTable, TypeRefusal>
    ensures { Answers result (names_of_parts parts.now) }
{
    let mut names = NameTable::new(alloc);
    for part in parts {
        name_part(alloc, &mut names, part)?;
    }
    Ok(names)
}

impl Named {
    // The root alone, which is open.
    fn new(alloc: Global) -> Result<Named, NoMemory>
        ensures { IfOk result (λ named. named ≡ nothing_named) }
    {
        Ok(Named {
            columns: Columns::new(alloc)?,
            opened: OpenColumns::new(alloc)?,
            has_callers: false,
            procedures: NameTable::new(alloc),
            views: NameTable::new(alloc),
        })
    }

    /// The columns alone.
    pub(crate) fn into_columns(self) -> Columns
        ensures { result ≡ self.columns }
    {
        self.columns
    }

    // `Doubled` where `callers` stood before.
    fn name_callers(&mut self, line: u32) -> Result<(), TypeRefusal>
        ensures { Leaves result self.new (name_callers self.old line) }
    {
        if self.has_callers {
            return Err(TypeRefusal::Doubled(line));
        }
        self.has_callers = true;
        Ok(())
    }

    // Adds a column directly under this one.
    #[tactic(auto, unfolding(crate::specs::Naming::name_under))]
    fn name_under(&mut self, above: u32, column: &WrittenColumn) -> Result<(), TypeRefusal>
        requires above_object { column_of self.old.columns above ≡ Some Column.Object }
        requires short { length column.now.name ≤ 63 }
        requires inside { column.now.depth < length self.old.opened }
        ensures { Leaves result self.new (name_under self.old above column.now) }
    {
        let name = column.name.copy()?;
        let content = untyped(&column.content);
        let number = match self.columns.add(above, name, content) {
            Ok(number) => number,
            Err(refusal) => return Err(refusal_on(column.line, refusal)),
        };
        self.opened.go_on(column.depth, number, &column.content)?;
        Ok(())
    }

    // Adds a column under those that are open.
    fn name_column(&mut self, column: &WrittenColumn) -> Result<(), TypeRefusal>
        requires objects { AreObjects self.old.columns self.old.opened }
        requires orderly { IsOrderlyColumn (length self.old.opened) column.now }
        ensures { Leaves result self.new (name_column self.old column.now) }
    {
        let above = self.opened.above(column.depth);
        self.name_under(above, column)
    }

    // Adds a procedure. The names of its parameters differ.
    #[tactic(auto, unfolding(crate::specs::Naming::name_procedure))]
    fn name_procedure(&mut self, alloc: Global, procedure: &Procedure) -> Result<(), TypeRefusal>
        ensures { Leaves result self.new (name_procedure self.old procedure.now) }
    {
        self.procedures.add(procedure.line, &procedure.name)?;
        parameter_names(alloc, procedure.parameters.as_slice())?;
        Ok(())
    }

    // Adds a view. The names of its parameters differ, and those of its parts.
    #[tactic(auto, unfolding(crate::specs::Naming::name_view))]
    fn name_view(&mut self, alloc: Global, view: &View) -> Result<(), TypeRefusal>
        ensures { Leaves result self.new (name_view self.old view.now) }
    {
        self.views.add(view.line, &view.name)?;
        parameter_names(alloc, view.parameters.as_slice())?;
        part_names(alloc, view.parts.as_slice())?;
        Ok(())
    }

    // Adds what a declaration names.
    fn name_declaration(
        &mut self,
        alloc: Global,
        declaration: &Declaration,
    ) -> Result<(), TypeRefusal>
        requires objects { AreObjects self.old.columns self.old.opened }
        requires orderly { IsOrderlyAt (length self.old.opened) declaration.now }
        ensures { Leaves result self.new (name_declaration self.old declaration.now) }
    {
        match declaration {
            Declaration::Callers { line, .. } => self.name_callers(*line),
            Declaration::Column(column) => self.name_column(column),
            Declaration::Procedure(procedure) => self.name_procedure(alloc, procedure),
            Declaration::View(view) => self.name_view(alloc, view),
        }
    }
}

/// All that a definition names. The refusals, of which the first in the text comes: `Doubled` with the line of a name that stands
/// in its place already, or of a second `callers`; `TooDeep` with that of a column nine below the root; `TooMany` with that of
/// the 1,001st column, the root counted. Of one column they come in this order.
pub(crate) fn name_all(alloc: Global, declarations: &[Declaration]) -> Result<Named, TypeRefusal>
    requires { IsOrderly declarations.now }
    ensures named { Answers result (all_named declarations.now) }
    ensures sorts { IfOk result (λ named. map is_object_node named.columns ≡ true ∷ objects_in declarations.now) }
{
    let mut named = Named::new(alloc)?;
    for declaration in declarations {
        match named.name_declaration(alloc, declaration) {
            Ok(()) => {}
            Err(refusal) => return Err(refusal),
        }
    }
    Ok(named)
}
