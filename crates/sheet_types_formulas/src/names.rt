// What names mean: variables, and columns in reach.
ghost use Rattle.std.specs.Prelude.{◌≡◌, ◌<◌, ◌+◌, ◌++◌, ◌∷◌, [], length, codes, IfOk, IfSome, option_map};
ghost use Rattle.sheet_columns.specs.Tree.{column_of};
ghost use Rattle.sheet_types_formulas.specs.Answers.{Answers};
ghost use Rattle.sheet_types_formulas.specs.Names.{within, variable_from as last_variable, variable as innermost, step_to as step_to_column, child as child_step, upward, nearest as nearest_column, column_in_reach as column_near, named as meaning_of, word as word_in_reach};

use crate::kinds::{above, kind_at};
use crate::{Scope, TypeRefusal, Typed, Variable};
use sheet_columns::{Column, Core};
use sheet_values::{Kind, Name, NoMemory};
use sqlite_items::Boxed;
use std::alloc::Global;

/// The variables with one more, behind the others.
pub fn with_variable(
    alloc: Global,
    bound: &[Variable],
    name: &Name,
    kind: Kind,
) -> Result<Vec<Variable>, NoMemory>
    ensures { IfOk result (λ list. list.items ≡ bound.now ++ record { name = name.now; kind = kind } ∷ []) }
{
    let mut list = Vec::new(alloc);
    for variable in bound {
        list.push(Variable {
            name: variable.name.copy()?,
            kind: variable.kind,
        })?;
    }
    list.push(Variable {
        name: name.copy()?,
        kind,
    })?;
    Ok(list)
}

// The sum of two positions. One that fits no position is answered as want of memory.
fn position(first: usize, more: usize) -> Result<u32, NoMemory>
    ensures { IfOk result (λ sum. sum ≡ first + more) }
{
    let Some(sum) = first.checked_add(more) else {
        return Err(NoMemory);
    };
    match u32::try_from(sum) {
        Ok(position) => Ok(position),
        Err(_) => Err(NoMemory),
    }
}

// The last of these variables that has the name, where the first has that position.
fn variable_from(
    first: usize,
    line: u32,
    name: &[u8],
    variables: &[Variable],
) -> Result<Option<Typed>, NoMemory>
    ensures { IfOk result (λ found. found ≡ last_variable first line name.now variables.now) }
{
    let mut rest = variables;
    while let Some((last, others)) = rest.split_last() {
        if last.name.bytes() == name {
            let position = position(first, others.len())?;
            return Ok(Some(Typed {
                line,
                core: Core::Variable(position),
                kind: last.kind,
            }));
        }
        rest = others;
    }
    Ok(None)
}

// The innermost variable of that name.
fn variable(
    scope: &Scope<'_>,
    bound: &[Variable],
    line: u32,
    name: &[u8],
) -> Result<Option<Typed>, NoMemory>
    ensures { IfOk result (λ found. found ≡ innermost (within scope.now bound.now) line name.now) }
{
    if let Some(found) = variable_from(scope.variables.len(), line, name, bound)? {
        return Ok(Some(found));
    }
    variable_from(0, line, name, scope.variables)
}

// The step to a column, of which the formula gives the objects above.
fn step_to(
    alloc: Global,
    scope: &Scope<'_>,
    line: u32,
    objects: Core,
    column: u32,
) -> Result<Typed, NoMemory>
    requires { column < length scope.now.columns.now }
    ensures { IfOk result (λ t. Some t ≡ option_map (step_to_column (within scope.now []) line objects column) (column_of scope.now.columns.now column)) }
{
    let objects = Boxed::new(alloc, objects)?;
    let (core, kind) = match scope.columns.get(column) {
        Column::Object => (Core::ObjectStep(objects, column), Kind::Object(column)),
        Column::State { .. } => (
            Core::StateStep(objects, column),
            kind_at(scope.kinds, column),
        ),
        Column::Formula { .. } => (
            Core::FormulaStep(objects, column),
            kind_at(scope.kinds, column),
        ),
    };
    Ok(Typed { line, core, kind })
}

/// The step from objects, which are of the column `above`, to the column of that name directly under it.
pub(crate) fn child(
    alloc: Global,
    scope: &Scope<'_>,
    line: u32,
    objects: Core,
    above: u32,
    name: &[u8],
) -> Result<Option<Typed>, NoMemory>
    ensures { IfOk result (λ found. found ≡ child_step (within scope.now []) line objects above name.now) }
{
    match scope.columns.child_named(above, name) {
        Some(column) => Ok(Some(step_to(alloc, scope, line, objects, column)?)),
        None => Ok(None),
    }
}

// The column of that name under the column, else under the one above, and so on to the root. The formula gives the
// objects of the column.
fn nearest(
    alloc: Global,
    scope: &Scope<'_>,
    line: u32,
    name: &[u8],
    objects: Core,
    column: u32,
) -> Result<Option<Typed>, NoMemory>
    ensures { IfOk result (λ found. found ≡ nearest_column (within scope.now []) line name.now objects (upward column scope.now.columns.now column)) }
{
    if let Some(child) = scope.columns.child_named(column, name) {
        return Ok(Some(step_to(alloc, scope, line, objects, child)?));
    }
    let Some(next) = above(scope.columns, column) else {
        return Ok(None);
    };
    let up = Core::Up(Boxed::new(alloc, objects)?);
    nearest(alloc, scope, line, name, up, next)
}

// The column of that name that is nearest to `this`; where there is no `this`, the one under the root.
fn column_in_reach(
    alloc: Global,
    scope: &Scope<'_>,
    bound: &[Variable],
    line: u32,
    name: &[u8],
) -> Result<Option<Typed>, NoMemory>
    ensures { IfOk result (λ found. found ≡ column_near (within scope.now bound.now) line name.now (innermost (within scope.now bound.now) line (codes "this"))) }
{
    let Some(this) = variable(scope, bound, line, b"this")? else {
        return child(alloc, scope, line, Core::Root, 0, name);
    };
    match this.kind {
        Kind::Object(column) => nearest(alloc, scope, line, name, this.core, column),
        _ => Ok(None),
    }
}

/// What a name means: the innermost variable of that name; else the column of that name that is nearest to `this`, under
/// its column or one above it, or, where there is no `this`, the one under the root. Else it is unknown.
#[tactic(auto, unfolding(crate::specs::Names::named))]
pub fn named(
    alloc: Global,
    scope: &Scope<'_>,
    bound: &[Variable],
    line: u32,
    name: &[u8],
) -> Result<Typed, TypeRefusal>
    ensures { Answers result (meaning_of (within scope.now bound.now) line name.now) }
{
    if let Some(found) = variable(scope, bound, line, name)? {
        return Ok(found);
    }
    match column_in_reach(alloc, scope, bound, line, name)? {
        Some(found) => Ok(found),
        None => Err(TypeRefusal::UnknownName(line)),
    }
}

/// `this`, `caller` or `operator`, where it is in reach. Else it is unknown.
#[tactic(auto, unfolding(crate::specs::Names::word))]
pub fn word(
    scope: &Scope<'_>,
    bound: &[Variable],
    line: u32,
    name: &[u8],
) -> Result<Typed, TypeRefusal>
    ensures { Answers result (word_in_reach (within scope.now bound.now) line name.now) }
{
    match variable(scope, bound, line, name)? {
        Some(found) => Ok(found),
        None => Err(TypeRefusal::UnknownName(line)),
    }
}
