// Statements.
ghost use Rattle.std.specs.Prelude.{◌≡◌, ◌+◌, ◌++◌, ◌∷◌, [], IfOk, OnOk};
ghost use Rattle.sheet_types_formulas.specs.Answers.{Answers, AnswersAs};
ghost use Rattle.sheet_types_bodies.specs.Calls.{here, made_with, Begins};
ghost use Rattle.sheet_types_bodies.specs.Statements.{let_of, changed as changed_to, change_of, new_of, delete_of, check_of, reply_of};

use crate::formula::{Sheet, deletable, formula, formula_of};
use crate::target::{objects_target, state_target};
use sheet_columns::{Change, Core, CoreStatement, Statements, Target as CoreTarget};
use sheet_define_data::Target;
use sheet_syntax_trees::Tree;
use sheet_types_formulas::{TypeRefusal, Variable, kind_at};
use sheet_values::{Kind, Name, NoMemory};
use std::alloc::Global;

/// A statement with its names resolved, and the number of the next statement.
#[derive(Drop)]
pub(crate) struct Step {
    pub core: CoreStatement,
    pub next: u32,
}

/// The statements of a block with their names resolved, and the number of the next statement.
#[derive(Drop)]
pub(crate) struct Block {
    pub statements: Statements,
    pub next: u32,
}

/// A condition and the block behind it.
#[derive(Drop)]
pub(crate) struct Guarded {
    pub condition: Core,
    pub body: Block,
}

/// The number behind this one. One that fits no number is answered as want of memory.
pub(crate) fn after(number: u32) -> Result<u32, NoMemory>
    ensures { IfOk result (λ next. next ≡ number + 1) }
{
    match number.checked_add(1) {
        Some(next) => Ok(next),
        None => Err(NoMemory),
    }
}

/// `let x = e`
#[tactic(auto, unfolding(crate::specs::Statements::let_of))]
pub(crate) fn let_statement(
    alloc: Global,
    sheet: &Sheet<'_>,
    variables: &mut Vec<Variable>,
    number: u32,
    name: &Name,
    value: &Tree,
) -> Result<Step, TypeRefusal>
    ensures told { AnswersAs (made_with sheet.now variables.new.items) result (let_of name.now value.now (here sheet.now variables.old.items) number) }
    ensures front { OnOk result (Begins variables.old.items variables.new.items) }
{
    let next = after(number)?;
    let name = name.copy()?;
    variables.reserve(1)?;
    let value = formula(alloc, sheet, variables.as_slice(), value)?;
    variables.push_reserved(Variable {
        name,
        kind: value.kind,
    });
    let core = CoreStatement::Let {
        number,
        value: value.core,
    };
    Ok(Step { core, next })
}

// The rest of `set t = e`, `add e to t` and `remove e from t`, where the target is resolved.
#[tactic(auto, unfolding(crate::specs::Statements::changed))]
fn changed(
    alloc: Global,
    sheet: &Sheet<'_>,
    variables: &[Variable],
    number: u32,
    change: Change,
    target: CoreTarget,
    value: &Tree,
) -> Result<CoreStatement, TypeRefusal>
    ensures { Answers result (changed_to change value.now (here sheet.now variables.now) number target) }
{
    let wanted = kind_at(sheet.kinds, target.column);
    let value = formula_of(alloc, sheet, variables, wanted, value)?;
    Ok(CoreStatement::Change {
        number,
        change,
        target,
        value,
    })
}

/// `set t = e`, `add e to t`, `remove e from t`
#[tactic(auto, unfolding(crate::specs::Statements::change_of))]
pub(crate) fn change_statement(
    alloc: Global,
    sheet: &Sheet<'_>,
    variables: &[Variable],
    number: u32,
    change: Change,
    target: &Target,
    value: &Tree,
) -> Result<Step, TypeRefusal>
    ensures { AnswersAs (made_with sheet.now variables.now) result (change_of change target.now value.now (here sheet.now variables.now) number) }
{
    let next = after(number)?;
    let target = state_target(alloc, sheet, variables, target)?;
    let core = changed(alloc, sheet, variables, number, change, target, value)?;
    Ok(Step { core, next })
}

/// `new x = t`
#[tactic(auto, unfolding(crate::specs::Statements::new_of))]
pub(crate) fn new_statement(
    alloc: Global,
    sheet: &Sheet<'_>,
    variables: &mut Vec<Variable>,
    number: u32,
    name: &Name,
    target: &Target,
) -> Result<Step, TypeRefusal>
    ensures told { AnswersAs (made_with sheet.now variables.new.items) result (new_of name.now target.now (here sheet.now variables.old.items) number) }
    ensures front { OnOk result (Begins variables.old.items variables.new.items) }
{
    let next = after(number)?;
    let name = name.copy()?;
    variables.reserve(1)?;
    let target = objects_target(alloc, sheet, variables.as_slice(), target)?;
    variables.push_reserved(Variable {
        name,
        kind: Kind::Object(target.column),
    });
    let core = CoreStatement::New { number, target };
    Ok(Step { core, next })
}

/// `delete e`
#[tactic(auto, unfolding(crate::specs::Statements::delete_of))]
pub(crate) fn delete_statement(
    alloc: Global,
    sheet: &Sheet<'_>,
    variables: &[Variable],
    number: u32,
    objects: &Tree,
) -> Result<Step, TypeRefusal>
    ensures { AnswersAs (made_with sheet.now variables.now) result (delete_of objects.now (here sheet.now variables.now) number) }
{
    let next = after(number)?;
    let found = formula(alloc, sheet, variables, objects)?;
    let objects = deletable(alloc, sheet, found)?;
    let core = CoreStatement::Delete { number, objects };
    Ok(Step { core, next })
}

/// `check e else "m"`
#[tactic(auto, unfolding(crate::specs::Statements::check_of))]
pub(crate) fn check_statement(
    alloc: Global,
    sheet: &Sheet<'_>,
    variables: &[Variable],
    number: u32,
    condition: &Tree,
    message: &Name,
) -> Result<Step, TypeRefusal>
    ensures { AnswersAs (made_with sheet.now variables.now) result (check_of condition.now message.now (here sheet.now variables.now) number) }
{
    let next = after(number)?;
    let message = message.copy()?;
    let condition = formula_of(alloc, sheet, variables, Kind::Truth, condition)?;
    let core = CoreStatement::Check {
        number,
        condition,
        message,
    };
    Ok(Step { core, next })
}

/// `reply e`
#[tactic(auto, unfolding(crate::specs::Statements::reply_of))]
pub(crate) fn reply_statement(
    alloc: Global,
    sheet: &Sheet<'_>,
    variables: &[Variable],
    number: u32,
    value: &Tree,
) -> Result<Step, TypeRefusal>
    ensures { AnswersAs (made_with sheet.now variables.now) result (reply_of value.now (here sheet.now variables.now) number) }
{
    let next = after(number)?;
    let value = formula(alloc, sheet, variables, value)?;
    let core = CoreStatement::Reply {
        number,
        value: value.core,
    };
    Ok(Step { core, next })
}
