// Statements in blocks, and those that hold blocks.
ghost use Rattle.std.specs.Prelude.{◌≡◌, [], OnOk};
ghost use Rattle.sheet_types_formulas.specs.Answers.{AnswersAs};
ghost use Rattle.sheet_types_bodies.specs.Calls.{here, made_with, made_block, made_guarded, with_made, Begins};
ghost use Rattle.sheet_types_bodies.specs.Statements.{listed, statement as statement_of, in_block, guarded_block, if_statement as if_statement_of, if_else_statement as if_else_statement_of, for_statement as for_statement_of};

use crate::formula::{Sheet, formula, formula_of};
use crate::statement::{
    Block, Guarded, Step, after, change_statement, check_statement, delete_statement,
    let_statement, new_statement, reply_statement,
};
use sheet_columns::{Change, Core, CoreStatement, Statements};
use sheet_define_data::Statement;
use sheet_syntax_trees::Tree;
use sheet_types_formulas::{TypeRefusal, Variable};
use sheet_values::{Kind, Name};
use std::alloc::Global;

// A condition with the block behind it, where that isn't refused.
fn with_block(condition: Core, body: Result<Block, TypeRefusal>) -> Result<Guarded, TypeRefusal>
    ensures { result ≡ with_made body (λ b. record { condition = condition; body = b }) }
{
    match body {
        Ok(body) => Ok(Guarded { condition, body }),
        Err(refusal) => Err(refusal),
    }
}

// `if e { .. }`
fn without_else(alloc: Global, number: u32, guarded: Guarded) -> Step
    ensures { result ≡ record { core = CoreStatement.If number guarded.condition guarded.body.statements (listed []); next = guarded.body.next } }
{
    let otherwise = Statements::new(alloc);
    let Guarded { condition, body } = guarded;
    Step {
        core: CoreStatement::If {
            number,
            condition,
            body: body.statements,
            otherwise,
        },
        next: body.next,
    }
}

// `if e { .. } else { .. }`, where the block behind `else` isn't refused.
fn either(
    number: u32,
    guarded: Guarded,
    otherwise: Result<Block, TypeRefusal>,
) -> Result<Step, TypeRefusal>
    ensures { result ≡ with_made otherwise (λ o. record { core = CoreStatement.If number guarded.condition guarded.body.statements o.statements; next = o.next }) }
{
    match otherwise {
        Ok(otherwise) => Ok(Step {
            core: CoreStatement::If {
                number,
                condition: guarded.condition,
                body: guarded.body.statements,
                otherwise: otherwise.statements,
            },
            next: otherwise.next,
        }),
        Err(refusal) => Err(refusal),
    }
}

// `for x in e { .. }`, where its block isn't refused.
fn repeated(
    number: u32,
    source: Core,
    body: Result<Block, TypeRefusal>,
) -> Result<Step, TypeRefusal>
    ensures { result ≡ with_made body (λ b. record { core = CoreStatement.For number source b.statements; next = b.next }) }
{
    match body {
        Ok(body) => Ok(Step {
            core: CoreStatement::For {
                number,
                source,
                body: body.statements,
            },
            next: body.next,
        }),
        Err(refusal) => Err(refusal),
    }
}

// A statement with those inside it. What it binds stands behind the other variables then.
#[cycle(statements)]
fn statement(
    alloc: Global,
    sheet: &Sheet<'_>,
    variables: &mut Vec<Variable>,
    number: u32,
    written: &Statement,
) -> Result<Step, TypeRefusal>
    ensures told { AnswersAs (made_with sheet.now variables.new.items) result (statement_of written.now (here sheet.now variables.old.items) number) }
    ensures front { OnOk result (Begins variables.old.items variables.new.items) }
{
    match written {
        Statement::Let { name, value, .. } => {
            let_statement(alloc, sheet, variables, number, name, value)
        }
        Statement::Set { target, value, .. } => change_statement(
            alloc,
            sheet,
            variables.as_slice(),
            number,
            Change::Set,
            target,
            value,
        ),
        Statement::Add { value, target, .. } => change_statement(
            alloc,
            sheet,
            variables.as_slice(),
            number,
            Change::Add,
            target,
            value,
        ),
        Statement::Remove { value, target, .. } => change_statement(
            alloc,
            sheet,
            variables.as_slice(),
            number,
            Change::Remove,
            target,
            value,
        ),
        Statement::New { name, target, .. } => {
            new_statement(alloc, sheet, variables, number, name, target)
        }
        Statement::Delete { objects, .. } => {
            delete_statement(alloc, sheet, variables.as_slice(), number, objects)
        }
        Statement::Check {
            condition,
            message,
            ..
        } => check_statement(
            alloc,
            sheet,
            variables.as_slice(),
            number,
            condition,
            message,
        ),
        Statement::Reply { value, .. } => {
            reply_statement(alloc, sheet, variables.as_slice(), number, value)
        }
        Statement::If {
            condition,
            body,
            ..
        } => if_statement(alloc, sheet, variables, number, body.as_slice(), condition),
        Statement::IfElse {
            condition,
            body,
            otherwise,
            ..
        } => if_else_statement(
            alloc,
            sheet,
            variables,
            number,
            body.as_slice(),
            otherwise.as_slice(),
            condition,
        ),
        Statement::For {
            name,
            source,
            body,
            ..
        } => for_statement(
            alloc,
            sheet,
            variables,
            number,
            body.as_slice(),
            name,
            source,
        ),
    }
}

// A condition, and the block behind it.
#[cycle(statements)]
fn guarded(
    alloc: Global,
    sheet: &Sheet<'_>,
    variables: &mut Vec<Variable>,
    number: u32,
    body: &[Statement],
    condition: &Tree,
) -> Result<Guarded, TypeRefusal>
    ensures told { AnswersAs made_guarded result (guarded_block condition.now body.now (here sheet.now variables.old.items) number) }
    ensures same { OnOk result (variables.new.items ≡ variables.old.items) }
{
    let condition = formula_of(alloc, sheet, variables.as_slice(), Kind::Truth, condition)?;
    let body = block(alloc, sheet, variables, number, body);
    with_block(condition, body)
}

// `if e { .. }`
#[cycle(statements)]
fn if_statement(
    alloc: Global,
    sheet: &Sheet<'_>,
    variables: &mut Vec<Variable>,
    number: u32,
    body: &[Statement],
    condition: &Tree,
) -> Result<Step, TypeRefusal>
    ensures told { AnswersAs (made_with sheet.now variables.new.items) result (if_statement_of condition.now body.now (here sheet.now variables.old.items) number) }
    ensures same { OnOk result (variables.new.items ≡ variables.old.items) }
{
    let first = after(number)?;
    let both = guarded(alloc, sheet, variables, first, body, condition)?;
    Ok(without_else(alloc, number, both))
}

// `if e { .. } else { .. }`
#[cycle(statements)]
fn if_else_statement(
    alloc: Global,
    sheet: &Sheet<'_>,
    variables: &mut Vec<Variable>,
    number: u32,
    body: &[Statement],
    otherwise: &[Statement],
    condition: &Tree,
) -> Result<Step, TypeRefusal>
    ensures told { AnswersAs (made_with sheet.now variables.new.items) result (if_else_statement_of condition.now body.now otherwise.now (here sheet.now variables.old.items) number) }
    ensures same { OnOk result (variables.new.items ≡ variables.old.items) }
{
    let first = after(number)?;
    let both = guarded(alloc, sheet, variables, first, body, condition)?;
    let otherwise = block(alloc, sheet, variables, both.body.next, otherwise);
    either(number, both, otherwise)
}

// `for x in e { .. }`
#[cycle(statements)]
fn for_statement(
    alloc: Global,
    sheet: &Sheet<'_>,
    variables: &mut Vec<Variable>,
    number: u32,
    body: &[Statement],
    name: &Name,
    source: &Tree,
) -> Result<Step, TypeRefusal>
    ensures told { AnswersAs (made_with sheet.now variables.new.items) result (for_statement_of name.now source.now body.now (here sheet.now variables.old.items) number) }
    ensures same { OnOk result (variables.new.items ≡ variables.old.items) }
{
    let first = after(number)?;
    let name = name.copy()?;
    variables.reserve(1)?;
    let count = variables.len();
    let source = formula(alloc, sheet, variables.as_slice(), source)?;
    variables.push_reserved(Variable {
        name,
        kind: source.kind,
    });
    let body = block(alloc, sheet, variables, first, body);
    variables.truncate(count);
    repeated(number, source.core, body)
}

// The statements of a block: what they bind is gone behind it.
#[cycle(statements)]
fn block(
    alloc: Global,
    sheet: &Sheet<'_>,
    variables: &mut Vec<Variable>,
    number: u32,
    written: &[Statement],
) -> Result<Block, TypeRefusal>
    ensures told { AnswersAs made_block result (in_block written.now (here sheet.now variables.old.items) number) }
    ensures same { OnOk result (variables.new.items ≡ variables.old.items) }
{
    let count = variables.len();
    let block = in_order(alloc, sheet, variables, number, written)?;
    variables.truncate(count);
    Ok(block)
}

/// Statements in order. What they bind stands behind the other variables then.
#[cycle(statements)]
pub(crate) fn in_order(
    alloc: Global,
    sheet: &Sheet<'_>,
    variables: &mut Vec<Variable>,
    number: u32,
    written: &[Statement],
) -> Result<Block, TypeRefusal>
    ensures told { AnswersAs made_block result (in_block written.now (here sheet.now variables.old.items) number) }
    ensures front { OnOk result (Begins variables.old.items variables.new.items) }
{
    let mut statements = Statements::new(alloc);
    let mut next = number;
    for one in written {
        match statement(alloc, sheet, variables, next, one) {
            Ok(step) => {
                statements.push(step.core)?;
                next = step.next;
            }
            Err(refusal) => return Err(refusal),
        }
    }
    Ok(Block { statements, next })
}
