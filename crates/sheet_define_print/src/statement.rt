// The lines of statements.
ghost use Rattle.std.specs.Prelude.{◌≡◌, ◌++◌, map, flat_map, codes, OnOk};
ghost use Rattle.sheet_syntax_trees.specs.Printing.{formula_text, operand, quoted};
ghost use Rattle.sheet_define_data.specs.Printing.{line_at, inside as inside_margin, braced, object_text, target_text, statement_text};

use crate::line::{append_closing, inside};
use sheet_define_data::{Statement, Target};
use sheet_syntax_print::{append, append_formula, append_operand, append_quoted};
use sheet_syntax_trees::Tree;
use sheet_values::{Name, NoMemory};
use std::alloc::Global;

fn append_object(out: &mut Vec<u8>, object: &Option<Tree>) -> Result<(), NoMemory>
    ensures { OnOk result (out.new.items ≡ out.old.items ++ object_text object.now) }
{
    let Some(formula) = object else {
        return Ok(());
    };
    append_operand(out, formula)?;
    append(out, b".")
}

fn append_target(out: &mut Vec<u8>, target: &Target) -> Result<(), NoMemory>
    ensures { OnOk result (out.new.items ≡ out.old.items ++ target_text target.now) }
{
    append_object(out, &target.object)?;
    append(out, target.column.bytes())
}

// `let x = e`
fn append_let(out: &mut Vec<u8>, margin: &[u8], name: &Name, value: &Tree) -> Result<(), NoMemory>
    ensures { OnOk result (out.new.items ≡ out.old.items ++ line_at margin.now (codes "let " ++ name.now ++ codes " = " ++ formula_text value.now)) }
{
    append(out, margin)?;
    append(out, b"let ")?;
    append(out, name.bytes())?;
    append(out, b" = ")?;
    append_formula(out, value)?;
    append(out, b"\n")
}

// `set t = e`
fn append_set(
    out: &mut Vec<u8>,
    margin: &[u8],
    target: &Target,
    value: &Tree,
) -> Result<(), NoMemory>
    ensures { OnOk result (out.new.items ≡ out.old.items ++ line_at margin.now (codes "set " ++ target_text target.now ++ codes " = " ++ formula_text value.now)) }
{
    append(out, margin)?;
    append(out, b"set ")?;
    append_target(out, target)?;
    append(out, b" = ")?;
    append_formula(out, value)?;
    append(out, b"\n")
}

// `add e to t`, `remove e from t`: the word, the formula, the other word, the target.
fn append_change(
    out: &mut Vec<u8>,
    margin: &[u8],
    word: &[u8],
    value: &Tree,
    between: &[u8],
    target: &Target,
) -> Result<(), NoMemory>
    ensures { OnOk result (out.new.items ≡ out.old.items ++ line_at margin.now (word.now ++ formula_text value.now ++ between.now ++ target_text target.now)) }
{
    append(out, margin)?;
    append(out, word)?;
    append_formula(out, value)?;
    append(out, between)?;
    append_target(out, target)?;
    append(out, b"\n")
}

// `new x = t`
fn append_new(
    out: &mut Vec<u8>,
    margin: &[u8],
    name: &Name,
    target: &Target,
) -> Result<(), NoMemory>
    ensures { OnOk result (out.new.items ≡ out.old.items ++ line_at margin.now (codes "new " ++ name.now ++ codes " = " ++ target_text target.now)) }
{
    append(out, margin)?;
    append(out, b"new ")?;
    append(out, name.bytes())?;
    append(out, b" = ")?;
    append_target(out, target)?;
    append(out, b"\n")
}

// `delete e`, `reply e`
fn append_single(
    out: &mut Vec<u8>,
    margin: &[u8],
    word: &[u8],
    value: &Tree,
) -> Result<(), NoMemory>
    ensures { OnOk result (out.new.items ≡ out.old.items ++ line_at margin.now (word.now ++ formula_text value.now)) }
{
    append(out, margin)?;
    append(out, word)?;
    append_formula(out, value)?;
    append(out, b"\n")
}

// `check e else "m"`
fn append_check(
    out: &mut Vec<u8>,
    margin: &[u8],
    condition: &Tree,
    message: &Name,
) -> Result<(), NoMemory>
    ensures { OnOk result (out.new.items ≡ out.old.items ++ line_at margin.now (codes "check " ++ formula_text condition.now ++ codes " else " ++ quoted message.now)) }
{
    append(out, margin)?;
    append(out, b"check ")?;
    append_formula(out, condition)?;
    append(out, b" else ")?;
    append_quoted(out, message.bytes())?;
    append(out, b"\n")
}

// `if e {`
fn append_condition(out: &mut Vec<u8>, margin: &[u8], condition: &Tree) -> Result<(), NoMemory>
    ensures { OnOk result (out.new.items ≡ out.old.items ++ line_at margin.now ((codes "if " ++ formula_text condition.now) ++ codes " {")) }
{
    append(out, margin)?;
    append(out, b"if ")?;
    append_formula(out, condition)?;
    append(out, b" {\n")
}

// `} else {`
fn append_else(out: &mut Vec<u8>, margin: &[u8]) -> Result<(), NoMemory>
    ensures { OnOk result (out.new.items ≡ out.old.items ++ line_at margin.now (codes "} else" ++ codes " {")) }
{
    append(out, margin)?;
    append(out, b"} else {\n")
}

// `for x in e {`
fn append_turns(
    out: &mut Vec<u8>,
    margin: &[u8],
    name: &Name,
    source: &Tree,
) -> Result<(), NoMemory>
    ensures { OnOk result (out.new.items ≡ out.old.items ++ line_at margin.now ((codes "for " ++ name.now ++ codes " in " ++ formula_text source.now) ++ codes " {")) }
{
    append(out, margin)?;
    append(out, b"for ")?;
    append(out, name.bytes())?;
    append(out, b" in ")?;
    append_formula(out, source)?;
    append(out, b" {\n")
}

// A statement with those inside it, behind a margin.
#[cycle(statements)]
fn append_statement(
    alloc: Global,
    out: &mut Vec<u8>,
    margin: &[u8],
    statement: &Statement,
) -> Result<(), NoMemory>
    ensures { OnOk result (out.new.items ≡ out.old.items ++ statement_text statement.now margin.now) }
{
    match statement {
        Statement::Let { name, value, .. } => append_let(out, margin, name, value),
        Statement::Set { target, value, .. } => append_set(out, margin, target, value),
        Statement::Add { value, target, .. } => append_change(
            out, margin, b"add ", value, b" to ", target,
        ),
        Statement::Remove { value, target, .. } => append_change(
            out, margin, b"remove ", value, b" from ", target,
        ),
        Statement::New { name, target, .. } => append_new(out, margin, name, target),
        Statement::Delete { objects, .. } => append_single(out, margin, b"delete ", objects),
        Statement::Check {
            condition,
            message,
            ..
        } => append_check(out, margin, condition, message),
        Statement::Reply { value, .. } => append_single(out, margin, b"reply ", value),
        Statement::If {
            condition,
            body,
            ..
        } => append_if(alloc, out, margin, body.as_slice(), condition),
        Statement::IfElse {
            condition,
            body,
            otherwise,
            ..
        } => append_if_else(
            alloc,
            out,
            margin,
            body.as_slice(),
            otherwise.as_slice(),
            condition,
        ),
        Statement::For {
            name,
            source,
            body,
            ..
        } => append_for(alloc, out, margin, body.as_slice(), name, source),
    }
}

// The line of an `if`, and the statements inside its brace.
#[cycle(statements)]
fn append_then(
    alloc: Global,
    out: &mut Vec<u8>,
    margin: &[u8],
    body: &[Statement],
    condition: &Tree,
) -> Result<(), NoMemory>
    ensures { OnOk result (out.new.items ≡ out.old.items ++ (line_at margin.now ((codes "if " ++ formula_text condition.now) ++ codes " {") ++ flat_map (λ x. statement_text x (inside_margin margin.now)) body.now)) }
{
    append_condition(out, margin, condition)?;
    append_inside(alloc, out, margin, body)
}

#[cycle(statements)]
fn append_if(
    alloc: Global,
    out: &mut Vec<u8>,
    margin: &[u8],
    body: &[Statement],
    condition: &Tree,
) -> Result<(), NoMemory>
    ensures { OnOk result (out.new.items ≡ out.old.items ++ braced margin.now (codes "if " ++ formula_text condition.now) (flat_map (λ x. statement_text x (inside_margin margin.now)) body.now)) }
{
    append_then(alloc, out, margin, body, condition)?;
    append_closing(out, margin)
}

#[cycle(statements)]
fn append_if_else(
    alloc: Global,
    out: &mut Vec<u8>,
    margin: &[u8],
    body: &[Statement],
    otherwise: &[Statement],
    condition: &Tree,
) -> Result<(), NoMemory>
    ensures { OnOk result (out.new.items ≡ out.old.items ++ (line_at margin.now ((codes "if " ++ formula_text condition.now) ++ codes " {") ++ flat_map (λ x. statement_text x (inside_margin margin.now)) body.now
        ++ braced margin.now (codes "} else") (flat_map (λ x. statement_text x (inside_margin margin.now)) otherwise.now))) }
{
    append_then(alloc, out, margin, body, condition)?;
    append_otherwise(alloc, out, margin, otherwise)
}

// What stands behind the statements of an `if`: `} else {`, the other statements, and the closing brace.
#[cycle(statements)]
fn append_otherwise(
    alloc: Global,
    out: &mut Vec<u8>,
    margin: &[u8],
    otherwise: &[Statement],
) -> Result<(), NoMemory>
    ensures { OnOk result (out.new.items ≡ out.old.items ++ braced margin.now (codes "} else") (flat_map (λ x. statement_text x (inside_margin margin.now)) otherwise.now)) }
{
    append_else(out, margin)?;
    append_inside(alloc, out, margin, otherwise)?;
    append_closing(out, margin)
}

#[cycle(statements)]
fn append_for(
    alloc: Global,
    out: &mut Vec<u8>,
    margin: &[u8],
    body: &[Statement],
    name: &Name,
    source: &Tree,
) -> Result<(), NoMemory>
    ensures { OnOk result (out.new.items ≡ out.old.items ++ braced margin.now (codes "for " ++ name.now ++ codes " in " ++ formula_text source.now) (flat_map (λ x. statement_text x (inside_margin margin.now)) body.now)) }
{
    append_turns(out, margin, name, source)?;
    append_inside(alloc, out, margin, body)?;
    append_closing(out, margin)
}

// Statements inside one more brace.
#[cycle(statements)]
pub(crate) fn append_inside(
    alloc: Global,
    out: &mut Vec<u8>,
    margin: &[u8],
    statements: &[Statement],
) -> Result<(), NoMemory>
    ensures { OnOk result (out.new.items ≡ out.old.items ++ flat_map (λ x. statement_text x (inside_margin margin.now)) statements.now) }
{
    let wider = inside(alloc, margin)?;
    append_statements(alloc, out, wider.as_slice(), statements)
}

#[cycle(statements)]
fn append_statements(
    alloc: Global,
    out: &mut Vec<u8>,
    margin: &[u8],
    statements: &[Statement],
) -> Result<(), NoMemory>
    ensures { OnOk result (out.new.items ≡ out.old.items ++ flat_map (λ x. statement_text x margin.now) statements.now) }
{
    for statement in statements {
        append_statement(alloc, out, margin, statement)?;
    }
    Ok(())
}
