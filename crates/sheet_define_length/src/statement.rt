// How long the lines of statements are. Where a margin stands before them, its length is given.
ghost use Rattle.std.specs.Prelude.{ℕ, List, ◌≡◌, ◌++◌, map, flat_map, codes};
ghost use Rattle.sheet_syntax_trees.specs.Printing.{formula_text, operand, quoted};
ghost use Rattle.sheet_define_data.specs.Printing.{line_at, inside as inside_margin, braced, object_text, target_text, statement_text};
ghost use Rattle.sheet_define_length.specs.Counting.{Counts};

use crate::formula::{count_formula, count_operand};
use crate::line::{count_closing, count_width};
use crate::words::{count, count_quoted};
use sheet_define_data::{Statement, Target};
use sheet_syntax_trees::Tree;
use sheet_values::Name;

fn count_object(total: usize, object: &Option<Tree>) -> usize
    ensures { Counts total result (object_text object.now) }
{
    let Some(formula) = object else {
        return total;
    };
    let total = count_operand(total, formula);
    count(total, b".")
}

fn count_target(total: usize, target: &Target) -> usize
    ensures { Counts total result (target_text target.now) }
{
    let total = count_object(total, &target.object);
    count(total, target.column.bytes())
}

// `let x = e`
fn count_let(total: usize, width: usize, name: &Name, value: &Tree) -> usize
    ensures { (m : List ℕ) → Counts 0 width m → Counts total result (line_at m (codes "let " ++ name.now ++ codes " = " ++ formula_text value.now)) }
{
    let total = count_width(total, width);
    let total = count(total, b"let ");
    let total = count(total, name.bytes());
    let total = count(total, b" = ");
    let total = count_formula(total, value);
    count(total, b"\n")
}

// `set t = e`
fn count_set(total: usize, width: usize, target: &Target, value: &Tree) -> usize
    ensures { (m : List ℕ) → Counts 0 width m → Counts total result (line_at m (codes "set " ++ target_text target.now ++ codes " = " ++ formula_text value.now)) }
{
    let total = count_width(total, width);
    let total = count(total, b"set ");
    let total = count_target(total, target);
    let total = count(total, b" = ");
    let total = count_formula(total, value);
    count(total, b"\n")
}

// `add e to t`, `remove e from t`: the word, the formula, the other word, the target.
fn count_change(
    total: usize,
    width: usize,
    word: &[u8],
    value: &Tree,
    between: &[u8],
    target: &Target,
) -> usize
    ensures { (m : List ℕ) → Counts 0 width m → Counts total result (line_at m (word.now ++ formula_text value.now ++ between.now ++ target_text target.now)) }
{
    let total = count_width(total, width);
    let total = count(total, word);
    let total = count_formula(total, value);
    let total = count(total, between);
    let total = count_target(total, target);
    count(total, b"\n")
}

// `new x = t`
fn count_new(total: usize, width: usize, name: &Name, target: &Target) -> usize
    ensures { (m : List ℕ) → Counts 0 width m → Counts total result (line_at m (codes "new " ++ name.now ++ codes " = " ++ target_text target.now)) }
{
    let total = count_width(total, width);
    let total = count(total, b"new ");
    let total = count(total, name.bytes());
    let total = count(total, b" = ");
    let total = count_target(total, target);
    count(total, b"\n")
}

// `delete e`, `reply e`
fn count_single(total: usize, width: usize, word: &[u8], value: &Tree) -> usize
    ensures { (m : List ℕ) → Counts 0 width m → Counts total result (line_at m (word.now ++ formula_text value.now)) }
{
    let total = count_width(total, width);
    let total = count(total, word);
    let total = count_formula(total, value);
    count(total, b"\n")
}

// `check e else "m"`
fn count_check(total: usize, width: usize, condition: &Tree, message: &Name) -> usize
    ensures { (m : List ℕ) → Counts 0 width m → Counts total result (line_at m (codes "check " ++ formula_text condition.now ++ codes " else " ++ quoted message.now)) }
{
    let total = count_width(total, width);
    let total = count(total, b"check ");
    let total = count_formula(total, condition);
    let total = count(total, b" else ");
    let total = count_quoted(total, message.bytes());
    count(total, b"\n")
}

// `if e {`
fn count_condition(total: usize, width: usize, condition: &Tree) -> usize
    ensures { (m : List ℕ) → Counts 0 width m → Counts total result (line_at m ((codes "if " ++ formula_text condition.now) ++ codes " {")) }
{
    let total = count_width(total, width);
    let total = count(total, b"if ");
    let total = count_formula(total, condition);
    count(total, b" {\n")
}

// `} else {`
fn count_else(total: usize, width: usize) -> usize
    ensures { (m : List ℕ) → Counts 0 width m → Counts total result (line_at m (codes "} else" ++ codes " {")) }
{
    let total = count_width(total, width);
    count(total, b"} else {\n")
}

// `for x in e {`
fn count_turns(total: usize, width: usize, name: &Name, source: &Tree) -> usize
    ensures { (m : List ℕ) → Counts 0 width m → Counts total result (line_at m ((codes "for " ++ name.now ++ codes " in " ++ formula_text source.now) ++ codes " {")) }
{
    let total = count_width(total, width);
    let total = count(total, b"for ");
    let total = count(total, name.bytes());
    let total = count(total, b" in ");
    let total = count_formula(total, source);
    count(total, b" {\n")
}

// A statement with those inside it, behind a margin.
#[cycle(statements)]
fn count_statement(total: usize, width: usize, statement: &Statement) -> usize
    ensures { (m : List ℕ) → Counts 0 width m → Counts total result (statement_text statement.now m) }
{
    match statement {
        Statement::Let { name, value, .. } => count_let(total, width, name, value),
        Statement::Set { target, value, .. } => count_set(total, width, target, value),
        Statement::Add { value, target, .. } => count_change(
            total, width, b"add ", value, b" to ", target,
        ),
        Statement::Remove { value, target, .. } => count_change(
            total, width, b"remove ", value, b" from ", target,
        ),
        Statement::New { name, target, .. } => count_new(total, width, name, target),
        Statement::Delete { objects, .. } => count_single(total, width, b"delete ", objects),
        Statement::Check {
            condition,
            message,
            ..
        } => count_check(total, width, condition, message),
        Statement::Reply { value, .. } => count_single(total, width, b"reply ", value),
        Statement::If {
            condition,
            body,
            ..
        } => count_if(total, width, body.as_slice(), condition),
        Statement::IfElse {
            condition,
            body,
            otherwise,
            ..
        } => count_if_else(
            total,
            width,
            body.as_slice(),
            otherwise.as_slice(),
            condition,
        ),
        Statement::For {
            name,
            source,
            body,
            ..
        } => count_for(total, width, body.as_slice(), name, source),
    }
}

// The line of an `if`, and the statements inside its brace.
#[cycle(statements)]
fn count_then(total: usize, width: usize, body: &[Statement], condition: &Tree) -> usize
    ensures { (m : List ℕ) → Counts 0 width m → Counts total result ((line_at m ((codes "if " ++ formula_text condition.now) ++ codes " {") ++ flat_map (λ x. statement_text x (inside_margin m)) body.now)) }
{
    let total = count_condition(total, width, condition);
    count_inside(total, width, body)
}

#[cycle(statements)]
fn count_if(total: usize, width: usize, body: &[Statement], condition: &Tree) -> usize
    ensures { (m : List ℕ) → Counts 0 width m → Counts total result (braced m (codes "if " ++ formula_text condition.now) (flat_map (λ x. statement_text x (inside_margin m)) body.now)) }
{
    let total = count_then(total, width, body, condition);
    count_closing(total, width)
}

#[cycle(statements)]
fn count_if_else(
    total: usize,
    width: usize,
    body: &[Statement],
    otherwise: &[Statement],
    condition: &Tree,
) -> usize
    ensures { (m : List ℕ) → Counts 0 width m → Counts total result ((line_at m ((codes "if " ++ formula_text condition.now) ++ codes " {") ++ flat_map (λ x. statement_text x (inside_margin m)) body.now
        ++ braced m (codes "} else") (flat_map (λ x. statement_text x (inside_margin m)) otherwise.now))) }
{
    let total = count_then(total, width, body, condition);
    count_otherwise(total, width, otherwise)
}

// What stands behind the statements of an `if`: `} else {`, the other statements, and the closing brace.
#[cycle(statements)]
fn count_otherwise(total: usize, width: usize, otherwise: &[Statement]) -> usize
    ensures { (m : List ℕ) → Counts 0 width m → Counts total result (braced m (codes "} else") (flat_map (λ x. statement_text x (inside_margin m)) otherwise.now)) }
{
    let total = count_else(total, width);
    let total = count_inside(total, width, otherwise);
    count_closing(total, width)
}

#[cycle(statements)]
fn count_for(total: usize, width: usize, body: &[Statement], name: &Name, source: &Tree) -> usize
    ensures { (m : List ℕ) → Counts 0 width m → Counts total result (braced m (codes "for " ++ name.now ++ codes " in " ++ formula_text source.now) (flat_map (λ x. statement_text x (inside_margin m)) body.now)) }
{
    let total = count_turns(total, width, name, source);
    let total = count_inside(total, width, body);
    count_closing(total, width)
}

// Statements inside one more brace.
#[cycle(statements)]
pub(crate) fn count_inside(total: usize, width: usize, statements: &[Statement]) -> usize
    ensures { (m : List ℕ) → Counts 0 width m → Counts total result (flat_map (λ x. statement_text x (inside_margin m)) statements.now) }
{
    let wider = count(width, b"  ");
    count_statements(total, wider, statements)
}

#[cycle(statements)]
fn count_statements(total: usize, width: usize, statements: &[Statement]) -> usize
    ensures { (m : List ℕ) → Counts 0 width m → Counts total result (flat_map (λ x. statement_text x m) statements.now) }
{
    let mut sum = total;
    for statement in statements {
        sum = count_statement(sum, width, statement);
    }
    sum
}
