// The texts of formulas.
ghost use Rattle.std.specs.Prelude.{ℕ, List, ◌≡◌, ◌++◌, map, flat_map, IfOk, OnOk, codes};
ghost use Rattle.std.specs.List.{join_by};
ghost use Rattle.sheet_syntax_trees.specs.Texts.{StandsFor, on_one_line};
ghost use Rattle.sheet_syntax_trees.specs.Printing.{formula_text, is_enclosed as is_enclosed_form, operand, opening_text, closing_text, bound_text, operator_text, function_text, quantifier_text, in_parentheses, in_braces};

use crate::words::{
    append, append_number, append_quoted, function_word, operator_word, quantifier_word, truth_word,
};
use sheet_syntax_trees::{Function, Gathering, Operator, Quantifier, Tree};
use sheet_values::{Name, NoMemory};
use std::alloc::Global;

/// The text of a formula.
///
/// One space stands round each operator of two operands, behind `not` and `if`, round `then` and `else`, and behind each
/// comma. There is none inside brackets, round a dot, behind a unary `-`, and between a function and its bracket. An operand
/// that is an `if`, a `not`, a unary `-` or a form with an operator of two operands stands in parentheses.
///
/// The text of a formula that some text stands for stands for that formula, in one line.
pub fn print_formula(alloc: Global, tree: &Tree) -> Result<Vec<u8>, NoMemory>
    ensures exact { IfOk result (λ text. text.items ≡ formula_text tree.now) }
    ensures reads_back { IfOk result (λ text. (source : List ℕ) → StandsFor source tree.now → StandsFor text.items (on_one_line tree.now)) }
{
    text_of(alloc, tree)
}

fn text_of(alloc: Global, tree: &Tree) -> Result<Vec<u8>, NoMemory>
    ensures { IfOk result (λ text. text.items ≡ formula_text tree.now) }
{
    let mut text = Vec::new(alloc);
    append_formula(&mut text, tree)?;
    Ok(text)
}

// Whether a formula stands in parentheses as an operand.
fn is_enclosed(tree: &Tree) -> bool
    ensures { result ≡ is_enclosed_form tree.now }
{
    match tree {
        Tree::Negate(_, _) => true,
        Tree::Not(_, _) => true,
        Tree::Binary(_, _, _, _) => true,
        Tree::If(_, _, _, _) => true,
        _ => false,
    }
}

/// Adds the text of a formula at the end.
#[cycle(formulas)]
pub fn append_formula(out: &mut Vec<u8>, tree: &Tree) -> Result<(), NoMemory>
    ensures { OnOk result (out.new.items ≡ out.old.items ++ formula_text tree.now) }
{
    match tree {
        Tree::Number(_, number) => append_number(out, *number),
        Tree::Text(_, content) => append_quoted(out, content.bytes()),
        Tree::Truth(_, truth) => append(out, truth_word(*truth)),
        Tree::Root(_) => append(out, b"$"),
        Tree::This(_) => append(out, b"this"),
        Tree::Caller(_) => append(out, b"caller"),
        Tree::Operator(_) => append(out, b"operator"),
        Tree::Name(_, name) => append(out, name.bytes()),
        Tree::Child(_, object, name) => append_child(out, object.get(), name),
        Tree::Up(_, object) => append_up(out, object.get()),
        Tree::Negate(_, part) => append_prefixed(out, b"-", part.get()),
        Tree::Not(_, part) => append_prefixed(out, b"not ", part.get()),
        Tree::Binary(_, operator, a, b) => append_operation(out, *operator, a.get(), b.get()),
        Tree::If(_, c, a, b) => append_choice(out, c.get(), a.get(), b.get()),
        Tree::Set(_, parts) => append_set(out, parts.as_slice()),
        Tree::Call(_, function, set) => append_call(out, *function, set.get()),
        Tree::Gather(_, gathering, body, name, source) => {
            append_gathered(out, *gathering, body.get(), name, source.get())
        }
        Tree::GatherWhere(_, gathering, body, name, source, condition) => append_chosen(
            out,
            *gathering,
            body.get(),
            name,
            source.get(),
            condition.get(),
        ),
        Tree::Test(_, quantifier, name, source, condition) => {
            append_test(out, *quantifier, name, source.get(), condition.get())
        }
    }
}

/// Adds the text of an operand at the end, in parentheses where it needs them.
#[cycle(formulas)]
pub fn append_operand(out: &mut Vec<u8>, part: &Tree) -> Result<(), NoMemory>
    ensures { OnOk result (out.new.items ≡ out.old.items ++ operand part.now (formula_text part.now)) }
{
    if !is_enclosed(part) {
        return append_formula(out, part);
    }
    append(out, b"(")?;
    append_formula(out, part)?;
    append(out, b")")
}

#[cycle(formulas)]
fn append_child(out: &mut Vec<u8>, object: &Tree, name: &Name) -> Result<(), NoMemory>
    ensures { OnOk result (out.new.items ≡ out.old.items ++ (operand object.now (formula_text object.now) ++ codes "." ++ name.now)) }
{
    append_operand(out, object)?;
    append(out, b".")?;
    append(out, name.bytes())
}

#[cycle(formulas)]
fn append_up(out: &mut Vec<u8>, object: &Tree) -> Result<(), NoMemory>
    ensures { OnOk result (out.new.items ≡ out.old.items ++ (operand object.now (formula_text object.now) ++ codes ".up")) }
{
    append_operand(out, object)?;
    append(out, b".up")
}

#[cycle(formulas)]
fn append_prefixed(out: &mut Vec<u8>, prefix: &[u8], part: &Tree) -> Result<(), NoMemory>
    ensures { OnOk result (out.new.items ≡ out.old.items ++ (prefix.now ++ operand part.now (formula_text part.now))) }
{
    append(out, prefix)?;
    append_operand(out, part)
}

#[cycle(formulas)]
fn append_operation(
    out: &mut Vec<u8>,
    operator: Operator,
    a: &Tree,
    b: &Tree,
) -> Result<(), NoMemory>
    ensures { OnOk result (out.new.items ≡ out.old.items ++ (operand a.now (formula_text a.now) ++ codes " " ++ operator_text operator ++ codes " " ++ operand b.now (formula_text b.now))) }
{
    append_operand(out, a)?;
    append(out, b" ")?;
    append(out, operator_word(operator))?;
    append(out, b" ")?;
    append_operand(out, b)
}

#[cycle(formulas)]
fn append_choice(out: &mut Vec<u8>, condition: &Tree, a: &Tree, b: &Tree) -> Result<(), NoMemory>
    ensures { OnOk result (out.new.items ≡ out.old.items ++ (codes "if " ++ formula_text condition.now ++ codes " then " ++ formula_text a.now ++ codes " else " ++ formula_text b.now)) }
{
    append(out, b"if ")?;
    append_formula(out, condition)?;
    append(out, b" then ")?;
    append_formula(out, a)?;
    append(out, b" else ")?;
    append_formula(out, b)
}

#[cycle(formulas)]
fn append_set(out: &mut Vec<u8>, parts: &[Tree]) -> Result<(), NoMemory>
    ensures { OnOk result (out.new.items ≡ out.old.items ++ in_braces (join_by formula_text (codes ", ") parts.now)) }
{
    append(out, b"{")?;
    append_parts(out, parts)?;
    append(out, b"}")
}

// Formulas with a comma and a space between them.
#[cycle(formulas)]
fn append_parts(out: &mut Vec<u8>, parts: &[Tree]) -> Result<(), NoMemory>
    ensures { OnOk result (out.new.items ≡ out.old.items ++ join_by formula_text (codes ", ") parts.now) }
{
    let Some((first, rest)) = parts.split_first() else {
        return Ok(());
    };
    append_formula(out, first)?;
    append_others(out, rest)
}

// Formulas, each behind a comma and a space.
#[cycle(formulas)]
fn append_others(out: &mut Vec<u8>, parts: &[Tree]) -> Result<(), NoMemory>
    ensures { OnOk result (out.new.items ≡ out.old.items ++ flat_map (λ part. codes ", " ++ formula_text part) parts.now) }
{
    for part in parts {
        append_other(out, part)?;
    }
    Ok(())
}

#[cycle(formulas)]
fn append_other(out: &mut Vec<u8>, part: &Tree) -> Result<(), NoMemory>
    ensures { OnOk result (out.new.items ≡ out.old.items ++ (codes ", " ++ formula_text part.now)) }
{
    append(out, b", ")?;
    append_formula(out, part)
}

#[cycle(formulas)]
fn append_call(out: &mut Vec<u8>, function: Function, set: &Tree) -> Result<(), NoMemory>
    ensures { OnOk result (out.new.items ≡ out.old.items ++ (function_text function ++ in_parentheses (formula_text set.now))) }
{
    append(out, function_word(function))?;
    append(out, b"(")?;
    append_formula(out, set)?;
    append(out, b")")
}

// What opens a comprehension or a sum.
fn opening(gathering: Gathering) -> &'static [u8]
    ensures { result.now ≡ opening_text gathering }
{
    match gathering {
        Gathering::Union => b"{",
        Gathering::Sum => b"sum(",
    }
}

// What closes it.
fn closing(gathering: Gathering) -> &'static [u8]
    ensures { result.now ≡ closing_text gathering }
{
    match gathering {
        Gathering::Union => b"}",
        Gathering::Sum => b")",
    }
}

// A formula, a variable and the set that it goes through.
#[cycle(formulas)]
fn append_bound(out: &mut Vec<u8>, body: &Tree, name: &Name, source: &Tree) -> Result<(), NoMemory>
    ensures { OnOk result (out.new.items ≡ out.old.items ++ bound_text (formula_text body.now) name.now (formula_text source.now)) }
{
    append_formula(out, body)?;
    append(out, b" : ")?;
    append(out, name.bytes())?;
    append(out, b" in ")?;
    append_formula(out, source)
}

#[cycle(formulas)]
fn append_gathered(
    out: &mut Vec<u8>,
    gathering: Gathering,
    body: &Tree,
    name: &Name,
    source: &Tree,
) -> Result<(), NoMemory>
    ensures { OnOk result (out.new.items ≡ out.old.items ++ (opening_text gathering ++ bound_text (formula_text body.now) name.now (formula_text source.now) ++ closing_text gathering)) }
{
    append(out, opening(gathering))?;
    append_bound(out, body, name, source)?;
    append(out, closing(gathering))
}

#[cycle(formulas)]
fn append_chosen(
    out: &mut Vec<u8>,
    gathering: Gathering,
    body: &Tree,
    name: &Name,
    source: &Tree,
    condition: &Tree,
) -> Result<(), NoMemory>
    ensures { OnOk result (out.new.items ≡ out.old.items ++ (opening_text gathering ++ bound_text (formula_text body.now) name.now (formula_text source.now) ++ codes " | " ++ formula_text condition.now ++ closing_text gathering)) }
{
    append(out, opening(gathering))?;
    append_bound(out, body, name, source)?;
    append(out, b" | ")?;
    append_formula(out, condition)?;
    append(out, closing(gathering))
}

#[cycle(formulas)]
fn append_test(
    out: &mut Vec<u8>,
    quantifier: Quantifier,
    name: &Name,
    source: &Tree,
    condition: &Tree,
) -> Result<(), NoMemory>
    ensures { OnOk result (out.new.items ≡ out.old.items ++ (quantifier_text quantifier ++ in_parentheses (name.now ++ codes " in " ++ formula_text source.now ++ codes " | " ++ formula_text condition.now))) }
{
    append(out, quantifier_word(quantifier))?;
    append(out, b"(")?;
    append(out, name.bytes())?;
    append(out, b" in ")?;
    append_formula(out, source)?;
    append(out, b" | ")?;
    append_formula(out, condition)?;
    append(out, b")")
}
