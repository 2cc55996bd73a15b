// How long the texts of formulas are.
ghost use Rattle.std.specs.Prelude.{◌≡◌, ◌++◌, map, flat_map, codes};
ghost use Rattle.std.specs.List.{join_by};
ghost use Rattle.sheet_syntax_trees.specs.Printing.{formula_text, is_enclosed as is_enclosed_form, operand, opening_text, closing_text, bound_text, operator_text, function_text, quantifier_text, in_parentheses, in_braces};
ghost use Rattle.sheet_define_length.specs.Counting.{Counts};

use crate::words::{
    count, count_number, count_quoted, function_word, operator_word, quantifier_word, truth_word,
};
use sheet_syntax_trees::{Function, Gathering, Operator, Quantifier, Tree};
use sheet_values::Name;

// Whether a formula stands in parentheses as an operand.
fn is_enclosed(tree: &Tree) -> bool
    ensures { result ≡ is_enclosed_form tree.now }
{
    match tree {
        Tree::Negate(_, _) => true,
        Tree::Not(_, _) => true,
        Tree::Binary(_, _, _, _) => true,
        Tree::If(_, _, _, _) => true,
        _ => false,
    }
}

// Counts the text of a formula.
#[cycle(formulas)]
pub(crate) fn count_formula(total: usize, tree: &Tree) -> usize
    ensures { Counts total result (formula_text tree.now) }
{
    match tree {
        Tree::Number(_, number) => count_number(total, *number),
        Tree::Text(_, content) => count_quoted(total, content.bytes()),
        Tree::Truth(_, truth) => count(total, truth_word(*truth)),
        Tree::Root(_) => count(total, b"$"),
        Tree::This(_) => count(total, b"this"),
        Tree::Caller(_) => count(total, b"caller"),
        Tree::Operator(_) => count(total, b"operator"),
        Tree::Name(_, name) => count(total, name.bytes()),
        Tree::Child(_, object, name) => count_child(total, object.get(), name),
        Tree::Up(_, object) => count_up(total, object.get()),
        Tree::Negate(_, part) => count_prefixed(total, b"-", part.get()),
        Tree::Not(_, part) => count_prefixed(total, b"not ", part.get()),
        Tree::Binary(_, operator, a, b) => count_operation(total, *operator, a.get(), b.get()),
        Tree::If(_, c, a, b) => count_choice(total, c.get(), a.get(), b.get()),
        Tree::Set(_, parts) => count_set(total, parts.as_slice()),
        Tree::Call(_, function, set) => count_call(total, *function, set.get()),
        Tree::Gather(_, gathering, body, name, source) => {
            count_gathered(total, *gathering, body.get(), name, source.get())
        }
        Tree::GatherWhere(_, gathering, body, name, source, condition) => count_chosen(
            total,
            *gathering,
            body.get(),
            name,
            source.get(),
            condition.get(),
        ),
        Tree::Test(_, quantifier, name, source, condition) => {
            count_test(total, *quantifier, name, source.get(), condition.get())
        }
    }
}

// Counts the text of an operand, in parentheses where it needs them.
#[cycle(formulas)]
pub(crate) fn count_operand(total: usize, part: &Tree) -> usize
    ensures { Counts total result (operand part.now (formula_text part.now)) }
{
    if !is_enclosed(part) {
        return count_formula(total, part);
    }
    let total = count(total, b"(");
    let total = count_formula(total, part);
    count(total, b")")
}

#[cycle(formulas)]
fn count_child(total: usize, object: &Tree, name: &Name) -> usize
    ensures { Counts total result ((operand object.now (formula_text object.now) ++ codes "." ++ name.now)) }
{
    let total = count_operand(total, object);
    let total = count(total, b".");
    count(total, name.bytes())
}

#[cycle(formulas)]
fn count_up(total: usize, object: &Tree) -> usize
    ensures { Counts total result ((operand object.now (formula_text object.now) ++ codes ".up")) }
{
    let total = count_operand(total, object);
    count(total, b".up")
}

#[cycle(formulas)]
fn count_prefixed(total: usize, prefix: &[u8], part: &Tree) -> usize
    ensures { Counts total result ((prefix.now ++ operand part.now (formula_text part.now))) }
{
    let total = count(total, prefix);
    count_operand(total, part)
}

#[cycle(formulas)]
fn count_operation(total: usize, operator: Operator, a: &Tree, b: &Tree) -> usize
    ensures { Counts total result ((operand a.now (formula_text a.now) ++ codes " " ++ operator_text operator ++ codes " " ++ operand b.now (formula_text b.now))) }
{
    let total = count_operand(total, a);
    let total = count(total, b" ");
    let total = count(total, operator_word(operator));
    let total = count(total, b" ");
    count_operand(total, b)
}

#[cycle(formulas)]
fn count_choice(total: usize, condition: &Tree, a: &Tree, b: &Tree) -> usize
    ensures { Counts total result ((codes "if " ++ formula_text condition.now ++ codes " then " ++ formula_text a.now ++ codes " else " ++ formula_text b.now)) }
{
    let total = count(total, b"if ");
    let total = count_formula(total, condition);
    let total = count(total, b" then ");
    let total = count_formula(total, a);
    let total = count(total, b" else ");
    count_formula(total, b)
}

#[cycle(formulas)]
fn count_set(total: usize, parts: &[Tree]) -> usize
    ensures { Counts total result (in_braces (join_by formula_text (codes ", ") parts.now)) }
{
    let total = count(total, b"{");
    let total = count_parts(total, parts);
    count(total, b"}")
}

// Formulas with a comma and a space between them.
#[cycle(formulas)]
fn count_parts(total: usize, parts: &[Tree]) -> usize
    ensures { Counts total result (join_by formula_text (codes ", ") parts.now) }
{
    let Some((first, rest)) = parts.split_first() else {
        return total;
    };
    let total = count_formula(total, first);
    count_others(total, rest)
}

// Formulas, each behind a comma and a space.
#[cycle(formulas)]
fn count_others(total: usize, parts: &[Tree]) -> usize
    ensures { Counts total result (flat_map (λ part. codes ", " ++ formula_text part) parts.now) }
{
    let mut sum = total;
    for part in parts {
        sum = count_other(sum, part);
    }
    sum
}

#[cycle(formulas)]
fn count_other(total: usize, part: &Tree) -> usize
    ensures { Counts total result ((codes ", " ++ formula_text part.now)) }
{
    let total = count(total, b", ");
    count_formula(total, part)
}

#[cycle(formulas)]
fn count_call(total: usize, function: Function, set: &Tree) -> usize
    ensures { Counts total result ((function_text function ++ in_parentheses (formula_text set.now))) }
{
    let total = count(total, function_word(function));
    let total = count(total, b"(");
    let total = count_formula(total, set);
    count(total, b")")
}

// What opens a comprehension or a sum.
fn opening(gathering: Gathering) -> &'static [u8]
    ensures { result.now ≡ opening_text gathering }
{
    match gathering {
        Gathering::Union => b"{",
        Gathering::Sum => b"sum(",
    }
}

// What closes it.
fn closing(gathering: Gathering) -> &'static [u8]
    ensures { result.now ≡ closing_text gathering }
{
    match gathering {
        Gathering::Union => b"}",
        Gathering::Sum => b")",
    }
}

// A formula, a variable and the set that it goes through.
#[cycle(formulas)]
fn count_bound(total: usize, body: &Tree, name: &Name, source: &Tree) -> usize
    ensures { Counts total result (bound_text (formula_text body.now) name.now (formula_text source.now)) }
{
    let total = count_formula(total, body);
    let total = count(total, b" : ");
    let total = count(total, name.bytes());
    let total = count(total, b" in ");
    count_formula(total, source)
}

#[cycle(formulas)]
fn count_gathered(
    total: usize,
    gathering: Gathering,
    body: &Tree,
    name: &Name,
    source: &Tree,
) -> usize
    ensures { Counts total result ((opening_text gathering ++ bound_text (formula_text body.now) name.now (formula_text source.now) ++ closing_text gathering)) }
{
    let total = count(total, opening(gathering));
    let total = count_bound(total, body, name, source);
    count(total, closing(gathering))
}

#[cycle(formulas)]
fn count_chosen(
    total: usize,
    gathering: Gathering,
    body: &Tree,
    name: &Name,
    source: &Tree,
    condition: &Tree,
) -> usize
    ensures { Counts total result ((opening_text gathering ++ bound_text (formula_text body.now) name.now (formula_text source.now) ++ codes " | " ++ formula_text condition.now ++ closing_text gathering)) }
{
    let total = count(total, opening(gathering));
    let total = count_bound(total, body, name, source);
    let total = count(total, b" | ");
    let total = count_formula(total, condition);
    count(total, closing(gathering))
}

#[cycle(formulas)]
fn count_test(
    total: usize,
    quantifier: Quantifier,
    name: &Name,
    source: &Tree,
    condition: &Tree,
) -> usize
    ensures { Counts total result ((quantifier_text quantifier ++ in_parentheses (name.now ++ codes " in " ++ formula_text source.now ++ codes " | " ++ formula_text condition.now))) }
{
    let total = count(total, quantifier_word(quantifier));
    let total = count(total, b"(");
    let total = count(total, name.bytes());
    let total = count(total, b" in ");
    let total = count_formula(total, source);
    let total = count(total, b" | ");
    let total = count_formula(total, condition);
    count(total, b")")
}
