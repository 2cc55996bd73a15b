// How long is what stands in the lines of columns and in the first lines of procedures and views.
ghost use Rattle.std.specs.Prelude.{◌≡◌, ◌++◌, map, flat_map, codes};
ghost use Rattle.std.specs.Fmt.{signed_decimal};
ghost use Rattle.std.specs.List.{join_by};
ghost use Rattle.sheet_define_data.specs.Printing.{path_text, type_text, literal_text, one_text, first_text, declared_text, parameter_text, parameters_text, allow_text, header_text};
ghost use Rattle.sheet_define_length.specs.Counting.{Counts};

use crate::formula::count_formula;
use crate::words::{count, count_number, count_quoted};
use sheet_define_data::{Literal, Parameter, Path, TypeName};
use sheet_syntax_trees::Tree;
use sheet_values::Name;

// Names, each behind a dot.
fn count_steps(total: usize, names: &[Name]) -> usize
    ensures { Counts total result (flat_map (λ name. codes "." ++ name) names.now) }
{
    let mut sum = total;
    for name in names {
        sum = count_step(sum, name);
    }
    sum
}

fn count_step(total: usize, name: &Name) -> usize
    ensures { Counts total result ((codes "." ++ name.now)) }
{
    let total = count(total, b".");
    count(total, name.bytes())
}

pub(crate) fn count_path(total: usize, path: &Path) -> usize
    ensures { Counts total result (path_text path.now) }
{
    let Some((first, rest)) = path.names.as_slice().split_first() else {
        return total;
    };
    let total = count(total, first.bytes());
    count_steps(total, rest)
}

pub(crate) fn count_type(total: usize, name: &TypeName) -> usize
    ensures { Counts total result (type_text name.now) }
{
    match name {
        TypeName::Number => count(total, b"number"),
        TypeName::Text => count(total, b"text"),
        TypeName::Truth => count(total, b"truth"),
        TypeName::Object(path) => count_path(total, path),
    }
}

fn count_negative(total: usize, number: i64) -> usize
    ensures { Counts total result ((codes "-" ++ signed_decimal number)) }
{
    let total = count(total, b"-");
    count_number(total, number)
}

fn count_literal(total: usize, value: &Literal) -> usize
    ensures { Counts total result (literal_text value.now) }
{
    match value {
        Literal::Number(_, number) => count_number(total, *number),
        Literal::Negative(_, number) => count_negative(total, *number),
        Literal::Text(_, content) => count_quoted(total, content.bytes()),
        Literal::Truth(_, true) => count(total, b"true"),
        Literal::Truth(_, false) => count(total, b"false"),
    }
}

pub(crate) fn count_one(total: usize, one: bool) -> usize
    ensures { Counts total result (one_text one) }
{
    if one { count(total, b" one") } else { total }
}

pub(crate) fn count_first(total: usize, first: &Option<Literal>) -> usize
    ensures { Counts total result (first_text first.now) }
{
    let Some(value) = first else {
        return total;
    };
    let total = count(total, b" = ");
    count_literal(total, value)
}

pub(crate) fn count_declared(total: usize, declared: &Option<TypeName>) -> usize
    ensures { Counts total result (declared_text declared.now) }
{
    let Some(name) = declared else {
        return total;
    };
    let total = count(total, b" : ");
    count_type(total, name)
}

fn count_parameter(total: usize, parameter: &Parameter) -> usize
    ensures { Counts total result (parameter_text parameter.now) }
{
    let total = count(total, parameter.name.bytes());
    let total = count(total, b" : ");
    count_type(total, &parameter.values)
}

fn count_other(total: usize, parameter: &Parameter) -> usize
    ensures { Counts total result ((codes ", " ++ parameter_text parameter.now)) }
{
    let total = count(total, b", ");
    count_parameter(total, parameter)
}

// Parameters, each behind a comma and a space.
fn count_others(total: usize, parameters: &[Parameter]) -> usize
    ensures { Counts total result (flat_map (λ p. codes ", " ++ parameter_text p) parameters.now) }
{
    let mut sum = total;
    for parameter in parameters {
        sum = count_other(sum, parameter);
    }
    sum
}

fn count_list(total: usize, parameters: &[Parameter]) -> usize
    ensures { Counts total result (join_by parameter_text (codes ", ") parameters.now) }
{
    let Some((first, rest)) = parameters.split_first() else {
        return total;
    };
    let total = count_parameter(total, first);
    count_others(total, rest)
}

fn count_parameters(total: usize, parameters: &[Parameter]) -> usize
    ensures { Counts total result (parameters_text parameters.now) }
{
    let total = count(total, b"(");
    let total = count_list(total, parameters);
    count(total, b")")
}

fn count_allow(total: usize, allow: &Option<Tree>) -> usize
    ensures { Counts total result (allow_text allow.now) }
{
    let Some(formula) = allow else {
        return total;
    };
    let total = count(total, b" allow ");
    count_formula(total, formula)
}

// A name, its parameters, and who is allowed.
pub(crate) fn count_header(
    total: usize,
    name: &Name,
    parameters: &[Parameter],
    allow: &Option<Tree>,
) -> usize
    ensures { Counts total result (header_text name.now parameters.now allow.now) }
{
    let total = count(total, name.bytes());
    let total = count_parameters(total, parameters);
    count_allow(total, allow)
}
