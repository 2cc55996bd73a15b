// What stands in the lines of columns and in the first lines of procedures and views.
ghost use Rattle.std.specs.Prelude.{◌≡◌, ◌++◌, map, flat_map, codes, OnOk};
ghost use Rattle.std.specs.Fmt.{signed_decimal};
ghost use Rattle.std.specs.List.{join_by};
ghost use Rattle.sheet_define_data.specs.Printing.{path_text, type_text, literal_text, one_text, first_text, declared_text, parameter_text, parameters_text, allow_text, header_text};

use sheet_define_data::{Literal, Parameter, Path, TypeName};
use sheet_syntax_print::{append, append_formula, append_number, append_quoted};
use sheet_syntax_trees::Tree;
use sheet_values::{Name, NoMemory};

// Names, each behind a dot.
fn append_steps(out: &mut Vec<u8>, names: &[Name]) -> Result<(), NoMemory>
    ensures { OnOk result (out.new.items ≡ out.old.items ++ flat_map (λ name. codes "." ++ name) names.now) }
{
    for name in names {
        append_step(out, name)?;
    }
    Ok(())
}

fn append_step(out: &mut Vec<u8>, name: &Name) -> Result<(), NoMemory>
    ensures { OnOk result (out.new.items ≡ out.old.items ++ (codes "." ++ name.now)) }
{
    append(out, b".")?;
    append(out, name.bytes())
}

pub(crate) fn append_path(out: &mut Vec<u8>, path: &Path) -> Result<(), NoMemory>
    ensures { OnOk result (out.new.items ≡ out.old.items ++ path_text path.now) }
{
    let Some((first, rest)) = path.names.as_slice().split_first() else {
        return Ok(());
    };
    append(out, first.bytes())?;
    append_steps(out, rest)
}

pub(crate) fn append_type(out: &mut Vec<u8>, name: &TypeName) -> Result<(), NoMemory>
    ensures { OnOk result (out.new.items ≡ out.old.items ++ type_text name.now) }
{
    match name {
        TypeName::Number => append(out, b"number"),
        TypeName::Text => append(out, b"text"),
        TypeName::Truth => append(out, b"truth"),
        TypeName::Object(path) => append_path(out, path),
    }
}

fn append_negative(out: &mut Vec<u8>, number: i64) -> Result<(), NoMemory>
    ensures { OnOk result (out.new.items ≡ out.old.items ++ (codes "-" ++ signed_decimal number)) }
{
    append(out, b"-")?;
    append_number(out, number)
}

fn append_literal(out: &mut Vec<u8>, value: &Literal) -> Result<(), NoMemory>
    ensures { OnOk result (out.new.items ≡ out.old.items ++ literal_text value.now) }
{
    match value {
        Literal::Number(_, number) => append_number(out, *number),
        Literal::Negative(_, number) => append_negative(out, *number),
        Literal::Text(_, content) => append_quoted(out, content.bytes()),
        Literal::Truth(_, true) => append(out, b"true"),
        Literal::Truth(_, false) => append(out, b"false"),
    }
}

pub(crate) fn append_one(out: &mut Vec<u8>, one: bool) -> Result<(), NoMemory>
    ensures { OnOk result (out.new.items ≡ out.old.items ++ one_text one) }
{
    if one { append(out, b" one") } else { Ok(()) }
}

pub(crate) fn append_first(out: &mut Vec<u8>, first: &Option<Literal>) -> Result<(), NoMemory>
    ensures { OnOk result (out.new.items ≡ out.old.items ++ first_text first.now) }
{
    let Some(value) = first else {
        return Ok(());
    };
    append(out, b" = ")?;
    append_literal(out, value)
}

pub(crate) fn append_declared(
    out: &mut Vec<u8>,
    declared: &Option<TypeName>,
) -> Result<(), NoMemory>
    ensures { OnOk result (out.new.items ≡ out.old.items ++ declared_text declared.now) }
{
    let Some(name) = declared else {
        return Ok(());
    };
    append(out, b" : ")?;
    append_type(out, name)
}

fn append_parameter(out: &mut Vec<u8>, parameter: &Parameter) -> Result<(), NoMemory>
    ensures { OnOk result (out.new.items ≡ out.old.items ++ parameter_text parameter.now) }
{
    append(out, parameter.name.bytes())?;
    append(out, b" : ")?;
    append_type(out, &parameter.values)
}

fn append_other(out: &mut Vec<u8>, parameter: &Parameter) -> Result<(), NoMemory>
    ensures { OnOk result (out.new.items ≡ out.old.items ++ (codes ", " ++ parameter_text parameter.now)) }
{
    append(out, b", ")?;
    append_parameter(out, parameter)
}

// Parameters, each behind a comma and a space.
fn append_others(out: &mut Vec<u8>, parameters: &[Parameter]) -> Result<(), NoMemory>
    ensures { OnOk result (out.new.items ≡ out.old.items ++ flat_map (λ p. codes ", " ++ parameter_text p) parameters.now) }
{
    for parameter in parameters {
        append_other(out, parameter)?;
    }
    Ok(())
}

fn append_list(out: &mut Vec<u8>, parameters: &[Parameter]) -> Result<(), NoMemory>
    ensures { OnOk result (out.new.items ≡ out.old.items ++ join_by parameter_text (codes ", ") parameters.now) }
{
    let Some((first, rest)) = parameters.split_first() else {
        return Ok(());
    };
    append_parameter(out, first)?;
    append_others(out, rest)
}

fn append_parameters(out: &mut Vec<u8>, parameters: &[Parameter]) -> Result<(), NoMemory>
    ensures { OnOk result (out.new.items ≡ out.old.items ++ parameters_text parameters.now) }
{
    append(out, b"(")?;
    append_list(out, parameters)?;
    append(out, b")")
}

fn append_allow(out: &mut Vec<u8>, allow: &Option<Tree>) -> Result<(), NoMemory>
    ensures { OnOk result (out.new.items ≡ out.old.items ++ allow_text allow.now) }
{
    let Some(formula) = allow else {
        return Ok(());
    };
    append(out, b" allow ")?;
    append_formula(out, formula)
}

// A name, its parameters, and who is allowed.
pub(crate) fn append_header(
    out: &mut Vec<u8>,
    name: &Name,
    parameters: &[Parameter],
    allow: &Option<Tree>,
) -> Result<(), NoMemory>
    ensures { OnOk result (out.new.items ≡ out.old.items ++ header_text name.now parameters.now allow.now) }
{
    append(out, name.bytes())?;
    append_parameters(out, parameters)?;
    append_allow(out, allow)
}
