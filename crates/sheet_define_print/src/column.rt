// The lines of columns.
ghost use Rattle.std.specs.Prelude.{◌≡◌, ◌-◌, ◌++◌, codes, OnOk};
ghost use Rattle.sheet_syntax_trees.specs.Printing.{formula_text};
ghost use Rattle.sheet_define_data.specs.Printing.{line_at, margin, closings, type_text, one_text, first_text, declared_text, content_text, column_text};

use crate::head::{append_declared, append_first, append_one, append_type};
use crate::line::append_margin;
use sheet_define_data::{Column, Content, Literal, TypeName};
use sheet_syntax_print::{append, append_formula};
use sheet_syntax_trees::Tree;
use sheet_values::{Name, NoMemory};

// A type, whether there is one value, and the first value.
fn append_values(
    out: &mut Vec<u8>,
    values: &TypeName,
    one: bool,
    first: &Option<Literal>,
) -> Result<(), NoMemory>
    ensures { OnOk result (out.new.items ≡ out.old.items ++ (type_text values.now ++ one_text one ++ first_text first.now)) }
{
    append_type(out, values)?;
    append_one(out, one)?;
    append_first(out, first)
}

fn append_state(
    out: &mut Vec<u8>,
    name: &Name,
    values: &TypeName,
    one: bool,
    first: &Option<Literal>,
) -> Result<(), NoMemory>
    ensures { OnOk result (out.new.items ≡ out.old.items ++ (codes "state " ++ name.now ++ codes " : " ++ type_text values.now ++ one_text one ++ first_text first.now)) }
{
    append(out, b"state ")?;
    append(out, name.bytes())?;
    append(out, b" : ")?;
    append_values(out, values, one, first)
}

fn append_worked(
    out: &mut Vec<u8>,
    name: &Name,
    values: &Option<TypeName>,
    formula: &Tree,
) -> Result<(), NoMemory>
    ensures { OnOk result (out.new.items ≡ out.old.items ++ (codes "formula " ++ name.now ++ declared_text values.now ++ codes " = " ++ formula_text formula.now)) }
{
    append(out, b"formula ")?;
    append(out, name.bytes())?;
    append_declared(out, values)?;
    append(out, b" = ")?;
    append_formula(out, formula)
}

fn append_object(out: &mut Vec<u8>, name: &Name) -> Result<(), NoMemory>
    ensures { OnOk result (out.new.items ≡ out.old.items ++ ((codes "object " ++ name.now) ++ codes " {")) }
{
    append(out, b"object ")?;
    append(out, name.bytes())?;
    append(out, b" {")
}

fn append_content(out: &mut Vec<u8>, name: &Name, content: &Content) -> Result<(), NoMemory>
    ensures { OnOk result (out.new.items ≡ out.old.items ++ content_text name.now content.now) }
{
    match content {
        Content::Object => append_object(out, name),
        Content::State { values, one, first } => append_state(out, name, values, *one, first),
        Content::Formula { values, formula } => append_worked(out, name, values, formula),
    }
}

// The line of a column.
pub(crate) fn append_column(out: &mut Vec<u8>, column: &Column) -> Result<(), NoMemory>
    ensures { OnOk result (out.new.items ≡ out.old.items ++ column_text column.now) }
{
    append_margin(out, u64::from(column.depth))?;
    append_content(out, &column.name, &column.content)?;
    append(out, b"\n")
}

// The line that closes the braces of an object column of that depth.
fn append_end(out: &mut Vec<u8>, depth: u64) -> Result<(), NoMemory>
    ensures { OnOk result (out.new.items ≡ out.old.items ++ line_at (margin depth) (codes "}")) }
{
    append_margin(out, depth)?;
    append(out, b"}\n")
}

// The lines that close the open braces down to that depth.
pub(crate) fn append_ends(out: &mut Vec<u8>, from: u64, depth: u64) -> Result<(), NoMemory>
    ensures { OnOk result (out.new.items ≡ out.old.items ++ closings (from - depth) depth) }
{
    let mut left = from;
    while left > depth {
        left -= 1;
        append_end(out, left)?;
    }
    Ok(())
}
