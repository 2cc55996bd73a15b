// How long the lines of columns are.
ghost use Rattle.std.specs.Prelude.{◌≡◌, ◌-◌, ◌++◌, codes};
ghost use Rattle.sheet_syntax_trees.specs.Printing.{formula_text};
ghost use Rattle.sheet_define_data.specs.Printing.{line_at, margin, closings, type_text, one_text, first_text, declared_text, content_text, column_text};
ghost use Rattle.sheet_define_length.specs.Counting.{Counts};

use crate::formula::count_formula;
use crate::head::{count_declared, count_first, count_one, count_type};
use crate::line::count_margin;
use crate::words::count;
use sheet_define_data::{Column, Content, Literal, TypeName};
use sheet_syntax_trees::Tree;
use sheet_values::Name;

// A type, whether there is one value, and the first value.
fn count_values(total: usize, values: &TypeName, one: bool, first: &Option<Literal>) -> usize
    ensures { Counts total result ((type_text values.now ++ one_text one ++ first_text first.now)) }
{
    let total = count_type(total, values);
    let total = count_one(total, one);
    count_first(total, first)
}

fn count_state(
    total: usize,
    name: &Name,
    values: &TypeName,
    one: bool,
    first: &Option<Literal>,
) -> usize
    ensures { Counts total result ((codes "state " ++ name.now ++ codes " : " ++ type_text values.now ++ one_text one ++ first_text first.now)) }
{
    let total = count(total, b"state ");
    let total = count(total, name.bytes());
    let total = count(total, b" : ");
    count_values(total, values, one, first)
}

fn count_worked(total: usize, name: &Name, values: &Option<TypeName>, formula: &Tree) -> usize
    ensures { Counts total result ((codes "formula " ++ name.now ++ declared_text values.now ++ codes " = " ++ formula_text formula.now)) }
{
    let total = count(total, b"formula ");
    let total = count(total, name.bytes());
    let total = count_declared(total, values);
    let total = count(total, b" = ");
    count_formula(total, formula)
}

fn count_object(total: usize, name: &Name) -> usize
    ensures { Counts total result (((codes "object " ++ name.now) ++ codes " {")) }
{
    let total = count(total, b"object ");
    let total = count(total, name.bytes());
    count(total, b" {")
}

fn count_content(total: usize, name: &Name, content: &Content) -> usize
    ensures { Counts total result (content_text name.now content.now) }
{
    match content {
        Content::Object => count_object(total, name),
        Content::State { values, one, first } => count_state(total, name, values, *one, first),
        Content::Formula { values, formula } => count_worked(total, name, values, formula),
    }
}

// The line of a column.
pub(crate) fn count_column(total: usize, column: &Column) -> usize
    ensures { Counts total result (column_text column.now) }
{
    let total = count_margin(total, u64::from(column.depth));
    let total = count_content(total, &column.name, &column.content);
    count(total, b"\n")
}

// The line that closes the braces of an object column of that depth.
fn count_end(total: usize, depth: u64) -> usize
    ensures { Counts total result (line_at (margin depth) (codes "}")) }
{
    let total = count_margin(total, depth);
    count(total, b"}\n")
}

// The lines that close the open braces down to that depth.
pub(crate) fn count_ends(total: usize, from: u64, depth: u64) -> usize
    ensures { Counts total result (closings (from - depth) depth) }
{
    let mut sum = total;
    let mut left = from;
    while left > depth {
        left -= 1;
        sum = count_end(sum, left);
    }
    sum
}
