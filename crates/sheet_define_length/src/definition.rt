// How long the lines of procedures and views are, and whole definitions.
ghost use Rattle.std.specs.Prelude.{◌≡◌, ◌+◌, ◌-◌, ◌^◌, ◌++◌, [], min, map, flat_map, codes};
ghost use Rattle.sheet_syntax_trees.specs.Printing.{formula_text};
ghost use Rattle.sheet_define_data.specs.Printing.{line_at, inside as inside_margin, braced, path_text, header_text, statement_text, show_text, part_text, declaration_text, declarations_text, depth_of as depth_of_declaration, open_behind as open_behind_declaration, closings, printed_size, procedure_text, view_text};
ghost use Rattle.sheet_define_length.specs.Counting.{Counts};

use crate::column::{count_column, count_ends};
use crate::formula::count_formula;
use crate::head::{count_header, count_path};
use crate::statement::count_inside;
use crate::words::count;
use sheet_define_data::{
    Content, Declaration, Definition, Parameter, Part, Path, Procedure, Show, View,
};
use sheet_syntax_trees::Tree;
use sheet_values::Name;

/// How many bytes the printed text of a definition has; the greatest number of 64 bits where it has more. Takes no memory.
pub fn printed_length(definition: &Definition) -> usize
    ensures { result ≡ min (printed_size definition.now) (2 ^ 64 - 1) }
{
    count_declarations(0, definition.declarations.as_slice())
}

// In how many object columns a declaration stands.
fn depth_of(declaration: &Declaration) -> u64
    ensures { result ≡ depth_of_declaration declaration.now }
{
    match declaration {
        Declaration::Column(column) => u64::from(column.depth),
        _ => 0,
    }
}

// How many object columns are open behind a declaration.
fn open_behind(declaration: &Declaration) -> u64
    ensures { result ≡ open_behind_declaration declaration.now }
{
    match declaration {
        Declaration::Column(column) => match column.content {
            Content::Object => u64::from(column.depth) + 1,
            _ => u64::from(column.depth),
        },
        _ => 0,
    }
}

// Counts a declaration, behind the lines that close the braces it doesn't stand in.
fn count_next(total: usize, open: u64, declaration: &Declaration) -> usize
    ensures { Counts total result (closings («open» - depth_of_declaration declaration.now) (depth_of_declaration declaration.now) ++ declaration_text declaration.now) }
{
    let total = count_ends(total, open, depth_of(declaration));
    count_declaration(total, declaration)
}

fn count_declarations(total: usize, declarations: &[Declaration]) -> usize
    ensures { Counts total result (declarations_text 0 declarations.now) }
{
    let mut sum = total;
    let mut open = 0;
    let mut rest = declarations;
    while let Some((declaration, others)) = rest.split_first() {
        sum = count_next(sum, open, declaration);
        open = open_behind(declaration);
        rest = others;
    }
    count_ends(sum, open, 0)
}

// The lines of a declaration, without those that close the braces of an object column.
fn count_declaration(total: usize, declaration: &Declaration) -> usize
    ensures { Counts total result (declaration_text declaration.now) }
{
    match declaration {
        Declaration::Callers { path, .. } => count_callers(total, path),
        Declaration::Column(column) => count_column(total, column),
        Declaration::Procedure(procedure) => count_procedure(total, procedure),
        Declaration::View(view) => count_view(total, view),
    }
}

fn count_callers(total: usize, path: &Path) -> usize
    ensures { Counts total result (line_at [] (codes "callers " ++ path_text path.now)) }
{
    let total = count(total, b"callers ");
    let total = count_path(total, path);
    count(total, b"\n")
}

// The line that begins a procedure or a view.
fn count_opening(
    total: usize,
    word: &[u8],
    name: &Name,
    parameters: &[Parameter],
    allow: &Option<Tree>,
) -> usize
    ensures { Counts total result (line_at [] ((word.now ++ header_text name.now parameters.now allow.now) ++ codes " {")) }
{
    let total = count(total, word);
    let total = count_header(total, name, parameters, allow);
    count(total, b" {\n")
}

fn count_procedure(total: usize, procedure: &Procedure) -> usize
    ensures { Counts total result (procedure_text procedure.now) }
{
    let total = count_opening(
        total,
        b"procedure ",
        &procedure.name,
        procedure.parameters.as_slice(),
        &procedure.allow,
    );
    let total = count_inside(total, 0, procedure.body.as_slice());
    count(total, b"}\n")
}

fn count_show(total: usize, margin: &[u8], show: &Show) -> usize
    ensures { Counts total result (show_text margin.now show.now) }
{
    let total = count(total, margin);
    let total = count(total, b"show ");
    let total = count(total, show.name.bytes());
    let total = count(total, b" = ");
    let total = count_formula(total, &show.shown);
    count(total, b"\n")
}

fn count_shows(total: usize, margin: &[u8], shows: &[Show]) -> usize
    ensures { Counts total result (flat_map (show_text margin.now) shows.now) }
{
    let mut sum = total;
    for show in shows {
        sum = count_show(sum, margin, show);
    }
    sum
}

// The line that begins a table.
fn count_rows(total: usize, name: &Name, variable: &Name, source: &Tree) -> usize
    ensures { Counts total result (line_at (inside_margin []) ((codes "table " ++ name.now ++ codes " = " ++ variable.now ++ codes " in " ++ formula_text source.now) ++ codes " {")) }
{
    let total = count(total, b"  table ");
    let total = count(total, name.bytes());
    let total = count(total, b" = ");
    let total = count(total, variable.bytes());
    let total = count(total, b" in ");
    let total = count_formula(total, source);
    count(total, b" {\n")
}

fn count_table(total: usize, name: &Name, variable: &Name, source: &Tree, shows: &[Show]) -> usize
    ensures { Counts total result (braced (inside_margin []) (codes "table " ++ name.now ++ codes " = " ++ variable.now ++ codes " in " ++ formula_text source.now) (flat_map (show_text (inside_margin (inside_margin []))) shows.now)) }
{
    let total = count_rows(total, name, variable, source);
    let total = count_shows(total, b"    ", shows);
    count(total, b"  }\n")
}

fn count_part(total: usize, part: &Part) -> usize
    ensures { Counts total result (part_text (inside_margin []) part.now) }
{
    match part {
        Part::Show(show) => count_show(total, b"  ", show),
        Part::Table {
            name,
            variable,
            source,
            shows,
            ..
        } => count_table(total, name, variable, source, shows.as_slice()),
    }
}

fn count_parts(total: usize, parts: &[Part]) -> usize
    ensures { Counts total result (flat_map (part_text (inside_margin [])) parts.now) }
{
    let mut sum = total;
    for part in parts {
        sum = count_part(sum, part);
    }
    sum
}

fn count_view(total: usize, view: &View) -> usize
    ensures { Counts total result (view_text view.now) }
{
    let total = count_opening(
        total,
        b"view ",
        &view.name,
        view.parameters.as_slice(),
        &view.allow,
    );
    let total = count_parts(total, view.parts.as_slice());
    count(total, b"}\n")
}
