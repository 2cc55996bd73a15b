// The lines of procedures and views, and whole definitions.
ghost use Rattle.std.specs.Prelude.{ℕ, List, ◌≡◌, ◌≤◌, ◌++◌, [], map, flat_map, codes, IfOk, OnOk};
ghost use Rattle.sheet_syntax_trees.specs.Printing.{formula_text};
ghost use Rattle.sheet_define_data.specs.Printing.{line_at, inside as inside_margin, braced, path_text, header_text, statement_text, show_text, part_text, declaration_text, declarations_text, depth_of as depth_of_declaration, open_behind as open_behind_declaration, definition_text, printed_size, procedure_text, view_text};
ghost use Rattle.sheet_define_data.specs.Grammar.{IsDefinition};
ghost use Rattle.sheet_define_readback.specs.Back.{StandsButForLines};

use crate::column::{append_column, append_ends};
use crate::head::{append_header, append_path};
use crate::line::append_closing;
use crate::statement::append_inside;
use sheet_define_data::{
    Content, Declaration, Definition, Parameter, Part, Path, Procedure, Show, View,
};
use sheet_syntax_print::{append, append_formula};
use sheet_syntax_trees::Tree;
use sheet_values::{Name, NoMemory};
use std::alloc::Global;

/// The text of a definition.
///
/// Each column, procedure, view, part and statement stands on a line of its own, with two spaces before it for each brace
/// that is open, and so does each closing brace, but for `} else {`. Every line ends with a line feed.
///
/// The text of a definition that some text stands for stands for that definition, but for the lines, where it has 262,144
/// bytes at most: `printed_length` tells.
pub fn print_definition(alloc: Global, definition: &Definition) -> Result<Vec<u8>, NoMemory>
    ensures exact { IfOk result (λ text. text.items ≡ definition_text definition.now) }
    ensures reads_back { IfOk result (λ text. (source : List ℕ) → IsDefinition source definition.now → printed_size definition.now ≤ 262144 → StandsButForLines text.items definition.now) }
{
    text_of(alloc, definition)
}

fn text_of(alloc: Global, definition: &Definition) -> Result<Vec<u8>, NoMemory>
    ensures { IfOk result (λ text. text.items ≡ definition_text definition.now) }
{
    let mut text = Vec::new(alloc);
    append_definition(alloc, &mut text, definition)?;
    Ok(text)
}

/// Adds the text of a definition at the end.
pub fn append_definition(
    alloc: Global,
    out: &mut Vec<u8>,
    definition: &Definition,
) -> Result<(), NoMemory>
    ensures { OnOk result (out.new.items ≡ out.old.items ++ definition_text definition.now) }
{
    append_declarations(alloc, out, definition.declarations.as_slice())
}

// In how many object columns a declaration stands.
fn depth_of(declaration: &Declaration) -> u64
    ensures { result ≡ depth_of_declaration declaration.now }
{
    match declaration {
        Declaration::Column(column) => u64::from(column.depth),
        _ => 0,
    }
}

// How many object columns are open behind a declaration.
fn open_behind(declaration: &Declaration) -> u64
    ensures { result ≡ open_behind_declaration declaration.now }
{
    match declaration {
        Declaration::Column(column) => match column.content {
            Content::Object => u64::from(column.depth) + 1,
            _ => u64::from(column.depth),
        },
        _ => 0,
    }
}

fn append_declarations(
    alloc: Global,
    out: &mut Vec<u8>,
    declarations: &[Declaration],
) -> Result<(), NoMemory>
    ensures { OnOk result (out.new.items ≡ out.old.items ++ declarations_text 0 declarations.now) }
{
    let mut open = 0;
    let mut rest = declarations;
    while let Some((declaration, others)) = rest.split_first() {
        append_ends(out, open, depth_of(declaration))?;
        append_declaration(alloc, out, declaration)?;
        open = open_behind(declaration);
        rest = others;
    }
    append_ends(out, open, 0)
}

// The lines of a declaration, without those that close the braces of an object column.
fn append_declaration(
    alloc: Global,
    out: &mut Vec<u8>,
    declaration: &Declaration,
) -> Result<(), NoMemory>
    ensures { OnOk result (out.new.items ≡ out.old.items ++ declaration_text declaration.now) }
{
    match declaration {
        Declaration::Callers { path, .. } => append_callers(out, path),
        Declaration::Column(column) => append_column(out, column),
        Declaration::Procedure(procedure) => append_procedure(alloc, out, procedure),
        Declaration::View(view) => append_view(out, view),
    }
}

fn append_callers(out: &mut Vec<u8>, path: &Path) -> Result<(), NoMemory>
    ensures { OnOk result (out.new.items ≡ out.old.items ++ line_at [] (codes "callers " ++ path_text path.now)) }
{
    append(out, b"callers ")?;
    append_path(out, path)?;
    append(out, b"\n")
}

// The line that begins a procedure or a view.
fn append_opening(
    out: &mut Vec<u8>,
    word: &[u8],
    name: &Name,
    parameters: &[Parameter],
    allow: &Option<Tree>,
) -> Result<(), NoMemory>
    ensures { OnOk result (out.new.items ≡ out.old.items ++ line_at [] ((word.now ++ header_text name.now parameters.now allow.now) ++ codes " {")) }
{
    append(out, word)?;
    append_header(out, name, parameters, allow)?;
    append(out, b" {\n")
}

fn append_procedure(alloc: Global, out: &mut Vec<u8>, procedure: &Procedure) -> Result<(), NoMemory>
    ensures { OnOk result (out.new.items ≡ out.old.items ++ procedure_text procedure.now) }
{
    append_opening(
        out,
        b"procedure ",
        &procedure.name,
        procedure.parameters.as_slice(),
        &procedure.allow,
    )?;
    append_inside(alloc, out, b"", procedure.body.as_slice())?;
    append_closing(out, b"")
}

fn append_show(out: &mut Vec<u8>, margin: &[u8], show: &Show) -> Result<(), NoMemory>
    ensures { OnOk result (out.new.items ≡ out.old.items ++ show_text margin.now show.now) }
{
    append(out, margin)?;
    append(out, b"show ")?;
    append(out, show.name.bytes())?;
    append(out, b" = ")?;
    append_formula(out, &show.shown)?;
    append(out, b"\n")
}

fn append_shows(out: &mut Vec<u8>, margin: &[u8], shows: &[Show]) -> Result<(), NoMemory>
    ensures { OnOk result (out.new.items ≡ out.old.items ++ flat_map (show_text margin.now) shows.now) }
{
    for show in shows {
        append_show(out, margin, show)?;
    }
    Ok(())
}

// The line that begins a table.
fn append_rows(
    out: &mut Vec<u8>,
    name: &Name,
    variable: &Name,
    source: &Tree,
) -> Result<(), NoMemory>
    ensures { OnOk result (out.new.items ≡ out.old.items ++ line_at (inside_margin []) ((codes "table " ++ name.now ++ codes " = " ++ variable.now ++ codes " in " ++ formula_text source.now) ++ codes " {")) }
{
    append(out, b"  table ")?;
    append(out, name.bytes())?;
    append(out, b" = ")?;
    append(out, variable.bytes())?;
    append(out, b" in ")?;
    append_formula(out, source)?;
    append(out, b" {\n")
}

fn append_table(
    out: &mut Vec<u8>,
    name: &Name,
    variable: &Name,
    source: &Tree,
    shows: &[Show],
) -> Result<(), NoMemory>
    ensures { OnOk result (out.new.items ≡ out.old.items ++ braced (inside_margin []) (codes "table " ++ name.now ++ codes " = " ++ variable.now ++ codes " in " ++ formula_text source.now) (flat_map (show_text (inside_margin (inside_margin []))) shows.now)) }
{
    append_rows(out, name, variable, source)?;
    append_shows(out, b"    ", shows)?;
    append_closing(out, b"  ")
}

fn append_part(out: &mut Vec<u8>, part: &Part) -> Result<(), NoMemory>
    ensures { OnOk result (out.new.items ≡ out.old.items ++ part_text (inside_margin []) part.now) }
{
    match part {
        Part::Show(show) => append_show(out, b"  ", show),
        Part::Table {
            name,
            variable,
            source,
            shows,
            ..
        } => append_table(out, name, variable, source, shows.as_slice()),
    }
}

fn append_parts(out: &mut Vec<u8>, parts: &[Part]) -> Result<(), NoMemory>
    ensures { OnOk result (out.new.items ≡ out.old.items ++ flat_map (part_text (inside_margin [])) parts.now) }
{
    for part in parts {
        append_part(out, part)?;
    }
    Ok(())
}

fn append_view(out: &mut Vec<u8>, view: &View) -> Result<(), NoMemory>
    ensures { OnOk result (out.new.items ≡ out.old.items ++ view_text view.now) }
{
    append_opening(
        out,
        b"view ",
        &view.name,
        view.parameters.as_slice(),
        &view.allow,
    )?;
    append_parts(out, view.parts.as_slice())?;
    append_closing(out, b"")
}
