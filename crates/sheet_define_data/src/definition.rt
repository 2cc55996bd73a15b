// Definitions as they are written.

use crate::Statement;
use sheet_syntax_trees::Tree;
use sheet_values::Name;
use sqlite_items::Items;

/// Names with dots between them, which say where a column stands below the root.
#[derive(Drop)]
pub struct Path {
    /// The line of the first name, from 1.
    pub line: u32,
    /// One name at least.
    pub names: Items<Name>,
}

/// The type of a column's or a parameter's values.
#[derive(Drop)]
pub enum TypeName {
    Number,
    Text,
    Truth,
    /// The objects of the column at that path.
    Object(Path),
}

/// The first value of a state column. The number that comes first is the line, from 1.
#[derive(Drop)]
pub enum Literal {
    /// A number from 0 to 9223372036854775807.
    Number(u32, i64),
    /// `-` and a number from 0 to 9223372036854775807.
    Negative(u32, i64),
    Text(u32, Name),
    Truth(u32, bool),
}

/// What a column holds.
#[derive(Drop)]
pub enum Content {
    /// `object c { .. }`: objects. The columns in its braces are those declarations behind it that are deeper.
    Object,
    /// `state c : t one = v`. The word `one` and the first value may be left out.
    State {
        values: TypeName,
        one: bool,
        first: Option<Literal>,
    },
    /// `formula c : t = e`. The type may be left out.
    Formula {
        values: Option<TypeName>,
        formula: Tree,
    },
}

/// A column.
#[derive(Drop)]
pub struct Column {
    /// How many object columns it stands in: 0 directly below the root.
    pub depth: u32,
    /// The line of the word that begins it, from 1.
    pub line: u32,
    pub name: Name,
    pub content: Content,
}

/// A parameter of a procedure or a view.
#[derive(Drop)]
pub struct Parameter {
    /// The line of its name, from 1.
    pub line: u32,
    pub name: Name,
    pub values: TypeName,
}

/// `procedure p(..) allow e { .. }`.
#[derive(Drop)]
pub struct Procedure {
    /// The line of the word `procedure`, from 1.
    pub line: u32,
    pub name: Name,
    /// At most 16.
    pub parameters: Items<Parameter>,
    pub allow: Option<Tree>,
    pub body: Items<Statement>,
}

/// `show n = e`.
#[derive(Drop)]
pub struct Show {
    /// The line of the word `show`, from 1.
    pub line: u32,
    pub name: Name,
    pub shown: Tree,
}

/// A part of a view.
#[derive(Drop)]
pub enum Part {
    Show(Show),
    /// `table n = x in e { .. }`, with the line of the word `table`, from 1.
    Table {
        line: u32,
        name: Name,
        variable: Name,
        source: Tree,
        shows: Items<Show>,
    },
}

/// `view v(..) allow e { .. }`.
#[derive(Drop)]
pub struct View {
    /// The line of the word `view`, from 1.
    pub line: u32,
    pub name: Name,
    /// At most 16.
    pub parameters: Items<Parameter>,
    pub allow: Option<Tree>,
    pub parts: Items<Part>,
}

/// One of the declarations that a definition is made of. A column that stands in an object column is a declaration of its
/// own, so that no data is nested as deep as the columns of a text may be.
#[derive(Drop)]
pub enum Declaration {
    /// `callers p`, with the line of the word `callers`, from 1.
    Callers { line: u32, path: Path },
    Column(Column),
    Procedure(Procedure),
    View(View),
}

/// A definition: its declarations in the order of the text.
#[derive(Drop)]
pub struct Definition {
    pub declarations: Items<Declaration>,
}
