// Books.
ghost use Rattle.std.specs.Prelude.{◌≡◌, ◌<◌, length, Some, IfOk, IfSome, slice_get, position, bytes_eq, true};
ghost use Rattle.sheet_columns.specs.Tree.{column_of};
ghost use Rattle.sheet_types_rules.specs.Formulas.{is_formula};
ghost use Rattle.sheet_books.specs.declared.body.Procedure.{Procedure as TheProcedure};
ghost use Rattle.sheet_books.specs.declared.body.View.{View as TheView};
ghost use Rattle.sheet_books.specs.Books.{IsWellTyped, IsWellTypedFormula, IsWellTypedProcedure, IsWellTypedView, procedure_with_name, view_with_name};

use crate::body::{Procedure, View};
use sheet_columns::{Columns, Core, Sequence};
use sheet_values::NoMemory;
use std::marker::Model;

/// What a book holds.
#[derive(Drop)]
pub struct Contents {
    /// The columns, each with its type.
    pub columns: Columns,
    /// The object column of the callers; 0 where none is named.
    pub callers: u32,
    /// The formulas of the columns by number, the root first; a column that isn't a formula column has none.
    pub formulas: Sequence<Option<Core>>,
    /// The procedures in the order of the text.
    pub procedures: Sequence<Procedure>,
    /// The views in the order of the text.
    pub views: Sequence<View>,
}

/// A definition with its types and its names resolved. It is always well typed.
#[derive(Drop)]
pub struct Book {
    contents: Contents,
}

impl Model for Book {
    ghost use Rattle.sheet_books.specs.declared.book.Contents.{Contents as TheContents};
    ghost use Rattle.sheet_books.specs.Books.{IsCountedBook};
    ghost use Rattle.sheet_columns.specs.contracts.formula.Core as core;
    ghost use Rattle.sheet_columns.specs.contracts.statement.CoreStatement as statement;
    ghost use Rattle.sheet_columns.specs.contracts.statement.Statements as statements;
    ghost use Rattle.std.specs.Coded.{codes};

    ghost Value = { TheContents };

    ghost coded = { Prim.hlevel (codes, core.the_row.coded, statement.the_row.coded, statements.the_row.coded) };

    ghost view = { λ b. b.contents };

    ghost invariant = { λ b. IsCountedBook b.contents };
}

impl Book {
    /// The book of well-typed contents. More procedures or views than a number of 32 bits counts are answered as want of memory.
    pub fn new(contents: Contents) -> Result<Book, NoMemory>
        requires { IsWellTyped contents }
        ensures { IfOk result (λ book. book ≡ contents) }
    {
        if u32::try_from(contents.procedures.len()).is_err() {
            return Err(NoMemory);
        }
        if u32::try_from(contents.views.len()).is_err() {
            return Err(NoMemory);
        }
        Ok(Book { contents })
    }

    /// The columns, each with its type.
    pub fn columns(&self) -> &Columns
        ensures columns { result.now ≡ self.now.columns }
        ensures typed { IsWellTyped self.now }
    {
        &self.contents.columns
    }

    /// The formula of a formula column.
    pub fn formula(&self, column: u32) -> &Core
        requires { is_formula (column_of self.now.columns column) ≡ true }
        ensures formula { slice_get self.now.formulas column ≡ Some (Some result.now) }
        ensures typed { IsWellTypedFormula self.now.columns column result.now }
    {
        match self.contents.formulas.at(column as usize) {
            Some(formula) => formula,
            None => unreachable!(),
        }
    }

    /// The object column of the callers; 0 where none is named.
    pub fn callers_column(&self) -> u32
        ensures callers { result ≡ self.now.callers }
        ensures counted { result < length self.now.columns }
    {
        self.contents.callers
    }

    /// The number of the procedure with that name, from 0 in the order of the text; none where there is none.
    pub fn procedure_named(&self, name: &[u8]) -> Option<u32>
        ensures { result ≡ procedure_with_name self.now name.now }
    {
        match place_of_procedure(self.contents.procedures.as_slice(), name) {
            Some(place) => Some(place as u32),
            None => None,
        }
    }

    /// The number of the view with that name, from 0 in the order of the text; none where there is none.
    pub fn view_named(&self, name: &[u8]) -> Option<u32>
        ensures { result ≡ view_with_name self.now name.now }
    {
        match place_of_view(self.contents.views.as_slice(), name) {
            Some(place) => Some(place as u32),
            None => None,
        }
    }

    /// How many procedures there are.
    pub fn procedures(&self) -> u32
        ensures { result ≡ length self.now.procedures }
    {
        self.contents.procedures.len() as u32
    }

    /// How many views there are.
    pub fn views(&self) -> u32
        ensures { result ≡ length self.now.views }
    {
        self.contents.views.len() as u32
    }

    /// The procedure of that number, which is below the count.
    pub fn procedure(&self, k: u32) -> &Procedure
        requires { k < length self.now.procedures }
        ensures procedure { slice_get self.now.procedures k ≡ Some result.now }
        ensures typed { IsWellTypedProcedure self.now.columns self.now.callers result.now }
    {
        self.contents.procedures.at(k as usize)
    }

    /// The view of that number, which is below the count.
    pub fn view(&self, k: u32) -> &View
        requires { k < length self.now.views }
        ensures view { slice_get self.now.views k ≡ Some result.now }
        ensures typed { IsWellTypedView self.now.columns self.now.callers result.now }
    {
        self.contents.views.at(k as usize)
    }
}

fn place_of_procedure(procedures: &[Procedure], name: &[u8]) -> Option<usize>
    ensures place { result ≡ position (λ (x : TheProcedure). bytes_eq x.name name.now) procedures.now }
    ensures within { IfSome result (λ place. place < length procedures.now) }
{
    procedures
        .iter()
        .position(|procedure| procedure.name.bytes() == name)
}

fn place_of_view(views: &[View], name: &[u8]) -> Option<usize>
    ensures place { result ≡ position (λ (x : TheView). bytes_eq x.name name.now) views.now }
    ensures within { IfSome result (λ place. place < length views.now) }
{
    views.iter().position(|view| view.name.bytes() == name)
}
