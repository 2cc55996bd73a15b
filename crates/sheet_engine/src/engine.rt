// The engine.
ghost use Rattle.std.specs.Prelude.{◌≡◌, ◌++◌, [], ◌∷◌, ℕ, ◌<◌, ◌≤◌, false, length, take, slice_get, Some, None, IsSome, OnOk, OnErr, IfOk, IfErr};
ghost use Rattle.sheet_columns.specs.Tree.{column_of, above_of};
ghost use Rattle.sheet_columns.specs.declared.tree.Column.TheVariants.{Object as object_column};
ghost use Rattle.sheet_books.specs.Schemas.{schema_of};
ghost use Rattle.sheet_meaning.specs.Changes.{with_set, with_object, without_object};
ghost use Rattle.sheet_meaning.specs.Rounds.{meaning, value_of, settled_run};
ghost use Rattle.sheet_meaning.specs.Start.{start_state};
ghost use Rattle.sheet_meaning.specs.Workbook.{object_at, column_in};
ghost use Rattle.sheet_meaning.specs.WellFormed.{HoldsKind};
ghost use Rattle.sheet_values.specs.Sets.{contains};
ghost use Rattle.sheet_values.specs.declared.value.Value.TheVariants.{Object};
ghost use Rattle.sheet_meaning.specs.declared.run.Use.TheVariants.{Cell};
ghost use Rattle.sheet_state.specs.Removals.{without_all};
ghost use Rattle.sheet_state.specs.Stored.{schema_of as columns_alone, book as book_of, AreChanged};
ghost use Rattle.sheet_state.specs.Limits.{first_full, Refuses};
ghost use Rattle.sheet_engine.specs.Seen.{workbook_in, workbook_of, IsFormulaCell, keeps, keeps_after};
ghost use Rattle.sheet_engine.specs.Standings.{stands, result_in};
ghost use Rattle.sheet_engine.specs.Started.{IsServed, IsUnderWay};

use crate::settling::{settle, value_of};
use crate::standings::{Standing, Standings};
use sheet_books::Book;
use sheet_columns::{Core, Fault, Items, Place, Variables};
use sheet_state::{Mark, State, StateRefusal};
use sheet_values::{NoMemory, Set, Steps};
use std::alloc::Global;
use std::marker::Model;
use std::rc::Rc;
use std::sync::ledger::Ledger;

/// A time that an engine can be taken back to.
#[derive(Clone, Copy, Debug, PartialEq, Eq)]
pub struct EngineMark {
    state: Mark,
}

/// A book, and the state of its workbook. Results of formula cells that were found stay until the workbook changes, so that who asks
/// again doesn't wait; none of them counts as kept.
#[derive(Drop)]
pub struct Engine {
    book: Rc<Book>,
    state: State,
    standings: Standings,
    alloc: Global,
}

impl Model for Engine {
    ghost use Rattle.std.specs.Prelude.{[]};
    ghost use Rattle.sheet_engine.specs.Seen.{Seen};
    ghost use Rattle.sheet_engine.specs.Started.{IsWorked};
    ghost use Rattle.sheet_columns.specs.contracts.formula.Core as core;
    ghost use Rattle.sheet_columns.specs.contracts.statement.CoreStatement as statement;
    ghost use Rattle.sheet_columns.specs.contracts.statement.Statements as statements;
    ghost use Rattle.std.specs.Coded.{codes};

    ghost Value = { Seen };

    ghost coded = { Prim.hlevel (codes, core.the_row.coded, statement.the_row.coded, statements.the_row.coded) };

    ghost view = { λ e. record { book = e.book.value; state = e.state; kept = [] } };

    ghost invariant = { λ e. IsWorked e.book.value e.state e.standings };
}

impl Engine {
    /// The workbook of a book at its start: the root alone, with the first values of its state cells.
    pub fn new(alloc: Global, book: Book) -> Result<Engine, NoMemory>
        ensures book { IfOk result (λ e. e.book ≡ book) }
        ensures state { IfOk result (λ e. e.state.present.state ≡ start_state (schema_of book)) }
        ensures earlier { IfOk result (λ e. e.state.earlier ≡ []) }
        ensures kept { IfOk result (λ e. e.kept ≡ []) }
    {
        let state = State::new(alloc, book.columns())?;
        match Rc::new(alloc, book) {
            Ok(book) => Ok(Engine {
                book,
                state,
                standings: Standings::new(alloc),
                alloc,
            }),
            Err(_) => Err(NoMemory),
        }
    }

    /// The book. It takes no memory.
    pub fn book(&self) -> &Book
        ensures { result.now ≡ self.now.book }
    {
        &self.book
    }

    /// The same book, to be held while the engine changes.
    pub fn shared_book(&self) -> Result<Rc<Book>, NoMemory>
        ensures { IfOk result (λ book. book.value ≡ self.now.book) }
    {
        match self.book.clone() {
            Ok(book) => Ok(book),
            Err(_) => Err(NoMemory),
        }
    }

    /// The state. It takes no memory.
    pub fn state(&self) -> &State
        ensures state { result.now ≡ self.now.state }
        ensures served { IsServed self.now.book self.now.state }
    {
        &self.state
    }

    /// How many formula cells have a kept result. It takes no memory.
    pub fn kept(&self) -> u64
        ensures { result ≡ length self.now.kept }
    {
        let _ = &self.book;
        0
    }

    /// The settled result of a formula cell.
    pub fn value<G: Ledger>(
        &mut self,
        object: u64,
        column: u32,
        steps: &mut Steps<G>,
    ) -> Result<Result<Set, Fault>, NoMemory>
        requires { IsFormulaCell self.old object column }
        ensures value { IfOk result (λ v. v ≡ meaning (workbook_in self.old) object column) }
        ensures book { self.new.book ≡ self.old.book }
        ensures state { self.new.state ≡ self.old.state }
        ensures kept { OnOk result (self.new.kept ≡ keeps (workbook_in self.old) (Cell object column ∷ []) self.old.kept) }
    {
        match settled(
            self.alloc,
            &self.book,
            &self.state,
            &mut self.standings,
            object,
            column,
            steps,
        ) {
            Ok(value) => Ok(value),
            Err(NoMemory) => {
                self.standings = Standings::new(self.alloc);
                Err(NoMemory)
            }
        }
    }

    /// The value of an expression.
    pub fn work_out<G: Ledger>(
        &mut self,
        core: &Core,
        place: Place,
        variables: &Variables,
        steps: &mut Steps<G>,
    ) -> Result<Result<Set, Fault>, NoMemory>
        ensures value { IfOk result (λ v. v ≡ value_of (workbook_in self.old) core.now place variables.now) }
        ensures book { self.new.book ≡ self.old.book }
        ensures state { self.new.state ≡ self.old.state }
        ensures kept { OnOk result (self.new.kept ≡ keeps (workbook_in self.old) (settled_run (workbook_in self.old) core.now place variables.now).uses self.old.kept) }
    {
        match value_of(
            self.alloc,
            &self.book,
            &self.state,
            &mut self.standings,
            core,
            place,
            variables,
            steps,
        ) {
            Ok(value) => Ok(value),
            Err(NoMemory) => {
                self.standings = Standings::new(self.alloc);
                Err(NoMemory)
            }
        }
    }

    /// Puts a set into a state cell of a live object.
    pub fn set_cell(&mut self, object: u64, column: u32, set: Set) -> Result<(), StateRefusal>
        requires live { IsSome (object_at self.old.state.present.state.objects object) }
        requires under { column_in (object_at self.old.state.present.state.objects object) ≡ above_of self.old.book.columns column }
        requires typed { HoldsKind self.old.state.present.state (record { object = object; column = column; set = set }) (column_of self.old.book.columns column) }
        ensures state { OnOk result (self.new.state.present.state ≡ with_set self.old.state.present.state object column set) }
        ensures room { OnOk result (first_full (book_of self.old.book.columns (with_set self.old.state.present.state object column set)) ≡ None) }
        ensures full { IfErr result (Refuses (first_full (book_of self.old.book.columns (with_set self.old.state.present.state object column set)))) }
        ensures earlier { OnOk result (self.new.state.earlier ≡ self.old.state.earlier ++ self.old.state.present ∷ []) }
        ensures book { self.new.book ≡ self.old.book }
        ensures kept { OnOk result (self.new.kept ≡ keeps_after (workbook_in self.old) (workbook_in self.new) self.old.kept) }
        ensures unchanged { OnErr result (self.new ≡ self.old) }
    {
        let _items = match self
            .state
            .set_cell(self.book.columns(), object, column, set)
        {
            Ok(items) => items,
            Err(refusal) => return Err(refusal),
        };
        self.standings = Standings::new(self.alloc);
        Ok(())
    }

    /// Makes an object of a column under a live object of the column above; its number.
    pub fn new_object(&mut self, column: u32, parent: u64) -> Result<u64, StateRefusal>
        requires live { IsSome (object_at self.old.state.present.state.objects parent) }
        requires under { column_in (object_at self.old.state.present.state.objects parent) ≡ above_of self.old.book.columns column }
        requires object_column { column_of self.old.book.columns column ≡ Some object_column }
        ensures number { IfOk result (λ made. made ≡ self.old.state.present.state.next) }
        ensures state { OnOk result (self.new.state.present.state ≡ with_object (columns_alone self.old.book.columns) self.old.state.present.state column parent) }
        ensures room { OnOk result (first_full (book_of self.old.book.columns (with_object (columns_alone self.old.book.columns) self.old.state.present.state column parent)) ≡ None) }
        ensures full { IfErr result (Refuses (first_full (book_of self.old.book.columns (with_object (columns_alone self.old.book.columns) self.old.state.present.state column parent)))) }
        ensures earlier { OnOk result (self.new.state.earlier ≡ self.old.state.earlier ++ self.old.state.present ∷ []) }
        ensures book { self.new.book ≡ self.old.book }
        ensures kept { OnOk result (self.new.kept ≡ keeps_after (workbook_in self.old) (workbook_in self.new) self.old.kept) }
        ensures unchanged { OnErr result (self.new ≡ self.old) }
    {
        let made = match self.state.new_object(self.book.columns(), column, parent) {
            Ok(made) => made,
            Err(refusal) => return Err(refusal),
        };
        self.standings = Standings::new(self.alloc);
        Ok(made.0)
    }

    /// Takes a live object other than the root away, with every object below it, and every reference to them out of all state cells.
    pub fn delete(&mut self, object: u64) -> Result<(), NoMemory>
        requires live { IsSome (object_at self.old.state.present.state.objects object) }
        requires not_root { 0 < object }
        ensures state { OnOk result (self.new.state.present.state ≡ without_object self.old.state.present.state object) }
        ensures earlier { OnOk result (self.new.state.earlier ≡ self.old.state.earlier ++ self.old.state.present ∷ []) }
        ensures book { self.new.book ≡ self.old.book }
        ensures kept { OnOk result (self.new.kept ≡ keeps_after (workbook_in self.old) (workbook_in self.new) self.old.kept) }
        ensures unchanged { OnErr result (self.new ≡ self.old) }
    {
        self.state.delete(self.book.columns(), object)?;
        self.standings = Standings::new(self.alloc);
        Ok(())
    }

    /// Takes the objects of a set away one after another, each with all below it, where it is still live, and every reference to
    /// them out of all state cells; the items whose content this changed. It is one change. Nothing changes after the refusal.
    pub fn delete_all(&mut self, objects: &Set) -> Result<Items, NoMemory>
        requires not_root { contains (Object 0) objects.now ≡ false }
        ensures state { OnOk result (self.new.state.present.state ≡ without_all self.old.state.present.state objects.now) }
        ensures changed { IfOk result (λ items. AreChanged self.old.state.present.state self.new.state.present.state items) }
        ensures earlier { OnOk result (self.new.state.earlier ≡ self.old.state.earlier ++ self.old.state.present ∷ []) }
        ensures book { self.new.book ≡ self.old.book }
        ensures kept { OnOk result (self.new.kept ≡ keeps_after (workbook_in self.old) (workbook_in self.new) self.old.kept) }
        ensures unchanged { OnErr result (self.new ≡ self.old) }
    {
        let items = self.state.delete_all(self.book.columns(), objects)?;
        self.standings = Standings::new(self.alloc);
        Ok(items)
    }

    /// The mark of this time. It is good until the engine is undone to before it, or forgets. It takes no memory.
    pub fn mark(&self) -> EngineMark
        ensures { result.state.place ≡ length self.now.state.earlier }
    {
        EngineMark {
            state: self.state.mark(),
        }
    }

    /// Takes the engine back to a mark. It takes no memory.
    pub fn undo_to(&mut self, mark: EngineMark)
        requires good { mark.state.place ≤ length self.old.state.earlier }
        ensures state { slice_get (self.old.state.earlier ++ self.old.state.present ∷ []) mark.state.place ≡ Some self.new.state.present }
        ensures earlier { self.new.state.earlier ≡ take mark.state.place self.old.state.earlier }
        ensures book { self.new.book ≡ self.old.book }
    {
        self.state.undo_to(mark.state);
        self.standings = Standings::new(self.alloc);
    }

    /// Drops what undo keeps. No earlier mark is good any more. It takes no memory.
    pub fn forget(&mut self)
        ensures state { self.new.state.present ≡ self.old.state.present }
        ensures earlier { self.new.state.earlier ≡ [] }
        ensures book { self.new.book ≡ self.old.book }
        ensures kept { self.new.kept ≡ self.old.kept }
    {
        self.state.forget();
        self.standings = Standings::new(self.alloc);
    }
}

// The settled result of a cell. Where memory is refused, some cells may be left that wait.
fn settled<G: Ledger>(
    alloc: Global,
    book: &Book,
    state: &State,
    standings: &mut Standings,
    object: u64,
    column: u32,
    steps: &mut Steps<G>,
) -> Result<Result<Set, Fault>, NoMemory>
    requires served { IsServed book.now state.now }
    requires under_way { IsUnderWay book.now state.now standings.old [] }
    ensures value { IfOk result (λ v. v ≡ meaning (workbook_of book.now state.now) object column) }
    ensures under_way { OnOk result (IsUnderWay book.now state.now standings.new []) }
{
    settle(alloc, book, state, standings, object, column, steps)?;
    result_of(standings, object, column)
}

// A copy of a cell's result; `cycle` where it has none.
fn result_of(
    standings: &Standings,
    object: u64,
    column: u32,
) -> Result<Result<Set, Fault>, NoMemory>
    ensures { IfOk result (λ v. v ≡ result_in (stands standings.now (object, column))) }
{
    match standings.find(object, column) {
        Some(Standing::Settled(Ok(set))) => {
            let set = set.copy()?;
            Ok(Ok(set))
        }
        Some(Standing::Settled(Err(fault))) => Ok(Err(*fault)),
        _ => Ok(Err(Fault::Cycle)),
    }
}
