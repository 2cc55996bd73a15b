// Views, by their numbers.
ghost use Rattle.std.specs.Prelude.{◌≡◌, ◌<◌, length, slice_get, Some};
ghost use Rattle.sheet_books.specs.declared.body.View.{View as TheView};
ghost use Rattle.sheet_meaning.specs.Arguments.{bad_argument};
ghost use Rattle.sheet_meaning.specs.Page.{page};
ghost use Rattle.sheet_engine.specs.Seen.{workbook_in};
ghost use Rattle.sheet_views.specs.Pages.{IsDefinedPage, KeepsForPage};

use crate::allow::is_allowed;
use crate::parts::page;
use crate::refusal::ViewRefusal;
use sheet_books::View;
use sheet_columns::Page;
use sheet_engine::Engine;
use sheet_meaning::Caller;
use sheet_state_arguments::{bad_argument, first_variables};
use sheet_values::{Steps, Values};
use std::alloc::Global;
use std::sync::ledger::Ledger;

/// Which of the arguments doesn't fit the parameters of the view of that number, which is below the count: 0 where the counts
/// differ; else the first argument, from 1, that isn't a live value of its parameter's type; none where all fit. It takes no memory.
pub fn bad_view_argument(engine: &Engine, view: u32, arguments: &Values) -> Option<u32>
    requires counted { view < length engine.now.book.views }
    ensures { (v : TheView) → slice_get engine.now.book.views view ≡ Some v → result ≡ bad_argument engine.now.state.present.state v.parameters arguments.now }
{
    let view = engine.book().view(view);
    bad_argument(engine.state(), &view.parameters, arguments)
}

/// The page of the view of that number, which is below the count, for a caller and arguments.
///
/// `object` is the caller's object, which the operator lacks. The page has the value of each `show`, and of each table a row for
/// each value of its source; a slot or a table that has a fault shows the fault.
///
/// `Denied` where the `allow` formula is false, and `FormulaFault` with its fault where it has one. Book and state stay as they are
/// in any case.
pub fn see<G: Ledger>(
    alloc: Global,
    engine: &mut Engine,
    view: u32,
    object: Option<u64>,
    operator: bool,
    arguments: &Values,
    steps: &mut Steps<G>,
) -> Result<Page, ViewRefusal>
    requires counted { view < length engine.old.book.views }
    ensures page { (v : TheView) → slice_get engine.old.book.views view ≡ Some v → IsDefinedPage result (page (workbook_in engine.old) v.allow v.parts (record { object = object; operator = operator }) arguments.now) }
    ensures kept { (v : TheView) → slice_get engine.old.book.views view ≡ Some v → KeepsForPage (workbook_in engine.old) v (record { object = object; operator = operator }) arguments.now engine.old.kept result engine.new.kept }
    ensures book { engine.new.book ≡ engine.old.book }
    ensures state { engine.new.state ≡ engine.old.state }
{
    let book = engine.shared_book()?;
    let caller = Caller { object, operator };
    see_view(alloc, engine, book.view(view), caller, arguments, steps)
}

// The page of a view.
fn see_view<G: Ledger>(
    alloc: Global,
    engine: &mut Engine,
    view: &View,
    caller: Caller,
    arguments: &Values,
    steps: &mut Steps<G>,
) -> Result<Page, ViewRefusal>
    ensures page { IsDefinedPage result (page (workbook_in engine.old) view.now.allow view.now.parts caller arguments.now) }
    ensures kept { KeepsForPage (workbook_in engine.old) view.now caller arguments.now engine.old.kept result engine.new.kept }
    ensures book { engine.new.book ≡ engine.old.book }
    ensures state { engine.new.state ≡ engine.old.state }
{
    let mut variables = first_variables(alloc, caller, arguments)?;
    match is_allowed(engine, &view.allow, &variables, steps)? {
        Ok(true) => {
            let page = page(alloc, engine, view.parts.as_slice(), &mut variables, steps)?;
            Ok(page)
        }
        Ok(false) => Err(ViewRefusal::Denied),
        Err(fault) => Err(ViewRefusal::FormulaFault(fault)),
    }
}
