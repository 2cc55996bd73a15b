// Looks at views, and the four counts.
ghost use Rattle.std.specs.Prelude.{◌≡◌, ◌<◌, ℕ, List, [], length, slice_get, Some, None};
ghost use Rattle.sheet_books.specs.declared.body.View.{View as TheView};
ghost use Rattle.sheet_machine_laws.specs.Act.{by_page, page_of, who as who_is, see as the_see, counts};
ghost use Rattle.sheet_machine_laws.specs.Judging.{for_caller, for_operator, with_arguments};
ghost use Rattle.sheet_machine.specs.Gives.{Gives};
ghost use Rattle.sheet_machine.specs.Held.{holding, IsReady};
ghost use Rattle.sheet_requests.specs.declared.reply.Reply.TheVariants as replies;

use crate::answered::{Answered, refuse, tell};
use crate::held::Held;
use crate::judging::{OPERATOR, who};
use sheet_meaning::Caller;
use sheet_requests::{Refusal, Reply};
use sheet_values::{Name, NoMemory, Steps, Values};
use sheet_views::{ViewRefusal, bad_view_argument, see as page};
use std::sync::ledger::Ledger;

// A look at the view of that number, whose arguments fit.
fn show<G: Ledger>(
    held: &mut Held,
    view: u32,
    who: Caller,
    with: &Values,
    steps: &mut Steps<G>,
) -> Result<Answered, NoMemory>
    requires settled { held.old.engine.state.earlier ≡ [] }
    requires none { held.old.pending ≡ None }
    requires counted { view < length held.old.engine.book.views }
    ensures gives { (v : TheView) → slice_get held.old.engine.book.views view ≡ Some v → Gives (by_page (holding held.old) v who with.now (λ parts. replies.Page parts) (page_of (holding held.old) v who with.now)) (holding held.old) held.new result }
    ensures none { held.new.pending ≡ None }
{
    match page(
        held.alloc,
        &mut held.engine,
        view,
        who.object,
        who.operator,
        with,
        steps,
    ) {
        Ok(page) => tell(held, Reply::Page(page)),
        Err(ViewRefusal::Denied) => refuse(held, Refusal::Denied),
        Err(ViewRefusal::FormulaFault(fault)) => refuse(held, Refusal::FormulaFault(fault)),
        Err(ViewRefusal::NoMemory) => Err(NoMemory),
    }
}

// A look at the view of that number, where its arguments fit.
fn see_found<G: Ledger>(
    held: &mut Held,
    view: u32,
    who: Caller,
    with: &Values,
    steps: &mut Steps<G>,
) -> Result<Answered, NoMemory>
    requires settled { held.old.engine.state.earlier ≡ [] }
    requires none { held.old.pending ≡ None }
    requires counted { view < length held.old.engine.book.views }
    ensures gives { (v : TheView) → slice_get held.old.engine.book.views view ≡ Some v → Gives (with_arguments (holding held.old) v.parameters with.now (by_page (holding held.old) v who with.now (λ parts. replies.Page parts) (page_of (holding held.old) v who with.now))) (holding held.old) held.new result }
    ensures none { held.new.pending ≡ None }
{
    match bad_view_argument(&held.engine, view, with) {
        Some(bad) => refuse(held, Refusal::BadArgument(bad)),
        None => show(held, view, who, with, steps),
    }
}

// A look at the view of that name.
fn see_named<G: Ledger>(
    held: &mut Held,
    name: &Name,
    who: Caller,
    with: &Values,
    steps: &mut Steps<G>,
) -> Result<Answered, NoMemory>
    requires settled { held.old.engine.state.earlier ≡ [] }
    requires none { held.old.pending ≡ None }
    ensures gives { Gives (the_see (holding held.old) who name.now with.now) (holding held.old) held.new result }
    ensures none { held.new.pending ≡ None }
{
    match held.engine.book().view_named(name.bytes()) {
        Some(view) => see_found(held, view, who, with, steps),
        None => refuse(held, Refusal::UnknownName),
    }
}

/// A look at a view, whose request has that key, name and arguments.
pub(crate) fn see<G: Ledger>(
    held: &mut Held,
    key: &Name,
    name: &Name,
    with: &Values,
    steps: &mut Steps<G>,
) -> Result<Answered, NoMemory>
    requires settled { held.old.engine.state.earlier ≡ [] }
    requires none { held.old.pending ≡ None }
    ensures gives { Gives (for_caller (holding held.old) key.now (λ k c. the_see (holding held.old) (who_is k c) name.now with.now)) (holding held.old) held.new result }
    ensures none { held.new.pending ≡ None }
{
    match held.callers.find_key(key.bytes()) {
        Some(caller) => {
            let who = who(&held.callers, caller);
            see_named(held, name, who, with, steps)
        }
        None => refuse(held, Refusal::UnknownKey),
    }
}

// How many requests were accepted, callers there are, results are kept between requests, which are none yet, and objects are live.
fn count(held: &Held) -> Result<Answered, NoMemory>
    requires settled { held.now.engine.state.earlier ≡ [] }
    requires none { held.now.pending ≡ None }
    ensures { Gives (holding held.now, counts (holding held.now)) (holding held.now) held.now result }
{
    let counts = Reply::Stats {
        accepted: held.accepted,
        callers: held.callers.count(),
        kept: 0,
        objects: held.engine.state().objects(),
    };
    tell(held, counts)
}

/// The four counts, for the operator alone.
pub(crate) fn stats(held: &Held, key: &Name) -> Result<Answered, NoMemory>
    requires settled { held.now.engine.state.earlier ≡ [] }
    requires none { held.now.pending ≡ None }
    ensures { Gives (for_operator (holding held.now) key.now (λ c. (holding held.now, counts (holding held.now)))) (holding held.now) held.now result }
{
    match held.callers.find_key(key.bytes()) {
        Some(caller) => {
            if caller == OPERATOR {
                count(held)
            } else {
                refuse(held, Refusal::NotOperator)
            }
        }
        None => refuse(held, Refusal::UnknownKey),
    }
}
