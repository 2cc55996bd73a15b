// What books hold.
use sheet_columns::{Core, CoreStatement, CoreView};
use sheet_types::{Book, Procedure, View};
use sheet_values::NoMemory;
use std::alloc::Global;

/// How many columns, procedures and views a book holds; the last statement of the first procedure and the first slot of the first
/// view, where those give a variable.
pub fn held(alloc: Global, book: &Book) -> Result<String, NoMemory> {
    let columns = book.columns().count();
    let (procedures, views) = (book.procedures(), book.views());
    let mut told = format!(in alloc; "{columns} columns, {procedures} procedures, {views} views")?;
    if procedures > 0 {
        told.push_str(reply(alloc, book.procedure(0))?.as_str())?;
    }
    if views > 0 {
        told.push_str(slot(alloc, book.view(0))?.as_str())?;
    }
    Ok(told)
}

fn reply(alloc: Global, procedure: &Procedure) -> Result<String, NoMemory> {
    match procedure.body.as_slice() {
        [
            ..,
            CoreStatement::Reply {
                number,
                value: Core::Variable(position),
            },
        ] => Ok(format!(in alloc; "; statement {number} replies with variable {position}")?),
        _ => Ok(format!(in alloc; "")?),
    }
}

fn slot(alloc: Global, view: &View) -> Result<String, NoMemory> {
    match view.parts.as_slice() {
        [CoreView::Show(slot), ..] => {
            let number = slot.number;
            match slot.shown {
                Core::Variable(position) => {
                    Ok(format!(in alloc; "; slot {number} shows variable {position}")?)
                }
                _ => Ok(format!(in alloc; "")?),
            }
        }
        _ => Ok(format!(in alloc; "")?),
    }
}
