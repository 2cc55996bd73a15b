// What the calls of a book tell.
use sheet_books::Book;
use sheet_columns::{Column, Core};
use sheet_define::read_definition;
use sheet_types::elaborate;
use sheet_types_outline::is_orderly;
use std::alloc::Global;
use std::test::Fail;

const TEXT: &[u8] = b"callers Member
object Course { state title : text object Seat { } formula taken = count(Seat) }
object Member { }
procedure first() { }
procedure second(n : number) allow operator { let x = n reply x }
view empty() { }
view shown(c : Course) { show title = c.title table seats = s in c.Seat { } }
";

fn book_of(alloc: Global, text: &[u8]) -> Option<Book> {
    let Ok(definition) = read_definition(alloc, text) else {
        return None;
    };
    if !is_orderly(&definition) {
        return None;
    }
    elaborate(alloc, &definition).ok()
}

fn are_columns_told(book: &Book) -> bool {
    book.columns().count() == 6 && book.callers_column() == 5
}

fn are_procedure_names_told(book: &Book) -> bool {
    book.procedure_named(b"first") == Some(0)
        && book.procedure_named(b"second") == Some(1)
        && book.procedure_named(b"empty").is_none()
}

fn are_view_names_told(book: &Book) -> bool {
    book.view_named(b"empty") == Some(0)
        && book.view_named(b"shown") == Some(1)
        && book.view_named(b"").is_none()
}

fn is_procedure_told(book: &Book) -> bool {
    if book.procedures() != 2 {
        return false;
    }
    let procedure = book.procedure(1);
    procedure.name.bytes() == b"second".as_slice()
        && procedure.parameters.len() == 1
        && procedure.body.len() == 2
}

fn is_view_told(book: &Book) -> bool {
    if book.views() != 2 {
        return false;
    }
    let view = book.view(1);
    view.name.bytes() == b"shown".as_slice() && view.parameters.len() == 1 && view.parts.len() == 2
}

fn is_count(book: &Book, column: u32) -> bool {
    if book.columns().count() <= column {
        return false;
    }
    let Column::Formula { .. } = book.columns().get(column) else {
        return false;
    };
    matches!(book.formula(column), Core::Count(_))
}

#[test]
fn a_book_tells_its_parts(rt: HostRuntime) -> Result<(), Fail> {
    let book = book_of(rt.alloc(), TEXT);
    let told = match &book {
        Some(book) => are_columns_told(book) && is_count(book, 4),
        None => false,
    };
    assert!(rt; told);
    Ok(())
}

#[test]
fn a_book_tells_its_procedures(rt: HostRuntime) -> Result<(), Fail> {
    let book = book_of(rt.alloc(), TEXT);
    let told = match &book {
        Some(book) => are_procedure_names_told(book) && is_procedure_told(book),
        None => false,
    };
    assert!(rt; told);
    Ok(())
}

#[test]
fn a_book_tells_its_views(rt: HostRuntime) -> Result<(), Fail> {
    let book = book_of(rt.alloc(), TEXT);
    let told = match &book {
        Some(book) => are_view_names_told(book) && is_view_told(book),
        None => false,
    };
    assert!(rt; told);
    Ok(())
}
