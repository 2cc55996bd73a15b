// What a definition comes to before any request.
use crate::session::Session;

/// What a definition comes to before any request.
#[derive(Drop)]
pub enum Opening {
    /// It has a book, and this is its workbook at the start.
    Started(Session),
    /// It is refused, and this line says why.
    Refused(Vec<u8>),
}
