// What a caller's number comes to.
use sheet_requests::Answer;

/// What a caller's number comes to, for a request.
#[derive(Debug, Drop)]
pub enum Judgement<'a> {
    /// It is the next one.
    Fresh,
    /// It is one of the last 16, and was accepted for an equal request; that one's answer.
    Kept(&'a Answer),
    /// It is one of the last 16, and was accepted for another request.
    Differs,
    /// It is at most the last accepted number less 16; the last accepted number.
    Past(u64),
    /// It is greater than the next one; the last accepted number.
    Ahead(u64),
}
