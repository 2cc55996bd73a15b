// Which token of definitions a token is.
ghost use Rattle.std.specs.Prelude.{◌≡◌, map};
ghost use Rattle.sheet_define_reading.specs.Marks.{mark_of as mark_of_kind, mark_among as mark_among_rows};

use sheet_syntax_trees::TokenKind;

/// Which token of definitions a token is.
#[derive(Clone, Copy, Debug, PartialEq, Eq)]
pub enum Mark {
    /// A token that has no spelling of its own, or that stands in formulas alone.
    Other,
    Add,
    Allow,
    Callers,
    Check,
    Delete,
    Else,
    False,
    For,
    Formula,
    From,
    If,
    In,
    Let,
    New,
    Number,
    Object,
    One,
    Procedure,
    Remove,
    Reply,
    Set,
    Show,
    State,
    Table,
    Text,
    To,
    True,
    Truth,
    Up,
    View,
    Open,
    Close,
    OpenBrace,
    CloseBrace,
    Colon,
    Comma,
    Dot,
    Equals,
    Minus,
}

const WORDS: &[(&[u8], Mark)] = &[
    (b"add", Mark::Add),
    (b"allow", Mark::Allow),
    (b"callers", Mark::Callers),
    (b"check", Mark::Check),
    (b"delete", Mark::Delete),
    (b"else", Mark::Else),
    (b"false", Mark::False),
    (b"for", Mark::For),
    (b"formula", Mark::Formula),
    (b"from", Mark::From),
    (b"if", Mark::If),
    (b"in", Mark::In),
    (b"let", Mark::Let),
    (b"new", Mark::New),
    (b"number", Mark::Number),
    (b"object", Mark::Object),
    (b"one", Mark::One),
    (b"procedure", Mark::Procedure),
    (b"remove", Mark::Remove),
    (b"reply", Mark::Reply),
    (b"set", Mark::Set),
    (b"show", Mark::Show),
    (b"state", Mark::State),
    (b"table", Mark::Table),
    (b"text", Mark::Text),
    (b"to", Mark::To),
    (b"true", Mark::True),
    (b"truth", Mark::Truth),
    (b"up", Mark::Up),
    (b"view", Mark::View),
];

const SYMBOLS: &[(&[u8], Mark)] = &[
    (b"(", Mark::Open),
    (b")", Mark::Close),
    (b"{", Mark::OpenBrace),
    (b"}", Mark::CloseBrace),
    (b":", Mark::Colon),
    (b",", Mark::Comma),
    (b".", Mark::Dot),
    (b"=", Mark::Equals),
    (b"-", Mark::Minus),
];

fn mark_among(table: &[(&[u8], Mark)], word: &[u8]) -> Mark
    ensures { result ≡ mark_among_rows (map (λ row. (row.0.now, row.1)) table.now) word.now }
{
    for (spelled, mark) in table {
        if *spelled == word {
            return *mark;
        }
    }
    Mark::Other
}

/// Which token of definitions a token of that kind is.
pub fn mark_of(kind: &TokenKind) -> Mark
    ensures { result ≡ mark_of_kind kind.now }
{
    match kind {
        TokenKind::Reserved(word) => mark_among(WORDS, word.bytes()),
        TokenKind::Symbol(symbol) => mark_among(SYMBOLS, symbol.bytes()),
        _ => Mark::Other,
    }
}
