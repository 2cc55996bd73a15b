// Which token of formulas a token is.
ghost use Rattle.std.specs.Prelude.{◌≡◌, map};
ghost use Rattle.sheet_syntax_trees.specs.Signs.{sign_of as sign_of_kind, sign_among as sign_among_words};

use crate::TokenKind;

/// Which token of formulas a token is.
#[derive(Clone, Copy, Debug, PartialEq, Eq)]
pub enum Sign {
    /// No token, or one that no formula has.
    Other,
    Name,
    Number,
    Text,
    /// `$`
    Root,
    Dot,
    Comma,
    Open,
    Close,
    OpenBrace,
    CloseBrace,
    Colon,
    Bar,
    Equals,
    NotEquals,
    Less,
    AtMost,
    Greater,
    AtLeast,
    Plus,
    Minus,
    Times,
    Divide,
    Remainder,
    /// `&`
    Join,
    All,
    And,
    Any,
    Caller,
    Count,
    Else,
    Except,
    False,
    If,
    In,
    Intersect,
    Max,
    Min,
    Not,
    Only,
    Operator,
    Or,
    Sum,
    Then,
    This,
    True,
    Union,
    Up,
}

const SYMBOLS: &[(&[u8], Sign)] = &[
    (b"$", Sign::Root),
    (b".", Sign::Dot),
    (b",", Sign::Comma),
    (b"(", Sign::Open),
    (b")", Sign::Close),
    (b"{", Sign::OpenBrace),
    (b"}", Sign::CloseBrace),
    (b":", Sign::Colon),
    (b"|", Sign::Bar),
    (b"=", Sign::Equals),
    (b"!=", Sign::NotEquals),
    (b"<", Sign::Less),
    (b"<=", Sign::AtMost),
    (b">", Sign::Greater),
    (b">=", Sign::AtLeast),
    (b"+", Sign::Plus),
    (b"-", Sign::Minus),
    (b"*", Sign::Times),
    (b"/", Sign::Divide),
    (b"%", Sign::Remainder),
    (b"&", Sign::Join),
];

const WORDS: &[(&[u8], Sign)] = &[
    (b"all", Sign::All),
    (b"and", Sign::And),
    (b"any", Sign::Any),
    (b"caller", Sign::Caller),
    (b"count", Sign::Count),
    (b"else", Sign::Else),
    (b"except", Sign::Except),
    (b"false", Sign::False),
    (b"if", Sign::If),
    (b"in", Sign::In),
    (b"intersect", Sign::Intersect),
    (b"max", Sign::Max),
    (b"min", Sign::Min),
    (b"not", Sign::Not),
    (b"only", Sign::Only),
    (b"operator", Sign::Operator),
    (b"or", Sign::Or),
    (b"sum", Sign::Sum),
    (b"then", Sign::Then),
    (b"this", Sign::This),
    (b"true", Sign::True),
    (b"union", Sign::Union),
    (b"up", Sign::Up),
];

fn sign_among(table: &[(&[u8], Sign)], word: &[u8]) -> Sign
    ensures { result ≡ sign_among_words (map (λ row. (row.0.now, row.1)) table.now) word.now }
{
    for (spelled, sign) in table {
        if *spelled == word {
            return *sign;
        }
    }
    Sign::Other
}

/// Which token of formulas a token of that kind is.
pub fn sign_of(kind: &TokenKind) -> Sign
    ensures { result ≡ sign_of_kind kind.now }
{
    match kind {
        TokenKind::Name(_) => Sign::Name,
        TokenKind::Number(_) => Sign::Number,
        TokenKind::Text(_) => Sign::Text,
        TokenKind::Symbol(symbol) => sign_among(SYMBOLS, symbol.bytes()),
        TokenKind::Reserved(word) => sign_among(WORDS, word.bytes()),
    }
}
