// Tokens, and why a text has none or is no formula.
ghost use Rattle.std.specs.Prelude.{◌≡◌, ◌<◌, length, slice_get, Some};

use sheet_values::{Name, NoMemory};
use std::alloc::{AllocError, AllocFailed};
use std::marker::Model;

/// What a token is.
#[derive(Debug, Drop)]
pub enum TokenKind {
    /// A name: a letter, then letters, digits and `_`, at most 63 bytes, and no reserved word.
    Name(Name),
    /// A reserved word.
    Reserved(Name),
    /// A number from 0 to 9223372036854775807.
    Number(i64),
    /// A text after its escapes, without its quotes.
    Text(Name),
    /// A symbol.
    Symbol(Name),
}

/// A token of a text.
#[derive(Debug, Drop)]
pub struct Token {
    /// What it is.
    pub kind: TokenKind,
    /// The offset of its first byte.
    pub start: usize,
    /// The offset behind its last byte.
    pub end: usize,
    /// Its line, from 1.
    pub line: u32,
}

/// Why a text is refused.
#[derive(Clone, Copy, Debug, PartialEq, Eq)]
pub enum SyntaxRefusal {
    /// At this offset begins the first token that is none.
    BadToken(usize),
    /// At this offset begins a number over 9223372036854775807.
    NumberTooWide(usize),
    /// At this offset begins the first token such that the tokens up to it begin no formula; the text's length
    /// where the text ends too early.
    Expected(usize),
    /// At this offset begins a form or an open bracket that is nested too deeply.
    TooNested(usize),
    /// There was no memory.
    NoMemory,
}

impl From<NoMemory> for SyntaxRefusal {
    ghost use Rattle.std.specs.Prelude.{◌≡◌};
    ghost use Rattle.sheet_syntax_trees.specs.declared.token.SyntaxRefusal.TheVariants.{NoMemory};

    ghost from_gives = { λ _ e. e ≡ NoMemory };

    fn from(_: NoMemory) -> Self {
        SyntaxRefusal::NoMemory
    }
}

impl From<AllocError> for SyntaxRefusal {
    ghost use Rattle.std.specs.Prelude.{◌≡◌};
    ghost use Rattle.sheet_syntax_trees.specs.declared.token.SyntaxRefusal.TheVariants.{NoMemory};

    ghost from_gives = { λ _ e. e ≡ NoMemory };

    fn from(_: AllocError) -> Self {
        SyntaxRefusal::NoMemory
    }
}

impl<T: Drop> From<AllocFailed<T>> for SyntaxRefusal {
    ghost use Rattle.std.specs.Prelude.{◌≡◌};
    ghost use Rattle.sheet_syntax_trees.specs.declared.token.SyntaxRefusal.TheVariants.{NoMemory};

    ghost from_gives = { λ _ e. e ≡ NoMemory };

    fn from(_: AllocFailed<T>) -> Self {
        SyntaxRefusal::NoMemory
    }
}

/// The tokens of a text, and its length.
#[derive(Debug, Drop)]
pub struct Tokens {
    list: Vec<Token>,
    text_length: usize,
}

impl Model for Tokens {
    ghost use Rattle.sheet_syntax_trees.specs.TokenList.{TokenList};

    ghost Value = { TokenList };

    ghost view = { λ t. record { list = t.list.items; text_length = t.text_length } };
}

impl Tokens {
    ghost use Rattle.std.specs.Prelude.{◌≡◌, ◌<◌, length, slice_get, Some};

    /// These tokens of a text of that length.
    pub(crate) fn of(list: Vec<Token>, text_length: usize) -> Tokens
        ensures { result ≡ record { list = list.items; text_length = text_length } }
    {
        Tokens { list, text_length }
    }

    /// How many there are.
    pub fn len(&self) -> usize
        ensures { result ≡ length self.now.list }
    {
        self.list.len()
    }

    /// The token at that index.
    pub fn at(&self, k: usize) -> &Token
        requires { k < length self.now.list }
        ensures { slice_get self.now.list k ≡ Some result.now }
    {
        &self.list[k]
    }

    /// All of them.
    pub fn as_slice(&self) -> &[Token]
        ensures { result.now ≡ self.now.list }
    {
        self.list.as_slice()
    }

    /// The length of the text in bytes.
    pub fn text_length(&self) -> usize
        ensures { result ≡ self.now.text_length }
    {
        self.text_length
    }
}
