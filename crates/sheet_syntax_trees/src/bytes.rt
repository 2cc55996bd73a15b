// The bytes of tokens.
ghost use Rattle.std.specs.Prelude.{◌≡◌, ◌≤◌, ◌==◌, length};
ghost use Rattle.sheet_syntax_trees.specs.Bytes.{is_letter as is_letter_byte, is_digit as is_digit_byte, is_blank as is_blank_byte, is_plain as is_plain_byte, is_in_word as is_in_word_byte, is_symbol as is_symbol_byte, is_before_equals as is_before_equals_byte, begins_with as begins_with_byte, run_length as run_length_of, symbol_length as symbol_length_of};
ghost use Rattle.sheet_syntax_trees.specs.Runs.{goes_on};

/// What a run of bytes is part of.
#[derive(Clone, Copy)]
pub(crate) enum Run {
    Word,
    Digits,
    Comment,
}

pub(crate) fn is_letter(byte: u8) -> bool
    ensures { result ≡ is_letter_byte byte }
{
    b'A' <= byte && byte <= b'Z' || b'a' <= byte && byte <= b'z'
}

pub(crate) fn is_digit(byte: u8) -> bool
    ensures { result ≡ is_digit_byte byte }
{
    b'0' <= byte && byte <= b'9'
}

pub(crate) fn is_blank(byte: u8) -> bool
    ensures { result ≡ is_blank_byte byte }
{
    byte == b' ' || byte == b'\t' || byte == b'\r' || byte == b'\n'
}

/// Whether a byte may stand as it is in a text.
pub(crate) fn is_plain(byte: u8) -> bool
    ensures { result ≡ is_plain_byte byte }
{
    byte >= 0x20 && byte != 0x7F
}

fn is_in_word(byte: u8) -> bool
    ensures { result ≡ is_in_word_byte byte }
{
    is_letter(byte) || is_digit(byte) || byte == b'_'
}

fn goes_on(run: Run, byte: u8) -> bool
    ensures { result ≡ goes_on run byte }
{
    match run {
        Run::Word => is_in_word(byte),
        Run::Digits => is_digit(byte),
        Run::Comment => byte != b'\n',
    }
}

/// How many bytes at the front go on with such a run.
pub(crate) fn run_length(run: Run, bytes: &[u8]) -> usize
    ensures value { result ≡ run_length_of (goes_on run) bytes.now }
    ensures within { result ≤ length bytes.now }
{
    let mut count = 0;
    for byte in bytes {
        if !goes_on(run, *byte) {
            return count;
        }
        count += 1;
    }
    count
}

fn is_symbol(byte: u8) -> bool
    ensures { result ≡ is_symbol_byte byte }
{
    b"$.,(){}:|=<>+-*/%&".contains(&byte)
}

fn is_before_equals(byte: u8) -> bool
    ensures { result ≡ is_before_equals_byte byte }
{
    byte == b'!' || byte == b'<' || byte == b'>'
}

fn begins_with(byte: u8, bytes: &[u8]) -> bool
    ensures { result ≡ begins_with_byte byte bytes.now }
{
    match bytes.split_first() {
        None => false,
        Some((first, _)) => *first == byte,
    }
}

/// The length of the longest symbol at the front, or 0 where there is none.
pub(crate) fn symbol_length(bytes: &[u8]) -> usize
    ensures value { result ≡ symbol_length_of bytes.now }
    ensures within { result ≤ length bytes.now }
{
    match bytes.split_first() {
        None => 0,
        Some((first, rest)) => {
            if is_before_equals(*first) && begins_with(b'=', rest) {
                2
            } else if is_symbol(*first) {
                1
            } else {
                0
            }
        }
    }
}
