// The words of the commands.
ghost use Rattle.std.specs.Prelude.{◌≡◌, ◌↔◌, IsTrue};
ghost use Rattle.std.specs.List.{list_all};
ghost use Rattle.sheet_requests.specs.Reading.{is_key as is_key_text, is_key_byte as is_byte_of_key};
ghost use Rattle.objsheet.specs.Commands.{IsWord, IsFileName, Names, NamesInit};

use std::str;

/// What the program is to do.
#[derive(Clone, Copy, Debug, PartialEq, Eq)]
pub enum Command<'a> {
    /// Says what the book of a definition holds, or why it is refused.
    Check,
    /// Runs request lines over a definition in memory.
    Try,
    /// Begins the journal of a definition in the file of this name, with the operator's key.
    Init { name: &'a [u8], key: &'a [u8] },
}

/// The command of these words; none where they are other ones.
pub fn command_of(words: &[Vec<u8>]) -> Option<Command<'_>>
    ensures { Names result words.now }
{
    if is_word(words, b"check") {
        return Some(Command::Check);
    }
    if is_word(words, b"try") {
        return Some(Command::Try);
    }
    init_of(words)
}

fn is_word(words: &[Vec<u8>], word: &[u8]) -> bool
    ensures { IsTrue result ↔ IsWord word.now words.now }
{
    match words.split_first() {
        Some((only, rest)) => rest.is_empty() && only.as_slice() == word,
        None => false,
    }
}

// The command `init` of these words; none where they are other ones.
fn init_of(words: &[Vec<u8>]) -> Option<Command<'_>>
    ensures { NamesInit result words.now }
{
    let [command, name, key] = words else {
        return None;
    };
    let is_init = command.as_slice() == b"init".as_slice();
    if is_init && is_file_name(name) && is_key(key) {
        return Some(Command::Init { name, key });
    }
    None
}

// Whether a file may have this name.
fn is_file_name(name: &[u8]) -> bool
    ensures { IsTrue result ↔ IsFileName name.now }
{
    !name.is_empty() && name.len() <= 255 && str::from_utf8(name).is_ok()
}

fn is_key(key: &[u8]) -> bool
    ensures { result ≡ is_key_text key.now }
{
    !key.is_empty() && key.len() <= 64 && are_key_bytes(key)
}

fn are_key_bytes(bytes: &[u8]) -> bool
    ensures { result ≡ list_all is_byte_of_key bytes.now }
{
    bytes.iter().all(|byte| is_key_byte(*byte))
}

fn is_key_byte(byte: u8) -> bool
    ensures { result ≡ is_byte_of_key byte }
{
    byte.is_ascii_graphic()
}
