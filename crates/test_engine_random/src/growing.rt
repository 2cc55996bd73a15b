// Random texts of a grammar.
use sheet_values::NoMemory;
use std::alloc::Global;
use test_cases::word_and_text;
use test_state::Random;

/// How many places grow freely before the rest of the text ends the growth.
const FREE: u32 = 14;

/// How many places are filled at most.
const MOST: u32 = 400;

/// A random text of a letter, for formulas of that home.
pub fn grown(
    alloc: Global,
    grammar: &[u8],
    letter: u8,
    home: u8,
    random: &mut Random,
) -> Result<Vec<u8>, NoMemory> {
    let mut text = Vec::new(alloc);
    text.push(b'@')?;
    text.push(letter)?;
    for turn in 0..MOST {
        let Some(next) = filled(alloc, grammar, text.as_slice(), home, turn, random)? else {
            return Ok(text);
        };
        text = next;
    }
    Ok(text)
}

// The text with its first place filled; none where it has none.
fn filled(
    alloc: Global,
    grammar: &[u8],
    text: &[u8],
    home: u8,
    turn: u32,
    random: &mut Random,
) -> Result<Option<Vec<u8>>, NoMemory> {
    let Some(place) = text.iter().position(|byte| *byte == b'@') else {
        return Ok(None);
    };
    if place >= text.len() {
        return Ok(None);
    }
    let (before, rest) = text.split_at(place);
    let [_, letter, behind @ ..] = rest else {
        return Ok(None);
    };
    let piece = production(grammar, *letter, home, turn >= FREE, random);
    let next = joined(alloc, before, piece, behind)?;
    Ok(Some(next))
}

// Three texts, one behind another.
fn joined(alloc: Global, before: &[u8], piece: &[u8], behind: &[u8]) -> Result<Vec<u8>, NoMemory> {
    let mut text = Vec::new(alloc);
    text.extend_from_slice(before)?;
    text.extend_from_slice(piece)?;
    text.extend_from_slice(behind)?;
    Ok(text)
}

// A random text of a letter; of the first three alone where the growth shall end.
fn production<'a>(
    grammar: &'a [u8],
    letter: u8,
    home: u8,
    ends: bool,
    random: &mut Random,
) -> &'a [u8] {
    let count = productions(grammar, letter, home);
    let among = if ends { count.min(3) } else { count };
    if among == 0 {
        return &[];
    }
    text_at(grammar, letter, home, random.below(among))
}

// Whether a line is one of a letter.
fn is_of(line: &[u8], letter: u8, home: u8) -> bool {
    match word_and_text(line).0 {
        [first] => *first == letter,
        [first, of] => *first == letter && *of == home,
        _ => false,
    }
}

// How many texts a letter has.
fn productions(grammar: &[u8], letter: u8, home: u8) -> u64 {
    let mut count: u64 = 0;
    for line in grammar.split(|byte| *byte == b'\n') {
        if is_of(line, letter, home) {
            count = count.saturating_add(1);
        }
    }
    count
}

// The text of a letter at an index.
fn text_at(grammar: &[u8], letter: u8, home: u8, index: u64) -> &[u8] {
    let mut left = index;
    for line in grammar.split(|byte| *byte == b'\n') {
        if is_of(line, letter, home) {
            if left == 0 {
                return word_and_text(line).1;
            }
            left = left.saturating_sub(1);
        }
    }
    &[]
}
