//! Tables of cases: each line of a file is a word, a blank and a text as it is written there.
#![tactic(auto)]

use std::alloc::{AllocError, Global};

/// The word of a case, and its text as it is written: what stands behind the first blank.
pub fn word_and_text(line: &[u8]) -> (&[u8], &[u8]) {
    match line.iter().position(|byte| *byte == b' ') {
        Some(place) if place < line.len() => (&line[..place], &line[place + 1..]),
        _ => (line, &[]),
    }
}

/// The bytes that a written text stands for. Its pieces stand between semicolons, each with the number of times that it
/// stands there and `@` before it if that isn't once; `~` and two digits of base 16 are the byte of that number.
pub fn text_of(alloc: Global, written: &[u8]) -> Result<Vec<u8>, AllocError> {
    let mut text = Vec::new(alloc);
    for piece in written.split(|byte| *byte == b';') {
        append_piece(&mut text, piece)?;
    }
    Ok(text)
}

fn append_piece(text: &mut Vec<u8>, piece: &[u8]) -> Result<(), AllocError> {
    let (count, written) = repeated(piece);
    for _ in 0..count {
        append_bytes(text, written)?;
    }
    Ok(())
}

// How often a piece stands there, and the bytes as they are written.
fn repeated(piece: &[u8]) -> (usize, &[u8]) {
    let mut parts = piece.split(|byte| *byte == b'@');
    match (parts.next(), parts.next()) {
        (Some(count), Some(written)) => (number(count), written),
        _ => (1, piece),
    }
}

fn number(digits: &[u8]) -> usize {
    let mut number: usize = 0;
    for digit in digits {
        number = number
            .wrapping_mul(10)
            .wrapping_add(usize::from(digit.wrapping_sub(b'0')));
    }
    number
}

fn append_bytes(text: &mut Vec<u8>, written: &[u8]) -> Result<(), AllocError> {
    let mut parts = written.split(|byte| *byte == b'~');
    if let Some(front) = parts.next() {
        text.extend_from_slice(front)?;
    }
    for part in parts {
        append_numbered(text, part)?;
    }
    Ok(())
}

// The byte of a number of two digits, and the bytes behind it.
fn append_numbered(text: &mut Vec<u8>, part: &[u8]) -> Result<(), AllocError> {
    if let [high, low, rest @ ..] = part {
        let byte = digit_of(*high)
            .wrapping_mul(16)
            .wrapping_add(digit_of(*low));
        text.extend_from_slice(&[byte])?;
        text.extend_from_slice(rest)?;
    }
    Ok(())
}

// The number of a digit of base 16, `0` to `9` and `A` to `F`.
fn digit_of(byte: u8) -> u8 {
    if byte < b'A' {
        byte.wrapping_sub(b'0')
    } else {
        byte.wrapping_sub(b'A').wrapping_add(10)
    }
}
