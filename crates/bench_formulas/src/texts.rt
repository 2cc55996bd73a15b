// Texts that are hard to read.
use sheet_values::NoMemory;
use std::alloc::Global;

// A text of a front, as many pieces as fit into so many bytes, and a back.
fn repeated(
    alloc: Global,
    front: &[u8],
    piece: &[u8],
    back: &[u8],
    length: usize,
) -> Result<Vec<u8>, NoMemory> {
    let mut text = Vec::new(alloc);
    text.extend_from_slice(front)?;
    for _ in 0..length.checked_div(piece.len()).unwrap_or(0) {
        text.extend_from_slice(piece)?;
    }
    text.extend_from_slice(back)?;
    Ok(text)
}

/// A hostile text of that kind and about that length: `parentheses`, `braces`, `ifs`, `chain`, `negations`, `name`, `escapes`,
/// `parts`; any other kind is a comment.
pub fn hostile(alloc: Global, kind: &[u8], length: usize) -> Result<Vec<u8>, NoMemory> {
    match kind {
        b"parentheses" => repeated(alloc, b"", b"(", b"1", length),
        b"braces" => repeated(alloc, b"", b"{", b"1", length),
        b"ifs" => repeated(alloc, b"", b"if ", b"1", length),
        b"chain" => repeated(alloc, b"1", b"+1", b"", length),
        b"negations" => repeated(alloc, b"", b"not ", b"1", length),
        b"name" => repeated(alloc, b"", b"a", b"", length),
        b"escapes" => repeated(alloc, b"\"", b"\\n", b"\"", length),
        b"parts" => repeated(alloc, b"{1", b",1", b"}", length),
        _ => repeated(alloc, b"1 #", b"x", b"", length),
    }
}
