// The steps of a connection, as a text.

use sheet_http::{Feed, HttpRefusal, Step, print_head, refusal_body, refusal_code};
use sheet_requests::Route;
use sheet_values::NoMemory;
use std::alloc::Global;

/// How a connection's bytes are cut.
#[derive(Clone, Copy)]
pub enum Cut {
    /// Not at all.
    Whole,
    /// In pieces of that many bytes.
    Pieces(usize),
    /// In pieces of as many bytes as are lacking.
    Awaited,
    /// At two places.
    At(usize, usize),
}

// Where the piece that begins there ends, where so many bytes are lacking.
fn piece_end(cut: Cut, at: usize, all: usize, lacking: usize) -> usize {
    let end = match cut {
        Cut::Whole => all,
        Cut::Pieces(size) => at.saturating_add(size.max(1)),
        Cut::Awaited => at.saturating_add(lacking),
        Cut::At(first, _) if at < first => first,
        Cut::At(_, second) if at < second => second,
        Cut::At(_, _) => all,
    };
    end.min(all).max(at.min(all))
}

// What one look at a feed came to.
#[derive(Clone, Copy, Drop)]
enum Turn {
    More,
    Again,
    End,
}

/// The steps that a feed gives of these bytes, each as a line.
pub fn steps_of(alloc: Global, bytes: &[u8], cut: Cut) -> Result<String, NoMemory> {
    let mut feed = Feed::new(alloc)?;
    let mut text = String::new(alloc);
    let mut at = 0usize;
    for _ in 0..200_000 {
        match take_step(&mut feed, &mut text)? {
            Turn::End => return Ok(text),
            Turn::Again => {}
            Turn::More => {
                if at >= bytes.len() {
                    return Ok(text);
                }
                let end = piece_end(cut, at, bytes.len(), feed.awaited());
                let piece = bytes.get(at..end).unwrap_or(b"");
                at = at.saturating_add(feed.feed(piece));
            }
        }
    }
    Ok(text)
}

// Takes one step of the feed and tells it, and where bytes are told to be lacking and aren't, or the other way round.
fn take_step(feed: &mut Feed, text: &mut String) -> Result<Turn, NoMemory> {
    let lacking = feed.awaited() > 0;
    let turn = take_next(feed, text)?;
    if lacking != matches!(turn, Turn::More) {
        text.push_str("WRONG COUNT OF WHAT IS LACKING\n")?;
    }
    Ok(turn)
}

// The same, without what is lacking.
fn take_next(feed: &mut Feed, text: &mut String) -> Result<Turn, NoMemory> {
    match feed.next()? {
        Step::More => Ok(Turn::More),
        Step::Refused(refusal, is_head) => {
            add_refusal(text, &refusal, is_head)?;
            Ok(Turn::End)
        }
        Step::Request {
            route,
            from,
            until,
            close,
        } => {
            add_request(text, &route, feed.body(from, until), close)?;
            feed.done();
            Ok(if close { Turn::End } else { Turn::Again })
        }
    }
}

// Tells a request.
fn add_request(text: &mut String, route: &Route, body: &[u8], close: bool) -> Result<(), NoMemory> {
    match route {
        Route::Line => text.push_str("line")?,
        Route::Do(name) => add_named(text, "do ", name.bytes())?,
        Route::See(name) => add_named(text, "see ", name.bytes())?,
        Route::Reads(name) => add_named(text, "reads ", name.bytes())?,
        Route::Admit => text.push_str("admit")?,
        Route::Stats => text.push_str("stats")?,
    }
    write!(text, ", {} bytes ", body.len()).map_err(|_| NoMemory)?;
    let (front, _) = body.split_at(body.len().min(50));
    add_bytes(text, front)?;
    text.push_str(if close { ", closes\n" } else { "\n" })?;
    Ok(())
}

fn add_named(text: &mut String, kind: &str, name: &[u8]) -> Result<(), NoMemory> {
    text.push_str(kind)?;
    add_bytes(text, name)
}

// Tells a refusal by its response.
fn add_refusal(text: &mut String, refusal: &HttpRefusal, is_head: bool) -> Result<(), NoMemory> {
    let code = refusal_code(refusal);
    let body = refusal_body(refusal);
    let head = print_head(code, body.bytes().len(), code == 405, true);
    add_bytes(text, head.bytes())?;
    if !is_head {
        add_bytes(text, body.bytes())?;
    }
    text.push_str("\n")?;
    Ok(())
}

// Adds bytes, with marks for those that aren't visible.
fn add_bytes(text: &mut String, bytes: &[u8]) -> Result<(), NoMemory> {
    for byte in bytes {
        match *byte {
            b'\r' => text.push_str("\\r")?,
            b'\n' => text.push_str("\\n")?,
            32..=126 => text.push(char::from(*byte))?,
            other => write!(text, "\\x{other:02x}").map_err(|_| NoMemory)?,
        }
    }
    Ok(())
}
