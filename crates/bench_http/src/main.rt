//! Feeds a connection of equal requests, whose time can be measured: `LENGTH SIZE COUNT TIMES FIELDS` makes COUNT
//! requests with bodies of LENGTH bytes and FIELDS more fields of 100 bytes, and feeds them TIMES times, in pieces of SIZE bytes. Prints
//! how many requests came of them, and how many bytes of heads and bodies they are.
#![tactic(auto)]

ghost use Rattle.std.specs.Prelude.{◌<◌};

use sheet_http::{Feed, Step};
use sheet_values::NoMemory;
use std::alloc::Global;
use std::env;
use std::test::Fail;

// The fields of a usual client.
const HEAD: &[u8] =
    b"POST /v1/do/turn HTTP/1.1\r\nHost: 127.0.0.1:8080\r\nUser-Agent: curl/7.88.1\r\nAccept: */*\r\nContent-Type: application/json\r\nContent-Length: ";

fn main(rt: HostRuntime) -> Result<(), Fail> {
    let alloc = rt.alloc();
    let mut words = env::args(&rt)?.skip(1);
    let length = number(words.next()).min(65_536);
    let size = number(words.next()).clamp(1, 65_536);
    let count = number(words.next());
    let times = number(words.next());
    let fields = number(words.next()).min(59);
    let stream = stream(alloc, length, fields, count)?;
    let mut all = 0usize;
    for _ in 0..times {
        all = all.saturating_add(steps(alloc, stream.as_slice(), size)?);
    }
    println!(rt; "{all} {}", stream.len())?;
    Ok(())
}

// The number that a word stands for, or 0.
fn number(word: Option<String>) -> usize {
    match word {
        Some(word) => word.parse().unwrap_or(0),
        None => 0,
    }
}

// The bytes of the connection.
fn stream(alloc: Global, length: usize, fields: usize, count: usize) -> Result<Vec<u8>, NoMemory> {
    let head = head(alloc, length, fields)?;
    let mut bytes = Vec::new(alloc);
    for _ in 0..count {
        bytes.extend_from_slice(head.as_slice())?;
        for _ in 0..length {
            bytes.push(b'a')?;
        }
    }
    Ok(bytes)
}

// The bytes of each head.
fn head(alloc: Global, length: usize, fields: usize) -> Result<Vec<u8>, NoMemory> {
    let line = format!(in alloc; "{length}\r\n")?;
    let mut bytes = Vec::new(alloc);
    bytes.extend_from_slice(HEAD)?;
    bytes.extend_from_slice(line.as_bytes())?;
    for _ in 0..fields {
        bytes.extend_from_slice(b"Cookie: ")?;
        for _ in 0..90 {
            bytes.push(b'c')?;
        }
        bytes.extend_from_slice(b"\r\n")?;
    }
    bytes.extend_from_slice(b"\r\n")?;
    Ok(bytes)
}

// How many requests come of them in pieces of that size.
fn steps(alloc: Global, bytes: &[u8], size: usize) -> Result<usize, NoMemory>
    requires { 0 < size }
{
    let mut feed = Feed::new(alloc)?;
    if size == 1 {
        single_steps(&mut feed, bytes)
    } else {
        several_steps(&mut feed, bytes, size)
    }
}

// The same in single bytes, whose size the compiler then knows. There is room for each.
fn single_steps(feed: &mut Feed, bytes: &[u8]) -> Result<usize, NoMemory> {
    let mut count = 0usize;
    for piece in bytes.chunks(1) {
        feed.feed(piece);
        if feed.awaited() == 0 {
            count = count.saturating_add(take_steps(feed)?);
        }
    }
    Ok(count)
}

// The same in pieces of several bytes.
fn several_steps(feed: &mut Feed, bytes: &[u8], size: usize) -> Result<usize, NoMemory>
    requires { 0 < size }
{
    let mut count = 0usize;
    for piece in bytes.chunks(size) {
        count = count.saturating_add(piece_steps(feed, piece)?);
    }
    Ok(count)
}

// The same in one piece, which is fed in parts where there is no room for all of it.
fn piece_steps(feed: &mut Feed, piece: &[u8]) -> Result<usize, NoMemory> {
    let mut count = 0usize;
    let mut rest = piece;
    for _ in 0..piece.len() {
        let (_, behind) = rest.split_at(feed.feed(rest));
        rest = behind;
        if feed.awaited() == 0 {
            count = count.saturating_add(take_steps(feed)?);
        }
        if rest.is_empty() {
            break;
        }
    }
    Ok(count)
}

// Takes the requests that are there. How many these were.
#[inline(never)]
fn take_steps(feed: &mut Feed) -> Result<usize, NoMemory> {
    let mut count = 0usize;
    for _ in 0..100_000 {
        let Step::Request { .. } = feed.next()? else {
            break;
        };
        count = count.saturating_add(1);
        feed.done();
    }
    Ok(count)
}
