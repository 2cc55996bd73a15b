// What a whole head asks for.
ghost use Rattle.std.specs.Prelude.{◌≡◌, ◌≤◌, length, map, All, bytes_eq, codes, Ok, Err, IfOk};
ghost use Rattle.std.specs.Str.{is_utf8};
ghost use Rattle.httparse.specs.Spans.{IsHeaderWithin, header_bytes};
ghost use Rattle.sheet_http.specs.Heads.{path_of, route_at, route_from, judged, behind_route, is_route_name, has_name, FindsRoute, Judges, JudgesBehind};
ghost use Rattle.sheet_requests.specs.declared.request.Route.{Route};
ghost use Rattle.sheet_http.specs.Fields.{body_length, values_named, has_host, is_some_value};

use crate::fields::{Scan, length_of, look_for, says_close};
use crate::refusal::HttpRefusal;
use crate::routes::{Kind, Routes};
use httparse::spans::{HeaderSpan, Span};
use std::str;

/// The most fields of a head.
const MOST_FIELDS: usize = 64;

/// The greatest length of a name in a path, in bytes.
const LONGEST_ROUTE_NAME: usize = 63;

/// What a head asks for: the kind of its route and where the route's name stands, the length of its body, and whether the
/// connection ends behind it.
#[derive(Clone, Copy, Debug, Drop)]
pub struct Demand {
    pub kind: Kind,
    pub name: Span,
    pub length: usize,
    pub close: bool,
}

// The part of a target before the first `?`.
fn path_of(target: &str) -> &str
    ensures { result.now ≡ path_of target.now }
{
    match target.split_once('?') {
        Some((path, _)) => path,
        None => target,
    }
}

// Whether bytes are UTF-8.
fn is_text(bytes: &[u8]) -> bool
    ensures { result ≡ is_utf8 bytes.now }
{
    match str::from_utf8(bytes) {
        Ok(_) => true,
        Err(_) => false,
    }
}

// Whether a name in a path is one.
fn is_route_name(name: &[u8]) -> bool
    ensures { result ≡ is_route_name name.now }
{
    !name.is_empty() && name.len() <= LONGEST_ROUTE_NAME && is_text(name)
}

// Whether the routes of a kind have names.
fn has_name(kind: Kind) -> bool
    ensures { result ≡ has_name kind }
{
    matches!(kind, Kind::Do | Kind::See | Kind::Reads)
}

// The kind of the route of a target, and where its name stands in the target.
fn find_route(routes: &Routes, target: &str) -> Option<(Kind, Span)>
    ensures { FindsRoute target.now result (route_at target.now) }
{
    let path = path_of(target);
    let (kind, start) = routes.find(path)?;
    let (_, name) = path.as_bytes().split_at(start);
    if has_name(kind) && !is_route_name(name) {
        return None;
    }
    let end = path.len();
    Some((kind, Span { start, end }))
}

// The length that the Content-Length fields give.
fn body_length(line: &[u8], fields: &[HeaderSpan]) -> Result<usize, HttpRefusal>
    requires { All (IsHeaderWithin (length line.now)) fields.now }
    ensures value { result ≡ body_length (values_named (codes "content-length") (map (header_bytes line.now) fields.now)) }
    ensures few { IfOk result (λ n. n ≤ 65536) }
{
    match look_for(line, fields, b"content-length") {
        Scan::Nothing => Err(HttpRefusal::NoLength),
        Scan::One(value) => length_of(value),
        Scan::Several => Err(HttpRefusal::BadLength),
    }
}

// Whether there is one Host field, which version 1.0 may lack.
fn has_host(line: &[u8], fields: &[HeaderSpan], minor: u8) -> bool
    requires { All (IsHeaderWithin (length line.now)) fields.now }
    ensures { result ≡ has_host minor (values_named (codes "host") (map (header_bytes line.now) fields.now)) }
{
    match look_for(line, fields, b"host") {
        Scan::Nothing => minor == 0,
        Scan::One(_) => true,
        Scan::Several => false,
    }
}

// Whether there is a Transfer-Encoding field.
fn is_coded(line: &[u8], fields: &[HeaderSpan]) -> bool
    requires { All (IsHeaderWithin (length line.now)) fields.now }
    ensures { result ≡ is_some_value (values_named (codes "transfer-encoding") (map (header_bytes line.now) fields.now)) }
{
    !matches!(look_for(line, fields, b"transfer-encoding"), Scan::Nothing)
}

/// What a whole head asks for, with the name where it stands in the target, or why it is refused.
#[tactic(auto, unfolding(crate::specs::Heads::judged))]
pub fn judge_head(
    routes: &Routes,
    line: &[u8],
    method: &[u8],
    target: &str,
    minor: u8,
    fields: &[HeaderSpan],
) -> Result<Demand, HttpRefusal>
    requires { All (IsHeaderWithin (length line.now)) fields.now }
    ensures { Judges target.now result (judged method.now target.now minor (map (header_bytes line.now) fields.now)) }
{
    if fields.len() > MOST_FIELDS {
        return Err(HttpRefusal::HeadTooLong);
    }
    if !has_host(line, fields, minor) {
        return Err(HttpRefusal::BadHost);
    }
    match find_route(routes, target) {
        Some((kind, name)) => ask_for(line, method, minor, fields, kind, name),
        None => Err(HttpRefusal::NoRoute),
    }
}

// What is asked behind the route.
fn ask_for(
    line: &[u8],
    method: &[u8],
    minor: u8,
    fields: &[HeaderSpan],
    kind: Kind,
    name: Span,
) -> Result<Demand, HttpRefusal>
    requires { All (IsHeaderWithin (length line.now)) fields.now }
    ensures { (route : Route) → JudgesBehind kind name result (behind_route method.now minor (map (header_bytes line.now) fields.now) route) route }
{
    if method != b"POST".as_slice() {
        return Err(HttpRefusal::NotPost);
    }
    if is_coded(line, fields) {
        return Err(HttpRefusal::Coded);
    }
    match body_length(line, fields) {
        Ok(length) => Ok(Demand {
            kind,
            name,
            length,
            close: minor == 0 || says_close(line, fields),
        }),
        Err(refusal) => Err(refusal),
    }
}
