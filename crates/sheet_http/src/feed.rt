// The bytes of a connection, and the steps that they hold.
ghost use Rattle.std.specs.Prelude.{◌≡◌, ◌≤◌, ◌+◌, ◌-◌, ◌++◌, [], List, ℕ, length, take, drop, min, slice_range, IfOk, OnErr, Some, None, true, ◌<◌};
ghost use Rattle.httparse.specs.Grammar.{RequestHead};
ghost use Rattle.httparse.specs.Spans.{IsRequestAt, IsRequestWithin};
ghost use Rattle.sheet_http.specs.Fronts.{IsKnownFront};
ghost use Rattle.sheet_http.specs.Heads.{route_from, is_route_name, has_name, shifted};
ghost use Rattle.sheet_http.specs.Knowing.{IsDemanded, Knows, KnowsUpTo};
ghost use Rattle.sheet_http.specs.Lacking.{Lacks};
ghost use Rattle.sheet_http.specs.Searching.{IsOpen};
ghost use Rattle.sheet_http.specs.Waiting.{bytes_wanted};
ghost use Rattle.sheet_http.specs.Steps.{Gives, Tells, places_of, room};
ghost use Rattle.sheet_http.specs.Stream.{longest_head};
ghost use Rattle.sheet_http.specs.declared.feed.Known.TheVariants.{Open};

use crate::buffer::Buffer;
use crate::head::{Demand, judge_head};
use crate::refusal::HttpRefusal;
use crate::routes::{Kind, Routes};
use crate::search::{Found, LONGEST_HEAD, search};
use httparse::spans::{EMPTY_HEADER_SPAN, HeaderSpan, RequestSpans, Span};
use sheet_requests::Route;
use sheet_values::{Name, NoMemory};
use std::alloc::Global;
use std::marker::Model;
use std::str;

// More fields than 8,192 bytes can hold.
const FIELDS: usize = 2731;

/// What the bytes that are held begin with.
#[derive(Debug, Drop)]
pub enum Step {
    /// No whole step.
    More,
    /// A request, whose body stands between two places; whether the connection ends behind it.
    Request {
        route: Route,
        from: usize,
        until: usize,
        close: bool,
    },
    /// What is refused; whether a whole head was read and its method is HEAD.
    Refused(HttpRefusal, bool),
}

/// What is known of the bytes that are held, all of whose lines were judged.
#[derive(Clone, Copy, Drop)]
pub enum Known {
    /// No head yet.
    Open,
    /// A whole head of so many bytes, and what it asks for.
    Asked(Demand, usize),
    /// What is refused; whether a whole head was read and its method is HEAD.
    Refused(HttpRefusal, bool),
}

/// The bytes of a connection that were fed and aren't done, and the places of the body of the request that was told last.
#[derive(Drop)]
pub struct Feed {
    held: Buffer,
    known: Known,
    // Up to where the bytes are a start line and whole fields, or 0.
    front: usize,
    fields: Vec<HeaderSpan>,
    routes: Routes,
    told: Option<(usize, usize)>,
    alloc: Global,
}

impl Model for Feed {
    ghost use Rattle.std.specs.Prelude.{◌≡◌, length};
    ghost use Rattle.sheet_http.specs.Fronts.{IsKnownFront};
    ghost use Rattle.sheet_http.specs.Knowing.{Knows};
    ghost use Rattle.sheet_http.specs.Waiting.{bytes_wanted};
    ghost use Rattle.sheet_http.specs.Steps.{Held, AreWithin};

    ghost Value = { Held };

    ghost view = { λ f. record { bytes = f.held.bytes; told = f.told } };

    ghost invariant = { λ f. Knows f.held.bytes f.known × (f.held.wanted ≡ bytes_wanted f.known (length f.held.bytes))
        × IsKnownFront f.held.bytes f.front × (length f.fields.items ≡ 2731) × AreWithin f.told (length f.held.bytes) };
}

// What is known of a whole head.
fn judge(
    routes: &Routes,
    held: &[u8],
    count: usize,
    spans: &RequestSpans,
    fields: &[HeaderSpan],
) -> Known
    requires short { (count ≤ length held.now) × (count ≤ 8192) }
    requires head { (h : RequestHead) × IsRequestAt (take count held.now) fields.now spans.now h }
    requires within { IsRequestWithin (take count held.now) fields.now spans.now }
    ensures { Knows held.now result }
{
    let line = &held[..count];
    let (fields, _) = fields.split_at(spans.headers);
    let method = spans.method.of(line);
    let Ok(target) = str::from_utf8(spans.path.of(line)) else {
        unreachable!()
    };
    match judge_head(routes, line, method, target, spans.version, fields) {
        Ok(demand) => Known::Asked(placed(demand, spans.path.start), spans.len),
        Err(refusal) => Known::Refused(refusal, method == b"HEAD".as_slice()),
    }
}

// The same, with the name where it stands in the bytes in which the target starts there.
fn placed(demand: Demand, start: usize) -> Demand
    requires short { start + demand.name.end ≤ 8192 }
    requires ordered { demand.name.start ≤ demand.name.end }
    ensures { result ≡ shifted demand start }
{
    let name = Span {
        start: start + demand.name.start,
        end: start + demand.name.end,
    };
    Demand { name, ..demand }
}

// How many bytes there are to be before a step can come.
fn bytes_wanted(known: &Known, held: &[u8]) -> usize
    requires { Knows held.now known.now }
    ensures count { result ≡ bytes_wanted known.now (length held.now) }
    ensures room { result ≤ room }
{
    match known {
        Known::Open => held.len() + 1,
        Known::Asked(demand, from) => from + demand.length,
        Known::Refused(_, _) => 0,
    }
}

// Whether a byte behind so many is only added where it ends no line: no head is whole, and it makes none too long.
#[inline]
fn goes_on(known: &Known, count: usize) -> bool
    ensures { result ≡ true → (known.now ≡ Open) × (count + 1 < longest_head) }
{
    matches!(known, Known::Open) && count < LONGEST_HEAD - 1
}

// What is known of the bytes once the lines behind a place are judged too.
fn look(
    known: Known,
    routes: &Routes,
    held: &[u8],
    judged: usize,
    front: &mut usize,
    fields: &mut [HeaderSpan],
) -> Known
    requires knows { KnowsUpTo held.now judged known }
    requires front { IsKnownFront (take judged held.now) front.old }
    requires fields { length fields.old ≡ 2731 }
    ensures knows { Knows held.now result }
    ensures front { IsKnownFront held.now front.new }
    ensures fields { length fields.new ≡ length fields.old }
{
    match known {
        Known::Open => judge_lines(routes, held, judged, front, fields),
        Known::Asked(_, _) | Known::Refused(_, _) => known,
    }
}

// The same, where no head was known.
fn judge_lines(
    routes: &Routes,
    held: &[u8],
    judged: usize,
    front: &mut usize,
    fields: &mut [HeaderSpan],
) -> Known
    requires open { IsOpen held.now judged }
    requires front { IsKnownFront (take judged held.now) front.old }
    requires fields { length fields.old ≡ 2731 }
    ensures knows { Knows held.now result }
    ensures front { IsKnownFront held.now front.new }
    ensures fields { length fields.new ≡ length fields.old }
{
    let mut place = judged;
    match search(held, &mut place, front, fields) {
        Found::Open => Known::Open,
        Found::TooLong => Known::Refused(HttpRefusal::HeadTooLong, false),
        Found::Hopeless(count) => Known::Refused(HttpRefusal::NotHttp(count), false),
        Found::Whole(spans, count) => judge(routes, held, count, &spans, fields),
    }
}

// A name that was found in a path.
fn name_of(alloc: Global, bytes: &[u8]) -> Result<Name, NoMemory>
    requires { is_route_name bytes.now ≡ true }
    ensures { IfOk result (λ name. name ≡ bytes.now) }
{
    match str::from_utf8(bytes) {
        Ok(text) => Name::of(alloc, text),
        Err(_) => unreachable!(),
    }
}

// The route of a kind with that name.
fn route_from(alloc: Global, kind: Kind, name: &[u8]) -> Result<Route, NoMemory>
    requires { has_name kind ≡ true → is_route_name name.now ≡ true }
    ensures { IfOk result (λ route. route ≡ route_from kind name.now) }
{
    match kind {
        Kind::Do => Ok(Route::Do(name_of(alloc, name)?)),
        Kind::See => Ok(Route::See(name_of(alloc, name)?)),
        Kind::Reads => Ok(Route::Reads(name_of(alloc, name)?)),
        Kind::Admit => Ok(Route::Admit),
        Kind::Stats => Ok(Route::Stats),
    }
}

// A request, where its body is there.
fn request(alloc: Global, demand: &Demand, from: usize, held: &[u8]) -> Result<Step, NoMemory>
    requires { IsDemanded held.now demand.now from }
    ensures { IfOk result (Tells held.now) }
{
    if held.len() - from < demand.length {
        return Ok(Step::More);
    }
    let route = route_from(alloc, demand.kind, demand.name.of(held))?;
    Ok(Step::Request {
        route,
        from,
        until: from + demand.length,
        close: demand.close,
    })
}

// What the bytes begin with, by what is known of them.
fn step_of(alloc: Global, known: &Known, held: &[u8]) -> Result<Step, NoMemory>
    requires { Knows held.now known.now }
    ensures { IfOk result (Tells held.now) }
{
    match known {
        Known::Open => Ok(Step::More),
        Known::Asked(demand, from) => request(alloc, demand, *from, held),
        Known::Refused(refusal, is_head) => Ok(Step::Refused(*refusal, *is_head)),
    }
}

// The places of the body of a request.
fn places_of(step: &Step) -> Option<(usize, usize)>
    ensures { result ≡ places_of step.now }
{
    match step {
        Step::Request { from, until, .. } => Some((*from, *until)),
        Step::More | Step::Refused(_, _) => None,
    }
}

// No places are told. Where none were, nothing is written.
#[inline]
fn forget(told: &mut Option<(usize, usize)>)
    ensures { told.new ≡ None }
{
    if told.is_some() {
        *told = None;
    }
}

impl Feed {
    /// No byte yet. All the memory that a feed needs but for the names in routes is taken here.
    pub fn new(alloc: Global) -> Result<Feed, NoMemory>
        ensures { IfOk result (λ feed. feed ≡ record { bytes = []; told = None }) }
    {
        let mut held = Buffer::new(alloc)?;
        held.want(1);
        let fields = vec![in alloc; EMPTY_HEADER_SPAN; FIELDS]?;
        let routes = Routes::new(alloc)?;
        Ok(Feed {
            held,
            known: Known::Open,
            front: 0,
            fields,
            routes,
            told: None,
            alloc,
        })
    }

    /// Takes as much of the piece as there is room for, and answers how much.
    #[inline]
    pub fn feed(&mut self, piece: &[u8]) -> usize
        ensures count { result ≡ min (length piece.now) (room - length self.old.bytes) }
        ensures bytes { self.new.bytes ≡ self.old.bytes ++ take result piece.now }
        ensures told { self.new.told ≡ self.old.told }
    {
        if piece.len() < self.held.lacking() {
            self.held.push_short(piece);
            return piece.len();
        }
        match piece {
            [byte] if *byte != b'\n' && goes_on(&self.known, self.held.len()) => {
                self.held.push_next(*byte);
                1
            }
            _ => self.feed_on(piece),
        }
    }

    // The same, where lines may be to be judged.
    #[inline(never)]
    fn feed_on(&mut self, piece: &[u8]) -> usize
        ensures count { result ≡ min (length piece.now) (room - length self.old.bytes) }
        ensures bytes { self.new.bytes ≡ self.old.bytes ++ take result piece.now }
        ensures told { self.new.told ≡ self.old.told }
    {
        let judged = self.held.len();
        let count = self.held.push(piece);
        self.known = look(
            self.known,
            &self.routes,
            self.held.bytes(),
            judged,
            &mut self.front,
            &mut self.fields,
        );
        let wanted = bytes_wanted(&self.known, self.held.bytes());
        self.held.want(wanted);
        count
    }

    /// How many bytes are lacking to a step: `next` says `More` as long as fewer come. There is room for them.
    #[inline]
    pub fn awaited(&self) -> usize
        ensures lacks { Lacks self.now.bytes result }
        ensures room { length self.now.bytes + result ≤ room }
    {
        self.held.lacking()
    }

    /// What the bytes that are held begin with: the same until `feed` or `done`.
    pub fn next(&mut self) -> Result<Step, NoMemory>
        ensures step { IfOk result (λ step. Gives self.old.bytes self.new.told step) }
        ensures bytes { self.new.bytes ≡ self.old.bytes }
        ensures none { OnErr result (self.new.told ≡ None) }
    {
        forget(&mut self.told);
        let step = step_of(self.alloc, &self.known, self.held.bytes())?;
        self.told = places_of(&step);
        Ok(step)
    }

    /// The body of the request that was told last.
    pub fn body(&self, from: usize, until: usize) -> &[u8]
        requires { self.now.told ≡ Some (from, until) }
        ensures { result.now ≡ slice_range self.now.bytes from until }
    {
        &self.held.bytes()[from..until]
    }

    /// Drops the bytes of the request that was told last.
    pub fn done(&mut self)
        requires { (from : _) × (until : _) × (self.old.told ≡ Some (from, until)) }
        ensures bytes { (from until : _) → self.old.told ≡ Some (from, until) → self.new.bytes ≡ drop until self.old.bytes }
        ensures told { self.new.told ≡ None }
    {
        let Some((_, until)) = self.told else {
            unreachable!()
        };
        self.held.pass(until);
        self.told = None;
        self.front = 0;
        self.known = look(
            Known::Open,
            &self.routes,
            self.held.bytes(),
            0,
            &mut self.front,
            &mut self.fields,
        );
        let wanted = bytes_wanted(&self.known, self.held.bytes());
        self.held.want(wanted);
    }
}
