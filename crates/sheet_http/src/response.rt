// Responses: heads, and the codes and bodies of refusals.
ghost use Rattle.std.specs.Prelude.{◌≡◌, ◌≤◌, ◌+◌, ◌++◌, [], length, codes, true, unwrap_or};
ghost use Rattle.std.specs.Fmt.{decimal};
ghost use Rattle.sheet_http.specs.Responses.{phrase, is_answered, line, line_if, status_line, head, refusal_code, refusal_body};

use crate::refusal::HttpRefusal;
use arrayvec::ArrayString;
use http::StatusCode;
use itoa::Buffer;
use std::marker::Model;

/// The head of a response, seen as its bytes.
#[derive(Drop)]
pub struct Head {
    text: ArrayString<160>,
}

impl Model for Head {
    ghost use Rattle.std.specs.Prelude.{List, ℕ};

    ghost Value = { List ℕ };

    ghost view = { λ h. h.text.bytes };
}

impl Head {
    /// Its bytes.
    pub fn bytes(&self) -> &[u8]
        ensures { result.now ≡ self.now }
    {
        self.text.as_str().as_bytes()
    }
}

/// The body of the response to a refusal, seen as its bytes.
#[derive(Drop)]
pub struct RefusalBody {
    text: ArrayString<64>,
}

impl Model for RefusalBody {
    ghost use Rattle.std.specs.Prelude.{List, ℕ};

    ghost Value = { List ℕ };

    ghost view = { λ b. b.text.bytes };
}

impl RefusalBody {
    /// Its bytes.
    pub fn bytes(&self) -> &[u8]
        ensures { result.now ≡ self.now }
    {
        self.text.as_str().as_bytes()
    }
}

// The phrase of a code that is answered.
fn phrase(code: u16) -> &'static str
    requires { is_answered code ≡ true }
    ensures text { result.now ≡ unwrap_or (phrase code) [] }
    ensures short { length result.now ≤ 31 }
{
    let Ok(status) = StatusCode::from_u16(code) else {
        unreachable!()
    };
    let Some(text) = status.canonical_reason() else {
        unreachable!()
    };
    text
}

// Adds the status line (RFC 9112, section 4).
fn add_status_line(text: &mut ArrayString<160>, code: u16)
    requires answered { is_answered code ≡ true }
    requires room { text.old.bytes ≡ [] }
    ensures text { text.new.bytes ≡ status_line code }
    ensures short { length text.new.bytes ≤ 48 }
{
    let mut digits = Buffer::new();
    text.push_str("HTTP/1.1 ");
    text.push_str(digits.format(code));
    text.push_str(" ");
    text.push_str(phrase(code));
    text.push_str("\r\n");
}

// Adds the field that gives the length of the body (RFC 9110, section 8.6).
fn add_length(text: &mut ArrayString<160>, count: usize)
    requires room { length text.old.bytes ≤ 80 }
    ensures text { text.new.bytes ≡ text.old.bytes ++ line (codes "Content-Length: " ++ decimal count) }
    ensures short { length text.new.bytes ≤ 118 }
{
    let mut digits = Buffer::new();
    text.push_str("Content-Length: ");
    text.push_str(digits.format(count));
    text.push_str("\r\n");
}

// Adds a line that may be left out.
fn add_if(text: &mut ArrayString<160>, wanted: bool, added: &'static str)
    requires room { length text.old.bytes + length added.now + 2 ≤ 160 }
    ensures text { text.new.bytes ≡ text.old.bytes ++ line_if wanted added.now }
    ensures short { length text.new.bytes ≤ length text.old.bytes + length added.now + 2 }
{
    if wanted {
        text.push_str(added);
        text.push_str("\r\n");
    }
}

/// The head of a response with that code, for a body of that length (RFC 9112, section 2.1). `allow` names POST as the
/// method that is allowed, and `close` says that the connection ends behind the response.
pub fn print_head(code: u16, length: usize, allow: bool, close: bool) -> Head
    requires { is_answered code ≡ true }
    ensures { result ≡ head code length allow close }
{
    let mut text = ArrayString::new();
    add_status_line(&mut text, code);
    text.push_str("Content-Type: application/json\r\n");
    add_length(&mut text, length);
    add_if(&mut text, allow, "Allow: POST");
    add_if(&mut text, close, "Connection: close");
    text.push_str("\r\n");
    Head { text }
}

/// The status code of the response to a refusal.
pub fn refusal_code(refusal: &HttpRefusal) -> u16
    ensures code { result ≡ refusal_code refusal.now }
    ensures answered { is_answered result ≡ true }
{
    match refusal {
        HttpRefusal::NotHttp(_) | HttpRefusal::BadHost | HttpRefusal::BadLength => 400,
        HttpRefusal::HeadTooLong => 431,
        HttpRefusal::NoRoute => 404,
        HttpRefusal::NotPost => 405,
        HttpRefusal::Coded => 501,
        HttpRefusal::NoLength => 411,
        HttpRefusal::BodyTooLong => 413,
    }
}

// The body of the refusal of bytes behind which no head can come.
fn not_http_body(offset: usize) -> ArrayString<64>
    ensures { result.bytes ≡ codes "{\"error\":\"not http\",\"offset\":" ++ decimal offset ++ codes "}" }
{
    let mut digits = Buffer::new();
    let mut text = ArrayString::new();
    text.push_str("{\"error\":\"not http\",\"offset\":");
    text.push_str(digits.format(offset));
    text.push_str("}");
    text
}

// A body that holds no number.
fn body_of(body: &'static str) -> ArrayString<64>
    requires { length body.now ≤ 64 }
    ensures { result.bytes ≡ body.now }
{
    let mut text = ArrayString::new();
    text.push_str(body);
    text
}

/// The body of the response to a refusal: compact JSON with the fields in byte order.
pub fn refusal_body(refusal: &HttpRefusal) -> RefusalBody
    ensures { result ≡ refusal_body refusal.now }
{
    let text = match refusal {
        HttpRefusal::NotHttp(offset) => not_http_body(*offset),
        HttpRefusal::HeadTooLong => body_of("{\"error\":\"head too long\"}"),
        HttpRefusal::BadHost => body_of("{\"error\":\"bad host\"}"),
        HttpRefusal::NoRoute => body_of("{\"error\":\"no route\"}"),
        HttpRefusal::NotPost => body_of("{\"error\":\"not post\"}"),
        HttpRefusal::Coded => body_of("{\"error\":\"transfer encoding\"}"),
        HttpRefusal::NoLength => body_of("{\"error\":\"no length\"}"),
        HttpRefusal::BadLength => body_of("{\"error\":\"bad length\"}"),
        HttpRefusal::BodyTooLong => body_of("{\"error\":\"body too long\",\"limit\":65536}"),
    };
    RefusalBody { text }
}
