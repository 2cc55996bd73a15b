// Status codes.
ghost use Rattle.std.specs.Prelude.{◌≡◌};
ghost use Rattle.sheet_requests.specs.Bodies.{wire_code, refusal_code, code_of};

use sheet_requests::{Refusal, Reply, WireRefusal};

/// The reply's HTTP status code. It takes no memory.
pub fn code_of(reply: &Reply) -> u16
    ensures { result ≡ code_of reply.now }
{
    match reply {
        Reply::Wire(refusal) => wire_code(refusal),
        Reply::Refused(refusal) => refusal_code(refusal),
        Reply::Accepted { .. }
        | Reply::Kept { .. }
        | Reply::Page(_)
        | Reply::Reads(_)
        | Reply::Stats { .. } => 200,
    }
}

fn wire_code(refusal: &WireRefusal) -> u16
    ensures { result ≡ wire_code refusal.now }
{
    match refusal {
        WireRefusal::NoMemory => 507,
        _ => 400,
    }
}

fn refusal_code(refusal: &Refusal) -> u16
    ensures { result ≡ refusal_code refusal.now }
{
    match refusal {
        Refusal::UnknownKey | Refusal::NotOperator | Refusal::Denied => 403,
        Refusal::UnknownName => 404,
        Refusal::BadArgument(_) | Refusal::FormulaFault(_) => 422,
        Refusal::DiskFault => 503,
        Refusal::NoMemory => 507,
        _ => 409,
    }
}
