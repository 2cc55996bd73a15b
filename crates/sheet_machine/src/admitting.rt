// Admissions of callers.
ghost use Rattle.std.specs.Prelude.{◌≡◌, ℕ, List, Option, [], Some, None};
ghost use Rattle.sheet_callers.specs.Admitting.{refused as refused_admission};
ghost use Rattle.sheet_callers.specs.Callers.{Caller as TheCaller, caller_at, IsWithin};
ghost use Rattle.sheet_callers.specs.Judging.{IsNext};
ghost use Rattle.sheet_callers.specs.declared.admission.AdmitRefusal.{AdmitRefusal as TheRefusal};
ghost use Rattle.sheet_machine_laws.specs.Act.{admit as the_admission, admit_unless};
ghost use Rattle.sheet_machine.specs.Admissions.{IsAdmissionRefusal};
ghost use Rattle.sheet_machine_laws.specs.Judging.{for_operator, where_fresh};
ghost use Rattle.sheet_machine.specs.Gives.{Gives, HasLine, HasLineOf};
ghost use Rattle.sheet_machine.specs.Held.{holding, IsReady};
ghost use Rattle.sheet_requests.specs.Lines.{request_line};

use crate::accepting::{no_room, prepare};
use crate::answered::{Answered, refuse, tell};
use crate::held::{Held, MOST_REQUESTS, Pending};
use crate::judging::{OPERATOR, judge};
use sheet_callers::AdmitRefusal;
use sheet_requests::{Answer, Refusal, Request};
use sheet_values::{Name, NoMemory};
use sheet_wire::print_request;

// Why nobody is admitted, after which all is as before.
fn refuse_admission(held: &Held, refusal: AdmitRefusal) -> Result<Answered, NoMemory>
    requires settled { held.now.engine.state.earlier ≡ [] }
    requires none { held.now.pending ≡ None }
    ensures { (newkey name line : List ℕ) (n o : ℕ) (r : Option TheRefusal) → IsAdmissionRefusal refusal r → Gives (admit_unless (holding held.now) newkey name n o line r) (holding held.now) held.now result }
{
    match refusal {
        AdmitRefusal::KeyTaken(caller) => refuse(held, Refusal::KeyTaken(caller)),
        AdmitRefusal::NameTaken(caller) => refuse(held, Refusal::NameTaken(caller)),
        AdmitRefusal::TooMany(limit) => refuse(held, Refusal::TooMany(limit)),
        AdmitRefusal::NoMemory => Err(NoMemory),
    }
}

// One more caller, for a live object of the callers' column. All memory is taken before anything changes.
fn admit(
    held: &mut Held,
    newkey: &Name,
    name: &Name,
    number: u64,
    object: u64,
    line: Vec<u8>,
) -> Result<Answered, NoMemory>
    requires ready { IsReady held.old }
    requires next { IsNext (caller_at held.old.callers 1) number }
    ensures gives { Gives (admit_unless (holding held.old) newkey.now name.now number object line.items (refused_admission held.old.callers newkey.now name.now)) (holding held.old) held.new result }
    ensures line { HasLine held.new line.items }
{
    let (key, name) = (newkey.copy()?, name.copy()?);
    let answer = Answer::Caller(held.callers.count() + 1);
    let prepared = prepare(held.alloc, held.engine.book().columns(), number, answer)?;
    if let Err(refusal) = held.callers.admit(key, name, object) {
        return refuse_admission(held, refusal);
    }
    if held.accepted >= MOST_REQUESTS {
        held.callers.take_back();
        return refuse(held, no_room());
    }
    let mark = held.engine.mark();
    held.suspend(Pending {
        caller: OPERATOR,
        number,
        line,
        kept: prepared.kept,
        admitted: true,
        mark,
    });
    Ok(prepared.answered)
}

// One more caller, where the object is a live one of the callers' column.
fn admit_live(
    held: &mut Held,
    newkey: &Name,
    name: &Name,
    number: u64,
    object: u64,
    line: Vec<u8>,
) -> Result<Answered, NoMemory>
    requires ready { IsReady held.old }
    requires next { IsNext (caller_at held.old.callers 1) number }
    ensures gives { Gives (the_admission (holding held.old) newkey.now name.now number object line.items) (holding held.old) held.new result }
    ensures line { HasLine held.new line.items }
{
    let column = held.engine.book().callers_column();
    if held.engine.state().column_of(object) == Some(column) {
        admit(held, newkey, name, number, object, line)
    } else {
        refuse(held, Refusal::BadArgument(1))
    }
}

// One more caller, by the operator, with the request's line.
fn admit_numbered(
    held: &mut Held,
    newkey: &Name,
    name: &Name,
    number: u64,
    object: u64,
    line: Vec<u8>,
) -> Result<Answered, NoMemory>
    requires ready { IsReady held.old }
    requires within { IsWithin held.old.callers 1 }
    ensures gives { (c : TheCaller) → caller_at held.old.callers 1 ≡ Some c → Gives (where_fresh (holding held.old) c number line.items (the_admission (holding held.old) newkey.now name.now number object line.items)) (holding held.old) held.new result }
    ensures line { HasLine held.new line.items }
{
    match judge(&held.callers, OPERATOR, number, line.as_slice())? {
        Some(reply) => tell(held, reply),
        None => admit_live(held, newkey, name, number, object, line),
    }
}

/// One more caller, by a request with these parts, for the operator alone.
pub(crate) fn admit_asked(
    held: &mut Held,
    request: &Request,
    key: &Name,
    newkey: &Name,
    name: &Name,
    number: u64,
    object: u64,
) -> Result<Answered, NoMemory>
    requires ready { IsReady held.old }
    ensures gives { Gives (for_operator (holding held.old) key.now (λ c. where_fresh (holding held.old) c number (request_line request.now) (the_admission (holding held.old) newkey.now name.now number object (request_line request.now)))) (holding held.old) held.new result }
    ensures line { HasLineOf held.new request.now }
{
    match held.callers.find_key(key.bytes()) {
        Some(caller) => {
            if caller != OPERATOR {
                return refuse(held, Refusal::NotOperator);
            }
            let line = print_request(held.alloc, request)?;
            admit_numbered(held, newkey, name, number, object, line)
        }
        None => refuse(held, Refusal::UnknownKey),
    }
}
