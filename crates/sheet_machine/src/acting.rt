// What a request comes to.
ghost use Rattle.sheet_machine_laws.specs.Act.{act as the_act};
ghost use Rattle.sheet_machine.specs.Gives.{Gives, HasLineOf};
ghost use Rattle.sheet_machine.specs.Held.{holding, IsReady};
ghost use Rattle.sheet_machine.specs.Told.{AsksNoReads};

use crate::admitting::admit_asked;
use crate::answered::Answered;
use crate::calling::call;
use crate::held::Held;
use crate::looking::{see, stats};
use sheet_requests::Request;
use sheet_values::{NoMemory, Steps};
use std::sync::ledger::Ledger;

/// The reply to a request, with its bytes. One that is accepted is then pending. After a refusal all is as before, and so it is for
/// want of memory.
pub(crate) fn act<G: Ledger>(
    held: &mut Held,
    request: &Request,
    steps: &mut Steps<G>,
) -> Result<Answered, NoMemory>
    requires ready { IsReady held.old }
    requires served { AsksNoReads request.now }
    ensures gives { Gives (the_act (holding held.old) request.now) (holding held.old) held.new result }
    ensures line { HasLineOf held.new request.now }
{
    match request {
        Request::Do {
            key,
            name,
            number,
            with,
        } => call(held, request, key, name, *number, with, steps),
        Request::See { key, name, with } => see(held, key, name, with, steps),
        Request::Reads { .. } => unreachable!(),
        Request::Admit {
            key,
            newkey,
            name,
            number,
            object,
        } => admit_asked(held, request, key, newkey, name, *number, *object),
        Request::Stats { key } => stats(held, key),
    }
}
