// What is answered.
ghost use Rattle.std.specs.Prelude.{◌≡◌, ℕ, List, [], None, IfOk, false};
ghost use Rattle.sheet_requests.specs.declared.reply.Reply.TheVariants.{Refused};
ghost use Rattle.sheet_requests.specs.declared.reply.Refusal.TheVariants as refused;
ghost use Rattle.sheet_machine_laws.specs.Judging.{refuse};
ghost use Rattle.sheet_machine_laws.specs.Step.{is_accepted};
ghost use Rattle.sheet_machine.specs.Gives.{Gives};
ghost use Rattle.sheet_machine.specs.Held.{holding};
ghost use Rattle.sheet_machine.specs.Told.{lacks_memory, told};

use crate::held::Held;
use sheet_columns::Columns;
use sheet_requests::{Refusal, Reply};
use sheet_values::NoMemory;
use sheet_wire::print_reply;
use std::alloc::Global;

/// What a request is answered, and the printed reply: it is empty exactly where the reply is want of memory.
#[derive(Drop)]
pub struct Answered {
    pub reply: Reply,
    pub body: Vec<u8>,
}

// Whether a reply says that there was no memory.
fn lacks_memory(reply: &Reply) -> bool
    ensures { result ≡ lacks_memory reply.now }
{
    match reply {
        Reply::Refused(refusal) => matches!(refusal, Refusal::NoMemory),
        _ => false,
    }
}

/// A reply with its bytes.
pub(crate) fn printed(alloc: Global, columns: &Columns, reply: Reply) -> Result<Answered, NoMemory>
    ensures reply { IfOk result (λ a. a.reply ≡ reply) }
    ensures body { IfOk result (λ a. a.body.items ≡ told columns.now a.reply) }
{
    if lacks_memory(&reply) {
        return Err(NoMemory);
    }
    let body = print_reply(alloc, columns, &reply)?;
    Ok(Answered { reply, body })
}

/// A reply after which all is as before.
pub(crate) fn tell(held: &Held, reply: Reply) -> Result<Answered, NoMemory>
    requires settled { held.now.engine.state.earlier ≡ [] }
    requires none { held.now.pending ≡ None }
    requires refused { is_accepted reply ≡ false }
    ensures { Gives (holding held.now, reply) (holding held.now) held.now result }
{
    printed(held.alloc, held.engine.book().columns(), reply)
}

/// A refusal, after which all is as before.
pub(crate) fn refuse(held: &Held, refusal: Refusal) -> Result<Answered, NoMemory>
    requires settled { held.now.engine.state.earlier ≡ [] }
    requires none { held.now.pending ≡ None }
    ensures { Gives (refuse (holding held.now) refusal) (holding held.now) held.now result }
{
    tell(held, Reply::Refused(refusal))
}

/// The answer for want of memory.
pub(crate) fn starved(alloc: Global) -> Answered
    ensures reply { result.reply ≡ Refused refused.NoMemory }
    ensures body { result.body.items ≡ [] }
{
    Answered {
        reply: Reply::Refused(Refusal::NoMemory),
        body: Vec::new(alloc),
    }
}
