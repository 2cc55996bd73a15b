// Requests that are accepted.
ghost use Rattle.std.specs.Prelude.{◌≡◌, None, IfOk};
ghost use Rattle.sheet_callers.specs.Callers.{caller_at};
ghost use Rattle.sheet_callers.specs.Judging.{IsNext};
ghost use Rattle.sheet_machine_laws.specs.Act.{accept, most_requests};
ghost use Rattle.sheet_meaning.specs.declared.refusal.Which.TheVariants.{Requests};
ghost use Rattle.sheet_requests.specs.declared.reply.Refusal.TheVariants as refused;
ghost use Rattle.sheet_machine.specs.Gives.{Gives, HasLine};
ghost use Rattle.sheet_machine.specs.Held.{holding, before_changes};
ghost use Rattle.sheet_machine.specs.Told.{told};
ghost use Rattle.sheet_requests.specs.declared.reply.Answer.TheVariants as answers;
ghost use Rattle.sheet_requests.specs.declared.reply.Reply.TheVariants as replies;

use crate::answered::{Answered, printed, refuse};
use crate::held::{Held, MOST_REQUESTS, Pending};
use crate::judging::copy;
use sheet_columns::Columns;
use sheet_engine::EngineMark;
use sheet_meaning::Which;
use sheet_requests::{Answer, Refusal, Reply};
use sheet_values::{NoMemory, Set};
use std::alloc::Global;

/// The refusal where as many requests were accepted as may be.
pub(crate) fn no_room() -> Refusal
    ensures { result ≡ refused.Full Requests most_requests }
{
    Refusal::Full(Which::Requests, MOST_REQUESTS)
}

/// What an accepted request is answered, with its bytes, and the answer that is kept.
#[derive(Drop)]
pub(crate) struct Prepared {
    pub(crate) answered: Answered,
    pub(crate) kept: Answer,
}

/// All that an accepted request takes of memory.
pub(crate) fn prepare(
    alloc: Global,
    columns: &Columns,
    number: u64,
    answer: Answer,
) -> Result<Prepared, NoMemory>
    ensures kept { IfOk result (λ p. p.kept ≡ answer) }
    ensures reply { IfOk result (λ p. p.answered.reply ≡ replies.Accepted number answer) }
    ensures body { IfOk result (λ p. p.answered.body.items ≡ told columns.now p.answered.reply) }
{
    let kept = copy(&answer)?;
    let answered = printed(alloc, columns, Reply::Accepted { number, answer })?;
    Ok(Prepared { answered, kept })
}

/// Accepts the request of a caller whose number is fresh, after the run of a procedure with that reply, where there is room: it is then
/// pending. Else all that the run changed is undone.
pub(crate) fn accept_run(
    held: &mut Held,
    mark: EngineMark,
    caller: u32,
    number: u64,
    line: Vec<u8>,
    set: Set,
) -> Result<Answered, NoMemory>
    requires next { IsNext (caller_at held.old.callers caller) number }
    requires mark { mark.state.place ≡ 0 }
    requires none { held.old.pending ≡ None }
    ensures gives { Gives (accept (before_changes held.old) (holding held.old) caller number line.items (answers.Values set)) (before_changes held.old) held.new result }
    ensures line { HasLine held.new line.items }
{
    if held.accepted >= MOST_REQUESTS {
        held.take_back(mark);
        return refuse(held, no_room());
    }
    let answer = Answer::Values(set);
    match prepare(held.alloc, held.engine.book().columns(), number, answer) {
        Ok(Prepared { answered, kept }) => {
            held.suspend(Pending {
                caller,
                number,
                line,
                kept,
                admitted: false,
                mark,
            });
            Ok(answered)
        }
        Err(NoMemory) => {
            held.take_back(mark);
            Err(NoMemory)
        }
    }
}
