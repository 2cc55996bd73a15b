// Who asks, and what a request's number comes to.
ghost use Rattle.std.specs.Prelude.{◌≡◌, false, Some, IfOk, IfSome};
ghost use Rattle.sheet_callers.specs.Callers.{Caller as TheCaller, caller_at, IsWithin};
ghost use Rattle.sheet_callers.specs.Judging.{judged};
ghost use Rattle.sheet_machine_laws.specs.Act.{who};
ghost use Rattle.sheet_machine_laws.specs.Step.{is_accepted};
ghost use Rattle.sheet_machine.specs.Judging.{reply_unless_fresh};

use sheet_callers::{Callers, Judgement};
use sheet_meaning::Caller;
use sheet_requests::{Answer, Refusal, Reply};
use sheet_values::NoMemory;

/// The number of the operator.
pub(crate) const OPERATOR: u32 = 1;

/// Who a caller is to procedures and views.
pub(crate) fn who(callers: &Callers, caller: u32) -> Caller
    ensures { (c : TheCaller) → caller_at callers.now caller ≡ Some c → result ≡ who caller c }
{
    Caller {
        object: callers.object_of(caller),
        operator: caller == OPERATOR,
    }
}

/// An equal answer.
pub(crate) fn copy(answer: &Answer) -> Result<Answer, NoMemory>
    ensures { IfOk result (λ a. a ≡ answer.now) }
{
    match answer {
        Answer::Values(set) => {
            let set = set.copy()?;
            Ok(Answer::Values(set))
        }
        Answer::Caller(number) => Ok(Answer::Caller(*number)),
    }
}

/// What is answered by the number of a request with that line; none where the number is fresh.
pub(crate) fn judge(
    callers: &Callers,
    caller: u32,
    number: u64,
    line: &[u8],
) -> Result<Option<Reply>, NoMemory>
    requires { IsWithin callers.now caller }
    ensures told { (c : TheCaller) → caller_at callers.now caller ≡ Some c → IfOk result (λ r. r ≡ reply_unless_fresh number (judged c number line.now)) }
    ensures refused { IfOk result (λ o. IfSome o (λ r. is_accepted r ≡ false)) }
{
    match callers.judge(caller, number, line) {
        Judgement::Fresh => Ok(None),
        Judgement::Kept(answer) => {
            let answer = copy(answer)?;
            Ok(Some(Reply::Kept { number, answer }))
        }
        Judgement::Differs => Ok(Some(Reply::Refused(Refusal::Differs))),
        Judgement::Past(last) => Ok(Some(Reply::Refused(Refusal::Past(last)))),
        Judgement::Ahead(last) => Ok(Some(Reply::Refused(Refusal::Ahead(last)))),
    }
}
