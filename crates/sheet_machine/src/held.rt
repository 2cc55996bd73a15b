// What an App holds.
ghost use Rattle.std.specs.Prelude.{◌≡◌, [], Some, None, IfSome};
ghost use Rattle.sheet_machine.specs.Held.{holding, before_changes, IsPending, if_taken_in, if_left_out};

use sheet_callers::Callers;
use sheet_engine::{Engine, EngineMark};
use sheet_requests::Answer;
use std::alloc::Global;

/// How many requests may be accepted.
pub(crate) const MOST_REQUESTS: u64 = 1_000_000_000;

/// An accepted request that is neither taken in nor left out yet. The changes of its run are done, and can be undone; of an admission
/// the caller is there. That it is accepted isn't noted yet.
#[derive(Drop)]
pub(crate) struct Pending {
    pub(crate) caller: u32,
    pub(crate) number: u64,
    pub(crate) line: Vec<u8>,
    pub(crate) kept: Answer,
    pub(crate) admitted: bool,
    pub(crate) mark: EngineMark,
}

/// A workbook, its callers, how many requests were accepted, and perhaps one that is pending.
#[derive(Drop)]
pub(crate) struct Held {
    pub(crate) engine: Engine,
    pub(crate) callers: Callers,
    pub(crate) accepted: u64,
    pub(crate) pending: Option<Pending>,
    pub(crate) alloc: Global,
}

impl Held {
    /// An accepted request is pending. It takes no memory.
    pub(crate) fn suspend(&mut self, pending: Pending)
        ensures { self.new ≡ record self.old { pending = Some pending } }
    {
        self.pending = Some(pending);
    }

    /// The request that is pending is taken in: its caller keeps it, and nothing can be undone any more. It takes no memory.
    pub(crate) fn take_in(&mut self)
        requires { IfSome self.old.pending (IsPending self.old) }
        ensures held { holding self.new ≡ if_taken_in self.old self.old.pending }
        ensures settled { self.new.engine.state.earlier ≡ [] }
        ensures none { self.new.pending ≡ None }
    {
        self.engine.forget();
        let Some(pending) = self.pending.take() else {
            return;
        };
        self.callers
            .keep(pending.caller, pending.number, pending.line, pending.kept);
        self.accepted += 1;
    }

    /// The request that is pending is left out: all that it changed is as before it. It takes no memory.
    pub(crate) fn leave_out(&mut self)
        requires can { IfSome self.old.pending (IsPending self.old) }
        requires ready { self.old.pending ≡ None → self.old.engine.state.earlier ≡ [] }
        ensures held { holding self.new ≡ if_left_out self.old self.old.pending }
        ensures settled { self.new.engine.state.earlier ≡ [] }
        ensures none { self.new.pending ≡ None }
    {
        let Some(pending) = self.pending.take() else {
            return;
        };
        if pending.admitted {
            self.callers.take_back();
        }
        self.engine.undo_to(pending.mark);
    }

    /// What was held before the changes that can be undone is held again. It takes no memory.
    pub(crate) fn take_back(&mut self, mark: EngineMark)
        requires { mark.state.place ≡ 0 }
        ensures held { holding self.new ≡ before_changes self.old }
        ensures settled { self.new.engine.state.earlier ≡ [] }
        ensures pending { self.new.pending ≡ self.old.pending }
    {
        self.engine.undo_to(mark);
    }
}
