// A caller, and its requests that are kept.
ghost use Rattle.std.specs.Prelude.{◌≡◌, IfOk, option_copied};
ghost use Rattle.sheet_callers.specs.Callers.{new_caller};
ghost use Rattle.sheet_callers.specs.Judging.{judged, kept_at, Tells};
ghost use Rattle.sheet_callers.specs.Keeping.{with_kept, KeepsLast};

use crate::judgement::Judgement;
use circular_buffer::HeapCircularBuffer;
use sheet_requests::Answer;
use sheet_values::{Name, NoMemory};
use std::alloc::Global;
use std::marker::Model;

/// How many accepted requests of a caller are kept.
const MOST_KEPT: usize = 16;

/// An accepted request that is kept.
#[derive(Drop)]
pub struct Kept {
    number: u64,
    line: Vec<u8>,
    answer: Answer,
}

impl Model for Kept {
    ghost use Rattle.sheet_callers.specs.Callers.{KeptRequest};

    ghost Value = { KeptRequest };

    ghost view = { λ k. record { number = k.number; line = k.line.items; answer = k.answer } };
}

/// A caller, with 16 places for what is kept of it.
#[derive(Drop)]
pub struct Account {
    key: Name,
    name: Name,
    object: Option<u64>,
    last: u64,
    kept: HeapCircularBuffer<Kept>,
}

impl Model for Account {
    ghost use Rattle.std.specs.Prelude.{◌≡◌};
    ghost use Rattle.sheet_callers.specs.Callers.{Caller};
    ghost use Rattle.sheet_callers.specs.Keeping.{most_kept};

    ghost Value = { Caller };

    ghost view = { λ a. record { key = a.key; name = a.name; object = a.object; last = a.last; kept = a.kept.items } };

    ghost invariant = { λ a. a.kept.capacity ≡ most_kept };
}

impl Account {
    /// A caller of whom no request was accepted yet.
    pub fn new(
        alloc: Global,
        key: Name,
        name: Name,
        object: Option<u64>,
    ) -> Result<Account, NoMemory>
        ensures { IfOk result (λ a. a ≡ new_caller key name object) }
    {
        let kept = HeapCircularBuffer::with_capacity(alloc, MOST_KEPT)?;
        Ok(Account {
            key,
            name,
            object,
            last: 0,
            kept,
        })
    }

    /// Its object, which the operator lacks.
    pub fn object(&self) -> Option<u64>
        ensures { result ≡ self.now.object }
    {
        self.object
    }

    /// One more accepted request. It takes no memory.
    pub fn keep(&mut self, number: u64, line: Vec<u8>, answer: Answer)
        ensures { self.new ≡ with_kept self.old number line.items answer }
    {
        let kept = Kept {
            number,
            line,
            answer,
        };
        let _ = self.kept.push_back(kept);
        self.last = number;
    }

    // The kept request of that number.
    fn kept_at(&self, number: u64) -> Option<&Kept>
        ensures { option_copied result ≡ kept_at self.now.kept number }
    {
        self.kept.iter().find(|kept| kept.number == number)
    }

    /// What a number comes to, for a request with that line.
    pub fn judge(&self, number: u64, line: &[u8]) -> Judgement<'_>
        requires { KeepsLast self.now }
        ensures { Tells result (judged self.now number line.now) }
    {
        if number > self.last {
            return if number - self.last == 1 {
                Judgement::Fresh
            } else {
                Judgement::Ahead(self.last)
            };
        }
        match self.kept_at(number) {
            None => Judgement::Past(self.last),
            Some(kept) if kept.line.as_slice() == line => Judgement::Kept(&kept.answer),
            Some(_) => Judgement::Differs,
        }
    }
}
