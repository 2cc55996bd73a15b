// A counter of evaluations that only contracts see.
ghost use Rattle.std.specs.Prelude.{◌≡◌, ◌+◌, ◌<◌};

use std::marker::Model;
use std::sync::ledger::{Blank, Book, Ledger, Share};

/// A counter that takes no bytes: only contracts see its count.
#[derive(Drop)]
pub struct Steps<G: Ledger> {
    book: Book<G>,
    share: Share<G>,
}

impl<G: Ledger> Model for Steps<G> {
    ghost use Rattle.std.specs.Prelude.{ℕ, ◌<◌};

    ghost Value = { ℕ };

    ghost view = { λ s. s.book.total };

    ghost invariant = { λ s. 0 < s.share.parts };
}

impl<G: Ledger> Steps<G> {
    /// Starts at 0.
    pub fn start(blank: Blank) -> Self
        requires name { blank.name ≡ G.name }
        requires parts { blank.parts ≡ G.parts }
        requires some { 0 < blank.parts }
        ensures { result ≡ 0 }
    {
        let (book, share) = blank.open::<G>();
        Steps { book, share }
    }

    /// Counts one evaluation.
    pub fn tick(&mut self)
        ensures { self.new ≡ self.old + 1 }
    {
        self.book.add(&mut self.share, 1);
    }
}
