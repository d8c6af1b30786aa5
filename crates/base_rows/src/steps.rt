//! The counter of steps. What a step stands for is said by the calls that take it.
ghost use Rattle.std.specs.Prelude.{◌≡◌, ◌+◌};
ghost use Rattle.base_rows.specs.Ledgers.{IsBlankOf};

use std::marker::Model;
use std::sync::ledger::{Blank, Book, Ledger, Share};

/// How many steps were taken. It takes no bytes, and only `tick` and `add` change it. Contracts
/// see it as that number; no code can read it.
#[derive(Drop)]
pub struct Steps<L: Ledger> {
    book: Book<L>,
    share: Share<L>,
}

impl<L: Ledger> Model for Steps<L> {
    ghost use Rattle.std.specs.Prelude.{ℕ, ◌<◌};

    ghost Value = { ℕ };

    ghost view = { λ s. s.book.total };

    ghost invariant = { λ s. 0 < s.share.parts };
}

impl<L: Ledger> Steps<L> {
    /// No step yet, counted on the ledger of the blank.
    pub fn new(blank: Blank) -> Steps<L>
        requires blank { IsBlankOf L.name L.parts blank }
        ensures { result ≡ 0 }
    {
        let (book, share) = blank.open();
        Steps { book, share }
    }

    /// Counts one step.
    pub fn tick(&mut self)
        ensures { self.new ≡ self.old + 1 }
    {
        self.book.add(&mut self.share, 1);
    }

    /// Counts `more` steps.
    pub fn add(&mut self, more: u64)
        ensures { self.new ≡ self.old + more }
    {
        self.book.add(&mut self.share, more);
    }
}
