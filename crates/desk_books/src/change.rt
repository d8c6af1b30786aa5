//! A change of the desk that is planned, and committed later.
ghost use Rattle.std.specs.Prelude.{◌≡◌, None, IfOk};
ghost use Rattle.desk_model.specs.Commands.{outcome};

use crate::batch::{batch_of, stamp_after};
use acl_compile::RowPlan;
use bind_book::BindChange;
use desk_model::Outcome;
use file_cache::CacheChange;
use item_codec::Word;
use mud_base::{End, Listed, Memory, Moment};
use mud_world::Put;
use std::alloc::Global;
use std::marker::Model;
use thing_book::ThingChange;

/// A planned change of one of the books.
#[derive(Drop)]
pub enum BookChange {
    Things(ThingChange),
    Files(CacheChange),
    Binds(BindChange),
}

/// A planned change: what its command answers, what becomes of the lists and of the compiled rows,
/// and the batch by which it is kept. Contracts see it as the record of these.
#[derive(Drop)]
pub struct DeskChange {
    pub(crate) outcome: Outcome,
    pub(crate) change: BookChange,
    pub(crate) rows: RowPlan,
    pub(crate) batch: Listed<Put>,
    pub(crate) stamp: Option<Moment>,
}

impl Model for DeskChange {
    ghost use Rattle.desk_books.specs.Changes.{PlannedChange};

    ghost Value = { PlannedChange };

    ghost view = { λ c. record { outcome = c.outcome; change = c.change; rows = c.rows; batch = c.batch; stamp = c.stamp } };
}

/// What a command answers that isn't on a file.
fn of_no_file(word: Word, until: Option<End>) -> Outcome
    ensures { result ≡ outcome word until None }
{
    Outcome {
        word,
        until,
        url: None,
    }
}

impl BookChange {
    ghost use Rattle.desk_books.specs.Changes.{outcome_of, puts_in, without_puts};

    /// What the command answers.
    #[tactic(auto, unfolding(crate::specs::Changes::outcome_of))]
    fn outcome(&self) -> Outcome
        ensures { result ≡ outcome_of self.now }
    {
        match self {
            BookChange::Things(change) => of_no_file(change.word(), change.until()),
            BookChange::Files(change) => Outcome {
                word: change.word(),
                until: None,
                url: Some(*change.url()),
            },
            BookChange::Binds(change) => of_no_file(change.word(), change.until()),
        }
    }

    /// Moves the puts out.
    #[tactic(auto, unfolding(crate::specs::Changes::puts_in, crate::specs::Changes::without_puts))]
    fn take_puts(&mut self) -> Listed<Put>
        ensures puts { result ≡ puts_in self.old }
        ensures left { self.new ≡ without_puts self.old }
    {
        match self {
            BookChange::Things(change) => change.take_puts(),
            BookChange::Files(change) => change.take_puts(),
            BookChange::Binds(change) => change.take_puts(),
        }
    }
}

impl DeskChange {
    ghost use Rattle.desk_books.specs.Changes.{change_of};

    /// The change that these of a book and of the rows are, at a moment.
    #[tactic(auto, unfolding(crate::specs::Changes::change_of))]
    pub(crate) fn made(
        alloc: Global,
        mut change: BookChange,
        rows: RowPlan,
        stamp: Option<Moment>,
        now: Moment,
    ) -> Result<DeskChange, Memory>
        ensures { IfOk result (λ made. made ≡ change_of now stamp change rows) }
    {
        let outcome = change.outcome();
        let puts = change.take_puts();
        let stamp = stamp_after(&puts, stamp, now);
        let Ok(batch) = batch_of(alloc, puts, now) else {
            drop(change);
            drop(rows);
            return Err(Memory);
        };
        Ok(DeskChange {
            outcome,
            change,
            rows,
            batch,
            stamp,
        })
    }

    /// What the command answers once the change is made.
    pub fn outcome(&self) -> Outcome
        ensures { result ≡ self.now.outcome }
    {
        self.outcome
    }

    /// The puts by which the change is kept, with that of the stamp behind them: a batch, or none
    /// exactly where no list changes.
    pub fn batch(&self) -> &[Put]
        ensures { result.now ≡ self.now.batch }
    {
        self.batch.as_slice()
    }
}
