//! What a ruling asks of the entries of a view.
ghost use Rattle.std.specs.Prelude.{◌≡◌, ℕ, ◌+◌, ◌^◌, ◌<◌, ◌≤◌, length};
ghost use Rattle.packet_judge.specs.ByRows as by;
ghost use Rattle.packet_judge.specs.RuleSteps.{wide_tested, part_steps};

use acl_model::{near_matches, peer_of, rest_matches};
use acl_rows::{Row, RulePart};
use base_rows::Steps;
use mud_base::{Direction, Fields, Moment, Prefix};
use std::marker::Model;
use std::sync::ledger::Ledger;

/// What is asked of an entry beside its member selectors.
#[derive(Drop)]
pub(crate) struct Question<'a> {
    /// The local networks of the operator.
    locals: &'a [Prefix],
    /// When the packet is judged.
    moment: Moment,
    /// What the packet's headers say.
    fields: Fields,
    /// The side that began the packet's connection, where one is known to have.
    begun: Option<Direction>,
}

impl<'a> Model for Question<'a> {
    ghost use Rattle.packet_judge.specs.ByRows.{Asked, asked};

    ghost Value = { Asked };

    ghost view = { λ q. asked q.locals.now q.moment q.fields q.begun };
}

impl<'a> Question<'a> {
    /// The question about a packet with these fields.
    pub(crate) fn new(
        locals: &'a [Prefix],
        moment: Moment,
        fields: Fields,
        begun: Option<Direction>,
    ) -> Question<'a>
        ensures { result ≡ by.asked locals.now moment fields begun }
    {
        Question {
            locals,
            moment,
            fields,
            begun,
        }
    }

    /// Whether all tests of an entry pass but those of its member selectors; false where there is
    /// no entry of this number.
    #[tactic(auto, unfolding(crate::specs::ByRows::passes_at, crate::specs::ByRows::passes, acl_rows::specs::Rows::entry_at))]
    fn passes(&self, part: &RulePart<'_>, n: u16) -> bool
        ensures { result ≡ by.passes_at self.now part.now n }
    {
        if n == 0 || n > part.count() {
            return false;
        }
        let entry = part.entry(n);
        let side = part.side();
        near_matches(entry, peer_of(side, &self.fields), self.locals)
            && rest_matches(entry, &self.fields, side, self.begun)
    }

    /// Whether the row is live, and the other tests of its entry pass.
    #[tactic(auto, unfolding(crate::specs::ByRows::row_passes, table_model::specs::Expiries::is_live))]
    fn row_passes(&self, part: &RulePart<'_>, row: &Row) -> bool
        ensures { result ≡ by.row_passes self.now part.now row.now }
    {
        self.moment.seconds() < row.until.0 && self.passes(part, row.entry)
    }

    /// The number of the first row of the peer that passes. Each row of the peer is one step.
    #[tactic(auto, unfolding(crate::specs::ByRows::first_row, crate::specs::ByRows::number_of, crate::specs::ByRows::peer_rows))]
    fn first_row<L: Ledger>(&self, part: &RulePart<'_>, steps: &mut Steps<L>) -> Option<u16>
        ensures value { result ≡ by.first_row self.now part.now }
        ensures counted { steps.new ≡ steps.old + length (by.peer_rows self.now part.now) }
    {
        let rows = part.rows_at(peer_of(part.side(), &self.fields), steps);
        rows.iter()
            .find(|row| self.row_passes(part, row))
            .map(|row| row.entry)
    }

    /// The number of the first wide entry that passes. Each one that is tested is one step.
    #[tactic(auto, unfolding(crate::specs::ByRows::first_wide))]
    fn first_wide<L: Ledger>(&self, part: &RulePart<'_>, steps: &mut Steps<L>) -> Option<u16>
        ensures value { result ≡ by.first_wide self.now part.now }
        ensures counted { steps.new ≡ steps.old + wide_tested self.now part.now }
        ensures most { steps.new ≤ steps.old + length part.now.wide }
    {
        let wide = part.wide();
        for n in wide {
            steps.tick();
            if self.passes(part, *n) {
                return Some(*n);
            }
        }
        None
    }

    /// The least number of an entry that passes and has a live row of the peer or no member
    /// selector.
    #[tactic(auto, unfolding(crate::specs::ByRows::first_in, crate::specs::RuleSteps::part_steps))]
    pub(crate) fn first_in<L: Ledger>(
        &self,
        part: &RulePart<'_>,
        steps: &mut Steps<L>,
    ) -> Option<u16>
        ensures value { result ≡ by.first_in self.now part.now }
        ensures least { steps.old + length (by.peer_rows self.now part.now) + wide_tested self.now part.now ≤ steps.new }
        ensures most { (b : ℕ) → part.now.among < 2 ^ b → steps.new ≤ steps.old + part_steps self.now b part.now }
    {
        let row = self.first_row(part, steps);
        let wide = self.first_wide(part, steps);
        match (row, wide) {
            (None, first) => first,
            (Some(first), None) => Some(first),
            (Some(row), Some(wide)) => Some(row.min(wide)),
        }
    }
}
