//! What a command changes of the files of one URL.
ghost use Rattle.std.specs.Prelude.{◌≡◌};

use crate::approval::Approval;
use crate::held::Held;
use mud_base::Moment;

/// What a command changes of the files of one URL. No edit copies a file that is held.
#[derive(Drop)]
pub enum FileEdit {
    /// Nothing.
    Unchanged,
    /// This file becomes the candidate, in place of an earlier one.
    Offered(Held),
    /// The candidate was fetched again at this moment.
    CandidateFetched(Moment),
    /// The approved file was fetched again at this moment.
    ApprovedFetched(Moment),
    /// The candidate becomes the approved file, in place of an earlier one.
    Approved(Approval),
    /// The candidate goes, and the URL with it where no file is approved.
    Rejected,
    /// The approved file goes, and the URL with it where there is no candidate.
    Revoked,
}

/// What becomes of the policy of a URL.
#[derive(Clone, Copy)]
pub enum PolicyChange {
    /// It stays what it is.
    Stays,
    /// It is that of the candidate from now on.
    Comes,
    /// It has none from now on.
    Goes,
}

impl FileEdit {
    ghost use Rattle.usage_tables.specs.FileEdits.{room_for};
    ghost use Rattle.usage_tables.specs.Policies.{policy_change};

    /// How many rows more it needs room for.
    #[tactic(auto, unfolding(crate::specs::FileEdits::room_for))]
    pub fn room(&self) -> usize
        ensures { result ≡ room_for self.now }
    {
        match self {
            FileEdit::Offered(_) => 1,
            _ => 0,
        }
    }

    /// What becomes of the policy of the URL.
    #[tactic(auto, unfolding(crate::specs::Policies::policy_change))]
    pub fn policy(&self) -> PolicyChange
        ensures { result ≡ policy_change self.now }
    {
        match self {
            FileEdit::Approved(_) => PolicyChange::Comes,
            FileEdit::Revoked => PolicyChange::Goes,
            _ => PolicyChange::Stays,
        }
    }
}
