//! What the operator says of usage files.
ghost use Rattle.std.specs.Prelude.{◌≡◌};
ghost use Rattle.usage_tables.specs.Words.{approval_word};

/// How a file was approved.
#[derive(Clone, Copy)]
pub enum Approval {
    /// The operator verified its signature (RFC 8520, 13).
    Verified,
    /// The operator approved it without that.
    Waived,
}

impl Approval {
    /// The word for it.
    #[tactic(auto, unfolding(crate::specs::Words::approval_word))]
    pub fn word(self) -> &'static [u8]
        ensures { result.now ≡ approval_word self }
    {
        match self {
            Approval::Verified => b"verified",
            Approval::Waived => b"waived",
        }
    }
}

/// What the operator says of a candidate.
#[derive(Clone, Copy)]
pub enum OperatorVerdict {
    /// Its signature was verified.
    Verified,
    /// It is approved without that.
    Waived,
    /// It is turned down.
    Failed,
}
