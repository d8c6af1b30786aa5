//! The words that say what a command did.
ghost use Rattle.std.specs.Prelude.{◌≡◌};

/// What a command did to the tables.
#[derive(Clone, Copy)]
pub enum Word {
    /// What the command names was not kept before, and is now.
    New,
    /// The tables had it already.
    Same,
    /// A Thing's other URL waits for the operator.
    Pending,
    /// A Thing has its pending URL now.
    Moved,
    /// A Thing is no longer kept.
    Removed,
    /// All packets of a Thing are dropped from now on.
    Held,
    /// A Thing is judged by its usage file again.
    Released,
    /// A lease was heard of a hardware address that no Thing has.
    Stranger,
    /// The expiry of what was kept has changed.
    Renewed,
    /// A lease is no longer kept.
    Ended,
    /// A candidate file was turned down.
    Rejected,
    /// A candidate file is approved.
    Approved,
    /// An approved file is no longer kept.
    Revoked,
    /// A class has the address.
    Bound,
    /// A class no longer has the address.
    Unbound,
    /// The local prefixes are these.
    Set,
}

impl Word {
    ghost use Rattle.item_codec.specs.Word.{text_of};

    /// The word in lower-case letters.
    #[tactic(auto, unfolding(crate::specs::Word::text_of))]
    pub fn text(&self) -> &'static str
        ensures { result.now ≡ text_of self.now }
    {
        match self {
            Word::New => "new",
            Word::Same => "same",
            Word::Pending => "pending",
            Word::Moved => "moved",
            Word::Removed => "removed",
            Word::Held => "held",
            Word::Released => "released",
            Word::Stranger => "stranger",
            Word::Renewed => "renewed",
            Word::Ended => "ended",
            Word::Rejected => "rejected",
            Word::Approved => "approved",
            Word::Revoked => "revoked",
            Word::Bound => "bound",
            Word::Unbound => "unbound",
            Word::Set => "set",
        }
    }
}
