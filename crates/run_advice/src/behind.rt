//! What is to be told of the store behind a run.

/// Why the log of a store wasn't copied into its file.
#[derive(Clone, Copy)]
pub enum Unclosed {
    /// The disk is full.
    DiskFull,
    /// The disk failed, or the store was shut before.
    Other,
}

/// What is to be told of the store behind a run.
#[derive(Clone, Copy)]
pub struct Behind {
    /// Packets were judged, and the store has no Thing.
    pub has_no_things: bool,
    /// `snoop` could learn nothing: no address is bound to the class of DNS servers.
    pub learns_nothing: bool,
    /// The log of the store stays beside its file.
    pub unclosed: Option<Unclosed>,
}

impl Behind {
    /// There is nothing to be told.
    pub fn nothing() -> Behind {
        Behind {
            has_no_things: false,
            learns_nothing: false,
            unclosed: None,
        }
    }
}
