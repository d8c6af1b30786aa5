//! What is decided on a packet of a Thing.

/// The default entries, in the order in which they stand behind those of each usage file (RFC 8520,
/// Appendix A).
#[derive(Clone, Copy)]
pub enum DefaultRule {
    /// Queries to a DNS server, and its answers.
    Dns,
    /// Queries to an NTP server, and its answers.
    Ntp,
}

/// Why a packet is dropped that no entry matches.
#[derive(Clone, Copy)]
pub enum Why {
    /// There is no approved usage file.
    NoFile,
    /// None of the entries matches.
    NoMatch,
}

/// The ruling on a packet of a Thing, and the entry that it comes from. Entries are counted from 1
/// on the side of the packet that the Thing is on.
#[derive(Clone, Copy)]
pub enum Ruling {
    /// The entry of this number is the first that matches, and accepts.
    Accept(u16),
    /// No entry of a file matches. This default entry is the first that does, and accepts.
    AcceptDefault(DefaultRule),
    /// The entry of this number is the first that matches, and drops.
    Drop(u16),
    /// No entry matches, and no default entry either.
    DropDefault(Why),
    /// The operator holds the Thing: no entry is asked.
    DropHeld,
}
