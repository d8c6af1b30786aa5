//! How much is kept at most.

/// The most URLs of which files are held.
pub const MOST_FILES: usize = 128;

/// The most entries of all approved files, of both directions.
pub const MOST_POLICY_ENTRIES: usize = 4096;
