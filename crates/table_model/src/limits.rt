//! How much is kept at most.

/// The most Things.
pub const MOST_THINGS: usize = 512;

/// The most leases of a Thing.
pub const MOST_LEASES: usize = 4;

/// The most classes.
pub const MOST_CLASSES: usize = 256;

/// The most addresses of a class.
pub const MOST_CLASS_ADDRESSES: usize = 64;

/// The most local prefixes.
pub const MOST_LOCALS: usize = 64;

/// The most names.
pub const MOST_NAMES: usize = 4096;

/// The most addresses of a name.
pub const MOST_NAME_ADDRESSES: usize = 64;

/// The longest silence between two packets of a connection, in seconds: 2 hours and 4 minutes
/// (RFC 5382, REQ-5).
pub const MOST_PAUSE: u64 = 7440;
