//! The kinds of the items in which a store keeps its lists, in the order in which a store tells them.

/// One item a Thing.
pub const THING_KIND: u8 = 1;

/// One item a URL, with its files.
pub const FILE_KIND: u8 = 2;

/// One item a class of addresses.
pub const CLASS_KIND: u8 = 3;

/// One item of all local networks.
pub const LOCALS_KIND: u8 = 4;

/// One item a name.
pub const NAME_KIND: u8 = 5;

/// One item of the moment of the last change.
pub const STAMP_KIND: u8 = 6;
