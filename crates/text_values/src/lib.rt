//! Writers of texts: numbers, addresses, URLs, paths and faults, each added behind what stands in a
//! line. A writer that finds no memory leaves a first part of its text, which may be none of it.
#![tactic(auto)]

pub mod addresses;
pub mod faults;
pub mod numbers;
pub mod paths;

pub use addresses::{append_addr, append_mac, append_prefix};
pub use faults::{append_url, append_url_fault, append_url_part};
pub use numbers::{
    append_decimal, append_expiry, append_number, append_offset, append_signed, append_two,
};
pub use paths::append_path_part;
