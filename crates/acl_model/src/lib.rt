//! What the entries of an access list mean (RFC 8519; RFC 8520, sections 3 to 5 and 8): their tests,
//! the keys by which addresses are bound to them, the default entries, and how the first entry that
//! matches decides.
#![tactic(auto)]

pub mod binding;
pub mod defaults;
pub mod entry;
pub mod first_match;
pub mod matching;
pub mod ruling;
pub mod sort_key;
pub mod tcp_flag;

pub use binding::{Binding, MemberKey, same_key};
pub use defaults::default_entry;
pub use entry::{Action, Entry, Layer, Policy, PortTest, Selector};
pub use matching::{is_in_family, near_matches, peer_of, prefix_passes, rest_matches};
pub use ruling::{DefaultRule, Ruling, Why};
pub use sort_key::{BoundKey, KeyText, order_keys};
pub use tcp_flag::TcpFlag;
