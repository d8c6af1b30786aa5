//! What the two endpoints of a connection are looked for by.
ghost use Rattle.std.specs.Prelude.{◌≡◌};
ghost use Rattle.flow_table.specs.Slots as spec;

use std::cmp::Ordering;
use std::mem::size_of;

/// The two endpoints of a connection as whole numbers, the lesser endpoint first. Keys are in the
/// order of their members, and those of two connections mostly differ in the first.
#[derive(Clone, Copy, PartialEq, Eq, PartialOrd, Ord)]
pub struct Key {
    /// The last 32 bits of the first address, and then those of the second.
    pub(crate) near: u64,
    pub(crate) first_port: u16,
    pub(crate) second_port: u16,
    /// Whether the first address is one of IPv6.
    pub(crate) first_long: bool,
    /// Whether the second address is one of IPv6.
    pub(crate) second_long: bool,
    /// The first address as the number that its octets spell.
    pub(crate) first: u128,
    /// The second address as the number that its octets spell.
    pub(crate) second: u128,
}

/// The two endpoints of a connection that have addresses of IPv4, in half as many octets.
#[derive(Clone, Copy, PartialEq, Eq, PartialOrd, Ord)]
pub struct ShortKey {
    /// The first address, and then the second one.
    pub(crate) near: u64,
    pub(crate) first_port: u16,
    pub(crate) second_port: u16,
}

// A short key takes 16 octets.
const _: () = prove!(size_of::<ShortKey>() == 16);

impl ShortKey {
    /// The key that it stands for.
    #[tactic(auto, unfolding(crate::specs::Slots::widened))]
    fn widened(self) -> Key
        ensures { result ≡ spec.widened self }
    {
        Key {
            near: self.near,
            first_port: self.first_port,
            second_port: self.second_port,
            first_long: false,
            second_long: false,
            first: (self.near / 0x1_0000_0000) as u128,
            second: (self.near % 0x1_0000_0000) as u128,
        }
    }
}

impl Key {
    /// The short key that stands for it, where one does.
    #[tactic(auto, unfolding(crate::specs::Slots::narrowed, crate::specs::Slots::shortened))]
    pub(crate) fn narrowed(&self) -> Option<ShortKey>
        ensures { result ≡ spec.narrowed self.now }
    {
        let short = ShortKey {
            near: self.near,
            first_port: self.first_port,
            second_port: self.second_port,
        };
        match self.cmp(&short.widened()) {
            Ordering::Equal => Some(short),
            _ => None,
        }
    }
}
