//! The key by which a Thing is found.
ghost use Rattle.std.specs.Prelude.{◌≡◌, ◌∷◌};
ghost use Rattle.std.specs.Int.{w64, from_be_bytes};

use crate::ranges::{all_are_octets, mac_has_six_octets};
use base_rows::KeyOf;
use mud_base::Mac;
use std::cmp::Ordering;
use std::marker::Model;
use table_model::Thing;

/// The number that the octets of a hardware address spell, most significant first.
pub(crate) fn number_of(mac: &Mac) -> u64
    ensures { result ≡ from_be_bytes w64 (0 ∷ 0 ∷ mac.now.0) }
{
    let octets = &mac.0;
    let high = u32::from_be_bytes([octets[0], octets[1], octets[2], octets[3]]);
    let low = u16::from_be_bytes([octets[4], octets[5]]);
    u64::from(high) * 0x1_0000 + u64::from(low)
}

/// A hardware address as the key of a Thing, with the number that it spells: a search compares
/// numbers, each at once, and makes its own number only once. Contracts see it as the address.
#[derive(Drop)]
pub(crate) struct ThingKey {
    mac: Mac,
    number: u64,
}

impl Model for ThingKey {
    ghost use Rattle.std.specs.Prelude.{◌≡◌, ◌∷◌};
    ghost use Rattle.std.specs.Int.{w64, from_be_bytes};
    ghost use Rattle.mud_base.specs.declared.addr.Mac.{Mac};

    ghost Value = { Mac };

    ghost view = { λ k. k.mac };

    ghost invariant = { λ k. k.number ≡ from_be_bytes w64 (0 ∷ 0 ∷ k.mac.0) };
}

impl ThingKey {
    /// The key of a hardware address.
    pub(crate) fn new(mac: Mac) -> ThingKey
        ensures { result ≡ mac }
    {
        let number = number_of(&mac);
        ThingKey { mac, number }
    }
}

impl KeyOf<Thing> for ThingKey {
    ghost use Rattle.table_model.specs.Things.{mac_of};

    ghost sort_key = { λ mac. mac.0 };

    #[tactic(auto, unfolding(table_model::specs::Things::mac_of))]
    fn order_to(&self, thing: &Thing) -> Ordering {
        mac_has_six_octets(self.mac);
        all_are_octets(&self.mac.0);
        mac_has_six_octets(thing.mac);
        all_are_octets(&thing.mac.0);
        self.number.cmp(&number_of(&thing.mac))
    }
}
