//! Things and their leases.
ghost use Rattle.std.specs.Prelude.{◌≡◌};
ghost use Rattle.base_rows.specs.Sortable.{sort_key_cmp};

use base_rows::{KeyOf, Sortable};
use mud_base::{Addr, End, Listed, Mac};
use mud_url::MudUrl;
use std::cmp::Ordering;

/// How two hardware addresses stand to one another: the first octet that differs decides. It stops
/// there, so it takes a small part of the time of a comparison of slices.
fn mac_order(own: &Mac, other: &Mac) -> Ordering
    ensures { result ≡ sort_key_cmp own.now.0 other.now.0 }
{
    let mut n = 0;
    while n < own.0.len() {
        if own.0[n] != other.0[n] {
            return own.0[n].cmp(&other.0[n]);
        }
        n += 1;
    }
    Ordering::Equal
}

/// A Thing (RFC 8520, 1.3): a device that announced a MUD URL. It is known by its hardware address.
#[derive(Drop)]
pub struct Thing {
    /// Its hardware address, by which Things are ordered.
    pub mac: Mac,
    /// Its MUD URL, whose usage file it is judged by.
    pub url: MudUrl,
    /// Whether the operator holds it: all its packets are dropped, whatever its usage file says. A
    /// new Thing isn't held, and a hold ends with a release or with the Thing.
    pub held: bool,
    /// Another URL that it announced later, which waits for the operator.
    pub pending: Option<MudUrl>,
    /// Its addresses with the expiries of their leases, in the order of the addresses, each once. A
    /// lease whose expiry has come may still stand here.
    pub leases: Listed<(Addr, End)>,
}

impl Sortable for Thing {
    ghost use Rattle.table_model.specs.Things.{mac_of};

    ghost sort_key = { mac_of };

    #[tactic(auto, unfolding(crate::specs::Things::mac_of))]
    fn order(&self, other: &Thing) -> Ordering {
        mac_order(&self.mac, &other.mac)
    }
}

/// A Thing is found by its hardware address.
impl KeyOf<Thing> for Mac {
    ghost use Rattle.table_model.specs.Things.{mac_of};

    ghost sort_key = { λ mac. mac.0 };

    #[tactic(auto, unfolding(crate::specs::Things::mac_of))]
    fn order_to(&self, thing: &Thing) -> Ordering {
        mac_order(self, &thing.mac)
    }
}
