//! Addresses, addresses with their expiries, and prefixes, as rows.
use crate::sortable::{KeyOf, Sortable};
use mud_base::{Addr, End, Prefix, addr_order};
use std::cmp::Ordering;

/// IPv4 before IPv6, and then the lesser number.
impl Sortable for Addr {
    ghost use Rattle.base_rows.specs.Addresses.{addr_sort_key};

    ghost sort_key = { addr_sort_key };

    #[tactic(auto, using(crate::proofs::AddressLaws::sort_key_rules))]
    fn order(&self, other: &Addr) -> Ordering {
        addr_order(*self, *other)
    }
}

/// By the address alone.
impl Sortable for (Addr, End) {
    ghost use Rattle.base_rows.specs.Addresses.{expiry_sort_key};

    ghost sort_key = { expiry_sort_key };

    #[tactic(auto, unfolding(crate::specs::Addresses::expiry_sort_key))]
    fn order(&self, other: &(Addr, End)) -> Ordering {
        self.0.order(&other.0)
    }
}

/// An address with its expiry is found by the address.
impl KeyOf<(Addr, End)> for Addr {
    ghost use Rattle.base_rows.specs.Addresses.{addr_sort_key};

    ghost sort_key = { addr_sort_key };

    #[tactic(auto, unfolding(crate::specs::Addresses::expiry_sort_key))]
    fn order_to(&self, row: &(Addr, End)) -> Ordering {
        self.order(&row.0)
    }
}

/// By the address, and then the lesser length.
impl Sortable for Prefix {
    ghost use Rattle.base_rows.specs.Addresses.{prefix_sort_key};

    ghost sort_key = { prefix_sort_key };

    #[tactic(auto, using(crate::proofs::AddressLaws::sort_key_rules))]
    fn order(&self, other: &Prefix) -> Ordering {
        self.addr()
            .order(&other.addr())
            .then(self.len().cmp(&other.len()))
    }
}
