//! The rows of a tally, in the order in which they are written.
ghost use Rattle.std.specs.Prelude.{◌≡◌};

use crate::Tallied;
use crate::order::{Peer, ThingSide, peer_order, ruling_order, thing_order};
use acl_model::Ruling;
use base_rows::{PrefixOf, Sortable};
use mud_base::{Addr, Direction, Mac};
use std::cmp::Ordering;

/// How often a ruling was given on the packets of a Thing on a side.
#[derive(Clone, Copy, Drop)]
pub struct CountRow {
    /// The Thing.
    pub mac: Mac,
    /// The side of the packets that it is on.
    pub side: Direction,
    /// The ruling.
    pub ruling: Ruling,
    /// How often it was given.
    pub count: u64,
}

/// How many packets of a Thing on a side were dropped since no entry matches, of one peer, protocol
/// and port.
#[derive(Clone, Copy, Drop)]
pub struct DeniedRow {
    /// The Thing.
    pub mac: Mac,
    /// The side of the packets that it is on.
    pub side: Direction,
    /// The address at the other side.
    pub peer: Addr,
    /// The IP protocol number.
    pub protocol: u8,
    /// The TCP or UDP port at the other side; None for other protocols.
    pub port: Option<u16>,
    /// How many packets.
    pub count: u64,
}

/// How many more packets of a Thing on a side were dropped so, of peers, protocols and ports that
/// have no row of their own.
#[derive(Clone, Copy, Drop)]
pub struct OtherRow {
    /// The Thing.
    pub mac: Mac,
    /// The side of the packets that it is on.
    pub side: Direction,
    /// How many packets.
    pub count: u64,
}

impl CountRow {
    /// Its Thing and side.
    fn thing(&self) -> ThingSide
        ensures { result ≡ record { mac = self.now.mac; side = self.now.side } }
    {
        ThingSide {
            mac: self.mac,
            side: self.side,
        }
    }
}

impl DeniedRow {
    /// Its Thing and side.
    fn thing(&self) -> ThingSide
        ensures { result ≡ record { mac = self.now.mac; side = self.now.side } }
    {
        ThingSide {
            mac: self.mac,
            side: self.side,
        }
    }

    /// Its peer, protocol and port.
    fn peer(&self) -> Peer
        ensures { result ≡ record { addr = self.now.peer; protocol = self.now.protocol; port = self.now.port } }
    {
        Peer {
            addr: self.peer,
            protocol: self.protocol,
            port: self.port,
        }
    }
}

impl OtherRow {
    /// Its Thing and side.
    fn thing(&self) -> ThingSide
        ensures { result ≡ record { mac = self.now.mac; side = self.now.side } }
    {
        ThingSide {
            mac: self.mac,
            side: self.side,
        }
    }
}

/// By the Thing, the side and the ruling.
impl Sortable for CountRow {
    ghost use Rattle.drop_ledger.specs.SortKeys.{sort_key_of_count};

    ghost sort_key = { sort_key_of_count };

    #[tactic(auto, unfolding(crate::specs::SortKeys::sort_key_of_count), using(crate::proofs::SortKeyOrder::row_rules))]
    fn order(&self, other: &CountRow) -> Ordering {
        thing_order(&self.thing(), &other.thing()).then(ruling_order(self.ruling, other.ruling))
    }
}

/// By the Thing, the side, the peer, the protocol and the port.
impl Sortable for DeniedRow {
    ghost use Rattle.drop_ledger.specs.SortKeys.{sort_key_of_denied};

    ghost sort_key = { sort_key_of_denied };

    #[tactic(auto, unfolding(crate::specs::SortKeys::sort_key_of_denied), using(crate::proofs::SortKeyOrder::row_rules))]
    fn order(&self, other: &DeniedRow) -> Ordering {
        thing_order(&self.thing(), &other.thing()).then(peer_order(&self.peer(), &other.peer()))
    }
}

/// By the Thing and the side.
impl Sortable for OtherRow {
    ghost use Rattle.drop_ledger.specs.SortKeys.{sort_key_of_other};

    ghost sort_key = { sort_key_of_other };

    #[tactic(auto, unfolding(crate::specs::SortKeys::sort_key_of_other))]
    fn order(&self, other: &OtherRow) -> Ordering {
        thing_order(&self.thing(), &other.thing())
    }
}

/// The rows of its Thing and side.
impl PrefixOf<DeniedRow> for OtherRow {
    ghost use Rattle.drop_ledger.specs.SortKeys.{sort_key_of_other};

    ghost prefix = { sort_key_of_other };

    #[tactic(auto, unfolding(crate::specs::SortKeys::sort_key_of_other, crate::specs::SortKeys::sort_key_of_denied), using(crate::proofs::SortKeyOrder::row_rules))]
    fn order_to_beginning(&self, row: &DeniedRow) -> Ordering {
        thing_order(&self.thing(), &row.thing())
    }
}

impl Tallied for CountRow {
    ghost use Rattle.std.specs.Prelude.{refl};
    ghost use Rattle.drop_ledger.specs.SortKeys.{count_of_row, with_count};
    ghost use Rattle.drop_ledger.specs.RowTypes.{count_stays, count_told};

    ghost count = { count_of_row };

    ghost counted = { with_count };

    #[tactic(auto, unfolding(crate::specs::SortKeys::count_of_row))]
    fn count(&self) -> u64 {
        self.count
    }

    #[tactic(auto, unfolding(crate::specs::SortKeys::with_count))]
    fn with_count(self, number: u64) -> CountRow {
        CountRow {
            count: number,
            ..self
        }
    }

    ghost stays = { count_stays };

    ghost told = { count_told };
}

impl Tallied for DeniedRow {
    ghost use Rattle.drop_ledger.specs.SortKeys.{denied_count, with_denied};
    ghost use Rattle.drop_ledger.specs.RowTypes.{denied_stays, denied_told};

    ghost count = { denied_count };

    ghost counted = { with_denied };

    #[tactic(auto, unfolding(crate::specs::SortKeys::denied_count))]
    fn count(&self) -> u64 {
        self.count
    }

    #[tactic(auto, unfolding(crate::specs::SortKeys::with_denied))]
    fn with_count(self, number: u64) -> DeniedRow {
        DeniedRow {
            count: number,
            ..self
        }
    }

    ghost stays = { denied_stays };

    ghost told = { denied_told };
}

impl Tallied for OtherRow {
    ghost use Rattle.drop_ledger.specs.SortKeys.{other_count, with_other};
    ghost use Rattle.drop_ledger.specs.RowTypes.{other_stays, other_told};

    ghost count = { other_count };

    ghost counted = { with_other };

    #[tactic(auto, unfolding(crate::specs::SortKeys::other_count))]
    fn count(&self) -> u64 {
        self.count
    }

    #[tactic(auto, unfolding(crate::specs::SortKeys::with_other))]
    fn with_count(self, number: u64) -> OtherRow {
        OtherRow {
            count: number,
            ..self
        }
    }

    ghost stays = { other_stays };

    ghost told = { other_told };
}
