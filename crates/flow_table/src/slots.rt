//! The slots of a generation of connections, in few octets.
ghost use Rattle.std.specs.Prelude.{◌≡◌, [], true, false, OnOk, OnErr, IsSome, Some, None};
ghost use Rattle.flow_table.specs.Held.{slot_at, IsWritten};
ghost use Rattle.flow_table.specs.Kept as spec;
ghost use Rattle.flow_table.specs.Slots.{IsPut, widened, wide_slots};

use crate::kept::{Begun, is_kept};
use crate::key::{Key, ShortKey};
use mud_base::{Addr, Memory, Moment};
use std::alloc::Global;
use std::collections::BTreeMap;
use std::marker::Model;
use std::mem::size_of;
use table_model::{Endpoint, Segment};

/// Who began a connection, where that is known, and the moment of its last packet. Contracts see
/// these.
#[derive(Drop)]
struct PackedBegun {
    /// The number of the address, of which the last 32 bits count where it is one of IPv4.
    number: u128,
    at: Moment,
    port: u16,
    /// Whether the address is one of IPv6.
    is_long: bool,
    is_known: bool,
}

// It takes 32 octets.
const _: () = prove!(size_of::<PackedBegun>() == 32);

impl Model for PackedBegun {
    ghost use Rattle.std.specs.Prelude.{Option};
    ghost use Rattle.table_model.specs.History.{Begun};
    ghost use Rattle.flow_table.specs.Slots.{begun_of};

    ghost Value = { Option Begun };

    ghost view = { λ b. begun_of b.is_known b.is_long b.number b.port b.at };
}

impl PackedBegun {
    /// This endpoint began, and this is the moment.
    #[tactic(auto, unfolding(crate::specs::Slots::begun_of, crate::specs::Slots::addr_of))]
    fn known(endpoint: Endpoint, at: Moment) -> PackedBegun
        ensures { result ≡ Some (endpoint, at) }
    {
        let (number, is_long) = match endpoint.0 {
            Addr::V4(number) => (number as u128, false),
            Addr::V6(number) => (number, true),
        };
        PackedBegun {
            number,
            at,
            port: endpoint.1,
            is_long,
            is_known: true,
        }
    }

    /// Nobody is known to have begun.
    #[tactic(auto, unfolding(crate::specs::Slots::begun_of))]
    fn nobody() -> PackedBegun
        ensures { result ≡ None }
    {
        PackedBegun {
            number: 0,
            at: Moment::at_most_last(0),
            port: 0,
            is_long: false,
            is_known: false,
        }
    }

    /// What is kept, in this form.
    fn new(begun: Option<Begun>) -> PackedBegun
        ensures { result ≡ begun }
    {
        match begun {
            Some((endpoint, at)) => PackedBegun::known(endpoint, at),
            None => PackedBegun::nobody(),
        }
    }

    /// What is kept.
    #[tactic(auto, unfolding(crate::specs::Slots::begun_of, crate::specs::Slots::addr_of))]
    fn begun(&self) -> Option<Begun>
        ensures { result ≡ self.now }
    {
        if !self.is_known {
            return None;
        }
        let addr = if self.is_long {
            Addr::V6(self.number)
        } else {
            Addr::V4((self.number % 0x1_0000_0000) as u32)
        };
        Some(((addr, self.port), self.at))
    }

    /// Writes what is kept after a packet in place of it, as [`kept_after`] says: of a connection that
    /// it keeps up the moment alone.
    #[tactic(auto, unfolding(crate::specs::Slots::begun_of, crate::specs::Kept::kept_after, crate::specs::Kept::beginner_kept, table_model::specs::History::with_moment))]
    fn keep_up(&mut self, packet: &Segment)
        ensures { self.new ≡ spec.kept_after packet.now self.old }
    {
        if packet.opens() {
            *self = PackedBegun::known(packet.source, packet.at);
            return;
        }
        if packet.resets() {
            self.is_known = false;
            return;
        }
        if is_kept(self.at, packet.at) {
            self.at = packet.at;
        } else {
            self.is_known = false;
        }
    }
}

/// The slots of a generation, each with what is kept of two endpoints. Most connections are of IPv4:
/// their slots stand by themselves, by keys of 16 octets, so that a look-up reads little memory.
/// Contracts see the list of all slots.
#[derive(Drop)]
pub(crate) struct Slots {
    short: BTreeMap<ShortKey, PackedBegun>,
    long: BTreeMap<Key, PackedBegun>,
}

impl Model for Slots {
    ghost use Rattle.std.specs.Prelude.{List, Option};
    ghost use Rattle.table_model.specs.History.{Begun};
    ghost use Rattle.flow_table.specs.Keys.{Key};
    ghost use Rattle.flow_table.specs.Slots.{slots_of};

    ghost Value = { List (Key × Option Begun) };

    ghost view = { λ s. slots_of s.short.entries s.long.entries };
}

impl Slots {
    /// No slots. It takes no memory.
    #[tactic(auto, unfolding(crate::specs::Slots::slots_of))]
    pub(crate) fn new(alloc: Global) -> Slots
        ensures { result ≡ [] }
    {
        Slots {
            short: BTreeMap::new(alloc),
            long: BTreeMap::new(alloc),
        }
    }

    /// What the slot of two endpoints has; None where they have none.
    #[tactic(auto, unfolding(crate::specs::Slots::slots_of))]
    pub(crate) fn get(&self, key: &Key) -> Option<Option<Begun>>
        ensures { result ≡ slot_at self.now key.now }
    {
        match short_slot(&self.short, key) {
            Some(begun) => Some(begun),
            None => long_slot(&self.long, key),
        }
    }

    /// Puts this into the slot of two endpoints, which is made where they have none. Without memory
    /// for it the slots stay.
    #[tactic(auto, unfolding(crate::specs::Slots::slots_of))]
    pub(crate) fn put(&mut self, key: Key, begun: Option<Begun>) -> Result<(), Memory>
        ensures ok { OnOk result (IsPut key begun self.old self.new) }
        ensures err { OnErr result (self.new ≡ self.old) }
    {
        match key.narrowed() {
            Some(short) => put_short(&mut self.short, short, begun),
            None => put_long(&mut self.long, key, begun),
        }
    }

    /// Writes what is kept after a packet into the slot of its endpoints, and answers whether there
    /// is one.
    #[tactic(auto, unfolding(crate::specs::Slots::slots_of))]
    pub(crate) fn write(&mut self, key: &Key, packet: &Segment) -> bool
        ensures there { result ≡ true → IsSome (slot_at self.old key.now) }
        ensures written { result ≡ true → IsWritten key.now packet.now self.old self.new }
        ensures absent { result ≡ false → slot_at self.old key.now ≡ None }
        ensures same { result ≡ false → self.new ≡ self.old }
    {
        if write_short(&mut self.short, key, packet) {
            return true;
        }
        write_long(&mut self.long, key, packet)
    }
}

/// What the slot of two endpoints has among those of IPv4.
#[tactic(auto, unfolding(crate::specs::Held::slot_at))]
fn short_slot(slots: &BTreeMap<ShortKey, PackedBegun>, key: &Key) -> Option<Option<Begun>>
    ensures { result ≡ slot_at (wide_slots slots.now.entries) key.now }
{
    let Some(short) = key.narrowed() else {
        return None;
    };
    match slots.get(&short) {
        Some(begun) => Some(begun.begun()),
        None => None,
    }
}

/// What the slot of two endpoints has among the others.
#[tactic(auto, unfolding(crate::specs::Held::slot_at))]
fn long_slot(slots: &BTreeMap<Key, PackedBegun>, key: &Key) -> Option<Option<Begun>>
    ensures { result ≡ slot_at slots.now.entries key.now }
{
    match slots.get(key) {
        Some(begun) => Some(begun.begun()),
        None => None,
    }
}

/// Puts this into a slot among those of IPv4.
#[tactic(auto, unfolding(crate::specs::Held::slot_at))]
fn put_short(
    slots: &mut BTreeMap<ShortKey, PackedBegun>,
    key: ShortKey,
    begun: Option<Begun>,
) -> Result<(), Memory>
    ensures ok { OnOk result (IsPut (widened key) begun (wide_slots slots.old.entries) (wide_slots slots.new.entries)) }
    ensures err { OnErr result (slots.new.entries ≡ slots.old.entries) }
{
    slots.insert(key, PackedBegun::new(begun))?;
    Ok(())
}

/// Puts this into a slot among the others.
#[tactic(auto, unfolding(crate::specs::Held::slot_at))]
fn put_long(
    slots: &mut BTreeMap<Key, PackedBegun>,
    key: Key,
    begun: Option<Begun>,
) -> Result<(), Memory>
    ensures ok { OnOk result (IsPut key begun slots.old.entries slots.new.entries) }
    ensures err { OnErr result (slots.new.entries ≡ slots.old.entries) }
{
    slots.insert(key, PackedBegun::new(begun))?;
    Ok(())
}

/// Writes what is kept after a packet into the slot of its endpoints, where they have one among those
/// of IPv4, and answers whether they do.
#[tactic(auto, unfolding(crate::specs::Held::slot_at))]
fn write_short(slots: &mut BTreeMap<ShortKey, PackedBegun>, key: &Key, packet: &Segment) -> bool
    ensures there { result ≡ true → IsSome (slot_at (wide_slots slots.old.entries) key.now) }
    ensures written { result ≡ true → IsWritten key.now packet.now (wide_slots slots.old.entries) (wide_slots slots.new.entries) }
    ensures absent { result ≡ false → slot_at (wide_slots slots.old.entries) key.now ≡ None }
    ensures same { result ≡ false → slots.new.entries ≡ slots.old.entries }
{
    let Some(short) = key.narrowed() else {
        return false;
    };
    match slots.get_mut(&short) {
        Some(slot) => {
            slot.keep_up(packet);
            true
        }
        None => false,
    }
}

/// Writes what is kept after a packet into the slot of its endpoints, where they have one among the
/// others, and answers whether they do.
#[tactic(auto, unfolding(crate::specs::Held::slot_at))]
fn write_long(slots: &mut BTreeMap<Key, PackedBegun>, key: &Key, packet: &Segment) -> bool
    ensures there { result ≡ true → IsSome (slot_at slots.old.entries key.now) }
    ensures written { result ≡ true → IsWritten key.now packet.now slots.old.entries slots.new.entries }
    ensures absent { result ≡ false → slot_at slots.old.entries key.now ≡ None }
    ensures same { result ≡ false → slots.new.entries ≡ slots.old.entries }
{
    match slots.get_mut(key) {
        Some(slot) => {
            slot.keep_up(packet);
            true
        }
        None => false,
    }
}
