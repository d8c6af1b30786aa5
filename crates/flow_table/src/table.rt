//! The table of the connections that forwarded packets made.
ghost use Rattle.std.specs.Prelude.{◌≡◌, ◌++◌, ◌∷◌, [], true, IsTrue, IfOk, OnOk, IsSome, Some, None};
ghost use Rattle.table_model.specs.History.{begun_of, segment_of as spec_segment_of};
ghost use Rattle.flow_table.specs.Noted.{follows, segment_planned, IsPlanned};
ghost use Rattle.flow_table.specs.Held.{slot_at, slot_first, filled, with_newest};

use crate::kept::{Begun, beginner_kept, kept_after};
use crate::key::Key;
use crate::log::Log;
use crate::pairs::key_of;
use crate::slots::Slots;
use mud_base::{Direction, Fields, Memory, Moment};
use std::alloc::Global;
use std::cmp::Ordering;
use std::marker::Model;
use std::mem::replace;
use table_model::Segment;
use table_model::limits::MOST_PAUSE;
use table_model::segment::segment_of;

/// The connections that forwarded TCP packets made. Each is kept until its last packet is more than
/// [`MOST_PAUSE`] seconds ago at least, and so it answers as the list of all these packets does,
/// which is what contracts see of it.
///
/// A connection that is new stands apart until the next packet is planned: its slot is made then,
/// which may take memory, so that a packet is noted without looking first whether it has a slot.
///
/// Connections stand in two generations. Where a packet is noted more than [`MOST_PAUSE`] seconds
/// after the younger one was begun, the elder one goes as a whole and the younger one becomes it.
/// So the table holds no more than the connections of some four hours, however long it is used, and
/// a packet costs no more for it.
pub struct FlowTable {
    alloc: Global,
    /// The moment of the last packet that was noted.
    last: Option<Moment>,
    /// The moment at which the younger generation was begun, in seconds since 1970.
    since: u64,
    /// The connection of the last packet, where the younger generation has no slot for it yet.
    newest: Option<(Key, Option<Begun>)>,
    younger: Slots,
    elder: Slots,
    /// All packets that were noted.
    history: Log<Segment>,
}

impl Drop for FlowTable {
    fn drop(self) {
        let FlowTable {
            alloc: _,
            last: _,
            since: _,
            newest: _,
            younger: _,
            elder: _,
            history: _,
        } = self;
    }
}

impl Model for FlowTable {
    ghost use Rattle.std.specs.Option.{is_none};
    ghost use Rattle.flow_table.specs.Noted.{Noted};
    ghost use Rattle.flow_table.specs.Held.{HoldsAll, held_of};

    ghost Value = { Noted };

    ghost view = { λ t. record { history = t.history.items; has_room = is_none t.newest } };

    ghost invariant = { λ t. HoldsAll t.history.items (held_of t.last t.since t.newest t.younger t.elder) };
}

/// A packet that the table has room for.
#[derive(Drop)]
pub struct FlowPlan {
    packet: Segment,
}

impl FlowTable {
    /// The table before any packet.
    pub fn new(alloc: Global) -> FlowTable
        ensures { result.history ≡ [] }
    {
        FlowTable {
            alloc,
            last: None,
            since: 0,
            newest: None,
            younger: Slots::new(alloc),
            elder: Slots::new(alloc),
            history: Log::new(),
        }
    }

    /// Who began the connection of a packet at a moment that isn't before the last one, as the
    /// Thing on this side of it sees it (RFC 8520, 4.8): `From` where its own endpoint did. None
    /// where nobody is known to have, and for what isn't TCP.
    pub fn begun(&self, side: Direction, fields: &Fields, now: Moment) -> Option<Direction>
        requires { IsTrue (follows self.now.history now) }
        ensures { result ≡ begun_of self.now.history side fields.now now }
    {
        let Some(packet) = segment_of(fields, now) else {
            return None;
        };
        if packet.opens() {
            return packet.side_of(side, Some(packet.source));
        }
        let key = key_of(packet.source, packet.destination);
        let kept = held(&self.newest, &self.younger, &self.elder, &key);
        packet.side_of(side, beginner_kept(kept, packet.at))
    }

    /// Whether a moment isn't before that of the last packet noted.
    pub fn is_since(&self, now: Moment) -> bool
        ensures { result ≡ follows self.now.history now }
    {
        match self.last {
            Some(last) => last.seconds() <= now.seconds(),
            None => true,
        }
    }

    /// Takes the memory that a TCP packet needs, which will have been forwarded at this moment.
    /// What the table means stays, also where there is no memory.
    pub fn plan(&mut self, fields: &Fields, now: Moment) -> Result<FlowPlan, Memory>
        requires since { IsTrue (follows self.old.history now) }
        requires tcp { IsSome (spec_segment_of fields.now now) }
        ensures same { self.new.history ≡ self.old.history }
        ensures planned { IfOk result (λ plan. spec_segment_of fields.now now ≡ Some (segment_planned plan)) }
        ensures ready { IfOk result (λ plan. IsPlanned self.new plan) }
    {
        let packet = match segment_of(fields, now) {
            Some(packet) => packet,
            None => unreachable!(),
        };
        self.make_room()?;
        Ok(FlowPlan { packet })
    }

    /// Makes the slot of the connection that stands apart, if there is one, so that there is room
    /// for another one.
    fn make_room(&mut self) -> Result<(), Memory>
        ensures same { self.new.history ≡ self.old.history }
        ensures room { OnOk result (IsTrue self.new.has_room) }
    {
        let Some((key, begun)) = self.newest else {
            return Ok(());
        };
        self.younger.put(key, begun)?;
        self.newest = None;
        Ok(())
    }

    /// Notes a packet that was planned and forwarded. It takes no memory.
    pub fn note(&mut self, plan: FlowPlan)
        requires { IsPlanned self.old plan }
        ensures { self.new.history ≡ self.old.history ++ segment_planned plan ∷ [] }
    {
        let packet = plan.packet;
        let key = key_of(packet.source, packet.destination);
        let now = packet.at.seconds();
        self.last = Some(packet.at);
        self.history = self.history.and(&packet);
        if now.saturating_sub(self.since) > MOST_PAUSE {
            let kept = kept_first(&self.younger, &self.elder, &key);
            self.elder = replace(&mut self.younger, Slots::new(self.alloc));
            self.since = now;
            let begun = kept_after(&packet, kept);
            self.newest = Some((key, begun));
        } else if !self.younger.write(&key, &packet) {
            let before = kept_in(&self.elder, &key);
            let noted = kept_after(&packet, before);
            self.newest = Some((key, noted));
        }
    }
}

/// What stands apart, where it is of these two endpoints.
#[tactic(auto, unfolding(crate::specs::Held::slot_at, crate::specs::Held::with_newest))]
fn apart(newest: &Option<(Key, Option<Begun>)>, key: &Key) -> Option<Option<Begun>>
    ensures { result ≡ slot_at (with_newest newest.now []) key.now }
{
    match newest {
        Some((endpoints, begun)) => match key.cmp(endpoints) {
            Ordering::Equal => Some(*begun),
            _ => None,
        },
        None => None,
    }
}

/// What is kept of two endpoints: what stands apart or the younger generation has, and else the elder
/// one.
#[tactic(auto, unfolding(crate::specs::Held::held_at))]
fn held(
    newest: &Option<(Key, Option<Begun>)>,
    younger: &Slots,
    elder: &Slots,
    key: &Key,
) -> Option<Begun>
    ensures { result ≡ slot_first (slot_at (with_newest newest.now younger.now) key.now) (slot_at elder.now key.now) }
{
    match apart(newest, key) {
        Some(begun) => begun,
        None => kept_first(younger, elder, key),
    }
}

/// What two generations have of two endpoints: what the younger one has, and else the elder one.
fn kept_first(younger: &Slots, elder: &Slots, key: &Key) -> Option<Begun>
    ensures { result ≡ slot_first (slot_at younger.now key.now) (slot_at elder.now key.now) }
{
    match younger.get(key) {
        Some(begun) => begun,
        None => kept_in(elder, key),
    }
}

/// What a generation has of two endpoints.
fn kept_in(slots: &Slots, key: &Key) -> Option<Begun>
    ensures { result ≡ filled (slot_at slots.now key.now) }
{
    match slots.get(key) {
        Some(begun) => begun,
        None => None,
    }
}
