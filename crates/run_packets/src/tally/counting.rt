//! The packets of a capture are counted as they are judged, and the lines of an hour are written when
//! it is over.
ghost use Rattle.std.specs.Prelude.{◌≡◌, ◌++◌, ◌∷◌, [], List, max, OnOk, IfOk, None, if◌then◌else◌, ◌-◌, ◌^◌, ◌<◌};
ghost use Rattle.mud_desk.specs.DeskState.{session_of};
ghost use Rattle.drop_ledger.specs.Seen.{hour_of};
ghost use Rattle.drop_ledger.specs.Ledger.{StandsFor, IsSameTally, HasRooms, hour_in};
ghost use Rattle.drop_ledger.specs.declared.seen.Seen.{Seen as SeenValue};
ghost use Rattle.run_packets.specs.Tally.Tallied as spec;
ghost use Rattle.run_packets.specs.Tally.Tallied.{IsTallied, begun, latest_with};

use crate::tally::seeing::seen_as;
use crate::tally::texts::{append_end, append_hour};
use drop_ledger::{Seen, Tally, hour_at};
use mud_base::{Bytes, Memory, Moment};
use mud_desk::State;
use pcap_read::Captured;
use run_captures::PacketLines;
use run_desk::{judge_packet, moment_of};
use std::alloc::Global;

/// The moment of the session once a packet is judged: moments never go back.
fn moment_after(moment: Moment, packet: &Captured<'_>) -> Moment
    ensures { result ≡ max moment packet.now.seconds }
{
    let own = moment_of(packet);
    if moment.seconds() < own.seconds() {
        own
    } else {
        moment
    }
}

/// Whether the counts are of another hour than this one.
#[tactic(auto, unfolding(crate::specs::Tally::Tallied::is_over))]
fn is_over(hour: Option<u64>, now: u64) -> bool
    ensures { result ≡ spec.is_over hour now }
{
    match hour {
        None => false,
        Some(hour) => hour != now,
    }
}

/// Adds the lines of the hour of the counts, where a packet is of another one.
fn append_closed(alloc: Global, lines: &mut Bytes, tally: &Tally, now: u64) -> Result<(), Memory>
    ensures { (all latest : List SeenValue) (s : SeenValue) → StandsFor all latest tally.now → hour_of s ≡ now
        → OnOk result (lines.new ≡ lines.old ++ (if spec.is_over (hour_in latest) (hour_of s) then spec.closing latest else [])) }
{
    let hour = tally.hour();
    if is_over(hour, now) {
        return append_hour(alloc, lines, hour, tally.counts());
    }
    Ok(())
}

/// Makes room for all that a packet may add. No more packets are counted than a number of 64 bits
/// tells, which a capture never has.
fn make_room(tally: &mut Tally) -> Result<(), Memory>
    ensures same { IsSameTally tally.old tally.new }
    ensures rooms { IfOk result (λ _. HasRooms tally.new) }
    ensures few { IfOk result (λ _. tally.new.totals.packets < 2 ^ 64 - 1) }
{
    if tally.is_full() {
        return Err(Memory);
    }
    tally.make_room()
}

/// Takes the counts away, where they are of another hour than a packet.
fn close_before(tally: &mut Tally, now: u64)
    ensures hour { tally.new.hour ≡ (if spec.is_over tally.old.hour now then None else tally.old.hour) }
    ensures totals { tally.new.totals ≡ tally.old.totals }
    ensures rooms { HasRooms tally.old → HasRooms tally.new }
    ensures stands { (all latest : List SeenValue) → StandsFor all latest tally.old
        → StandsFor all (if spec.is_over tally.old.hour now then [] else latest) tally.new }
{
    if is_over(tally.hour(), now) {
        tally.close_hour();
    }
}

/// Counts a packet for which there is room. It takes no memory.
fn count_seen(tally: &mut Tally, seen: &Seen)
    requires rooms { HasRooms tally.old }
    requires few { tally.old.totals.packets < 2 ^ 64 - 1 }
    ensures { (all latest : List SeenValue) → StandsFor all latest tally.old
        → StandsFor (all ++ seen.now ∷ []) (latest_with latest seen.now) tally.new }
{
    close_before(tally, seen.hour());
    match tally.plan(
        seen.moment,
        &seen.verdict,
        seen.source,
        seen.destination,
        seen.fields,
    ) {
        Ok(plan) => tally.note(plan),
        Err(_) => unreachable!(),
    }
}

/// The lines of `tally`: the hours that are over, in a session of a desk, and at the end what was
/// denied.
#[derive(Drop)]
pub struct TalliedLines {
    state: State,
    /// The moment of the session.
    moment: Moment,
    tally: Tally,
}

impl TalliedLines {
    /// No packet was judged, and the session is at this moment. It takes no memory.
    pub fn new(alloc: Global, state: State, moment: Moment) -> TalliedLines
        ensures { moment ≡ state.moment → IsTallied (begun (session_of state)) result.state result.moment result.tally }
    {
        TalliedLines {
            state,
            moment,
            tally: Tally::new(alloc),
        }
    }
}

impl PacketLines for TalliedLines {
    ghost use Rattle.run_packets.specs.Tally.Tallied.{Tallied, IsTallied, tally_step, tally_ending};

    ghost State = { Tallied };

    ghost keeps = { λ lines t. IsTallied t lines.state lines.moment lines.tally };

    ghost step = { tally_step };

    ghost ending = { tally_ending };

    fn append_line(
        &mut self,
        alloc: Global,
        lines: &mut Bytes,
        packet: &Captured<'_>,
    ) -> Result<(), Memory> {
        let moment = moment_after(self.moment, packet);
        append_closed(alloc, lines, &self.tally, hour_at(moment))?;
        make_room(&mut self.tally)?;
        let judged = judge_packet(&mut self.state, packet)?;
        self.moment = moment;
        count_seen(&mut self.tally, &seen_as(moment, &judged));
        Ok(())
    }

    fn append_last(&self, alloc: Global, lines: &mut Bytes) -> Result<(), Memory> {
        append_hour(alloc, lines, self.tally.hour(), self.tally.counts())?;
        append_end(
            alloc,
            lines,
            self.tally.denied(),
            self.tally.others(),
            &self.tally.totals(),
        )
    }
}
