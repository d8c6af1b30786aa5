//! The tally of packets that were judged.
ghost use Rattle.std.specs.Prelude.{◌≡◌, ◌+◌, ◌-◌, ◌^◌, ◌≤◌, ◌++◌, ◌∷◌, [], List, length, IfOk, IsOk, IsTrue, ◌↔◌, None, Some, if◌then◌else◌};
ghost use Rattle.std.specs.List.{AllByRecursion};
ghost use Rattle.drop_ledger.specs.Seen.{AreSums, HasFields, hour_of, is_ruled, rulings};
ghost use Rattle.drop_ledger.specs.Ledger.{StandsFor, MayFollow, HasRooms, IsSameTally, IsClosed, times_of, denied_times, no_match};
ghost use Rattle.drop_ledger.specs.Counted.{total};
ghost use Rattle.drop_ledger.specs.SortKeys.{count_of_row};
ghost use Rattle.mud_base.specs.declared.addr.Mac.{Mac as MacValue};
ghost use Rattle.mud_base.specs.declared.packet.Direction.{Direction as DirectionValue};
ghost use Rattle.drop_ledger.specs.Plan.{seen_planned};
ghost use Rattle.drop_ledger.specs.declared.seen.Seen.{Seen as SeenValue};

use crate::counting::count_endpoint;
use crate::rows::{CountRow, DeniedRow, OtherRow};
use crate::seen::Seen;
use crate::totals::{NO_PACKETS, Totals, with_packet};
use base_rows::SortedRows;
use mud_base::{Direction, Fields, Mac, Memory, Moment};
use packet_judge::Verdict;
use std::alloc::Global;
use std::marker::Model;

/// Rulings counted by Thing, side and ruling, since an hour was closed; what was dropped since no
/// entry matches, by peer, protocol and port; and how many packets there were. It stands for the
/// list of all packets, and takes no more memory than Things, sides and entries need: of each Thing
/// and side 256 peers, protocols and ports at most have rows.
pub struct Tally {
    totals: Totals,
    hour: Option<u64>,
    counts: SortedRows<CountRow>,
    denied: SortedRows<DeniedRow>,
    others: SortedRows<OtherRow>,
}

// It is written out, so that what lets one go doesn't prove again how each part is dropped.
impl Drop for Tally {
    fn drop(self) {
        let Tally {
            totals: _,
            hour: _,
            counts: _,
            denied: _,
            others: _,
        } = self;
    }
}

impl Model for Tally {
    ghost use Rattle.drop_ledger.specs.Seen.{AreSums};
    ghost use Rattle.drop_ledger.specs.Ledger.{TallyState};

    ghost Value = { TallyState };

    ghost view = { λ t. record { totals = t.totals; hour = t.hour; counts = t.counts; denied = t.denied; others = t.others } };

    ghost invariant = { λ t. AreSums t.totals };
}

/// A packet for which there is room.
#[derive(Clone, Copy)]
pub struct TallyPlan {
    seen: Seen,
}

impl Tally {
    /// The tally of no packets. It takes no memory.
    pub fn new(alloc: Global) -> Tally
        ensures { StandsFor [] [] result }
    {
        Tally {
            totals: NO_PACKETS,
            hour: None,
            counts: SortedRows::new(alloc),
            denied: SortedRows::new(alloc),
            others: SortedRows::new(alloc),
        }
    }

    /// Makes room for all that a packet may add. Nothing else changes, also where there is no memory
    /// for it.
    pub fn make_room(&mut self) -> Result<(), Memory>
        ensures same { IsSameTally self.old self.new }
        ensures ok { IfOk result (λ _. HasRooms self.new) }
        // Where there is room already, no memory is wanted.
        ensures sure { HasRooms self.old → IsOk result }
    {
        self.counts.reserve(2)?;
        self.denied.reserve(2)?;
        self.others.reserve(2)?;
        Ok(())
    }

    /// Whether as many packets were noted as can be counted.
    pub fn is_full(&self) -> bool
        ensures { IsTrue result ↔ (2 ^ 64 - 1 ≤ self.now.totals.packets) }
    {
        self.totals.packets == u64::MAX
    }

    /// Makes room for a packet that was judged at this moment, with its hardware addresses and, where
    /// it is a readable packet, what its headers say. Nothing else changes, also where there is no
    /// memory for it.
    pub fn plan(
        &mut self,
        moment: Moment,
        verdict: &Verdict,
        source: Mac,
        destination: Mac,
        fields: Option<Fields>,
    ) -> Result<TallyPlan, Memory>
        requires { MayFollow self.old (record { moment = moment; verdict = verdict.now; source = source; destination = destination; fields = fields }) }
        ensures same { IsSameTally self.old self.new }
        ensures plan { IfOk result (λ plan. seen_planned plan ≡ record { moment = moment; verdict = verdict.now; source = source; destination = destination; fields = fields }) }
        ensures ready { IfOk result (λ plan. MayFollow self.new (seen_planned plan)) }
        ensures rooms { IfOk result (λ _. HasRooms self.new) }
        // Where there is room already, no memory is wanted.
        ensures sure { HasRooms self.old → IsOk result }
    {
        self.make_room()?;
        Ok(TallyPlan {
            seen: Seen {
                moment,
                verdict: *verdict,
                source,
                destination,
                fields,
            },
        })
    }

    /// Counts a packet that was planned. It takes no memory.
    pub fn note(&mut self, plan: TallyPlan)
        requires ready { MayFollow self.old (seen_planned plan) }
        requires rooms { HasRooms self.old }
        ensures { (all latest : List SeenValue) → StandsFor all latest self.old → StandsFor (all ++ seen_planned plan ∷ []) (latest ++ seen_planned plan ∷ []) self.new }
    {
        let seen = plan.seen;
        self.hour = hour_after(self.hour, &seen);
        let sent = seen.ruled_on(Direction::From);
        count_endpoint(&mut self.counts, &mut self.denied, &mut self.others, sent);
        let received = seen.ruled_on(Direction::To);
        count_endpoint(
            &mut self.counts,
            &mut self.denied,
            &mut self.others,
            received,
        );
        self.totals = with_packet(self.totals, &seen.verdict);
    }

    /// The hour of the counts: None exactly where there are none.
    pub fn hour(&self) -> Option<u64>
        ensures value { result ≡ self.now.hour }
        ensures none { (all latest : List SeenValue) → StandsFor all latest self.now → (result ≡ None) ↔ (self.now.counts.rows ≡ []) }
    {
        self.hour
    }

    /// How often each ruling was given on each Thing and side since an hour was closed, in the order
    /// in which they are written.
    pub fn counts(&self) -> &[CountRow]
        ensures value { result.now ≡ self.now.counts.rows }
        ensures sum { (all latest : List SeenValue) → StandsFor all latest self.now → total count_of_row result.now ≡ length (rulings latest) }
    {
        self.counts.rows()
    }

    /// Takes the counts away. What was denied and the totals stay. It takes no memory.
    pub fn close_hour(&mut self)
        ensures closed { IsClosed self.old self.new }
        ensures rooms { HasRooms self.old → HasRooms self.new }
        ensures stands { (all latest : List SeenValue) → StandsFor all latest self.old → StandsFor all [] self.new }
    {
        let len = self.counts.len();
        self.counts.take_run_at(0, len);
        self.hour = None;
    }

    /// What was dropped since no entry matches, in the order in which it is written: of each Thing
    /// and side the peers, protocols and ports that appear first, 256 at most. With the others they
    /// are as many packets as had that ruling.
    pub fn denied(&self) -> &[DeniedRow]
        ensures value { result.now ≡ self.now.denied.rows }
        ensures sum { (all latest : List SeenValue) (mac : MacValue) (side : DirectionValue) → AllByRecursion HasFields all → StandsFor all latest self.now
            → denied_times mac side result.now self.now.others.rows ≡ times_of mac side no_match (rulings all) }
    {
        self.denied.rows()
    }

    /// How many more were dropped so, of peers, protocols and ports that have no row of their own.
    pub fn others(&self) -> &[OtherRow]
        ensures { result.now ≡ self.now.others.rows }
    {
        self.others.rows()
    }

    /// How many packets of each kind of verdict there were.
    pub fn totals(&self) -> Totals
        ensures value { result ≡ self.now.totals }
        ensures sums { AreSums result }
    {
        self.totals
    }
}

/// The hour of the counts after a packet: its own where it has a ruling.
fn hour_after(hour: Option<u64>, seen: &Seen) -> Option<u64>
    ensures { result ≡ (if is_ruled seen.now then Some (hour_of seen.now) else hour) }
{
    if seen.is_ruled() {
        Some(seen.hour())
    } else {
        hour
    }
}
