//! How many packets of each kind of verdict there were.
ghost use Rattle.std.specs.Prelude.{◌≡◌, ◌+◌, ◌-◌, ◌^◌, ◌<◌, if◌then◌else◌};
ghost use Rattle.drop_ledger.specs.Seen as spec;
ghost use Rattle.drop_ledger.specs.Seen.{AreSums};
ghost use Rattle.drop_ledger.specs.Steps.{governed_after, totals_after};

use packet_judge::{Verdict, forwarded};

/// How many packets of each kind of verdict there were.
#[derive(Clone, Copy)]
pub struct Totals {
    /// All packets.
    pub packets: u64,
    /// Those with no Thing at an endpoint.
    pub unmanaged: u64,
    /// Those that aren't IP, or keep the link up.
    pub link: u64,
    /// Those that can't be read.
    pub unreadable: u64,
    /// Those that were ruled on and are forwarded.
    pub pass: u64,
    /// Those that were ruled on and are dropped.
    pub drop: u64,
    /// Those that were ruled on for a Thing at each endpoint: they are among the two above.
    pub both: u64,
}

/// No packets.
pub(crate) const NO_PACKETS: Totals = Totals {
    packets: 0,
    unmanaged: 0,
    link: 0,
    unreadable: 0,
    pass: 0,
    drop: 0,
    both: 0,
};

/// Whether the Thing at each endpoint was ruled on.
#[tactic(auto, unfolding(crate::specs::Seen::has_both))]
fn has_both(verdict: &Verdict) -> bool
    ensures { result ≡ spec.has_both verdict.now }
{
    match verdict {
        Verdict::Governed(source, destination) => source.is_some() && destination.is_some(),
        Verdict::Unmanaged => false,
        Verdict::Link => false,
        Verdict::Unreadable(_) => false,
    }
}

/// The totals with one packet more that was ruled on.
#[tactic(auto, unfolding(crate::specs::Steps::governed_after))]
fn with_governed(totals: Totals, passes: bool, both: bool) -> Totals
    requires sums { AreSums totals }
    requires few { totals.packets < 2 ^ 64 - 1 }
    ensures { result ≡ governed_after totals passes both }
{
    Totals {
        packets: totals.packets + 1,
        pass: if passes { totals.pass + 1 } else { totals.pass },
        drop: if passes { totals.drop } else { totals.drop + 1 },
        both: if both { totals.both + 1 } else { totals.both },
        ..totals
    }
}

/// The totals with one packet more, by its verdict.
#[tactic(auto, unfolding(crate::specs::Steps::totals_after))]
pub(crate) fn with_packet(totals: Totals, verdict: &Verdict) -> Totals
    requires sums { AreSums totals }
    requires few { totals.packets < 2 ^ 64 - 1 }
    ensures { result ≡ totals_after totals verdict.now }
{
    let packets = totals.packets + 1;
    match verdict {
        Verdict::Unmanaged => Totals {
            packets,
            unmanaged: totals.unmanaged + 1,
            ..totals
        },
        Verdict::Link => Totals {
            packets,
            link: totals.link + 1,
            ..totals
        },
        Verdict::Unreadable(_) => Totals {
            packets,
            unreadable: totals.unreadable + 1,
            ..totals
        },
        Verdict::Governed(..) => with_governed(totals, forwarded(verdict), has_both(verdict)),
    }
}
