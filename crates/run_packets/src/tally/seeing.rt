//! What is counted of a packet that was judged.
ghost use Rattle.std.specs.Prelude.{◌≡◌};
ghost use Rattle.run_packets.specs.Tally.Tallied as spec;

use drop_ledger::Seen;
use frame_view::Frame;
use mud_base::{Mac, Moment};
use mud_desk::{JudgedFrame, Verdict};

/// Stands for the hardware addresses of a frame that isn't a readable packet.
const NO_MAC: Mac = Mac([0; 6]);

/// What is counted of a frame that isn't a readable packet: its verdict alone.
fn unread(moment: Moment, verdict: Verdict) -> Seen
    ensures { result ≡ spec.unread moment verdict }
{
    Seen {
        moment,
        verdict,
        source: NO_MAC,
        destination: NO_MAC,
        fields: None,
    }
}

/// What is counted of a frame that was judged at this moment.
#[tactic(auto, unfolding(crate::specs::Tally::Tallied::seen_as))]
pub(crate) fn seen_as(moment: Moment, judged: &JudgedFrame<'_>) -> Seen
    ensures { result ≡ spec.seen_as moment judged.now.verdict judged.now.frame }
{
    let verdict = judged.verdict;
    match &judged.frame {
        Frame::Packet(packet) => Seen {
            moment,
            verdict,
            source: packet.frame().source(),
            destination: packet.frame().destination(),
            fields: Some(packet.fields()),
        },
        Frame::Link(_) => unread(moment, verdict),
        Frame::Unreadable(_, _) => unread(moment, verdict),
    }
}
