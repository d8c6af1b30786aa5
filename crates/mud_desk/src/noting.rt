//! The packets that count for the connections.
ghost use Rattle.std.specs.Prelude.{◌≡◌, ◌≤◌, ℕ, IsTrue, IsSome, OnOk, OnErr};
ghost use Rattle.flow_table.specs.Noted.{follows};
ghost use Rattle.packet_judge.specs.Verdicts as spec;
ghost use Rattle.packet_judge.specs.Verdicts.{history_after};

use flow_table::FlowTable;
use frame_view::Frame;
use mud_base::{Memory, Moment};
use packet_judge::{Verdict, noted_fields};

/// Notes the packet of a frame with this verdict, where it counts for the connections: a TCP packet
/// with a ruling that is forwarded.
pub(crate) fn note(
    flows: &mut FlowTable,
    frame: &Frame<'_>,
    verdict: &Verdict,
    now: Moment,
) -> Result<(), Memory>
    requires since { IsTrue (follows flows.old.history now) }
    ensures ok { OnOk result (flows.new.history ≡ history_after flows.old.history frame.now verdict.now now) }
    ensures err { OnErr result (flows.new.history ≡ flows.old.history) }
    ensures wanted { OnErr result (IsSome (spec.noted_fields frame.now verdict.now)) }
    ensures since { (m : ℕ) → now ≤ m → IsTrue (follows flows.new.history m) }
{
    match noted_fields(frame, verdict) {
        None => Ok(()),
        Some(fields) => {
            let plan = flows.plan(&fields, now)?;
            flows.note(plan);
            Ok(())
        }
    }
}
