//! What decides a frame.
ghost use Rattle.std.specs.Prelude.{◌≡◌, false, IfOk};
ghost use Rattle.desk_model.specs.Sessions.{verdict_in};
ghost use Rattle.mud_desk.specs.Findings.{found_in};
ghost use Rattle.mud_desk.specs.DeskState.{session_of};
ghost use Rattle.console_listings.specs.Why.{side_text};
ghost use Rattle.console.specs.Replies.{reply, is_unavailable, IsOrWanted};
ghost use Rattle.console.specs.Why as spec;

use crate::body::BodyText;
use console_answers::Status;
use console_listings::{RuledEndpoint, why_body};
use mud_base::{Bytes, Memory, Moment};
use mud_desk::{Desk, Findings, RuledThing};
use mud_world::Keeper;
use std::alloc::Global;

/// An endpoint as a body tells it.
#[tactic(auto, unfolding(mud_desk::specs::Findings::found_in, crate::specs::Why::endpoint_text, console_listings::specs::Why::side_text, console_listings::specs::Why::endpoint_text))]
fn told_endpoint<'a>(ruled: &Option<RuledThing<'a>>) -> Option<RuledEndpoint<'a>>
    ensures { side_text result ≡ spec.endpoint_text (found_in ruled.now) }
{
    match ruled {
        Some(ruled) => Some(RuledEndpoint {
            mac: ruled.thing.mac,
            url: &ruled.thing.url,
            ruling: ruled.ruling,
            entry: ruled.entry,
        }),
        None => None,
    }
}

/// The body that tells what was found of a frame.
#[tactic(auto, unfolding(crate::specs::Why::endpoints_text, console_listings::specs::Why::why_body))]
fn told_endpoints(alloc: Global, findings: &Findings<'_>) -> Result<Bytes, Memory>
    ensures { IfOk result (λ text. text ≡ spec.endpoints_text (found_in findings.now.source) (found_in findings.now.destination) findings.now.verdict) }
{
    let from = told_endpoint(&findings.source);
    let to = told_endpoint(&findings.destination);
    why_body(alloc, &from, &to, &findings.verdict)
}

/// Tells what decides a frame. Nothing is changed, the moment of the session neither.
pub(crate) fn answer_why<K: Keeper>(
    alloc: Global,
    desk: &Desk<K>,
    body: &mut BodyText,
    frame: &[u8],
    given: Moment,
) -> Status
    ensures reply { IsOrWanted
        (reply Status.Done (spec.why_text (session_of desk.now.state).desk frame.now (verdict_in (session_of desk.now.state) given frame.now)))
        (reply result body.new) }
    ensures known { is_unavailable result ≡ false }
{
    let findings = desk.why(frame, given);
    let text = told_endpoints(alloc, &findings);
    body.take(Status::Done, text)
}
