//! The reply to a request: its status, and its body as it is held.
ghost use Rattle.std.specs.Prelude.{◌≡◌};
ghost use Rattle.mud_world.specs.Kept.{faults_of};
ghost use Rattle.mud_world.specs.Causes.{Counts};
ghost use Rattle.http_requests.specs.declared.fault.MomentFrom.{MomentFrom};
ghost use Rattle.http_requests.specs.Requests.{Request};
ghost use Rattle.http_requests.specs.Parts.{AreParts};
ghost use Rattle.console_bodies.specs.Laws.{AsksRightly};
ghost use Rattle.mud_desk.specs.DeskState.{tables_of, session_of};
ghost use Rattle.mud_desk.specs.Stays.{StaysKept};
ghost use Rattle.desk_model.specs.Kept.{IsKept};
ghost use Rattle.console.specs.Replies.{reply, is_unavailable};
ghost use Rattle.console.specs.Requests.{AllowedQuestion, AllowedResponse, NeedsMemory};
ghost use Rattle.console.specs.Refused.{AskedNeedsMemory};

use crate::body::BodyText;
use crate::commands::{Origin, answer_command};
use crate::heard::answer_heard;
use crate::listings::answer_listing;
use crate::packets::answer_frame;
use crate::question::{Question, question_of};
use crate::refusals::{ReplyHead, plain, refuse_unasked};
use crate::session::later;
use crate::why::answer_why;
use console_answers::Status;
use console_bodies::Asked;
use console_routes::Routes;
use http_requests::RequestParts;
use mud_base::Moment;
use mud_desk::Desk;
use mud_world::Keeper;
use std::alloc::Global;

/// Carries out what is asked for, with the octets of the body.
#[tactic(auto, unfolding(crate::specs::Requests::by_question, crate::specs::Requests::command_asked, crate::specs::Origins::said_of))]
fn answer_question<K: Keeper>(
    alloc: Global,
    desk: &mut Desk<K>,
    body: &mut BodyText,
    question: Question,
    octets: &[u8],
    given: Moment,
) -> Status
    requires kept { IsKept ⟦<K as Keeper>⟧ desk.old.keeper (tables_of desk.old.state) }
    requires asked { AsksRightly question.asked }
    ensures reply { AllowedQuestion (session_of desk.old.state) given octets.now question.action question.asked
        (reply result body.new) (session_of desk.new.state) }
    ensures wanted { result ≡ Status.NoStorage → AskedNeedsMemory (session_of desk.old.state) given octets.now question.asked }
    ensures stays { StaysKept ⟦<K as Keeper>⟧ desk.old desk.new }
    ensures cause { Counts (is_unavailable result) (faults_of ⟦<K as Keeper>⟧ desk.old.keeper) (faults_of ⟦<K as Keeper>⟧ desk.new.keeper) }
{
    let Question { action, asked } = question;
    match asked {
        Asked::Command(command) => {
            answer_command(alloc, desk, body, Origin::Asked(action), command, given)
        }
        Asked::Heard(heard) => answer_heard(alloc, desk, body, &heard, given),
        Asked::List(listing) => answer_listing(alloc, desk, body, listing, given),
        Asked::Judge => answer_frame(desk, body, octets, given),
        Asked::Why => answer_why(alloc, desk, body, octets, given),
    }
}

/// Replies to a request: it is refused where it asks for nothing, and else carried out.
pub(crate) fn reply_to<K: Keeper>(
    alloc: Global,
    routes: &Routes,
    desk: &mut Desk<K>,
    body: &mut BodyText,
    request: &RequestParts<'_>,
    given: Moment,
) -> ReplyHead
    requires kept { IsKept ⟦<K as Keeper>⟧ desk.old.keeper (tables_of desk.old.state) }
    ensures reply { (from : MomentFrom) (r : Request) → AreParts from r request.now
        → AllowedResponse (session_of desk.old.state) given r (record { status = result.status; allow = result.allow; body = body.new })
        (session_of desk.new.state) }
    ensures wanted { (from : MomentFrom) (r : Request) → AreParts from r request.now
        → result.status ≡ Status.NoStorage → NeedsMemory (session_of desk.old.state) given r }
    ensures stays { StaysKept ⟦<K as Keeper>⟧ desk.old desk.new }
    ensures cause { Counts (is_unavailable result.status) (faults_of ⟦<K as Keeper>⟧ desk.old.keeper) (faults_of ⟦<K as Keeper>⟧ desk.new.keeper) }
{
    let now = later(desk.moment(), given);
    match question_of(
        alloc,
        routes,
        request.method,
        request.path,
        request.body,
        now,
    ) {
        Ok(question) => { plain(answer_question(alloc, desk, body, question, request.body, given)) }
        Err(unasked) => refuse_unasked(alloc, body, unasked),
    }
}
