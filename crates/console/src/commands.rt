//! Commands: what an operator states, a usage file that was fetched, and what was heard.
ghost use Rattle.std.specs.Prelude.{◌≡◌, false};
ghost use Rattle.mud_world.specs.Kept.{faults_of};
ghost use Rattle.mud_world.specs.Causes.{Counts};
ghost use Rattle.desk_model.specs.Commands.{IsAsked};
ghost use Rattle.desk_model.specs.Sessions.{is_of_keeper};
ghost use Rattle.mud_desk.specs.DeskState.{tables_of, session_of};
ghost use Rattle.mud_desk.specs.Stays.{StaysKept};
ghost use Rattle.desk_model.specs.Kept.{IsKept};
ghost use Rattle.console.specs.Replies.{reply, is_unavailable, IsOrWanted};
ghost use Rattle.console.specs.Requests.{AllowedCommand, outcome_body};
ghost use Rattle.console_listings.specs.Refusals as refusals;
ghost use Rattle.console.specs.Origins.{said_of, HasTexts, IsWritten};

use crate::body::BodyText;
use crate::refusals::want_memory;
use console_answers::Status;
use console_answers::bodies::HeardTexts;
use console_listings::{refusal_body, refusal_status};
use console_routes::Action;
use desk_model::{Command, Outcome, Refusal, Reply};
use dhcp_lldp::Heard;
use mud_base::Moment;
use mud_desk::Desk;
use mud_world::Keeper;
use std::alloc::Global;

/// Where a command comes from, which decides what its answer tells.
#[derive(Drop)]
pub(crate) enum Origin {
    /// The operator states it, or a usage file was fetched.
    Asked(Action),
    /// It was heard, and these are the texts of its addresses.
    Heard(Heard, HeardTexts),
}

/// Writes what is told of a command that was asked for and carried out.
#[tactic(auto, unfolding(crate::specs::Requests::outcome_body))]
fn write_asked(body: &mut BodyText, action: Action, outcome: &Outcome)
    ensures { body.new ≡ outcome_body action outcome.now }
{
    match action {
        Action::State(statement) => body.write_stated(statement, outcome),
        Action::HearDhcp
        | Action::HearLldp
        | Action::List(_)
        | Action::Import
        | Action::Judge
        | Action::Why => body.write_file(outcome),
    }
}

/// Writes what is told of a command that was carried out. It takes no memory.
#[tactic(auto, unfolding(crate::specs::Origins::said_of))]
fn write_outcome(body: &mut BodyText, origin: &Origin, outcome: &Outcome)
    requires { HasTexts origin.now }
    ensures { body.new ≡ said_of origin.now outcome.now }
{
    match origin {
        Origin::Asked(action) => write_asked(body, *action, outcome),
        Origin::Heard(heard, texts) => body.write_heard(heard, texts, outcome),
    }
}

/// Writes why a command is refused.
#[tactic(auto, using(crate::proofs::Replying::made, crate::proofs::Replying::refusal_known))]
fn write_refusal(alloc: Global, body: &mut BodyText, refusal: &Refusal) -> Status
    ensures reply { IsOrWanted (reply (refusals.refusal_status refusal.now) (refusals.refusal_body refusal.now)) (reply result body.new) }
    ensures known { is_unavailable result ≡ false }
{
    body.take(refusal_status(refusal), refusal_body(alloc, refusal))
}

/// Writes what a command answered.
#[tactic(auto, unfolding(crate::specs::Requests::command_reply, crate::specs::Replies::unavailable))]
fn write_reply(alloc: Global, body: &mut BodyText, origin: &Origin, answered: Reply) -> Status
    requires { HasTexts origin.now }
    ensures reply { IsWritten (said_of origin.now) answered (reply result body.new) }
    ensures cause { is_unavailable result ≡ is_of_keeper answered }
{
    match answered {
        Reply::Done(outcome) => {
            write_outcome(body, origin, &outcome);
            Status::Done
        }
        Reply::Refused(refusal) => write_refusal(alloc, body, &refusal),
        Reply::Keeper => {
            body.write_rule(b"keeper");
            Status::Unavailable
        }
        Reply::Memory => want_memory(body),
    }
}

/// Carries a command out. What it changes is kept before it is answered, and the answer of a command
/// that was carried out takes no memory.
#[tactic(auto, using(crate::proofs::Carrying::stands))]
pub(crate) fn answer_command<K: Keeper>(
    alloc: Global,
    desk: &mut Desk<K>,
    body: &mut BodyText,
    origin: Origin,
    command: Command,
    given: Moment,
) -> Status
    requires kept { IsKept ⟦<K as Keeper>⟧ desk.old.keeper (tables_of desk.old.state) }
    requires asked { IsAsked command }
    requires texts { HasTexts origin }
    ensures reply { AllowedCommand (said_of origin) (session_of desk.old.state) given command (reply result body.new) (session_of desk.new.state) }
    ensures stays { StaysKept ⟦<K as Keeper>⟧ desk.old desk.new }
    ensures cause { Counts (is_unavailable result) (faults_of ⟦<K as Keeper>⟧ desk.old.keeper) (faults_of ⟦<K as Keeper>⟧ desk.new.keeper) }
{
    let answered = desk.execute(command, given);
    write_reply(alloc, body, &origin, answered)
}
