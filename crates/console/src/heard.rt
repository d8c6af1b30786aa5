//! What was heard of a Thing.
ghost use Rattle.mud_world.specs.Kept.{faults_of};
ghost use Rattle.mud_world.specs.Causes.{Counts};
ghost use Rattle.desk_model.specs.Commands.{IsAsked};
ghost use Rattle.desk_model.specs.Sessions.{raised};
ghost use Rattle.console_bodies.specs.Bodies as bodies;
ghost use Rattle.console_answers.specs.Bodies.Heards as heards;
ghost use Rattle.mud_desk.specs.DeskState.{tables_of, session_of};
ghost use Rattle.mud_desk.specs.Stays.{StaysKept};
ghost use Rattle.desk_model.specs.Kept.{IsKept};
ghost use Rattle.console.specs.Replies.{reply, replied, is_unavailable, IsOrFailed};
ghost use Rattle.console.specs.Requests.{AllowedCommand, AllowedHeard};

use crate::body::BodyText;
use crate::commands::{Origin, answer_command};
use crate::refusals::want_memory;
use crate::session::raise;
use console_answers::Status;
use console_answers::bodies::heard_texts;
use console_bodies::heard_command;
use desk_model::Command;
use dhcp_lldp::Heard;
use mud_base::{Memory, Moment};
use mud_desk::Desk;
use mud_world::Keeper;
use std::alloc::Global;

/// Takes what was heard by the command for it. The texts of the answer are made before.
#[tactic(auto, using(crate::proofs::Standing::wanted), unfolding(crate::specs::Origins::said_of))]
fn take_heard<K: Keeper>(
    alloc: Global,
    desk: &mut Desk<K>,
    body: &mut BodyText,
    heard: &Heard,
    command: Command,
    given: Moment,
) -> Status
    requires kept { IsKept ⟦<K as Keeper>⟧ desk.old.keeper (tables_of desk.old.state) }
    requires asked { IsAsked command }
    ensures reply { AllowedCommand (heards.heard_body heard.now) (session_of desk.old.state) given command
        (reply result body.new) (session_of desk.new.state) }
    ensures stays { StaysKept ⟦<K as Keeper>⟧ desk.old desk.new }
    ensures cause { Counts (is_unavailable result) (faults_of ⟦<K as Keeper>⟧ desk.old.keeper) (faults_of ⟦<K as Keeper>⟧ desk.new.keeper) }
{
    match heard_texts(alloc, heard) {
        Ok(texts) => {
            let origin = Origin::Heard(*heard, texts);
            answer_command(alloc, desk, body, origin, command, given)
        }
        Err(Memory) => want_memory(body),
    }
}

/// Says that a message says nothing, which raises the moment of the session.
fn answer_nothing<K: Keeper>(desk: &mut Desk<K>, body: &mut BodyText, given: Moment) -> Status
    requires kept { IsKept ⟦<K as Keeper>⟧ desk.old.keeper (tables_of desk.old.state) }
    ensures reply { IsOrFailed ⊥ (session_of desk.old.state) (replied (reply Status.Done heards.nothing_body) (raised (session_of desk.old.state) given))
        (reply result body.new) (session_of desk.new.state) }
    ensures stays { StaysKept ⟦<K as Keeper>⟧ desk.old desk.new }
    ensures cause { Counts (is_unavailable result) (faults_of ⟦<K as Keeper>⟧ desk.old.keeper) (faults_of ⟦<K as Keeper>⟧ desk.new.keeper) }
{
    raise(desk, given);
    body.write_nothing_heard();
    Status::Done
}

/// Takes what was heard.
#[tactic(auto, using(crate::proofs::Standing::heard_asked), unfolding(console_bodies::specs::Bodies::heard_command))]
pub(crate) fn answer_heard<K: Keeper>(
    alloc: Global,
    desk: &mut Desk<K>,
    body: &mut BodyText,
    heard: &Heard,
    given: Moment,
) -> Status
    requires kept { IsKept ⟦<K as Keeper>⟧ desk.old.keeper (tables_of desk.old.state) }
    ensures reply { AllowedHeard (session_of desk.old.state) given heard.now (bodies.heard_command heard.now)
        (reply result body.new) (session_of desk.new.state) }
    ensures stays { StaysKept ⟦<K as Keeper>⟧ desk.old desk.new }
    ensures cause { Counts (is_unavailable result) (faults_of ⟦<K as Keeper>⟧ desk.old.keeper) (faults_of ⟦<K as Keeper>⟧ desk.new.keeper) }
{
    match heard_command(*heard) {
        Some(command) => take_heard(alloc, desk, body, heard, command, given),
        None => answer_nothing(desk, body, given),
    }
}
