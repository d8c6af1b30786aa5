//! The bodies of requests.
ghost use Rattle.std.specs.Prelude.{◌≡◌, ◌≢◌, true, Err};
ghost use Rattle.mud_base.specs.Readings.{Answers, and_then, answer};
ghost use Rattle.mud_base.specs.declared.refusal.Refusal.TheVariants.{Memory};
ghost use Rattle.console_bodies.specs.Bodies as spec;
ghost use Rattle.console_bodies.specs.Objects.{object_of};
ghost use Rattle.console_bodies.specs.Statements.{command_at};

use crate::asked::Asked;
use crate::object::read_object;
use crate::statements::command;
use crate::{BodyFault, Unread};
use console_routes::{Action, Statement};
use desk_model::Command;
use dhcp_lldp::{HearFault, Heard, read_dhcp, read_lldp};
use mud_base::{Bytes, Moment};
use std::alloc::Global;

/// What a message says, or why it is refused.
fn heard(message: Result<Heard, HearFault>) -> Result<Asked, Unread>
    ensures heard { Answers (λ a. a) result (spec.heard_body message) }
    ensures known { result ≢ Err Memory }
{
    match message {
        Ok(heard) => Ok(Asked::Heard(heard)),
        Err(fault) => Err(Unread::Broken(BodyFault::Heard(fault))),
    }
}

/// The command that the octets of a JSON object state.
#[tactic(auto)]
fn stated(alloc: Global, statement: Statement, octets: &[u8]) -> Result<Command, Unread>
    ensures { Answers (λ c. c) result (and_then (object_of octets.now) (λ d. answer (command_at statement d))) }
{
    let object = read_object(alloc, octets)?;
    command(alloc, statement, &object)
}

/// The command that the octets of a JSON object state, as what is asked for.
#[tactic(auto, unfolding(crate::specs::Bodies::stated_body))]
fn stated_body(alloc: Global, statement: Statement, octets: &[u8]) -> Result<Asked, Unread>
    ensures { Answers (λ a. a) result (spec.stated_body statement octets.now) }
{
    Ok(Asked::Command(stated(alloc, statement, octets)?))
}

/// What a request asks for by its body, read at this moment, or what is wrong with the body: the
/// octets are no JSON object, or the first member in the route's order that is missing, of another
/// kind, or outside its grammar or range, or a message's own fault. A usage file is fetched at the
/// moment of the request; whether it is one, the command says. Memory is taken for a JSON text, and
/// for what the command keeps.
#[tactic(auto, unfolding(crate::specs::Bodies::body_of, crate::specs::Bodies::takes_memory))]
pub fn read_body(alloc: Global, action: Action, octets: &[u8], now: Moment) -> Result<Asked, Unread>
    ensures asked { Answers (λ a. a) result (spec.body_of action octets.now now) }
    ensures wanted { result ≡ Err Memory → spec.takes_memory action ≡ true }
{
    match action {
        Action::HearDhcp => heard(read_dhcp(octets)),
        Action::HearLldp => heard(read_lldp(octets)),
        Action::List(listing) => Ok(Asked::List(listing)),
        Action::State(statement) => stated_body(alloc, statement, octets),
        Action::Import => Ok(Asked::Command(Command::Import(Bytes::new(alloc, octets)?, now))),
        Action::Judge => Ok(Asked::Judge),
        Action::Why => Ok(Asked::Why),
    }
}
