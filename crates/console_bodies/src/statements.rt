//! What the operator states by a JSON object.
ghost use Rattle.serde_json.specs.View.{view};
ghost use Rattle.mud_base.specs.Readings.{Gives};
ghost use Rattle.console_bodies.specs.Statements as spec;
ghost use Rattle.console_routes.specs.declared.action.Statement.TheVariants as statement;

use crate::classes::{class, verdict};
use crate::prefixes::prefixes;
use crate::texts::{digest, name, url};
use crate::values::{address, mac, number};
use crate::{Member, Unread};
use console_routes::Statement;
use desk_model::Command;
use serde_json::Value;
use std::alloc::Global;

/// A Thing moves to the URL that waits.
#[tactic(auto, unfolding(crate::specs::Statements::command_at), using(mud_base::proofs::Readings::answer_bind, mud_base::proofs::Readings::answer_done))]
fn move_thing(object: &Value) -> Result<Command, Unread>
    ensures { Gives (λ c. c) result (spec.command_at statement.Move (view object.now)) }
{
    let mac = mac(object)?;
    let url = url(object, Member::Url)?;
    Ok(Command::Move(mac, url))
}

/// A Thing goes.
#[tactic(auto, unfolding(crate::specs::Statements::command_at), using(mud_base::proofs::Readings::answer_bind, mud_base::proofs::Readings::answer_done))]
fn remove_thing(object: &Value) -> Result<Command, Unread>
    ensures { Gives (λ c. c) result (spec.command_at statement.Remove (view object.now)) }
{
    Ok(Command::Remove(mac(object)?))
}

/// A Thing is held.
#[tactic(auto, unfolding(crate::specs::Statements::command_at), using(mud_base::proofs::Readings::answer_bind, mud_base::proofs::Readings::answer_done))]
fn hold_thing(object: &Value) -> Result<Command, Unread>
    ensures { Gives (λ c. c) result (spec.command_at statement.Hold (view object.now)) }
{
    Ok(Command::Hold(mac(object)?))
}

/// A Thing's hold ends.
#[tactic(auto, unfolding(crate::specs::Statements::command_at), using(mud_base::proofs::Readings::answer_bind, mud_base::proofs::Readings::answer_done))]
fn release_thing(object: &Value) -> Result<Command, Unread>
    ensures { Gives (λ c. c) result (spec.command_at statement.Release (view object.now)) }
{
    Ok(Command::Release(mac(object)?))
}

/// A Thing has an address, for 1 to 4,294,967,295 seconds.
#[tactic(auto, unfolding(crate::specs::Statements::command_at), using(mud_base::proofs::Readings::answer_bind, mud_base::proofs::Readings::answer_done))]
fn lease_address(object: &Value) -> Result<Command, Unread>
    ensures { Gives (λ c. c) result (spec.command_at statement.Lease (view object.now)) }
{
    let mac = mac(object)?;
    let address = address(object)?;
    let seconds = number(object, Member::Seconds, 1, u32::MAX)?;
    Ok(Command::Lease(mac, address, seconds))
}

/// No Thing has an address any longer.
#[tactic(auto, unfolding(crate::specs::Statements::command_at), using(mud_base::proofs::Readings::answer_bind, mud_base::proofs::Readings::answer_done))]
fn end_lease(object: &Value) -> Result<Command, Unread>
    ensures { Gives (λ c. c) result (spec.command_at statement.EndLease (view object.now)) }
{
    Ok(Command::EndLease(address(object)?))
}

/// What is to become of the candidate of a URL with a digest.
#[tactic(auto, unfolding(crate::specs::Statements::state_verdict), using(mud_base::proofs::Readings::answer_bind, mud_base::proofs::Readings::answer_done))]
fn state_verdict(alloc: Global, object: &Value) -> Result<Command, Unread>
    ensures { Gives (λ c. c) result (spec.state_verdict (view object.now)) }
{
    let url = url(object, Member::Url)?;
    let digest = digest(alloc, object)?;
    let verdict = verdict(object)?;
    Ok(Command::Verdict(url, digest, verdict))
}

/// The approval of a URL's file is taken back.
#[tactic(auto, unfolding(crate::specs::Statements::command_at), using(mud_base::proofs::Readings::answer_bind, mud_base::proofs::Readings::answer_done))]
fn revoke_file(object: &Value) -> Result<Command, Unread>
    ensures { Gives (λ c. c) result (spec.command_at statement.Revoke (view object.now)) }
{
    Ok(Command::Revoke(url(object, Member::Url)?))
}

/// A class has an address.
#[tactic(auto, unfolding(crate::specs::Statements::command_at), using(mud_base::proofs::Readings::answer_bind, mud_base::proofs::Readings::answer_done))]
fn bind_address(alloc: Global, object: &Value) -> Result<Command, Unread>
    ensures { Gives (λ c. c) result (spec.command_at statement.Bind (view object.now)) }
{
    let class = class(alloc, object)?;
    let address = address(object)?;
    Ok(Command::Bind(class, address))
}

/// A class no longer has an address.
#[tactic(auto, unfolding(crate::specs::Statements::command_at), using(mud_base::proofs::Readings::answer_bind, mud_base::proofs::Readings::answer_done))]
fn unbind_address(alloc: Global, object: &Value) -> Result<Command, Unread>
    ensures { Gives (λ c. c) result (spec.command_at statement.Unbind (view object.now)) }
{
    let class = class(alloc, object)?;
    let address = address(object)?;
    Ok(Command::Unbind(class, address))
}

/// The local networks are these.
#[tactic(auto, unfolding(crate::specs::Statements::command_at), using(mud_base::proofs::Readings::answer_bind, mud_base::proofs::Readings::answer_done))]
fn set_locals(alloc: Global, object: &Value) -> Result<Command, Unread>
    ensures { Gives (λ c. c) result (spec.command_at statement.Locals (view object.now)) }
{
    Ok(Command::Locals(prefixes(alloc, object)?))
}

/// A name was observed at an address, for 1 to 2,147,483,647 seconds.
#[tactic(auto, unfolding(crate::specs::Statements::command_at), using(mud_base::proofs::Readings::answer_bind, mud_base::proofs::Readings::answer_done))]
fn observe_name(alloc: Global, object: &Value) -> Result<Command, Unread>
    ensures { Gives (λ c. c) result (spec.command_at statement.Observe (view object.now)) }
{
    let name = name(alloc, object)?;
    let address = address(object)?;
    let seconds = number(object, Member::Ttl, 1, 2_147_483_647)?;
    Ok(Command::Observe(name, address, seconds))
}

/// The command that an object states, or the first member that is wrong.
#[tactic(auto, unfolding(crate::specs::Statements::command_at))]
pub(crate) fn command(
    alloc: Global,
    statement: Statement,
    object: &Value,
) -> Result<Command, Unread>
    ensures { Gives (λ c. c) result (spec.command_at statement (view object.now)) }
{
    match statement {
        Statement::Move => move_thing(object),
        Statement::Remove => remove_thing(object),
        Statement::Hold => hold_thing(object),
        Statement::Release => release_thing(object),
        Statement::Lease => lease_address(object),
        Statement::EndLease => end_lease(object),
        Statement::Verdict => state_verdict(alloc, object),
        Statement::Revoke => revoke_file(object),
        Statement::Bind => bind_address(alloc, object),
        Statement::Unbind => unbind_address(alloc, object),
        Statement::Locals => set_locals(alloc, object),
        Statement::Observe => observe_name(alloc, object),
    }
}
