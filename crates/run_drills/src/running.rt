//! The commands of a drill, one after the other.
ghost use Rattle.std.specs.Prelude.{◌≡◌, [], ◌∷◌, IfErr, OnOk};
ghost use Rattle.desk_model.specs.Commands.{IsAsked};
ghost use Rattle.desk_model.specs.Kept.{IsKept};
ghost use Rattle.mud_desk.specs.DeskState.{tables_of};
ghost use Rattle.run_drills.specs.Commands.{commands_of, drill_commands, round_commands};
ghost use Rattle.run_drills.specs.Runs.{RanAll, RanPart};
ghost use Rattle.run_drills.specs.Stops.{stop_of};

use crate::commands::{
    Round, announcement, approval, binding, command_moment, fetched_file, lease, observation,
};
use crate::network::{file_count, thing_count};
use crate::stop::Stop;
use crate::usage::usage_text;
use desk_model::{Command, Reply};
use mud_desk::Desk;
use mud_world::Keeper;
use std::alloc::Global;

/// What a reply means for the drill, which goes on where the command is refused.
fn unless_stopped(reply: Reply) -> Result<(), Stop>
    ensures { result ≡ stop_of reply }
{
    match reply {
        Reply::Done(_) | Reply::Refused(_) => Ok(()),
        Reply::Keeper => Err(Stop::Keeper),
        Reply::Memory => Err(Stop::Memory),
    }
}

/// Runs a command. One that is refused changes nothing.
fn run<K: Keeper>(desk: &mut Desk<K>, command: Command) -> Result<(), Stop>
    requires kept { IsKept ⟦<K as Keeper>⟧ desk.old.keeper (tables_of desk.old.state) }
    requires asked { IsAsked command }
    ensures all { OnOk result (RanAll ⟦<K as Keeper>⟧ (command ∷ []) desk.old desk.new) }
    ensures part { IfErr result (λ stop. RanPart ⟦<K as Keeper>⟧ stop (command ∷ []) desk.old desk.new) }
{
    unless_stopped(desk.execute(command, command_moment()))
}

/// The usage file of a Thing's model is fetched, and approved.
fn run_files<K: Keeper>(alloc: Global, desk: &mut Desk<K>, thing: u16) -> Result<(), Stop>
    requires kept { IsKept ⟦<K as Keeper>⟧ desk.old.keeper (tables_of desk.old.state) }
    ensures all { OnOk result (RanAll ⟦<K as Keeper>⟧ (commands_of Round.Files thing) desk.old desk.new) }
    ensures part { IfErr result (λ stop. RanPart ⟦<K as Keeper>⟧ stop (commands_of Round.Files thing) desk.old desk.new) }
{
    let file = usage_text(alloc, thing)?;
    let approved = approval(alloc, thing, file.octets())?;
    run(desk, fetched_file(file))?;
    run(desk, approved)
}

/// What a round does for one Thing.
fn run_for<K: Keeper>(
    alloc: Global,
    desk: &mut Desk<K>,
    round: Round,
    thing: u16,
) -> Result<(), Stop>
    requires kept { IsKept ⟦<K as Keeper>⟧ desk.old.keeper (tables_of desk.old.state) }
    ensures all { OnOk result (RanAll ⟦<K as Keeper>⟧ (commands_of round thing) desk.old desk.new) }
    ensures part { IfErr result (λ stop. RanPart ⟦<K as Keeper>⟧ stop (commands_of round thing) desk.old desk.new) }
{
    match round {
        Round::Announcements => run(desk, announcement(alloc, thing)?),
        Round::Leases => run(desk, lease(thing)),
        Round::Files => run_files(alloc, desk, thing),
        Round::Hosts => run(desk, observation(alloc, thing)?),
    }
}

/// A round over the Things from 1 on, so many.
fn run_round<K: Keeper>(
    alloc: Global,
    desk: &mut Desk<K>,
    round: Round,
    count: u16,
) -> Result<(), Stop>
    requires kept { IsKept ⟦<K as Keeper>⟧ desk.old.keeper (tables_of desk.old.state) }
    ensures all { OnOk result (RanAll ⟦<K as Keeper>⟧ (round_commands round count) desk.old desk.new) }
    ensures part { IfErr result (λ stop. RanPart ⟦<K as Keeper>⟧ stop (round_commands round count) desk.old desk.new) }
{
    for before in 0..count {
        run_for(alloc, desk, round, before + 1)?;
    }
    Ok(())
}

/// All commands of a drill with so many packets.
pub(crate) fn run_commands<K: Keeper>(
    alloc: Global,
    desk: &mut Desk<K>,
    packets: u32,
) -> Result<(), Stop>
    requires kept { IsKept ⟦<K as Keeper>⟧ desk.old.keeper (tables_of desk.old.state) }
    ensures all { OnOk result (RanAll ⟦<K as Keeper>⟧ (drill_commands packets) desk.old desk.new) }
    ensures part { IfErr result (λ stop. RanPart ⟦<K as Keeper>⟧ stop (drill_commands packets) desk.old desk.new) }
{
    let things = thing_count(packets);
    let files = file_count(packets);
    let bound = binding(alloc)?;
    run_round(alloc, desk, Round::Announcements, things)?;
    run_round(alloc, desk, Round::Leases, things)?;
    run_round(alloc, desk, Round::Files, files)?;
    run(desk, bound)?;
    run_round(alloc, desk, Round::Hosts, files)
}
