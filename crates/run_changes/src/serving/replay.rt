//! The command `replay`: the requests of one connection, each at the moment that it gives itself.
ghost use Rattle.std.specs.Prelude.{◌≡◌};
ghost use Rattle.mud_world.specs.Kept.{faults_of, Tells};
ghost use Rattle.run_common.specs.Status.{Is, status_number};
ghost use Rattle.run_common.specs.declared.status.Status.TheVariants.{KeeperFailed};
ghost use Rattle.mud_desk.specs.Items.Loaded.{kept_of};
ghost use Rattle.desk_model.specs.DeskTables.{DeskTables};
ghost use Rattle.desk_model.specs.Items.{none_kept};
ghost use Rattle.desk_model.specs.Sessions as sessions;
ghost use Rattle.desk_model.specs.Kept.{IsKept};
ghost use Rattle.mud_desk.specs.DeskState.{session_of, tables_of};
ghost use Rattle.run_changes.specs.Serving.Replay.{ReplaysConnection, ReplaysStore, status_at};

use crate::serving::no_clock::NoClock;
use crate::serving::room::Room;
use console::{ConnectionEnd, Console, serve_connection};
use http_requests::MomentFrom;
use mud_base::Memory;
use mud_desk::{Desk, Loaded};
use mud_world::{Door, Keeper};
use run_common::Status;
use run_desk::refuse_store;
use std::alloc::Global;

/// The status of a run whose connection ended so.
fn status_of(end: ConnectionEnd) -> Status
    ensures { status_number result ≡ status_at end }
{
    match end {
        ConnectionEnd::Ended | ConnectionEnd::Closed => Status::Done,
        ConnectionEnd::Broken | ConnectionEnd::Spent => Status::Refused,
        ConnectionEnd::ReadFailed | ConnectionEnd::WriteFailed => Status::DoorFailed,
    }
}

/// Serves the connection by the desk, and hands its keeper back.
fn replay_desk<K: Keeper, D: Door>(
    alloc: Global,
    desk: Desk<K>,
    room: Room,
    door: &mut D,
) -> (Status, K)
    requires { IsKept ⟦<K as Keeper>⟧ desk.keeper (tables_of desk.state) }
    ensures replays { (tables : DeskTables) → session_of desk.state ≡ sessions.opened tables
        → ReplaysConnection ⟦<K as Keeper>⟧ D.tells tables (faults_of ⟦<K as Keeper>⟧ desk.keeper) result.1
        (D.view door.old)
        (D.view door.new)
        (status_number result.0) }
    ensures told { Tells ⟦<K as Keeper>⟧ result.1 → Tells ⟦<K as Keeper>⟧ desk.keeper }
{
    let Room {
        mut requests,
        answer,
    } = room;
    let mut clock = NoClock;
    let mut console = Console {
        alloc,
        desk,
        answer,
        clock: &mut clock,
    };
    let end = serve_connection(&mut console, &mut requests, door, MomentFrom::Header);
    let Console {
        alloc: _,
        desk,
        answer: _,
        clock: _,
    } = console;
    (status_of(end), desk.close())
}

/// Opens a desk over the keeper, and then answers by it the requests of the connection at which the
/// door stands, each at the moment that its `Mud-Moment` header gives. Where the store can't be
/// opened, or there is no memory to serve with, the connection isn't read. The keeper is handed back.
/// Nothing was taken before, as [`Desk::open`] wants it: [`Loaded::new`].
///
/// | Status | It comes |
/// |---|---|
/// | 0 | the octets ended between two requests, or a request closed the connection |
/// | 3 | a fault of the framing or the last request that is answered on one connection ended it |
/// | 4 | a read or a write of the door failed |
/// | 5 | want of memory, before the connection was read |
/// | 6 | an item of the store is no record |
/// | 7 | the keeper failed in the opening |
pub fn replay_store<K: Keeper, D: Door>(
    alloc: Global,
    keeper: K,
    nothing: Loaded,
    door: &mut D,
) -> (Status, K)
    requires { kept_of nothing ≡ none_kept }
    ensures replayed { ReplaysStore ⟦<K as Keeper>⟧ D.tells keeper result.1
        (D.view door.old)
        (D.view door.new)
        (status_number result.0) }
    // Where the keeper failed in the opening, the door isn't called at all.
    ensures untouched { Is KeeperFailed (status_number result.0) → door.new ≡ door.old }
{
    match Desk::open(alloc, keeper, nothing) {
        Ok(desk) => match Room::new(alloc) {
            Ok(room) => replay_desk(alloc, desk, room, door),
            Err(Memory) => (Status::NoMemory, desk.close()),
        },
        Err((fault, keeper)) => (refuse_store(alloc, door, fault), keeper),
    }
}
