//! The command `serve`: the requests of the connections that come to a port, at the moments of a
//! clock.
ghost use Rattle.std.specs.Prelude.{◌≡◌, is_err, if◌then◌else◌};
ghost use Rattle.mud_world.specs.Kept.{faults_of, Tells};
ghost use Rattle.run_common.specs.Status.{Is, status_number};
ghost use Rattle.run_common.specs.declared.status.Status.TheVariants.{KeeperFailed};
ghost use Rattle.mud_desk.specs.Items.Loaded.{kept_of};
ghost use Rattle.desk_model.specs.DeskTables.{DeskTables};
ghost use Rattle.desk_model.specs.Items.{none_kept};
ghost use Rattle.desk_model.specs.Sessions as sessions;
ghost use Rattle.desk_model.specs.Kept.{IsKept};
ghost use Rattle.mud_desk.specs.DeskState.{session_of, tables_of};
ghost use Rattle.run_changes.specs.Serving.Serve.{ServesConnections, ServesStore, listening, clock_run};

use crate::serving::room::Room;
use console::{Console, serve_connections};
use http_requests::MomentFrom;
use mud_base::Memory;
use mud_desk::{Desk, Loaded};
use mud_world::{Clock, Door, Failed, Keeper};
use run_common::Status;
use run_desk::refuse_store;
use std::alloc::Global;

/// The status of a run whose calls of the door for its port and its connections came to this.
fn status_of(served: Result<(), Failed>) -> Status
    ensures { status_number result ≡ (if is_err served then 4 else 0) }
{
    match served {
        Ok(()) => Status::Done,
        Err(Failed) => Status::DoorFailed,
    }
}

/// Serves the connections by the desk, and hands its keeper back.
fn serve_desk<K: Keeper, D: Door, C: Clock>(
    alloc: Global,
    desk: Desk<K>,
    room: Room,
    door: &mut D,
    clock: &mut C,
    port: u16,
    count: u32,
) -> (Status, K)
    requires { IsKept ⟦<K as Keeper>⟧ desk.keeper (tables_of desk.state) }
    ensures serves { (tables : DeskTables) → session_of desk.state ≡ sessions.opened tables
        → ServesConnections ⟦<K as Keeper>⟧ D.tells C.tells tables (faults_of ⟦<K as Keeper>⟧ desk.keeper) result.1
        (listening port count) (clock_run (C.moments clock.old) (C.moments clock.new))
        (D.view door.old)
        (D.view door.new)
        (status_number result.0) }
    ensures told { Tells ⟦<K as Keeper>⟧ result.1 → Tells ⟦<K as Keeper>⟧ desk.keeper }
{
    let Ok(()) = door.bind(port) else {
        drop(room);
        return (Status::DoorFailed, desk.close());
    };
    let Room {
        mut requests,
        answer,
    } = room;
    let mut console = Console {
        alloc,
        desk,
        answer,
        clock,
    };
    let served = serve_connections(&mut console, &mut requests, door, MomentFrom::Clock, count);
    let Console {
        alloc: _,
        desk,
        answer: _,
        clock: lent,
    } = console;
    // The loan of the clock ends with this look at it, and the caller's clock is what it is now.
    let _now = &*lent;
    (status_of(served), desk.close())
}

/// Opens a desk over the keeper, binds the port, and answers by the desk the requests of the
/// connections that come, one connection after the other, `count` of them or all where there are
/// fewer, in one session throughout. Each whole request is taken at the clock's next moment. Where
/// the store can't be opened, or there is no memory to serve with, no port is bound. The keeper is
/// handed back. Nothing was taken before, as [`Desk::open`] wants it: [`Loaded::new`].
///
/// | Status | It comes |
/// |---|---|
/// | 0 | the connections were served; one whose read or write failed is over, and the next is served |
/// | 4 | the port couldn't be bound, the door failed to go on to a connection, or the line of status 6 couldn't be written |
/// | 5 | want of memory, before the port was bound |
/// | 6 | an item of the store is no record |
/// | 7 | the keeper failed in the opening |
pub fn serve_store<K: Keeper, D: Door, C: Clock>(
    alloc: Global,
    keeper: K,
    nothing: Loaded,
    door: &mut D,
    clock: &mut C,
    port: u16,
    count: u32,
) -> (Status, K)
    requires { kept_of nothing ≡ none_kept }
    ensures served { ServesStore ⟦<K as Keeper>⟧ D.tells C.tells keeper result.1
        (listening port count) (clock_run (C.moments clock.old) (C.moments clock.new))
        (D.view door.old)
        (D.view door.new)
        (status_number result.0) }
    // Where the keeper failed in the opening, the door isn't called at all, and the clock isn't either.
    ensures untouched { Is KeeperFailed (status_number result.0) → (door.new ≡ door.old) × (clock.new ≡ clock.old) }
{
    match Desk::open(alloc, keeper, nothing) {
        Ok(desk) => match Room::new(alloc) {
            Ok(room) => serve_desk(alloc, desk, room, door, clock, port, count),
            Err(Memory) => (Status::NoMemory, desk.close()),
        },
        Err((fault, keeper)) => (refuse_store(alloc, door, fault), keeper),
    }
}
