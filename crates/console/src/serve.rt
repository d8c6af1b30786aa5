//! Serving connections by a desk.
ghost use Rattle.std.specs.Prelude.{◌≡◌, is_err};
ghost use Rattle.mud_desk.specs.DeskState.{tables_of};
ghost use Rattle.mud_desk.specs.Stays.{StaysKept};
ghost use Rattle.desk_model.specs.Kept.{IsKept};
ghost use Rattle.http_requests.specs.Doors.{ReadsAndWrites};
ghost use Rattle.http_requests.specs.Ends.{is_read_failed, is_write_failed};
ghost use Rattle.http_requests.specs.Visits.{TakesTurns};
ghost use Rattle.console.specs.Served.{IsLeftByRequests, ServesOne, ServesInTurn};

use crate::console::Console;
use http_requests::{
    ConnectionEnd, MomentFrom, RequestBuffer, serve_connection as serve_requests,
    serve_connections as serve_each,
};
use mud_world::{Clock, Door, Failed, Keeper};

/// Serves the connection at which the door stands: its requests are answered by the desk, one after
/// the other, and the answers are written in order, each before more is read. A fault of the framing
/// is answered and ends the connection. What the buffer held before is forgotten.
pub fn serve_connection<K: Keeper, D: Door, C: Clock>(
    console: &mut Console<'_, K, C>,
    buffer: &mut RequestBuffer,
    door: &mut D,
    from: MomentFrom,
) -> ConnectionEnd
    requires kept { IsKept ⟦<K as Keeper>⟧ console.old.desk.keeper (tables_of console.old.desk.state) }
    ensures stays { StaysKept ⟦<K as Keeper>⟧ console.old.desk console.new.desk }

    // Whatever the door: from the session that the desk is in, it is in one that some requests left.
    ensures left { IsLeftByRequests ⟦<K as Keeper>⟧ ⟦<C as Clock>⟧ console.old console.new }
    // Where the door tells, they are those of the connection, and what was written are their answers.
    ensures served { D.tells
        → ServesOne ⟦<K as Keeper>⟧ ⟦<C as Clock>⟧ console.old console.new from result (D.view door.old) (D.view door.new) }
    // The clock stays the one that was lent.
    ensures same_clock { console.new.clock.ghost_name ≡ console.old.clock.ghost_name }
    ensures calls { ReadsAndWrites (is_read_failed result) (is_write_failed result) (D.view door.old) (D.view door.new) }
{
    serve_requests(buffer, door, console, from)
}

/// Serves the connections that come to the door, one after the other and at most so many, by the
/// desk in one session throughout. A connection whose read or write fails is over, and the next one
/// is served. It fails exactly where the door fails to go on to the next connection.
pub fn serve_connections<K: Keeper, D: Door, C: Clock>(
    console: &mut Console<'_, K, C>,
    buffer: &mut RequestBuffer,
    door: &mut D,
    from: MomentFrom,
    count: u32,
) -> Result<(), Failed>
    requires kept { IsKept ⟦<K as Keeper>⟧ console.old.desk.keeper (tables_of console.old.desk.state) }
    ensures stays { StaysKept ⟦<K as Keeper>⟧ console.old.desk console.new.desk }

    // Whatever the door: from the session that the desk is in, it is in one that some requests left.
    ensures left { IsLeftByRequests ⟦<K as Keeper>⟧ ⟦<C as Clock>⟧ console.old console.new }
    // Where the door tells, they are those of the connections, and what was written are their answers.
    ensures served { D.tells
        → ServesInTurn ⟦<K as Keeper>⟧ ⟦<C as Clock>⟧ console.old console.new from (is_err result) count (D.view door.old) (D.view door.new) }
    // The clock stays the one that was lent.
    ensures same_clock { console.new.clock.ghost_name ≡ console.old.clock.ghost_name }
    ensures calls { TakesTurns (is_err result) (D.view door.old) (D.view door.new) }
{
    serve_each(buffer, door, console, from, count)
}
