//! Serving connection after connection.
ghost use Rattle.std.specs.Prelude.{is_err};
ghost use Rattle.http_requests.specs.Runs.{IsLeftBy};
ghost use Rattle.http_requests.specs.Visits.{ServedInTurn, TakesTurns};

use crate::serve::serve_connection;
use crate::service::Service;
use crate::{MomentFrom, RequestBuffer};
use mud_world::{Door, Failed};

/// Serves the connections that come to the door, one after the other and at most so many, with one
/// state throughout. A connection whose read or write fails is over, and the next one is served. It
/// fails exactly where the door fails to go on to the next connection.
pub fn serve_connections<D: Door, S: Service>(
    buffer: &mut RequestBuffer,
    door: &mut D,
    service: &mut S,
    from: MomentFrom,
    count: u32,
) -> Result<(), Failed>
    requires ready { S.ready service.old }
    ensures ready { S.ready service.new }

    // From whatever the service is said to keep, it keeps what some requests left. Where the door
    // tells, they are those of the connections, and what was written are their answers.
    ensures left { (s : S.State) → S.keeps service.old s → IsLeftBy S.may (S.keeps service.new) s }
    ensures served { D.tells → (s : S.State) → S.keeps service.old s
        → ServedInTurn S.may S.refusal from (S.keeps service.new) (is_err result) count s (D.view door.old) (D.view door.new) }
    ensures calls { TakesTurns (is_err result) (D.view door.old) (D.view door.new) }
{
    for i in 0..count {
        if !door.next()? {
            return Ok(());
        }
        serve_connection(buffer, door, service, from);
    }
    Ok(())
}
