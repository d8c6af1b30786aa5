//! The first opening of a path, whatever its file holds.
ghost use Rattle.std.specs.Prelude.{◌≡◌, IfOk, IfErr, Ok, Err};
ghost use Rattle.sqlite.specs.WalFiles.{image_at};
ghost use Rattle.keep_sqlite.specs.FileKeepers.{IsJustOpened, UnconnectedFor};
ghost use Rattle.keep_sqlite.specs.Refusals.{refusal_of};

use crate::refusal::{Refusal, refusal_of};
use sqlite::{Connection, Error, FileFrom, FileStore, Start};

/// A connection to the file at the path. `S` stands for what the file holds, whatever it is.
pub(crate) fn connect<S: Start>(
    rt: &HostRuntime,
    path: &str,
    start: S,
) -> Result<Connection<FileStore<FileFrom<S>>>, Refusal>
    ensures opened { IfOk result (IsJustOpened (image_at S.Start)) }
    // Where it gives up, the system refused to open the files, or the database failed on what they held.
    ensures unopened { UnconnectedFor (image_at S.Start) result }
{
    connected(Connection::open_from(rt, path, false, start))
}

/// What an answer of the database says: the connection, or how its error is told.
fn connected<C, L: Drop>(answer: Result<C, (Error, L)>) -> Result<C, Refusal>
    ensures ok { IfOk answer (λ connection. result ≡ Ok connection) }
    ensures err { IfErr answer (λ failed. result ≡ Err (refusal_of failed.0)) }
{
    match answer {
        Ok(connection) => Ok(connection),
        Err((error, _left)) => Err(refusal_of(error)),
    }
}
