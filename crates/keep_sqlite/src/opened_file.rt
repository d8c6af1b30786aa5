//! A keeper over a file that was opened, whatever the file held then.
ghost use Rattle.std.specs.Prelude.{◌≡◌, false};
ghost use Rattle.sqlite.specs.WalFiles.{image_at};
ghost use Rattle.keep_sqlite.specs.Standing.{IsAtRest};
ghost use Rattle.keep_sqlite.specs.Telling.{LeavesTold};

use crate::SqliteKeeper;
use crate::laws::told_items_are_left;
use sqlite::{Alter, Connection, Start};
use std::marker::{Model, PhantomData};

/// A keeper over the connection to a file. `S` stands for what the file held when it was opened.
#[derive(Drop)]
pub struct OpenedFile<T: Alter + Drop, S: Start> {
    pub(crate) keeper: SqliteKeeper<T>,
    pub(crate) held: PhantomData<S>,
}

impl<T: Alter + Drop, S: Start> Model for OpenedFile<T, S> {
    ghost use Rattle.sqlite.specs.WalFiles.{image_at};
    ghost use Rattle.keep_sqlite.specs.Telling.{view_code, KeeperView};
    ghost use Rattle.keep_sqlite.specs.Standing.{StandsOver};

    ghost Value = { KeeperView T };

    ghost coded = { view_code T.code };

    ghost view = { λ opened. opened.keeper };

    ghost invariant = { λ opened. StandsOver T.Store (image_at S.Start) opened.keeper };
}

impl<T: Alter + Drop, S: Start> OpenedFile<T, S> {
    /// A keeper over the connection, whose items aren't read yet.
    pub(crate) fn adopt(connection: Connection<T>) -> OpenedFile<T, S>
        requires { IsAtRest T.Store (image_at S.Start) connection }
        ensures connection { result.connection ≡ connection }
        ensures unopened { result.has_opened ≡ false }
        ensures told { LeavesTold T.Store result }
    {
        let keeper = SqliteKeeper::adopt(connection);
        told_items_are_left(&keeper);
        OpenedFile {
            keeper,
            held: PhantomData,
        }
    }

    /// The connection.
    pub fn give_back(self) -> Connection<T>
        ensures { result ≡ self.connection }
    {
        let keeper = self.keeper;
        keeper.connection
    }
}
