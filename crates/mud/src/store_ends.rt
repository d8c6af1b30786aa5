//! What stands behind a run over a store: what of it is to be told, and the end of its file.
use crate::store::StoreKeeper;
use item_codec::kinds::{CLASS_KIND, THING_KIND};
use keep_sqlite::{FileKeeper, SqliteKeeper};
use mud_world::{Item, Keeper, MemoryKeeper};
use run_advice::{Behind, Unclosed};
use run_common::Status;
use run_words::{Command, command_of};
use sqlite::{Alter, Connection, Error, ErrorCode, FileStore, Start};
use sqlite_disk::Disk;
use std::alloc::Global;

/// The key of the item that is the class of DNS servers (RFC 8520, section 4.6).
const DNS_CLASS_KEY: &[u8] = b"\x01urn:ietf:params:mud:dns";

/// What is looked for in a store behind a run.
#[derive(Clone, Copy)]
enum Sought {
    /// A Thing.
    Things,
    /// A Thing, and the class of DNS servers.
    ThingsAndServers,
}

/// What is to be told behind a run with this status. Its keeper is let go, and the log of a file is copied
/// into it. It makes one call over the store of a file, since each is proved at length.
pub fn end_run<D: Disk + Drop, S: Start>(
    alloc: Global,
    words: &[String],
    status: u8,
    keeper: StoreKeeper<MemoryKeeper, FileKeeper<FileStore<D>, S>>,
) -> Behind {
    let sought = sought_behind(command_of(alloc, words), status);
    let (behind, connection) = look_through(alloc, sought, keeper);
    let mut behind = behind;
    if let Some(connection) = connection {
        behind.unclosed = unclosed_by(connection.close());
    }
    behind
}

/// What is looked for behind a command that judged packets and ended with its capture, whole or broken.
fn sought_behind(command: Option<Command>, status: u8) -> Option<Sought> {
    if status != Status::Done.number() && status != Status::Refused.number() {
        return None;
    }
    match command {
        Some(Command::Snoop) => Some(Sought::ThingsAndServers),
        Some(Command::Judge | Command::Tally) => Some(Sought::Things),
        _ => None,
    }
}

/// What is to be told of what a keeper keeps, and of a file that was opened the connection. Of a store that
/// its disk has shut nothing more is told.
fn look_through<T: Alter + Drop, S: Start>(
    alloc: Global,
    sought: Option<Sought>,
    keeper: StoreKeeper<MemoryKeeper, FileKeeper<T, S>>,
) -> (Behind, Option<Connection<T>>) {
    match keeper {
        StoreKeeper::Memory(keeper) => (look_through_memory(alloc, sought, keeper), None),
        StoreKeeper::File(keeper) => look_through_file(alloc, sought, keeper),
    }
}

fn look_through_memory(alloc: Global, sought: Option<Sought>, keeper: MemoryKeeper) -> Behind {
    let Some(sought) = sought else {
        return Behind::nothing();
    };
    let mut keeper = keeper;
    match keeper.open(alloc) {
        Ok(items) => seen(sought, items.as_slice()),
        Err(_) => Behind::nothing(),
    }
}

fn look_through_file<T: Alter + Drop, S: Start>(
    alloc: Global,
    sought: Option<Sought>,
    keeper: FileKeeper<T, S>,
) -> (Behind, Option<Connection<T>>) {
    let Ok(opened) = keeper.into_keeper() else {
        return (Behind::nothing(), None);
    };
    let mut keeper = SqliteKeeper::adopt(opened.give_back());
    let behind = read_again(alloc, sought, &mut keeper);
    (behind, Some(keeper.give_back()))
}

/// What is to be told of the items of a file, which are read once more for it. Where that fails, nothing
/// is known, and nothing is told of it.
fn read_again<T: Alter + Drop>(
    alloc: Global,
    sought: Option<Sought>,
    keeper: &mut SqliteKeeper<T>,
) -> Behind {
    let Some(sought) = sought else {
        return Behind::nothing();
    };
    match keeper.read(alloc) {
        Ok(items) => seen(sought, items.as_slice()),
        Err(_) => Behind::nothing(),
    }
}

/// What of these items is to be told.
fn seen(sought: Sought, items: &[Item]) -> Behind {
    let learns = matches!(sought, Sought::ThingsAndServers);
    Behind {
        has_no_things: !items.iter().any(is_thing),
        learns_nothing: learns && !items.iter().any(is_dns_class),
        unclosed: None,
    }
}

/// Whether an item is a Thing.
fn is_thing(item: &Item) -> bool {
    item.kind == THING_KIND
}

/// Whether an item is the class of DNS servers. A class of no address is no item.
fn is_dns_class(item: &Item) -> bool {
    item.kind == CLASS_KIND && item.key.octets() == DNS_CLASS_KEY
}

/// Whether the log of a file wasn't copied into it, and why, by the answer of its closing.
fn unclosed_by(closed: Result<(), Error>) -> Option<Unclosed> {
    match closed {
        Ok(()) | Err(Error::SqliteFailure(ErrorCode::Closed)) => None,
        Err(Error::SqliteFailure(ErrorCode::DiskFull)) => Some(Unclosed::DiskFull),
        Err(_) => Some(Unclosed::Other),
    }
}
