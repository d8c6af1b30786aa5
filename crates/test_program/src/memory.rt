//! What stands outside of the program, in memory, with the one call that is to fail.
use base_rows::SortedRows;
use mud_base::{Bytes, Listed, Moment};
use mud_world::{Item, MemoryClock, MemoryDoor, MemoryKeeper, MemorySpool};
use std::alloc::Global;
use std::process::Abort;

/// The most octets that are written to a connection.
const MOST_WRITTEN: usize = 4096;

/// The calls that may fail.
#[derive(Clone, Copy)]
pub enum Call {
    Open,
    Apply,
    ListNames,
    ReadFile,
    Bind,
    Next,
    Read,
    Write,
}

/// A call that is to fail, and which one of its kind, counted from 1.
pub type Failing = (Call, u64);

/// No call is to fail.
pub(crate) const NONE: Failing = (Call::Open, 0);

/// A kept item: its kind, its key, and its body in parts.
pub type Kept<'a> = (u8, &'a [u8], &'a [&'a [u8]]);

/// A file: its name and its octets.
pub type File<'a> = (&'a str, &'a [u8]);

/// A run: its words, its connections, each of the pieces in which its octets come, the second of its
/// clock, behind which comes the next one, the call that fails, and what comes of it: the status, what
/// is written to each connection, in parts, and the items that are kept in place of, or beside, those
/// that were kept before.
#[derive(Clone, Copy)]
pub struct Run<'a> {
    pub words: &'a [&'a str],
    pub connections: &'a [&'a [&'a [u8]]],
    pub second: u64,
    pub failing: Failing,
    pub status: u8,
    pub written: &'a [&'a [&'a [u8]]],
    pub changed: &'a [Kept<'a>],
}

/// What stands outside of a run, beside its store: its words too, and what is to be kept behind it. It
/// is made and dropped as one value.
#[derive(Drop)]
pub struct Outside {
    pub words: Vec<String>,
    pub door: MemoryDoor,
    pub spool: MemorySpool,
    pub clock: MemoryClock,
    pub kept: SortedRows<Item>,
}

/// The number of the call of this kind that is to fail, or 0, which no call has.
fn script(rt: &impl Abort, alloc: Global, failing: Failing, call: Call) -> Listed<u64> {
    let number = if failing.0 == call { failing.1 } else { 0 };
    let mut numbers = Listed::new(alloc);
    numbers.push(number).expect(rt, "memory");
    numbers
}

/// These octets.
fn bytes_of(rt: &impl Abort, alloc: Global, octets: &[u8]) -> Bytes {
    Bytes::new(alloc, octets).expect(rt, "memory")
}

/// The pieces in which the octets of a connection come.
fn pieces_of(rt: &impl Abort, alloc: Global, pieces: &[&[u8]]) -> Listed<Bytes> {
    let mut list = Listed::new(alloc);
    for piece in pieces {
        list.push(bytes_of(rt, alloc, piece)).expect(rt, "memory");
    }
    list
}

/// A door to these connections, each a list of pieces.
fn door_over(
    rt: &impl Abort,
    alloc: Global,
    inputs: Listed<Listed<Bytes>>,
    failing: Failing,
) -> MemoryDoor {
    assert!(rt; inputs.len() > 0);
    let mut door = MemoryDoor::new(alloc, inputs, MOST_WRITTEN).expect(rt, "memory");
    door.failing_bind = script(rt, alloc, failing, Call::Bind);
    door.failing_next = script(rt, alloc, failing, Call::Next);
    door.failing_read = script(rt, alloc, failing, Call::Read);
    door.failing_write = script(rt, alloc, failing, Call::Write);
    door
}

/// A door to one connection of these pieces.
pub(crate) fn door_to(
    rt: &impl Abort,
    alloc: Global,
    pieces: &[&[u8]],
    failing: Failing,
) -> MemoryDoor {
    let mut inputs = Listed::new(alloc);
    inputs
        .push(pieces_of(rt, alloc, pieces))
        .expect(rt, "memory");
    door_over(rt, alloc, inputs, failing)
}

/// A door to these connections.
fn door_of(
    rt: &impl Abort,
    alloc: Global,
    connections: &[&[&[u8]]],
    failing: Failing,
) -> MemoryDoor {
    let mut inputs = Listed::new(alloc);
    for pieces in connections {
        let pieces = pieces_of(rt, alloc, pieces);
        inputs.push(pieces).expect(rt, "memory");
    }
    door_over(rt, alloc, inputs, failing)
}

/// The file of this name.
fn file_of(rt: &impl Abort, alloc: Global, name: &str, octets: &[u8]) -> (Bytes, Bytes) {
    let name = bytes_of(rt, alloc, name.as_bytes());
    let octets = bytes_of(rt, alloc, octets);
    (name, octets)
}

/// The files, in this order.
fn files_of(rt: &impl Abort, alloc: Global, files: &[File<'_>]) -> Listed<(Bytes, Bytes)> {
    let mut list = Listed::new(alloc);
    for (name, octets) in files {
        list.push(file_of(rt, alloc, name, octets))
            .expect(rt, "memory");
    }
    list
}

/// A folder of these files, in this order.
fn spool_of(rt: &impl Abort, alloc: Global, files: &[File<'_>], failing: Failing) -> MemorySpool {
    let mut spool = MemorySpool::new(alloc, files_of(rt, alloc, files));
    spool.failing_list = script(rt, alloc, failing, Call::ListNames);
    spool.failing_read = script(rt, alloc, failing, Call::ReadFile);
    spool
}

/// A clock that gives this second and then the one behind it.
fn clock_from(rt: &impl Abort, alloc: Global, second: u64) -> MemoryClock {
    let mut moments = Listed::new(alloc);
    for moment in [second, second.saturating_add(1)] {
        moments
            .push(Moment::at_most_last(moment))
            .expect(rt, "memory");
    }
    assert!(rt; moments.len() > 0);
    MemoryClock::new(moments)
}

/// These parts, one after the other.
fn joined(rt: &impl Abort, alloc: Global, parts: &[&[u8]]) -> Bytes {
    let mut octets = Bytes::empty(alloc);
    for part in parts {
        octets.append(part).expect(rt, "memory");
    }
    octets
}

/// The item.
fn item_of(rt: &impl Abort, alloc: Global, kept: &Kept<'_>) -> Item {
    let (kind, key, parts) = *kept;
    Item {
        kind,
        key: bytes_of(rt, alloc, key),
        body: joined(rt, alloc, parts),
    }
}

/// Puts the items, each in place of that of its kind and key.
fn put_items(rt: &impl Abort, alloc: Global, items: &mut SortedRows<Item>, list: &[Kept<'_>]) {
    for kept in list {
        items.reserve(1).expect(rt, "memory");
        items.put(item_of(rt, alloc, kept));
    }
}

/// The items, by kind and key, those that changed in place of those that were kept.
fn items_of(
    rt: &impl Abort,
    alloc: Global,
    kept: &[Kept<'_>],
    changed: &[Kept<'_>],
) -> SortedRows<Item> {
    let mut items = SortedRows::new(alloc);
    put_items(rt, alloc, &mut items, kept);
    put_items(rt, alloc, &mut items, changed);
    items
}

/// A keeper that keeps these items.
pub(crate) fn keeper_of(
    rt: &impl Abort,
    alloc: Global,
    kept: &[Kept<'_>],
    failing: Failing,
) -> MemoryKeeper {
    let mut keeper = MemoryKeeper::new(alloc, Listed::new(alloc));
    put_items(rt, alloc, &mut keeper.items, kept);
    keeper.failing_open = script(rt, alloc, failing, Call::Open);
    keeper.failing_apply = script(rt, alloc, failing, Call::Apply);
    keeper
}

/// The words, as the program is given them.
fn words_of(rt: &impl Abort, alloc: Global, words: &[&str]) -> Vec<String> {
    let mut list = Vec::new(alloc);
    for word in words {
        let word = String::from_str(alloc, word).expect(rt, "memory");
        list.push(word).expect(rt, "memory");
    }
    list
}

/// What stands outside of the run over these connections, a folder of these files, and a store that
/// keeps this.
pub(crate) fn outside_of(
    rt: &impl Abort,
    alloc: Global,
    connections: &[&[&[u8]]],
    files: &[File<'_>],
    kept: &[Kept<'_>],
    run: &Run<'_>,
) -> Outside {
    Outside {
        words: words_of(rt, alloc, run.words),
        door: door_of(rt, alloc, connections, run.failing),
        spool: spool_of(rt, alloc, files, run.failing),
        clock: clock_from(rt, alloc, run.second),
        kept: items_of(rt, alloc, kept, run.changed),
    }
}
