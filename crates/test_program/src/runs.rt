//! Runs of the program, and what comes of them.
use crate::memory::{File, Kept, Outside, Run, keeper_of, outside_of};
use mud_cli::mud_main;
use mud_world::{Item, Keeper, MemoryDoor, MemoryKeeper};
use std::alloc::Global;
use std::process::Abort;

/// Whether the octets are these parts, one after the other.
fn are_joined(octets: &[u8], parts: &[&[u8]]) -> bool {
    let mut left = octets;
    for part in parts {
        match left.strip_prefix(*part) {
            Some(rest) => left = rest,
            None => return false,
        }
    }
    left.is_empty()
}

/// These parts were written to each connection.
fn check_written(rt: &impl Abort, number: usize, door: &MemoryDoor, written: &[&[&[u8]]]) {
    assert_eq!(rt; door.connection_count(), written.len(), "run {number}");
    for (i, parts) in written.iter().enumerate() {
        assert!(rt; i < door.connection_count());
        assert!(rt;
            are_joined(door.written(i), parts),
            "run {number}, connection {i}"
        );
    }
}

/// Whether they are one item.
fn is_item(item: &Item, other: &Item) -> bool {
    item.kind == other.kind
        && item.key.octets() == other.key.octets()
        && item.body.octets() == other.body.octets()
}

/// These items are kept.
fn check_kept(
    rt: &impl Abort,
    alloc: Global,
    number: usize,
    keeper: &mut MemoryKeeper,
    kept: &[Item],
) {
    let items = keeper.open(alloc).expect(rt, "the items");
    assert_eq!(rt; items.len(), kept.len(), "run {number}");
    for (i, (item, one)) in items.as_slice().iter().zip(kept).enumerate() {
        assert!(rt; is_item(item, one), "run {number}, item {i}");
    }
}

/// Runs the program over this keeper, and answers its status and the keeper.
fn run_over(alloc: Global, keeper: MemoryKeeper, outside: &mut Outside) -> (u8, MemoryKeeper) {
    mud_main(
        alloc,
        &outside.words,
        keeper,
        &mut outside.door,
        &mut outside.spool,
        &mut outside.clock,
    )
}

/// Runs the program over this keeper, and this comes of it. The number is that of the run in its
/// table. The keeper is handed back.
pub(crate) fn check_over(
    rt: &impl Abort,
    alloc: Global,
    number: usize,
    keeper: MemoryKeeper,
    outside: &mut Outside,
    run: &Run<'_>,
) -> MemoryKeeper {
    let (status, mut keeper) = run_over(alloc, keeper, outside);
    assert_eq!(rt; status, run.status, "run {number}");
    check_written(rt, number, &outside.door, run.written);
    check_kept(rt, alloc, number, &mut keeper, outside.kept.rows());
    keeper
}

/// Does the run in this outside, over a store that keeps this.
pub(crate) fn check_in(
    rt: &impl Abort,
    alloc: Global,
    number: usize,
    outside: &mut Outside,
    kept: &[Kept<'_>],
    run: &Run<'_>,
) {
    let keeper = keeper_of(rt, alloc, kept, run.failing);
    drop(check_over(rt, alloc, number, keeper, outside, run));
}

/// Does the run with these connections in place of its own, over a folder of these files and a store
/// that keeps this.
pub(crate) fn check_with(
    rt: &impl Abort,
    alloc: Global,
    number: usize,
    connections: &[&[&[u8]]],
    files: &[File<'_>],
    kept: &[Kept<'_>],
    run: &Run<'_>,
) {
    let mut outside = outside_of(rt, alloc, connections, files, kept, run);
    check_in(rt, alloc, number, &mut outside, kept, run);
}

/// Does the run over a store that keeps this.
pub(crate) fn check(
    rt: &impl Abort,
    alloc: Global,
    number: usize,
    kept: &[Kept<'_>],
    run: &Run<'_>,
) {
    check_with(rt, alloc, number, run.connections, &[], kept, run);
}

/// Does the runs, each over a store that keeps this.
pub(crate) fn check_runs(rt: &impl Abort, alloc: Global, kept: &[Kept<'_>], runs: &[Run<'_>]) {
    for (number, run) in runs.iter().enumerate() {
        check(rt, alloc, number, kept, run);
    }
}
