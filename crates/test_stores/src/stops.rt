//! Runs over two files in memory that stop after so many calls, and what a crash leaves of them.

use crate::desks::{Run, count_over, run_over, shares_over};
use crate::files::{connect, new_files};
use keep_sqlite::SqliteKeeper;
use mud_world::KeepFault;
use sqlite::{Alter, Connection, Files};
use sqlite_disk::Crash;
use std::alloc::Global;

/// A run over a connection, which is handed back. The call that was stopped failed, and was counted
/// once.
fn run_connected<S: Alter + Drop>(
    alloc: Global,
    connection: Connection<S>,
    run: &mut Run,
) -> Connection<S> {
    let (answer, keeper) = run_over(alloc, SqliteKeeper::adopt(connection), run);
    run.has_ended = answer.is_ok();
    run.is_counted = match answer {
        Ok(()) => keeper.faults() == 0,
        Err(KeepFault::Failed) => keeper.faults() == 1,
        Err(KeepFault::Memory) => false,
    };
    keeper.give_back()
}

/// A run over files, and a crash behind it. It is for any files, since each call at those that stop is
/// proved at length.
fn run_and_crash<D: Crash + Drop>(alloc: Global, files: Files<D>) -> Run {
    let mut run = Run {
        begun: 0,
        acknowledged: 0,
        has_ended: false,
        is_counted: true,
        left: None,
    };
    let mut files = match connect(alloc, files) {
        Ok(connection) => run_connected(alloc, connection, &mut run)
            .into_store()
            .close(),
        Err(files) => files,
    };
    files.log.crash();
    files.db.crash();
    if let Ok(connection) = connect(alloc, files) {
        run.left = count_over(alloc, SqliteKeeper::adopt(connection));
    }
    run
}

/// Whether the commands are kept that were acknowledged, or these and the one under way.
fn is_whole(run: &Run) -> bool {
    run.is_counted && (run.left == Some(run.acknowledged) || run.left == Some(run.begun))
}

/// Each call of two files stops a run in turn, until none does.
#[test]
fn whole_commands_are_kept_over_stops(rt: HostRuntime) {
    let mut has_ended = false;
    for calls in 0..300 {
        let run = run_and_crash(rt.alloc(), new_files(rt.alloc(), calls));
        assert!(rt; is_whole(&run), "after {calls} calls");
        assert!(rt; calls > 0 || !run.has_ended);
        has_ended = run.has_ended;
        if has_ended {
            break;
        }
    }
    assert!(rt; has_ended);
}

/// Whether a desk over files lends the rows of the bulb and of the switch.
fn shares_rows<D: Crash + Drop>(alloc: Global, files: Files<D>) -> bool {
    match connect(alloc, files) {
        Ok(connection) => shares_over(alloc, SqliteKeeper::adopt(connection)),
        Err(_files) => false,
    }
}

/// A Thing's address has a row in the file of another Thing's URL, from its approval on and until the
/// address is taken back.
#[test]
fn rows_come_and_go_with_files_and_leases(rt: HostRuntime) {
    assert!(rt; shares_rows(rt.alloc(), new_files(rt.alloc(), u64::MAX)));
}
