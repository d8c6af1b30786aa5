//! The top call of the program.
ghost use Rattle.std.specs.Prelude.{◌≡◌, ◌↔◌, None, Some};
ghost use Rattle.run_common.specs.Status.{Is, IsNot, status_number};
ghost use Rattle.run_common.specs.declared.status.Status.TheVariants.{Unlisted};
ghost use Rattle.run_words.specs.Words.{command_in, words_of};
ghost use Rattle.mud_cli.specs.NextRun.{LeavesBehind, LeavesSame};
ghost use Rattle.mud_cli.specs.Runs.{AsTold, Does, LeavesAlone, world};

use crate::answer::{Input, answer_input};
use crate::frames::FrameLines;
use mud_desk::Loaded;
use mud_world::{Clock, Door, Keeper, Spool};
use run_captures::write_capture;
use run_changes::{import_store, replay_store, serve_store};
use run_common::Status;
use run_desk::judge_store;
use run_drills::run_drill;
use run_packets::{snoop_store, tally_store};
use run_reports::{export_store, report_store};
use run_words::{Command, command_of};
use std::alloc::Global;

/// Runs a command.
fn run_command<K: Keeper, D: Door, P: Spool, C: Clock>(
    alloc: Global,
    command: Command,
    keeper: K,
    door: &mut D,
    spool: &mut P,
    clock: &mut C,
) -> (Status, K)
    ensures listed { IsNot Unlisted (status_number result.0) }
    ensures does { Does ⟦<K as Keeper>⟧ ⟦<D as Door>⟧ ⟦<P as Spool>⟧ ⟦<C as Clock>⟧ keeper result.1
        (world door.old spool.old clock.old) (world door.new spool.new clock.new) (status_number result.0) command }
    ensures alone { LeavesAlone keeper result.1
        (world door.old spool.old clock.old) (world door.new spool.new clock.new) (status_number result.0) command }
{
    match command {
        Command::Hear(message) => (answer_input(alloc, Input::Message(message), door), keeper),
        Command::Check => (answer_input(alloc, Input::UsageFile, door), keeper),
        Command::Frames => (write_capture(alloc, door, &mut FrameLines), keeper),
        Command::Judge => judge_store(alloc, keeper, Loaded::new(alloc), door),
        Command::Snoop => snoop_store(alloc, keeper, Loaded::new(alloc), door),
        Command::Tally => tally_store(alloc, keeper, Loaded::new(alloc), door),
        Command::Import => import_store(alloc, keeper, Loaded::new(alloc), door, spool, clock),
        Command::Replay => replay_store(alloc, keeper, Loaded::new(alloc), door),
        Command::Serve { port, count } => {
            serve_store(alloc, keeper, Loaded::new(alloc), door, clock, port, count)
        }
        Command::Report(kind) => report_store(alloc, keeper, Loaded::new(alloc), kind, door, clock),
        Command::Export(mac) => export_store(alloc, keeper, Loaded::new(alloc), mac, door, clock),
        Command::Drill(packets) => run_drill(alloc, keeper, Loaded::new(alloc), packets, door),
    }
}

/// Runs the program on the words after its name, and answers its status and the keeper that it
/// was given. A run that opens no store makes no call on the keeper. One that opens a store does so
/// before it binds a port, reads the door or lists the spool.
///
/// | Status | It comes |
/// |---|---|
/// | 0 | the input was read to its end, or each file of the folder was imported or skipped; of `replay`, the connection ended between two requests or by a request that closes it; of `serve`, the connections were served; of `report`, `export` and `drill`, all was written |
/// | 2 | exactly where the words are no listed line; then nothing is read or written |
/// | 3 | the input breaks a rule of its reader, and the line that says so was written; or an imported file is refused, and the keeper didn't fail; of `replay`, a fault of the framing or the last request of a connection ended it; of `export`, exactly where no Thing has the hardware address, and the line that says so was written; of `drill`, the store isn't empty |
/// | 4 | exactly where a read or a write of the door, or a call of the spool, failed in this call; of `serve`, only where the port couldn't be bound, a further connection couldn't be taken, or the line of 6 couldn't be written |
/// | 5 | want of memory; of `replay` and `serve`, before a connection is read |
/// | 6 | an item of the store is no record, and the line that names it was written; where it wasn't written whole it is 4 or 5 |
/// | 7 | only where the keeper failed in this call: of `import`, `drill` and `snoop` in any call, else in the opening |
pub fn mud_main<K: Keeper, D: Door, P: Spool, C: Clock>(
    alloc: Global,
    words: &[String],
    keeper: K,
    door: &mut D,
    spool: &mut P,
    clock: &mut C,
) -> (u8, K)
    // Of every line of words: 2 says that it isn't listed, and then nothing is touched.
    ensures words { Is Unlisted result.0 ↔ (command_in (words_of words.now) ≡ None) }
    ensures untouched { Is Unlisted result.0 → (result.1 ≡ keeper)
        × (world door.new spool.new clock.new ≡ world door.old spool.old clock.old) }
    // A listed command does what its record says, and leaves alone what isn't its own.
    ensures does { AsTold (Does ⟦<K as Keeper>⟧ ⟦<D as Door>⟧ ⟦<P as Spool>⟧ ⟦<C as Clock>⟧ keeper result.1
        (world door.old spool.old clock.old) (world door.new spool.new clock.new) result.0) (words_of words.now) }
    ensures alone { AsTold (LeavesAlone keeper result.1
        (world door.old spool.old clock.old) (world door.new spool.new clock.new) result.0) (words_of words.now) }
    // What a crash leaves at its end, the next run finds.
    ensures left { LeavesBehind ⟦<K as Keeper>⟧ keeper result.1 }
    ensures reads { AsTold (LeavesSame ⟦<K as Keeper>⟧ keeper result.1) (words_of words.now) }
{
    let Some(command) = command_of(alloc, words) else {
        return (Status::Unlisted.number(), keeper);
    };
    let (status, keeper) = run_command(alloc, command, keeper, door, spool, clock);
    (status.number(), keeper)
}
