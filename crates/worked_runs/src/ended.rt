//! A run over a door, a keeper, a spool and a clock in memory, and what it comes to.
ghost use Rattle.std.specs.Prelude.{◌≡◌, [], ◌∷◌, IfOk};
ghost use Rattle.mud_world.specs.Items.{IsOrdered};
ghost use Rattle.mud_world.specs.MemoryClock.{moments_left};
ghost use Rattle.mud_world.specs.MemoryDoor.{IsNew};
ghost use Rattle.run_words.specs.Words.{words_of};
ghost use Rattle.worked_runs.specs.Ends.{Ran};

use mud_base::{Bytes, Listed, Memory, Moment};
use mud_cli::mud_main;
use mud_world::{
    Clock, Door, Item, Keeper, MemoryClock, MemoryDoor, MemoryKeeper, MemorySpool, Spool,
};
use std::alloc::Global;

/// The most octets that a run may write to a connection.
const ROOM: usize = 4096;

/// What a run is given: its words, the pieces in which the octets of its one connection come, the files of
/// its folder, the moment that its clock gives again and again, and the items of its store.
#[derive(Drop)]
pub struct Given {
    pub words: Vec<String>,
    pub pieces: Listed<Bytes>,
    pub files: Listed<(Bytes, Bytes)>,
    pub moment: Moment,
    pub items: Listed<Item>,
}

/// What a run came to: its status, and the door, the spool and the keeper behind it.
#[derive(Drop)]
pub struct Ended {
    pub status: u8,
    pub door: MemoryDoor,
    pub spool: MemorySpool,
    pub keeper: MemoryKeeper,
}

/// A door to one connection, whose octets come in these pieces.
fn door_of(alloc: Global, pieces: Listed<Bytes>) -> Result<MemoryDoor, Memory>
    ensures { IfOk result (IsNew (pieces ∷ []) 4096) }
{
    let mut inputs = Listed::new(alloc);
    inputs.push(pieces)?;
    MemoryDoor::new(alloc, inputs, ROOM)
}

/// A clock that gives this moment again and again.
fn clock_at(alloc: Global, moment: Moment) -> Result<MemoryClock, Memory>
    ensures { IfOk result (λ clock. moments_left clock ≡ moment ∷ []) }
{
    let mut moments = Listed::new(alloc);
    moments.push(moment)?;
    Ok(MemoryClock::new(moments))
}

/// Runs the program.
pub(crate) fn run(alloc: Global, given: Given) -> Result<Ended, Memory>
    requires { IsOrdered given.items }
    ensures { IfOk result (Ran ⟦<MemoryKeeper as Keeper>⟧ ⟦<MemoryDoor as Door>⟧ ⟦<MemorySpool as Spool>⟧ ⟦<MemoryClock as Clock>⟧ given) }
{
    let Given {
        words,
        pieces,
        files,
        moment,
        items,
    } = given;
    let mut door = door_of(alloc, pieces)?;
    let mut clock = clock_at(alloc, moment)?;
    let mut spool = MemorySpool::new(alloc, files);
    let keeper = MemoryKeeper::new(alloc, items);
    let (status, keeper) = mud_main(alloc, &words, keeper, &mut door, &mut spool, &mut clock);
    Ok(Ended {
        status,
        door,
        spool,
        keeper,
    })
}
