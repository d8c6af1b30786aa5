//! Runs over a capture of no packet.
ghost use Rattle.std.specs.Prelude.{[], codes, IfOk};
ghost use Rattle.desk_model.specs.DeskTables.{empty_desk};
ghost use Rattle.worked_runs.specs.Ends.{EndsOver, EndsWith};

use crate::ended::{Ended, run};
use crate::given::{empty_capture, given_alone};
use crate::words::{one_word, two_words};
use mud_base::Memory;
use std::alloc::Global;

/// `frames` of a capture of no packet.
pub fn frames_of_none(alloc: Global) -> Result<Ended, Memory>
    ensures { IfOk result (EndsWith [] 0) }
{
    let words = one_word(alloc, "frames")?;
    let pieces = empty_capture(alloc)?;
    let given = given_alone(alloc, words, pieces);
    let ended = run(alloc, given)?;
    Ok(ended)
}

/// `judge` of a capture of no packet, by a store that holds nothing.
pub fn judge_none(alloc: Global) -> Result<Ended, Memory>
    ensures { IfOk result (EndsOver empty_desk [] 0) }
{
    let words = two_words(alloc, "judge", "store.db")?;
    let pieces = empty_capture(alloc)?;
    let given = given_alone(alloc, words, pieces);
    let ended = run(alloc, given)?;
    Ok(ended)
}

/// `tally` of a capture of no packet, by a store that holds nothing.
pub fn tally_none(alloc: Global) -> Result<Ended, Memory>
    ensures { IfOk result (EndsOver empty_desk (codes "packets 0 unmanaged 0 link 0 unreadable 0 pass 0 drop 0 both 0\n") 0) }
{
    let words = two_words(alloc, "tally", "store.db")?;
    let pieces = empty_capture(alloc)?;
    let given = given_alone(alloc, words, pieces);
    let ended = run(alloc, given)?;
    Ok(ended)
}

/// `snoop` of a capture of no packet, into a store that holds nothing.
pub fn snoop_none(alloc: Global) -> Result<Ended, Memory>
    ensures { IfOk result (EndsOver empty_desk [] 0) }
{
    let words = two_words(alloc, "snoop", "store.db")?;
    let pieces = empty_capture(alloc)?;
    let given = given_alone(alloc, words, pieces);
    let ended = run(alloc, given)?;
    Ok(ended)
}
