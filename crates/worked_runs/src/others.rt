//! A drill, a replay, and words that are no listed line.
ghost use Rattle.std.specs.Prelude.{[], IfOk};
ghost use Rattle.desk_model.specs.DeskTables.{empty_desk};
ghost use Rattle.worked_runs.specs.Ends.{DrillsOver, EndsOver, IsUntouched};

use crate::ended::{Ended, run};
use crate::given::given_alone;
use crate::words::{one_word, two_words};
use mud_base::{Listed, Memory};
use std::alloc::Global;

/// `drill` of one packet, over a store that holds nothing.
pub fn drill_one(alloc: Global) -> Result<Ended, Memory>
    ensures { IfOk result (DrillsOver 1) }
{
    let words = two_words(alloc, "drill", "1")?;
    let given = given_alone(alloc, words, Listed::new(alloc));
    let ended = run(alloc, given)?;
    Ok(ended)
}

/// `replay` of a connection without an octet, over a store that holds nothing.
pub fn replay_no_octets(alloc: Global) -> Result<Ended, Memory>
    ensures { IfOk result (EndsOver empty_desk [] 0) }
{
    let words = two_words(alloc, "replay", "store.db")?;
    let given = given_alone(alloc, words, Listed::new(alloc));
    let ended = run(alloc, given)?;
    Ok(ended)
}

/// A word that is no command.
pub fn no_command(alloc: Global) -> Result<Ended, Memory>
    ensures { IfOk result (IsUntouched []) }
{
    let words = one_word(alloc, "judge")?;
    let given = given_alone(alloc, words, Listed::new(alloc));
    let ended = run(alloc, given)?;
    Ok(ended)
}
