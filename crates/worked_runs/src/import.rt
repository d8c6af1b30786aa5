//! Runs of `import`.
ghost use Rattle.std.specs.Prelude.{[], IfOk};
ghost use Rattle.desk_model.specs.DeskTables.{empty_desk};
ghost use Rattle.worked_runs.specs.Ends.{ImportsOver};

use crate::ended::{Ended, run};
use crate::given::given_alone;
use crate::words::three_words;
use mud_base::{Listed, Memory};
use std::alloc::Global;

/// `import` of a folder without a file.
pub fn import_no_file(alloc: Global) -> Result<Ended, Memory>
    ensures { IfOk result (ImportsOver empty_desk [] 0) }
{
    let words = three_words(alloc, "import", "store.db", "folder")?;
    let given = given_alone(alloc, words, Listed::new(alloc));
    let ended = run(alloc, given)?;
    Ok(ended)
}
