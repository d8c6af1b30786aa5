//! Runs of `report` and `export`.
ghost use Rattle.std.specs.Prelude.{[], ◌∷◌, codes, IfOk};
ghost use Rattle.desk_model.specs.DeskTables.{empty_desk};
ghost use Rattle.worked_runs.specs.Ends.{EndsAtItem, EndsOver};
ghost use Rattle.worked_runs.specs.Inputs.{unknown_item};

use crate::ended::{Ended, run};
use crate::given::{given_alone, given_over, unknown_items};
use crate::words::three_words;
use mud_base::{Listed, Memory};
use std::alloc::Global;

/// `report` of the Things of a store that holds nothing.
pub fn report_no_things(alloc: Global) -> Result<Ended, Memory>
    ensures { IfOk result (EndsOver empty_desk [] 0) }
{
    let words = three_words(alloc, "report", "store.db", "things")?;
    let given = given_alone(alloc, words, Listed::new(alloc));
    let ended = run(alloc, given)?;
    Ok(ended)
}

/// `report` of the Things of a store with an item that is no record.
pub fn report_bad_item(alloc: Global) -> Result<Ended, Memory>
    ensures { IfOk result (EndsAtItem (unknown_item ∷ []) (codes "fault item 9\n")) }
{
    let words = three_words(alloc, "report", "store.db", "things")?;
    let items = unknown_items(alloc)?;
    let given = given_over(alloc, words, Listed::new(alloc), items);
    let ended = run(alloc, given)?;
    Ok(ended)
}

/// `export` of a Thing that a store doesn't hold.
pub fn export_no_thing(alloc: Global) -> Result<Ended, Memory>
    ensures { IfOk result (EndsOver empty_desk (codes "fault NoThing\n") 3) }
{
    let words = three_words(alloc, "export", "store.db", "02:00:00:00:00:01")?;
    let given = given_alone(alloc, words, Listed::new(alloc));
    let ended = run(alloc, given)?;
    Ok(ended)
}
