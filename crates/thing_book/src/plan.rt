//! What a command on Things does: the part of a change that is decided from the list alone.
ghost use Rattle.std.specs.Prelude.{◌≡◌, [], ◌∷◌, Some, None, Ok, IfOk, IfErr, option_copied};
ghost use Rattle.table_model.specs.declared.thing_fault.ThingFault.TheVariants as fault;
ghost use Rattle.table_model.specs.Things.{thing_at};
ghost use Rattle.table_model.specs.ThingChanges.{puts_in};
ghost use Rattle.thing_book.specs.RowChanges.{remove_change};

use crate::key::ThingKey;
use base_rows::{Change, SortedRows};
use item_codec::Word;
use mud_base::{End, Listed, Mac, Memory};
use std::alloc::Global;
use table_model::{Thing, ThingFault};

/// What a command answers, the expiry that it keeps for a lease, and the rows that it changes.
#[derive(Drop)]
pub struct Plan {
    pub word: Word,
    pub until: Option<End>,
    pub rows: Change<Mac, Thing>,
}

impl Plan {
    /// Nothing changes. It takes no memory.
    pub(crate) fn unchanged(alloc: Global, word: Word, until: Option<End>) -> Plan
        ensures word { result.word ≡ word }
        ensures until { result.until ≡ until }
        ensures rows { result.rows ≡ puts_in [] }
    {
        Plan::putting(Listed::new(alloc), word, until)
    }

    /// One Thing is put in.
    pub(crate) fn putting_one(
        alloc: Global,
        thing: Thing,
        word: Word,
        until: Option<End>,
    ) -> Result<Plan, Memory>
        ensures word { IfOk result (λ plan. plan.word ≡ word) }
        ensures until { IfOk result (λ plan. plan.until ≡ until) }
        ensures rows { IfOk result (λ plan. plan.rows ≡ puts_in (thing ∷ [])) }
    {
        let mut things = Listed::new(alloc);
        things.push(thing)?;
        Ok(Plan::putting(things, word, until))
    }

    /// These Things are put in, each in place of the one of its hardware address.
    pub(crate) fn putting(things: Listed<Thing>, word: Word, until: Option<End>) -> Plan
        ensures word { result.word ≡ word }
        ensures until { result.until ≡ until }
        ensures rows { result.rows ≡ puts_in things }
    {
        Plan {
            word,
            until,
            rows: Change::new(None, things),
        }
    }

    /// The Thing of this hardware address goes.
    #[tactic(auto, unfolding(crate::specs::RowChanges::remove_change))]
    pub(crate) fn taking(alloc: Global, mac: Mac, word: Word) -> Plan
        ensures word { result.word ≡ word }
        ensures until { result.until ≡ None }
        ensures rows { result.rows ≡ remove_change mac }
    {
        Plan {
            word,
            until: None,
            rows: Change::new(Some(mac), Listed::new(alloc)),
        }
    }
}

/// Want of memory, as the refusal of a command.
pub(crate) fn or_memory<T>(made: Result<T, Memory>) -> Result<T, ThingFault>
    ensures ok { IfOk result (λ value. made ≡ Ok value) }
    ensures err { IfErr result (λ e. e ≡ fault.Memory) }
{
    match made {
        Ok(value) => Ok(value),
        Err(Memory) => Err(ThingFault::Memory),
    }
}

/// The Thing of a hardware address.
#[tactic(auto, unfolding(table_model::specs::Things::thing_at))]
pub fn thing_of(things: &SortedRows<Thing>, mac: Mac) -> Option<&Thing>
    ensures { option_copied result ≡ thing_at mac things.now.rows }
{
    things.get(&ThingKey::new(mac))
}
