//! The rows that an observation of a name changes.
ghost use Rattle.std.specs.Prelude.{◌≡◌, [], ◌∷◌, ◌+◌, List, None, Some, option_map, option_copied, IfOk, IfErr};
ghost use Rattle.table_model.specs.declared.bind.NameRow.{NameRow as NameValue};
ghost use Rattle.table_model.specs.Binds.{name_row};
ghost use Rattle.table_model.specs.Binds as binds;
ghost use Rattle.table_model.specs.BindCommands.{new_pair, kept_pair, observe_step};
ghost use Rattle.table_model.specs.BindCommands as steps;
ghost use Rattle.table_model.specs.BindRowChanges as rows;
ghost use Rattle.table_model.specs.BindRowChanges.{one_row, replacing_change, new_pair_change, kept_pair_change, observe_change};
ghost use Rattle.bind_book.specs.Book.{IsRefusal};
ghost use Rattle.bind_book.specs.Observations.{IsSeen};

use crate::change::KeptName;
use base_rows::{Change, SortedRows};
use item_codec::Word;
use mud_base::{Addr, Bytes, End, Listed, Memory, Moment};
use std::alloc::Global;
use table_model::expiries::{expiry_of, is_live, live_count, live_rows, with_expiry};
use table_model::limits::{MOST_NAME_ADDRESSES, MOST_NAMES};
use table_model::{BindFault, NameKey, NameRow};

/// A change of names.
pub type NameChange = Change<KeptName, NameRow>;

/// What an observation answers, and the change of names that it makes.
#[derive(Drop)]
pub struct Observed {
    pub word: Word,
    /// The expiry that is kept.
    pub until: End,
    /// None where nothing changes.
    pub rows: Option<NameChange>,
}

/// The row of a name.
#[tactic(auto, unfolding(table_model::specs::Binds::name_row))]
fn row_of(alloc: Global, name: &[u8], addrs: Listed<(Addr, End)>) -> Result<Listed<NameRow>, Memory>
    ensures { IfOk result (λ rows. rows ≡ name_row name.now addrs ∷ []) }
{
    let name = Bytes::new(alloc, name)?;
    let mut rows = Listed::new(alloc);
    rows.push(NameRow { name, addrs })?;
    Ok(rows)
}

/// The change by which a name gets these addresses.
fn name_with(alloc: Global, name: &[u8], addrs: Listed<(Addr, End)>) -> Result<NameChange, Memory>
    ensures { IfOk result (λ change. change ≡ one_row (name_row name.now addrs)) }
{
    let rows = row_of(alloc, name, addrs)?;
    Ok(Change::new(None, rows))
}

/// The change by which a name takes the place of another one.
#[tactic(auto, unfolding(table_model::specs::BindRowChanges::replacing_change))]
fn name_in_place(
    alloc: Global,
    name: &[u8],
    addr: Addr,
    until: End,
    dead: &NameRow,
) -> Result<NameChange, Memory>
    ensures { IfOk result (λ change. change ≡ replacing_change name.now addr until (Some dead.now)) }
{
    let addrs = one_address(alloc, addr, until)?;
    let rows = row_of(alloc, name, addrs)?;
    let gone = KeptName(dead.name.copy()?);
    Ok(Change::new(Some(gone), rows))
}

/// An address with its expiry, alone.
fn one_address(alloc: Global, addr: Addr, until: End) -> Result<Listed<(Addr, End)>, Memory>
    ensures { IfOk result (λ addrs. addrs ≡ (addr, until) ∷ []) }
{
    let mut addrs = Listed::new(alloc);
    addrs.push((addr, until))?;
    Ok(addrs)
}

/// Whether a name has an address whose expiry is live.
#[tactic(auto, unfolding(table_model::specs::Binds::has_live_row))]
fn has_live_row(row: &NameRow, now: Moment) -> bool
    ensures { result ≡ binds.has_live_row now row.now }
{
    row.addrs.as_slice().iter().any(|kept| is_live(kept.1, now))
}

/// The least name that has no address with a live expiry.
#[tactic(auto, unfolding(table_model::specs::BindCommands::least_dead))]
fn least_dead(now: Moment, names: &[NameRow]) -> Option<&NameRow>
    ensures { option_copied result ≡ steps.least_dead now names.now }
{
    names.iter().find(|row| !has_live_row(row, now))
}

/// A name that isn't kept gets its first address. Where as many names are kept as may be, it takes
/// the place of the least one that has no address with a live expiry.
#[tactic(auto, unfolding(table_model::specs::BindCommands::new_pair, table_model::specs::BindCommands::replacing, table_model::specs::BindCommands::is_change, table_model::specs::BindRowChanges::new_pair_change))]
fn new_name(
    alloc: Global,
    name: &[u8],
    addr: Addr,
    until: End,
    now: Moment,
    names: &[NameRow],
) -> Result<Observed, BindFault>
    ensures ok { IfOk result (IsSeen (new_pair name.now addr until now names.now None) (new_pair_change name.now addr until now names.now None)) }
    ensures err { IfErr result (IsRefusal (new_pair name.now addr until now names.now None)) }
{
    if names.len() < MOST_NAMES {
        let addrs = one_address(alloc, addr, until)?;
        return Ok(Observed {
            word: Word::New,
            until,
            rows: Some(name_with(alloc, name, addrs)?),
        });
    }
    let Some(dead) = least_dead(now, names) else {
        return Err(BindFault::NamesFull);
    };
    Ok(Observed {
        word: Word::New,
        until,
        rows: Some(name_in_place(alloc, name, addr, until, dead)?),
    })
}

/// A kept name gets an address. Its addresses whose expiries have come go.
#[tactic(auto, unfolding(table_model::specs::BindCommands::new_pair, table_model::specs::BindCommands::is_change, table_model::specs::BindRowChanges::new_pair_change))]
fn new_address(
    alloc: Global,
    name: &[u8],
    addr: Addr,
    until: End,
    now: Moment,
    row: &NameRow,
) -> Result<Observed, BindFault>
    ensures ok { IfOk result (λ seen. (names : List NameValue) → IsSeen (new_pair name.now addr until now names (Some row.now)) (new_pair_change name.now addr until now names (Some row.now)) seen) }
    ensures err { IfErr result (λ fault. (names : List NameValue) → IsRefusal (new_pair name.now addr until now names (Some row.now)) fault) }
{
    let addrs = row.addrs.as_slice();
    if live_count(now, addrs) >= MOST_NAME_ADDRESSES {
        return Err(BindFault::NameFull);
    }
    let live = live_rows(alloc, now, addrs)?;
    let addrs = with_expiry(alloc, addr, until, live.as_slice())?;
    Ok(Observed {
        word: Word::New,
        until,
        rows: Some(name_with(alloc, name, addrs)?),
    })
}

/// An address that a name has, with a live expiry, keeps the later expiry.
#[tactic(auto, unfolding(table_model::specs::BindCommands::kept_pair, table_model::specs::BindCommands::addrs_of, table_model::specs::BindCommands::is_change, table_model::specs::BindRowChanges::kept_pair_change))]
fn kept_address(
    alloc: Global,
    name: &[u8],
    addr: Addr,
    until: End,
    row: &NameRow,
    old: End,
) -> Result<Observed, Memory>
    ensures { IfOk result (λ seen. (names : List NameValue) → IsSeen (kept_pair name.now addr until names (Some row.now) old) (kept_pair_change name.now addr until (Some row.now) old) seen) }
{
    if old >= until {
        return Ok(Observed {
            word: Word::Same,
            until: old,
            rows: None,
        });
    }
    let addrs = with_expiry(alloc, addr, until, row.addrs.as_slice())?;
    Ok(Observed {
        word: Word::Renewed,
        until,
        rows: Some(name_with(alloc, name, addrs)?),
    })
}

/// A kept name is observed at an address.
#[tactic(auto, unfolding(table_model::specs::BindCommands::observe_row, table_model::specs::BindCommands::addrs_of, table_model::specs::BindRowChanges::observe_row_change, table_model::specs::BindRowChanges::observe_cases_change))]
fn known_name(
    alloc: Global,
    name: &[u8],
    addr: Addr,
    until: End,
    now: Moment,
    row: &NameRow,
) -> Result<Observed, BindFault>
    ensures ok { IfOk result (λ seen. (names : List NameValue) → IsSeen (steps.observe_row name.now addr until now names (Some row.now)) (rows.observe_row_change name.now addr until now names (Some row.now)) seen) }
    ensures err { IfErr result (λ fault. (names : List NameValue) → IsRefusal (steps.observe_row name.now addr until now names (Some row.now)) fault) }
{
    match expiry_of(addr, row.addrs.as_slice()) {
        Some(old) => {
            if is_live(old, now) {
                Ok(kept_address(alloc, name, addr, until, row, old)?)
            } else {
                new_address(alloc, name, addr, until, now, row)
            }
        }
        None => new_address(alloc, name, addr, until, now, row),
    }
}

/// What an observation of a name at an address answers, and how the names change. The expiry is the
/// moment and so many seconds.
#[tactic(auto, unfolding(table_model::specs::BindCommands::observe_step, table_model::specs::BindCommands::observe_row, table_model::specs::BindCommands::addrs_of, table_model::specs::Expiries::expiry_of, table_model::specs::Binds::name_at, table_model::specs::BindRowChanges::observe_change, table_model::specs::BindRowChanges::observe_row_change, table_model::specs::BindRowChanges::observe_cases_change))]
pub(crate) fn observe(
    alloc: Global,
    name: &[u8],
    addr: Addr,
    ttl: u32,
    now: Moment,
    names: &SortedRows<NameRow>,
) -> Result<Observed, BindFault>
    ensures ok { IfOk result (IsSeen (observe_step name.now addr ttl now names.now.rows) (observe_change name.now addr ttl now names.now.rows)) }
    ensures err { IfErr result (IsRefusal (observe_step name.now addr ttl now names.now.rows)) }
{
    let until = End(now.seconds() + u64::from(ttl));
    match names.get(&NameKey(name)) {
        Some(row) => known_name(alloc, name, addr, until, now, row),
        None => new_name(alloc, name, addr, until, now, names.rows()),
    }
}
