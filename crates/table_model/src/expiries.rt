//! Addresses with their expiries: the leases of a Thing, and the addresses of a name.
ghost use Rattle.std.specs.Prelude.{◌≡◌, IfOk, nat_lt, ◌==◌, ◌||◌, ◌^◌};
ghost use Rattle.table_model.specs.Expiries as spec;
ghost use Rattle.acl_model.specs.Changes.{for_ever};

use base_rows::sortable::lists;
use mud_base::{Addr, End, Listed, Memory, Moment, same_addr};
use std::alloc::Global;

/// The first expiry that is too late, other than for ever, in seconds: 2^40.
const LAST_EXPIRY: u64 = 1 << 40;

/// Whether what has this expiry still counts at a moment: at that second itself it doesn't.
#[tactic(auto, unfolding(crate::specs::Expiries::is_live))]
pub fn is_live(until: End, now: Moment) -> bool
    ensures { result ≡ spec.is_live until now }
{
    now.seconds() < until.0
}

/// Whether an expiry is for ever, or below 2^40 seconds.
#[tactic(auto)]
pub(crate) fn is_expiry(until: End) -> bool
    ensures { result ≡ until == for_ever || nat_lt until (2 ^ 40) }
{
    until.0 == End::NEVER || until.0 < LAST_EXPIRY
}

/// Whether the address is one of these, its expiry live or not.
#[tactic(auto, unfolding(crate::specs::Expiries::has_address))]
pub fn has_address(addr: Addr, rows: &[(Addr, End)]) -> bool
    ensures { result ≡ spec.has_address addr rows.now }
{
    rows.iter().any(|row| same_addr(row.0, addr))
}

/// The expiry of the address.
#[tactic(auto, unfolding(crate::specs::Expiries::expiry_of))]
pub fn expiry_of(addr: Addr, rows: &[(Addr, End)]) -> Option<End>
    ensures { result ≡ spec.expiry_of addr rows.now }
{
    for row in rows {
        if same_addr(row.0, addr) {
            return Some(row.1);
        }
    }
    None
}

/// A copy of the rows with this expiry for the address.
#[tactic(auto, unfolding(crate::specs::Expiries::with_expiry))]
pub fn with_expiry(
    alloc: Global,
    addr: Addr,
    until: End,
    rows: &[(Addr, End)],
) -> Result<Listed<(Addr, End)>, Memory>
    ensures { IfOk result (λ made. made ≡ spec.with_expiry addr until rows.now) }
{
    let made = lists::with_row(alloc, rows, (addr, until))?;
    Ok(Listed::from_vec(made))
}

/// A copy of the rows without the address.
#[tactic(auto, unfolding(crate::specs::Expiries::without_address))]
pub fn without_address(
    alloc: Global,
    addr: Addr,
    rows: &[(Addr, End)],
) -> Result<Listed<(Addr, End)>, Memory>
    ensures { IfOk result (λ left. left ≡ spec.without_address addr rows.now) }
{
    let left: Vec<(Addr, End)> = rows
        .iter()
        .copied()
        .filter(|row| !same_addr(row.0, addr))
        .collect(alloc)?;
    Ok(Listed::from_vec(left))
}

/// A copy of the rows whose expiries are live at a moment.
#[tactic(auto, unfolding(crate::specs::Expiries::live_rows))]
pub fn live_rows(
    alloc: Global,
    now: Moment,
    rows: &[(Addr, End)],
) -> Result<Listed<(Addr, End)>, Memory>
    ensures { IfOk result (λ live. live ≡ spec.live_rows now rows.now) }
{
    let live: Vec<(Addr, End)> = rows
        .iter()
        .copied()
        .filter(|row| is_live(row.1, now))
        .collect(alloc)?;
    Ok(Listed::from_vec(live))
}

/// How many of the rows have expiries that are live at a moment.
#[tactic(auto, unfolding(crate::specs::Expiries::live_count, crate::specs::Expiries::live_rows))]
pub fn live_count(now: Moment, rows: &[(Addr, End)]) -> usize
    ensures { result ≡ spec.live_count now rows.now }
{
    rows.iter().filter(|row| is_live(row.1, now)).count()
}

/// Whether the rows are in the order of the addresses, each address once.
#[tactic(auto, unfolding(crate::specs::Expiries::are_ascending))]
pub(crate) fn are_ascending(rows: &[(Addr, End)]) -> bool
    ensures { result ≡ spec.are_ascending rows.now }
{
    lists::is_ascending(rows)
}

/// Whether each expiry is for ever, or below 2^40 seconds.
#[tactic(auto, unfolding(crate::specs::Expiries::have_expiries))]
pub(crate) fn have_expiries(rows: &[(Addr, End)]) -> bool
    ensures { result ≡ spec.have_expiries rows.now }
{
    rows.iter().all(|row| is_expiry(row.1))
}
