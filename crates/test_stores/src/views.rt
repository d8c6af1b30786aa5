//! What rulings on the packets that the bulb sends read, behind the first six commands.
ghost use Rattle.base_rows.specs.Ledgers.{IsBlankOf};

use crate::bulb::{ADDRESS, MAC, RESOLVER, SERVER};
use crate::switch::SWITCH;
use acl_rows::{RulePart, RuleView};
use base_rows::Steps;
use mud_base::{Addr, Direction, End, Mac};
use mud_desk::Desk;
use mud_world::Keeper;
use std::alloc::Global;
use std::marker::Brand;
use std::sync::ledger::{Blank, Ledger};

/// A hardware address that no Thing has.
const STRANGER: Mac = Mac([2, 0, 0, 0, 0, 9]);

/// Whether a part lends of an address just the row of this entry with this expiry, or none.
fn lends<L: Ledger>(
    part: &RulePart<'_>,
    addr: Addr,
    wanted: Option<(u16, u64)>,
    steps: &mut Steps<L>,
) -> bool {
    let rows = part.rows_at(addr, steps);
    match (rows.first(), wanted) {
        (None, None) => true,
        (Some(row), Some((entry, until))) => {
            rows.len() == 1 && row.entry == entry && row.until.0 == until
        }
        _ => false,
    }
}

/// Whether the file has two entries, none of them wide, the first with the server and the second with
/// the bulb itself, and the default entries the resolver, for ever.
fn is_of_bulb<L: Ledger>(view: &RuleView<'_>, steps: &mut Steps<L>) -> bool {
    let Some(file) = view.file() else {
        return false;
    };
    let defaults = view.defaults();
    file.count() == 2
        && file.wide().is_empty()
        && lends(file, SERVER, Some((1, 1060)), steps)
        && lends(file, ADDRESS, Some((2, 87400)), steps)
        && lends(file, RESOLVER, None, steps)
        && lends(defaults, RESOLVER, Some((1, End::NEVER)), steps)
        && lends(defaults, SERVER, None, steps)
        && lends(defaults, ADDRESS, None, steps)
}

/// Whether a desk lends this of the bulb.
fn lends_rows<K: Keeper, L: Ledger>(desk: &Desk<K>, blank: Blank) -> bool
    requires blank { IsBlankOf L.name L.parts blank }
{
    let mut steps = Steps::<L>::new(blank);
    match desk.rules(MAC, Direction::From) {
        Some(view) => is_of_bulb(&view, &mut steps),
        None => false,
    }
}

/// Whether a desk lends this of the bulb, and nothing of a stranger.
pub(crate) fn lends_views<K: Keeper>(desk: &Desk<K>) -> bool {
    lends_rows::<K, Brand>(desk, Blank::new(1)) && desk.rules(STRANGER, Direction::From).is_none()
}

/// Whether the file of a Thing lends just the row of this entry at the bulb's address, or none there.
fn lends_at_bulb<K: Keeper, L: Ledger>(
    desk: &Desk<K>,
    mac: Mac,
    wanted: Option<(u16, u64)>,
    blank: Blank,
) -> bool
    requires blank { IsBlankOf L.name L.parts blank }
{
    let mut steps = Steps::<L>::new(blank);
    let Some(view) = desk.rules(mac, Direction::From) else {
        return false;
    };
    match view.file() {
        Some(file) => lends(file, ADDRESS, wanted, &mut steps),
        None => false,
    }
}

/// Whether the bulb's own file lends the row of the bulb's address, or where it has none, no row.
pub(crate) fn lends_own<K: Keeper>(desk: &Desk<K>, is_there: bool) -> bool {
    let wanted = if is_there { Some((2, 87400)) } else { None };
    lends_at_bulb::<K, Brand>(desk, MAC, wanted, Blank::new(1))
}

/// Whether the switch's file lends the row of the bulb's address, or where it has none, no row.
pub(crate) fn lends_shared<K: Keeper>(desk: &Desk<K>, is_there: bool) -> bool {
    let wanted = if is_there { Some((1, 87400)) } else { None };
    lends_at_bulb::<K, Brand>(desk, SWITCH, wanted, Blank::new(1))
}
