//! Addresses without rows: they are forgotten where there are many, and with them their room.
ghost use Rattle.base_rows.specs.Ledgers.{IsBlankOf};

use acl_rows::{AddressRows, Owner};
use base_rows::Steps;
use mud_base::{Addr, Direction, Memory};
use std::alloc::Global;
use std::marker::Brand;
use std::sync::ledger::{Blank, Ledger};
use std::test::Fail;

/// How many addresses are kept before and after those without rows are forgotten, where room was
/// made at so many, from 0.0.0.0 on.
fn counts_kept<L: Ledger>(
    alloc: Global,
    count: u32,
    steps: &mut Steps<L>,
) -> Result<(usize, usize), Memory> {
    let mut rows = AddressRows::new(alloc, Owner::Default, Direction::From);
    for number in 0..count {
        rows.reserve(alloc, Addr::V4(number), 1)?;
    }
    let before = rows.all_rows(steps).len();
    rows.clear();
    Ok((before, rows.all_rows(steps).len()))
}

/// The same of 15 addresses and of 16.
fn kept<L: Ledger>(alloc: Global, blank: Blank) -> Result<[(usize, usize); 2], Memory>
    requires blank { IsBlankOf L.name L.parts blank }
{
    let mut steps = Steps::<L>::new(blank);
    let few = counts_kept(alloc, 15, &mut steps)?;
    Ok([few, counts_kept(alloc, 16, &mut steps)?])
}

#[test]
fn addresses_without_rows_are_forgotten_where_there_are_many(rt: HostRuntime) -> Result<(), Fail> {
    let kept = kept::<Brand>(rt.alloc(), Blank::new(1))?;
    assert_eq!(rt; kept, [(15, 15), (16, 0)]);
    Ok(())
}
