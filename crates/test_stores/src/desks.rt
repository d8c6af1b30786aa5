//! A desk over a keeper: it is given the commands, or it tells how many of them were kept.
ghost use Rattle.desk_model.specs.Commands.{IsAsked};
ghost use Rattle.desk_model.specs.Kept.{IsKept};
ghost use Rattle.mud_desk.specs.DeskState.{tables_of};

use crate::commands::{DEEDS, Deed, END_DEEDS, SWITCH_DEEDS, Told, command_of, is_told, moment};
use crate::lists::count_in;
use crate::views::{lends_own, lends_shared, lends_views};
use desk_model::{Command, Reply};
use mud_desk::{Desk, Loaded, OpenFault};
use mud_world::{KeepFault, Keeper};
use std::alloc::Global;

/// What comes of a run: how many commands were given, and how many of them were answered as they
/// should be; how the run ended; and how many commands make what is kept behind a crash.
#[derive(Clone, Copy)]
pub struct Run {
    pub begun: usize,
    pub acknowledged: usize,
    pub has_ended: bool,
    pub is_counted: bool,
    pub left: Option<usize>,
}

/// Gives a desk a command. It fails as the keeper does, and with want of memory where it isn't
/// answered as it should be.
fn give<K: Keeper>(
    alloc: Global,
    desk: &mut Desk<K>,
    deed: Deed,
    told: &Told,
) -> Result<(), KeepFault>
    requires { IsKept ⟦<K as Keeper>⟧ desk.old.keeper (tables_of desk.old.state) }
    ensures { IsKept ⟦<K as Keeper>⟧ desk.new.keeper (tables_of desk.new.state) }
{
    let command = command_of(alloc, deed)?;
    let reply = desk.execute(command, moment());
    match &reply {
        Reply::Done(outcome) if is_told(outcome, told) => Ok(()),
        Reply::Keeper => Err(KeepFault::Failed),
        _ => Err(KeepFault::Memory),
    }
}

/// Gives a desk the commands, up to the first failure.
fn give_each<K: Keeper>(alloc: Global, desk: &mut Desk<K>, run: &mut Run) -> Result<(), KeepFault>
    requires { IsKept ⟦<K as Keeper>⟧ desk.old.keeper (tables_of desk.old.state) }
    ensures { IsKept ⟦<K as Keeper>⟧ desk.new.keeper (tables_of desk.new.state) }
{
    'deeds: for (deed, told) in &DEEDS {
        run.begun = run.acknowledged.saturating_add(1);
        give(alloc, desk, *deed, told)?;
        run.acknowledged = run.begun;
    }
    Ok(())
}

/// Gives a desk these commands, up to the first failure.
fn give_all<K: Keeper>(
    alloc: Global,
    desk: &mut Desk<K>,
    deeds: &[(Deed, Told)],
) -> Result<(), KeepFault>
    requires { IsKept ⟦<K as Keeper>⟧ desk.old.keeper (tables_of desk.old.state) }
    ensures { IsKept ⟦<K as Keeper>⟧ desk.new.keeper (tables_of desk.new.state) }
{
    'deeds: for (deed, told) in deeds {
        give(alloc, desk, *deed, told)?;
    }
    Ok(())
}

/// Whether the rows of the first six commands are lent; behind the approval of the switch's file its
/// row of the bulb's address beside the bulb's own; and neither where the address is taken back.
fn shares_rows<K: Keeper>(alloc: Global, desk: &mut Desk<K>) -> Result<bool, KeepFault>
    requires { IsKept ⟦<K as Keeper>⟧ desk.old.keeper (tables_of desk.old.state) }
{
    give_all(alloc, desk, &DEEDS[..6])?;
    let begins = lends_views(desk);
    give_all(alloc, desk, &SWITCH_DEEDS)?;
    let shares = lends_own(desk, true) && lends_shared(desk, true);
    give_all(alloc, desk, &END_DEEDS)?;
    Ok(begins && shares && lends_own(desk, false) && lends_shared(desk, false))
}

/// Whether a desk over a keeper lends the rows of the bulb and of the switch.
pub(crate) fn shares_over<K: Keeper>(alloc: Global, keeper: K) -> bool {
    match Desk::open(alloc, keeper, Loaded::new(alloc)) {
        Ok(desk) => {
            let mut desk = desk;
            matches!(shares_rows(alloc, &mut desk), Ok(true))
        }
        Err(_refused) => false,
    }
}

/// Gives a desk the commands, and closes it.
fn give_and_close<K: Keeper>(
    alloc: Global,
    desk: Desk<K>,
    run: &mut Run,
) -> (Result<(), KeepFault>, K)
    requires { IsKept ⟦<K as Keeper>⟧ desk.keeper (tables_of desk.state) }
{
    let mut desk = desk;
    let answer = give_each(alloc, &mut desk, run);
    (answer, desk.close())
}

/// Opens a desk over a keeper, gives it the commands up to the first failure, and closes it.
pub(crate) fn run_over<K: Keeper>(
    alloc: Global,
    keeper: K,
    run: &mut Run,
) -> (Result<(), KeepFault>, K) {
    match Desk::open(alloc, keeper, Loaded::new(alloc)) {
        Ok(desk) => give_and_close(alloc, desk, run),
        Err((OpenFault::Keeper, keeper)) => (Err(KeepFault::Failed), keeper),
        Err((_fault, keeper)) => (Err(KeepFault::Memory), keeper),
    }
}

/// How many of the commands make what a desk over a keeper lists; None where no number of them does,
/// or it can't be opened.
pub(crate) fn count_over<K: Keeper>(alloc: Global, keeper: K) -> Option<usize> {
    match Desk::open(alloc, keeper, Loaded::new(alloc)) {
        Ok(desk) => count_in(&desk),
        Err(_refused) => None,
    }
}
