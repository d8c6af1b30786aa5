//! The items of a resolved list.
ghost use Rattle.std.specs.Prelude.{◌≡◌, ℕ, ◌+◌, ◌≤◌, length, [], ◌∷◌, ◌++◌, Some, OnOk, IfOk, option_map, map};
ghost use Rattle.base_rows.specs.Sortable.{set_rows};
ghost use Rattle.base_rows.specs.Addresses.{prefix_sort_key};
ghost use Rattle.acl_rows.specs.ByAddress.{grouped};
ghost use Rattle.rule_export.specs.Networks.{rows_in};
ghost use Rattle.rule_export.specs.Listed as listed;
ghost use Rattle.rule_export.specs.Resolved as spec;

use crate::item::{Resolved, RuleNumber};
use crate::near_networks;
use acl_model::{DefaultRule, Entry, is_in_family, near_matches};
use acl_rows::{PackedAddr, Row, RulePart, RuleView};
use base_rows::{SortedRows, Steps};
use mud_base::{Addr, Family, Listed, Memory, Moment, Prefix};
use std::alloc::Global;
use std::collections::BTreeMap;
use std::marker::Model;
use std::sync::ledger::Ledger;

/// What a list is asked for: the local networks, the moment, and the IP version.
#[derive(Drop)]
pub struct Wants<'a> {
    locals: &'a [Prefix],
    moment: Moment,
    family: Family,
}

impl<'a> Model for Wants<'a> {
    ghost use Rattle.rule_export.specs.Resolved.{Wanted, wanted};

    ghost Value = { Wanted };

    ghost view = { λ w. wanted w.locals.now w.moment w.family };
}

/// Whether the row is of this entry, is live, and its address is of the version and meets the entry's
/// near selectors.
#[tactic(auto, unfolding(crate::specs::Resolved::is_wanted, table_model::specs::Expiries::is_live))]
fn is_wanted(w: &Wants<'_>, n: u16, entry: &Entry, row: &Row) -> bool
    ensures { result ≡ spec.is_wanted w.now n entry.now row.now }
{
    let addr = row.addr.addr();
    row.entry == n
        && (w.moment.seconds() < row.until.0
            && (is_in_family(w.family, addr) && near_matches(entry, addr, w.locals)))
}

/// The network of the row's address alone.
#[tactic(auto, using(crate::proofs::HostLaws::host_rules), unfolding(crate::specs::Resolved::host_network))]
fn host_network(row: &Row) -> Option<Prefix>
    ensures { result ≡ Some (spec.host_network row.now) }
{
    match row.addr.addr() {
        Addr::V4(number) => Prefix::new(Addr::V4(number), 32),
        Addr::V6(number) => Prefix::new(Addr::V6(number), 128),
    }
}

/// Puts in the network of the row's address, where the row is wanted.
#[tactic(auto, unfolding(crate::specs::Resolved::wanted_networks))]
fn put_wanted(
    networks: &mut SortedRows<Prefix>,
    w: &Wants<'_>,
    n: u16,
    entry: &Entry,
    row: &Row,
) -> Result<(), Memory>
    ensures { OnOk result (networks.new.rows ≡ set_rows prefix_sort_key (spec.wanted_networks w.now n entry.now (row.now ∷ [])) networks.old.rows) }
{
    if !is_wanted(w, n, entry, row) {
        return Ok(());
    }
    if let Some(network) = host_network(row) {
        networks.reserve(1)?;
        networks.put(network);
    }
    Ok(())
}

/// The same of each row.
#[tactic(auto, unfolding(crate::specs::Resolved::wanted_networks))]
fn put_rows(
    networks: &mut SortedRows<Prefix>,
    w: &Wants<'_>,
    n: u16,
    entry: &Entry,
    rows: &[Row],
) -> Result<(), Memory>
    ensures { OnOk result (networks.new.rows ≡ set_rows prefix_sort_key (spec.wanted_networks w.now n entry.now rows.now) networks.old.rows) }
{
    for row in rows {
        put_wanted(networks, w, n, entry, row)?;
    }
    Ok(())
}

/// The same of the rows of each group.
#[tactic(auto, unfolding(crate::specs::Resolved::wanted_networks))]
fn put_groups(
    networks: &mut SortedRows<Prefix>,
    w: &Wants<'_>,
    n: u16,
    entry: &Entry,
    groups: &BTreeMap<PackedAddr, SortedRows<Row>>,
) -> Result<(), Memory>
    ensures { OnOk result (networks.new.rows
        ≡ set_rows prefix_sort_key (spec.wanted_networks w.now n entry.now (grouped groups.now.entries)) networks.old.rows) }
{
    for group in groups.values() {
        put_rows(networks, w, n, entry, group.rows())?;
    }
    Ok(())
}

/// The networks of an entry with member selectors: the addresses of its rows.
#[tactic(auto, unfolding(crate::specs::Resolved::member_networks, crate::specs::Networks::in_order))]
fn member_networks(
    alloc: Global,
    w: &Wants<'_>,
    n: u16,
    entry: &Entry,
    groups: &BTreeMap<PackedAddr, SortedRows<Row>>,
) -> Result<SortedRows<Prefix>, Memory>
    ensures { IfOk result (λ networks. networks.rows ≡ spec.member_networks w.now (grouped groups.now.entries) n entry.now) }
{
    let mut networks = SortedRows::new(alloc);
    put_groups(&mut networks, w, n, entry, groups)?;
    Ok(networks)
}

/// Whether an entry of the first is for packets of the second.
#[tactic(auto, unfolding(crate::specs::Listed::covers))]
fn covers(entry: Family, packets: Family) -> bool
    ensures { result ≡ listed.covers entry packets }
{
    match (entry, packets) {
        (Family::Both, _) => true,
        (Family::V4, Family::V4) => true,
        (Family::V6, Family::V6) => true,
        _ => false,
    }
}

/// Adds an item for each network, numbered from 1 on.
#[tactic(auto, unfolding(crate::specs::Listed::items_from))]
fn push_items(
    list: &mut Listed<Resolved>,
    rule: RuleNumber,
    networks: &[Prefix],
) -> Result<(), Memory>
    ensures { OnOk result (list.new ≡ list.old ++ listed.items_from rule 1 (map Some networks.now)) }
{
    let mut number: u64 = 0;
    for network in networks {
        number += 1;
        list.push(Resolved {
            rule,
            number,
            network: Some(*network),
        })?;
    }
    Ok(())
}

/// Adds the items of an entry.
#[tactic(auto, unfolding(crate::specs::Resolved::entry_items, crate::specs::Resolved::entry_networks, crate::specs::Listed::items_from, crate::specs::Networks::asked_networks))]
fn push_entry(
    alloc: Global,
    list: &mut Listed<Resolved>,
    w: &Wants<'_>,
    rule: RuleNumber,
    n: u16,
    entry: &Entry,
    groups: &BTreeMap<PackedAddr, SortedRows<Row>>,
) -> Result<(), Memory>
    ensures { OnOk result (list.new ≡ list.old ++ spec.entry_items w.now (λ _. rule) (grouped groups.now.entries) (n, entry.now)) }
{
    if !covers(entry.family, w.family) {
        return Ok(());
    }
    if entry.is_membered() {
        let networks = member_networks(alloc, w, n, entry, groups)?;
        return push_items(list, rule, networks.rows());
    }
    match near_networks(alloc, entry, w.family, w.locals)? {
        Some(networks) => push_items(list, rule, networks.rows()),
        None => list.push(Resolved {
            rule,
            number: 1,
            network: None,
        }),
    }
}

/// The rule of the entry of a number, of the defaults or of the file.
#[tactic(auto, unfolding(crate::specs::Resolved::rule_in, crate::specs::Resolved::default_rule))]
fn rule_in(defaults: bool, n: u16) -> RuleNumber
    ensures { result ≡ spec.rule_in defaults n }
{
    match (defaults, n) {
        (false, n) => RuleNumber::File(n),
        (true, 0 | 1) => RuleNumber::Default(DefaultRule::Dns),
        (true, _) => RuleNumber::Default(DefaultRule::Ntp),
    }
}

/// Adds the items of each entry of a part, whose rows are these.
#[tactic(auto, unfolding(crate::specs::Resolved::part_items))]
fn push_part(
    alloc: Global,
    list: &mut Listed<Resolved>,
    w: &Wants<'_>,
    defaults: bool,
    part: &RulePart<'_>,
    groups: &BTreeMap<PackedAddr, SortedRows<Row>>,
) -> Result<(), Memory>
    requires { grouped groups.now.entries ≡ part.now.rows }
    ensures { OnOk result (list.new ≡ list.old ++ spec.part_items w.now (spec.rule_in defaults) part.now) }
{
    let mut n: u16 = 0;
    'entries: while n < part.count() {
        n += 1;
        push_entry(
            alloc,
            list,
            w,
            rule_in(defaults, n),
            n,
            part.entry(n),
            groups,
        )?;
    }
    Ok(())
}

/// Adds the items of a part. Each of its rows is one step.
fn push_of<L: Ledger>(
    alloc: Global,
    list: &mut Listed<Resolved>,
    w: &Wants<'_>,
    defaults: bool,
    part: &RulePart<'_>,
    steps: &mut Steps<L>,
) -> Result<(), Memory>
    ensures ok { OnOk result (list.new ≡ list.old ++ spec.part_items w.now (spec.rule_in defaults) part.now) }
    ensures counted { steps.new ≡ steps.old + length part.now.rows }
{
    let groups = part.rows(steps);
    push_part(alloc, list, w, defaults, part, groups)
}

/// Adds the items of the file, where there is one.
#[tactic(auto, unfolding(crate::specs::Resolved::file_items, crate::specs::Resolved::rule_in, crate::specs::Resolved::file_row_count))]
fn push_file<L: Ledger>(
    alloc: Global,
    list: &mut Listed<Resolved>,
    w: &Wants<'_>,
    file: Option<RulePart<'_>>,
    steps: &mut Steps<L>,
) -> Result<(), Memory>
    ensures ok { OnOk result (list.new ≡ list.old ++ spec.file_items w.now file.entry) }
    ensures counted { steps.new ≡ steps.old + spec.file_row_count file.entry }
{
    match file {
        None => Ok(()),
        Some(part) => push_of(alloc, list, w, false, &part, steps),
    }
}

/// The resolved list of a view for one IP version, by these local networks, at this moment. Each row of
/// the view is one step.
#[tactic(auto, unfolding(crate::specs::Resolved::resolved_of, crate::specs::Resolved::rule_in))]
pub fn list_of<L: Ledger>(
    alloc: Global,
    view: &RuleView<'_>,
    locals: &[Prefix],
    family: Family,
    m: Moment,
    steps: &mut Steps<L>,
) -> Result<Listed<Resolved>, Memory>
    ensures list { IfOk result (λ list. list ≡ spec.resolved_of (spec.wanted locals.now m family) view.now) }
    ensures counted { OnOk result (steps.new ≡ steps.old + spec.file_row_count view.now.file + length view.now.defaults.rows) }
    ensures most { steps.new ≤ steps.old + spec.file_row_count view.now.file + length view.now.defaults.rows }
{
    let w = Wants {
        locals,
        moment: m,
        family,
    };
    let mut list = Listed::new(alloc);
    push_file(alloc, &mut list, &w, view.file_part(), steps)?;
    push_of(alloc, &mut list, &w, true, &view.default_part(), steps)?;
    Ok(list)
}

/// The same of a view that is handed over.
pub fn export_list<L: Ledger>(
    alloc: Global,
    view: RuleView<'_>,
    locals: &[Prefix],
    family: Family,
    m: Moment,
    steps: &mut Steps<L>,
) -> Result<Listed<Resolved>, Memory>
    ensures list { IfOk result (λ list. list ≡ spec.resolved_of (spec.wanted locals.now m family) view.entry) }
    ensures counted { OnOk result (steps.new ≡ steps.old + spec.file_row_count view.entry.file + length view.entry.defaults.rows) }
    ensures most { steps.new ≤ steps.old + spec.file_row_count view.entry.file + length view.entry.defaults.rows }
{
    list_of(alloc, &view, locals, family, m, steps)
}
