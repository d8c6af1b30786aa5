//! Changes that are made by chance, and the rows after each of them. They are compared with those
//! of all pairs of an entry and an address, which are made anew from plain tables.
ghost use Rattle.std.specs.Prelude.{◌<◌};
ghost use Rattle.base_rows.specs.Ledgers.{IsBlankOf};

use acl_compile::Compiled;
use acl_model::{
    Binding, DefaultRule, Entry, MemberKey, Policy, Selector, default_entry, same_key,
};
use acl_rows::{Row, RulePart};
use base_rows::Steps;
use mud_base::{Addr, Bytes, Direction, End, Family, Listed, Memory};
use mud_url::{MudUrl, mud_url};
use std::alloc::Global;
use std::marker::Brand;
use std::sync::ledger::{Blank, Ledger};
use std::test::Fail;

/// The URLs: two of one maker, and one of another.
const URLS: [&[u8]; 3] = [
    b"https://a.example.com/bulb",
    b"https://a.example.com/switch",
    b"https://b.example.com/lock",
];

/// The makers.
const MAKERS: [&[u8]; 2] = [b"a.example.com", b"b.example.com"];

/// The class of the DNS servers, which the default entries name too.
const DNS: &[u8] = b"urn:ietf:params:mud:dns";

/// 192.0.2.1, 192.0.2.2, ::1 and ::2.
const ADDRS: [Addr; 4] = [
    Addr::V4(0xc000_0201),
    Addr::V4(0xc000_0202),
    Addr::V6(1),
    Addr::V6(2),
];

/// Which IP versions an entry is for, and what it asks the peer to be: the sum of 1 for a Thing of
/// the first maker, 2 for a Thing of the maker of the file's Thing, and 4 for a DNS server.
type Asked = (Family, u8);

/// The entries for what a Thing sends, and those for what is sent to it.
type File = [[Asked; 3]; 2];

/// The files.
const FILES: [File; 2] = [
    [
        [(Family::Both, 4), (Family::Both, 2), (Family::Both, 5)],
        [(Family::V4, 6), (Family::Both, 0), (Family::V6, 1)],
    ],
    [
        [(Family::V4, 1), (Family::Both, 7), (Family::V6, 0)],
        [(Family::V6, 4), (Family::Both, 2), (Family::Both, 2)],
    ],
];

/// The default entries of each side: the second asks for an NTP server, and there is no third one.
const DEFAULTS: [Asked; 3] = [(Family::Both, 4), (Family::Both, 0), (Family::Both, 0)];

/// What is held and bound.
#[derive(Drop)]
struct Plain {
    /// The file of each URL.
    files: [Option<File>; 3],
    /// Of each address the expiries of its bindings to the makers and the class; 0 where there is
    /// none.
    expiries: [[u64; 3]; 4],
}

/// A number below this one, by a linear congruence.
fn below(chance: &mut u64, count: usize) -> usize
    requires { 0 < count }
    ensures { result < count }
{
    *chance = chance
        .wrapping_mul(6364136223846793005)
        .wrapping_add(1442695040888963407);
    (*chance >> 33) as usize % count
}

/// What an address is bound to.
fn made_key(alloc: Global, n: usize) -> Result<MemberKey, Memory> {
    match n {
        0 => Ok(MemberKey::Host(Bytes::new(alloc, MAKERS[0])?)),
        1 => Ok(MemberKey::Host(Bytes::new(alloc, MAKERS[1])?)),
        _ => Ok(MemberKey::Class(Bytes::new(alloc, DNS)?)),
    }
}

/// Adds the bindings of an address that have an expiry.
fn push_bound(
    alloc: Global,
    addr: Addr,
    expiries: [u64; 3],
    bindings: &mut Listed<Binding>,
) -> Result<(), Memory> {
    for (n, until) in expiries.iter().enumerate() {
        if *until > 0 {
            let key = made_key(alloc, n)?;
            let until = End(*until);
            bindings.push(Binding { key, addr, until })?;
        }
    }
    Ok(())
}

/// The bindings of an address that have an expiry.
fn bound(alloc: Global, addr: Addr, expiries: [u64; 3]) -> Result<Listed<Binding>, Memory> {
    let mut bindings = Listed::new(alloc);
    match push_bound(alloc, addr, expiries, &mut bindings) {
        Ok(()) => Ok(bindings),
        Err(memory) => {
            drop(bindings);
            Err(memory)
        }
    }
}

/// About half of the expiries come, go or are others.
fn change_some(chance: &mut u64, expiries: &mut [u64; 3]) {
    for until in expiries.iter_mut() {
        if below(chance, 2) == 0 {
            *until = below(chance, 4) as u64;
        }
    }
}

/// Whether both are of one key, address and expiry.
fn is_same(own: &Binding, other: &Binding) -> bool {
    same_key(&own.key, &other.key) && own.addr == other.addr && own.until == other.until
}

/// Copies of those bindings that aren't among the others, in their order.
fn those_not_in(
    alloc: Global,
    others: &[Binding],
    bindings: &[Binding],
) -> Result<Listed<Binding>, Memory> {
    let mut left = Listed::new(alloc);
    for binding in bindings {
        if !others.iter().any(|other| is_same(binding, other)) {
            left.push(binding.copy()?)?;
        }
    }
    Ok(left)
}

/// Plans that those bindings go which don't stay and those come which weren't there, and does it.
fn change<L: Ledger>(
    alloc: Global,
    compiled: &mut Compiled,
    before: &[Binding],
    after: &[Binding],
    steps: &mut Steps<L>,
) -> Result<bool, Memory> {
    let gone = those_not_in(alloc, after, before)?;
    let come = those_not_in(alloc, before, after)?;
    let plan = compiled.plan_member(gone.as_slice(), come.as_slice(), steps);
    drop(gone);
    drop(come);
    compiled.commit(plan?, steps);
    Ok(true)
}

/// Bindings of one of the addresses change.
fn change_bound<L: Ledger>(
    alloc: Global,
    compiled: &mut Compiled,
    plain: &mut Plain,
    chance: &mut u64,
    steps: &mut Steps<L>,
) -> Result<bool, Memory> {
    let n = below(chance, 4);
    let before = bound(alloc, ADDRS[n], plain.expiries[n])?;
    change_some(chance, &mut plain.expiries[n]);
    let after = bound(alloc, ADDRS[n], plain.expiries[n])?;
    change(alloc, compiled, before.as_slice(), after.as_slice(), steps)
}

/// Adds what these ask for.
fn push_selectors(
    alloc: Global,
    asked: u8,
    selectors: &mut Listed<Selector>,
) -> Result<(), Memory> {
    if asked & 1 != 0 {
        selectors.push(Selector::Manufacturer(Bytes::new(alloc, MAKERS[0])?))?;
    }
    if asked & 2 != 0 {
        selectors.push(Selector::SameManufacturer)?;
    }
    if asked & 4 != 0 {
        selectors.push(Selector::Controller(Bytes::new(alloc, DNS)?))?;
    }
    Ok(())
}

/// The entry that asks for these.
fn made_entry(alloc: Global, (family, asked): Asked) -> Result<Entry, Memory> {
    let mut entry = default_entry(alloc, DefaultRule::Dns, Direction::From)?;
    entry.family = family;
    entry.selectors = Listed::new(alloc);
    match push_selectors(alloc, asked, &mut entry.selectors) {
        Ok(()) => Ok(entry),
        Err(memory) => {
            drop(entry);
            Err(memory)
        }
    }
}

/// Adds these entries.
fn push_entries(
    alloc: Global,
    asked: [Asked; 3],
    entries: &mut Listed<Entry>,
) -> Result<(), Memory> {
    for one in asked {
        entries.push(made_entry(alloc, one)?)?;
    }
    Ok(())
}

/// Adds the entries of a file to a policy.
fn push_both(alloc: Global, [outgoing, incoming]: File, policy: &mut Policy) -> Result<(), Memory> {
    push_entries(alloc, outgoing, &mut policy.outgoing)?;
    push_entries(alloc, incoming, &mut policy.incoming)
}

/// Plans that this policy is held for the URL, and does it. False where it can't be held.
fn hold<L: Ledger>(
    compiled: &mut Compiled,
    url: &MudUrl,
    policy: &Policy,
    steps: &mut Steps<L>,
) -> Result<bool, Memory> {
    if !compiled.has_slot(url) {
        return Ok(false);
    }
    if policy.outgoing.len() > 128 {
        return Ok(false);
    }
    if policy.incoming.len() > 128 {
        return Ok(false);
    }
    let plan = compiled.plan_policy(url, Some(policy), steps)?;
    compiled.commit(plan, steps);
    Ok(true)
}

/// A file is held for a URL.
fn hold_made<L: Ledger>(
    alloc: Global,
    compiled: &mut Compiled,
    url: &MudUrl,
    file: File,
    steps: &mut Steps<L>,
) -> Result<bool, Memory> {
    let (outgoing, incoming) = (Listed::new(alloc), Listed::new(alloc));
    let mut policy = Policy { outgoing, incoming };
    let held = match push_both(alloc, file, &mut policy) {
        Ok(()) => hold(compiled, url, &policy, steps),
        Err(memory) => Err(memory),
    };
    drop(policy);
    held
}

/// Plans that no policy is held for the URL, and does it. False where there is no slot for the URL.
fn release<L: Ledger>(
    compiled: &mut Compiled,
    url: &MudUrl,
    steps: &mut Steps<L>,
) -> Result<bool, Memory> {
    if !compiled.has_slot(url) {
        return Ok(false);
    }
    let plan = compiled.plan_policy(url, None, steps)?;
    compiled.commit(plan, steps);
    Ok(true)
}

/// A file is held for one of the URLs, or none. False where it can't be held.
fn change_held<L: Ledger>(
    alloc: Global,
    compiled: &mut Compiled,
    plain: &mut Plain,
    chance: &mut u64,
    steps: &mut Steps<L>,
) -> Result<bool, Fail> {
    let n = below(chance, 3);
    let file = FILES.get(below(chance, 3)).copied();
    plain.files[n] = file;
    let url = mud_url(URLS[n])?;
    match file {
        None => Ok(release(compiled, &url, steps)?),
        Some(file) => Ok(hold_made(alloc, compiled, &url, file, steps)?),
    }
}

/// Until when an address with these expiries meets an entry in the file of a Thing of the first or
/// the other maker: the least expiry of what it asks for; 0 where it doesn't.
fn expiry_of(
    (family, asked): Asked,
    is_other: bool,
    addr: Addr,
    [first, other, dns]: [u64; 3],
) -> u64 {
    let is_in = match addr {
        Addr::V4(_) => family != Family::V6,
        Addr::V6(_) => family != Family::V4,
    };
    if !is_in || asked == 0 {
        return 0;
    }
    let mut until = u64::MAX;
    if asked & 1 != 0 {
        until = until.min(first);
    }
    if asked & 2 != 0 {
        until = until.min(if is_other { other } else { first });
    }
    if asked & 4 != 0 {
        until = until.min(dns);
    }
    until
}

/// Whether a row is of this address, and of the entry at this index, with this expiry.
fn is_row(row: &Row, addr: Addr, index: usize, until: u64) -> bool {
    row.addr.addr() == addr
        && usize::from(row.entry).checked_sub(1) == Some(index)
        && row.until.0 == until
}

/// Whether these are the rows of the entries at an address.
fn are_rows(
    rows: &[Row],
    entries: [Asked; 3],
    is_other: bool,
    addr: Addr,
    expiries: [u64; 3],
) -> bool {
    let mut left = rows;
    for (index, asked) in entries.iter().enumerate() {
        let until = expiry_of(*asked, is_other, addr, expiries);
        if until > 0 {
            match left.split_first() {
                Some((row, rest)) if is_row(row, addr, index, until) => left = rest,
                _ => return false,
            }
        }
    }
    left.is_empty()
}

/// Whether a part has exactly the rows of these entries.
fn part_agrees<L: Ledger>(
    part: &RulePart<'_>,
    entries: [Asked; 3],
    is_other: bool,
    plain: &Plain,
    steps: &mut Steps<L>,
) -> bool {
    for (addr, expiries) in ADDRS.iter().zip(&plain.expiries) {
        let rows = part.rows_at(*addr, steps);
        if !are_rows(rows, entries, is_other, *addr, *expiries) {
            return false;
        }
    }
    true
}

/// The entries of one side of a file.
fn side_of([outgoing, incoming]: File, side: Direction) -> [Asked; 3] {
    match side {
        Direction::From => outgoing,
        Direction::To => incoming,
    }
}

/// Whether the rows of a URL and those of the defaults are those of the tables, on a side.
fn url_agrees<L: Ledger>(
    compiled: &Compiled,
    plain: &Plain,
    n: usize,
    side: Direction,
    steps: &mut Steps<L>,
) -> Result<bool, Fail>
    requires { n < 3 }
{
    let view = compiled.view(&mud_url(URLS[n])?, side);
    let is_own = match (plain.files[n], view.file_part()) {
        (None, None) => true,
        (Some(file), Some(part)) => part_agrees(&part, side_of(file, side), n == 2, plain, steps),
        _ => false,
    };
    Ok(is_own && part_agrees(&view.default_part(), DEFAULTS, false, plain, steps))
}

/// Whether all rows are those of the tables.
fn agree<L: Ledger>(
    compiled: &Compiled,
    plain: &Plain,
    steps: &mut Steps<L>,
) -> Result<bool, Fail> {
    for n in 0..6 {
        let side = if n < 3 {
            Direction::From
        } else {
            Direction::To
        };
        if !url_agrees(compiled, plain, n % 3, side, steps)? {
            return Ok(false);
        }
    }
    Ok(true)
}

/// Makes a change by chance, and tells whether all rows are those of the tables.
fn change_agrees<L: Ledger>(
    alloc: Global,
    compiled: &mut Compiled,
    plain: &mut Plain,
    chance: &mut u64,
    steps: &mut Steps<L>,
) -> Result<bool, Fail> {
    let is_made = match below(chance, 4) {
        0 => change_held(alloc, compiled, plain, chance, steps)?,
        _ => change_bound(alloc, compiled, plain, chance, steps)?,
    };
    Ok(is_made && agree(compiled, plain, steps)?)
}

/// How many of so many changes are made until the rows aren't those of the tables.
fn changes_agree<L: Ledger>(
    alloc: Global,
    compiled: &mut Compiled,
    count: usize,
    steps: &mut Steps<L>,
) -> Result<usize, Fail> {
    let files = [None; 3];
    let expiries = [[0; 3]; 4];
    let mut plain = Plain { files, expiries };
    let mut chance = 1;
    for made in 0..count {
        if !change_agrees(alloc, compiled, &mut plain, &mut chance, steps)? {
            return Ok(made);
        }
    }
    Ok(count)
}

/// The same, with nothing held and bound before.
fn changes_made<L: Ledger>(alloc: Global, count: usize, blank: Blank) -> Result<usize, Fail>
    requires blank { IsBlankOf L.name L.parts blank }
{
    let mut steps = Steps::<L>::new(blank);
    let mut compiled = Compiled::new(alloc)?;
    let made = changes_agree(alloc, &mut compiled, count, &mut steps);
    drop(compiled);
    made
}

#[test]
fn rows_are_those_made_anew(rt: HostRuntime) -> Result<(), Fail> {
    let made = changes_made::<Brand>(rt.alloc(), 2000, Blank::new(1))?;
    assert_eq!(rt; made, 2000);
    Ok(())
}
