//! Commands to a desk, each with what is told of it, all at one moment.
ghost use Rattle.std.specs.Prelude.{IfOk};
ghost use Rattle.desk_model.specs.Commands.{IsAsked};

use crate::bulb::{ADDRESS, CLASS, DIGEST, FILE, MAC, NAME, RESOLVER, SERVER, URL};
use crate::switch::{SWITCH, SWITCH_DIGEST, SWITCH_FILE, SWITCH_URL};
use desk_model::{Command, Outcome};
use mud_base::{Bytes, Memory, Moment};
use mud_url::{MudUrl, canonical_url};
use std::alloc::Global;
use table_model::Class;
use usage_tables::OperatorVerdict;

/// The moment of the commands, in seconds.
pub(crate) const SECOND: u64 = 1000;

/// What a command does.
#[derive(Clone, Copy)]
pub enum Deed {
    /// The bulb announces its URL.
    Announce,
    /// It has its address, for a day.
    Lease,
    /// Its file is fetched.
    Import,
    /// The file is approved without a signature.
    Approve,
    /// The resolver is bound to its class.
    Bind,
    /// The name is observed at the server, for a minute.
    Observe,
    /// A longer file is fetched, which takes several pages of the database.
    Lengthen,
    /// The bulb goes.
    Remove,
    /// The file of the switch is fetched.
    ImportSwitch,
    /// It is approved without a signature.
    ApproveSwitch,
    /// The switch announces its URL.
    AnnounceSwitch,
    /// No Thing has the bulb's address any longer.
    EndLease,
}

/// What is told of a command: the word, and the second of an expiry.
pub type Told = (&'static [u8], Option<u64>);

/// The commands in their order.
pub(crate) static DEEDS: [(Deed, Told); 8] = [
    (Deed::Announce, (b"new", None)),
    (Deed::Lease, (b"new", Some(87400))),
    (Deed::Import, (b"new", None)),
    (Deed::Approve, (b"approved", None)),
    (Deed::Bind, (b"bound", None)),
    (Deed::Observe, (b"new", Some(1060))),
    (Deed::Lengthen, (b"new", None)),
    (Deed::Remove, (b"removed", None)),
];

/// The file of the switch is approved, before the switch announces its URL.
pub(crate) static SWITCH_DEEDS: [(Deed, Told); 3] = [
    (Deed::ImportSwitch, (b"new", None)),
    (Deed::ApproveSwitch, (b"approved", None)),
    (Deed::AnnounceSwitch, (b"new", None)),
];

/// The bulb's address is taken back.
pub(crate) static END_DEEDS: [(Deed, Told); 1] = [(Deed::EndLease, (b"ended", None))];

/// The moment of the commands.
pub(crate) fn moment() -> Moment {
    Moment::at_most_last(SECOND)
}

/// A URL.
fn url_of(text: &[u8]) -> Result<MudUrl, Memory> {
    match canonical_url(text) {
        Some(url) => Ok(url),
        None => Err(Memory),
    }
}

/// The approval of a file without a signature.
fn approval(alloc: Global, url: &[u8], digest: &[u8]) -> Result<Command, Memory>
    ensures { IfOk result (λ command. IsAsked command) }
{
    let digest = Bytes::new(alloc, digest)?;
    Ok(Command::Verdict(url_of(url)?, digest, OperatorVerdict::Waived))
}

/// The file with 9,000 spaces behind it.
fn longer_file(alloc: Global) -> Result<Bytes, Memory> {
    let mut file = Bytes::new(alloc, FILE)?;
    file.append(&[b' '; 9000])?;
    Ok(file)
}

/// The resolver is bound to its class.
#[tactic(auto, unfolding(table_model::specs::Binds::is_class, table_model::specs::Binds::is_class_uri))]
fn binding(alloc: Global) -> Result<Command, Memory>
    ensures { IfOk result (λ command. IsAsked command) }
{
    let class = Class::Uri(Bytes::new(alloc, CLASS)?);
    Ok(Command::Bind(class, RESOLVER))
}

/// The name is observed at the server.
#[tactic(auto, using(crate::proofs::Names::may_be_observed))]
fn observation(alloc: Global) -> Result<Command, Memory>
    ensures { IfOk result (λ command. IsAsked command) }
{
    let name = Bytes::new(alloc, NAME)?;
    Ok(Command::Observe(name, SERVER, 60))
}

/// The command that does this.
pub(crate) fn command_of(alloc: Global, deed: Deed) -> Result<Command, Memory>
    ensures { IfOk result (λ command. IsAsked command) }
{
    match deed {
        Deed::Announce => Ok(Command::HearUrl(MAC, url_of(URL)?)),
        Deed::Lease => Ok(Command::Lease(MAC, ADDRESS, 86_400)),
        Deed::Import => Ok(Command::Import(Bytes::new(alloc, FILE)?, moment())),
        Deed::Approve => approval(alloc, URL, DIGEST),
        Deed::Bind => binding(alloc),
        Deed::Observe => observation(alloc),
        Deed::Lengthen => Ok(Command::Import(longer_file(alloc)?, moment())),
        Deed::Remove => Ok(Command::Remove(MAC)),
        Deed::ImportSwitch => Ok(Command::Import(Bytes::new(alloc, SWITCH_FILE)?, moment())),
        Deed::ApproveSwitch => approval(alloc, SWITCH_URL, SWITCH_DIGEST),
        Deed::AnnounceSwitch => Ok(Command::HearUrl(SWITCH, url_of(SWITCH_URL)?)),
        Deed::EndLease => Ok(Command::EndLease(ADDRESS)),
    }
}

/// Whether this is told of a command.
pub(crate) fn is_told(outcome: &Outcome, told: &Told) -> bool {
    let (word, until) = *told;
    let is_until = match (outcome.until, until) {
        (Some(end), Some(second)) => end.0 == second,
        (None, None) => true,
        _ => false,
    };
    is_until && outcome.word.text().as_bytes() == word
}
