//! The commands that set the network of a drill up, all at one moment.
ghost use Rattle.std.specs.Prelude.{◌≡◌, IfOk, codes};
ghost use Rattle.desk_model.specs.Commands.{IsAsked};
ghost use Rattle.usage_tables.specs.Held.{digest_of};
ghost use Rattle.run_drills.specs.Commands as spec;
ghost use Rattle.run_drills.specs.Network.{usage_url, dns_address, mac_of};
ghost use Rattle.desk_model.specs.declared.command.Command.TheVariants.{Bind, HearUrl};
ghost use Rattle.table_model.specs.declared.bind.Class.TheVariants.{Uri};
ghost use Rattle.mud_base.specs.declared.addr.Addr.TheVariants.{V4};

use crate::network::{append_host, host_address, lease_of, mac_of, url_of};
use desk_model::Command;
use mud_base::{Addr, Bytes, Memory, Moment};
use std::alloc::Global;
use table_model::Class;
use usage_tables::OperatorVerdict;
use usage_tables::held::digest_of;

/// The moment of the commands, in seconds.
const COMMAND_SECONDS: u64 = 1000;

/// The seconds of a lease: a day.
const LEASE_SECONDS: u32 = 86_400;

/// For so many seconds the address of a host's name is kept: an hour.
const HOST_SECONDS: u32 = 3600;

/// The IPv4 address of the DNS server: 192.0.2.53.
pub(crate) const DNS_ADDRESS: u32 = 0xC000_0235;

/// The class of DNS servers (RFC 8520, 4.6).
const DNS_CLASS: &[u8] = b"urn:ietf:params:mud:dns";

/// A round of commands over the Things.
#[derive(Clone, Copy)]
pub enum Round {
    /// Each Thing announces its MUD URL.
    Announcements,
    /// Each gets its address.
    Leases,
    /// The usage file of its model is fetched, and then approved.
    Files,
    /// The host with which it speaks is observed.
    Hosts,
}

/// The moment of every command.
pub(crate) fn command_moment() -> Moment
    ensures { result ≡ spec.command_moment }
{
    Moment::at_most_last(COMMAND_SECONDS)
}

/// The Thing announces the URL of its model.
#[tactic(auto)]
pub(crate) fn announcement(alloc: Global, thing: u16) -> Result<Command, Memory>
    ensures made { IfOk result (λ command. command ≡ HearUrl (mac_of thing) (usage_url thing)) }
    ensures asked { IfOk result (λ command. IsAsked command) }
{
    let url = url_of(alloc, thing)?;
    Ok(Command::HearUrl(mac_of(thing), url))
}

/// A DHCP server gives the Thing its address.
#[tactic(auto, unfolding(crate::specs::Commands::lease))]
pub(crate) fn lease(thing: u16) -> Command
    ensures made { result ≡ spec.lease thing }
    ensures asked { IsAsked result }
{
    Command::HearLease(mac_of(thing), Addr::V4(lease_of(thing)), LEASE_SECONDS)
}

/// The octets, which are a usage file of the drill, are fetched.
pub(crate) fn fetched_file(file: Bytes) -> Command
    ensures made { result ≡ Command.Import file spec.command_moment }
    ensures asked { IsAsked result }
{
    Command::Import(file, command_moment())
}

/// The usage file of the Thing's model, which has these octets, is approved without a signature.
pub(crate) fn approval(alloc: Global, thing: u16, file: &[u8]) -> Result<Command, Memory>
    ensures made { IfOk result (λ command. command ≡ Command.Verdict (usage_url thing) (digest_of file.now) OperatorVerdict.Waived) }
    ensures asked { IfOk result (λ command. IsAsked command) }
{
    let url = url_of(alloc, thing)?;
    let digest = Bytes::new(alloc, &digest_of(file))?;
    Ok(Command::Verdict(url, digest, OperatorVerdict::Waived))
}

/// The DNS server is bound to its class.
#[tactic(auto, unfolding(table_model::specs::Binds::is_class, table_model::specs::Binds::is_class_uri))]
pub(crate) fn binding(alloc: Global) -> Result<Command, Memory>
    ensures made { IfOk result (λ command. command ≡ Bind (Uri (codes "urn:ietf:params:mud:dns")) (V4 dns_address)) }
    ensures asked { IfOk result (λ command. IsAsked command) }
{
    let class = Class::Uri(Bytes::new(alloc, DNS_CLASS)?);
    Ok(Command::Bind(class, Addr::V4(DNS_ADDRESS)))
}

/// The host with which the Thing speaks is observed at its address.
#[tactic(auto, using(crate::proofs::Names::host_is_name), unfolding(crate::specs::Commands::observation))]
pub(crate) fn observation(alloc: Global, thing: u16) -> Result<Command, Memory>
    ensures made { IfOk result (λ command. command ≡ spec.observation thing) }
    ensures asked { IfOk result (λ command. IsAsked command) }
{
    let mut name = Bytes::empty(alloc);
    append_host(&mut name, thing)?;
    let address = Addr::V4(host_address(thing));
    Ok(Command::Observe(name, address, HOST_SECONDS))
}
