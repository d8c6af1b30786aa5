//! The commands that may change the tables.
use mud_base::{Addr, Bytes, Listed, Mac, Moment, Prefix};
use mud_url::MudUrl;
use table_model::Class;
use usage_tables::OperatorVerdict;

/// A command: what was heard from a Thing, or what the operator states.
#[derive(Drop)]
pub enum Command {
    /// A hardware address announced a URL (RFC 8520, 1.5, 10 and 12).
    HearUrl(Mac, MudUrl),
    /// A DHCP server gave a hardware address an address, for so many seconds (RFC 2131, 3.1).
    HearLease(Mac, Addr, u32),
    /// The Thing moves to the URL that it announced, and that waits.
    Move(Mac, MudUrl),
    /// The Thing goes, with its leases.
    Remove(Mac),
    /// All packets of the Thing are dropped from now on.
    Hold(Mac),
    /// The Thing is judged by its usage file again.
    Release(Mac),
    /// The Thing has the address, for so many seconds, at least one.
    Lease(Mac, Addr, u32),
    /// No Thing has the address any longer.
    EndLease(Addr),
    /// These octets were fetched as a usage file at this moment.
    Import(Bytes, Moment),
    /// What the operator says of the candidate of the URL that has this digest.
    Verdict(MudUrl, Bytes, OperatorVerdict),
    /// The approval of the file of the URL is taken back.
    Revoke(MudUrl),
    /// The class has the address. A class by URI has 1 to 255 octets from 21 to 7E hex.
    Bind(Class, Addr),
    /// The class no longer has the address.
    Unbind(Class, Addr),
    /// The local networks are these.
    Locals(Listed<Prefix>),
    /// A name, a host name in lower case, was observed at the address, for so many seconds, 1 to
    /// 2,147,483,647 (RFC 8520, 8; RFC 2181, 8).
    Observe(Bytes, Addr, u32),
}
