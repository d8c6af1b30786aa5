//! What the types of the parts of a command say of it, each on a function that changes nothing.
ghost use Rattle.std.specs.List.{AllByRecursion};
ghost use Rattle.table_model.specs.ItemFields.{IsAddr};
ghost use Rattle.table_model.specs.Binds.{IsKeptNetwork};
ghost use Rattle.desk_model.specs.Commands.{IsMac, IsTyped};

use crate::command::Command;
use mud_base::{Addr, Mac, Prefix};

/// A hardware address has six octets.
fn mac_fits(mac: Mac)
    ensures { IsMac mac }
{
    let _octets = mac.0;
}

/// An address fits its 32 or 128 bits.
fn addr_fits(addr: Addr)
    ensures { IsAddr addr }
{
    match addr {
        Addr::V4(_number) => (),
        Addr::V6(_number) => (),
    }
}

/// A prefix fixes no more bits than there are, and the others are 0.
#[tactic(auto, unfolding(table_model::specs::Binds::is_prefix))]
fn prefix_fits(prefix: &Prefix)
    ensures { IsKeptNetwork prefix.now }
{
    addr_fits(prefix.addr());
    let _len = prefix.len();
}

/// So does each of these.
fn prefixes_fit(prefixes: &[Prefix])
    ensures { AllByRecursion IsKeptNetwork prefixes.now }
{
    for prefix in prefixes {
        prefix_fits(prefix);
    }
}

/// Every command is what its parts say by their types.
pub fn command_fits(command: &Command)
    ensures { IsTyped command.now }
{
    match command {
        Command::HearUrl(mac, url) => {
            mac_fits(*mac);
            url.text_is_canonical();
        }
        Command::HearLease(mac, addr, seconds) => {
            mac_fits(*mac);
            addr_fits(*addr);
            let _seconds = *seconds;
        }
        Command::Move(mac, url) => {
            mac_fits(*mac);
            url.text_is_canonical();
        }
        Command::Remove(mac) => mac_fits(*mac),
        Command::Hold(mac) => mac_fits(*mac),
        Command::Release(mac) => mac_fits(*mac),
        Command::Lease(mac, addr, seconds) => {
            mac_fits(*mac);
            addr_fits(*addr);
            let _seconds = *seconds;
        }
        Command::EndLease(addr) => addr_fits(*addr),
        Command::Import(_, fetched) => {
            let _seconds = fetched.seconds();
        }
        Command::Verdict(url, _, _) => url.text_is_canonical(),
        Command::Revoke(url) => url.text_is_canonical(),
        Command::Bind(_, addr) => addr_fits(*addr),
        Command::Unbind(_, addr) => addr_fits(*addr),
        Command::Locals(prefixes) => prefixes_fit(prefixes.as_slice()),
        Command::Observe(_, addr, seconds) => {
            addr_fits(*addr);
            let _seconds = *seconds;
        }
    }
}
