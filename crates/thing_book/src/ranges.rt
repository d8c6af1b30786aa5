//! What holds of all octets and of every address and moment, each on a function that does nothing.
ghost use Rattle.std.specs.Prelude.{◌≡◌, ◌≤◌, length};
ghost use Rattle.mud_base.specs.Numbers.{IsOctets};
ghost use Rattle.table_model.specs.ItemFields.{IsAddr};

use mud_base::{Addr, Mac, Moment};

/// Every octet is below 256.
pub(crate) fn all_are_octets(octets: &[u8])
    ensures { IsOctets octets.now }
{}

/// An address fits its 32 or 128 bits.
pub(crate) fn addr_fits(addr: Addr)
    ensures { IsAddr addr }
{
    match addr {
        Addr::V4(_) => {}
        Addr::V6(_) => {}
    }
}

/// A hardware address has six octets.
pub(crate) fn mac_has_six_octets(mac: Mac)
    ensures { length mac.0 ≡ 6 }
{
    let _octets = mac.0;
}

/// No moment is after the last one.
pub(crate) fn moment_is_kept(moment: Moment)
    ensures { moment ≤ 253402300799 }
{
    let _seconds = moment.seconds();
}
