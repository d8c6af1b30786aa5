//! Laws of the texts and of the order of addresses. Each is the contract of a function that does
//! nothing.
ghost use Rattle.std.specs.Prelude.{◌≡◌, ◌≤◌, ◌↔◌, Some, IfSome, decimal};
ghost use Rattle.std.specs.Cmp.{IsTotalOrder};
ghost use Rattle.std.specs.Str.{str_to_ascii_lowercase};
ghost use Rattle.std.specs.declared.cmp.Ordering.TheVariants.{Equal};
ghost use Rattle.mud_base.specs.Addresses.{addr_cmp};
ghost use Rattle.mud_base.specs.Decimal.{number_upto};
ghost use Rattle.mud_base.specs.Reading.{mac_in, addr_in, prefix_in, moment_in, IsAddrText, WritesOneAddr};
ghost use Rattle.mud_base.specs.Texts.{mac_text, addr_text, prefix_text};

use crate::addr::{Addr, Mac};
use crate::moment::Moment;
use crate::prefix::Prefix;

/// The text that is written of a hardware address is read back to it.
pub fn mac_is_read_back(mac: Mac)
    ensures { mac_in (mac_text mac) ≡ Some mac }
{}

/// A text that is read as a hardware address is the text that is written of it, but for the case
/// of its letters.
pub fn mac_has_one_text(text: &[u8])
    ensures { IfSome (mac_in text.now) (λ mac. str_to_ascii_lowercase text.now ≡ mac_text mac) }
{}

/// The text that is written of an IP address is one of its texts, and is read back to it.
pub fn addr_is_read_back(addr: Addr)
    ensures grammar { IsAddrText (addr_text addr) addr }
    ensures value { addr_in (addr_text addr) ≡ Some addr }
{
    match addr {
        Addr::V4(_number) => (),
        Addr::V6(_number) => (),
    }
}

/// A text writes no other IP address than the one that is read of it.
pub fn text_writes_one_addr(text: &[u8])
    ensures { WritesOneAddr text.now }
{}

/// The text that is written of a prefix is read back to it.
pub fn prefix_is_read_back(prefix: Prefix)
    ensures { prefix_in (prefix_text prefix) ≡ Some prefix }
{
    let _len = prefix.len();
    match prefix.addr() {
        Addr::V4(_number) => (),
        Addr::V6(_number) => (),
    }
}

/// The decimal digits that are written of a number are read back to it.
pub fn number_is_read_back(most: u64, number: u64)
    ensures { number ≤ most → number_upto most (decimal number) ≡ Some number }
{}

/// The decimal digits that are written of a moment are read back to it.
pub fn moment_is_read_back(moment: Moment)
    ensures { moment_in (decimal moment) ≡ Some moment }
{
    let _seconds = moment.seconds();
}

/// The order of addresses is total, and its ties are equal addresses.
pub fn addr_order_is_total(a: Addr, b: Addr)
    ensures order { IsTotalOrder addr_cmp }
    ensures ties { (addr_cmp a b ≡ Equal) ↔ (a ≡ b) }
{}
