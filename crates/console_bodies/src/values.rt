//! Members that are numbers, addresses and words.
ghost use Rattle.std.specs.Prelude.{◌≡◌, ◌≤◌, ◌<◌, ◌^◌, IfOk, nat_le, None, Some, ◌&&◌, if◌then◌else◌};
ghost use Rattle.serde_json.specs.View.{view};
ghost use Rattle.mud_base.specs.Readings.{Gives};
ghost use Rattle.console_bodies.specs.Values as spec;

use crate::fault::{BodyFault, Unread};
use crate::member::Member;
use crate::object::{number_in, text_in};
use mud_base::{Addr, Mac, addr_of, mac_of, wanted};
use serde_json::Value;

/// What a member means, where it means something; else it is the fault.
#[tactic(auto, unfolding(crate::specs::Values::meant))]
pub(crate) fn meant<A>(meaning: Option<A>, member: Member) -> Result<A, Unread>
    ensures { (default : A) → Gives (λ a. a) result (spec.meant default member meaning) }
{
    wanted(meaning, BodyFault::Member(member))
}

/// The hardware address that `mac` writes.
#[tactic(auto, unfolding(crate::specs::Values::mac_at))]
pub(crate) fn mac(object: &Value) -> Result<Mac, Unread>
    ensures { Gives (λ m. m) result (spec.mac_at (view object.now)) }
{
    let mac = text_in(object, Member::Mac).and_then(|text| mac_of(text.as_bytes()));
    meant(mac, Member::Mac)
}

/// The IP address that `address` writes.
#[tactic(auto, unfolding(crate::specs::Values::address_at))]
pub(crate) fn address(object: &Value) -> Result<Addr, Unread>
    ensures { Gives (λ a. a) result (spec.address_at (view object.now)) }
{
    let address = text_in(object, Member::Address).and_then(|text| addr_of(text.as_bytes()));
    meant(address, Member::Address)
}

/// The number, where it is in this range.
fn within(least: u32, most: u32, number: u64) -> Option<u32>
    ensures { result ≡ if nat_le least number && nat_le number most then Some number else None }
{
    if number < u64::from(least) {
        return None;
    }
    if number > u64::from(most) {
        return None;
    }
    Some(number as u32)
}

/// The whole number of this range that a member is.
#[tactic(auto, unfolding(crate::specs::Values::number_at))]
pub(crate) fn number(object: &Value, member: Member, least: u32, most: u32) -> Result<u32, Unread>
    ensures { Gives (λ n. n) result (spec.number_at least most member (view object.now)) }
{
    let number = number_in(object, member).and_then(|number| within(least, most, number));
    meant(number, member)
}
