//! Octets at an offset.
ghost use Rattle.std.specs.Prelude.{◌≡◌, ◌+◌, ◌≤◌, length};
ghost use Rattle.mud_base.specs.Offsets as spec;

use crate::Mac;

/// The `N` octets from an offset on.
pub fn octets_at<const N: usize>(octets: &[u8], offset: usize) -> [u8; N]
    requires { offset + N ≤ length octets.now }
    ensures { result ≡ spec.octets_at N offset octets.now }
{
    let (_, behind) = octets.split_at(offset);
    let (field, _) = behind.split_first_chunk().unwrap();
    *field
}

/// The hardware address of Ethernet from an offset on.
#[tactic(auto, unfolding(crate::specs::Offsets::mac_at))]
pub fn mac_at(octets: &[u8], offset: usize) -> Mac
    requires { offset + 6 ≤ length octets.now }
    ensures { result ≡ spec.mac_at offset octets.now }
{
    Mac(octets_at(octets, offset))
}

/// Whether the hardware address from an offset on is a group address: one whose first octet is odd
/// (IEEE 802, clause 8.2).
#[tactic(auto, unfolding(crate::specs::Offsets::is_group_at))]
pub fn is_group_at(octets: &[u8], offset: usize) -> bool
    requires { offset + 6 ≤ length octets.now }
    ensures { result ≡ spec.is_group_at offset octets.now }
{
    octets[offset] % 2 == 1
}
