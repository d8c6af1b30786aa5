//! LLDP frames (IEEE 802.1AB).
ghost use Rattle.std.specs.Prelude.{◌≡◌, ◌≤◌, length, not, ◌==◌, ◌&&◌};
ghost use Rattle.dhcp_lldp.specs.Lldp.{lldp_of};
ghost use Rattle.mud_base.specs.Ethernet.{source_offset, type_offset};
ghost use Rattle.mud_base.specs.Offsets.{is_group_at};
ghost use Rattle.mud_base.specs.Numbers.{big_16};

use crate::heard::{HearFault, Heard};
use crate::mud::announced;
use crate::tlvs::seen_tlvs;
use mud_base::ethernet::{HEAD_LEN, SOURCE_OFFSET, TYPE_OFFSET};
use mud_base::{big_16, is_group_at, mac_at};

/// The type of LLDP (IEEE 802.1AB, clause 7).
const LLDP: u16 = 0x88CC;

/// What an LLDP frame, from its Ethernet header on, says: the MUD URL that its source announces by
/// a MUD URL TLV (RFC 8520, section 12), or nothing. It takes no memory.
///
/// A fault is the first of these: `Cut(0)` where there are fewer than 14 octets; `Hardware`; then
/// at each TLV in turn `Cut`, at its header, where the frame ends within it, `Order` where the
/// first three types aren't 1, 2 and 3, where one of these comes again, or where an End Of LLDPDU
/// TLV isn't empty, and `Repeat` where a second MUD URL TLV begins; `Order` where the TLVs end
/// before the third; and in the end `Url`. What follows an End Of LLDPDU TLV isn't read.
#[tactic(auto, unfolding(crate::specs::Lldp::lldp_of, crate::specs::TlvStep::seen_in))]
pub fn read_lldp(frame: &[u8]) -> Result<Heard, HearFault>
    ensures { result ≡ lldp_of frame.now }
{
    if frame.len() < HEAD_LEN {
        return Err(HearFault::Cut(0));
    }
    if !is_lldp(frame) {
        return Err(HearFault::Hardware);
    }
    let seen = seen_tlvs(frame)?;
    announced(mac_at(frame, SOURCE_OFFSET), seen.string())
}

/// Whether this is an LLDP frame of a source that has an address of its own.
#[tactic(auto)]
fn is_lldp(frame: &[u8]) -> bool
    requires { 14 ≤ length frame.now }
    ensures { result ≡ big_16 type_offset frame.now == 0x88CC && not (is_group_at source_offset frame.now) }
{
    big_16(frame, TYPE_OFFSET) == LLDP && !is_group_at(frame, SOURCE_OFFSET)
}
