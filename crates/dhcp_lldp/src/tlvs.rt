//! The TLVs of an LLDP frame (IEEE 802.1AB, clause 8).
ghost use Rattle.std.specs.Prelude.{◌≡◌, ◌≤◌, ◌<◌, IsTrue, length, Ok, Err, Some, None};
ghost use Rattle.mud_base.specs.Faults.{unless_fault};
ghost use Rattle.dhcp_lldp.specs.Lldp.{tlvs_of};
ghost use Rattle.dhcp_lldp.specs.TlvStep.{IsStep, seen_in};
ghost use Rattle.dhcp_lldp.specs.Tlvs as spec;
ghost use Rattle.dhcp_lldp.specs.Tlvs.{tlv_fault};

use crate::heard::HearFault;
use crate::seen::Seen;
use mud_base::ethernet::HEAD_LEN;

/// The type of the End Of LLDPDU TLV (clause 8.5.1).
const END: u8 = 0;
/// The type of the Chassis ID TLV, the first of the mandatory ones (clause 8.5.2).
const CHASSIS_ID: u8 = 1;
/// The type of the Time To Live TLV, the last of the mandatory ones (clause 8.5.4).
const TIME_TO_LIVE: u8 = 3;
/// How many TLVs are mandatory. Their types are 1, 2 and 3, and they come first (clause 8.2).
pub(crate) const MANDATORY_COUNT: usize = 3;
/// The type of organizationally specific TLVs (clause 8.6).
const ORGANIZATIONALLY_SPECIFIC: u8 = 127;
/// How many octets the OUI and the subtype take.
pub(crate) const MUD_PREFIX_LEN: usize = 4;
/// The OUI 00-00-5E and the subtype of the MUD URL TLV (RFC 8520, section 12).
const MUD_PREFIX: [u8; MUD_PREFIX_LEN] = [0x00, 0x00, 0x5E, 0x01];

/// What stands at the front of some octets of the TLVs.
#[derive(Drop)]
pub(crate) enum Step<'a> {
    /// The end of the octets.
    End,
    /// A TLV that is cut by the end of the frame.
    Cut,
    /// A TLV: its type, its content, and the octets of the TLVs behind it.
    Whole(u8, &'a [u8], &'a [u8]),
}

/// What stands at the front of these octets.
#[tactic(auto, using(crate::proofs::TlvListing::whole_step, crate::proofs::TlvListing::last_step, crate::proofs::TlvListing::cut_step))]
fn first_step(octets: &[u8]) -> Step<'_>
    ensures { IsStep octets.now result }
{
    let Some((header, behind)) = octets.split_first() else {
        return Step::End;
    };
    let Some((low, behind)) = behind.split_first() else {
        return Step::Cut;
    };
    let len = 256 * usize::from(*header % 2) + usize::from(*low);
    if behind.len() < len {
        return Step::Cut;
    }
    let (content, behind) = behind.split_at(len);
    let kind = *header / 2;
    if kind == END {
        return Step::Whole(kind, content, &[]);
    }
    Step::Whole(kind, content, behind)
}

/// Whether a TLV may not stand here, behind so many others: a mandatory TLV is missing or comes
/// again, or the End Of LLDPDU TLV isn't empty.
#[tactic(auto, unfolding(crate::specs::Tlvs::is_out_of_order))]
pub(crate) fn is_out_of_order(before: usize, kind: u8, content: &[u8]) -> bool
    ensures { result ≡ spec.is_out_of_order before (record { kind = kind; content = content.now }) }
{
    if before < MANDATORY_COUNT {
        return usize::from(kind) != before + 1;
    }
    match kind {
        END => !content.is_empty(),
        CHASSIS_ID..=TIME_TO_LIVE => true,
        _ => false,
    }
}

/// Whether this is the MUD URL TLV.
#[tactic(auto, unfolding(crate::specs::Tlvs::is_mud))]
pub(crate) fn is_mud(kind: u8, content: &[u8]) -> bool
    ensures value { result ≡ spec.is_mud (record { kind = kind; content = content.now }) }
    ensures long { IsTrue result → 4 ≤ length content.now }
{
    kind == ORGANIZATIONALLY_SPECIFIC && content.starts_with(&MUD_PREFIX)
}

/// What the TLVs of a frame say.
#[tactic(auto, using(crate::proofs::TlvWalk::walked_all, crate::proofs::TlvWalk::walked_end, crate::proofs::TlvWalk::walked_short, crate::proofs::TlvWalk::walked_cut), unfolding(crate::specs::Lldp::tlvs_of))]
pub(crate) fn seen_tlvs(frame: &[u8]) -> Result<Seen<'_>, HearFault>
    requires { 14 ≤ length frame.now }
    ensures { result ≡ unless_fault (tlv_fault (tlvs_of frame.now)) (Ok (seen_in (tlvs_of frame.now).whole)) }
{
    let (_, mut rest) = frame.split_at(HEAD_LEN);
    let mut offset = HEAD_LEN;
    let mut seen = Seen::new();
    'tlvs: loop {
        match first_step(rest) {
            Step::End => {
                if seen.is_short() {
                    return Err(HearFault::Order);
                }
                return Ok(seen);
            }
            Step::Cut => return Err(HearFault::Cut(offset)),
            Step::Whole(kind, content, behind) => {
                seen = seen.after(kind, content)?;
                offset += 2 + content.len();
                rest = behind;
            }
        }
    }
}
