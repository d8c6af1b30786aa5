//! Jumps over the pointers that lead to pointers.
ghost use Rattle.std.specs.Prelude.{◌≡◌, ◌≤◌, ◌<◌, length, slice_index_or, IfOk};
ghost use Rattle.dns_snoop.specs.Steps.{AreJumps, IsJump};

use crate::label::{Step, first_step};
use mud_base::{Listed, Memory};
use std::alloc::Global;

/// The most octets of a UDP datagram in one frame of Ethernet: 1,500 less the headers of IPv4 and
/// UDP. In a message with no more each pointer is followed.
const FRAME_LEN: usize = 1472;

/// The least offset to which no pointer leads: it has 14 bits (RFC 1035, section 4.1.4).
const TARGET_BOUND: usize = 16384;

/// The jump from this offset: behind a pointer to an offset before it that from there, else to the
/// offset itself.
#[tactic(auto, using(crate::proofs::JumpLaws::jump_nowhere))]
fn jump_from(message: &[u8], jumps: &[u16], offset: usize) -> u16
    requires within { offset ≤ length message.now }
    requires few { offset < 16384 }
    requires count { length jumps.now ≡ offset }
    requires jumps { AreJumps message.now jumps.now }
    ensures { IsJump message.now offset result }
{
    let (_, rest) = message.split_at(offset);
    match first_step(rest, offset) {
        Step::Pointer(target) if target < offset => jumps[target],
        _ => offset as u16,
    }
}

/// The jumps from all offsets to which a pointer may lead, where a message has more octets than one
/// frame; else none. So a name isn't read through one pointer after the other, again for each
/// record, where these lead to pointers.
#[tactic(auto, using(crate::proofs::JumpLaws::jumps_none))]
pub(crate) fn read_jumps(alloc: Global, message: &[u8]) -> Result<Listed<u16>, Memory>
    ensures { IfOk result (λ jumps. AreJumps message.now jumps) }
{
    let mut jumps = Listed::new(alloc);
    if message.len() <= FRAME_LEN {
        return Ok(jumps);
    }
    'offsets: for offset in 0..message.len().min(TARGET_BOUND) {
        let jump = jump_from(message, jumps.as_slice(), offset);
        jumps.push(jump)?;
    }
    Ok(jumps)
}

/// Where the jump from this offset ends, if there is one, else the offset.
pub(crate) fn behind_jump(jumps: &[u16], offset: usize) -> usize
    ensures { result ≡ slice_index_or jumps.now offset offset }
{
    match jumps.get(offset) {
        Some(jump) => usize::from(*jump),
        None => offset,
    }
}
