//! The field at the front of octets, and the octets behind it.
ghost use Rattle.std.specs.Prelude.{◌≡◌, ◌^◌, ◌<◌, ◌≤◌, length, IfOk};
ghost use Rattle.item_codec.specs.Spelling.{IsWidth};
ghost use Rattle.item_codec.specs.Reading as spec;

use crate::fault::CodecFault;

/// The number that at most eight octets spell, most significant first.
#[tactic(auto, using(crate::proofs::Numbers::number_fits, crate::proofs::Numbers::number_grows, crate::proofs::Numbers::number_step, crate::proofs::Numbers::number_end, crate::proofs::Numbers::number_start))]
fn number_of(octets: &[u8]) -> u64
    requires { length octets.now ≤ 8 }
    ensures value { result ≡ spec.number_of octets.now }
    ensures range { result < 256 ^ length octets.now }
{
    let mut number = 0;
    for octet in octets {
        number = number * 256 + *octet as u64;
    }
    number
}

/// The first `len` octets.
#[tactic(auto, unfolding(crate::specs::Reading::octets_at))]
fn octets_at(octets: &[u8], len: usize) -> Result<(&[u8], &[u8]), CodecFault>
    ensures value { spec.Gives (λ x. (x.0.now, x.1.now)) result (spec.octets_at len octets.now) }
    ensures len { IfOk result (λ x. length x.0.now ≡ len) }
{
    if octets.len() < len {
        return Err(CodecFault::Short);
    }
    Ok(octets.split_at(len))
}

/// A number of so many octets.
#[tactic(auto, using(crate::proofs::Numbers::width_le), unfolding(crate::specs::Reading::number_at))]
pub(crate) fn number_at(octets: &[u8], width: u8) -> Result<(u64, &[u8]), CodecFault>
    requires { IsWidth width }
    ensures value { spec.Gives (λ x. (x.0, x.1.now)) result (spec.number_at width octets.now) }
    ensures range { IfOk result (λ x. x.0 < 256 ^ width) }
{
    let (front, rest) = octets_at(octets, width as usize)?;
    Ok((number_of(front), rest))
}

/// A string.
#[tactic(auto, unfolding(crate::specs::Reading::string_at))]
pub(crate) fn string_at(octets: &[u8]) -> Result<(&[u8], &[u8]), CodecFault>
    ensures { spec.Gives (λ x. (x.0.now, x.1.now)) result (spec.string_at octets.now) }
{
    let (len, rest) = number_at(octets, 4)?;
    octets_at(rest, len as usize)
}

/// The count of a list.
#[tactic(auto, unfolding(crate::specs::Reading::list_at))]
pub(crate) fn list_at(octets: &[u8]) -> Result<(u16, &[u8]), CodecFault>
    ensures { spec.Gives (λ x. (x.0, x.1.now)) result (spec.list_at octets.now) }
{
    let (count, rest) = number_at(octets, 2)?;
    Ok((count as u16, rest))
}

/// The version octet, which has to be from 1 to `most`.
#[tactic(auto, unfolding(crate::specs::Reading::version_to))]
pub(crate) fn version_to(octets: &[u8], most: u8) -> Result<(u8, &[u8]), CodecFault>
    ensures value { spec.Gives (λ x. (x.0, x.1.now)) result (spec.version_to most octets.now) }
    ensures least { IfOk result (λ x. 1 ≤ x.0) }
    ensures most { IfOk result (λ x. x.0 ≤ most) }
{
    let (version, rest) = number_at(octets, 1)?;
    if version == 0 || version > most as u64 {
        return Err(CodecFault::Version);
    }
    Ok((version as u8, rest))
}

/// The version octet, which has to be 1.
#[tactic(auto, unfolding(crate::specs::Reading::version_at))]
pub(crate) fn version_at(octets: &[u8]) -> Result<(u8, &[u8]), CodecFault>
    ensures { spec.Gives (λ x. (x.0, x.1.now)) result (spec.version_at octets.now) }
{
    version_to(octets, 1)
}
