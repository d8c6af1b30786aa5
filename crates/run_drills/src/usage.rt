//! The usage file of a Thing's model.
ghost use Rattle.std.specs.Prelude.{◌≡◌, ◌++◌, IfOk, OnOk};
ghost use Rattle.run_drills.specs.Usage as spec;

use crate::network::{append_host, append_url};
use mud_base::{Bytes, Memory};
use std::alloc::Global;

/// The text in front of the URL.
const HEAD: &[u8] = b"{\"ietf-mud:mud\":{\"mud-version\":1,\"mud-url\":\"";

/// Behind it, up to the host from which the Thing is sent to.
const TO_DEVICE: &[u8] =
    b"\",\"last-update\":\"2019-01-28T11:20:51+01:00\",\"cache-validity\":48,\"is-supported\":true,\"systeminfo\":\"The BMS Example Light Bulb\",\"from-device-policy\":{\"access-lists\":{\"access-list\":[{\"name\":\"v4fr\"}]}},\"to-device-policy\":{\"access-lists\":{\"access-list\":[{\"name\":\"v4to\"}]}}},\"ietf-access-control-list:acls\":{\"acl\":[{\"name\":\"v4to\",\"type\":\"ipv4-acl-type\",\"aces\":{\"ace\":[{\"name\":\"cl0-todev\",\"matches\":{\"ipv4\":{\"ietf-acldns:src-dnsname\":\"";

/// Up to the host to which the Thing sends.
const FROM_DEVICE: &[u8] =
    b"\",\"protocol\":6},\"tcp\":{\"ietf-mud:direction-initiated\":\"from-device\",\"source-port\":{\"operator\":\"eq\",\"port\":443}}},\"actions\":{\"forwarding\":\"accept\"}}]}},{\"name\":\"v4fr\",\"type\":\"ipv4-acl-type\",\"aces\":{\"ace\":[{\"name\":\"cl0-frdev\",\"matches\":{\"ipv4\":{\"ietf-acldns:dst-dnsname\":\"";

/// And to the end.
const TAIL: &[u8] =
    b"\",\"protocol\":6},\"tcp\":{\"ietf-mud:direction-initiated\":\"from-device\",\"destination-port\":{\"operator\":\"eq\",\"port\":443}}},\"actions\":{\"forwarding\":\"accept\"}},{\"name\":\"mfg-frdev\",\"matches\":{\"ietf-mud:mud\":{\"same-manufacturer\":[null]}},\"actions\":{\"forwarding\":\"accept\"}}]}}]}}";

/// The usage file of the Thing's model. It lets a connection to port 443 of the host pass that the
/// Thing began, and all that it sends to Things of the same manufacturer.
#[tactic(auto, unfolding(crate::specs::Usage::usage_text))]
pub(crate) fn usage_text(alloc: Global, thing: u16) -> Result<Bytes, Memory>
    ensures { IfOk result (λ text. text ≡ spec.usage_text thing) }
{
    let mut text = Bytes::new(alloc, HEAD)?;
    append_url(&mut text, thing)?;
    text.append(TO_DEVICE)?;
    append_host(&mut text, thing)?;
    text.append(FROM_DEVICE)?;
    append_host(&mut text, thing)?;
    text.append(TAIL)?;
    Ok(text)
}
