//! The MUD string that a message carries.
ghost use Rattle.std.specs.Prelude.{◌≡◌, option_copied};
ghost use Rattle.dhcp_lldp.specs.Mud.{announced};

use crate::heard::{HearFault, Heard};
use mud_base::Mac;
use mud_url::mud_string;

/// What the Thing with this hardware address announces by a MUD string (RFC 8520, section 10),
/// where there is one.
#[tactic(auto, unfolding(crate::specs::Mud::announced))]
pub(crate) fn announced(mac: Mac, string: Option<&[u8]>) -> Result<Heard, HearFault>
    ensures { result ≡ announced mac (option_copied string.entry) }
{
    let Some(string) = string else {
        return Ok(Heard::Nothing);
    };
    match mud_string(string) {
        Ok(url) => Ok(Heard::Url(mac, url)),
        Err(fault) => Err(HearFault::Url(fault)),
    }
}
