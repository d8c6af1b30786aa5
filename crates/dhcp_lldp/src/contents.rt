//! The contents of the DHCP options that count.
use crate::heard::HearFault;
use std::marker::Model;

/// IP Address Lease Time (RFC 2132, section 9.2).
const LEASE_TIME: u8 = 51;
/// DHCP Message Type (RFC 2132, section 9.6).
const MESSAGE_TYPE: u8 = 53;
/// The MUD URL (RFC 8520, section 10).
const MUD_URL: u8 = 161;

/// The content of each option that counts, where the message has it.
#[derive(Drop)]
pub(crate) struct Contents<'a> {
    lease_time: Option<&'a [u8]>,
    message_type: Option<&'a [u8]>,
    mud_url: Option<&'a [u8]>,
}

impl<'a> Model for Contents<'a> {
    ghost use Rattle.std.specs.Prelude.{option_copied};
    ghost use Rattle.dhcp_lldp.specs.Options.{Contents as OptionContents};

    ghost Value = { OptionContents };

    ghost view = { λ c. record { lease_time = option_copied c.lease_time; message_type = option_copied c.message_type; mud_url = option_copied c.mud_url } };
}

impl<'a> Contents<'a> {
    ghost use Rattle.std.specs.Prelude.{◌≡◌, option_copied};
    ghost use Rattle.dhcp_lldp.specs.OptionStep.{nothing_yet, with_content};

    /// What counts before any option.
    pub(crate) fn new() -> Contents<'a>
        ensures { result ≡ nothing_yet }
    {
        Contents {
            lease_time: None,
            message_type: None,
            mud_url: None,
        }
    }

    /// The contents with that of one more option.
    #[tactic(auto, unfolding(crate::specs::OptionStep::with_content))]
    pub(crate) fn with(self, code: u8, content: &'a [u8]) -> Result<Contents<'a>, HearFault>
        ensures { result ≡ with_content self.entry code content.now }
    {
        match code {
            LEASE_TIME if self.lease_time.is_none() => Ok(Contents {
                lease_time: Some(content),
                ..self
            }),
            MESSAGE_TYPE if self.message_type.is_none() => Ok(Contents {
                message_type: Some(content),
                ..self
            }),
            MUD_URL if self.mud_url.is_none() => Ok(Contents {
                mud_url: Some(content),
                ..self
            }),
            LEASE_TIME | MESSAGE_TYPE | MUD_URL => Err(HearFault::Repeat),
            _ => Ok(self),
        }
    }

    /// The content of the option IP Address Lease Time.
    pub(crate) fn lease_time(&self) -> Option<&'a [u8]>
        ensures { option_copied result ≡ self.now.lease_time }
    {
        self.lease_time
    }

    /// The content of the option DHCP Message Type.
    pub(crate) fn message_type(&self) -> Option<&'a [u8]>
        ensures { option_copied result ≡ self.now.message_type }
    {
        self.message_type
    }

    /// The content of the option MUD URL.
    pub(crate) fn mud_url(&self) -> Option<&'a [u8]>
        ensures { option_copied result ≡ self.now.mud_url }
    {
        self.mud_url
    }
}
