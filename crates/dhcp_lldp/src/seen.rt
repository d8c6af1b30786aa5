//! What the TLVs of an LLDP frame say.
use crate::heard::HearFault;
use crate::tlvs::{MANDATORY_COUNT, MUD_PREFIX_LEN, is_mud, is_out_of_order};
use std::marker::Model;

/// How many TLVs were read, and the MUD string where one of them had it.
#[derive(Drop)]
pub(crate) struct Seen<'a> {
    count: usize,
    string: Option<&'a [u8]>,
}

impl<'a> Model for Seen<'a> {
    ghost use Rattle.std.specs.Prelude.{option_copied};
    ghost use Rattle.dhcp_lldp.specs.TlvStep.{SeenTlvs};

    ghost Value = { SeenTlvs };

    ghost view = { λ s. record { count = s.count; string = option_copied s.string } };
}

impl<'a> Seen<'a> {
    ghost use Rattle.std.specs.Prelude.{◌≡◌, ◌+◌, ◌^◌, ◌<◌, nat_lt, IfOk, option_copied};
    ghost use Rattle.dhcp_lldp.specs.TlvStep.{nothing_seen, seen_after};

    /// Before any TLV.
    pub(crate) fn new() -> Seen<'a>
        ensures { result ≡ nothing_seen }
    {
        Seen {
            count: 0,
            string: None,
        }
    }

    /// After one more TLV.
    #[tactic(auto, unfolding(crate::specs::TlvStep::seen_after))]
    pub(crate) fn after(self, kind: u8, content: &'a [u8]) -> Result<Seen<'a>, HearFault>
        requires { self.count + 1 < 2 ^ 64 }
        ensures value { result ≡ seen_after self.entry (record { kind = kind; content = content.now }) }
        ensures counted { IfOk result (λ seen. seen.count ≡ self.entry.count + 1) }
    {
        if is_out_of_order(self.count, kind, content) {
            return Err(HearFault::Order);
        }
        let count = self.count + 1;
        if !is_mud(kind, content) {
            return Ok(Seen { count, ..self });
        }
        if self.string.is_some() {
            return Err(HearFault::Repeat);
        }
        let (_, string) = content.split_at(MUD_PREFIX_LEN);
        Ok(Seen {
            count,
            string: Some(string),
        })
    }

    /// Whether a mandatory TLV is still to come.
    pub(crate) fn is_short(&self) -> bool
        ensures { result ≡ nat_lt self.now.count 3 }
    {
        self.count < MANDATORY_COUNT
    }

    /// The MUD string.
    pub(crate) fn string(&self) -> Option<&'a [u8]>
        ensures { option_copied result ≡ self.now.string }
    {
        self.string
    }
}
