//! The flags of TCP, and the words that name them.
ghost use Rattle.std.specs.Prelude.{◌≡◌, ◌≤◌};
ghost use Rattle.acl_model.specs.TcpFlags as spec;

/// A flag of the TCP header (RFC 9293, 3.1), from the highest bit of the octet of flags to the
/// lowest.
#[derive(Clone, Copy)]
pub enum TcpFlag {
    /// `cwr`, 128.
    Cwr,
    /// `ece`, 64.
    Ece,
    /// `urg`, 32.
    Urg,
    /// `ack`, 16.
    Ack,
    /// `psh`, 8.
    Psh,
    /// `rst`, 4.
    Rst,
    /// `syn`, 2.
    Syn,
    /// `fin`, 1.
    Fin,
}

/// The flags, from the highest bit of the octet to the lowest.
#[tactic(auto, unfolding(crate::specs::TcpFlags::all_flags))]
pub fn all_flags() -> [TcpFlag; 8]
    ensures { result ≡ spec.all_flags }
{
    [
        TcpFlag::Cwr,
        TcpFlag::Ece,
        TcpFlag::Urg,
        TcpFlag::Ack,
        TcpFlag::Psh,
        TcpFlag::Rst,
        TcpFlag::Syn,
        TcpFlag::Fin,
    ]
}

/// The word that names a flag (RFC 8519, 4.2, `flags`).
#[tactic(auto, unfolding(crate::specs::TcpFlags::word_of))]
pub fn word_of(flag: TcpFlag) -> &'static str
    ensures { result.now ≡ spec.word_of flag }
{
    match flag {
        TcpFlag::Cwr => "cwr",
        TcpFlag::Ece => "ece",
        TcpFlag::Urg => "urg",
        TcpFlag::Ack => "ack",
        TcpFlag::Psh => "psh",
        TcpFlag::Rst => "rst",
        TcpFlag::Syn => "syn",
        TcpFlag::Fin => "fin",
    }
}

/// What a flag stands for in the octet.
#[tactic(auto, unfolding(crate::specs::TcpFlags::bit_of))]
pub fn bit_of(flag: TcpFlag) -> u8
    ensures value { result ≡ spec.bit_of flag }
    ensures some { 1 ≤ result }
{
    match flag {
        TcpFlag::Cwr => 128,
        TcpFlag::Ece => 64,
        TcpFlag::Urg => 32,
        TcpFlag::Ack => 16,
        TcpFlag::Psh => 8,
        TcpFlag::Rst => 4,
        TcpFlag::Syn => 2,
        TcpFlag::Fin => 1,
    }
}
