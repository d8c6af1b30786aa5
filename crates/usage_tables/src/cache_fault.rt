//! Why a command on files is refused.
ghost use Rattle.std.specs.Prelude.{◌≡◌};

use mud_base::Memory;
use mud_file::Broken;

/// Why a command on files is refused. A refusal changes nothing.
#[derive(Drop)]
pub enum CacheFault {
    /// Memory was wanted and there was none.
    Memory,
    /// The octets are no usage file: the first rule that they break, and where.
    File(Broken),
    /// A file of the URL is held that was generated later.
    Older,
    /// No file of the URL is held, and files of 128 URLs are.
    CacheFull,
    /// The URL has no candidate.
    NoCandidate,
    /// The candidate has another digest.
    Digest,
    /// The candidate has no signature that could have been verified.
    NoSignature,
    /// No file of the URL is approved.
    NotApproved,
    /// With the candidate all approved files would have more than 4,096 entries.
    PolicyFull,
}

impl From<Memory> for CacheFault {
    ghost use Rattle.std.specs.Prelude.{◌≡◌};
    ghost use Rattle.usage_tables.specs.declared.cache_fault.CacheFault.TheVariants.{Memory};

    ghost from_gives = { λ _ fault. fault ≡ Memory };

    fn from(_memory: Memory) -> CacheFault {
        CacheFault::Memory
    }
}

impl CacheFault {
    ghost use Rattle.usage_tables.specs.FaultNames.{number_of_cache_fault, name_of_cache_fault};

    /// The number of the refusal, from 1 to 8. Want of memory has none, and gives 0.
    #[tactic(auto, unfolding(crate::specs::FaultNames::number_of_cache_fault))]
    pub fn number(&self) -> u8
        ensures { result ≡ number_of_cache_fault self.now }
    {
        match self {
            CacheFault::Memory => 0,
            CacheFault::File(_) => 1,
            CacheFault::Older => 2,
            CacheFault::CacheFull => 3,
            CacheFault::NoCandidate => 4,
            CacheFault::Digest => 5,
            CacheFault::NoSignature => 6,
            CacheFault::NotApproved => 7,
            CacheFault::PolicyFull => 8,
        }
    }

    /// The name of the refusal, as it is written.
    #[tactic(auto, unfolding(crate::specs::FaultNames::name_of_cache_fault))]
    pub fn name(&self) -> &'static str
        ensures { result.now ≡ name_of_cache_fault self.now }
    {
        match self {
            CacheFault::Memory => "Memory",
            CacheFault::File(_) => "File",
            CacheFault::Older => "Older",
            CacheFault::CacheFull => "CacheFull",
            CacheFault::NoCandidate => "NoCandidate",
            CacheFault::Digest => "Digest",
            CacheFault::NoSignature => "NoSignature",
            CacheFault::NotApproved => "NotApproved",
            CacheFault::PolicyFull => "PolicyFull",
        }
    }
}
