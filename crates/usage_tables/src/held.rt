//! Usage files as they are held.
ghost use Rattle.std.specs.Prelude.{◌≡◌, ◌≤◌, length, Some, Ok};
ghost use Rattle.mud_file.specs.File.{file_of};
ghost use Rattle.usage_tables.specs.Held.{held_file, usage_in, digest_of};

use mud_base::{Bytes, Moment};
use mud_file::UsageFile;
use sha2::{Digest, Sha256};
use std::marker::Model;

/// A usage file as it is held. It was read and digested when it came, and is never again. Contracts
/// see it as its octets and the moment at which they were fetched.
pub struct Held {
    octets: Bytes,
    fetched: Moment,
    digest: [u8; 64],
    file: UsageFile,
}

// It is written out, so that what lets one go doesn't prove again how each part is dropped.
impl Drop for Held {
    fn drop(self) {
        let Held {
            octets: _,
            fetched: _,
            digest: _,
            file: _,
        } = self;
    }
}

impl Model for Held {
    ghost use Rattle.usage_tables.specs.Held.{HeldFile, held_file, IsRead};

    ghost Value = { HeldFile };

    ghost view = { λ h. held_file h.octets h.fetched };

    ghost invariant = { λ h. IsRead h.octets h.digest h.file };
}

/// The digest of octets: their SHA-256 (FIPS 180-4) in 64 lower-case hex digits. It takes no memory.
#[tactic(auto, unfolding(crate::specs::Held::digest_of))]
pub fn digest_of(octets: &[u8]) -> [u8; 64]
    ensures { result ≡ digest_of octets.now }
{
    let mut digits = [0u8; 64];
    let _done = hex::encode_to_slice(Sha256::digest(octets), &mut digits);
    digits
}

impl Held {
    /// The octets, which are this usage file, fetched at this moment. It takes no memory.
    pub fn new(octets: Bytes, fetched: Moment, file: UsageFile) -> Held
        requires { file_of octets ≡ Ok file }
        ensures { result ≡ held_file octets fetched }
    {
        let digest = digest_of(octets.octets());
        Held {
            octets,
            fetched,
            digest,
            file,
        }
    }

    /// The octets, at most 262,144.
    #[tactic(auto, using(crate::proofs::ItemLaws::read_short))]
    pub fn octets(&self) -> &[u8]
        ensures value { result.now ≡ self.now.octets }
        ensures short { length self.now.octets ≤ 262144 }
    {
        self.octets.octets()
    }

    /// When they were fetched.
    pub fn fetched(&self) -> Moment
        ensures { result ≡ self.now.fetched }
    {
        self.fetched
    }

    /// The digest of the octets: 64 lower-case hex digits.
    pub fn digest(&self) -> &[u8]
        ensures { result.now ≡ digest_of self.now.octets }
    {
        &self.digest
    }

    /// The usage file that the octets are.
    #[tactic(auto, unfolding(crate::specs::Held::usage_in))]
    pub fn file(&self) -> &UsageFile
        ensures { usage_in self.now.octets ≡ Some result.now }
    {
        &self.file
    }

    /// The same file, fetched at another moment. It takes no memory.
    pub fn fetched_at(self, moment: Moment) -> Held
        ensures { result ≡ held_file self.octets moment }
    {
        let Held {
            octets,
            fetched: _,
            digest,
            file,
        } = self;
        Held {
            octets,
            fetched: moment,
            digest,
            file,
        }
    }
}
