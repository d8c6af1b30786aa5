//! Octet strings.
ghost use Rattle.std.specs.Prelude.{◌≡◌, [], ◌∷◌, ◌++◌, length, OnOk, OnErr, IfOk, if◌then◌else◌};

use crate::memory::Memory;
use std::alloc::Global;
use std::marker::Model;

/// An octet string. Contracts see it as the list of its octets.
#[derive(Drop)]
pub struct Bytes {
    octets: Vec<u8>,
}

impl Model for Bytes {
    ghost use Rattle.std.specs.Prelude.{ℕ, List};

    ghost Value = { List ℕ };

    ghost view = { λ b. b.octets.items };
}

impl Bytes {
    /// The empty string. It takes no memory.
    pub fn empty(alloc: Global) -> Bytes
        ensures { result ≡ [] }
    {
        Bytes {
            octets: Vec::new(alloc),
        }
    }

    /// A copy of these octets.
    pub fn new(alloc: Global, octets: &[u8]) -> Result<Bytes, Memory>
        ensures { IfOk result (λ bytes. bytes ≡ octets.now) }
    {
        let octets = Vec::from_slice(alloc, octets)?;
        Ok(Bytes { octets })
    }

    /// The string of a vector's octets, which it keeps. It takes no memory.
    pub fn from_vec(octets: Vec<u8>) -> Bytes
        ensures { result ≡ octets.items }
    {
        Bytes { octets }
    }

    /// An equal string.
    pub fn copy(&self) -> Result<Bytes, Memory>
        ensures { IfOk result (λ bytes. bytes ≡ self.now) }
    {
        let octets = self.octets.clone()?;
        Ok(Bytes { octets })
    }

    /// The octets.
    pub fn octets(&self) -> &[u8]
        ensures { result.now ≡ self.now }
    {
        self.octets.as_slice()
    }

    /// How many octets there are.
    pub fn len(&self) -> usize
        ensures { result ≡ length self.now }
    {
        self.octets.len()
    }

    /// Adds one octet at the end. Without memory for it the string stays as it was.
    pub fn push(&mut self, octet: u8) -> Result<(), Memory>
        ensures ok { OnOk result (self.new ≡ self.old ++ octet ∷ []) }
        ensures err { OnErr result (self.new ≡ self.old) }
    {
        self.octets.push(octet)?;
        Ok(())
    }

    /// Adds octets at the end. Without memory for all of them the string stays as it was.
    pub fn append(&mut self, octets: &[u8]) -> Result<(), Memory>
        ensures ok { OnOk result (self.new ≡ self.old ++ octets.now) }
        ensures err { OnErr result (self.new ≡ self.old) }
    {
        self.octets.extend_from_slice(octets)?;
        Ok(())
    }

    /// Takes all octets away. The memory stays for those that come.
    pub fn clear(&mut self)
        ensures { self.new ≡ [] }
    {
        self.octets.clear();
    }
}
