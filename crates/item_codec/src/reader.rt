//! Reading the fields of an item, one after the other.
ghost use Rattle.std.specs.Prelude.{◌≡◌, ◌^◌, ◌<◌, ◌≤◌, IfOk};
ghost use Rattle.item_codec.specs.Spelling.{IsWidth};
ghost use Rattle.item_codec.specs.Reading as spec;

use crate::fault::CodecFault;
use crate::fields;
use std::marker::Model;

/// A reader of fields. It lends the strings that it reads, and takes no memory. Contracts see it as
/// the list of the octets that are left. After a refusal it is as it was before.
#[derive(Drop)]
pub struct FieldReader<'a> {
    octets: &'a [u8],
}

impl<'a> Model for FieldReader<'a> {
    ghost use Rattle.std.specs.Prelude.{ℕ, List};

    ghost Value = { List ℕ };

    ghost view = { λ r. r.octets.now };
}

impl<'a> FieldReader<'a> {
    /// A reader with all of these octets left.
    pub fn new(octets: &'a [u8]) -> FieldReader<'a>
        ensures { result ≡ octets.now }
    {
        FieldReader { octets }
    }

    /// Reads a number of 1, 2, 4 or 8 octets, most significant first.
    pub fn number(&mut self, width: u8) -> Result<u64, CodecFault>
        requires { IsWidth width }
        ensures value { spec.Reads (λ n. n) result self.old self.new (spec.number_at width self.old) }
        ensures range { IfOk result (λ n. n < 256 ^ width) }
    {
        let (number, rest) = fields::number_at(self.octets, width)?;
        self.octets = rest;
        Ok(number)
    }

    /// Reads a string: its length in four octets, and its octets.
    pub fn string(&mut self) -> Result<&'a [u8], CodecFault>
        ensures { spec.Reads (λ s. s.now) result self.old self.new (spec.string_at self.old) }
    {
        let (string, rest) = fields::string_at(self.octets)?;
        self.octets = rest;
        Ok(string)
    }

    /// Reads the count of a list, in two octets. The elements follow it.
    pub fn list(&mut self) -> Result<u16, CodecFault>
        ensures { spec.Reads (λ n. n) result self.old self.new (spec.list_at self.old) }
    {
        let (count, rest) = fields::list_at(self.octets)?;
        self.octets = rest;
        Ok(count)
    }

    /// Reads the version octet, which has to be from 1 to `most`.
    pub fn version_to(&mut self, most: u8) -> Result<u8, CodecFault>
        ensures value { spec.Reads (λ n. n) result self.old self.new (spec.version_to most self.old) }
        ensures least { IfOk result (λ n. 1 ≤ n) }
        ensures most { IfOk result (λ n. n ≤ most) }
    {
        let (version, rest) = fields::version_to(self.octets, most)?;
        self.octets = rest;
        Ok(version)
    }

    /// Reads the version octet, which has to be 1.
    pub fn version(&mut self) -> Result<u8, CodecFault>
        ensures { spec.Reads (λ n. n) result self.old self.new (spec.version_at self.old) }
    {
        let (version, rest) = fields::version_at(self.octets)?;
        self.octets = rest;
        Ok(version)
    }

    /// Whether the fields end here, with no octet left.
    #[tactic(auto, unfolding(crate::specs::Reading::end_at))]
    pub fn finish(&mut self) -> Result<(), CodecFault>
        ensures value { spec.Gives (λ _. tt) result (spec.end_at self.old) }
        ensures same { self.new ≡ self.old }
    {
        if self.octets.is_empty() {
            Ok(())
        } else {
            Err(CodecFault::Tail)
        }
    }
}
