//! Writing the fields of an item, one after the other.
ghost use Rattle.std.specs.Prelude.{◌≡◌, [], ◌++◌, ◌^◌, ◌<◌, length, OnOk, OnErr};
ghost use Rattle.item_codec.specs.Spelling as spec;

use mud_base::{Bytes, Memory};
use std::alloc::Global;
use std::marker::Model;

/// A writer of fields. Contracts see it as its text: the list of the octets that were written.
/// Where memory is wanted the text stays as it was.
#[derive(Drop)]
pub struct FieldWriter {
    text: Vec<u8>,
}

impl Model for FieldWriter {
    ghost use Rattle.std.specs.Prelude.{ℕ, List};

    ghost Value = { List ℕ };

    ghost view = { λ w. w.text.items };
}

impl FieldWriter {
    /// A writer with the empty text. It takes no memory.
    pub fn new(alloc: Global) -> FieldWriter
        ensures { result ≡ [] }
    {
        FieldWriter {
            text: Vec::new(alloc),
        }
    }

    /// The text. It takes no memory.
    pub fn into_bytes(self) -> Bytes
        ensures { result ≡ self }
    {
        let FieldWriter { text } = self;
        Bytes::from_vec(text)
    }

    /// Writes a number in 1, 2, 4 or 8 octets, most significant first.
    pub fn number(&mut self, width: u8, value: u64) -> Result<(), Memory>
        requires width { spec.IsWidth width }
        requires fits { value < 256 ^ width }
        ensures ok { OnOk result (self.new ≡ self.old ++ spec.number width value) }
        ensures err { OnErr result (self.new ≡ self.old) }
    {
        append_number(&mut self.text, width, value)
    }

    /// Writes a string: its length in four octets, and its octets.
    pub fn string(&mut self, octets: &[u8]) -> Result<(), Memory>
        requires { length octets.now < 2 ^ 32 }
        ensures ok { OnOk result (self.new ≡ self.old ++ spec.string octets.now) }
        ensures err { OnErr result (self.new ≡ self.old) }
    {
        append_string(&mut self.text, octets)
    }
}

#[tactic(auto, using(crate::proofs::Numbers::width_le, crate::proofs::Widths::low_octets), unfolding(crate::specs::Spelling::number))]
fn append_number(text: &mut Vec<u8>, width: u8, value: u64) -> Result<(), Memory>
    requires { spec.IsWidth width }
    ensures ok { OnOk result (text.new.items ≡ text.old.items ++ spec.number width value) }
    ensures err { OnErr result (text.new.items ≡ text.old.items) }
{
    let octets = value.to_be_bytes();
    let (_, low) = octets.split_at(8 - width as usize);
    text.extend_from_slice(low)?;
    Ok(())
}

#[tactic(auto, unfolding(crate::specs::Spelling::number, crate::specs::Spelling::string))]
fn append_string(text: &mut Vec<u8>, octets: &[u8]) -> Result<(), Memory>
    requires { length octets.now < 2 ^ 32 }
    ensures ok { OnOk result (text.new.items ≡ text.old.items ++ spec.string octets.now) }
    ensures err { OnErr result (text.new.items ≡ text.old.items) }
{
    let len = octets.len() as u32;
    text.reserve(4 + octets.len())?;
    text.extend_from_slice(&len.to_be_bytes())?;
    text.extend_from_slice(octets)?;
    Ok(())
}
