//! The buffer.
ghost use Rattle.std.specs.Prelude.{◌≡◌, ◌+◌, ◌≤◌, [], ◌∷◌, ◌++◌, length, take, IfOk};
ghost use Rattle.console_answers.specs.Kept.{kept};

use mud_base::Memory;
use std::alloc::Global;
use std::marker::Model;

/// A text in a buffer of 4,096 octets. What doesn't fit is cut off. Contracts see it as the list of
/// its octets.
#[derive(Drop)]
pub struct AnswerBuffer {
    octets: Vec<u8>,
    len: usize,
}

impl Model for AnswerBuffer {
    ghost use Rattle.std.specs.Prelude.{ℕ, List, take};
    ghost use Rattle.console_answers.specs.Rooms.{IsFilled};

    ghost Value = { List ℕ };

    ghost view = { λ b. take b.len b.octets.items };

    ghost invariant = { λ b. IsFilled b.octets.items b.len };
}

/// The most octets of a text.
const ROOM: usize = 4096;

/// Copies a text to an offset, and says where it ends.
fn put_in(octets: &mut [u8], at: usize, text: &[u8]) -> usize
    requires { at + length text.now ≤ length octets.old }
    ensures front { take result octets.new ≡ take at octets.old ++ text.now }
    ensures end { result ≡ at + length text.now }
    ensures len { length octets.new ≡ length octets.old }
{
    let end = at + text.len();
    octets[at..end].copy_from_slice(text);
    end
}

impl AnswerBuffer {
    /// An empty text. All memory that it ever needs is taken here.
    pub fn new(alloc: Global) -> Result<AnswerBuffer, Memory>
        ensures { IfOk result (λ buffer. buffer ≡ []) }
    {
        let octets = vec![in alloc; 0; ROOM]?;
        Ok(AnswerBuffer { octets, len: 0 })
    }

    /// The octets.
    pub fn octets(&self) -> &[u8]
        ensures value { result.now ≡ self.now }
        ensures short { length self.now ≤ 4096 }
    {
        &self.octets[..self.len]
    }

    /// How many octets there are.
    pub fn len(&self) -> usize
        ensures value { result ≡ length self.now }
        ensures short { result ≤ 4096 }
    {
        self.len
    }

    /// Takes all octets away.
    pub fn clear(&mut self)
        ensures { self.new ≡ [] }
    {
        self.len = 0;
    }

    /// Adds an octet at the end, where it fits.
    #[tactic(auto, using(crate::proofs::KeptLemmas::front_pushed, crate::proofs::KeptLemmas::front_full))]
    pub fn push(&mut self, octet: u8)
        ensures { self.new ≡ kept (self.old ++ octet ∷ []) }
    {
        if self.len < ROOM {
            self.octets[self.len] = octet;
            self.len += 1;
        }
    }

    /// Adds octets at the end, as many of them as fit.
    pub fn put(&mut self, text: &[u8])
        ensures { self.new ≡ kept (self.old ++ text.now) }
    {
        let fits = (ROOM - self.len).min(text.len());
        self.len = put_in(self.octets.as_mut_slice(), self.len, &text[..fits]);
    }
}
