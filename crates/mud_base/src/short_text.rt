//! Short texts in a fixed buffer.
ghost use Rattle.std.specs.Prelude.{◌≡◌, ◌+◌, ◌<◌, ◌≤◌, [], ◌∷◌, ◌++◌, length};

use std::marker::Model;

/// A text of at most 256 octets in a fixed buffer. It takes no memory and is copied. Contracts see
/// it as the list of its octets.
#[derive(Clone, Copy)]
pub struct ShortText {
    buffer: [u8; 256],
    len: usize,
}

impl Model for ShortText {
    ghost use Rattle.std.specs.Prelude.{ℕ, List, length};
    ghost use Rattle.mud_base.specs.Padded.{front, padded, IsPadded, padded-front, length-front};

    ghost Value = { List ℕ };

    ghost view = { λ t. front t.buffer t.len };

    ghost invariant = { λ t. IsPadded t.buffer t.len };

    ghost inverse = { λ text. record { buffer = padded text; len = length text } };

    ghost inverse_ok = { λ a h i. record { buffer = padded-front a.buffer a.len h i; len = length-front a.buffer a.len h i } };
}

impl ShortText {
    /// The most octets that a text has.
    pub const ROOM: usize = 256;

    /// The empty text.
    pub fn new() -> ShortText
        ensures { result ≡ [] }
    {
        ShortText {
            buffer: [0; 256],
            len: 0,
        }
    }

    /// The octets.
    pub fn octets(&self) -> &[u8]
        ensures value { result.now ≡ self.now }
        ensures short { length self.now ≤ 256 }
    {
        &self.buffer[..self.len]
    }

    /// How many octets there are.
    pub fn len(&self) -> usize
        ensures value { result ≡ length self.now }
        ensures short { result ≤ 256 }
    {
        self.len
    }

    /// Adds one octet at the end.
    pub fn push(&mut self, octet: u8)
        requires { length self.old < 256 }
        ensures { self.new ≡ self.old ++ octet ∷ [] }
    {
        self.buffer[self.len] = octet;
        self.len += 1;
    }
}
