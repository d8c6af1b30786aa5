//! Laws of the fields: what was written is read back, and nothing else reads.
ghost use Rattle.std.specs.Prelude.{◌≡◌, ℕ, ◌+◌, ◌^◌, ◌<◌, ◌≤◌, List, ◌++◌, length, Ok};
ghost use Rattle.mud_base.specs.Numbers.{IsOctets};
ghost use Rattle.item_codec.specs.Spelling.{IsWidth, number, string, list, version, version_of};
ghost use Rattle.item_codec.specs.Reading.{IsRead, number_at, string_at, list_at, version_to, version_at};

/// Numbers, in each width.
pub fn numbers()
    // What was written is read back, whatever follows it.
    ensures back { (width value : ℕ) (rest : List ℕ) → IsWidth width → value < 256 ^ width
        → number_at width (number width value ++ rest) ≡ Ok (value, rest) }
    // What is read was written so, each octet of it.
    ensures alone { (width value : ℕ) (octets rest : List ℕ) → IsWidth width → IsOctets octets
        → number_at width octets ≡ Ok (value, rest)
        → IsRead octets (number width value) rest × (value < 256 ^ width) }
    // No number begins another.
    ensures apart { (width a b : ℕ) (x y : List ℕ) → IsWidth width → a < 256 ^ width → b < 256 ^ width
        → number width a ++ x ≡ number width b ++ y → (a ≡ b) × (x ≡ y) }
{}

/// Strings.
pub fn strings()
    // What was written is read back, whatever follows it.
    ensures back { (text rest : List ℕ) → length text < 2 ^ 32
        → string_at (string text ++ rest) ≡ Ok (text, rest) }
    // What is read was written so, each octet of it.
    ensures alone { (octets text rest : List ℕ) → IsOctets octets → string_at octets ≡ Ok (text, rest)
        → IsRead octets (string text) rest × (length text < 2 ^ 32) }
    // No string begins another.
    ensures apart { (a b x y : List ℕ) → length a < 2 ^ 32 → length b < 2 ^ 32
        → string a ++ x ≡ string b ++ y → (a ≡ b) × (x ≡ y) }
{}

/// Counts of lists.
pub fn lists()
    // What was written is read back, whatever follows it.
    ensures back { (count : ℕ) (rest : List ℕ) → count < 2 ^ 16
        → list_at (list count ++ rest) ≡ Ok (count, rest) }
    // What is read was written so, each octet of it.
    ensures alone { (octets : List ℕ) (count : ℕ) (rest : List ℕ) → IsOctets octets
        → list_at octets ≡ Ok (count, rest) → IsRead octets (list count) rest × (count < 2 ^ 16) }
    // No count begins another.
    ensures apart { (a b : ℕ) (x y : List ℕ) → a < 2 ^ 16 → b < 2 ^ 16
        → list a ++ x ≡ list b ++ y → (a ≡ b) × (x ≡ y) }
{}

/// Versions.
pub fn versions()
    // What was written is read back, whatever follows it and up to whichever version is asked for.
    ensures back_to { (most value : ℕ) (rest : List ℕ) → 1 ≤ value → value ≤ most → value < 256
        → version_to most (version_of value ++ rest) ≡ Ok (value, rest) }
    // What is read was written so, each octet of it.
    ensures alone_to { (most : ℕ) (octets : List ℕ) (value : ℕ) (rest : List ℕ) → IsOctets octets
        → version_to most octets ≡ Ok (value, rest)
        → IsRead octets (version_of value) rest × (1 ≤ value) × (value ≤ most) }
    // The version 1 is read back, whatever follows it.
    ensures back { (rest : List ℕ) → version_at (version ++ rest) ≡ Ok (1, rest) }
    // What is read so was written so, each octet of it.
    ensures alone { (octets : List ℕ) (value : ℕ) (rest : List ℕ) → IsOctets octets
        → version_at octets ≡ Ok (value, rest) → IsRead octets version rest × (value ≡ 1) }
{}
