//! Runs of `hear` and `check`.
ghost use Rattle.std.specs.Prelude.{◌≡◌, codes, IfOk};
ghost use Rattle.worked_runs.specs.Ends.{EndsWith};
ghost use Rattle.worked_runs.specs.Inputs.{bare_frame, lease_pieces};

use crate::ended::{Ended, run};
use crate::given::given_alone;
use crate::words::{one_word, two_words};
use mud_base::{Bytes, Listed, Memory};
use std::alloc::Global;

/// `hear dhcp` of an empty message.
pub fn hear_no_message(alloc: Global) -> Result<Ended, Memory>
    ensures { IfOk result (EndsWith (codes "fault Cut 0\n") 3) }
{
    let words = two_words(alloc, "hear", "dhcp")?;
    let given = given_alone(alloc, words, Listed::new(alloc));
    let ended = run(alloc, given)?;
    Ok(ended)
}

/// The front of a server's message to 02:00:00:00:00:01 about the address 192.0.2.10 (RFC 2131, section 2).
const FRONT: &[u8; 44] =
    b"\x02\x01\x06\0\0\0\0\x01\0\0\0\0\0\0\0\0\xc0\0\x02\x0a\0\0\0\0\0\0\0\0\x02\0\0\0\0\x01\0\0\0\0\0\0\0\0\0\0";

/// The names of a server and of a file, which say nothing here.
const NAMES: [u8; 192] = [0; 192];

/// The options of a message that leases the address for a day.
const LEASES: &[u8; 14] = b"c\x82Sc5\x01\x053\x04\0\x01Q\x80\xff";

/// The message of a lease, in three pieces.
fn lease_message(alloc: Global) -> Result<Listed<Bytes>, Memory>
    ensures { IfOk result (λ pieces. pieces ≡ lease_pieces) }
{
    let mut pieces = Listed::new(alloc);
    pieces.push(Bytes::new(alloc, FRONT)?)?;
    pieces.push(Bytes::new(alloc, &NAMES)?)?;
    pieces.push(Bytes::new(alloc, LEASES)?)?;
    Ok(pieces)
}

/// `hear dhcp` of a message that leases an address.
pub fn hear_lease(alloc: Global) -> Result<Ended, Memory>
    ensures { IfOk result (EndsWith (codes "lease 02:00:00:00:00:01 192.0.2.10 86400\n") 0) }
{
    let words = two_words(alloc, "hear", "dhcp")?;
    let pieces = lease_message(alloc)?;
    let given = given_alone(alloc, words, pieces);
    let ended = run(alloc, given)?;
    Ok(ended)
}

/// A frame without a MUD URL, of the source 02:00:00:00:00:10: its addresses and type, its mandatory
/// TLVs, and the end (IEEE 802.1AB).
const FRAME: &[u8; 38] =
    b"\x01\x80\xc2\0\0\x0e\x02\0\0\0\0\x10\x88\xcc\x02\x07\x04\x02\0\0\0\0\x10\x04\x07\x03\x02\0\0\0\0\x10\x06\x02\0\0\0\0";

/// The octets of that frame, in one piece.
fn bare_frame(alloc: Global) -> Result<Listed<Bytes>, Memory>
    ensures { IfOk result (λ pieces. pieces ≡ bare_frame) }
{
    let mut pieces = Listed::new(alloc);
    pieces.push(Bytes::new(alloc, FRAME)?)?;
    Ok(pieces)
}

/// `hear lldp` of a frame that announces nothing.
pub fn hear_frame(alloc: Global) -> Result<Ended, Memory>
    ensures { IfOk result (EndsWith (codes "nothing\n") 0) }
{
    let words = two_words(alloc, "hear", "lldp")?;
    let pieces = bare_frame(alloc)?;
    let given = given_alone(alloc, words, pieces);
    let ended = run(alloc, given)?;
    Ok(ended)
}

/// `check` of a file without an octet.
pub fn check_no_octets(alloc: Global) -> Result<Ended, Memory>
    ensures { IfOk result (EndsWith (codes "fault Json\n") 3) }
{
    let words = one_word(alloc, "check")?;
    let given = given_alone(alloc, words, Listed::new(alloc));
    let ended = run(alloc, given)?;
    Ok(ended)
}
