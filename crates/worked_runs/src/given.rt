//! What runs are given.
ghost use Rattle.std.specs.Prelude.{◌≡◌, [], ◌∷◌, IfOk};
ghost use Rattle.run_words.specs.Words.{words_of};
ghost use Rattle.worked_runs.specs.Ends.{ReadsOver};
ghost use Rattle.worked_runs.specs.Inputs.{empty_capture, unknown_item};

use crate::ended::Given;
use mud_base::{Bytes, Listed, Memory, Moment};
use mud_world::Item;
use std::alloc::Global;

/// These words and pieces, an empty folder, and a store of these items.
pub(crate) fn given_over(
    alloc: Global,
    words: Vec<String>,
    pieces: Listed<Bytes>,
    items: Listed<Item>,
) -> Given
    ensures { ReadsOver items (words_of words.items) pieces result }
{
    Given {
        words,
        pieces,
        files: Listed::new(alloc),
        moment: Moment::at_most_last(1000),
        items,
    }
}

/// These words and pieces, an empty folder, and a store that holds nothing.
pub(crate) fn given_alone(alloc: Global, words: Vec<String>, pieces: Listed<Bytes>) -> Given
    ensures { ReadsOver [] (words_of words.items) pieces result }
{
    given_over(alloc, words, pieces, Listed::new(alloc))
}

/// An item of a kind that no record has, without a key.
pub(crate) fn unknown_items(alloc: Global) -> Result<Listed<Item>, Memory>
    ensures { IfOk result (λ items. items ≡ unknown_item ∷ []) }
{
    let mut items = Listed::new(alloc);
    items.push(Item {
        kind: 9,
        key: Bytes::empty(alloc),
        body: Bytes::empty(alloc),
    })?;
    Ok(items)
}

/// The header of a capture in the classic format, in microseconds, whose packets are Ethernet frames.
const HEADER: [u8; 24] = [
    0xD4, 0xC3, 0xB2, 0xA1, 2, 0, 4, 0, 0, 0, 0, 0, 0, 0, 0, 0, 0, 0, 4, 0, 1, 0, 0, 0,
];

/// A capture of no packet.
pub(crate) fn empty_capture(alloc: Global) -> Result<Listed<Bytes>, Memory>
    ensures { IfOk result (λ pieces. pieces ≡ empty_capture) }
{
    let mut pieces = Listed::new(alloc);
    pieces.push(Bytes::new(alloc, &HEADER)?)?;
    Ok(pieces)
}
