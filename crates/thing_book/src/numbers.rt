//! The numbers that the hardware addresses of Things spell.
ghost use Rattle.std.specs.Prelude.{◌≡◌, ◌≢◌, ℕ, ◌%◌, ◌<◌, ◌≤◌, ◌++◌, ◌∷◌, [], ◌==◌, if◌then◌else◌, length, slice_index, option_copied, IfSome, IfNone};
ghost use Rattle.table_model.specs.Things.{thing_at};
ghost use Rattle.thing_book.specs.Numbers.{IsMac, AreNumbersOf, AreRising, IsShared, mac_number};

use crate::key::number_of;
use crate::ranges::all_are_octets;
use base_rows::SortedRows;
use mud_base::Mac;
use std::marker::Model;
use table_model::Thing;
use table_model::limits::MOST_THINGS;

/// How many spots there are: four times as many as Things, so that few have one in common.
const SPOT_COUNT: usize = 2048;
/// What stands in a spot that no number has. It is the index of none.
const EMPTY: u16 = 65534;
/// What stands in a spot that several numbers have.
const SHARED: u16 = 65535;

/// The numbers that the hardware addresses of Things spell, in the order of the Things. Contracts see
/// the list of them.
///
/// Each has a spot, by what is left when it is divided by their number, and there stands its index.
/// So a hardware address is mostly looked for in one spot; where several numbers have it, they are
/// searched. Whoever chooses addresses that have one spot in common gains no more than that.
#[derive(Drop)]
pub(crate) struct ThingNumbers {
    room: [u64; MOST_THINGS],
    spots: [u16; SPOT_COUNT],
    count: usize,
}

impl Model for ThingNumbers {
    ghost use Rattle.std.specs.Prelude.{ℕ, List, take};
    ghost use Rattle.thing_book.specs.Numbers.{AreSpotted};

    ghost Value = { List ℕ };

    ghost view = { λ n. take n.count n.room };

    ghost invariant = { λ n. AreSpotted n.room n.spots n.count };
}

impl ThingNumbers {
    /// No numbers. It takes no memory.
    pub(crate) fn new() -> ThingNumbers
        ensures { result ≡ [] }
    {
        ThingNumbers {
            room: [0; MOST_THINGS],
            spots: [EMPTY; SPOT_COUNT],
            count: 0,
        }
    }

    /// Takes all numbers away.
    fn clear(&mut self)
        ensures { self.new ≡ [] }
    {
        self.spots = [EMPTY; SPOT_COUNT];
        self.count = 0;
    }

    /// Adds the number of a hardware address behind the others.
    pub(crate) fn push(&mut self, mac: &Mac)
        requires { length self.old < 512 }
        ensures number { self.new ≡ self.old ++ mac_number mac.now ∷ [] }
        ensures octets { IsMac mac.now }
    {
        is_mac(mac);
        let number = number_of(mac);
        let spot = spot_of(number);
        let there = self.spots[spot];
        self.spots[spot] = taken_by(there, self.count);
        self.room[self.count] = number;
        self.count += 1;
    }

    /// Takes the numbers of these Things in place of all others.
    pub(crate) fn write(&mut self, things: &[Thing])
        requires { length things.now ≤ 512 }
        ensures { AreNumbersOf things.now self.new }
    {
        self.clear();
        for thing in things {
            self.push(&thing.mac);
        }
    }

    /// The index of the number of a hardware address.
    fn find(&self, mac: &Mac) -> Option<usize>
        requires { AreRising self.now }
        ensures found { IfSome result (λ i. (i < length self.now) × (slice_index self.now i ≡ mac_number mac.now)) }
        ensures none { IfNone result ((k : ℕ) → k < length self.now → slice_index self.now k ≢ mac_number mac.now) }
    {
        let number = number_of(mac);
        let spot = self.spots[spot_of(number)];
        if spot == SHARED {
            return found_in(&self.room[..self.count], number);
        }
        let index = usize::from(spot);
        if index >= self.count {
            return None;
        }
        if self.room[index] != number {
            return None;
        }
        Some(index)
    }
}

/// The spot of a number.
fn spot_of(number: u64) -> usize
    ensures value { result ≡ number % 2048 }
    ensures within { result < 2048 }
{
    (number % SPOT_COUNT as u64) as usize
}

/// What stands in a spot once the number of this index has it too.
fn taken_by(there: u16, index: usize) -> u16
    requires { index < 512 }
    ensures { result ≡ (if there == 65534 then index else 65535) }
{
    if there == EMPTY { index as u16 } else { SHARED }
}

/// The index of a number among these, of which several have its spot: no others are searched.
fn found_in(numbers: &[u64], number: u64) -> Option<usize>
    requires rising { AreRising numbers.now }
    requires shared { IsShared numbers.now (length numbers.now) (number % 2048) }
    ensures found { IfSome result (λ i. (i < length numbers.now) × (slice_index numbers.now i ≡ number)) }
    ensures none { IfNone result ((k : ℕ) → k < length numbers.now → slice_index numbers.now k ≢ number) }
{
    match numbers.binary_search(&number) {
        Ok(index) => Some(index),
        Err(_) => None,
    }
}

/// A hardware address has six octets.
fn is_mac(mac: &Mac)
    ensures { IsMac mac.now }
{
    let octets = mac.0;
    all_are_octets(&octets);
}

/// The Thing of a hardware address, found by its number.
pub(crate) fn numbered_thing<'a>(
    things: &'a SortedRows<Thing>,
    numbers: &ThingNumbers,
    mac: &Mac,
) -> Option<&'a Thing>
    requires { AreNumbersOf things.now.rows numbers.now }
    ensures { option_copied result ≡ thing_at mac.now things.now.rows }
{
    is_mac(mac);
    let rows = things.rows();
    match numbers.find(mac) {
        Some(index) => rows.get(index),
        None => None,
    }
}
