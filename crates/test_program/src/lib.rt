//! Tests of the whole program over a door, a keeper, a spool and a clock in memory, where each single
//! call of them fails in turn. No other crate stands on it.
#![tactic(auto)]

#[cfg(test)]
mod bulb;
#[cfg(test)]
mod captures;
#[cfg(test)]
mod connections;
#[cfg(test)]
mod exports;
#[cfg(test)]
mod folders;
#[cfg(test)]
mod items;
#[cfg(test)]
mod memory;
#[cfg(test)]
mod pcapngs;
#[cfg(test)]
mod replays;
#[cfg(test)]
mod requests;
#[cfg(test)]
mod runs;
#[cfg(test)]
mod snoops;
#[cfg(test)]
mod stores;
#[cfg(test)]
mod tallies;
