//! Tests of a desk over a keeper whose files stop. No other crate stands on it.
#![tactic(auto)]

#[cfg(test)]
mod batches;
#[cfg(test)]
mod bulb;
#[cfg(test)]
mod commands;
#[cfg(test)]
mod desks;
#[cfg(test)]
mod files;
#[cfg(test)]
mod lists;
#[cfg(test)]
mod stops;
#[cfg(test)]
mod switch;
#[cfg(test)]
mod views;
