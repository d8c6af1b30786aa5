//! Tests of the rows that are compiled and of the table of connections: that after changes by chance
//! the rows are those of plain tables, that addresses without rows are forgotten, who began a
//! connection after pauses and a reset, and the list of the default entries. No other crate stands on it.
#![tactic(auto)]

#[cfg(test)]
mod addresses;
#[cfg(test)]
mod compiled;
#[cfg(test)]
mod connections;
#[cfg(test)]
mod resolved;
