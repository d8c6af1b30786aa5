//! Tests of what no clause says of values, of what is read of octets, and of the machine's own door,
//! clock and folder. No other crate stands on it.
#![tactic(auto)]

#[cfg(test)]
mod addresses;
#[cfg(test)]
mod captured_lines;
#[cfg(test)]
mod captures;
#[cfg(test)]
mod dns;
#[cfg(test)]
mod doors;
#[cfg(test)]
mod machine;
#[cfg(test)]
mod pcapng_captures;
#[cfg(test)]
mod urls;
