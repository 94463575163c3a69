//! Tests of streams, and of the HTTP messages that these bring, by the public calls.
//!
//! Messages come whole and byte by byte, are cut after each byte, and each read and write fails in turn.
#![tactic(auto)]

#[cfg(test)]
mod chunks;
#[cfg(test)]
mod cuts;
#[cfg(test)]
mod faults;
#[cfg(test)]
mod heads;
#[cfg(test)]
mod lengths;
#[cfg(test)]
mod links;
#[cfg(test)]
mod long;
#[cfg(test)]
mod messages;
#[cfg(test)]
mod requests;
#[cfg(test)]
mod responses;
#[cfg(test)]
mod streams;
#[cfg(test)]
mod writing;
