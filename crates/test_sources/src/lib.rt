//! Tests of what no clause says of sources and links: a file whose reads fail in turn, and real connections.
#![tactic(auto)]

#[cfg(test)]
mod file_faults;
#[cfg(test)]
mod links_over_tcp;
