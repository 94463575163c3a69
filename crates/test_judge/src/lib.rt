//! Tests of the judge, row by row.
#![tactic(auto)]

#[cfg(test)]
mod verdicts;
#[cfg(test)]
mod within;
