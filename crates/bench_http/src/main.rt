//! What `make bench` times of HTTP: a response is read over and over, by what topk reads a list's pages with.
//!
//! The response is the standard input. At the word `bare` the crates below alone read it. It prints how many rows the response had each time.
#![tactic(auto)]

mod bare;
mod whole;

use std::alloc::Global;
use std::env::Env;
use std::io;
use tk_io::{StdIntake, read_text};
use topk_base::MAX_BODY;

/// How often the response is read.
const ROUNDS: u32 = 100;

/// By which crates a response is read.
#[derive(Clone, Copy, PartialEq, Eq)]
enum By {
    /// `wire` and `page_json`.
    Whole,
    /// `httparse` and `serde_json`.
    Bare,
}

/// Prints how many rows there were, or that there was no page of rows.
fn main(rt: HostRuntime) -> io::Result<()> {
    let mut input = StdIntake::make(rt.stdin());
    let response = match read_text(rt.alloc(), &mut input, MAX_BODY as u64) {
        Ok(response) => response,
        Err(_) => return println!(rt; "no response"),
    };
    match read_often(rt.alloc(), &response, by_of(&rt)) {
        Some(rows) => println!(rt; "{rows} rows"),
        None => println!(rt; "no page of rows"),
    }
}

/// What the first word says.
fn by_of(env: &impl Env) -> By {
    let mut word = [0; 4];
    match env.arg(1, &mut word) {
        Ok(4) if word == *b"bare" => By::Bare,
        _ => By::Whole,
    }
}

/// Reads the response so many times, and gives the number of its rows.
fn read_often(alloc: Global, response: &[u8], by: By) -> Option<usize> {
    let mut rows = None;
    for _ in 0..ROUNDS {
        rows = match by {
            By::Whole => whole::rows_of(alloc, response),
            By::Bare => bare::rows_of(alloc, response),
        };
    }
    rows
}
