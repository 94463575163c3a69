//! Runs each example of the input, and says how it ended and whether it wrote the text that stands beside its file.
//!
//! A line of the input has the file and the words of a command. Each runs as a process of the program runs, over real files.
#![tactic(auto)]

mod given;
mod running;

use place_shelf::PlaceShelf;
use running::run_example;
use std::io;

/// Prints a line for each example.
fn main(rt: HostRuntime) -> io::Result<()> {
    let examples = io::read_to_string(rt.alloc(), rt.stdin())?;
    for example in examples.lines() {
        let mut shelf = PlaceShelf::make(rt.alloc(), &rt, &rt);
        let ended = run_example(&rt, &mut shelf, example);
        drop(shelf);
        let (code, is_its_text) = ended?;
        let what = if is_its_text { "its" } else { "another" };
        println!(rt; "{example} ends with {code}, and wrote {what} text")?;
    }
    Ok(())
}
