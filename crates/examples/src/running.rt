//! One example, and whether it writes its text.

use super::given::Given;
use source_api::Shelf;
use std::io::ErrorKind;
use std::rt::Files;
use std::sync::Wait;
use std::thread::Threads;
use std::time::Clock;
use std::{fs, io};
use tk_io::{Intake, MemPort, MemSink, StdIntake};
use topk_top::run_process;

/// The most bytes that an example writes.
const ROOM: u32 = 40_000;

/// The exit status of an example, a line with a file and the words of a command, and whether what it wrote is the text that stands beside the
/// file, under its name with the ending `.text`. An error where the line is none, or a file can't be read.
pub fn run_example<R: Files + AllocGlobal + Threads + Wait + Clock + Sync, H: Shelf>(
    rt: &R,
    shelf: &mut H,
    example: &str,
) -> io::Result<(u8, bool)> {
    let Some((input, command)) = example.split_once(' ') else {
        return Err(io::Error::from(ErrorKind::InvalidInput));
    };
    let text = text_of(rt, input)?;
    let ended = run_over(rt, shelf, input, Given { command }, &text);
    drop(text);
    ended
}

/// What a command over a file is to write: the file under the same name with the ending `.text`.
fn text_of<R: Files + AllocGlobal>(rt: &R, input: &str) -> io::Result<Vec<u8>> {
    let name = input.rsplit_once('.').unwrap_or((input, "")).0;
    fs::read(rt, format!(in rt.alloc(); "{name}.text")?)
}

/// The exit status of a process over a file, and whether it wrote this text.
fn run_over<R: Files + AllocGlobal + Threads + Wait + Clock + Sync, H: Shelf>(
    rt: &R,
    shelf: &mut H,
    input: &str,
    given: Given<'_>,
    text: &[u8],
) -> io::Result<(u8, bool)> {
    let mut input = StdIntake::make(fs::open(rt, input)?);
    let ended = write_by(rt, shelf, given, &mut input, text);
    drop(input);
    ended
}

/// The exit status of a process over an input, at a port to which nobody comes, and whether it wrote this text.
fn write_by<R: AllocGlobal + Threads + Wait + Clock + Sync, H: Shelf, I: Intake>(
    rt: &R,
    shelf: &mut H,
    given: Given<'_>,
    input: &mut I,
    text: &[u8],
) -> io::Result<(u8, bool)> {
    let Ok(mut port) = MemPort::make(rt.alloc(), Vec::new(rt.alloc()), &[]) else {
        return Err(io::Error::from(ErrorKind::OutOfMemory));
    };
    let Ok(mut out) = MemSink::make(rt.alloc(), ROOM, &[]) else {
        drop(port);
        return Err(io::Error::from(ErrorKind::OutOfMemory));
    };
    let code = run_process(rt, &given, rt.alloc(), shelf, input, &mut out, &mut port);
    let is_its_text = out.taken() == text;
    drop(out);
    drop(port);
    Ok((code, is_its_text))
}
